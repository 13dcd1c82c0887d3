ghost use Rattle.std.specs.Prelude.{◌≡◌, ◌≤◌, [], ◌++◌, IfOk, OnOk, OnErr, vec_len};

use lines::{Line, Marks};
use std::alloc::{AllocError, Global};

// A row of houses that is made line by line, for a file that the marker gets: its houses and their counters, its lines
// and their capacity.
#[derive(Drop)]
pub struct Sketch {
    pub houses: u8,
    pub capacity: u8,
    pub lines: Vec<Line>,
    pub counters: Vec<u8>,
    ghost few: { vec_len lines ≤ 128 },
}

impl Sketch {
    ghost use Rattle.std.specs.List.{flat_map};
    ghost use Rattle.plan.specs.Files.{header, record_of};
    ghost use Rattle.samples.specs.Sketches.{joined, ring, chain, HasLines};

    // That many houses with no line, capacity 1.
    pub fn row(alloc: Global, houses: u8) -> Result<Sketch, AllocError>
        ensures { IfOk result (HasLines houses []) }
    {
        Ok(Sketch {
            houses,
            capacity: 1,
            lines: Vec::new(alloc),
            counters: vec![in alloc; 0; usize::from(houses)]?,
        })
    }

    // Adds an unmarked line between two houses, not from a house to itself, up to the greatest number of lines.
    pub fn join(&mut self, from: u8, to: u8) -> Result<(), AllocError>
        ensures ok { OnOk result (self.new.lines.items ≡ joined self.old.lines.items from to) }
        ensures err { OnErr result (self.new.lines.items ≡ self.old.lines.items) }
        ensures rest { (self.new.houses ≡ self.old.houses) × (self.new.capacity ≡ self.old.capacity) × (self.new.counters ≡ self.old.counters) }
    {
        if from != to && self.lines.len() < 128 {
            self.lines.push(Line {
                from,
                to,
                marks: Marks::Neither,
            })?;
        }
        Ok(())
    }

    // Lines from each house to the next, and from the last to the head.
    pub fn ring(alloc: Global, houses: u8) -> Result<Sketch, AllocError>
        ensures { IfOk result (HasLines houses (ring houses)) }
    {
        let mut sketch = Sketch::row(alloc, houses)?;
        let last = houses.saturating_sub(1);
        for house in 0..last {
            sketch.join(house, house + 1)?;
        }
        sketch.join(last, 0)?;
        Ok(sketch)
    }

    // Lines each way between neighbours.
    pub fn chain(alloc: Global, houses: u8) -> Result<Sketch, AllocError>
        ensures { IfOk result (HasLines houses (chain houses)) }
    {
        let mut sketch = Sketch::row(alloc, houses)?;
        for house in 0..houses.saturating_sub(1) {
            sketch.join(house, house + 1)?;
            sketch.join(house + 1, house)?;
        }
        Ok(sketch)
    }

    // The file of the row.
    pub fn file(&self, alloc: Global) -> Result<Vec<u8>, AllocError>
        ensures { IfOk result (λ v. v.items ≡ header self.now.houses (vec_len self.now.lines) self.now.capacity ++ (flat_map record_of self.now.lines.items ++ self.now.counters.items)) }
    {
        let [high, low] = (self.lines.len() as u16).to_be_bytes();
        let mut file = Vec::from_slice(
            alloc,
            &[
                b'R',
                b'O',
                b'W',
                0,
                1,
                self.houses,
                high,
                low,
                self.capacity,
            ],
        )?;
        for line in &self.lines {
            file.extend_from_slice(&[line.from, line.to, line.marks.number()])?;
        }
        file.extend_from_slice(&self.counters)?;
        Ok(file)
    }
}

#[cfg(test)]
mod tests {
    use super::*;
    use std::test::Fail;

    #[test]
    fn rows_and_their_files(rt: HostRuntime) -> Result<(), Fail> {
        let alloc = rt.alloc();
        let mut row = Sketch::row(alloc, 2)?;
        row.join(1, 0)?;
        row.join(1, 1)?;
        let file = [0x52, 0x4F, 0x57, 0, 1, 2, 0, 1, 1, 1, 0, 0, 0, 0];
        assert_eq!(rt; row.file(alloc)?.as_slice(), file.as_slice());
        let ring = [0x52, 0x4F, 0x57, 0, 1, 2, 0, 2, 1, 0, 1, 0, 1, 0, 0, 0, 0];
        assert_eq!(rt;
            Sketch::ring(alloc, 2)?.file(alloc)?.as_slice(),
            ring.as_slice()
        );
        assert_eq!(rt;
            Sketch::chain(alloc, 2)?.file(alloc)?.as_slice(),
            ring.as_slice()
        );
        assert_eq!(rt; Sketch::ring(alloc, 48)?.lines.len(), 48);
        assert_eq!(rt; Sketch::chain(alloc, 48)?.lines.len(), 94);
        Ok(())
    }
}

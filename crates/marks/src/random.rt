// Pseudo-random files in form, marked by the library and by the second marker.
use crate::shown::Answers;
use fault::Cause;
use lines::{Line, Marks};
use samples::{Sketch, Source};
use std::alloc::{AllocError, Global};
use std::io;

const FILES: usize = 4_000;

// A number below the limit, by the upper byte of what is drawn.
fn below(source: &mut Source, limit: u8) -> u8 {
    (source.below(256 * u16::from(limit)) / 256) as u8
}

// Joins two houses at random, where there are two.
fn join(source: &mut Source, sketch: &mut Sketch) -> Result<(), AllocError> {
    let from = below(source, sketch.houses);
    let to = below(source, sketch.houses);
    sketch.join(from, to)
}

// Gives each house but the head a way from it, over lower houses, and those below some house a way to it.
fn join_all(source: &mut Source, sketch: &mut Sketch) -> Result<(), AllocError> {
    let end = below(source, 96);
    for house in 1..sketch.houses {
        let from = below(source, house);
        let to = below(source, house);
        sketch.join(from, house)?;
        if house < end {
            sketch.join(house, to)?;
        }
    }
    Ok(())
}

// Numbers the lines anew, and gives them marks at random.
fn shuffle(source: &mut Source, lines: &mut [Line]) {
    for line in 0..lines.len() {
        let other = usize::from(below(source, 128));
        if other < line {
            lines.swap(line, other);
        }
        let marks = below(source, 4);
        lines[line].marks = Marks::of(marks & 1 != 0, marks & 2 != 0);
    }
}

fn next_file(heap: Global, source: &mut Source) -> Result<Vec<u8>, AllocError> {
    let mut sketch = Sketch::row(heap, below(source, 48).saturating_add(1))?;
    if below(source, 2) == 0 {
        join_all(source, &mut sketch)?;
    }
    for _ in 0..below(source, 160) {
        join(source, &mut sketch)?;
    }
    shuffle(source, sketch.lines.as_mut_slice());
    for counter in sketch.counters.iter_mut() {
        *counter = below(source, 48);
    }
    sketch.capacity = below(source, 4).saturating_add(1);
    sketch.file(heap)
}

// How many files were marked, how many refused by 12, by 13 and by another number, and on how many the markers differ.
#[derive(Default, Drop)]
struct Tally {
    marked: usize,
    from_head: usize,
    to_head: usize,
    other: usize,
    differ: usize,
}

impl Tally {
    fn add(&mut self, answers: &Answers) {
        let kind = match &answers.first {
            Ok(_) => &mut self.marked,
            Err(fault) => match fault.cause {
                Cause::NoWayFromHead => &mut self.from_head,
                Cause::NoWayToHead => &mut self.to_head,
                _ => &mut self.other,
            },
        };
        *kind = kind.saturating_add(1);
        if !answers.agree() {
            self.differ = self.differ.saturating_add(1);
        }
    }
}

pub fn random_files(rt: &HostRuntime) -> io::Result<()> {
    let mut source = Source { state: 1 };
    let mut tally = Tally::default();
    for _ in 0..FILES {
        let file = next_file(rt.alloc(), &mut source)?;
        tally.add(&Answers::of(rt.alloc(), file.as_slice())?);
    }
    let Tally {
        marked,
        from_head,
        to_head,
        other,
        differ,
    } = tally;
    println!(rt; "random files: {FILES}, {marked} marked")?;
    println!(rt;
        "random files: {from_head} refused by 12, {to_head} by 13, {other} by another number"
    )?;
    println!(rt; "random files: the markers differ on {differ}")
}

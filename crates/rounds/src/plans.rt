// A ring of five houses with a shortcut, and random rows, all marked by the marker.
use lines::Line;
use marker::mark;
use plan::Plan;
use samples::{Sketch, Source};
use std::alloc::{AllocError, Global};

// The plan of a row in which every house has ways to the head and from it.
fn marked(heap: Global, sketch: &Sketch) -> Result<Plan, AllocError> {
    let file = sketch.file(heap)?;
    let mut plan = Plan::new();
    let _ = mark(file.as_slice(), &mut plan);
    Ok(plan)
}

// The ring with that capacity: lines from each house to the next and from the last to the head, and one from the head
// to house 3.
pub fn ring(heap: Global, capacity: u8) -> Result<Plan, AllocError> {
    let mut sketch = Sketch::ring(heap, 5)?;
    sketch.join(0, 3)?;
    sketch.capacity = capacity;
    marked(heap, &sketch)
}

fn random_house(source: &mut Source, houses: u8) -> u8 {
    source.below(u16::from(houses)) as u8
}

// Puts the lines in another order.
fn shuffle(source: &mut Source, lines: &mut [Line]) {
    for i in 0..lines.len() {
        let j = usize::from(source.below(128));
        if j < lines.len() {
            lines.swap(i, j);
        }
    }
}

// A row of those houses: a ring or a chain, and up to so many lines more.
pub fn random_plan(
    heap: Global,
    source: &mut Source,
    houses: u8,
    more: u16,
) -> Result<Plan, AllocError> {
    let is_ring = source.below(2) == 0;
    let tries = source.below(more);
    let capacity = source.one_to(4) as u8;
    let mut sketch = if is_ring {
        Sketch::ring(heap, houses)?
    } else {
        Sketch::chain(heap, houses)?
    };
    for _ in 0..tries {
        let from = random_house(source, houses);
        let to = random_house(source, houses);
        sketch.join(from, to)?;
    }
    shuffle(source, sketch.lines.as_mut_slice());
    sketch.capacity = capacity;
    marked(heap, &sketch)
}

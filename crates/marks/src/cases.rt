// Named rows, and files that are not in form.
use crate::shown::print_marked;
use lines::Marks;
use samples::{Sketch, edited};
use std::alloc::{AllocError, Global};
use std::io;

// A name, how many houses a row has, and its unmarked lines.
type Row = (&'static str, u8, &'static [(u8, u8)]);

// A name, the bytes that are changed in the file of two houses, and the length that it is then given.
type Edit = (&'static str, &'static [(usize, u8)], usize);

const SMALL_ROWS: [Row; 5] = [
    ("one house", 1, &[]),
    ("two houses", 2, &[(0, 1), (1, 0)]),
    (
        "parallel lines, the lower number wins",
        2,
        &[(1, 0), (0, 1), (0, 1), (1, 0)],
    ),
    (
        "a lower line on a longer way",
        3,
        &[(0, 1), (1, 2), (2, 1), (1, 0), (0, 2), (2, 0)],
    ),
    (
        "two ways of one length, the lower line wins",
        4,
        &[
            (0, 1),
            (0, 2),
            (2, 3),
            (1, 3),
            (3, 2),
            (3, 1),
            (2, 0),
            (1, 0),
        ],
    ),
];

const CUT_OFF: [Row; 6] = [
    ("two houses, no line", 2, &[]),
    ("no way to house 2", 3, &[(0, 1), (1, 0), (2, 0)]),
    ("no way from house 2", 3, &[(0, 1), (1, 0), (0, 2)]),
    ("no way from house 1, none to house 2", 3, &[(0, 1), (2, 0)]),
    (
        "houses 2 and 3 in a ring apart",
        4,
        &[(0, 1), (1, 0), (2, 3), (3, 2)],
    ),
    (
        "houses 2 and 3 in a ring that nothing leaves",
        4,
        &[(0, 1), (1, 0), (2, 3), (3, 2), (1, 3)],
    ),
];

const FORM: [Edit; 10] = [
    ("8 bytes", &[], 8),
    ("mark byte 1", &[(1, 0x4E)], 17),
    ("version 2", &[(4, 2)], 17),
    ("n 0", &[(5, 0)], 17),
    ("m 129", &[(7, 129)], 17),
    ("k 5", &[(8, 5)], 17),
    ("one byte long", &[], 18),
    ("from equal to n", &[(12, 2)], 17),
    ("to equal to from", &[(10, 0)], 17),
    ("marks 4, house 1 cut off", &[(12, 0), (13, 1), (14, 4)], 17),
];

fn sketched(heap: Global, houses: u8, ends: &[(u8, u8)]) -> Result<Sketch, AllocError> {
    let mut sketch = Sketch::row(heap, houses)?;
    for (from, to) in ends {
        sketch.join(*from, *to)?;
    }
    Ok(sketch)
}

// The longest file: a chain of 48 houses with 34 shortcuts.
fn longest(heap: Global) -> Result<Sketch, AllocError> {
    let mut sketch = Sketch::chain(heap, 48)?;
    for i in 0u8..34 {
        sketch.join(i * 5 % 48, (i * 7 + 11) % 48)?;
    }
    Ok(sketch)
}

fn print_sketch(rt: &HostRuntime, name: &str, sketch: &Sketch) -> io::Result<()> {
    print_marked(rt, name, sketch.file(rt.alloc())?.as_slice())
}

fn rows(rt: &HostRuntime, table: &[Row]) -> io::Result<()> {
    for (name, houses, ends) in table {
        print_sketch(rt, name, &sketched(rt.alloc(), *houses, ends)?)?;
    }
    Ok(())
}

fn large_rows(rt: &HostRuntime) -> io::Result<()> {
    let heap = rt.alloc();
    print_sketch(rt, "ring of eight", &Sketch::ring(heap, 8)?)?;
    print_sketch(rt, "chain of 48", &Sketch::chain(heap, 48)?)?;
    print_sketch(rt, "ring of 48", &Sketch::ring(heap, 48)?)?;
    print_sketch(rt, "48 houses, 128 lines", &longest(heap)?)
}

// The marks and counters of the file are ignored.
fn wrong_marks(rt: &HostRuntime) -> io::Result<()> {
    let mut ring = Sketch::ring(rt.alloc(), 3)?;
    print_sketch(rt, "ring of three", &ring)?;
    for line in ring.lines.iter_mut() {
        line.marks = Marks::Both;
    }
    ring.counters.fill(9);
    print_sketch(rt, "ring of three, wrong marks and counters", &ring)
}

fn form(rt: &HostRuntime) -> io::Result<()> {
    let file = Sketch::chain(rt.alloc(), 2)?.file(rt.alloc())?;
    for (name, edits, length) in FORM {
        let file = edited(rt.alloc(), file.as_slice(), edits, length)?;
        print_marked(rt, name, file.as_slice())?;
    }
    Ok(())
}

pub fn cases(rt: &HostRuntime) -> io::Result<()> {
    rows(rt, &SMALL_ROWS)?;
    large_rows(rt)?;
    rows(rt, &CUT_OFF)?;
    wrong_marks(rt)?;
    form(rt)
}

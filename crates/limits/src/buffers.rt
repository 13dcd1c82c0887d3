// Plans written into buffers that are too short, exact and longer.
use plan::{Plan, read};
use samples::{LONGEST, ONE_HOUSE, TERRACE};
use std::io;

// A name, a plan's file, and the length of the buffer that the plan is written into.
type Case = (&'static str, &'static [u8], usize);

const CASES: [Case; 10] = [
    ("one house", &ONE_HOUSE, 0),
    ("one house", &ONE_HOUSE, 9),
    ("one house", &ONE_HOUSE, 10),
    ("one house", &ONE_HOUSE, 11),
    ("terrace", &TERRACE, 84),
    ("terrace", &TERRACE, 85),
    ("terrace", &TERRACE, 86),
    ("longest", &LONGEST, 440),
    ("longest", &LONGEST, 441),
    ("longest", &LONGEST, 500),
];

const FILL: u8 = 0xEE;

// Whether the buffer is the file and then the fill.
fn holds(buffer: &[u8], file: &[u8]) -> bool {
    buffer
        .strip_prefix(file)
        .is_some_and(|rest| rest.iter().all(|b| *b == FILL))
}

// Prints what the writer says of the file's plan at a buffer of that length, and whether the buffer then holds what it
// should.
fn write_case(rt: &HostRuntime, (name, file, length): Case) -> io::Result<()> {
    let mut place = Plan::new();
    if read(file, &mut place).is_err() {
        return println!(rt; "{name}: no plan");
    }
    let mut buffer = vec![in rt.alloc(); FILL; length]?;
    match place.write(buffer.as_mut_slice()) {
        Ok(written) => {
            let right = holds(buffer.as_slice(), file);
            println!(rt; "{name}, buffer of {length}: ok {written}, bytes right: {right}")
        }
        Err(fault) => {
            let untouched = holds(buffer.as_slice(), &[]);
            println!(rt; "{name}, buffer of {length}: {fault}, untouched: {untouched}")
        }
    }
}

pub fn buffers(rt: &HostRuntime) -> io::Result<()> {
    for case in CASES {
        write_case(rt, case)?;
    }
    Ok(())
}

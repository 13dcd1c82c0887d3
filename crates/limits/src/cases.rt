// Named cases: a file with some bytes changed, or cut or made longer, and what the reader says.
use crate::second::judged;
use fault::Fault;
use plan::{Plan, read};
use samples::{LONGEST, ONE_HOUSE, TERRACE, TWO_HOUSES, edited};
use std::io;

// A name, an accepted file, the bytes that are changed in it, and the length that it is then given.
type Case = (&'static str, &'static [u8], &'static [(usize, u8)], usize);

const HEADERS: [Case; 14] = [
    ("8 bytes", &ONE_HOUSE, &[], 8),
    ("9 bytes", &ONE_HOUSE, &[], 9),
    ("mark byte 0", &ONE_HOUSE, &[(0, 0x53)], 10),
    ("mark byte 1", &ONE_HOUSE, &[(1, 0x4E)], 10),
    ("mark byte 2", &ONE_HOUSE, &[(2, 0x58)], 10),
    ("mark bytes 1 and 2", &ONE_HOUSE, &[(1, 0), (2, 0)], 10),
    ("version 0", &ONE_HOUSE, &[(4, 0)], 10),
    ("version 1", &ONE_HOUSE, &[], 10),
    ("version 2", &ONE_HOUSE, &[(4, 2)], 10),
    ("version 256", &ONE_HOUSE, &[(3, 1), (4, 0)], 10),
    ("n 0", &ONE_HOUSE, &[(5, 0)], 9),
    ("n 1", &ONE_HOUSE, &[], 10),
    ("n 48", &LONGEST, &[], 441),
    ("n 49", &LONGEST, &[(5, 49)], 442),
];

const SIZES: [Case; 13] = [
    ("m 0", &ONE_HOUSE, &[], 10),
    ("m 128", &LONGEST, &[], 441),
    ("m 129", &LONGEST, &[(7, 129)], 442),
    ("m 256", &ONE_HOUSE, &[(6, 1)], 10),
    ("k 0", &ONE_HOUSE, &[(8, 0)], 10),
    ("k 1", &ONE_HOUSE, &[], 10),
    ("k 4", &ONE_HOUSE, &[(8, 4)], 10),
    ("k 5", &ONE_HOUSE, &[(8, 5)], 10),
    ("n and k beyond limits", &ONE_HOUSE, &[(5, 0), (8, 0)], 10),
    ("one byte short", &TERRACE, &[], 84),
    ("exact", &TERRACE, &[], 85),
    ("one byte long", &TERRACE, &[], 86),
    ("longest, one byte long", &LONGEST, &[], 442),
];

const RECORDS: [Case; 9] = [
    ("from n - 1", &TERRACE, &[(33, 9)], 85),
    ("from n", &TERRACE, &[(33, 10)], 85),
    ("to n - 1", &TERRACE, &[(34, 9)], 85),
    ("to n", &TERRACE, &[(34, 10)], 85),
    ("to equal to from", &TERRACE, &[(10, 0)], 85),
    (
        "to equal to from, and beyond n",
        &TERRACE,
        &[(9, 10), (10, 10)],
        85,
    ),
    ("marks 3", &TERRACE, &[(38, 3), (65, 0)], 85),
    ("marks 4", &TERRACE, &[(38, 4), (65, 0)], 85),
    ("two wrong records", &TERRACE, &[(17, 4), (12, 10)], 85),
];

const RULES: [Case; 8] = [
    (
        "no direct line into houses 5 and 8",
        &TERRACE,
        &[(65, 0), (71, 0)],
        85,
    ),
    (
        "a direct line into the head, none into house 1",
        &TERRACE,
        &[(14, 3), (11, 0)],
        85,
    ),
    (
        "direct lines in a ring of houses 5 and 6",
        &TERRACE,
        &[(65, 0), (44, 3)],
        85,
    ),
    (
        "no back line out of houses 1 and 9",
        &TERRACE,
        &[(14, 0), (68, 0)],
        85,
    ),
    ("a back line out of the head", &TWO_HOUSES, &[(11, 3)], 17),
    (
        "back lines in a ring of houses 1 and 2",
        &TERRACE,
        &[(14, 0), (17, 3)],
        85,
    ),
    (
        "counters of houses 4 and 9",
        &TERRACE,
        &[(79, 1), (84, 1)],
        85,
    ),
    ("rules 1 and 5 broken", &TERRACE, &[(65, 0), (75, 9)], 85),
];

// What the library says of a file.
pub fn read_verdict(file: &[u8]) -> Result<(), Fault> {
    let mut place = Plan::new();
    read(file, &mut place)
}

// Prints what the library says of the case's file, and says so where the second judge says something else.
fn judge_case(rt: &HostRuntime, (name, base, edits, length): Case) -> io::Result<()> {
    let file = edited(rt.alloc(), base, edits, length)?;
    let verdict = read_verdict(file.as_slice());
    if verdict != judged(file.as_slice()) {
        println!(rt; "{name}: the second judge differs")?;
    }
    match verdict {
        Ok(()) => println!(rt; "{name}: ok"),
        Err(fault) => println!(rt; "{name}: {fault}"),
    }
}

fn judge_table(rt: &HostRuntime, table: &[Case]) -> io::Result<()> {
    for case in table {
        judge_case(rt, *case)?;
    }
    Ok(())
}

pub fn cases(rt: &HostRuntime) -> io::Result<()> {
    judge_table(rt, &HEADERS)?;
    judge_table(rt, &SIZES)?;
    judge_table(rt, &RECORDS)?;
    judge_table(rt, &RULES)
}

// Cases on both sides of each limit of a reading, a list and a word, ties, and the worked examples.
use crate::readings::{house, join, list, word};
use quantity::{Coldest, Flags, Gap, Load, Quantity, Reading, Total};
use samples::BLANK;
use std::io;

fn probe(probe: i32) -> Reading {
    Reading { probe, ..BLANK }
}

fn clamped(probe: i32, clamp: i32) -> Reading {
    Reading {
        probe,
        clamp: Some(clamp),
        ..BLANK
    }
}

fn other(watts: u32, flags: u32) -> Reading {
    Reading {
        watts,
        flags,
        ..BLANK
    }
}

// Readings on both sides of each limit: probe, clamp, watts and flags.
const READINGS: [(&str, Reading); 14] = [
    (
        "probe -601",
        Reading {
            probe: -601,
            ..BLANK
        },
    ),
    (
        "probe -600",
        Reading {
            probe: -600,
            ..BLANK
        },
    ),
    (
        "probe 900",
        Reading {
            probe: 900,
            ..BLANK
        },
    ),
    (
        "probe 901",
        Reading {
            probe: 901,
            ..BLANK
        },
    ),
    (
        "clamp -601",
        Reading {
            clamp: Some(-601),
            ..BLANK
        },
    ),
    (
        "clamp -600",
        Reading {
            clamp: Some(-600),
            ..BLANK
        },
    ),
    (
        "clamp 900",
        Reading {
            clamp: Some(900),
            ..BLANK
        },
    ),
    (
        "clamp 901",
        Reading {
            clamp: Some(901),
            ..BLANK
        },
    ),
    (
        "probe -600, clamp 900",
        Reading {
            probe: -600,
            clamp: Some(900),
            ..BLANK
        },
    ),
    (
        "watts 20000",
        Reading {
            watts: 20_000,
            ..BLANK
        },
    ),
    (
        "watts 20001",
        Reading {
            watts: 20_001,
            ..BLANK
        },
    ),
    (
        "flags 65535",
        Reading {
            flags: 65_535,
            ..BLANK
        },
    ),
    (
        "flags 65536",
        Reading {
            flags: 65_536,
            ..BLANK
        },
    ),
    ("blank", BLANK),
];

fn readings(rt: &HostRuntime) -> io::Result<()> {
    for (name, reading) in READINGS {
        list(rt, name, &[reading])?;
    }
    Ok(())
}

fn lists(rt: &HostRuntime) -> io::Result<()> {
    list(rt, "no reading", &[])?;
    list(rt, "second reading", &[probe(0), probe(901), probe(901)])?;
    list(rt, "48 readings", &[other(20_000, 0); 48])?;
    list(rt, "49 readings", &[other(20_000, 0); 49])?;
    list(rt, "49 readings beyond limits", &[other(20_001, 0); 49])
}

fn houses(rt: &HostRuntime) -> io::Result<()> {
    let reading = Reading {
        probe: 900,
        clamp: Some(-600),
        watts: 20_000,
        flags: 65_535,
    };
    house(rt, "house 0", 0, reading)?;
    house(rt, "house 47", 47, reading)?;
    house(rt, "house 48", 48, reading)?;
    house(rt, "house 0, beyond limits", 0, probe(901))
}

fn ties(rt: &HostRuntime) -> io::Result<()> {
    list(
        rt,
        "equal coils",
        &[probe(10), probe(-20), probe(0), probe(-20)],
    )?;
    list(
        rt,
        "equal gaps",
        &[clamped(0, 1), clamped(5, -5), clamped(-5, 5), probe(0)],
    )
}

const LOAD_WORDS: [u64; 4] = [0, 4_294_967_295, 4_294_967_296, 18_446_744_073_709_551_615];

// None, sizes 0 and 1,500 in houses 0 and 47, and words beyond each.
const SIZE_WORDS: [u64; 13] = [
    0,
    1,
    4_294_967_295,
    4_294_967_296,
    4_294_967_343,
    4_294_967_344,
    4_294_967_551,
    4_294_967_552,
    4_295_351_296,
    4_295_351_343,
    4_295_351_344,
    4_295_351_552,
    18_446_744_073_709_551_615,
];

const FLAG_WORDS: [u64; 6] = [
    0,
    65_535,
    65_536,
    4_294_967_295,
    4_294_967_296,
    18_446_744_073_709_551_615,
];

fn words<Q: Quantity>(rt: &HostRuntime, words: &[u64]) -> io::Result<()> {
    for bits in words {
        word::<Q>(rt, *bits)?;
    }
    Ok(())
}

fn worked_examples(rt: &HostRuntime) -> io::Result<()> {
    let many = Total {
        watts: 4_294_967_295,
        houses: 1,
    };
    let one = Total {
        watts: 1,
        houses: 1,
    };
    join::<Load>(rt, "4294967295 of 1 and 1 of 1", many, one)?;
    let third = Coldest::value(3, probe(-20));
    let first = Coldest::value(1, probe(-20));
    join::<Coldest>(rt, "-20 in house 3 and in house 1", third, first)?;
    let eight = Flags::value(0, other(0, 8));
    let twelve = Flags::value(1, other(0, 12));
    join::<Flags>(rt, "flags 8 and 12", eight, twelve)?;
    let faulty = Reading {
        flags: 8,
        ..probe(40)
    };
    let coil = faulty.coil();
    println!(rt; "flags 8, no clamp, probe 40: coil {coil}")
}

pub fn quantity_cases(rt: &HostRuntime) -> io::Result<()> {
    readings(rt)?;
    lists(rt)?;
    houses(rt)?;
    ties(rt)?;
    words::<Load>(rt, &LOAD_WORDS)?;
    words::<Coldest>(rt, &SIZE_WORDS)?;
    words::<Gap>(rt, &SIZE_WORDS)?;
    words::<Flags>(rt, &FLAG_WORDS)?;
    worked_examples(rt)
}

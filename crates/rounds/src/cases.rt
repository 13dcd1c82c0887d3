// Calls on both sides of each limit of a row.
use crate::makes::Make;
use crate::shown::print_call;
use carrier::{Carrier, Radio, Wire};
use plan::Plan;
use pulse::Call;
use quantity::{Load, Reading};
use row::Row;
use samples::BLANK;
use std::io;

// Calls with a name; the last of them is printed.
type Case = (&'static str, &'static [Call]);

const HOT: Reading = Reading {
    probe: 901,
    ..BLANK
};

const JUST_MADE: [Case; 8] = [
    ("begin, no round", &[Call::Begin]),
    ("read, no round", &[Call::Read]),
    ("load, no round", &[Call::Load(0)]),
    ("hand over, no round", &[Call::HandOver(0)]),
    ("set, house n - 1", &[Call::Set(4, BLANK)]),
    ("set, house n", &[Call::Set(5, BLANK)]),
    ("set, house n, beyond limits", &[Call::Set(5, HOT)]),
    ("set, greatest house", &[Call::Set(usize::MAX, BLANK)]),
];

const OPEN: [Case; 15] = [
    ("begin, an open round", &[Call::Begin]),
    ("read, an open round", &[Call::Read]),
    ("load, line m - 1", &[Call::Load(5)]),
    ("load, line m", &[Call::Load(6)]),
    ("load, greatest line", &[Call::Load(usize::MAX)]),
    ("hand over, line m - 1", &[Call::Load(5), Call::HandOver(5)]),
    ("hand over, line m", &[Call::HandOver(6)]),
    ("hand over, greatest line", &[Call::HandOver(usize::MAX)]),
    ("load, a message waits", &[Call::Load(0)]),
    ("load, nothing waits", &[Call::Load(1)]),
    ("load, loaded before", &[Call::Load(0), Call::Load(0)]),
    (
        "hand over, a message on the line",
        &[Call::Load(0), Call::HandOver(0)],
    ),
    ("hand over, an empty line", &[Call::HandOver(0)]),
    (
        "load, one waits and none is on the line",
        &[Call::Load(0), Call::HandOver(0), Call::Load(1)],
    ),
    (
        "load, one waits and one is on the line",
        &[
            Call::Load(0),
            Call::HandOver(0),
            Call::Load(1),
            Call::Load(1),
        ],
    ),
];

const FINISHED: [Case; 5] = [
    ("begin, a finished round", &[Call::Begin]),
    ("read, a finished round", &[Call::Read]),
    ("load, a finished round", &[Call::Load(4)]),
    ("hand over, a finished round", &[Call::HandOver(4)]),
    ("read, the next round", &[Call::Begin, Call::Read]),
];

const ONE_HOUSE: [Case; 7] = [
    ("one house, begin", &[Call::Begin]),
    ("one house, read", &[Call::Begin, Call::Read]),
    ("one house, begin again", &[Call::Begin, Call::Begin]),
    ("one house, load", &[Call::Begin, Call::Load(0)]),
    ("one house, hand over", &[Call::Begin, Call::HandOver(0)]),
    ("one house, set house 0", &[Call::Set(0, BLANK)]),
    ("one house, set house 1", &[Call::Set(1, BLANK)]),
];

const READINGS: [Reading; 12] = [
    Reading {
        probe: -600,
        ..BLANK
    },
    Reading {
        probe: -601,
        ..BLANK
    },
    Reading {
        probe: 900,
        ..BLANK
    },
    Reading {
        probe: 901,
        ..BLANK
    },
    Reading {
        clamp: Some(-600),
        ..BLANK
    },
    Reading {
        clamp: Some(-601),
        ..BLANK
    },
    Reading {
        clamp: Some(900),
        ..BLANK
    },
    Reading {
        clamp: Some(901),
        ..BLANK
    },
    Reading {
        watts: 20_000,
        ..BLANK
    },
    Reading {
        watts: 20_001,
        ..BLANK
    },
    Reading {
        flags: 65_535,
        ..BLANK
    },
    Reading {
        flags: 65_536,
        ..BLANK
    },
];

// A whole round of the ring, whatever its capacity.
const ROUND: [Call; 17] = [
    Call::Begin,
    Call::Load(0),
    Call::HandOver(0),
    Call::Load(1),
    Call::HandOver(1),
    Call::Load(1),
    Call::HandOver(1),
    Call::Load(2),
    Call::HandOver(2),
    Call::Load(5),
    Call::HandOver(5),
    Call::Load(3),
    Call::HandOver(3),
    Call::Load(3),
    Call::HandOver(3),
    Call::Load(4),
    Call::HandOver(4),
];

fn make_calls<C: Carrier>(row: &mut Row<Load, C>, calls: &[Call]) {
    for call in calls {
        row.apply(*call);
    }
}

// Each case on a row made anew on which the first calls were made.
fn cases<C: Make>(
    rt: &HostRuntime,
    row: &mut Row<Load, C>,
    plan: &Plan,
    first: &[Call],
    table: &[Case],
) -> io::Result<()> {
    for (name, calls) in table {
        if let [before @ .., last] = *calls {
            *row = Row::new(*plan, C::made(plan));
            make_calls(row, first);
            make_calls(row, before);
            print_call(rt, name, row, *last)?;
        }
    }
    Ok(())
}

fn readings<C: Make>(rt: &HostRuntime, row: &mut Row<Load, C>, plan: &Plan) -> io::Result<()> {
    for reading in READINGS {
        *row = Row::new(*plan, C::made(plan));
        print_call(rt, "limits of a reading", row, Call::Set(4, reading))?;
    }
    Ok(())
}

fn ring_cases<C: Make>(rt: &HostRuntime, row: &mut Row<Load, C>, plan: &Plan) -> io::Result<()> {
    let make = C::NAME;
    let capacity = plan.capacity();
    println!(rt; "{make}, k = {capacity}")?;
    cases(rt, row, plan, &[], &JUST_MADE)?;
    cases(rt, row, plan, &[Call::Begin], &OPEN)?;
    cases(rt, row, plan, &ROUND, &FINISHED)
}

fn all_cases<C: Make>(
    rt: &HostRuntime,
    row: &mut Row<Load, C>,
    one: &Plan,
    two: &Plan,
) -> io::Result<()> {
    ring_cases(rt, row, one)?;
    ring_cases(rt, row, two)?;
    readings(rt, row, one)?;
    cases(rt, row, &Plan::new(), &[], &ONE_HOUSE)
}

pub fn limit_cases(rt: &HostRuntime, one: &Plan, two: &Plan) -> io::Result<()> {
    all_cases(rt, &mut Row::new(*one, Wire::new(one)), one, two)?;
    all_cases(rt, &mut Row::new(*one, Radio::new(one)), one, two)
}

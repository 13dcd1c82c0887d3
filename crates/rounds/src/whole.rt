// The same calls on the wire and on the radio: a round from its begin to its answer, with refusals on the way.
use crate::shown::print_call;
use carrier::{Carrier, Radio, Wire};
use plan::Plan;
use pulse::Call;
use quantity::{Coldest, Load, Quantity, Reading};
use row::Row;
use std::io;

fn reading(probe: i32, clamp: Option<i32>, watts: u32, flags: u32) -> Reading {
    Reading {
        probe,
        clamp,
        watts,
        flags,
    }
}

// Readings for all houses but one, one of them refused, and one for a house that is not there.
fn settings() -> [Call; 6] {
    [
        Call::Set(0, reading(35, None, 900, 0)),
        Call::Set(1, reading(-20, Some(-18), 1_100, 8)),
        Call::Set(2, reading(901, None, 400, 0)),
        Call::Set(3, reading(40, Some(-25), 20_000, 4)),
        Call::Set(4, reading(-25, Some(60), 150, 12)),
        Call::Set(5, reading(0, None, 0, 0)),
    ]
}

const CALLS: [Call; 34] = [
    Call::Read,
    Call::Load(0),
    Call::Begin,
    Call::Begin,
    Call::Read,
    Call::Load(0),
    Call::Load(0),
    Call::Load(1),
    Call::HandOver(1),
    Call::HandOver(0),
    Call::Load(1),
    Call::Load(1),
    Call::Load(1),
    Call::HandOver(1),
    Call::HandOver(1),
    Call::HandOver(1),
    Call::Load(2),
    Call::HandOver(2),
    Call::Load(6),
    Call::HandOver(6),
    Call::Load(5),
    Call::HandOver(5),
    Call::Load(3),
    Call::Load(3),
    Call::HandOver(3),
    Call::HandOver(3),
    Call::Load(4),
    Call::Read,
    Call::HandOver(4),
    Call::Read,
    Call::Load(4),
    Call::Read,
    Call::Begin,
    Call::Read,
];

fn print_calls<Q: Quantity, C: Carrier>(
    rt: &HostRuntime,
    name: &str,
    row: &mut Row<Q, C>,
) -> io::Result<()> {
    for call in settings() {
        print_call(rt, name, row, call)?;
    }
    for call in CALLS {
        print_call(rt, name, row, call)?;
    }
    Ok(())
}

pub fn whole_rounds(rt: &HostRuntime, plan: &Plan) -> io::Result<()> {
    let mut row: Row<Load, Wire> = Row::new(*plan, Wire::new(plan));
    print_calls(rt, "load, wire", &mut row)?;
    let mut row: Row<Coldest, Radio> = Row::new(*plan, Radio::new(plan));
    print_calls(rt, "coldest, radio", &mut row)
}

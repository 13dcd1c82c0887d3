// Rows whose carrier does not fit the plan, beside one whose carrier does.
use crate::makes::Make;
use crate::shown::print_call;
use carrier::{Carrier, Message, Radio, Wire};
use plan::Plan;
use pulse::Call;
use quantity::Load;
use row::Row;
use samples::BLANK;
use std::io;

const CALLS: [Call; 5] = [
    Call::Begin,
    Call::Load(0),
    Call::HandOver(0),
    Call::Set(0, BLANK),
    Call::Read,
];

// Makes the row of the plan and the carrier, and the five calls.
fn print_calls<C: Carrier>(
    rt: &HostRuntime,
    name: &str,
    row: &mut Row<Load, C>,
    plan: &Plan,
    carrier: C,
) -> io::Result<()> {
    *row = Row::new(*plan, carrier);
    for call in CALLS {
        print_call(rt, name, row, call)?;
    }
    Ok(())
}

// The carrier with a request on the line.
fn with_request<C: Carrier>(mut carrier: C, line: usize) -> C {
    let _ = carrier.put(line, Message::Request);
    carrier
}

fn carriers<C: Make>(
    rt: &HostRuntime,
    row: &mut Row<Load, C>,
    one: &Plan,
    two: &Plan,
) -> io::Result<()> {
    let name = C::NAME;
    println!(rt; "{name}s")?;
    print_calls(rt, "a carrier that fits", row, one, C::made(one))?;
    print_calls(rt, "another m", row, one, C::made(&Plan::new()))?;
    print_calls(rt, "another k", row, one, C::made(two))?;
    let first = with_request(C::made(one), 0);
    print_calls(rt, "a message on line 0", row, one, first)?;
    let last = with_request(C::made(one), 5);
    print_calls(rt, "a message on line m - 1", row, one, last)
}

pub fn unfit_rows(rt: &HostRuntime, one: &Plan, two: &Plan) -> io::Result<()> {
    carriers(rt, &mut Row::new(*one, Wire::new(one)), one, two)?;
    carriers(rt, &mut Row::new(*one, Radio::new(one)), one, two)
}

// Both makes of carrier on the same puts, and both sides of each limit of a line. A message is printed as a figure:
// 0 for a request, its word for a response.
use carrier::{Carrier, Message, Radio, Wire};
use fault::{Fault, Layer};
use plan::{Plan, read};
use quantity::Word;
use samples::{LONGEST, TERRACE, TWO_HOUSES, edited};
use std::alloc::{AllocError, Global};
use std::io;

// Two requests and two responses in every order of arrival.
const ORDERS: [[u64; 4]; 6] = [
    [0, 0, 1, 2],
    [0, 1, 0, 2],
    [0, 1, 2, 0],
    [1, 0, 0, 2],
    [1, 0, 2, 0],
    [1, 2, 0, 0],
];

// Printed where nothing was taken.
const NOTHING: u64 = 9;

// The plan of the file with that capacity.
fn plan_of(heap: Global, base: &[u8], capacity: u8) -> Result<Plan, AllocError> {
    let file = edited(heap, base, &[(8, capacity)], base.len())?;
    let mut place = Plan::new();
    let _ = read(file.as_slice(), &mut place);
    Ok(place)
}

fn message(figure: u64) -> Message<Word> {
    if figure == 0 {
        Message::Request
    } else {
        Message::Response(Word { bits: figure })
    }
}

fn figure(message: Message<Word>) -> u64 {
    match message {
        Message::Request => 0,
        Message::Response(word) => word.bits,
    }
}

fn put_all<C: Carrier>(carrier: &mut C, puts: [u64; 4]) {
    for put in puts {
        let _ = carrier.put(0, message(put));
    }
}

fn take_all<C: Carrier>(carrier: &mut C) -> [u64; 4] {
    let mut takes = [NOTHING; 4];
    for taken in takes.iter_mut() {
        if let Ok(message) = carrier.take(0) {
            *taken = figure(message);
        }
    }
    takes
}

// Puts four messages on line 0 and takes four off.
fn order<C: Carrier>(
    rt: &HostRuntime,
    name: &str,
    carrier: &mut C,
    puts: [u64; 4],
) -> io::Result<()> {
    put_all(carrier, puts);
    let [w, x, y, z] = take_all(carrier);
    let [a, b, c, d] = puts;
    println!(rt; "{name}: put {a} {b} {c} {d}, took {w} {x} {y} {z}")
}

// Makes the call again and again until it is refused, and prints how often it was done.
fn until_refused<C: Carrier, F: Fn(&mut C) -> Result<(), Fault>>(
    rt: &HostRuntime,
    name: &str,
    carrier: &mut C,
    done: &str,
    call: F,
) -> io::Result<()>
    requires { F.IsAlwaysCallable call }
{
    let capacity = carrier.capacity();
    for times in 0..6 {
        if let Err(fault) = call(carrier) {
            let count = carrier.count(0);
            return println!(rt;
                "{name}, capacity {capacity}: {times} {done}, then {fault}, {count} on the line"
            );
        }
    }
    Ok(())
}

// Puts messages on line 0 as long as they are accepted, and then takes them off.
fn fill_and_empty<C: Carrier>(rt: &HostRuntime, name: &str, carrier: &mut C) -> io::Result<()> {
    until_refused(rt, name, carrier, "put", |carrier| {
        carrier.put(0, Message::Request)
    })?;
    until_refused(rt, name, carrier, "taken", |carrier| {
        carrier.take(0).map(|_| ())
    })
}

// A put on the line, its count and a take off it.
fn edge<C: Carrier>(rt: &HostRuntime, name: &str, carrier: &mut C, line: usize) -> io::Result<()> {
    let lines = carrier.lines();
    let put = carrier.put(line, Message::Request);
    let count = carrier.count(line);
    let take = carrier.take(line);
    match (put, take) {
        (Err(first), Err(second)) => {
            let own = first.layer == Layer::Carrier && second.layer == Layer::Carrier;
            println!(rt;
                "{name} of {lines} lines, line {line}: put {first}, holds {count}, take {second}, layer carrier: {own}"
            )
        }
        (put, take) => {
            let accepted = put.is_ok() && take.is_ok();
            println!(rt;
                "{name} of {lines} lines, line {line}: put and taken: {accepted}, held {count}"
            )
        }
    }
}

fn edges<C: Carrier>(rt: &HostRuntime, name: &str, carrier: &mut C) -> io::Result<()> {
    let lines = carrier.lines();
    edge(rt, name, carrier, lines.saturating_sub(1))?;
    edge(rt, name, carrier, lines)
}

// Both makes take two requests and two responses in every order of arrival.
fn orders(rt: &HostRuntime) -> io::Result<()> {
    let plan = plan_of(rt.alloc(), &TWO_HOUSES, 4)?;
    for puts in ORDERS {
        order(rt, "wire", &mut Wire::new(&plan), puts)?;
        order(rt, "radio", &mut Radio::new(&plan), puts)?;
    }
    Ok(())
}

// Both sides of every capacity.
fn capacities(rt: &HostRuntime) -> io::Result<()> {
    for capacity in 1..5 {
        let plan = plan_of(rt.alloc(), &TWO_HOUSES, capacity)?;
        fill_and_empty(rt, "wire", &mut Wire::new(&plan))?;
        fill_and_empty(rt, "radio", &mut Radio::new(&plan))?;
    }
    Ok(())
}

// The last line of a plan, and the one after it.
fn last_lines(rt: &HostRuntime) -> io::Result<()> {
    for file in [&TERRACE[..], &LONGEST[..]] {
        let plan = plan_of(rt.alloc(), file, 1)?;
        edges(rt, "wire", &mut Wire::new(&plan))?;
        edges(rt, "radio", &mut Radio::new(&plan))?;
    }
    Ok(())
}

pub fn carriers(rt: &HostRuntime) -> io::Result<()> {
    orders(rt)?;
    capacities(rt)?;
    last_lines(rt)
}

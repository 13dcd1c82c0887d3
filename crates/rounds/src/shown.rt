use carrier::Carrier;
use pulse::Call;
use quantity::Quantity;
use row::Row;
use std::io;

// Makes the call and prints it with its answer, and with the layer that refuses.
pub fn print_call<Q: Quantity, C: Carrier>(
    rt: &HostRuntime,
    name: &str,
    row: &mut Row<Q, C>,
    call: Call,
) -> io::Result<()> {
    let answer = row.apply(call);
    match answer.refusal() {
        None => println!(rt; "{name}: {call} -> {answer}"),
        Some(fault) => {
            let layer = fault.layer;
            println!(rt; "{name}: {call} -> {answer}, {layer}")
        }
    }
}

ghost use Rattle.std.specs.Prelude.{◌≡◌, ◌<◌, ◌++◌, Some, string_bytes, OnOk};
ghost use Rattle.installer_text.specs.Reports.{file_text, or_dash, house_text, report_of};

use lines::Way;
use plan::Plan;
use std::alloc::AllocError;
use std::fmt;
use words::to_hex;

// A line's number, or a dash where there is none.
#[derive(Clone, Copy)]
struct OrDash(Option<usize>);

impl fmt::Display for OrDash {
    ghost output = { λ x. Some (or_dash x.0) };

    fn fmt<W: fmt::Write>(&self, f: &mut fmt::Formatter<W>) -> fmt::Result {
        match self.0 {
            Some(number) => write!(f, "{number}"),
            None => write!(f, "-"),
        }
    }
}

// Adds what a house has to the text: its direct line, its back line and its counter.
fn report_house(text: &mut String, plan: &Plan, house: usize) -> Result<(), AllocError>
    requires { house < plan.now.draft.houses }
    ensures { OnOk result (string_bytes text.new ≡ string_bytes text.old ++ house_text plan.now house) }
{
    let direct = OrDash(plan.server(Way::Direct, house));
    let back = OrDash(plan.server(Way::Back, house));
    let counter = plan.counter(house).unwrap();
    writeln!(text, "{house} {direct} {back} {counter}")
}

// Adds a plan's report to the text: its numbers, then for each house what it has.
pub fn report(text: &mut String, plan: &Plan) -> Result<(), AllocError>
    ensures { OnOk result (string_bytes text.new ≡ string_bytes text.old ++ report_of plan.now) }
{
    let houses = plan.houses();
    let lines = plan.lines();
    let capacity = plan.capacity();
    writeln!(text, "ok {houses} {lines} {capacity}")?;
    for house in 0..houses {
        report_house(text, plan, house)?;
    }
    Ok(())
}

// Adds the plan's file to the text in hexadecimal capitals, on a line of its own.
pub fn file_line(text: &mut String, plan: &Plan) -> Result<(), AllocError>
    ensures { OnOk result (string_bytes text.new ≡ string_bytes text.old ++ file_text plan.now) }
{
    let mut buffer = [0; 441];
    let length = plan.write(&mut buffer).unwrap();
    to_hex(text, &buffer[..length])?;
    writeln!(text, "")
}

ghost use Rattle.std.specs.Prelude.{◌≡◌, ◌++◌, IfOk, string_bytes, OnOk};
ghost use Rattle.words.specs.Parts.{lines};
ghost use Rattle.words.specs.Placed.{bytes_of};
ghost use Rattle.installer_text.specs.Answers.{Adds, Answered, Asked, HasNoForm, Marking, Printed, Verdict, refusal_line};

use crate::commands::Command;
use crate::reports::{file_line, report};
use fault::{Cause, Fault};
use marker::mark;
use plan::{Plan, read};
use std::alloc::{AllocError, Global};
use words::{Part, from_hex, lines_of};

// Adds a refusal to the text, on a line of its own.
fn refuse(text: &mut String, fault: Fault) -> Result<(), AllocError>
    ensures { OnOk result (string_bytes text.new ≡ string_bytes text.old ++ refusal_line fault) }
{
    writeln!(text, "{fault}")
}

// Adds the verdict on a plan file: the report on its plan, or why it is refused.
fn judge(text: &mut String, file: &[u8]) -> Result<(), AllocError>
    ensures { OnOk result (Adds (Verdict file.now) (string_bytes text.old) (string_bytes text.new)) }
{
    let mut plan = Plan::new();
    match read(file, &mut plan) {
        Ok(()) => report(text, &plan),
        Err(fault) => refuse(text, fault),
    }
}

// Adds the verdict on a file that is marked anew: the report on the marked plan and then its file, or why it is refused.
fn mark_file(text: &mut String, file: &[u8]) -> Result<(), AllocError>
    ensures { OnOk result (Adds (Marking file.now) (string_bytes text.old) (string_bytes text.new)) }
{
    let mut plan = Plan::new();
    match mark(file, &mut plan) {
        Ok(()) => {
            report(text, &plan)?;
            file_line(text, &plan)
        }
        Err(fault) => refuse(text, fault),
    }
}

// Adds what the command asks of the file.
fn carry_out(text: &mut String, command: Command, file: &[u8]) -> Result<(), AllocError>
    ensures { OnOk result (Adds (Asked command file.now) (string_bytes text.old) (string_bytes text.new)) }
{
    match command {
        Command::Check => judge(text, file),
        Command::Mark => mark_file(text, file),
    }
}

// Adds the refusal of a line that has no form: its first wrong word starts at that byte, or it ends there.
fn no_form(text: &mut String, at: usize) -> Result<(), AllocError>
    ensures { OnOk result (Adds (HasNoForm at) (string_bytes text.old) (string_bytes text.new)) }
{
    refuse(text, Fault::new(Cause::NoForm, at))
}

// Adds the answer to a line.
fn answer(text: &mut String, line: Part) -> Result<(), AllocError>
    ensures { OnOk result (Adds (Answered line.entry.at (bytes_of line.entry)) (string_bytes text.old) (string_bytes text.new)) }
{
    let mut words = line.words();
    let Some(name) = words.next() else {
        return no_form(text, line.end());
    };
    let Some(command) = Command::named(name.bytes()) else {
        return no_form(text, name.at);
    };
    let Some(hex) = words.next() else {
        return no_form(text, line.end());
    };
    let Some(file) = from_hex(*text.allocator(), hex.bytes())? else {
        return no_form(text, hex.at);
    };
    if let Some(extra) = words.next() {
        return no_form(text, extra.at);
    }
    carry_out(text, command, &file)
}

// What the program prints for the whole input.
pub fn answers_to(heap: Global, input: &[u8]) -> Result<String, AllocError>
    ensures { IfOk result (λ t. Printed 0 (lines input.now) (string_bytes t)) }
{
    let mut text = String::new(heap);
    for line in lines_of(input) {
        answer(&mut text, line)?;
    }
    Ok(text)
}

ghost use Rattle.std.specs.Prelude.{◌≡◌, ◌≤◌};
ghost use Rattle.carrier.specs.Makes.{Picks};
ghost use Rattle.carrier.specs.Meanings.{refusal_at, PutAnswer, TakeAnswer, Picked, SameIfRefused};
ghost use Rattle.carrier.specs.Picks.{pick_without};
ghost use Rattle.carrier.specs.Places.{FirstPlace};

use crate::carriers::Carrier;
use crate::makes::Make;
use crate::messages::Message;
use crate::places::{add, count, take_out};
use crate::tables::Table;
use fault::{Cause, Fault, Layer};
use plan::Plan;
use quantity::Word;
use std::marker::PhantomData;

// A carrier of some make: the number of lines m, the capacity k of a line, and the table of their places.
#[derive(Drop)]
pub struct Store<M> {
    lines: usize,
    capacity: usize,
    table: Table,
    make: PhantomData<M>,
    ghost size: { (lines ≤ 128) × (capacity ≤ 4) },
}

// A carrier's refusal of that line.
fn refusal(cause: Cause, line: usize) -> Fault
    ensures { result ≡ refusal_at cause line }
{
    Fault {
        cause,
        place: line,
        layer: Layer::Carrier,
    }
}

impl<M: Make> Store<M> {
    ghost use Rattle.carrier.specs.Stores.{JustMade};

    // A carrier with the plan's lines and capacity, and nothing on them.
    pub fn new(plan: &Plan) -> Store<M>
        ensures { JustMade plan.now result }
    {
        Store {
            lines: plan.lines(),
            capacity: plan.capacity(),
            table: Table::new(),
            make: PhantomData,
        }
    }

    // The first of the line's four places. Refuses a line that is not there.
    fn first_place(&self, line: usize) -> Result<usize, Fault>
        ensures { FirstPlace self.now.lines line result }
    {
        if line < self.lines {
            Ok(4 * line)
        } else {
            Err(refusal(Cause::NoLine, line))
        }
    }
}

impl<M: Make> Carrier for Store<M> {
    ghost use Rattle.carrier.specs.Stores.{meaning_of};

    ghost meaning = { meaning_of };

    ghost pick = { Picks M.order };

    ghost among = { pick_without M.order };

    fn lines(&self) -> usize {
        self.lines
    }

    fn capacity(&self) -> usize {
        self.capacity
    }

    fn count(&self, line: usize) -> usize {
        match self.first_place(line) {
            Ok(first) => count(&self.table.places[first..first + 4]),
            Err(_) => 0,
        }
    }

    fn put(&mut self, line: usize, message: Message<Word>) -> Result<(), Fault>
        ensures puts { PutAnswer (meaning_of self.old) line message result (meaning_of self.new) }
        ensures same { SameIfRefused self.old result self.new }
    {
        let first = self.first_place(line)?;
        let places = &mut self.table.places[first..first + 4];
        if count(places) >= self.capacity {
            return Err(refusal(Cause::LineFull, line));
        }
        add(places, message);
        Ok(())
    }

    fn take(&mut self, line: usize) -> Result<Message<Word>, Fault>
        ensures takes { TakeAnswer (meaning_of self.old) line result (meaning_of self.new) }
        ensures picks { Picked (Picks M.order) (meaning_of self.old) line result (meaning_of self.new) }
        ensures told { Picked M.takes (meaning_of self.old) line result (meaning_of self.new) }
        ensures same { SameIfRefused self.old result self.new }
    {
        let first = self.first_place(line)?;
        let taken = take_out::<M>(&mut self.table.places[first..first + 4]);
        taken.ok_or(refusal(Cause::LineEmpty, line))
    }
}

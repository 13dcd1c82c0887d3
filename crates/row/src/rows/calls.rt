ghost use Rattle.std.specs.Prelude.{◌≡◌, ◌<◌};
ghost use Rattle.carrier.specs.Meanings.{SameIfRefused};
ghost use Rattle.pulse.specs.States.{reading_of};
ghost use Rattle.pulse.specs.Steps.{end_of, Begins, Loads, HandsOver, Sets, Reads};
ghost use Rattle.row.specs.Rows.{state_of};

use crate::houses::House;
use crate::rows::Row;
use carrier::{Carrier, Kind};
use fault::Fault;
use pulse::{Delivery, Report};
use quantity::{Quantity, Reading};

// The five calls.
impl<Q: Quantity, C: Carrier> Row<Q, C> {
    // Begins a round, unless one is open.
    pub fn begin(&mut self) -> Result<(), Fault>
        ensures begins { Begins Q.sense (state_of C.meaning self.old) result (state_of C.meaning self.new) }
        ensures carrier { self.new.carrier ≡ self.old.carrier }
        ensures same { SameIfRefused self.old result self.new }
    {
        self.check_begin()?;
        self.question.begin(&self.plan, self.readings[0]);
        Ok(())
    }

    // Moves the message that waits for the line onto it, a request before a response, and answers its kind.
    pub fn load(&mut self, line: usize) -> Result<Kind, Fault>
        ensures loads { Loads (C.meaning self.old.carrier).capacity (state_of C.meaning self.old) line result (state_of C.meaning self.new) }
        ensures capacity { (C.meaning self.new.carrier).capacity ≡ (C.meaning self.old.carrier).capacity }
        ensures same { SameIfRefused self.old result self.new }
    {
        self.check_load(line)?;
        let message = self.question.take_next(line);
        self.carrier.put(line, message).unwrap();
        Ok(message.kind())
    }

    // Takes a message off the line for the house at its end, and answers its kind and that house.
    pub fn hand_over(&mut self, line: usize) -> Result<Delivery, Fault>
        ensures hands { HandsOver Q.sense (state_of C.meaning self.old) line result (state_of C.meaning self.new) }
        ensures capacity { (C.meaning self.new.carrier).capacity ≡ (C.meaning self.old.carrier).capacity }
        ensures same { SameIfRefused self.old result self.new }
    {
        self.check_hand_over(line)?;
        let house = self.house_at_end(line);
        let message = self.carrier.take(line).unwrap();
        self.question.deliver(&self.plan, house, message);
        self.question.count_hand_over();
        Ok(Delivery {
            kind: message.kind(),
            house: house.number,
        })
    }

    // Replaces a house's reading.
    pub fn set(&mut self, house: usize, reading: Reading) -> Result<(), Fault>
        ensures sets { Sets (state_of C.meaning self.old) house reading result (state_of C.meaning self.new) }
        ensures carrier { self.new.carrier ≡ self.old.carrier }
        ensures same { SameIfRefused self.old result self.new }
    {
        self.check_set(house, reading)?;
        self.readings[house] = reading;
        Ok(())
    }

    // The final figures of the answer, and the number of hand-overs accepted since begin.
    pub fn read(&self) -> Result<Report<Q::Figures>, Fault>
        ensures { Reads Q.sense (state_of C.meaning self.now) result (state_of C.meaning self.now) }
    {
        self.check_read()?;
        Ok(Report {
            figures: Q::figures(self.question.head().holding),
            hand_overs: self.question.round.hand_overs,
        })
    }

    // The house at the end of the line, with its reading.
    fn house_at_end(&self, line: usize) -> House
        requires { line < self.now.plan.draft.lines }
        ensures number { result.number ≡ end_of (state_of C.meaning self.now) line }
        ensures reading { result.reading ≡ reading_of (state_of C.meaning self.now) result.number }
    {
        let number = self.plan.line(line).unwrap().to as usize;
        House {
            number,
            reading: self.readings[number],
        }
    }
}

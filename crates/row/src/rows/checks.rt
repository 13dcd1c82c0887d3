ghost use Rattle.std.specs.Prelude.{◌≡◌, ◌<◌, true, length, None, OnOk, nat_lt};
ghost use Rattle.std.specs.Result.{result_err};
ghost use Rattle.fault.specs.Layers.{fault_at};
ghost use Rattle.pulse.specs.States.{on};
ghost use Rattle.pulse.specs.Steps.{check, has_line, begin_refusal, load_refusal, hand_over_refusal, set_refusal, read_refusal};
ghost use Rattle.row.specs.Rows.{state_of, Loadable, Takeable};

use crate::questions::is_done;
use crate::rows::Row;
use carrier::Carrier;
use fault::{Cause, Fault};
use quantity::{Quantity, Reading};

// Refuses for the cause where the test fails.
fn check(holds: bool, cause: Cause, place: usize) -> Result<(), Fault>
    ensures { result_err result ≡ check holds (fault_at cause place) None }
{
    if holds {
        Ok(())
    } else {
        Err(Fault::new(cause, place))
    }
}

// The checks of each call, in rising number.
impl<Q: Quantity, C: Carrier> Row<Q, C> {
    fn has_line(&self, line: usize) -> bool
        ensures value { result ≡ has_line (state_of C.meaning self.now) line }
        ensures there { result ≡ true → (line < self.now.plan.draft.lines) × (line < length (C.meaning self.now.carrier).lists) }
    {
        line < self.plan.lines() && line < self.carrier.lines()
    }

    pub(crate) fn check_begin(&self) -> Result<(), Fault>
        ensures { result_err result ≡ begin_refusal Q.sense (state_of C.meaning self.now) }
    {
        check(self.fit, Cause::Unfit, 0)?;
        let head = self.question.head();
        check(!head.called || is_done(head), Cause::RoundOpen, 0)
    }

    pub(crate) fn check_load(&self, line: usize) -> Result<(), Fault>
        ensures value { result_err result ≡ load_refusal (C.meaning self.now.carrier).capacity (state_of C.meaning self.now) line }
        ensures clear { OnOk result (Loadable (C.meaning self.now.carrier) line) }
    {
        check(self.fit, Cause::Unfit, 0)?;
        check(self.has_line(line), Cause::NoLine, line)?;
        check(self.question.has_waiting(line), Cause::NothingWaits, line)?;
        check(
            self.carrier.count(line) < self.carrier.capacity(),
            Cause::LineFull,
            line,
        )
    }

    pub(crate) fn check_hand_over(&self, line: usize) -> Result<(), Fault>
        ensures value { result_err result ≡ hand_over_refusal (state_of C.meaning self.now) line }
        ensures clear { OnOk result (Takeable self.now.plan (C.meaning self.now.carrier) line) }
    {
        check(self.fit, Cause::Unfit, 0)?;
        check(self.has_line(line), Cause::NoLine, line)?;
        check(self.carrier.count(line) > 0, Cause::LineEmpty, line)
    }

    pub(crate) fn check_set(&self, house: usize, reading: Reading) -> Result<(), Fault>
        ensures { result_err result ≡ set_refusal (state_of C.meaning self.now) house reading }
    {
        check(self.fit, Cause::Unfit, 0)?;
        check(house < self.plan.houses(), Cause::NoHouse, house)?;
        check(reading.in_limits(), Cause::WrongReading, house)
    }

    pub(crate) fn check_read(&self) -> Result<(), Fault>
        ensures { result_err result ≡ read_refusal Q.sense (state_of C.meaning self.now) }
    {
        check(self.fit, Cause::Unfit, 0)?;
        let head = self.question.head();
        check(head.called, Cause::NoRound, 0)?;
        check(is_done(head), Cause::NoAnswer, 0)
    }
}

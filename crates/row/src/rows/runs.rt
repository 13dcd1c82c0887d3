ghost use Rattle.std.specs.Prelude.{◌≡◌, [], ◌∷◌};
ghost use Rattle.pulse.specs.Steps.{Step};
ghost use Rattle.row.specs.Rows.{state_of};
ghost use Rattle.row.specs.Runs.{capacity_of, KeepsLaw, SameUnlessAccepted, Performs};

use crate::rows::Row;
use carrier::Carrier;
use pulse::{Answer, Call, Exchange};
use quantity::Quantity;

// Any call, and any list of calls: every run keeps the law.
impl<Q: Quantity, C: Carrier> Row<Q, C> {
    // Makes one call.
    pub fn apply(&mut self, call: Call) -> Answer<Q::Figures>
        ensures steps { Step Q.sense (capacity_of C.meaning self.old) (state_of C.meaning self.old) call result (state_of C.meaning self.new) }
        ensures capacity { capacity_of C.meaning self.new ≡ capacity_of C.meaning self.old }
        ensures same { SameUnlessAccepted self.old result self.new }
        ensures law { KeepsLaw Q.sense C.meaning self.old (record { call = call; answer = result } ∷ []) self.new }
    {
        self.dispatch(call)
    }

    // Makes the calls in order, each on what the former left, and stores each answer in its exchange.
    pub fn perform(&mut self, exchanges: &mut [Exchange<Q::Figures>])
        ensures performs { Performs Q.sense C.meaning self.old exchanges.old exchanges.new self.new }
        ensures law { KeepsLaw Q.sense C.meaning self.old exchanges.new self.new }
    {
        for exchange in exchanges.iter_mut() {
            exchange.answer = self.dispatch(exchange.call);
        }
    }

    // The call by its name.
    fn dispatch(&mut self, call: Call) -> Answer<Q::Figures>
        ensures steps { Step Q.sense (capacity_of C.meaning self.old) (state_of C.meaning self.old) call result (state_of C.meaning self.new) }
        ensures capacity { capacity_of C.meaning self.new ≡ capacity_of C.meaning self.old }
        ensures same { SameUnlessAccepted self.old result self.new }
    {
        match call {
            Call::Begin => Answer::Begin(self.begin()),
            Call::Load(line) => Answer::Load(self.load(line)),
            Call::HandOver(line) => Answer::HandOver(self.hand_over(line)),
            Call::Set(house, reading) => Answer::Set(self.set(house, reading)),
            Call::Read => Answer::Read(self.read()),
        }
    }
}

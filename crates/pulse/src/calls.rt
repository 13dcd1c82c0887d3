ghost use Rattle.std.specs.Prelude.{◌≡◌};
ghost use Rattle.pulse.specs.Traces.{refusal_of};

use carrier::Kind;
use fault::Fault;
use quantity::Reading;

// One of the five calls of a row, with what it is given.
#[derive(Clone, Copy)]
pub enum Call {
    Begin,
    Load(usize),
    HandOver(usize),
    Set(usize, Reading),
    Read,
}

// What an accepted hand over answers: the kind of the message and the house that got it.
#[derive(Clone, Copy)]
pub struct Delivery {
    pub kind: Kind,
    pub house: usize,
}

// What an accepted read answers: the final figures, and the number of accepted hand-overs since begin.
#[derive(Clone, Copy)]
pub struct Report<F> {
    pub figures: F,
    pub hand_overs: u32,
}

// What a call answers, or why it refuses.
#[derive(Clone, Copy)]
pub enum Answer<F> {
    Begin(Result<(), Fault>),
    Load(Result<Kind, Fault>),
    HandOver(Result<Delivery, Fault>),
    Set(Result<(), Fault>),
    Read(Result<Report<F>, Fault>),
}

impl<F: Copy> Answer<F> {
    // Why the call was refused; none if it was accepted.
    pub fn refusal(&self) -> Option<Fault>
        ensures { result ≡ refusal_of self.now }
    {
        match *self {
            Answer::Begin(result) | Answer::Set(result) => result.err(),
            Answer::Load(result) => result.err(),
            Answer::HandOver(result) => result.err(),
            Answer::Read(result) => result.err(),
        }
    }
}

// A call with its answer.
#[derive(Clone, Copy)]
pub struct Exchange<F> {
    pub call: Call,
    pub answer: Answer<F>,
}

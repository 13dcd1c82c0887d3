ghost use Rattle.std.specs.Prelude.{Some};
ghost use Rattle.pulse.specs.Shown.{answer_shown, call_shown};

use crate::calls::{Answer, Call};
use std::fmt;

impl fmt::Display for Call {
    ghost output = { λ c. Some (call_shown c) };

    fn fmt<W: fmt::Write>(&self, f: &mut fmt::Formatter<W>) -> fmt::Result {
        match *self {
            Call::Begin => write!(f, "B"),
            Call::Load(line) => write!(f, "L {line}"),
            Call::HandOver(line) => write!(f, "H {line}"),
            Call::Set(house, reading) => {
                write!(f, "S {house} {} ", reading.probe)?;
                match reading.clamp {
                    None => write!(f, "-")?,
                    Some(clamp) => write!(f, "{clamp}")?,
                }
                write!(f, " {} {}", reading.watts, reading.flags)
            }
            Call::Read => write!(f, "R"),
        }
    }
}

impl<F: fmt::Display> fmt::Display for Answer<F> {
    ghost output = { λ a. answer_shown F.Display.output a };

    fn fmt<W: fmt::Write>(&self, f: &mut fmt::Formatter<W>) -> fmt::Result {
        match self {
            Answer::Begin(Ok(())) | Answer::Set(Ok(())) => write!(f, "ok"),
            Answer::Load(Ok(kind)) => write!(f, "ok {kind}"),
            Answer::HandOver(Ok(delivery)) => {
                write!(f, "ok {} {}", delivery.kind, delivery.house)
            }
            Answer::Read(Ok(report)) => write!(f, "ok {} {}", report.figures, report.hand_overs),
            Answer::Begin(Err(fault))
            | Answer::Load(Err(fault))
            | Answer::HandOver(Err(fault))
            | Answer::Set(Err(fault))
            | Answer::Read(Err(fault)) => write!(f, "{fault}"),
        }
    }
}

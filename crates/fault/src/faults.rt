ghost use Rattle.std.specs.Prelude.{◌≡◌, Some};
ghost use Rattle.fault.specs.Layers.{fault_at};
ghost use Rattle.fault.specs.Shown.{refusal};

use crate::causes::{Cause, Layer};
use std::fmt;

// Why something was refused, where (a byte, a length, a house or a line), and by which layer.
#[derive(Clone, Copy, PartialEq, Eq, Debug)]
pub struct Fault {
    pub cause: Cause,
    pub place: usize,
    pub layer: Layer,
}

impl Fault {
    // The fault of a cause at a place, by the layer that has that cause.
    pub fn new(cause: Cause, place: usize) -> Fault
        ensures { result ≡ fault_at cause place }
    {
        Fault {
            cause,
            place,
            layer: cause.layer(),
        }
    }
}

impl fmt::Display for Fault {
    ghost output = { λ v. Some (refusal v) };

    fn fmt<W: fmt::Write>(&self, f: &mut fmt::Formatter<W>) -> fmt::Result {
        write!(f, "refused {} {}", self.cause.number(), self.place)
    }
}

ghost use Rattle.std.specs.Prelude.{◌≡◌, codes};
ghost use Rattle.quantity.specs.Flags.{flags_sense};
ghost use Rattle.quantity.specs.Loads.{load_sense};
ghost use Rattle.quantity.specs.Sizes.{coldest_sense, gap_sense};

use crate::flags::Flags;
use crate::load::Load;
use crate::quantities::Quantity;
use crate::sizes::{Coldest, Gap, Measure};

// The letters of the four quantities, load, coldest, gap and flags, each of which means what its definition says.
pub fn letters() -> [char; 4]
    ensures letters { result ≡ codes "LCGF" }
    ensures senses { (⟦<Load as Quantity>⟧.sense ≡ load_sense) × (⟦<Coldest as Quantity>⟧.sense ≡ coldest_sense) × (⟦<Gap as Quantity>⟧.sense ≡ gap_sense) × (⟦<Flags as Quantity>⟧.sense ≡ flags_sense) }
{
    [
        Load::LETTER,
        <Coldest as Measure>::LETTER,
        <Gap as Measure>::LETTER,
        Flags::LETTER,
    ]
}

ghost use Rattle.std.specs.Prelude.{◌≡◌, MatchOption, MatchResult};
ghost use Rattle.quantity.specs.Joins.{join_of};
ghost use Rattle.quantity.specs.Counts.{Within, FirstBeyond, Countable, Refused, takings, Counted, AnyOrder};

use crate::quantities::Quantity;
use crate::readings::{MOST_HOUSES, Reading};
use fault::{Cause, Fault};

// The final figures of the readings of the houses 0, 1, 2 and so on, joined in that order with no row in between.
pub fn straight_count<Q: Quantity>(readings: &[Reading]) -> Result<Q::Figures, Fault>
    ensures counts { Counted Q.Quantity.sense readings.now result }
    ensures order { AnyOrder Q.Quantity.sense }
{
    check(readings)?;
    Ok(Q::figures(join_all::<Q>(readings)))
}

// Refuses more readings than a row has houses, then the first that is beyond limits.
fn check(readings: &[Reading]) -> Result<(), Fault>
    ensures { MatchResult result (λ _. Countable readings.now) (Refused readings.now) }
{
    if readings.len() > MOST_HOUSES {
        return Err(Fault::new(Cause::ManyReadings, MOST_HOUSES));
    }
    match first_beyond(readings) {
        Some(i) => Err(Fault::new(Cause::WrongReading, i)),
        None => Ok(()),
    }
}

// The place of the first reading that is beyond limits.
fn first_beyond(readings: &[Reading]) -> Option<usize>
    ensures { MatchOption result (Within readings.now) (FirstBeyond readings.now) }
{
    readings.iter().position(|reading| !reading.in_limits())
}

// The join of the values that each house and its reading give.
fn join_all<Q: Quantity>(readings: &[Reading]) -> Q::Value
    ensures { result ≡ join_of Q.Quantity.sense (takings 0 readings.now) }
{
    readings
        .iter()
        .enumerate()
        .fold(Q::nothing(), |holding, (house, reading)| {
            Q::join(holding, Q::value(house, *reading))
        })
}

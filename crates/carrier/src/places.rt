ghost use Rattle.std.specs.Prelude.{◌≡◌, ◌<◌, [], ◌∷◌, ◌++◌, length};
ghost use Rattle.carrier.specs.Places.{held, Chosen, TakenOut};

use crate::makes::Make;
use crate::messages::Message;
use quantity::Word;

// How many messages the places hold. A fold takes half the time of a filter and a count.
pub(crate) fn count(places: &[Option<Message<Word>>]) -> usize
    ensures { result ≡ length (held places.now) }
{
    places.iter().fold(0, |count: usize, place| {
        if place.is_some() {
            count.wrapping_add(1)
        } else {
            count
        }
    })
}

// Adds the message behind the others: it takes the last place, and each message in the way moves one place up, as far
// as the next free place.
pub(crate) fn add(places: &mut [Option<Message<Word>>], message: Message<Word>)
    requires { length (held places.old) < length places.old }
    ensures { held places.new ≡ held places.old ++ (message ∷ []) }
{
    if let Some(free) = places.iter().rposition(|place| place.is_none()) {
        places[free] = Some(message);
        places[free..].rotate_left(1);
    }
}

// The message that a make takes of the places, with the number of its place; none where all places are free.
fn chosen<M: Make>(places: &[Option<Message<Word>>]) -> Option<(usize, Message<Word>)>
    ensures { Chosen M.order places.now result }
{
    places
        .iter()
        .enumerate()
        .rev()
        .filter_map(|(place, held)| held.map(|message| (place, message)))
        .reduce(|later, earlier| {
            if M::earlier_first(earlier.1, later.1) {
                earlier
            } else {
                later
            }
        })
}

// Takes out the message that a make takes, or nothing where all places are free.
pub(crate) fn take_out<M: Make>(places: &mut [Option<Message<Word>>]) -> Option<Message<Word>>
    ensures { TakenOut M.order places.old result places.new }
{
    let (place, message) = chosen::<M>(places)?;
    places[place] = None;
    Some(message)
}

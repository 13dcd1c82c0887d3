ghost use Rattle.carrier.specs.Makes.{radio_order, TakesLatest};
ghost use Rattle.carrier.specs.Picks.{radio_takes};

use crate::makes::Make;
use crate::messages::Message;
use crate::stores::Store;
use quantity::Word;

// The carrier that takes a response before a request, and among equals the latest put.
pub type Radio = Store<ResponseFirst>;

pub struct ResponseFirst;

impl Make for ResponseFirst {
    ghost order = { radio_order };

    ghost takes = { TakesLatest };

    ghost told = { radio_takes };

    fn earlier_first(earlier: Message<Word>, later: Message<Word>) -> bool {
        matches!(earlier, Message::Response(_)) && matches!(later, Message::Request)
    }
}

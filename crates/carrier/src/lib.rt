// What the lines carry: messages, the meaning of a carrier to the code above it, and its two makes, the wire and the
// radio.
#![tactic(auto)]

mod carriers;
mod makes;
mod messages;
mod named;
mod places;
mod radios;
mod stores;
mod tables;
mod wires;

pub use carriers::Carrier;
pub use messages::{Kind, Message};
pub use named::carriers_take_as_named;
pub use radios::Radio;
pub use wires::Wire;

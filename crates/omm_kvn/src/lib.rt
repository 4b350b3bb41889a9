//! Reads orbit mean-elements messages in keyword-value notation.
#![tactic(auto)]

mod beginning;
mod digits;
mod fault;
mod found;
mod key;
mod line;
mod message;
mod needed;
mod numbers;
mod orbit;
mod piece;
mod place;
mod read;
mod scan;
mod unit;

pub use beginning::begins_message;
pub use fault::OmmFault;
pub use key::Key;
pub use message::Message;
pub use read::read_message;

//! The words of the command line: the request that they make, or their first fault.
#![tactic(auto)]

mod command;
mod counts;
mod degrees;
mod digits;
mod fault;
mod found;
mod instant;
mod key;
mod number;
mod part;
mod passes;
mod placed;
mod request;
mod requests;
mod resolution;
mod role;
mod scan;
mod span;
mod values;
mod window;
mod words;

pub use fault::{UsageFault, WindowFault, WordFault};
pub use key::Opt;
pub use part::Part;
pub use placed::text_at;
pub use request::Request;
pub use words::read_words;

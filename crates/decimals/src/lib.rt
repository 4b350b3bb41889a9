//! Decimal numbers of at most 18 digits: their order, their reading and their printing.
#![tactic(auto)]

mod count;
mod cut;
mod decimal;
mod exponent;
mod fault;
mod fit;
mod laws;
mod order;
mod print;
mod read;
mod shortest;
mod significant;

pub use decimal::Decimal;
pub use fault::NumFault;
pub use laws::{equal_values_are_equal, printed_decimals_are_read_back, texts_are_read_exactly};
pub use print::MOST_BYTES;
pub use read::read_decimal;

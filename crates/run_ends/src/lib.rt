//! How a command ends: the files that it reads, what it prints, and why it may make no product.
#![tactic(auto)]

mod ending;
mod load;
mod print;
mod refusal;

pub use ending::{Ending, ended, refuse};
pub use load::{load_catalogue, load_stations};
pub use print::{put_line, put_refusal};
pub use refusal::{Refusal, refusal_line};

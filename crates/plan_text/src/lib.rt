//! What is printed of a plan: a line at a time, in a buffer on the stack.
#![tactic(auto)]

mod book;
mod contact;
mod grid;
mod head;
pub mod laws;
mod row;
mod summary;
mod table;

pub use book::{PASSBOOK, book_line, price_line, too_many_line, use_line};
pub use contact::put_in_order;
pub use contact_alloc::Contact;
pub use grid::{PASSGRID, count_line, spans_line};
pub use head::{PASSPLAN, offset_line, station_line};
pub use pass_text::sat_line;
pub use row::{lit_line, lit_span_line, pair_line, pair_span_line};
pub use summary::Summary;
pub use table::{pass_line, table_line};

//! Where a program's bytes come from and where they go, each with a count of its faults.
#![tactic(auto)]

mod arguments;
mod file_shelf;
mod folder;
mod memory_shelf;
mod memory_sink;
mod memory_words;
mod never_shelf;
mod never_sink;
mod process_words;
mod shelf;
mod sink;
mod std_sink;

pub use arguments::Arguments;
pub use file_shelf::FileShelf;
pub use memory_shelf::MemoryShelf;
pub use memory_sink::MemorySink;
pub use memory_words::MemoryWords;
pub use never_shelf::NeverFailShelf;
pub use never_sink::NeverFailSink;
pub use process_words::ProcessWords;
pub use shelf::{LoadFault, Shelf};
pub use sink::{Failed, Sink};
pub use std_sink::StdSink;

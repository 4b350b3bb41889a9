//! A satellite of a catalogue.
use elements::{Elements, Text};

/// A satellite: its element set and its name.
#[derive(Drop)]
pub struct Entry {
    /// The element set.
    pub elements: Elements,
    /// The name: 1 to 64 printable bytes.
    pub name: Text,
}

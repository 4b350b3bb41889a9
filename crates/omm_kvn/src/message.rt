//! A message.
use elements::Elements;

/// What a message says of a satellite.
#[derive(Clone, Copy, Debug)]
pub struct Message {
    /// Its elements.
    pub elements: Elements,
    /// The number of the first byte of its name, where the text's first byte is byte 0.
    pub name_from: u32,
    /// The number of the byte behind its name. Both are 0 where the message has no name.
    pub name_to: u32,
}

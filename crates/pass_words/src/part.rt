//! The end of a word.
/// What is left of a word from one of its bytes on, to the word's end.
#[derive(Clone, Copy, Debug, PartialEq, Eq)]
pub struct Part {
    /// Which word it is. The command is word 1.
    pub word: u64,
    /// How many bytes of the word stand before it.
    pub from: u64,
}

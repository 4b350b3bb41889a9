//! Words of the command line.
use elements::Text;
use std::alloc::{AllocError, Global};

/// The words of a line, which are parted by one blank each.
pub fn words_of(alloc: Global, line: &[u8]) -> Result<Vec<Text>, AllocError> {
    let mut words = Vec::new(alloc);
    for word in line.split(|byte| *byte == b' ') {
        words.push(Text::copy(alloc, word)?)?;
    }
    Ok(words)
}

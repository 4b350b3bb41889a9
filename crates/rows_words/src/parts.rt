use crate::words::words_of;
use elements::Text;
use pass_words::{Part, text_at};
use std::process::Abort;
use std::test::Fail;

/// The part from this byte of this word on has these bytes.
fn part(words: &[Text], word: u64, from: u64, wanted: &[u8], rt: &impl Abort) {
    assert_eq!(rt;
        text_at(words, Part { word, from }),
        wanted,
        "{word}, {from}"
    );
}

#[test]
fn nothing_stands_outside_the_words(rt: HostRuntime) -> Result<(), Fail> {
    let words = words_of(rt.alloc(), b"day xy")?;
    let words = words.as_slice();
    part(words, 1, 1, b"ay", &rt);
    part(words, 2, 0, b"xy", &rt);
    part(words, 2, 2, b"", &rt);
    part(words, 2, 3, b"", &rt);
    part(words, 3, 0, b"", &rt);
    part(words, u64::MAX, u64::MAX, b"", &rt);
    Ok(())
}

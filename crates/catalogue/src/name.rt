//! Names as they are printed.
ghost use Rattle.std.specs.Prelude.{◌≡◌, map, IfOk};
ghost use Rattle.catalogue.specs.Entries.{IsName};
ghost use Rattle.catalogue.specs.Names as spec;

use elements::{OutOfMemory, Text};
use std::alloc::Global;

/// The most bytes of a name.
const MOST_BYTES: usize = 64;

/// The text without the spaces in front.
fn without_spaces(mut text: &[u8]) -> &[u8]
    ensures { result.now ≡ spec.skip_spaces text.entry.now }
{
    while let [b' ', rest @ ..] = text {
        text = rest;
    }
    text
}

/// The text without a 0 and a space in front.
fn without_zero(text: &[u8]) -> &[u8]
    ensures { result.now ≡ spec.without_zero text.now }
{
    match text {
        [b'0', b' ', rest @ ..] => rest,
        _ => text,
    }
}

/// At most the first 64 bytes.
fn first_bytes(text: &[u8]) -> &[u8]
    ensures { result.now ≡ spec.first_bytes text.now }
{
    if text.len() > MOST_BYTES {
        &text[..MOST_BYTES]
    } else {
        text
    }
}

/// The byte, or a question mark where it is not printable.
fn printed(byte: u8) -> u8
    ensures { result ≡ spec.printed byte }
{
    if matches!(byte, 32..=126) { byte } else { b'?' }
}

/// The bytes, each printed.
fn all_printed(alloc: Global, text: &[u8]) -> Result<Vec<u8>, OutOfMemory>
    ensures { IfOk result (λ bytes. bytes.items ≡ map spec.printed text.now) }
{
    let mut bytes = Vec::new(alloc);
    for byte in text {
        bytes.push(printed(*byte))?;
    }
    Ok(bytes)
}

/// The name that a text gives: without the spaces in front, then without a 0 and a space, then without the spaces that
/// lead after that; of this the first 64 bytes, each that is not printable as a question mark. It is a dash where
/// nothing is left.
#[tactic(auto, using(crate::proofs::NameLemmas::is_name), unfolding(crate::specs::Names::name_of))]
pub(crate) fn name_of(alloc: Global, text: &[u8]) -> Result<Text, OutOfMemory>
    ensures value { IfOk result (λ name. name ≡ spec.name_of text.now) }
    ensures name { IfOk result (λ name. IsName name) }
{
    let kept = first_bytes(without_spaces(without_zero(without_spaces(text))));
    if kept.is_empty() {
        return Text::copy(alloc, b"-".as_slice());
    }
    let bytes = all_printed(alloc, kept)?;
    Text::copy(alloc, bytes.as_slice())
}

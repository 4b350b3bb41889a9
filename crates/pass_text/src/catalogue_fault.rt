//! The lines of files that are no catalogue.
ghost use Rattle.std.specs.Prelude.{◌≡◌, ◌≤◌, ◌+◌, ◌++◌, length};
ghost use Rattle.omm_kvn.specs.Keys.{keyword_of};
ghost use Rattle.pass_text.specs.CatalogueFaults.{catalogue_fault_line, odd_line, omm_words, one_number, set_fault_line, set_words, three_numbers, tle_words, two_numbers};

use crate::line::Line;
use crate::refusal::{memory_line, whole};
use catalogue::{CatFault, SetFault};
use omm_kvn::{Key, OmmFault};
use tle_read::TleFault;

/// `error catalogue ..`, or `error memory`
#[tactic(auto, unfolding(crate::specs::CatalogueFaults::catalogue_fault_line))]
pub fn catalogue_fault_line(fault: CatFault) -> Line
    ensures { result ≡ catalogue_fault_line fault }
{
    match fault {
        CatFault::Empty => whole(b"error catalogue empty\n"),
        CatFault::Odd { line } => odd_line(line),
        CatFault::BadSet { line, fault } => set_fault_line(line, fault),
        CatFault::TooMany => whole(b"error catalogue toomany\n"),
        CatFault::OutOfMemory => memory_line(),
    }
}

/// `error catalogue odd <line>`
#[tactic(auto, unfolding(crate::specs::CatalogueFaults::odd_line))]
fn odd_line(line: u32) -> Line
    ensures { result ≡ odd_line line }
{
    let mut text = Line::new();
    one_number(&mut text, b"error catalogue odd", line as u64);
    text.text(b"\n");
    text
}

/// `error catalogue set <line> <fault>`
#[tactic(auto, unfolding(crate::specs::CatalogueFaults::set_fault_line))]
fn set_fault_line(line: u32, fault: SetFault) -> Line
    ensures { result ≡ set_fault_line line fault }
{
    let mut text = Line::new();
    one_number(&mut text, b"error catalogue set", line as u64);
    text.text(b" ");
    set_words(&mut text, fault);
    text.text(b"\n");
    text
}

/// Appends the fault of a set.
fn set_words(text: &mut Line, fault: SetFault)
    requires { length text.old ≤ 100 }
    ensures text { text.new ≡ text.old ++ set_words fault }
    ensures len { length text.new ≤ length text.old + 100 }
{
    match fault {
        SetFault::Tle(fault) => tle_words(text, fault),
        SetFault::Omm(fault) => omm_words(text, fault),
    }
}

/// Appends the fault of two lines.
#[tactic(auto, unfolding(crate::specs::CatalogueFaults::tle_words))]
fn tle_words(text: &mut Line, fault: TleFault)
    requires { length text.old ≤ 100 }
    ensures text { text.new ≡ text.old ++ tle_words fault }
    ensures len { length text.new ≤ length text.old + 100 }
{
    match fault {
        TleFault::Length { line, found } => two_numbers(
            text,
            b"tle length",
            line as u64,
            found as u64,
        ),
        TleFault::LineNumber { line } => one_number(text, b"tle linenumber", line as u64),
        TleFault::Check {
            line,
            found,
            wanted,
        } => three_numbers(text, b"tle check", line as u64, found as u64, wanted as u64),
        TleFault::Column { line, first } => two_numbers(
            text,
            b"tle column",
            line as u64,
            first as u64,
        ),
        TleFault::NumbersDiffer => text.text(b"tle differ"),
        TleFault::Theory => text.text(b"tle theory"),
        TleFault::Range { line, first } => two_numbers(
            text,
            b"tle range",
            line as u64,
            first as u64,
        ),
    }
}

/// Appends the fault of a message.
#[tactic(auto, unfolding(crate::specs::CatalogueFaults::omm_words))]
fn omm_words(text: &mut Line, fault: OmmFault)
    requires { length text.old ≤ 100 }
    ensures text { text.new ≡ text.old ++ omm_words fault }
    ensures len { length text.new ≤ length text.old + 100 }
{
    match fault {
        OmmFault::Line { line } => one_number(text, b"omm line", line as u64),
        OmmFault::Missing { key } => key_words(text, b"omm missing ", key),
        OmmFault::Twice { key } => key_words(text, b"omm twice ", key),
        OmmFault::Unsupported { key } => key_words(text, b"omm unsupported ", key),
        OmmFault::Value { key } => key_words(text, b"omm value ", key),
    }
}

/// Appends some words, and a keyword as it stands in a message.
fn key_words(text: &mut Line, words: &[u8], key: Key)
    requires room { length text.old ≤ 100 }
    requires short { length words.now ≤ 20 }
    ensures text { text.new ≡ text.old ++ (words.now ++ keyword_of key) }
    ensures len { length text.new ≤ length text.old + 100 }
{
    text.text(words);
    text.text(key.keyword().as_bytes());
}

/// Appends some words and a number.
#[tactic(auto, unfolding(crate::specs::CatalogueFaults::one_number))]
fn one_number(text: &mut Line, words: &[u8], a: u64)
    requires room { length text.old ≤ 100 }
    requires short { length words.now ≤ 20 }
    ensures text { text.new ≡ text.old ++ one_number words.now a }
    ensures len { length text.new ≤ length text.old + 41 }
{
    text.text(words);
    text.text(b" ");
    text.number(a);
}

/// Appends some words and two numbers.
#[tactic(auto, unfolding(crate::specs::CatalogueFaults::two_numbers))]
fn two_numbers(text: &mut Line, words: &[u8], a: u64, b: u64)
    requires room { length text.old ≤ 100 }
    requires short { length words.now ≤ 20 }
    ensures text { text.new ≡ text.old ++ two_numbers words.now a b }
    ensures len { length text.new ≤ length text.old + 62 }
{
    text.text(words);
    text.text(b" ");
    text.number(a);
    text.text(b" ");
    text.number(b);
}

/// Appends some words and three numbers.
#[tactic(auto, unfolding(crate::specs::CatalogueFaults::three_numbers))]
fn three_numbers(text: &mut Line, words: &[u8], a: u64, b: u64, c: u64)
    requires room { length text.old ≤ 100 }
    requires short { length words.now ≤ 20 }
    ensures text { text.new ≡ text.old ++ three_numbers words.now a b c }
    ensures len { length text.new ≤ length text.old + 83 }
{
    text.text(words);
    text.text(b" ");
    text.number(a);
    text.text(b" ");
    text.number(b);
    text.text(b" ");
    text.number(c);
}

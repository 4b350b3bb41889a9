//! Reads lines of words from the standard input, and prints each with what it asks for or its first fault.
#![tactic(auto)]

ghost use Rattle.rows_words.specs.SmallRequests.{SmallRequests};

mod asked;
#[cfg(test)]
mod blanks;
#[cfg(test)]
mod options;
#[cfg(test)]
mod parts;
#[cfg(test)]
mod sizes;
mod words;

use asked::answer;
use std::io;
use words::words_of;

/// What is said of requests with small parts and numbers.
pub fn small_requests()
    ensures { SmallRequests }
{}

fn main(rt: HostRuntime) -> io::Result<()> {
    for line in rt.lines(rt.alloc()) {
        let line = line?;
        let words = words_of(rt.alloc(), line.as_str().as_bytes())?;
        println!(rt; "{line}\n  {:?}", answer(words.as_slice()))?;
    }
    Ok(())
}

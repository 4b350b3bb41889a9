//! The lines of refusals.
ghost use Rattle.std.specs.Prelude.{◌≡◌, ◌≤◌, length};
ghost use Rattle.pass_text.specs.Refusals.{key_line, memory_line, read_line, too_long_line, usage_line, window_fault_line, word_line};

use crate::line::Line;
use pass_words::{Opt, UsageFault, WindowFault};

/// A line that ends with the name of a key.
#[tactic(auto, unfolding(crate::specs::Refusals::key_line))]
fn key_line(kind: &[u8], key: Opt) -> Line
    requires { length kind.now ≤ 100 }
    ensures { result ≡ key_line kind.now key }
{
    let mut line = Line::new();
    line.text(b"error usage ");
    line.text(kind);
    line.text(b" ");
    line.text(key.name().as_bytes());
    line.text(b"\n");
    line
}

/// `error usage ..`
#[tactic(auto, unfolding(crate::specs::Refusals::usage_line))]
pub fn usage_line(fault: UsageFault) -> Line
    ensures { result ≡ usage_line fault }
{
    match fault {
        UsageFault::NoCommand => whole(b"error usage nocommand\n"),
        UsageFault::Command => whole(b"error usage command\n"),
        UsageFault::Word { at } => word_line(at),
        UsageFault::Twice { key } => key_line(b"twice", key),
        UsageFault::Missing { key } => key_line(b"missing", key),
        UsageFault::Value { key } => key_line(b"value", key),
    }
}

/// `error usage word <at>`
#[tactic(auto, unfolding(crate::specs::Refusals::word_line))]
fn word_line(at: u64) -> Line
    ensures { result ≡ word_line at }
{
    let mut line = Line::new();
    line.text(b"error usage word ");
    line.number(at);
    line.text(b"\n");
    line
}

/// `error window ..`
#[tactic(auto, unfolding(crate::specs::Refusals::window_fault_line))]
pub fn window_fault_line(fault: WindowFault) -> Line
    ensures { result ≡ window_fault_line fault }
{
    match fault {
        WindowFault::Shape => whole(b"error window shape\n"),
        WindowFault::Year => whole(b"error window year\n"),
        WindowFault::Order => whole(b"error window order\n"),
        WindowFault::Long => whole(b"error window long\n"),
        WindowFault::Resolution => whole(b"error window resolution\n"),
    }
}

/// `error memory`
#[tactic(auto, unfolding(crate::specs::Refusals::memory_line))]
pub fn memory_line() -> Line
    ensures { result ≡ memory_line }
{
    whole(b"error memory\n")
}

/// `error read`
#[tactic(auto, unfolding(crate::specs::Refusals::read_line))]
pub fn read_line() -> Line
    ensures { result ≡ read_line }
{
    whole(b"error read\n")
}

/// `error toolong`
#[tactic(auto, unfolding(crate::specs::Refusals::too_long_line))]
pub fn too_long_line() -> Line
    ensures { result ≡ too_long_line }
{
    whole(b"error toolong\n")
}

/// A line that is known whole.
pub(crate) fn whole(text: &[u8]) -> Line
    requires { length text.now ≤ 320 }
    ensures { result ≡ text.now }
{
    let mut line = Line::new();
    line.text(text);
    line
}

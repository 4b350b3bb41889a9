//! The lines of files that are no station file.
ghost use Rattle.std.specs.Prelude.{◌≡◌, ◌≤◌, length};
ghost use Rattle.pass_text.specs.StationFaults.{index_line, key_line, station_fault_line};

use crate::line::Line;
use crate::refusal::{memory_line, whole};
use station_file::{StFault, StKey};

/// `error stations ..`, or `error memory`
#[tactic(auto, unfolding(crate::specs::StationFaults::station_fault_line))]
pub fn station_fault_line(fault: StFault) -> Line
    ensures { result ≡ station_fault_line fault }
{
    match fault {
        StFault::NotUtf8 => whole(b"error stations notutf8\n"),
        StFault::NotToml => whole(b"error stations nottoml\n"),
        StFault::Shape { index, key } => key_line(b"shape", index, key),
        StFault::Empty => whole(b"error stations empty\n"),
        StFault::TooMany => whole(b"error stations toomany\n"),
        StFault::Range { index, key } => key_line(b"range", index, key),
        StFault::Twice { index } => index_line(b"twice", index),
        StFault::Mask { index } => index_line(b"mask", index),
        StFault::OutOfMemory => memory_line(),
    }
}

/// `error stations <kind> <index> <key>`
#[tactic(auto, unfolding(crate::specs::StationFaults::key_line))]
fn key_line(kind: &[u8], index: u32, key: StKey) -> Line
    requires { length kind.now ≤ 100 }
    ensures { result ≡ key_line kind.now index key }
{
    let mut line = Line::new();
    line.text(b"error stations ");
    line.text(kind);
    line.text(b" ");
    line.number(index as u64);
    line.text(b" ");
    line.text(key.name().as_bytes());
    line.text(b"\n");
    line
}

/// `error stations <kind> <index>`
#[tactic(auto, unfolding(crate::specs::StationFaults::index_line))]
fn index_line(kind: &[u8], index: u32) -> Line
    requires { length kind.now ≤ 100 }
    ensures { result ≡ index_line kind.now index }
{
    let mut line = Line::new();
    line.text(b"error stations ");
    line.text(kind);
    line.text(b" ");
    line.number(index as u64);
    line.text(b"\n");
    line
}

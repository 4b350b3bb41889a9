//! The lines at the head of a plan: the offset and the stations.
ghost use Rattle.std.specs.Prelude.{◌≡◌, ◌≤◌, ◌+◌, ◌++◌, length, map};
ghost use Rattle.catalogue.specs.Names.{printed};
ghost use Rattle.plan_text.specs.HeadLines.{offset_line, station_line};

use pass_text::Line;

/// The first line.
pub const PASSPLAN: &[u8] = b"PASSPLAN 1\n";

/// `DUT1 <milliseconds>`
#[tactic(auto, unfolding(crate::specs::HeadLines::offset_line))]
pub fn offset_line(ms: i32) -> Line
    ensures { result ≡ offset_line ms }
{
    let mut line = Line::new();
    line.text(b"DUT1 ");
    line.signed(ms as i64);
    line.text(b"\n");
    line
}

/// `STATION <index> <name>`
#[tactic(auto, unfolding(crate::specs::HeadLines::station_line))]
pub fn station_line(index: u32, name: &[u8]) -> Line
    requires { length name.now ≤ 64 }
    ensures { result ≡ station_line index name.now }
{
    let mut line = Line::new();
    line.text(b"STATION ");
    line.number(index as u64);
    line.text(b" ");
    printed_name(&mut line, name);
    line.text(b"\n");
    line
}

/// Appends a name, each byte of it printed.
fn printed_name(line: &mut Line, name: &[u8])
    requires { length line.old + length name.now ≤ 320 }
    ensures text { line.new ≡ line.old ++ map printed name.now }
    ensures len { length line.new ≡ length line.old + length name.now }
{
    for byte in name {
        line.text(&[printed(*byte)]);
    }
}

/// The byte, or a question mark where it is not printable.
fn printed(byte: u8) -> u8
    ensures { result ≡ printed byte }
{
    if matches!(byte, 32..=126) { byte } else { b'?' }
}

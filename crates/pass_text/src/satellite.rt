//! The line of a satellite.
ghost use Rattle.std.specs.Prelude.{◌≡◌, ◌≤◌, length};
ghost use Rattle.pass_text.specs.SatLine.{fate_word, sat_line};

use crate::line::Line;
use sgp4_shape::SatFault;

/// `OK`, or the word for why the satellite is refused.
fn fate_word(fate: Option<SatFault>) -> &'static [u8]
    ensures value { result.now ≡ fate_word fate }
    ensures short { length result.now ≤ 9 }
{
    match fate {
        None => b"OK",
        Some(SatFault::Eccentric) => b"ECCENTRIC",
        Some(SatFault::Inclined) => b"INCLINED",
        Some(SatFault::Drag) => b"DRAG",
        Some(SatFault::Deep) => b"DEEP",
        Some(SatFault::Low) => b"LOW",
        Some(SatFault::Edge) => b"EDGE",
        Some(SatFault::Far) => b"FAR",
    }
}

/// `SAT <number> <OK or the fate> <name>`
#[tactic(auto, unfolding(crate::specs::SatLine::sat_line))]
pub fn sat_line(number: u32, fate: Option<SatFault>, name: &[u8]) -> Line
    requires { length name.now ≤ 64 }
    ensures { result ≡ sat_line number fate name.now }
{
    let mut line = Line::new();
    line.text(b"SAT ");
    line.number(number as u64);
    line.text(b" ");
    line.text(fate_word(fate));
    line.text(b" ");
    line.text(name);
    line.text(b"\n");
    line
}

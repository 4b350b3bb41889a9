//! The lines that begin a message.
ghost use Rattle.std.specs.Prelude.{◌≡◌, ◌≤◌, length};
ghost use Rattle.omm_kvn.specs.Beginnings as spec;

use crate::key::Key;
use crate::line::{Kind, kind_of};
use crate::piece::Piece;

/// Whether what a line is has the keyword of the version.
fn has_version(line: Kind) -> bool
    ensures { result ≡ spec.has_version line }
{
    match line {
        Kind::Entry { key, .. } => matches!(key, Key::Version),
        Kind::Passed | Kind::Malformed => false,
    }
}

/// Whether a line begins a message, in a text of several: its keyword is `CCSDS_OMM_VERS`.
#[tactic(auto, unfolding(crate::specs::Beginnings::begins_message))]
pub fn begins_message(line: &[u8]) -> bool
    requires { length line.now ≤ 16_777_216 }
    ensures { result ≡ spec.begins_message line.now }
{
    has_version(kind_of(&Piece::make(0, line)))
}

//! Pieces of a text.
ghost use Rattle.std.specs.Prelude.{◌≡◌, ◌≤◌, ◌<◌, ◌==◌, ◌+◌, length, take, drop, position, IfSome};
ghost use Rattle.tle_read.specs.TwoLine as spec;

/// Where the first line of a text ends, if a line feed ends it.
pub(crate) fn line_end(text: &[u8]) -> Option<usize>
    ensures value { result ≡ position (λ byte. byte == 10) text.now }
    ensures bound { IfSome result (λ end. end < length text.now) }
{
    text.iter().position(|byte| *byte == b'\n')
}

/// What stands before a place of a text, and what stands behind the byte there.
pub(crate) fn cut(text: &[u8], at: usize) -> (&[u8], &[u8])
    requires { at < length text.now }
    ensures before { result.0.now ≡ take at text.now }
    ensures len { length result.0.now ≡ at }
    ensures behind { result.1.now ≡ drop (at + 1) text.now }
    ensures rest { length result.1.now + (at + 1) ≡ length text.now }
{
    (&text[..at], &text[at + 1..])
}

/// The line without the spaces, tabs and carriage returns at its end.
pub(crate) fn trimmed(mut line: &[u8]) -> &[u8]
    ensures value { result.now ≡ spec.trimmed line.entry.now }
    ensures len { length result.now ≤ length line.entry.now }
{
    while let [rest @ .., b' ' | b'\t' | b'\r'] = line {
        line = rest;
    }
    line
}

//! The columns of a line, and a text without what stands at its ends.
ghost use Rattle.std.specs.Prelude.{◌≡◌, ◌+◌, ◌-◌, ◌≤◌, length};
ghost use Rattle.tle_read.specs.Columns as spec;

/// The bytes in these columns, counted from 1, both included.
pub(crate) fn columns(line: &[u8], first: usize, last: usize) -> &[u8]
    requires from_one { 1 ≤ first }
    requires some { first ≤ last }
    requires inside { last ≤ length line.now }
    ensures value { result.now ≡ spec.columns first last line.now }
    ensures len { length result.now ≡ last + 1 - first }
{
    &line[first - 1..last]
}

/// The byte in a column.
pub(crate) fn byte_in(column: usize, line: &[u8]) -> u8
    requires from_one { 1 ≤ column }
    requires inside { column ≤ length line.now }
    ensures { result ≡ spec.byte_in column line.now }
{
    line[column - 1]
}

/// The text without the spaces in front.
pub(crate) fn without_spaces(mut text: &[u8]) -> &[u8]
    ensures value { result.now ≡ spec.skip_while spec.is_space text.entry.now }
    ensures len { length result.now ≤ length text.entry.now }
{
    while let [b' ', rest @ ..] = text {
        text = rest;
    }
    text
}

/// The text without the spaces at its end.
pub(crate) fn without_spaces_after(mut text: &[u8]) -> &[u8]
    ensures value { result.now ≡ spec.skip_end spec.is_space text.entry.now }
    ensures len { length result.now ≤ length text.entry.now }
{
    while let [rest @ .., b' '] = text {
        text = rest;
    }
    text
}

/// The line without the spaces, tabs and carriage returns at its end.
pub(crate) fn trimmed(mut line: &[u8]) -> &[u8]
    ensures value { result.now ≡ spec.skip_end spec.is_blank line.entry.now }
    ensures len { length result.now ≤ length line.entry.now }
{
    while let [rest @ .., b' ' | b'\t' | b'\r'] = line {
        line = rest;
    }
    line
}

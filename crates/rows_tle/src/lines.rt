//! The lines of the tests, and copies of them with other columns.

/// Vanguard 1, one of the published test cases of the orbit model.
pub(crate) const VANGUARD1: &[u8; 69] =
    b"1 00005U 58002B   00179.78495062  .00000023  00000-0  28098-4 0  4753";

pub(crate) const VANGUARD2: &[u8; 69] =
    b"2 00005  34.2682 348.7242 1859667 331.7664  19.3264 10.82419157413667";

/// The International Space Station on 20 September 2008.
pub(crate) const STATION1: &[u8; 69] =
    b"1 25544U 98067A   08264.51782528 -.00002182  00000-0 -11606-4 0  2927";

pub(crate) const STATION2: &[u8; 69] =
    b"2 25544  51.6416 247.4627 0006703 130.5360 325.0288 15.72125391563537";

/// The line with another text from this column on, counted from 1, and another last byte.
pub(crate) fn with(line: &[u8; 69], first: usize, text: &[u8], last: u8) -> [u8; 69] {
    let mut line = *line;
    let mut column = first;
    for byte in text {
        if column >= 1 && column <= 69 {
            line[column - 1] = *byte;
        }
        column = column.wrapping_add(1);
    }
    line[68] = last;
    line
}

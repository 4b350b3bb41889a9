/// The first line of a published set.
pub const VANGUARD1: &[u8] =
    b"1 00005U 58002B   00179.78495062  .00000023  00000-0  28098-4 0  4753";

/// Both lines, as a file.
pub const VANGUARD: &[u8] =
    b"1 00005U 58002B   00179.78495062  .00000023  00000-0  28098-4 0  4753\n2 00005  34.2682 348.7242 1859667 331.7664  19.3264 10.82419157413667\n";

/// A set of our own making, on the equator, with a check digit at each line's end.
pub const EQUATOR1: &[u8] =
    b"1 90001U 00001A   00179.00000000  .00000000  00000-0  00000-0 0    12";

pub const EQUATOR2: &[u8] =
    b"2 90001   0.0000   0.0000 0010000   0.0000   0.0000 15.00000000    10";

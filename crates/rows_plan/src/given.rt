//! Files and windows.
use elements::{Instant, Window};

/// A circle over the equator, 566 kilometres high, at 2000-06-27T00:00:00.
pub const EQUATOR: &[u8] =
    b"1 90001U 00001A   00179.00000000  .00000000  00000-0  00000-0 0    12\n2 90001   0.0000   0.0000 0010000   0.0000   0.0000 15.00000000    10\n";

/// The same with six revolutions a day.
pub const DEEP: &[u8] =
    b"1 90001U 00001A   00179.00000000  .00000000  00000-0  00000-0 0    12\n2 90001   0.0000   0.0000 0010000   0.0000   0.0000  6.00000000    10\n";

/// The same with an eccentricity of 0.2000001.
pub const ECCENTRIC: &[u8] =
    b"1 90001U 00001A   00179.00000000  .00000000  00000-0  00000-0 0    12\n2 90001   0.0000   0.0000 2000001   0.0000   0.0000 15.00000000    12\n";

/// The deep set, and the first one as that of another satellite.
pub const BOTH: &[u8] =
    b"1 90001U 00001A   00179.00000000  .00000000  00000-0  00000-0 0    12\n2 90001   0.0000   0.0000 0010000   0.0000   0.0000  6.00000000    10\n1 90002U 00001A   00179.00000000  .00000000  00000-0  00000-0 0    13\n2 90002   0.0000   0.0000 0010000   0.0000 180.0000 15.00000000    10\n";

/// A station at the North Pole.
pub const POLE: &[u8] =
    b"version = 1\n[[station]]\nname = \"Pole\"\nlat = \"90\"\nlon = \"0\"\nheight = \"0\"\nmask = \"0\"\n";

/// The same, and one that sees through the Earth.
pub const POLES: &[u8] =
    b"version = 1\n[[station]]\nname = \"Pole\"\nlat = \"90\"\nlon = \"0\"\nheight = \"0\"\nmask = \"0\"\n[[station]]\nname = \"Open\"\nlat = \"90\"\nlon = \"0\"\nheight = \"0\"\nmask = \"-90\"\n";

/// A station on the equator, with borders of its mask to the east and to the west.
pub const BORDERS: &[u8] =
    b"version = 1\n[[station]]\nname = \"Borders\"\nlat = \"0\"\nlon = \"0\"\nheight = \"0\"\nborders = [\"0\", \"90\", \"180\", \"270\"]\nmasks = [\"0\", \"80\", \"80\", \"0\"]\n";

/// An hour from 2000-06-27T00:00:00Z.
pub fn an_hour() -> Window {
    Window::make(
        Instant::from_nanos(15_336_000_000_000_000),
        36_000_000,
        10_000,
    )
}

/// Two hours from then.
pub fn two_hours() -> Window {
    Window::make(
        Instant::from_nanos(15_336_000_000_000_000),
        72_000_000,
        10_000,
    )
}

/// An hour eight days later.
pub fn an_hour_later() -> Window {
    Window::make(
        Instant::from_nanos(16_027_200_000_000_000),
        36_000_000,
        10_000,
    )
}

//! Files and windows.
ghost use Rattle.std.specs.Prelude.{◌≡◌};

use elements::{Instant, Window};

/// A circle over the equator, 566 kilometres high, at 2000-06-27T00:00:00.
pub const EQUATOR: &[u8] =
    b"1 90001U 00001A   00179.00000000  .00000000  00000-0  00000-0 0    12\n2 90001   0.0000   0.0000 0010000   0.0000   0.0000 15.00000000    10\n";

/// The same with six revolutions a day.
pub const DEEP: &[u8] =
    b"1 90001U 00001A   00179.00000000  .00000000  00000-0  00000-0 0    12\n2 90001   0.0000   0.0000 0010000   0.0000   0.0000  6.00000000    10\n";

/// The same with an eccentricity of 0.2000001.
pub const ECCENTRIC: &[u8] =
    b"1 90001U 00001A   00179.00000000  .00000000  00000-0  00000-0 0    12\n2 90001   0.0000   0.0000 2000001   0.0000   0.0000 15.00000000    12\n";

/// A station at the North Pole.
pub const POLE: &[u8] =
    b"version = 1\n[[station]]\nname = \"Pole\"\nlat = \"90\"\nlon = \"0\"\nheight = \"0\"\nmask = \"0\"\n";

/// A station there, and one that sees through the Earth.
pub const POLES: &[u8] =
    b"version = 1\n[[station]]\nname = \"Pole\"\nlat = \"90\"\nlon = \"0\"\nheight = \"0\"\nmask = \"0\"\n[[station]]\nname = \"Open\"\nlat = \"90\"\nlon = \"0\"\nheight = \"0\"\nmask = \"-90\"\n";

/// The station with another key or value in it.
pub const POLE_OFFSET_0: &[u8] =
    b"version = 2\ndut1_ms = 0\n[[station]]\nname = \"Pole\"\nlat = \"90\"\nlon = \"0\"\nheight = \"0\"\nmask = \"0\"\n";

pub const POLE_OFFSET: &[u8] =
    b"version = 2\ndut1_ms = -334\n[[station]]\nname = \"Pole\"\nlat = \"90\"\nlon = \"0\"\nheight = \"0\"\nmask = \"0\"\n";

pub const POLE_ACCENT: &[u8] =
    b"version = 1\n[[station]]\nname = \"P\xc3\xb4le\"\nlat = \"90\"\nlon = \"0\"\nheight = \"0\"\nmask = \"0\"\n";

pub const POLE_NUMBER: &[u8] =
    b"version = 1\n[[station]]\nname = \"Pole\"\nlat = 90.0\nlon = \"0\"\nheight = \"0\"\nmask = \"0\"\n";

pub const POLE_FAR: &[u8] =
    b"version = 1\n[[station]]\nname = \"Pole\"\nlat = \"90.5\"\nlon = \"0\"\nheight = \"0\"\nmask = \"0\"\n";

pub const POLE_TWICE: &[u8] =
    b"version = 1\n[[station]]\nname = \"Pole\"\nlat = \"90\"\nlon = \"0\"\nheight = \"0\"\nmask = \"0\"\n[[station]]\nname = \"Pole\"\nlat = \"90\"\nlon = \"0\"\nheight = \"0\"\nmask = \"0\"\n";

/// An hour from 2000-06-27T00:00:00Z.
pub fn an_hour() -> Window
    ensures { result.ticks ≡ 36000000 }
{
    Window::make(
        Instant::from_nanos(15_336_000_000_000_000),
        36_000_000,
        10_000,
    )
}

/// An hour eight days later.
pub fn an_hour_later() -> Window
    ensures { result.ticks ≡ 36000000 }
{
    Window::make(
        Instant::from_nanos(16_027_200_000_000_000),
        36_000_000,
        10_000,
    )
}

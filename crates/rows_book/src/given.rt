//! Files and windows.
ghost use Rattle.std.specs.Prelude.{◌≡◌};

use elements::{Instant, Window};

/// A circle over the equator, 566 kilometres high, at 2000-06-27T00:00:00.
pub const EQUATOR: &[u8] =
    b"1 90001U 00001A   00179.00000000  .00000000  00000-0  00000-0 0    12\n2 90001   0.0000   0.0000 0010000   0.0000   0.0000 15.00000000    10\n";

/// Two satellites of that orbit.
pub const TWO: &[u8] =
    b"1 90001U 00001A   00179.00000000  .00000000  00000-0  00000-0 0    12\n2 90001   0.0000   0.0000 0010000   0.0000   0.0000 15.00000000    10\n1 90002U 00001A   00179.00000000  .00000000  00000-0  00000-0 0    13\n2 90002   0.0000   0.0000 0010000   0.0000   0.0000 15.00000000    11\n";

/// Three satellites of that orbit.
pub const THREE: &[u8] =
    b"1 90001U 00001A   00179.00000000  .00000000  00000-0  00000-0 0    12\n2 90001   0.0000   0.0000 0010000   0.0000   0.0000 15.00000000    10\n1 90002U 00001A   00179.00000000  .00000000  00000-0  00000-0 0    13\n2 90002   0.0000   0.0000 0010000   0.0000   0.0000 15.00000000    11\n1 90003U 00001A   00179.00000000  .00000000  00000-0  00000-0 0    14\n2 90003   0.0000   0.0000 0010000   0.0000   0.0000 15.00000000    12\n";

/// The first with six revolutions a day.
pub const DEEP: &[u8] =
    b"1 90001U 00001A   00179.00000000  .00000000  00000-0  00000-0 0    12\n2 90001   0.0000   0.0000 0010000   0.0000   0.0000  6.00000000    10\n";

/// A station at the North Pole.
pub const POLE: &[u8] =
    b"version = 1\n[[station]]\nname = \"Pole\"\nlat = \"90\"\nlon = \"0\"\nheight = \"0\"\nmask = \"0\"\n";

/// A station there that sees through the Earth.
pub const POLE_OPEN: &[u8] =
    b"version = 1\n[[station]]\nname = \"Pole\"\nlat = \"90\"\nlon = \"0\"\nheight = \"0\"\nmask = \"-90\"\n";

/// Both.
pub const POLES: &[u8] =
    b"version = 1\n[[station]]\nname = \"Pole\"\nlat = \"90\"\nlon = \"0\"\nheight = \"0\"\nmask = \"0\"\n[[station]]\nname = \"Open\"\nlat = \"90\"\nlon = \"0\"\nheight = \"0\"\nmask = \"-90\"\n";

/// The first with an offset.
pub const POLE_OFFSET: &[u8] =
    b"version = 2\ndut1_ms = -334\n[[station]]\nname = \"Pole\"\nlat = \"90\"\nlon = \"0\"\nheight = \"0\"\nmask = \"0\"\n";

/// The first with a latitude that is too far north.
pub const POLE_FAR: &[u8] =
    b"version = 1\n[[station]]\nname = \"Pole\"\nlat = \"90.5\"\nlon = \"0\"\nheight = \"0\"\nmask = \"0\"\n";

/// An hour from 2000-06-27T00:00:00Z.
pub fn an_hour() -> Window
    ensures { result.ticks ≡ 36000000 }
{
    Window::make(
        Instant::from_nanos(15_336_000_000_000_000),
        36_000_000,
        10_000,
    )
}

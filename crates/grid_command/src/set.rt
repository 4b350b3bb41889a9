//! The element sets of the generated satellites.
ghost use Rattle.std.specs.Prelude.{◌≡◌, ◌<◌, ◌≤◌, pos};
ghost use Rattle.decimals.specs.Normal.{normal};
ghost use Rattle.grid_command.specs.Generated.{midnight, set_of};
ghost use Rattle.station_file.specs.Masks.{whole};

use elements::{Decimal, Elements, Instant};

/// 2000-06-28T00:00:00Z.
pub(crate) fn midnight() -> Instant
    ensures { result ≡ midnight }
{
    Instant::from_nanos(15_422_400_000_000_000)
}

/// A whole number of degrees.
fn degrees(angle: u32) -> Decimal
    requires { angle < 360 }
    ensures { result ≡ whole angle }
{
    Decimal::whole(angle as i32)
}

/// A number by its digits and by how many of them stand after the point.
fn scaled(digits: u32, places: u8) -> Decimal
    requires digits { digits < 1000000 }
    requires places { places ≤ 18 }
    ensures { result ≡ normal (pos digits) places }
{
    Decimal::of_scaled(digits as i64, places)
}

/// The element set of satellite k, counted from 0.
pub(crate) fn set_at(k: u32) -> Elements
    requires { k < 1000 }
    ensures { result ≡ set_of k }
{
    Elements::make(
        90_000 + k,
        midnight(),
        scaled(15_000 - k, 3),
        scaled(k % 200, 4),
        degrees(7 * k % 176),
        degrees(37 * k % 360),
        degrees(91 * k % 360),
        degrees(137 * k % 360),
        scaled(1, 4),
    )
}

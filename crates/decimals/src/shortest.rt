//! Digits without the zeros at their end.
ghost use Rattle.std.specs.Prelude.{◌≡◌};
ghost use Rattle.decimals.specs.Normal.{shortest};

/// The digits without the zeros at their end, of which at most `places` are left off, and the places that are left.
pub(crate) fn shortest(size: u64, places: u8) -> (u64, u8)
    ensures { result ≡ shortest size places }
{
    let mut rest = size;
    let mut left = places;
    while left > 0 && rest % 10 == 0 {
        rest /= 10;
        left -= 1;
    }
    (rest, left)
}

//! The rules on the borders of an elevation mask.
ghost use Rattle.std.specs.Prelude.{◌≡◌, ◌↔◌, ◌≤◌, ◌^◌, IsTrue, unsigned_abs};
ghost use Rattle.exact.specs.Rational.{ratio, ◌+ℚ◌, ◌≤ℚ◌, ◌<ℚ◌};
ghost use Rattle.decimals.specs.Decimal.{value};
ghost use Rattle.station_file.specs.Masks.{degrees};
ghost use Rattle.station_file.specs.MaskTests.{are_borders, follows, goes_round, is_azimuth, is_count, is_round};
ghost use Rattle.std.specs.List.{list_all};

use elements::Decimal;

/// How many units of 10^-18 degrees one degree has.
const UNITS: i128 = 1_000_000_000_000_000_000;

/// The number in units of 10^-18.
fn units(number: Decimal) -> i128
    ensures value { value number ≡ ratio result (10 ^ 18) }
    ensures size { unsigned_abs result ≤ 10 ^ 36 }
{
    i128::from(number.digits()) * i128::from(10u64.pow(u32::from(18 - number.places())))
}

/// So many whole numbers more, in units of 10^-18.
fn units_after(number: Decimal, more: u16) -> i128
    requires { more ≤ 360 }
    ensures value { value number +ℚ degrees more ≡ ratio result (10 ^ 18) }
    ensures size { unsigned_abs result ≤ 10 ^ 37 }
{
    units(number) + i128::from(more) * UNITS
}

/// Whether a border is at most 90 degrees after another.
fn is_near(before: Decimal, border: Decimal) -> bool
    ensures { IsTrue result ↔ value border ≤ℚ value before +ℚ degrees 90 }
{
    units(border) <= units_after(before, 90)
}

/// Whether the last border is below the first one after a full turn.
fn is_below_turn(last: Decimal, first: Decimal) -> bool
    ensures { IsTrue result ↔ value last <ℚ value first +ℚ degrees 360 }
{
    units(last) < units_after(first, 360)
}

/// Whether the first border is after a full turn at most 90 degrees after the last one.
fn is_near_turn(last: Decimal, first: Decimal) -> bool
    ensures { IsTrue result ↔ value first +ℚ degrees 360 ≤ℚ value last +ℚ degrees 90 }
{
    units_after(first, 360) <= units_after(last, 90)
}

/// Whether a border follows another: it is above it, by at most 90 degrees.
fn follows(before: Decimal, border: Decimal) -> bool
    ensures { result ≡ follows (value before) (value border) }
{
    before.is_below(border) && is_near(before, border)
}

/// Whether the first border follows the last one after a full turn.
fn closes(last: Decimal, first: Decimal) -> bool
    ensures { result ≡ follows (value last) (value first +ℚ degrees 360) }
{
    is_below_turn(last, first) && is_near_turn(last, first)
}

/// Whether each border follows the one before it, and after a full turn the first one follows the last.
fn goes_round(first: Decimal, borders: &[Decimal]) -> bool
    ensures { result ≡ goes_round (value first) (value first) borders.now }
{
    let mut last = first;
    for border in borders {
        if !follows(last, *border) {
            return false;
        }
        last = *border;
    }
    closes(last, first)
}

/// Whether the borders go round the horizon.
fn is_round(borders: &[Decimal]) -> bool
    ensures { result ≡ is_round borders.now }
{
    match borders {
        [first, rest @ ..] => goes_round(*first, rest),
        [] => false,
    }
}

/// Whether an azimuth is at least 0 and below 360 degrees.
#[tactic(auto, using(decimals::proofs::UnitsLemmas::value_whole))]
fn is_azimuth(border: Decimal) -> bool
    ensures { result ≡ is_azimuth border }
{
    Decimal::whole(0).is_at_most(border) && border.is_below(Decimal::whole(360))
}

/// Whether each number is an azimuth.
fn are_azimuths(borders: &[Decimal]) -> bool
    ensures { result ≡ list_all is_azimuth borders.now }
{
    borders.iter().all(|border| is_azimuth(*border))
}

/// Whether a count is from 4 to 360.
fn is_count(count: usize) -> bool
    ensures { result ≡ is_count count }
{
    4 <= count && count <= 360
}

/// Whether these are 4 to 360 azimuths that go round the horizon.
pub(crate) fn are_borders(borders: &[Decimal]) -> bool
    ensures { result ≡ are_borders borders.now }
{
    is_count(borders.len()) && (are_azimuths(borders) && is_round(borders))
}

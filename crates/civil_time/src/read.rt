//! Reads an instant.
ghost use Rattle.std.specs.Prelude.{◌≡◌};
ghost use Rattle.civil_time.specs.Utc as spec;

use crate::fault::TimeFault;
use crate::form::{date_width, is_form, without_z};
use crate::instant::Instant;
use crate::moment::{is_clock, is_day, moment_at, year_at};

/// The instant that a text writes as `YYYY-MM-DDThh:mm:ss` or `YYYY-DDDThh:mm:ss`, with a point and one to
/// nine decimals of the second where wanted, and then a `Z` where wanted. Second 60 and hour 24 do not exist.
#[tactic(auto, unfolding(crate::specs::Utc::utc_value))]
pub fn read_utc(text: &[u8]) -> Result<Instant, TimeFault>
    ensures { result ≡ spec.utc_value text.now }
{
    read_without_z(without_z(text))
}

/// The instant of a text without its `Z`.
#[tactic(auto, unfolding(crate::specs::Utc::utc_without_z, crate::specs::Utc::is_form))]
fn read_without_z(text: &[u8]) -> Result<Instant, TimeFault>
    ensures { result ≡ spec.utc_without_z text.now }
{
    if !is_form(text) {
        return Err(TimeFault::Shape);
    }
    if !is_day(text) || !is_clock(text, date_width(text)) {
        return Err(TimeFault::NotADay);
    }
    let year = year_at(text);
    if year < 1957 || year > 2056 {
        return Err(TimeFault::Year);
    }
    Ok(moment_at(text))
}

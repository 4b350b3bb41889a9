//! The text of an instant.
ghost use Rattle.std.specs.Prelude.{◌≡◌, ◌-ℤ◌, ◌+◌, ◌≤◌, pos, length};
ghost use Rattle.jiff_core.specs.DateTime.{civil_nanos};
ghost use Rattle.civil_time.specs.InstantText.{instant_text};
ghost use Rattle.civil_time.specs.Scale.{IsInstant, scale_zero};

use crate::calendar::SCALE_ZERO;
use crate::instant::Instant;
use arrayvec::ArrayString;
use jiff_core::civil::DateTime;
use jiff_fmt::temporal::DateTimePrinter;

impl Instant {
    /// The text `YYYY-MM-DDThh:mm:ss`, a point, so many decimals of the second, and `Z`. Later decimals are
    /// left out.
    pub fn text(self, places: u8) -> ArrayString<33>
        requires some { 1 ≤ places }
        requires room { places ≤ 9 }
        ensures text { result.bytes ≡ instant_text places self }
        ensures len { length result.bytes ≡ 21 + places }
    {
        let printer = DateTimePrinter::new().precision(Some(places));
        let stamp = printer.datetime_text(date_time(self));
        let mut text = ArrayString::new();
        text.push_str(stamp.as_str());
        text.push_str("Z");
        text
    }
}

/// The date and the time of day of an instant.
fn date_time(instant: Instant) -> DateTime
    ensures value { civil_nanos result -ℤ pos scale_zero ≡ instant }
    ensures in_years { IsInstant instant }
{
    DateTime::from_nanosecond_in_range(i128::from(instant.nanos()) + i128::from(SCALE_ZERO))
}

//! A run of the command.
ghost use Rattle.day_command.specs.Day.{day_text, IsDayAt};
ghost use Rattle.pass_words.specs.Ranges.{IsPlace};
ghost use Rattle.run_ends.specs.Endings.{IsForMemory, WithProduct};
ghost use Rattle.run_ends.specs.Printed.{IsWritten};

use crate::day::DayResult;
use crate::print::print_day;
use crate::track::track_day;
use elements::{Decimal, Window};
use outside_io::Sink;
use run_ends::{Ending, Refusal, ended, refuse};
use std::alloc::{AllocError, Global};

/// Tracks the daylight of a place at a latitude and a longitude over a window, and writes it.
pub fn run_day<K: Sink>(
    alloc: Global,
    lat: Decimal,
    lon: Decimal,
    window: Window,
    out: &mut K,
) -> Ending<DayResult>
    requires { IsPlace lat lon }
    ensures product { WithProduct (IsDayAt lat lon window) result }
    ensures written { IsWritten K.Sink day_text result out.old out.new }
    ensures cause { IsForMemory result }
{
    match track_day(alloc, lat, lon, window) {
        Ok(day) => {
            let printed = print_day(&day, out);
            ended(day, printed)
        }
        Err(AllocError) => refuse(Refusal::OutOfMemory, out),
    }
}

//! Counts from 1 on.
ghost use Rattle.std.specs.Prelude.{◌≡◌, IfOk};
ghost use Rattle.pass_words.specs.Counts.{count_read};
ghost use Rattle.pass_words.specs.Ranges.{IsCount};

use crate::fault::UsageFault;
use crate::key::Opt;

/// A number that was read, if it is from 1 to the most.
pub(crate) fn count_read(key: Opt, most: u32, read: Option<u32>) -> Result<u32, UsageFault>
    ensures value { result ≡ count_read key most read }
    ensures range { IfOk result (IsCount most) }
{
    match read {
        Some(count) => {
            if count >= 1 && count <= most {
                Ok(count)
            } else {
                Err(UsageFault::Value { key })
            }
        }
        None => Err(UsageFault::Value { key }),
    }
}

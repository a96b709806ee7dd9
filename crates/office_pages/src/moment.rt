//! Times in UTC.
ghost use Rattle.std.specs.Prelude.{◌≡◌, ◌*◌, IfOk, MatchOption, option_map, string_bytes};
ghost use Rattle.office_pages.specs.Moments.{IsMoment, IsPast, IsTimeText};

use jiff::Timestamp;
use jiff::civil::DateTime;
use jiff::tz::Offset;
use run_beat::{ClockTime, Slots};
use std::alloc::{AllocError, Global};

/// The date and the time of day so many seconds after 1970 began; none past the year 9999.
pub(crate) fn moment_of(seconds: u64) -> Option<DateTime>
    ensures { MatchOption result (IsPast seconds) (λ moment. IsMoment seconds moment) }
{
    let Ok(seconds) = i64::try_from(seconds) else {
        return None;
    };
    match Timestamp::from_second(seconds) {
        Ok(time) => Some(Offset::UTC.to_datetime(time)),
        Err(_) => None,
    }
}

/// How many seconds after 1970 began a slot begins.
pub(crate) fn beginning(slot: u32, slots: Slots) -> u64
    ensures { result ≡ slot * slots }
{
    slots.seconds_until(slot, ClockTime::new(0))
}

/// The time so many seconds after 1970 began (RFC 3339), where it has a text.
pub(crate) fn time_text(alloc: Global, seconds: u64) -> Result<Option<String>, AllocError>
    ensures { IfOk result (λ text. IsTimeText seconds (option_map string_bytes text)) }
{
    match moment_of(seconds) {
        Some(moment) => Ok(Some(format!(in alloc; "{moment}Z")?)),
        None => Ok(None),
    }
}

//! Moments, and the times that a call is given.
ghost use Rattle.std.specs.Prelude.{◌≡◌};
ghost use Rattle.wasi_p2_types.specs.Stats.{wall_moment};
ghost use Rattle.wasi_p2_types.specs.Moments.{time_at, time_wanted};

use crate::{ErrorCode, WallDatetime};
use wasi_fs::Datetime;
use wasi_host::{NANOSECONDS, SystemTime};

/// A moment that its type doesn't hold: the crate's `DatetimeError`.
#[derive(Clone, Copy, Debug, PartialEq, Eq)]
pub struct DatetimeError {}

/// What becomes of a time: preview2's `new-timestamp`. It stays, or is set to what the context's clock stands at, or to
/// this moment.
#[derive(Clone, Copy, Debug, PartialEq, Eq)]
pub enum NewTimestamp {
    NoChange,
    Now,
    Timestamp(WallDatetime),
}

/// The same moment of the wall clock, which has none before the epoch: of these alone it is a `DatetimeError`.
pub fn wall_datetime_from(moment: Datetime) -> Result<WallDatetime, DatetimeError>
    ensures { result ≡ wall_moment moment }
{
    if moment.seconds < 0 {
        return Err(DatetimeError {});
    }
    Ok(WallDatetime {
        seconds: moment.seconds as u64,
        nanoseconds: moment.nanoseconds,
    })
}

/// A moment of the wall clock as a node's time: the crate's `systemtime_from`. Whole seconds are carried out of the
/// nanoseconds; a `DatetimeError` exactly where an i64 doesn't hold the seconds then, which is this project's own
/// bound.
pub fn systemtime_from(t: WallDatetime) -> Result<SystemTime, DatetimeError>
    ensures { result ≡ time_at t }
{
    let carried = (t.nanoseconds / NANOSECONDS) as u64;
    if t.seconds > i64::MAX as u64 - carried {
        return Err(DatetimeError {});
    }
    Ok(SystemTime {
        seconds: (t.seconds + carried) as i64,
        nanoseconds: t.nanoseconds % NANOSECONDS,
    })
}

/// The time that is wanted, where the clock stands at `now`; None where it stays: the crate's `systemtimespec_from`.
/// Refusal: Overflow of a moment that a node's time doesn't hold.
pub fn systemtimespec_from(
    t: NewTimestamp,
    now: SystemTime,
) -> Result<Option<SystemTime>, ErrorCode>
    ensures { result ≡ time_wanted now t }
{
    match t {
        NewTimestamp::NoChange => Ok(None),
        NewTimestamp::Now => Ok(Some(now)),
        NewTimestamp::Timestamp(st) => Ok(Some(systemtime_from(st)?)),
    }
}

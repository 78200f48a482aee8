//! Times that preview2 is given.
ghost use Rattle.std.specs.Prelude.{◌≡◌, pos, ◌≤ℤ◌, Ok};
ghost use Rattle.wasi_host.specs.declared.system_time.SystemTime.{SystemTime};
ghost use Rattle.wasi_p1_types.specs.SinceEpoch.{IsSinceEpoch};
ghost use Rattle.wasi_p2_types.specs.Moments.{time_at, time_wanted};

use wasi_guest::WallDatetime;
use wasi_host::SystemTime;
use wasi_p2_types::NewTimestamp;

/// A time that isn't before the epoch, as a moment of the wall clock.
fn wall_of(time: SystemTime) -> WallDatetime
    requires since { pos 0 ≤ℤ time.seconds }
    ensures { time_at result ≡ Ok time }
{
    WallDatetime {
        seconds: time.seconds as u64,
        nanoseconds: time.nanoseconds,
    }
}

/// A time as preview2 is given it, whatever its clock stands at.
pub fn timestamp_of(time: Option<SystemTime>) -> NewTimestamp
    requires since { IsSinceEpoch time }
    ensures wanted { (now : SystemTime) → time_wanted now result ≡ Ok time }
{
    match time {
        Some(time) => NewTimestamp::Timestamp(wall_of(time)),
        None => NewTimestamp::NoChange,
    }
}

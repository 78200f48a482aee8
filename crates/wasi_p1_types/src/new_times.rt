//! The times that a call which sets some is given.
ghost use Rattle.std.specs.Prelude.{◌≡◌, pos, ◌≤ℤ◌, false, Ok, IfOk, IfErr};
ghost use Rattle.wasi_host.specs.declared.system_time.SystemTime.{SystemTime};
ghost use Rattle.wasi_p1_types.specs.CallParts.{is_failure};
ghost use Rattle.wasi_p1_types.specs.NewTimes.{time_after, time_of, new_time, times_asked};
ghost use Rattle.wasi_p1_types.specs.SinceEpoch.{AreSinceEpoch, IsSinceEpoch};

use crate::error::P1Error;
use crate::raw_numbers::INVALID;
use bitflags::Flags;
use wasi_guest::{Errno, FstFlags, WallDatetime};
use wasi_host::{NANOSECONDS, SystemTime};
use wasi_p2_types::systemtime_from;

/// The times that are to be set: of the last read, and of the last change. One that isn't given stays.
#[derive(Clone, Copy, Debug, PartialEq, Eq)]
pub struct NewTimes {
    pub atime: Option<SystemTime>,
    pub mtime: Option<SystemTime>,
}

impl NewTimes {
    /// The times by preview1's `fstflags`: of each the given nanoseconds since the epoch, or what the wall clock stands
    /// at, or none. Refusals: Inval of an unknown flag; then of each time in turn Inval where it is both given and the
    /// wall clock's, Overflow where the wall clock is asked for and an i64 doesn't hold its seconds.
    #[tactic(auto, unfolding(crate::specs::NewTimes::times_asked))]
    pub fn of(wall: WallDatetime, atim: u64, mtim: u64, fst_flags: u32) -> Result<NewTimes, P1Error>
        ensures specified { result ≡ times_asked wall atim mtim fst_flags }
        ensures since { IfOk result AreSinceEpoch }
        ensures refusal { IfErr result (λ e. is_failure e ≡ false) }
    {
        let set = FstFlags::from_bits(fst_flags).ok_or(INVALID)?;
        let atime = new_time(
            wall,
            atim,
            set.contains(FstFlags::ATIM),
            set.contains(FstFlags::ATIM_NOW),
        )?;
        let mtime = new_time(
            wall,
            mtim,
            set.contains(FstFlags::MTIM),
            set.contains(FstFlags::MTIM_NOW),
        )?;
        Ok(NewTimes { atime, mtime })
    }
}

/// The moment so many nanoseconds after the epoch.
fn time_after(nanoseconds: u64) -> SystemTime
    ensures is { result ≡ time_after nanoseconds }
    ensures since { pos 0 ≤ℤ result.seconds }
{
    let second = NANOSECONDS as u64;
    SystemTime {
        seconds: (nanoseconds / second) as i64,
        nanoseconds: (nanoseconds % second) as u32,
    }
}

/// A moment of the wall clock as a node's time, with whole seconds carried out of the nanoseconds. Refusal: Overflow of
/// seconds that an i64 doesn't hold.
fn time_of(wall: WallDatetime) -> Result<SystemTime, P1Error>
    ensures specified { result ≡ time_of wall }
    ensures since { IfOk result (λ time. pos 0 ≤ℤ time.seconds) }
    ensures refusal { IfErr result (λ e. is_failure e ≡ false) }
{
    systemtime_from(wall)
        .ok()
        .ok_or(P1Error::Errno(Errno::Overflow))
}

/// A time that is given, or what the wall clock stands at, or none.
fn new_time(
    wall: WallDatetime,
    given: u64,
    set: bool,
    now: bool,
) -> Result<Option<SystemTime>, P1Error>
    ensures specified { result ≡ new_time wall given set now }
    ensures since { IfOk result IsSinceEpoch }
    ensures refusal { IfErr result (λ e. is_failure e ≡ false) }
{
    match (set, now) {
        (true, true) => Err(INVALID),
        (true, false) => Ok(Some(time_after(given))),
        (false, true) => Ok(Some(time_of(wall)?)),
        (false, false) => Ok(None),
    }
}

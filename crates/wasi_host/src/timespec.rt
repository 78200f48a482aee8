//! Times to be set.
ghost use Rattle.std.specs.Prelude.{◌≡◌};
ghost use Rattle.wasi_host.specs.Time.{timespec_of};

use crate::SystemTime;

/// A time to be set, in the form that POSIX's `utimensat` takes.
#[derive(Clone, Copy, Debug, PartialEq, Eq)]
pub enum Timespec {
    /// The time stays as it is.
    Omit,
    At { tv_sec: i64, tv_nsec: u32 },
}

/// A time to be set, by the crate's `to_timespec`: nothing is to be omitted.
pub fn to_timespec(time: Option<SystemTime>) -> Timespec
    ensures time { result ≡ timespec_of time }
{
    match time {
        None => Timespec::Omit,
        Some(time) => Timespec::At {
            tv_sec: time.seconds,
            tv_nsec: time.nanoseconds,
        },
    }
}

//! The values of `wasi_snapshot_preview1`: a guest's state as specifications see it, what a descriptor number refers
//! to, what a call may ask of the host and may be answered, error numbers, flags and times; and the small code on them
//! that touches no host. The specification of the calls, in `wasi_p1_model`, speaks of these.
#![tactic(auto)]

mod awaited;
mod error;
mod fdstats;
mod guest_env;
pub mod items;
mod looked;
mod memory_parts;
mod new_times;
pub mod open_with;
mod quotas;
mod raw_numbers;
mod slots;
mod usage;
pub mod wall_times;

pub use awaited::{Awaited, Judged, Waited};
pub use error::{CtxError, P1Error, RunError, errno_of};
pub use fdstats::{directory_fdstat, file_fdstat, preopen_fdstat, stream_fdstat};
pub use guest_env::{Clocks, GuestEnv, Output, Outputs, nanoseconds_of};
pub use looked::{Entry, StatBoth, filetype_of, stream_filestat};
pub use memory_parts::{buffer_at, bytes_at, charge, check_write, text_at, write_front};
pub use new_times::NewTimes;
pub use quotas::{Allowance, FileEnd};
pub use raw_numbers::{
    INVALID, advice_of, exit_with, fdflags_of, known_signal, rights_of, whence_of,
};
pub use slots::{DirectorySlot, FileModes, FileSlot, P1Preopen, Slot, Stream};
pub use usage::{FileUse, Put, ReadTarget, WriteTarget};

//! What a host of a tree of files is: its values, the table of what it refuses, and the laws of the trait `Host`.
#![tactic(auto)]

mod advice;
mod bits;
mod dir_entry;
mod errors;
mod file_type;
mod forget;
mod handle;
mod host;
mod injected_fault;
mod laws;
mod limits;
mod lookup;
mod lookup_log;
mod metadata;
mod open_handle;
mod open_options;
mod sync_flags;
mod system_time;
mod timespec;

pub use advice::Advice;
pub use bits::Bits;
pub use dir_entry::DirEntry;
pub use errors::{ErrorCode, HostError};
pub use file_type::FileType;
pub use forget::Forget;
pub use handle::Handle;
pub use host::Host;
pub use injected_fault::InjectedFault;
pub use laws::{below_is_reached, constants_are, epoch_is, steps_keep_trees_valid};
pub use limits::{FILE_MAX, LINK_MAX, Limits};
pub use lookup::{LookKind, Lookup};
pub use lookup_log::LookupLog;
pub use metadata::Metadata;
pub use open_handle::{AccessMode, OpenHandle};
pub use open_options::{
    FollowSymlinks, OFlags, OpenOptions, compute_oflags, dir_options, read_options, readdir_options,
};
pub use sync_flags::SyncFlags;
pub use system_time::{SystemTime, system_time_from_rustix};
pub use timespec::{Timespec, to_timespec};

/// The nanoseconds of a second.
pub const NANOSECONDS: u32 = 1_000_000_000;

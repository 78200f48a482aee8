//! Files and directories of a guest: what they may be used for, how they are opened, and their metadata.
#![tactic(auto)]

mod descriptor;
mod descriptor_stat;
mod dir;
mod dir_two_paths;
mod file;
mod metadata_hash;
mod open_flags;
mod open_how;
mod open_mode;
mod perms;
mod stat;
mod syncs;
mod times;

pub use bitflags::Flags;
pub use descriptor::{Descriptor, Dir, File};
pub use descriptor_stat::{Datetime, DescriptorStat, DescriptorType};
pub use metadata_hash::MetadataHashValue;
pub use open_flags::{DescriptorFlags, OpenFlags, PathFlags};
pub use open_mode::OpenMode;
pub use perms::{Act, FsPerms};

//! The records of preview2's files and the codes of its refusals, and how all these become the types of the crates below
//! and come from these: by equal names.
#![tactic(auto)]

mod advice;
mod descriptor_stat;
mod error;
mod error_code;
mod flags;
mod times;

pub use advice::Advice;
pub use descriptor_stat::{DescriptorStat, DescriptorType, DirectoryEntry, MetadataHashValue};
pub use error::{FsError, FsResult};
pub use error_code::ErrorCode;
pub use flags::{DescriptorFlags, OpenFlags, PathFlags};
pub use times::{
    DatetimeError, NewTimestamp, systemtime_from, systemtimespec_from, wall_datetime_from,
};
pub use wasi_guest::WallDatetime;

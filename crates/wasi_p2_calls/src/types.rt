//! The records of preview2's files, and how they become the types of the crates below and come from these: by equal
//! names.

pub use wasi_p2_types::{
    Advice, DatetimeError, DescriptorFlags, DescriptorStat, DescriptorType, DirectoryEntry,
    ErrorCode, MetadataHashValue, NewTimestamp, OpenFlags, PathFlags, WallDatetime,
    systemtime_from, systemtimespec_from, wall_datetime_from,
};

//! The metadata of a descriptor's node.
ghost use Rattle.std.specs.Prelude.{◌≡◌};
ghost use Rattle.wasi_fs.specs.DescriptorStat.{descriptor_type, datetime, descriptor_stat};

use wasi_host::{FileType, Metadata, SystemTime};

/// What kind of node it is, by the crate's `DescriptorType`.
#[derive(Clone, Copy, Debug, PartialEq, Eq)]
pub enum DescriptorType {
    Unknown,
    BlockDevice,
    CharacterDevice,
    Directory,
    SymbolicLink,
    RegularFile,
}

/// The type of the same name.
impl From<FileType> for DescriptorType {
    ghost from_gives = { λ kind type_. type_ ≡ descriptor_type kind };

    fn from(kind: FileType) -> Self {
        match kind {
            FileType::Directory => DescriptorType::Directory,
            FileType::RegularFile => DescriptorType::RegularFile,
            FileType::SymbolicLink => DescriptorType::SymbolicLink,
            FileType::CharacterDevice => DescriptorType::CharacterDevice,
            FileType::BlockDevice => DescriptorType::BlockDevice,
            FileType::Unknown => DescriptorType::Unknown,
        }
    }
}

/// A moment: so many seconds after the epoch, before it where negative, plus nanoseconds.
#[derive(Clone, Copy, Debug, PartialEq, Eq)]
pub struct Datetime {
    pub seconds: i64,
    pub nanoseconds: u32,
}

/// The same moment.
impl From<SystemTime> for Datetime {
    ghost from_gives = { λ time moment. moment ≡ datetime time };

    fn from(time: SystemTime) -> Self {
        Datetime {
            seconds: time.seconds,
            nanoseconds: time.nanoseconds,
        }
    }
}

/// The metadata of a node, by the crate's `DescriptorStat`. A time is `None` where the host doesn't keep it; that of
/// metadata is always there.
#[derive(Clone, Copy, Debug, PartialEq, Eq)]
pub struct DescriptorStat {
    pub type_: DescriptorType,
    /// How many names it has; 1 for a directory.
    pub link_count: u64,
    /// A file's bytes, a link's text's bytes, and 0 for a directory.
    pub size: u64,
    /// The time of its last reading, as it was set: neither reading nor writing changes it.
    pub data_access_timestamp: Option<Datetime>,
    /// The time of its last change, as it was set.
    pub data_modification_timestamp: Option<Datetime>,
    /// When it was made: the crate gives the time of creation in this field.
    pub status_change_timestamp: Option<Datetime>,
}

impl DescriptorStat {
    /// What a host says of a node, by the names of preview2.
    pub fn new(metadata: &Metadata) -> DescriptorStat
        ensures stat { result ≡ descriptor_stat metadata.now }
    {
        DescriptorStat {
            type_: DescriptorType::from(metadata.file_type()),
            link_count: metadata.nlink(),
            size: metadata.len(),
            data_access_timestamp: Some(Datetime::from(metadata.accessed())),
            data_modification_timestamp: Some(Datetime::from(metadata.modified())),
            status_change_timestamp: Some(Datetime::from(metadata.created())),
        }
    }
}

//! The metadata of a descriptor's node.
ghost use Rattle.std.specs.Prelude.{◌≡◌};
ghost use Rattle.wasi_p2_types.specs.Stats.{type_named, kind_named, stat_named, hash_named, moment_kept};

use crate::{WallDatetime, wall_datetime_from};

/// What kind of node it is: preview2's `descriptor-type`. No host of this workspace has a pipe or a socket.
#[derive(Clone, Copy, Debug, PartialEq, Eq)]
pub enum DescriptorType {
    Unknown,
    BlockDevice,
    CharacterDevice,
    Directory,
    Fifo,
    SymbolicLink,
    RegularFile,
    Socket,
}

/// The type of the same name.
impl From<wasi_fs::DescriptorType> for DescriptorType {
    ghost from_gives = { λ type_ named. named ≡ type_named type_ };

    fn from(type_: wasi_fs::DescriptorType) -> Self {
        match type_ {
            wasi_fs::DescriptorType::Unknown => DescriptorType::Unknown,
            wasi_fs::DescriptorType::BlockDevice => DescriptorType::BlockDevice,
            wasi_fs::DescriptorType::CharacterDevice => DescriptorType::CharacterDevice,
            wasi_fs::DescriptorType::Directory => DescriptorType::Directory,
            wasi_fs::DescriptorType::SymbolicLink => DescriptorType::SymbolicLink,
            wasi_fs::DescriptorType::RegularFile => DescriptorType::RegularFile,
        }
    }
}

/// The type of the same name, by that of the crates below.
impl From<wasi_host::FileType> for DescriptorType {
    ghost from_gives = { λ kind named. named ≡ kind_named kind };

    fn from(kind: wasi_host::FileType) -> Self {
        DescriptorType::from(wasi_fs::DescriptorType::from(kind))
    }
}

/// The metadata of a node: preview2's `descriptor-stat`. A time that isn't kept, or is before the epoch, is `None`.
#[derive(Clone, Copy, Debug, PartialEq, Eq)]
pub struct DescriptorStat {
    pub type_: DescriptorType,
    /// How many names it has; 1 for a directory.
    pub link_count: u64,
    /// In bytes: of a file, or of a link's text; 0 of a directory.
    pub size: u64,
    pub data_access_timestamp: Option<WallDatetime>,
    pub data_modification_timestamp: Option<WallDatetime>,
    /// When it was made: the crate gives the time of creation in this field.
    pub status_change_timestamp: Option<WallDatetime>,
}

/// The same, field by field; a time before the epoch becomes missing.
impl From<wasi_fs::DescriptorStat> for DescriptorStat {
    ghost from_gives = { λ stat named. named ≡ stat_named stat };

    fn from(stat: wasi_fs::DescriptorStat) -> Self {
        DescriptorStat {
            type_: DescriptorType::from(stat.type_),
            link_count: stat.link_count,
            size: stat.size,
            data_access_timestamp: moment_kept(stat.data_access_timestamp),
            data_modification_timestamp: moment_kept(stat.data_modification_timestamp),
            status_change_timestamp: moment_kept(stat.status_change_timestamp),
        }
    }
}

/// A moment as one of the wall clock; None where it is missing, or before the epoch.
fn moment_kept(moment: Option<wasi_fs::Datetime>) -> Option<WallDatetime>
    ensures { result ≡ moment_kept moment }
{
    match moment {
        Some(moment) => wall_datetime_from(moment).ok(),
        None => None,
    }
}

/// The hash by which nodes are told apart: preview2's `metadata-hash-value`.
#[derive(Clone, Copy, Debug, PartialEq, Eq)]
pub struct MetadataHashValue {
    pub lower: u64,
    pub upper: u64,
}

/// The same halves.
impl From<wasi_fs::MetadataHashValue> for MetadataHashValue {
    ghost from_gives = { λ hash named. named ≡ hash_named hash };

    fn from(hash: wasi_fs::MetadataHashValue) -> Self {
        MetadataHashValue {
            lower: hash.lower,
            upper: hash.upper,
        }
    }
}

/// A name in a directory, and what kind of node it holds, a link's own: preview2's `directory-entry`.
#[derive(Debug, Drop)]
pub struct DirectoryEntry {
    pub type_: DescriptorType,
    pub name: String,
}

//! The metadata of a node.
ghost use Rattle.std.specs.Prelude.{◌≡◌};
ghost use Rattle.wasi_p1_types.specs.Filestats.{filetype_of, stream_filestat};

use wasi_fs::{DescriptorStat, DescriptorType, MetadataHashValue};
use wasi_guest::{Filestat, Filetype};
use wasi_host::FileType;

/// What the crates below say of a node, by their two calls.
#[derive(Clone, Copy, Debug, PartialEq, Eq)]
pub struct StatBoth {
    pub stat: DescriptorStat,
    pub hash: MetadataHashValue,
}

/// A name in a directory, and the number and the kind of the node that it holds, a link's own.
#[derive(Debug, Drop)]
pub struct Entry {
    pub name: String,
    pub node: u64,
    pub kind: FileType,
}

/// Preview1's type of the same name, of each of preview2's that the crates below know.
pub fn filetype_of(kind: DescriptorType) -> Filetype
    ensures filetype { result ≡ filetype_of kind }
{
    match kind {
        DescriptorType::Unknown => Filetype::Unknown,
        DescriptorType::BlockDevice => Filetype::BlockDevice,
        DescriptorType::CharacterDevice => Filetype::CharacterDevice,
        DescriptorType::Directory => Filetype::Directory,
        DescriptorType::SymbolicLink => Filetype::SymbolicLink,
        DescriptorType::RegularFile => Filetype::RegularFile,
    }
}

/// What `fd_filestat_get` tells of a standard stream: an unknown type, and zeros.
pub fn stream_filestat() -> Filestat
    ensures { result ≡ stream_filestat }
{
    Filestat {
        dev: 0,
        ino: 0,
        filetype: Filetype::Unknown.number(),
        nlink: 0,
        size: 0,
        atim: 0,
        mtim: 0,
        ctim: 0,
    }
}

//! The record `filestat`: the metadata of a node.
ghost use Rattle.std.specs.Prelude.{◌≡◌, false, IfErr};
ghost use Rattle.wasi_p1_types.specs.CallParts.{WantsNoMemory, is_failure};
ghost use Rattle.wasi_p1_state.specs.ViewedStats.{filetype_named, viewed_filestat, wall_nanoseconds};

use wasi_fs::{DescriptorStat, DescriptorType, MetadataHashValue};
use wasi_guest::{Filestat, Filetype, WallDatetime};
use wasi_p1_types::{P1Error, nanoseconds_of};
use wasi_p2_calls::types;

/// What preview2 says of a node, by its two calls.
#[derive(Clone, Copy, Debug, PartialEq, Eq)]
pub struct ViewedStat {
    pub stat: types::DescriptorStat,
    pub hash: types::MetadataHashValue,
}

/// The type of the same name as one of preview2. Preview1 has no pipe, and no socket that tells its kind.
pub fn filetype_named(kind: types::DescriptorType) -> Filetype
    ensures filetype { result ≡ filetype_named kind }
{
    match kind {
        types::DescriptorType::Unknown => Filetype::Unknown,
        types::DescriptorType::BlockDevice => Filetype::BlockDevice,
        types::DescriptorType::CharacterDevice => Filetype::CharacterDevice,
        types::DescriptorType::Directory => Filetype::Directory,
        types::DescriptorType::Fifo => Filetype::Unknown,
        types::DescriptorType::SymbolicLink => Filetype::SymbolicLink,
        types::DescriptorType::RegularFile => Filetype::RegularFile,
        types::DescriptorType::Socket => Filetype::Unknown,
    }
}

/// A moment in nanoseconds since the epoch, 0 where it isn't kept, and Overflow past what 64 bits hold.
fn wall_nanoseconds(moment: Option<WallDatetime>) -> Result<u64, P1Error>
    ensures specified { result ≡ wall_nanoseconds moment }
    ensures refusal { IfErr result (λ e. is_failure e ≡ false) }
    ensures never_wants { IfErr result WantsNoMemory }
{
    match moment {
        Some(moment) => nanoseconds_of(moment),
        None => Ok(0),
    }
}

impl ViewedStat {
    /// The record. A time before the epoch stands as 0. Refusal: Overflow of one that 64 bits of nanoseconds don't
    /// hold.
    #[tactic(auto, unfolding(crate::specs::ViewedStats::viewed_filestat))]
    pub fn filestat(&self) -> Result<Filestat, P1Error>
        ensures specified { result ≡ viewed_filestat self.now }
        ensures refusal { IfErr result (λ e. is_failure e ≡ false) }
        ensures never_wants { IfErr result WantsNoMemory }
    {
        let atim = wall_nanoseconds(self.stat.data_access_timestamp)?;
        let mtim = wall_nanoseconds(self.stat.data_modification_timestamp)?;
        let ctim = wall_nanoseconds(self.stat.status_change_timestamp)?;
        Ok(Filestat {
            dev: 1,
            ino: self.hash.lower,
            filetype: filetype_named(self.stat.type_).number(),
            nlink: self.stat.link_count,
            size: self.stat.size,
            atim,
            mtim,
            ctim,
        })
    }
}

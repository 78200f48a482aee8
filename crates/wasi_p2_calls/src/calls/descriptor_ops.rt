//! The calls of a view about what a descriptor refers to.
ghost use Rattle.std.specs.Prelude.{◌≡◌};
ghost use Rattle.wasi_p2_calls.specs.Nodes.{Advises, SetsSize, TellsFlags, TellsType, TellsStat, TellsHash, SyncsIt, SetsTimes, ComparesBoth};
ghost use Rattle.wasi_p2_calls.specs.Views.{FilesOwned, files_of};

use crate::lookup::{descriptor_at, file_at, raised};
use crate::types::{
    Advice, DescriptorFlags, DescriptorStat, DescriptorType, MetadataHashValue, NewTimestamp,
    systemtimespec_from,
};
use crate::{FsResult, WasiFilesystemCtxView};
use wasi_host::Host;
use wasi_streams::Resource;

/// Each call is the one of the same name of `wasi_fs::Descriptor`, or of `wasi_fs::File`. Refusals: a trap where the
/// resource is missing or no descriptor, and BadDescriptor where a file is asked for and it is a directory; then those
/// of that call.
impl<'a, H: Host> WasiFilesystemCtxView<'a, H> {
    /// Tells the host how `len` bytes of a file from `offset` on will be used.
    #[tactic(auto, using(crate::proofs::Owning::has_lives))]
    pub fn advise(&mut self, fd: Resource, offset: u64, len: u64, advice: Advice) -> FsResult<()>
        requires owned { FilesOwned H.Host (files_of self.old.ctx.now self.old.table.now) }
        ensures same_ctx { self.new.ctx.ghost_name ≡ self.old.ctx.ghost_name }
        ensures same_table { self.new.table.ghost_name ≡ self.old.table.ghost_name }
        ensures call { Advises H.Host (files_of self.old.ctx.now self.old.table.now)
            (files_of self.new.ctx.now self.new.table.now) fd.number offset len advice result }
    {
        let file = file_at(self.table, fd)?;
        let advice = wasi_host::Advice::from(advice);
        raised(file.advise(&mut self.ctx.host, offset, len, advice))
    }

    /// Cuts a file to `size` bytes, or fills it up to them with zeros.
    #[tactic(auto, using(crate::proofs::Owning::has_lives))]
    pub fn set_size(&mut self, fd: Resource, size: u64) -> FsResult<()>
        requires owned { FilesOwned H.Host (files_of self.old.ctx.now self.old.table.now) }
        ensures same_ctx { self.new.ctx.ghost_name ≡ self.old.ctx.ghost_name }
        ensures same_table { self.new.table.ghost_name ≡ self.old.table.ghost_name }
        ensures call { SetsSize H.Host (files_of self.old.ctx.now self.old.table.now)
            (files_of self.new.ctx.now self.new.table.now) fd.number size result }
    {
        let file = file_at(self.table, fd)?;
        raised(file.set_size(&mut self.ctx.host, size))
    }

    /// Waits until what is in the node is stored.
    #[tactic(auto, using(crate::proofs::Owning::has_lives, crate::proofs::Owning::looks_anew))]
    pub fn sync_data(&mut self, fd: Resource) -> FsResult<()>
        requires owned { FilesOwned H.Host (files_of self.old.ctx.now self.old.table.now) }
        ensures same_ctx { self.new.ctx.ghost_name ≡ self.old.ctx.ghost_name }
        ensures same_table { self.new.table.ghost_name ≡ self.old.table.ghost_name }
        ensures call { SyncsIt H.Host (files_of self.old.ctx.now self.old.table.now)
            (files_of self.new.ctx.now self.new.table.now) fd.number result }
    {
        let descriptor = descriptor_at(self.table, fd)?;
        raised(descriptor.sync_data(self.ctx.alloc, &mut self.ctx.host))
    }

    /// Waits until the node is stored, with its metadata.
    #[tactic(auto, using(crate::proofs::Owning::has_lives, crate::proofs::Owning::looks_anew))]
    pub fn sync(&mut self, fd: Resource) -> FsResult<()>
        requires owned { FilesOwned H.Host (files_of self.old.ctx.now self.old.table.now) }
        ensures same_ctx { self.new.ctx.ghost_name ≡ self.old.ctx.ghost_name }
        ensures same_table { self.new.table.ghost_name ≡ self.old.table.ghost_name }
        ensures call { SyncsIt H.Host (files_of self.old.ctx.now self.old.table.now)
            (files_of self.new.ctx.now self.new.table.now) fd.number result }
    {
        let descriptor = descriptor_at(self.table, fd)?;
        raised(descriptor.sync(self.ctx.alloc, &mut self.ctx.host))
    }

    /// What the descriptor is for.
    #[tactic(auto, using(crate::proofs::Owning::has_lives))]
    pub fn get_flags(&mut self, fd: Resource) -> FsResult<DescriptorFlags>
        requires owned { FilesOwned H.Host (files_of self.old.ctx.now self.old.table.now) }
        ensures same_ctx { self.new.ctx.ghost_name ≡ self.old.ctx.ghost_name }
        ensures same_table { self.new.table.ghost_name ≡ self.old.table.ghost_name }
        ensures call { TellsFlags H.Host (files_of self.old.ctx.now self.old.table.now)
            (files_of self.new.ctx.now self.new.table.now) fd.number result }
    {
        let descriptor = descriptor_at(self.table, fd)?;
        let flags = descriptor.get_flags(&mut self.ctx.host)?;
        Ok(DescriptorFlags::from(flags))
    }

    /// What kind of node it is.
    #[tactic(auto, using(crate::proofs::Owning::has_lives))]
    pub fn get_type(&mut self, fd: Resource) -> FsResult<DescriptorType>
        requires owned { FilesOwned H.Host (files_of self.old.ctx.now self.old.table.now) }
        ensures same_ctx { self.new.ctx.ghost_name ≡ self.old.ctx.ghost_name }
        ensures same_table { self.new.table.ghost_name ≡ self.old.table.ghost_name }
        ensures call { TellsType H.Host (files_of self.old.ctx.now self.old.table.now)
            (files_of self.new.ctx.now self.new.table.now) fd.number result }
    {
        let descriptor = descriptor_at(self.table, fd)?;
        let type_ = descriptor.get_type(&mut self.ctx.host)?;
        Ok(DescriptorType::from(type_))
    }

    /// The metadata of the node.
    #[tactic(auto, using(crate::proofs::Owning::has_lives))]
    pub fn stat(&mut self, fd: Resource) -> FsResult<DescriptorStat>
        requires owned { FilesOwned H.Host (files_of self.old.ctx.now self.old.table.now) }
        ensures same_ctx { self.new.ctx.ghost_name ≡ self.old.ctx.ghost_name }
        ensures same_table { self.new.table.ghost_name ≡ self.old.table.ghost_name }
        ensures call { TellsStat H.Host (files_of self.old.ctx.now self.old.table.now)
            (files_of self.new.ctx.now self.new.table.now) fd.number result }
    {
        let descriptor = descriptor_at(self.table, fd)?;
        let stat = descriptor.stat(&mut self.ctx.host)?;
        Ok(DescriptorStat::from(stat))
    }

    /// The hash of the node.
    #[tactic(auto, using(crate::proofs::Owning::has_lives))]
    pub fn metadata_hash(&mut self, fd: Resource) -> FsResult<MetadataHashValue>
        requires owned { FilesOwned H.Host (files_of self.old.ctx.now self.old.table.now) }
        ensures same_ctx { self.new.ctx.ghost_name ≡ self.old.ctx.ghost_name }
        ensures same_table { self.new.table.ghost_name ≡ self.old.table.ghost_name }
        ensures call { TellsHash H.Host (files_of self.old.ctx.now self.old.table.now)
            (files_of self.new.ctx.now self.new.table.now) fd.number result }
    {
        let descriptor = descriptor_at(self.table, fd)?;
        let hash = descriptor.metadata_hash(&mut self.ctx.host)?;
        Ok(MetadataHashValue::from(hash))
    }

    /// Sets the times of the node; `Now` is what the context's clock stands at. Overflow, of a moment that a node's
    /// time doesn't hold, stands after the resource's refusals, that of the last read first, and before NotPermitted.
    #[tactic(auto, using(crate::proofs::Owning::has_lives))]
    pub fn set_times(
        &mut self,
        fd: Resource,
        atim: NewTimestamp,
        mtim: NewTimestamp,
    ) -> FsResult<()>
        requires owned { FilesOwned H.Host (files_of self.old.ctx.now self.old.table.now) }
        ensures same_ctx { self.new.ctx.ghost_name ≡ self.old.ctx.ghost_name }
        ensures same_table { self.new.table.ghost_name ≡ self.old.table.ghost_name }
        ensures call { SetsTimes H.Host (files_of self.old.ctx.now self.old.table.now)
            (files_of self.new.ctx.now self.new.table.now) fd.number atim mtim result }
    {
        let descriptor = descriptor_at(self.table, fd)?;
        let atim = systemtimespec_from(atim, self.ctx.now)?;
        let mtim = systemtimespec_from(mtim, self.ctx.now)?;
        raised(descriptor.set_times(&mut self.ctx.host, atim, mtim))
    }

    /// Whether two descriptors refer to one node. The first one's refusals go first.
    #[tactic(auto, using(crate::proofs::Owning::has_lives))]
    pub fn is_same_object(&mut self, a: Resource, b: Resource) -> FsResult<bool>
        requires owned { FilesOwned H.Host (files_of self.old.ctx.now self.old.table.now) }
        ensures same_ctx { self.new.ctx.ghost_name ≡ self.old.ctx.ghost_name }
        ensures same_table { self.new.table.ghost_name ≡ self.old.table.ghost_name }
        ensures call { ComparesBoth H.Host (files_of self.old.ctx.now self.old.table.now)
            (files_of self.new.ctx.now self.new.table.now) a.number b.number result }
    {
        let here = descriptor_at(self.table, a)?;
        let there = descriptor_at(self.table, b)?;
        raised(here.is_same_object(&mut self.ctx.host, &there))
    }
}

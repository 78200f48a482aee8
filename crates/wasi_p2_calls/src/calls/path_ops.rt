//! The calls of a view at a path below a directory.
ghost use Rattle.std.specs.Prelude.{◌≡◌};
ghost use Rattle.wasi_p2_calls.specs.PathOps.{CreatesDirectory, RemovesDirectory, UnlinksFile, MakesLink, TellsLink, StatsAt, HashesAt, SetsTimesAt};
ghost use Rattle.wasi_p2_calls.specs.Views.{FilesOwned, files_of};

use crate::lookup::{directory_at, raised};
use crate::types::{
    DescriptorStat, MetadataHashValue, NewTimestamp, PathFlags, systemtimespec_from,
};
use crate::{FsResult, WasiFilesystemCtxView};
use wasi_host::Host;
use wasi_streams::Resource;

/// Each call begins from the directory of a resource, and is the one of the same name of `wasi_fs::Dir`. Refusals: a
/// trap where the resource is missing or no descriptor, NotDirectory of a file; then those of that call.
impl<'a, H: Host> WasiFilesystemCtxView<'a, H> {
    /// Makes an empty directory.
    #[tactic(auto, using(crate::proofs::Owning::has_lives, crate::proofs::Owning::traced_from, crate::proofs::Asking::asked))]
    pub fn create_directory_at(&mut self, fd: Resource, path: &str) -> FsResult<()>
        requires owned { FilesOwned H.Host (files_of self.old.ctx.now self.old.table.now) }
        ensures same_ctx { self.new.ctx.ghost_name ≡ self.old.ctx.ghost_name }
        ensures same_table { self.new.table.ghost_name ≡ self.old.table.ghost_name }
        ensures call { CreatesDirectory H.Host (files_of self.old.ctx.now self.old.table.now)
            (files_of self.new.ctx.now self.new.table.now) fd.number path.now result }
    {
        let dir = directory_at(self.table, fd)?;
        raised(dir.create_directory_at(self.ctx.alloc, &mut self.ctx.host, path))
    }

    /// Drops an empty directory.
    #[tactic(auto, using(crate::proofs::Owning::has_lives, crate::proofs::Owning::traced_from, crate::proofs::Asking::asked))]
    pub fn remove_directory_at(&mut self, fd: Resource, path: &str) -> FsResult<()>
        requires owned { FilesOwned H.Host (files_of self.old.ctx.now self.old.table.now) }
        ensures same_ctx { self.new.ctx.ghost_name ≡ self.old.ctx.ghost_name }
        ensures same_table { self.new.table.ghost_name ≡ self.old.table.ghost_name }
        ensures call { RemovesDirectory H.Host (files_of self.old.ctx.now self.old.table.now)
            (files_of self.new.ctx.now self.new.table.now) fd.number path.now result }
    {
        let dir = directory_at(self.table, fd)?;
        raised(dir.remove_directory_at(self.ctx.alloc, &mut self.ctx.host, path))
    }

    /// Drops the name of a file or link.
    #[tactic(auto, using(crate::proofs::Owning::has_lives, crate::proofs::Owning::traced_from, crate::proofs::Asking::asked))]
    pub fn unlink_file_at(&mut self, fd: Resource, path: &str) -> FsResult<()>
        requires owned { FilesOwned H.Host (files_of self.old.ctx.now self.old.table.now) }
        ensures same_ctx { self.new.ctx.ghost_name ≡ self.old.ctx.ghost_name }
        ensures same_table { self.new.table.ghost_name ≡ self.old.table.ghost_name }
        ensures call { UnlinksFile H.Host (files_of self.old.ctx.now self.old.table.now)
            (files_of self.new.ctx.now self.new.table.now) fd.number path.now result }
    {
        let dir = directory_at(self.table, fd)?;
        raised(dir.unlink_file_at(self.ctx.alloc, &mut self.ctx.host, path))
    }

    /// Makes a link of the text `src_path` under `dest_path`.
    #[tactic(auto, using(crate::proofs::Owning::has_lives, crate::proofs::Owning::traced_from, crate::proofs::Asking::asked))]
    pub fn symlink_at(&mut self, fd: Resource, src_path: &str, dest_path: &str) -> FsResult<()>
        requires owned { FilesOwned H.Host (files_of self.old.ctx.now self.old.table.now) }
        ensures same_ctx { self.new.ctx.ghost_name ≡ self.old.ctx.ghost_name }
        ensures same_table { self.new.table.ghost_name ≡ self.old.table.ghost_name }
        ensures call { MakesLink H.Host (files_of self.old.ctx.now self.old.table.now)
            (files_of self.new.ctx.now self.new.table.now) fd.number dest_path.now src_path.now result }
    {
        let dir = directory_at(self.table, fd)?;
        raised(dir.symlink_at(self.ctx.alloc, &mut self.ctx.host, src_path, dest_path))
    }

    /// The text of a link.
    #[tactic(auto, using(crate::proofs::Owning::has_lives, crate::proofs::Owning::traced_from, crate::proofs::Asking::asked))]
    pub fn readlink_at(&mut self, fd: Resource, path: &str) -> FsResult<String>
        requires owned { FilesOwned H.Host (files_of self.old.ctx.now self.old.table.now) }
        ensures same_ctx { self.new.ctx.ghost_name ≡ self.old.ctx.ghost_name }
        ensures same_table { self.new.table.ghost_name ≡ self.old.table.ghost_name }
        ensures call { TellsLink H.Host (files_of self.old.ctx.now self.old.table.now)
            (files_of self.new.ctx.now self.new.table.now) fd.number path.now result }
    {
        let dir = directory_at(self.table, fd)?;
        raised(dir.readlink_at(self.ctx.alloc, &mut self.ctx.host, path))
    }

    /// The metadata of the node that a path names.
    #[tactic(auto, using(crate::proofs::Owning::has_lives))]
    pub fn stat_at(
        &mut self,
        fd: Resource,
        path_flags: PathFlags,
        path: &str,
    ) -> FsResult<DescriptorStat>
        requires owned { FilesOwned H.Host (files_of self.old.ctx.now self.old.table.now) }
        ensures same_ctx { self.new.ctx.ghost_name ≡ self.old.ctx.ghost_name }
        ensures same_table { self.new.table.ghost_name ≡ self.old.table.ghost_name }
        ensures call { StatsAt H.Host (files_of self.old.ctx.now self.old.table.now)
            (files_of self.new.ctx.now self.new.table.now) fd.number path_flags path.now result }
    {
        let dir = directory_at(self.table, fd)?;
        let flags = wasi_fs::PathFlags::from(path_flags);
        let stat = dir.stat_at(self.ctx.alloc, &mut self.ctx.host, flags, path)?;
        Ok(DescriptorStat::from(stat))
    }

    /// The hash of the node that a path names.
    #[tactic(auto, using(crate::proofs::Owning::has_lives))]
    pub fn metadata_hash_at(
        &mut self,
        fd: Resource,
        path_flags: PathFlags,
        path: &str,
    ) -> FsResult<MetadataHashValue>
        requires owned { FilesOwned H.Host (files_of self.old.ctx.now self.old.table.now) }
        ensures same_ctx { self.new.ctx.ghost_name ≡ self.old.ctx.ghost_name }
        ensures same_table { self.new.table.ghost_name ≡ self.old.table.ghost_name }
        ensures call { HashesAt H.Host (files_of self.old.ctx.now self.old.table.now)
            (files_of self.new.ctx.now self.new.table.now) fd.number path_flags path.now result }
    {
        let dir = directory_at(self.table, fd)?;
        let flags = wasi_fs::PathFlags::from(path_flags);
        let hash = dir.metadata_hash_at(self.ctx.alloc, &mut self.ctx.host, flags, path)?;
        Ok(MetadataHashValue::from(hash))
    }

    /// Sets the times of the node that a path names; `Now` is what the context's clock stands at. Overflow, of a moment
    /// that a node's time doesn't hold, stands after the resource's refusals, that of the last read first, and before
    /// NotPermitted.
    #[tactic(auto, using(crate::proofs::Owning::has_lives, crate::proofs::Owning::traced_from, crate::proofs::Asking::asked, crate::proofs::Asking::timed_are))]
    pub fn set_times_at(
        &mut self,
        fd: Resource,
        path_flags: PathFlags,
        path: &str,
        atim: NewTimestamp,
        mtim: NewTimestamp,
    ) -> FsResult<()>
        requires owned { FilesOwned H.Host (files_of self.old.ctx.now self.old.table.now) }
        ensures same_ctx { self.new.ctx.ghost_name ≡ self.old.ctx.ghost_name }
        ensures same_table { self.new.table.ghost_name ≡ self.old.table.ghost_name }
        ensures call { SetsTimesAt H.Host (files_of self.old.ctx.now self.old.table.now)
            (files_of self.new.ctx.now self.new.table.now) fd.number path_flags path.now atim mtim result }
    {
        let dir = directory_at(self.table, fd)?;
        let atim = systemtimespec_from(atim, self.ctx.now)?;
        let mtim = systemtimespec_from(mtim, self.ctx.now)?;
        let flags = wasi_fs::PathFlags::from(path_flags);
        raised(dir.set_times_at(self.ctx.alloc, &mut self.ctx.host, flags, path, atim, mtim))
    }
}

//! The calls of a view that name a place below another directory too.
ghost use Rattle.std.specs.Prelude.{◌≡◌};
ghost use Rattle.wasi_p2_calls.specs.PathOps.{LinksAt, RenamesAt};
ghost use Rattle.wasi_p2_calls.specs.Views.{FilesOwned, files_of};

use crate::lookup::{directory_at, raised};
use crate::types::PathFlags;
use crate::{FsResult, WasiFilesystemCtxView};
use wasi_host::Host;
use wasi_streams::Resource;

/// Each call begins from the directories of two resources, which may be one, and is the one of the same name of
/// `wasi_fs::Dir`. Refusals: those of the first resource, then those of the second, each a trap where it is missing or
/// no descriptor, and NotDirectory of a file; then those of that call.
impl<'a, H: Host> WasiFilesystemCtxView<'a, H> {
    /// Gives the file or link under `old_path` a further name.
    #[tactic(auto, using(crate::proofs::Owning::has_lives, crate::proofs::Owning::traced_both, crate::proofs::Asking::asked, crate::proofs::Asking::both_are))]
    pub fn link_at(
        &mut self,
        fd: Resource,
        old_path_flags: PathFlags,
        old_path: &str,
        new_fd: Resource,
        new_path: &str,
    ) -> FsResult<()>
        requires owned { FilesOwned H.Host (files_of self.old.ctx.now self.old.table.now) }
        ensures same_ctx { self.new.ctx.ghost_name ≡ self.old.ctx.ghost_name }
        ensures same_table { self.new.table.ghost_name ≡ self.old.table.ghost_name }
        ensures call { LinksAt H.Host (files_of self.old.ctx.now self.old.table.now)
            (files_of self.new.ctx.now self.new.table.now) fd.number old_path_flags old_path.now new_fd.number new_path.now result }
    {
        let dir = directory_at(self.table, fd)?;
        let new_dir = directory_at(self.table, new_fd)?;
        let flags = wasi_fs::PathFlags::from(old_path_flags);
        let alloc = self.ctx.alloc;
        raised(dir.link_at(
            alloc,
            &mut self.ctx.host,
            flags,
            old_path,
            &new_dir,
            new_path,
        ))
    }

    /// Moves what is under `old_path`.
    #[tactic(auto, using(crate::proofs::Owning::has_lives, crate::proofs::Owning::traced_both, crate::proofs::Asking::asked, crate::proofs::Asking::both_are))]
    pub fn rename_at(
        &mut self,
        fd: Resource,
        old_path: &str,
        new_fd: Resource,
        new_path: &str,
    ) -> FsResult<()>
        requires owned { FilesOwned H.Host (files_of self.old.ctx.now self.old.table.now) }
        ensures same_ctx { self.new.ctx.ghost_name ≡ self.old.ctx.ghost_name }
        ensures same_table { self.new.table.ghost_name ≡ self.old.table.ghost_name }
        ensures call { RenamesAt H.Host (files_of self.old.ctx.now self.old.table.now)
            (files_of self.new.ctx.now self.new.table.now) fd.number old_path.now new_fd.number new_path.now result }
    {
        let dir = directory_at(self.table, fd)?;
        let new_dir = directory_at(self.table, new_fd)?;
        let alloc = self.ctx.alloc;
        raised(dir.rename_at(alloc, &mut self.ctx.host, old_path, &new_dir, new_path))
    }
}

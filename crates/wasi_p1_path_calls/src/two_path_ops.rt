//! The calls of views at a path below one directory and a path below another.
ghost use Rattle.wasi_fs.specs.Calls.{may_add_name, may_rename};
ghost use Rattle.wasi_fs.specs.OpenHow.{is_followed};
ghost use Rattle.wasi_p2_types.specs.FlagNames.{path_flags_named};
ghost use Rattle.wasi_p2_calls.specs.Views.{Performs};
ghost use Rattle.wasi_resolve.specs.TwoPathOps.{HardLink, Rename};
ghost use Rattle.wasi_resolve.specs.PathRequest.{AtTwo, meant_by};

use wasi_host::Host;
use wasi_p1_state::views::two_paths::BetweenCall;
use wasi_p2_calls::types::PathFlags;
use wasi_p2_calls::{FsResult, WasiFilesystemCtxView};
use wasi_streams::Resource;

/// Gives the file or link under `old_path` a further name.
#[derive(Clone, Copy)]
pub struct LinkAt<'p> {
    pub old_path_flags: PathFlags,
    pub old_path: &'p str,
    pub new_path: &'p str,
}

impl<'p, H: Host> BetweenCall<H> for LinkAt<'p> {
    ghost Did = { λ call old new dir new_dir. Performs H.Host old new
        (may_add_name dir.perms new_dir.perms (is_followed (path_flags_named call.old_path_flags)))
        (meant_by (H.model old).tree (AtTwo ((H.model old).held dir.dir).node call.old_path.now
        ((H.model old).held new_dir.dir).node call.new_path.now HardLink)) (λ unit. unit) };

    fn made(
        self,
        view: &mut WasiFilesystemCtxView<'_, H>,
        fd: Resource,
        new_fd: Resource,
    ) -> FsResult<()> {
        view.link_at(
            fd,
            self.old_path_flags,
            self.old_path,
            new_fd,
            self.new_path,
        )
    }
}

/// Moves what is under `old_path`.
#[derive(Clone, Copy)]
pub struct RenameAt<'p> {
    pub old_path: &'p str,
    pub new_path: &'p str,
}

impl<'p, H: Host> BetweenCall<H> for RenameAt<'p> {
    ghost Did = { λ call old new dir new_dir. Performs H.Host old new (may_rename dir.perms new_dir.perms)
        (meant_by (H.model old).tree (AtTwo ((H.model old).held dir.dir).node call.old_path.now
        ((H.model old).held new_dir.dir).node call.new_path.now Rename)) (λ unit. unit) };

    fn made(
        self,
        view: &mut WasiFilesystemCtxView<'_, H>,
        fd: Resource,
        new_fd: Resource,
    ) -> FsResult<()> {
        view.rename_at(fd, self.old_path, new_fd, self.new_path)
    }
}

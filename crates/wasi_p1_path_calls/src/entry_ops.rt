//! The calls of views at a path below a directory.
ghost use Rattle.std.specs.Prelude.{None, IfOk};
ghost use Rattle.std.specs.String.{string_bytes};
ghost use Rattle.wasi_fs.specs.Calls.{looks, may_do, may_link, meant_as, sets_times};
ghost use Rattle.wasi_fs.specs.DescriptorStat.{descriptor_stat, IsStat};
ghost use Rattle.wasi_fs.specs.MetadataHash.{metadata_hash, IsHash};
ghost use Rattle.wasi_fs.specs.declared.perms.Act.TheVariants.{Make, Alter};
ghost use Rattle.wasi_p1_types.specs.SinceEpoch.{AreSinceEpoch};
ghost use Rattle.wasi_p2_types.specs.FlagNames.{path_flags_named};
ghost use Rattle.wasi_p2_calls.specs.PathOps.{IsReadText};
ghost use Rattle.wasi_p2_types.specs.Stats.{hash_named, stat_named};
ghost use Rattle.wasi_p2_calls.specs.Views.{Performs};
ghost use Rattle.wasi_resolve.specs.EntryOps.{CreateDir, ReadLink, RemoveDir, RemoveFile, Symlink};
ghost use Rattle.wasi_resolve.specs.PathRequest.{AtEntry, meant_by};

use wasi_host::Host;
use wasi_p1_state::views::EntryOp;
use wasi_p1_types::NewTimes;
use wasi_p1_types::wall_times::timestamp_of;
use wasi_p2_calls::types::{DescriptorStat, MetadataHashValue, PathFlags};
use wasi_p2_calls::{FsResult, WasiFilesystemCtxView};
use wasi_streams::Resource;

/// Makes an empty directory.
#[derive(Clone, Copy)]
pub struct CreateDirectoryAt<'p> {
    pub path: &'p str,
}

impl<'p, H: Host> EntryOp<H> for CreateDirectoryAt<'p> {
    type Gives = ();

    type Lower = ();

    ghost shown = { λ unit. unit };

    ghost Did = { λ call old new dir. Performs H.Host old new (may_do dir.perms Make)
        (meant_by (H.model old).tree (AtEntry ((H.model old).held dir.dir).node call.path.now CreateDir))
        (λ unit. unit) };

    fn made(self, view: &mut WasiFilesystemCtxView<'_, H>, fd: Resource) -> FsResult<()> {
        view.create_directory_at(fd, self.path)
    }
}

/// Drops an empty directory.
#[derive(Clone, Copy)]
pub struct RemoveDirectoryAt<'p> {
    pub path: &'p str,
}

impl<'p, H: Host> EntryOp<H> for RemoveDirectoryAt<'p> {
    type Gives = ();

    type Lower = ();

    ghost shown = { λ unit. unit };

    ghost Did = { λ call old new dir. Performs H.Host old new (may_do dir.perms Alter)
        (meant_by (H.model old).tree (AtEntry ((H.model old).held dir.dir).node call.path.now RemoveDir))
        (λ unit. unit) };

    fn made(self, view: &mut WasiFilesystemCtxView<'_, H>, fd: Resource) -> FsResult<()> {
        view.remove_directory_at(fd, self.path)
    }
}

/// Drops the name of a file or link.
#[derive(Clone, Copy)]
pub struct UnlinkFileAt<'p> {
    pub path: &'p str,
}

impl<'p, H: Host> EntryOp<H> for UnlinkFileAt<'p> {
    type Gives = ();

    type Lower = ();

    ghost shown = { λ unit. unit };

    ghost Did = { λ call old new dir. Performs H.Host old new (may_do dir.perms Alter)
        (meant_by (H.model old).tree (AtEntry ((H.model old).held dir.dir).node call.path.now RemoveFile))
        (λ unit. unit) };

    fn made(self, view: &mut WasiFilesystemCtxView<'_, H>, fd: Resource) -> FsResult<()> {
        view.unlink_file_at(fd, self.path)
    }
}

/// Makes a link with the text `target`.
#[derive(Clone, Copy)]
pub struct SymlinkAt<'p> {
    pub target: &'p str,
    pub path: &'p str,
}

impl<'p, H: Host> EntryOp<H> for SymlinkAt<'p> {
    type Gives = ();

    type Lower = ();

    ghost shown = { λ unit. unit };

    ghost Did = { λ call old new dir. Performs H.Host old new (may_link dir.perms call.target.now)
        (meant_by (H.model old).tree
        (AtEntry ((H.model old).held dir.dir).node call.path.now (Symlink call.target.now))) (λ unit. unit) };

    fn made(self, view: &mut WasiFilesystemCtxView<'_, H>, fd: Resource) -> FsResult<()> {
        view.symlink_at(fd, self.target, self.path)
    }
}

/// The text of the link that a path names.
#[derive(Clone, Copy)]
pub struct ReadlinkAt<'p> {
    pub path: &'p str,
}

impl<'p, H: Host> EntryOp<H> for ReadlinkAt<'p> {
    type Gives = String;

    type Lower = String;

    ghost shown = { λ text. text };

    ghost Did = { λ call old new dir answer. IfOk answer IsReadText × Performs H.Host old new None
        (meant_by (H.model old).tree (AtEntry ((H.model old).held dir.dir).node call.path.now ReadLink))
        string_bytes answer };

    fn made(self, view: &mut WasiFilesystemCtxView<'_, H>, fd: Resource) -> FsResult<String> {
        view.readlink_at(fd, self.path)
    }
}

/// The metadata of the node that a path names.
#[derive(Clone, Copy)]
pub struct StatAt<'p> {
    pub flags: PathFlags,
    pub path: &'p str,
}

impl<'p, H: Host> EntryOp<H> for StatAt<'p> {
    type Gives = DescriptorStat;

    type Lower = wasi_fs::DescriptorStat;

    ghost shown = { stat_named };

    ghost Did = { λ call old new dir answer. IfOk answer IsStat × Performs H.Host old new None
        (meant_as descriptor_stat (meant_by (H.model old).tree
        (looks ((H.model old).held dir.dir).node call.path.now (path_flags_named call.flags)))) (λ stat. stat) answer };

    fn made(
        self,
        view: &mut WasiFilesystemCtxView<'_, H>,
        fd: Resource,
    ) -> FsResult<DescriptorStat> {
        view.stat_at(fd, self.flags, self.path)
    }
}

/// The hash of the node that a path names.
#[derive(Clone, Copy)]
pub struct MetadataHashAt<'p> {
    pub flags: PathFlags,
    pub path: &'p str,
}

impl<'p, H: Host> EntryOp<H> for MetadataHashAt<'p> {
    type Gives = MetadataHashValue;

    type Lower = wasi_fs::MetadataHashValue;

    ghost shown = { hash_named };

    ghost Did = { λ call old new dir answer. IfOk answer IsHash × Performs H.Host old new None
        (meant_as metadata_hash (meant_by (H.model old).tree
        (looks ((H.model old).held dir.dir).node call.path.now (path_flags_named call.flags)))) (λ hash. hash) answer };

    fn made(
        self,
        view: &mut WasiFilesystemCtxView<'_, H>,
        fd: Resource,
    ) -> FsResult<MetadataHashValue> {
        view.metadata_hash_at(fd, self.flags, self.path)
    }
}

/// Sets the times of the node that a path names, of which none may be before the epoch.
#[derive(Clone, Copy)]
pub struct SetTimesAt<'p> {
    pub flags: PathFlags,
    pub path: &'p str,
    pub times: NewTimes,
}

impl<'p, H: Host> EntryOp<H> for SetTimesAt<'p> {
    type Gives = ();

    type Lower = ();

    ghost shown = { λ unit. unit };

    ghost Did = { λ call old new dir. Performs H.Host old new (may_do dir.perms Alter)
        (meant_by (H.model old).tree (sets_times ((H.model old).held dir.dir).node call.path.now
        (path_flags_named call.flags) call.times.atime call.times.mtime)) (λ unit. unit) };

    ghost Fits = { λ call. AreSinceEpoch call.times };

    fn made(self, view: &mut WasiFilesystemCtxView<'_, H>, fd: Resource) -> FsResult<()> {
        let atim = timestamp_of(self.times.atime);
        let mtim = timestamp_of(self.times.mtime);
        view.set_times_at(fd, self.flags, self.path, atim, mtim)
    }
}

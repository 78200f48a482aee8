//! The calls of an open directory that name a place below another one too.
ghost use Rattle.std.specs.Prelude.{◌≡◌, true, IsTrue, None};
ghost use Rattle.std.specs.FinSet.{contains};
ghost use Rattle.wasi_host.specs.HostLaws.{HasCause};
ghost use Rattle.wasi_host.specs.Provenance.{HasProvenance, OneOf, Nothing};
ghost use Rattle.wasi_resolve.specs.TwoPathOps.{HardLink, Rename};
ghost use Rattle.wasi_resolve.specs.PathRequest.{AtTwo, meant_by};
ghost use Rattle.wasi_resolve.specs.Resolved.{Resolved};
ghost use Rattle.wasi_fs.specs.Calls.{may_add_name, may_rename, Refuses};
ghost use Rattle.wasi_fs.specs.OpenHow.{is_followed};

use crate::{Dir, PathFlags};
use bitflags::Flags;
use std::alloc::Global;
use wasi_host::{Host, HostError};

/// Each call begins from the handles of this directory and of the other, which are to be live and may be one. A call that
/// isn't permitted asks the host nothing. Memory is taken as the resolver takes it; where it is wanted, the tree and the
/// live handles are as before.
impl Dir {
    /// Gives the file or link under `old_path` a further name, `new_path` below the other directory: the crate's
    /// `link_at`. Refusals: NotPermitted where this directory is read-only, and then where the other is; Invalid of
    /// SYMLINK_FOLLOW; NotPermitted where the permissions of the two differ; then those of the resolver's `hard_link`.
    pub fn link_at<H: Host>(
        &self,
        alloc: Global,
        host: &mut H,
        old_path_flags: PathFlags,
        old_path: &str,
        new_dir: &Dir,
        new_path: &str,
    ) -> Result<(), HostError>
        requires live { contains (H.live host.old) self.now.dir ≡ true }
        requires new_live { contains (H.live host.old) new_dir.now.dir ≡ true }
        ensures cause { HasCause (H.faults host.old) (H.faults host.new) result }
        ensures live { H.live host.new ≡ H.live host.old }
        ensures provenance { HasProvenance (OneOf self.now.dir new_dir.now.dir) Nothing Nothing (H.lookups host.old)
            (H.lookups host.new) }
        ensures permit { Refuses (may_add_name self.now.perms new_dir.now.perms (is_followed old_path_flags)) result
            host.old host.new }
        ensures modelled { IsTrue H.modelled
            → may_add_name self.now.perms new_dir.now.perms (is_followed old_path_flags) ≡ None
            → Resolved (H.live host.old) (H.model host.old) (H.model host.new)
            (meant_by (H.model host.old).tree (AtTwo ((H.model host.old).held self.now.dir).node old_path.now
            ((H.model host.old).held new_dir.now.dir).node new_path.now HardLink))
            (λ unit. unit) result }
    {
        let follow = old_path_flags.contains(PathFlags::SYMLINK_FOLLOW);
        self.perms.check_add_name(new_dir.perms, follow)?;
        wasi_resolve::hard_link(alloc, host, self.dir, old_path, new_dir.dir, new_path)
    }

    /// Moves what is under `old_path` to `new_path` below the other directory: the crate's `rename_at`. Refusals:
    /// NotPermitted where this directory isn't read-write, then where the other isn't, and then where the permissions of
    /// the two differ; then those of the resolver's `rename`.
    pub fn rename_at<H: Host>(
        &self,
        alloc: Global,
        host: &mut H,
        old_path: &str,
        new_dir: &Dir,
        new_path: &str,
    ) -> Result<(), HostError>
        requires live { contains (H.live host.old) self.now.dir ≡ true }
        requires new_live { contains (H.live host.old) new_dir.now.dir ≡ true }
        ensures cause { HasCause (H.faults host.old) (H.faults host.new) result }
        ensures live { H.live host.new ≡ H.live host.old }
        ensures provenance { HasProvenance (OneOf self.now.dir new_dir.now.dir) Nothing Nothing (H.lookups host.old)
            (H.lookups host.new) }
        ensures permit { Refuses (may_rename self.now.perms new_dir.now.perms) result host.old host.new }
        ensures modelled { IsTrue H.modelled → may_rename self.now.perms new_dir.now.perms ≡ None
            → Resolved (H.live host.old) (H.model host.old) (H.model host.new)
            (meant_by (H.model host.old).tree (AtTwo ((H.model host.old).held self.now.dir).node old_path.now
            ((H.model host.old).held new_dir.now.dir).node new_path.now Rename))
            (λ unit. unit) result }
    {
        self.perms.check_rename(new_dir.perms)?;
        wasi_resolve::rename(alloc, host, self.dir, old_path, new_dir.dir, new_path)
    }
}

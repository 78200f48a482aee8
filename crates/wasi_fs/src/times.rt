//! The calls of a descriptor that set times.
ghost use Rattle.std.specs.Prelude.{◌≡◌, true, IsTrue, IfErr, None};
ghost use Rattle.std.specs.FinSet.{contains};
ghost use Rattle.wasi_host.specs.HostLaws.{HasCause};
ghost use Rattle.wasi_host.specs.Provenance.{HasProvenance, Only, Nothing};
ghost use Rattle.wasi_resolve.specs.PathRequest.{meant_by};
ghost use Rattle.wasi_resolve.specs.Resolved.{Resolved};
ghost use Rattle.wasi_fs.specs.Calls.{may_do, handle_of, perms_of, sets, sets_times, NotMemory, Refuses};
ghost use Rattle.wasi_fs.specs.declared.perms.Act.TheVariants.{Alter};

use crate::{Act, Descriptor, Dir, FsPerms, PathFlags};
use bitflags::Flags;
use std::alloc::Global;
use wasi_host::{Host, HostError, SystemTime};

impl Descriptor {
    /// Sets the given times of the node that the descriptor refers to, that of its last read and that of its last
    /// change: the crate's `set_times`. One that isn't given stays. Its handle is to be live. It takes no memory.
    /// Refusal: NotPermitted unless the permissions are read-write, of which the host isn't asked.
    pub fn set_times<H: Host>(
        &self,
        host: &mut H,
        atim: Option<SystemTime>,
        mtim: Option<SystemTime>,
    ) -> Result<(), HostError>
        requires live { contains (H.live host.old) (handle_of self.now) ≡ true }
        ensures cause { HasCause (H.faults host.old) (H.faults host.new) result }
        ensures no_memory { IfErr result NotMemory }
        ensures live { H.live host.new ≡ H.live host.old }
        ensures logged { H.lookups host.new ≡ H.lookups host.old }
        ensures permit { Refuses (may_do (perms_of self.now) Alter) result host.old host.new }
        ensures modelled { IsTrue H.modelled → may_do (perms_of self.now) Alter ≡ None
            → Resolved (H.live host.old) (H.model host.old) (H.model host.new)
            (sets (H.model host.old).tree ((H.model host.old).held (handle_of self.now)).node atim mtim)
            (λ unit. unit) result }
    {
        self.perms().check(Act::Alter)?;
        Ok(host.set_times(self.handle(), atim, mtim)?)
    }

    /// The permissions of the directory from which it stems.
    fn perms(&self) -> FsPerms
        ensures { result ≡ perms_of self.now }
    {
        match self {
            Descriptor::File(file) => file.perms,
            Descriptor::Dir(dir) => dir.perms,
        }
    }
}

impl Dir {
    /// Sets the given times of the node that a path names below this directory, whose handle is to be live, as
    /// `Descriptor::set_times` does; SYMLINK_FOLLOW follows a link under the last name: the crate's `set_times_at`.
    /// Without it a link's times are its own, unless a slash stands after it. Refusals: NotPermitted unless the
    /// permissions are read-write, of which no host is asked, then those of the resolver's `set_times` or
    /// `set_times_nofollow`. Memory is taken as by these.
    pub fn set_times_at<H: Host>(
        &self,
        alloc: Global,
        host: &mut H,
        path_flags: PathFlags,
        path: &str,
        atim: Option<SystemTime>,
        mtim: Option<SystemTime>,
    ) -> Result<(), HostError>
        requires live { contains (H.live host.old) self.now.dir ≡ true }
        ensures cause { HasCause (H.faults host.old) (H.faults host.new) result }
        ensures live { H.live host.new ≡ H.live host.old }
        ensures provenance { HasProvenance (Only self.now.dir) Nothing Nothing (H.lookups host.old) (H.lookups host.new) }
        ensures permit { Refuses (may_do self.now.perms Alter) result host.old host.new }
        ensures modelled { IsTrue H.modelled → may_do self.now.perms Alter ≡ None
            → Resolved (H.live host.old) (H.model host.old) (H.model host.new)
            (meant_by (H.model host.old).tree
            (sets_times ((H.model host.old).held self.now.dir).node path.now path_flags atim mtim))
            (λ unit. unit) result }
    {
        self.perms.check(Act::Alter)?;
        if path_flags.contains(PathFlags::SYMLINK_FOLLOW) {
            return wasi_resolve::set_times(alloc, host, self.dir, path, atim, mtim);
        }
        wasi_resolve::set_times_nofollow(alloc, host, self.dir, path, atim, mtim)
    }
}

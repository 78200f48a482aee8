//! The calls of an open file.
ghost use Rattle.std.specs.Prelude.{◌≡◌, true, IsTrue, IfErr, None};
ghost use Rattle.std.specs.FinSet.{contains};
ghost use Rattle.wasi_host.specs.HostCall.{Advise, SetSize};
ghost use Rattle.wasi_host.specs.HostLaws.{HasCause};
ghost use Rattle.wasi_resolve.specs.Resolved.{Resolved};
ghost use Rattle.wasi_fs.specs.Calls.{asks_at, may_do, NotMemory, Refuses};
ghost use Rattle.wasi_fs.specs.declared.perms.Act.TheVariants.{Alter};

use crate::{Act, File};
use wasi_host::{Advice, Host, HostError};

/// Each call goes through the file's handle, which is to be live, and makes no lookup of a name.
impl File {
    /// Tells the host how `len` bytes from `offset` on will be used, of which nothing changes: the crate's `advise`. It
    /// takes no memory, and is refused nothing.
    pub fn advise<H: Host>(
        &self,
        host: &mut H,
        offset: u64,
        len: u64,
        advice: Advice,
    ) -> Result<(), HostError>
        requires live { contains (H.live host.old) self.now.file ≡ true }
        ensures cause { HasCause (H.faults host.old) (H.faults host.new) result }
        ensures no_memory { IfErr result NotMemory }
        ensures live { H.live host.new ≡ H.live host.old }
        ensures logged { H.lookups host.new ≡ H.lookups host.old }
        ensures modelled { IsTrue H.modelled → Resolved (H.live host.old) (H.model host.old) (H.model host.new)
            (asks_at (H.model host.old).tree (Advise ((H.model host.old).held self.now.file).node offset len advice)
            ((H.model host.old).held self.now.file).node) (λ unit. unit) result }
    {
        Ok(host.advise(self.file, offset, len, advice)?)
    }

    /// Cuts the file to `size` bytes, or fills it up to them with zeros: the crate's `set_size`. Refusals: NotPermitted
    /// unless the permissions are read-write, of which no host is asked; then those of the host's `set_size`, Invalid
    /// without write access and for a size of 2^63 or more, and FileTooLarge for more than 2^30 bytes.
    pub fn set_size<H: Host>(&self, host: &mut H, size: u64) -> Result<(), HostError>
        requires live { contains (H.live host.old) self.now.file ≡ true }
        ensures cause { HasCause (H.faults host.old) (H.faults host.new) result }
        ensures live { H.live host.new ≡ H.live host.old }
        ensures logged { H.lookups host.new ≡ H.lookups host.old }
        ensures permit { Refuses (may_do self.now.perms Alter) result host.old host.new }
        ensures modelled { IsTrue H.modelled → may_do self.now.perms Alter ≡ None
            → Resolved (H.live host.old) (H.model host.old) (H.model host.new)
            (asks_at (H.model host.old).tree (SetSize ((H.model host.old).held self.now.file) size)
            ((H.model host.old).held self.now.file).node) (λ unit. unit) result }
    {
        self.perms.check(Act::Alter)?;
        host.set_size(self.file, size)
    }
}

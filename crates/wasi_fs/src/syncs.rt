//! The calls of a descriptor that wait until its node is stored.
ghost use Rattle.std.specs.Prelude.{◌≡◌, true, IsTrue, IfErr};
ghost use Rattle.std.specs.FinSet.{contains};
ghost use Rattle.wasi_host.specs.HostCall.{Sync};
ghost use Rattle.wasi_host.specs.HostLaws.{HasCause};
ghost use Rattle.wasi_host.specs.Provenance.{HasProvenance, Only, Nothing};
ghost use Rattle.wasi_resolve.specs.Resolved.{Resolved};
ghost use Rattle.wasi_fs.specs.Calls.{asks_at, handle_of, syncs, syncs_directory, LooksAnew, NeedsNone, NotMemory};

use crate::Descriptor;
use std::alloc::Global;
use wasi_host::{Handle, Host, HostError, read_options};

/// Each call needs the descriptor's handle to be live, and leaves what is live. Of a file it takes no memory and makes
/// no lookup of a name. A directory is opened again for reading, as the path `.` below it, so it needs its read bit and
/// its search bit, whatever its handle was opened for; that takes memory as the resolver's `open` does, and the new
/// handle is closed again.
impl Descriptor {
    /// Waits until the node is stored, its bytes or names and its metadata: the crate's `sync`. Refusals: of a file
    /// none, of a directory those of the resolver's `open`.
    pub fn sync<H: Host>(&self, alloc: Global, host: &mut H) -> Result<(), HostError>
        requires live { contains (H.live host.old) (handle_of self.now) ≡ true }
        ensures cause { HasCause (H.faults host.old) (H.faults host.new) result }
        ensures no_memory { NeedsNone self.now result }
        ensures live { H.live host.new ≡ H.live host.old }
        ensures provenance { LooksAnew self.now (H.lookups host.old) (H.lookups host.new) }
        ensures modelled { IsTrue H.modelled → Resolved (H.live host.old) (H.model host.old) (H.model host.new)
            (syncs (H.model host.old).tree (H.model host.old).held self.now) (λ unit. unit) result }
    {
        match self {
            Descriptor::File(file) => sync_file(host, file.file),
            Descriptor::Dir(dir) => sync_directory(alloc, host, dir.dir),
        }
    }

    /// Waits until what is in the node is stored: the crate's `sync_data`. A host tells this from all that `sync` waits
    /// for by nothing, so it is the same.
    pub fn sync_data<H: Host>(&self, alloc: Global, host: &mut H) -> Result<(), HostError>
        requires live { contains (H.live host.old) (handle_of self.now) ≡ true }
        ensures cause { HasCause (H.faults host.old) (H.faults host.new) result }
        ensures no_memory { NeedsNone self.now result }
        ensures live { H.live host.new ≡ H.live host.old }
        ensures provenance { LooksAnew self.now (H.lookups host.old) (H.lookups host.new) }
        ensures modelled { IsTrue H.modelled → Resolved (H.live host.old) (H.model host.old) (H.model host.new)
            (syncs (H.model host.old).tree (H.model host.old).held self.now) (λ unit. unit) result }
    {
        self.sync(alloc, host)
    }
}

fn sync_file<H: Host>(host: &mut H, file: Handle) -> Result<(), HostError>
    requires live { contains (H.live host.old) file ≡ true }
    ensures cause { HasCause (H.faults host.old) (H.faults host.new) result }
    ensures no_memory { IfErr result NotMemory }
    ensures live { H.live host.new ≡ H.live host.old }
    ensures logged { H.lookups host.new ≡ H.lookups host.old }
    ensures modelled { IsTrue H.modelled → Resolved (H.live host.old) (H.model host.old) (H.model host.new)
        (asks_at (H.model host.old).tree (Sync ((H.model host.old).held file).node) ((H.model host.old).held file).node)
        (λ unit. unit) result }
{
    Ok(host.sync(file)?)
}

#[tactic(auto, using(wasi_host::proofs::Chain::live_rules))]
fn sync_directory<H: Host>(alloc: Global, host: &mut H, directory: Handle) -> Result<(), HostError>
    requires live { contains (H.live host.old) directory ≡ true }
    ensures cause { HasCause (H.faults host.old) (H.faults host.new) result }
    ensures live { H.live host.new ≡ H.live host.old }
    ensures provenance { HasProvenance (Only directory) Nothing Nothing (H.lookups host.old) (H.lookups host.new) }
    ensures modelled { IsTrue H.modelled → Resolved (H.live host.old) (H.model host.old) (H.model host.new)
        (syncs_directory (H.model host.old).tree ((H.model host.old).held directory).node) (λ unit. unit) result }
{
    let handle = match wasi_resolve::open(alloc, host, directory, ".", &read_options()) {
        Ok(handle) => handle,
        Err(error) => return Err(error),
    };
    let synced = host.sync(handle);
    host.close(handle);
    match synced {
        Ok(()) => Ok(()),
        Err(code) => Err(HostError::Code(code)),
    }
}

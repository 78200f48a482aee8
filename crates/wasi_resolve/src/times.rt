//! The call of the resolver that sets the times of what a path leads to.
ghost use Rattle.std.specs.Prelude.{◌≡◌, ◌≤◌, ◌+◌, true, IsTrue, length};
ghost use Rattle.std.specs.FinSet.{contains};
ghost use Rattle.wasi_host.specs.HostLaws.{HasCause, LiveGot};
ghost use Rattle.wasi_host.specs.Provenance.{HasProvenance, Only, Nothing};
ghost use Rattle.wasi_resolve.specs.Walk.{Open, walk, walk_looks};
ghost use Rattle.wasi_resolve.specs.Paths.{reading, writing};
ghost use Rattle.wasi_resolve.specs.PathRequest.{TimesPath, meant_by};
ghost use Rattle.wasi_resolve.specs.Resolved.{links_read, GotBy, Resolved};
ghost use Rattle.wasi_resolve.specs.Timed.{reads_after, read_refused, timed_at};

use crate::resolver::open;
use std::alloc::Global;
use wasi_host::{ErrorCode, Handle, Host, HostError, OpenOptions, SystemTime, read_options};

/// Sets the given times of what a path leads to below a start directory, links followed: that of its last read, and
/// that of its last change. One that isn't given stays. The crate's `set_times` of `manually`: what the path leads to
/// is opened for writing; only after Access or IsDirectory is it opened for reading; where that is refused Access, the
/// answer is Unsupported. Every other refusal is that of the open. Then the times are set through the handle.
///
/// Memory is taken as the walks take it. Where it is wanted, the tree and the live handles are as before.
#[tactic(auto, using(wasi_host::proofs::Chain::live_rules))]
pub fn set_times<H: Host>(
    alloc: Global,
    host: &mut H,
    start: Handle,
    path: &str,
    atime: Option<SystemTime>,
    mtime: Option<SystemTime>,
) -> Result<(), HostError>
    requires live { contains (H.live host.old) start ≡ true }
    ensures cause { HasCause (H.faults host.old) (H.faults host.new) result }
    ensures live { H.live host.new ≡ H.live host.old }
    ensures provenance { HasProvenance (Only start) Nothing Nothing (H.lookups host.old) (H.lookups host.new) }
    ensures links { links_read (H.lookups host.new) ≤ links_read (H.lookups host.old) + 80 }
    ensures modelled { IsTrue H.modelled → Resolved (H.live host.old) (H.model host.old) (H.model host.new)
        (meant_by (H.model host.old).tree
        (TimesPath ((H.model host.old).held start).node path.now true atime mtime))
        (λ unit. unit) result }
    ensures bound { IsTrue H.modelled → length (H.lookups host.new) ≤ length (H.lookups host.old)
        + walk_looks (walk (H.model host.old).tree ((H.model host.old).held start).node path.now (Open writing) true)
        + walk_looks (walk (H.model host.old).tree ((H.model host.old).held start).node path.now (Open reading) true) }
{
    let handle = match open_to_set(alloc, host, start, path) {
        Ok(handle) => handle,
        Err(e) => return Err(e),
    };
    let set = host.set_times(handle, atime, mtime);
    host.close(handle);
    match set {
        Ok(()) => Ok(()),
        Err(code) => Err(HostError::Code(code)),
    }
}

/// What the times of a path are set through: a handle for writing, or else one for reading. Where that is refused
/// Access, nothing is left by which times could be set: Unsupported.
fn open_to_set<H: Host>(
    alloc: Global,
    host: &mut H,
    start: Handle,
    path: &str,
) -> Result<Handle, HostError>
    requires live { contains (H.live host.old) start ≡ true }
    ensures cause { HasCause (H.faults host.old) (H.faults host.new) result }
    ensures live { LiveGot (H.live host.old) result (H.live host.new) }
    ensures provenance { HasProvenance (Only start) Nothing (GotBy result) (H.lookups host.old) (H.lookups host.new) }
    ensures links { links_read (H.lookups host.new) ≤ links_read (H.lookups host.old) + 80 }
    ensures modelled { IsTrue H.modelled → Resolved (H.live host.old) (H.model host.old) (H.model host.new)
        (timed_at (H.model host.old).tree ((H.model host.old).held start).node path.now)
        (H.model host.new).held result }
    ensures bound { IsTrue H.modelled → length (H.lookups host.new) ≤ length (H.lookups host.old)
        + walk_looks (walk (H.model host.old).tree ((H.model host.old).held start).node path.now (Open writing) true)
        + walk_looks (walk (H.model host.old).tree ((H.model host.old).held start).node path.now (Open reading) true) }
{
    let refused = match open(alloc, host, start, path, &writing()) {
        Ok(handle) => return Ok(handle),
        Err(refused) => refused,
    };
    if !reads_after(refused) {
        return Err(refused);
    }
    match open(alloc, host, start, path, &read_options()) {
        Ok(handle) => Ok(handle),
        Err(failed) => Err(read_refused(failed)),
    }
}

/// Whether an open for reading is tried where one for writing was refused so.
fn reads_after(refused: HostError) -> bool
    ensures { result ≡ reads_after refused }
{
    match refused {
        HostError::Code(ErrorCode::Access) => true,
        HostError::Code(ErrorCode::IsDirectory) => true,
        HostError::Code(_) => false,
        HostError::Memory => false,
    }
}

/// What the call answers where an open for reading was refused so.
fn read_refused(refused: HostError) -> HostError
    ensures { result ≡ read_refused refused }
{
    match refused {
        HostError::Code(ErrorCode::Access) => HostError::Code(ErrorCode::Unsupported),
        HostError::Code(code) => HostError::Code(code),
        HostError::Memory => HostError::Memory,
    }
}

fn writing() -> OpenOptions
    ensures { result ≡ writing }
{
    let mut options = OpenOptions::new();
    options.write(true);
    options
}

//! The calls of the resolver.
ghost use Rattle.std.specs.Prelude.{◌≡◌, ◌≤◌, ◌+◌, ◌*◌, true, IsTrue, length};
ghost use Rattle.std.specs.FinSet.{contains};
ghost use Rattle.wasi_host.specs.HostLaws.{HasCause, LiveGot};
ghost use Rattle.wasi_host.specs.Provenance.{HasProvenance, Only, Nothing};
ghost use Rattle.wasi_resolve.specs.Walk.{Open, Look, walk, walk_looks};
ghost use Rattle.wasi_resolve.specs.Paths.{directory_options};
ghost use Rattle.wasi_resolve.specs.Resolved.{links_read, GotBy, GotLast, Resolved};
ghost use Rattle.wasi_resolve.specs.Meanings.{follows, opens_at, looks_at};

use crate::found::{Aim, Found};
use crate::walk::walk;
use bumpalo::Bump;
use std::alloc::Global;
use wasi_host::{FollowSymlinks, Handle, Host, HostError, Metadata, OpenOptions, dir_options};

/// Opens a path below a start directory with the options, whose `follow` says whether a link under the last name is
/// read: the crate's `open` in `manually/open.rs`. The walk takes one part after another, and reads links itself, so no
/// path leaves the start directory; one that would is refused NotPermitted. It makes a file, or cuts one, where the
/// options ask for it and nothing is refused. It reads at most 40 links, and is refused Loop at the next one. It makes
/// at most one lookup for each part that it takes, two more for each link that it reads, and one more.
///
/// Memory is taken by the number of parts. Where it is wanted, the tree and the live handles are as before.
pub fn open<H: Host>(
    alloc: Global,
    host: &mut H,
    start: Handle,
    path: &str,
    options: &OpenOptions,
) -> Result<Handle, HostError>
    requires live { contains (H.live host.old) start ≡ true }
    ensures cause { HasCause (H.faults host.old) (H.faults host.new) result }
    ensures live { LiveGot (H.live host.old) result (H.live host.new) }
    ensures provenance { HasProvenance (Only start) Nothing (GotBy result) (H.lookups host.old) (H.lookups host.new) }
    ensures last { GotLast result (H.lookups host.new) }
    ensures links { links_read (H.lookups host.new) ≤ links_read (H.lookups host.old) + 40 }
    ensures modelled { IsTrue H.modelled → Resolved (H.live host.old) (H.model host.old) (H.model host.new)
        (opens_at (H.model host.old).tree ((H.model host.old).held start).node path.now options.now)
        (H.model host.new).held result }
    ensures bound { IsTrue H.modelled → length (H.lookups host.new) ≤ length (H.lookups host.old)
        + walk_looks (walk (H.model host.old).tree ((H.model host.old).held start).node path.now (Open options.now)
        (follows options.now.follow)) }
{
    let texts = Bump::new(alloc);
    let found = walk(&texts, alloc, host, start, path, &Aim::Open(*options))?;
    match found {
        Found::Handle(handle) => Ok(handle),
        Found::Metadata(_) => unreachable!(),
    }
}

/// Opens a directory below a start directory, for its path alone, so that it needs no read bit; links are followed. It
/// is `open` with the options of `dir_options`.
pub fn open_dir<H: Host>(
    alloc: Global,
    host: &mut H,
    start: Handle,
    path: &str,
) -> Result<Handle, HostError>
    requires live { contains (H.live host.old) start ≡ true }
    ensures cause { HasCause (H.faults host.old) (H.faults host.new) result }
    ensures live { LiveGot (H.live host.old) result (H.live host.new) }
    ensures provenance { HasProvenance (Only start) Nothing (GotBy result) (H.lookups host.old) (H.lookups host.new) }
    ensures last { GotLast result (H.lookups host.new) }
    ensures links { links_read (H.lookups host.new) ≤ links_read (H.lookups host.old) + 40 }
    ensures modelled { IsTrue H.modelled → Resolved (H.live host.old) (H.model host.old) (H.model host.new)
        (opens_at (H.model host.old).tree ((H.model host.old).held start).node path.now directory_options)
        (H.model host.new).held result }
    ensures bound { IsTrue H.modelled → length (H.lookups host.new) ≤ length (H.lookups host.old)
        + walk_looks (walk (H.model host.old).tree ((H.model host.old).held start).node path.now
        (Open directory_options) true) }
{
    open(alloc, host, start, path, &dir_options())
}

/// The metadata of the node that a path names below a start directory; a link under the last name is read where it is
/// followed, or where a slash stands after it: the crate's `stat` in `manually/open.rs`. It walks as `open` does, and
/// takes memory as it does. Where the path ends in a directory, that one needs its search bit; where a slash stands
/// after the last name, its node must be a directory, or the answer is NotDirectory.
pub fn stat<H: Host>(
    alloc: Global,
    host: &mut H,
    start: Handle,
    path: &str,
    follow: FollowSymlinks,
) -> Result<Metadata, HostError>
    requires live { contains (H.live host.old) start ≡ true }
    ensures cause { HasCause (H.faults host.old) (H.faults host.new) result }
    ensures live { H.live host.new ≡ H.live host.old }
    ensures provenance { HasProvenance (Only start) Nothing Nothing (H.lookups host.old) (H.lookups host.new) }
    ensures links { links_read (H.lookups host.new) ≤ links_read (H.lookups host.old) + 40 }
    ensures modelled { IsTrue H.modelled → Resolved (H.live host.old) (H.model host.old) (H.model host.new)
        (looks_at (H.model host.old).tree ((H.model host.old).held start).node path.now follow)
        (λ metadata. metadata) result }
    ensures bound { IsTrue H.modelled → length (H.lookups host.new) ≤ length (H.lookups host.old)
        + walk_looks (walk (H.model host.old).tree ((H.model host.old).held start).node path.now Look
        (follows follow)) }
{
    let texts = Bump::new(alloc);
    let found = walk(&texts, alloc, host, start, path, &Aim::Look(follow))?;
    match found {
        Found::Metadata(metadata) => Ok(metadata),
        Found::Handle(_) => unreachable!(),
    }
}

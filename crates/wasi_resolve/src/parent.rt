//! A name in the directory that a path leads to.
ghost use Rattle.std.specs.Prelude.{◌≡◌, ◌≤◌, ◌+◌, true, IsTrue, IfOk, length};
ghost use Rattle.std.specs.FinSet.{contains};
ghost use Rattle.wasi_host.specs.HostLaws.{HasCause};
ghost use Rattle.wasi_host.specs.Provenance.{HasProvenance, Only, Nothing};
ghost use Rattle.wasi_paths.specs.Name.{name_bytes};
ghost use Rattle.wasi_paths.specs.Part.{component};
ghost use Rattle.wasi_paths.specs.Parts.{is_empty};
ghost use Rattle.wasi_paths.specs.TextLaws.{IsLastPart};
ghost use Rattle.wasi_resolve.specs.Paths.{part_text};
ghost use Rattle.wasi_resolve.specs.Resolved.{links_read, Resolved};
ghost use Rattle.wasi_resolve.specs.Parents.{directory_of, is_borrowed, parent_looks, parent_text, places_at, released, shown_place, GotParent, LastIn, LiveParent};
ghost use Rattle.wasi_resolve.specs.WalkSteps.{ModelStays};

use crate::resolver::open_dir;
use crate::walk::is_empty;
use std::alloc::Global;
use wasi_host::{ErrorCode, Handle, Host, HostError};
use wasi_paths::{Name, Part, split_parent, texts_have_one_split};

/// A directory's handle that is the caller's already, or one that was opened, which is the caller's to close. It stands
/// for the crate's `MaybeOwnedFile`.
#[derive(Clone, Copy, Debug, PartialEq, Eq)]
pub enum MaybeOwned {
    Borrowed(Handle),
    Owned(Handle),
}

impl MaybeOwned {
    /// The handle.
    pub fn handle(self) -> Handle
        ensures handle { result ≡ directory_of self }
    {
        match self {
            MaybeOwned::Borrowed(handle) => handle,
            MaybeOwned::Owned(handle) => handle,
        }
    }

    /// Closes the directory, where it was opened.
    pub(crate) fn release<H: Host>(self, host: &mut H)
        requires { contains (H.live host.old) (directory_of self) ≡ true }
        ensures faults { H.faults host.new ≡ H.faults host.old }
        ensures live { H.live host.new ≡ released (H.live host.old) self }
        ensures logged { H.lookups host.new ≡ H.lookups host.old }
        ensures modelled { IsTrue H.modelled
            → ModelStays (released (H.live host.old) self) (H.model host.old) (H.model host.new) }
    {
        match self {
            MaybeOwned::Borrowed(_) => {}
            MaybeOwned::Owned(handle) => host.close(handle),
        }
    }
}

/// A name in a directory, in which it may be missing.
#[derive(Clone, Copy, Debug, PartialEq, Eq)]
pub struct Parent<'p> {
    pub directory: MaybeOwned,
    pub name: Name<'p>,
}

/// The last part of a split, as a name.
fn last_name<'p>(last: Part<'p>) -> Name<'p>
    requires { IsLastPart (component last) }
    ensures { name_bytes result ≡ part_text (component last.entry) }
{
    match last {
        Part::CurDir => Name::dot(),
        Part::Normal(text) => match Name::plain(text) {
            Some(name) => name,
            None => unreachable!(),
        },
        Part::Root => unreachable!(),
        Part::ParentDir => unreachable!(),
    }
}

/// The place that a path names below a start directory: its last part, a plain name or `.`, in the directory that its
/// parent text opens: the crate's `open_parent` in `open_parent.rs`. The name itself is not looked up. Where the parent
/// text is empty the directory is the start, borrowed, and nothing is asked of the host; else it was opened, and is the
/// caller's to close. The empty path is refused NoEntry, and any other as the open of its parent is.
#[tactic(auto, using(wasi_host::proofs::Chain::live_rules))]
pub fn open_parent<'p, H: Host>(
    alloc: Global,
    host: &mut H,
    start: Handle,
    path: &'p str,
) -> Result<Parent<'p>, HostError>
    requires live { contains (H.live host.old) start ≡ true }
    ensures cause { HasCause (H.faults host.old) (H.faults host.new) result }
    ensures live { LiveParent start (H.live host.old) result (H.live host.new) }
    ensures held { IfOk result (λ parent. contains (H.live host.new) (directory_of parent.directory) ≡ true) }
    ensures closes { IfOk result (λ parent. released (H.live host.new) parent.directory ≡ H.live host.old) }
    ensures provenance { HasProvenance (Only start) Nothing (GotParent result) (H.lookups host.old) (H.lookups host.new) }
    ensures last { IfOk result (λ parent. LastIn parent.directory (H.lookups host.new)) }
    ensures links { links_read (H.lookups host.new) ≤ links_read (H.lookups host.old) + 40 }
    ensures borrowed { IfOk result (λ parent. is_borrowed parent.directory ≡ is_empty (parent_text path.entry.now)) }
    ensures unasked { is_empty (parent_text path.entry.now) ≡ true → host.new ≡ host.old }
    ensures modelled { IsTrue H.modelled → Resolved (H.live host.old) (H.model host.old) (H.model host.new)
        (places_at (H.model host.old).tree ((H.model host.old).held start).node path.entry.now)
        (shown_place (H.model host.new).held) result }
    ensures bound { IsTrue H.modelled → length (H.lookups host.new) ≤ length (H.lookups host.old)
        + parent_looks (H.model host.old).tree ((H.model host.old).held start).node path.entry.now }
{
    texts_have_one_split();
    let Some((parent, last)) = split_parent(path) else {
        return Err(HostError::Code(ErrorCode::NoEntry));
    };
    let name = last_name(last);
    if is_empty(parent) {
        return Ok(Parent {
            directory: MaybeOwned::Borrowed(start),
            name,
        });
    }
    let directory = open_dir(alloc, host, start, parent)?;
    Ok(Parent {
        directory: MaybeOwned::Owned(directory),
        name,
    })
}

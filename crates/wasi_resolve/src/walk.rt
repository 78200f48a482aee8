//! The walk along the parts of a path.
ghost use Rattle.std.specs.Prelude.{◌≡◌, ◌∷◌, ◌≤◌, ◌+◌, ◌&&◌, ◌||◌, ℕ, true, IsTrue, List, length};
ghost use Rattle.std.specs.FinSet.{contains};
ghost use Rattle.wasi_host.specs.HostLaws.{HasCause, HostModel};
ghost use Rattle.wasi_host.specs.Provenance.{HasProvenance, Only, Nothing};
ghost use Rattle.wasi_paths.specs.Parts.{Component, trailing_slash, is_empty};
ghost use Rattle.wasi_resolve.specs.Walk.{walk, walk_looks};
ghost use Rattle.wasi_resolve.specs.Left.{component_left, parts_left, is_nil};
ghost use Rattle.wasi_resolve.specs.Stack.{Stands, StillStands, Among};
ghost use Rattle.wasi_resolve.specs.WalkState.{begin, way, way_of};
ghost use Rattle.wasi_resolve.specs.Resolved.{links_read, Resolved};
ghost use Rattle.wasi_resolve.specs.Finding.{aim_follows, aim_of, course_of, LiveWith, IsGot, StandsWith, StackTraced, ReachTraced, IsLast, FewReads, ReadsBy, ReadsTo, FewUntil, FoundAs, FoundOf, handle_found, handle_reached};
ghost use Rattle.wasi_resolve.specs.WalkSteps.{Walked, TakesPart, Stopped, EndsInDirectory, Reaches, ReadsLink, Comes, meant_at, shown_found};

use crate::MAX_SYMLINK_EXPANSIONS;
use crate::found::{Aim, Found, Reach, Stop};
use crate::name_left::NameLeft;
use crate::name_lookup::{at_last, go_down};
use crate::parts_left::{PartLeft, put_parts};
use crate::stack::{close_all, leave, top_of};
use crate::walk_state::Way;
use bumpalo::Bump;
use std::alloc::Global;
use wasi_host::{ErrorCode, Handle, Host, HostError};
use wasi_paths::{Name, path_has_trailing_slash};

/// One part. The walk stops at a last name, and goes down into the others; `None` says that it goes on after the part.
fn step<'p, H: Host>(
    host: &mut H,
    start: Handle,
    stack: &mut Vec<Handle>,
    part: PartLeft<'p>,
    is_last: bool,
) -> Result<Option<Stop<'p>>, HostError>
    requires { (first : _) × Stands first (H.live host.old) start stack.old.items }
    ensures cause { HasCause (H.faults host.old) (H.faults host.new) result }
    ensures stands { StillStands start (H.live host.old) stack.old.items (H.live host.new) stack.new.items }
    ensures provenance { StackTraced start stack.old.items stack.new.items (H.lookups host.old) (H.lookups host.new) }
    ensures reads { ReadsBy (H.lookups host.old) (H.lookups host.new) result }
    ensures modelled { IsTrue H.modelled → (first : _) (w : HostModel) (rest : List Component) → is_nil rest ≡ is_last
        → Stands first (H.live host.old) start stack.old.items
        → Walked first w (H.model host.old) start stack.old.items
        → TakesPart (begin first w start) (way (H.model host.old) stack.old.items (component_left part.entry ∷ rest))
        (way (H.model host.new) stack.new.items rest) result }
{
    match part {
        PartLeft::Root => Err(HostError::Code(ErrorCode::NotPermitted)),
        PartLeft::CurDir => Ok(None),
        PartLeft::ParentDir => match leave(host, start, stack) {
            Ok(()) => Ok(None),
            Err(e) => Err(e),
        },
        PartLeft::Normal(name) => {
            if is_last {
                return Ok(Some(Stop::Last(name)));
            }
            go_down(host, start, stack, name)
        }
    }
}

/// The parts that are left, up to the last name or the next link.
fn leg<'p, H: Host>(host: &mut H, start: Handle, way: &mut Way<'p>) -> Result<Stop<'p>, HostError>
    requires { (first : _) × Stands first (H.live host.old) start way.old.stack.items }
    ensures cause { HasCause (H.faults host.old) (H.faults host.new) result }
    ensures stands { StillStands start (H.live host.old) way.old.stack.items (H.live host.new) way.new.stack.items }
    ensures provenance { StackTraced start way.old.stack.items way.new.stack.items (H.lookups host.old) (H.lookups host.new) }
    ensures reads { ReadsTo way.old.left.items way.new.left.items (H.lookups host.old) (H.lookups host.new) result }
    ensures modelled { IsTrue H.modelled → (first : _) (w : HostModel)
        → Stands first (H.live host.old) start way.old.stack.items
        → Walked first w (H.model host.old) start way.old.stack.items
        → Stopped (begin first w start) (way_of (H.model host.old) way.old)
        (way_of (H.model host.new) way.new) result }
{
    while let Some(part) = way.left.pop() {
        let is_last = way.left.as_slice().is_empty();
        let stopped = step(host, start, &mut way.stack, part, is_last)?;
        if let Some(stop) = stopped {
            return Ok(stop);
        }
    }
    Ok(Stop::Dot)
}

/// A walk that ends in a directory, since no part is left: it is opened, or looked at, for which it must have its
/// search bit.
fn at_dot<H: Host>(host: &mut H, here: Handle, aim: &Aim) -> Result<Found, HostError>
    requires { contains (H.live host.old) here ≡ true }
    ensures cause { HasCause (H.faults host.old) (H.faults host.new) result }
    ensures live { LiveWith (H.live host.old) (handle_found result) (H.live host.new) }
    ensures for_aim { FoundOf aim.now result }
    ensures provenance { HasProvenance (Only here) Nothing (IsGot (handle_found result)) (H.lookups host.old) (H.lookups host.new) }
    ensures last { IsLast (handle_found result) (H.lookups host.new) }
    ensures reads { FewReads 1 0 (H.lookups host.old) (H.lookups host.new) }
    ensures modelled { IsTrue H.modelled → EndsInDirectory (H.live host.old) (H.model host.old) (H.model host.new)
        ((H.model host.old).held here).node (aim_of aim.now) result }
{
    match aim {
        Aim::Open(options) => {
            if options.is_write() {
                return Err(HostError::Code(ErrorCode::IsDirectory));
            }
            let handle = host.open_at(here, Name::dot(), options)?;
            Ok(Found::Handle(handle))
        }
        Aim::Look(_) => {
            host.access(here)?;
            let metadata = host.stat(here)?;
            Ok(Found::Metadata(metadata))
        }
    }
}

/// The parts that are left, up to what they end at or to the next link.
fn reach<'p, H: Host>(
    host: &mut H,
    start: Handle,
    way: &mut Way<'p>,
    aim: &Aim,
    slash: bool,
) -> Result<Reach<'p>, HostError>
    requires { (first : _) × Stands first (H.live host.old) start way.old.stack.items }
    ensures cause { HasCause (H.faults host.old) (H.faults host.new) result }
    ensures stands { (first : _) → Stands first (H.live host.old) start way.old.stack.items
        → StandsWith first (H.live host.new) start way.new.stack.items (handle_reached result) }
    ensures for_aim { FoundAs aim.now result }
    ensures provenance { ReachTraced start way.old.stack.items way.new.stack.items result
        (H.lookups host.old) (H.lookups host.new) }
    ensures last { IsLast (handle_reached result) (H.lookups host.new) }
    ensures reads { FewUntil 1 way.old.left.items way.new.left.items (H.lookups host.old) (H.lookups host.new) }
    ensures modelled { IsTrue H.modelled → (first : _) (w : HostModel) (m : ℕ)
        → Stands first (H.live host.old) start way.old.stack.items
        → Walked first w (H.model host.old) start way.old.stack.items
        → Reaches (begin first w start) (course_of aim.now slash) m
        (way_of (H.model host.old) way.old)
        (way_of (H.model host.new) way.new) result }
{
    let stop = leg(host, start, way)?;
    let here = top_of(start, &way.stack);
    match stop {
        Stop::Dot => match at_dot(host, here, aim) {
            Ok(found) => Ok(Reach::Found(found)),
            Err(e) => Err(e),
        },
        Stop::Last(name) => at_last(host, here, name, aim, slash),
        Stop::Link(name) => Ok(Reach::Link(name)),
    }
}

/// Whether a slash stands after the last part, once a link's text has been put there.
fn slash_behind(slash: bool, was_last: bool, text: &str) -> bool
    ensures { result ≡ (slash || (was_last && trailing_slash text.now)) }
{
    slash || (was_last && path_has_trailing_slash(text))
}

/// Reads a link and puts the parts of its text, which is kept in the arena, before those that are left. It answers
/// whether the last part has a slash after it then.
fn read_link<'p, H: Host>(
    texts: &'p Bump,
    alloc: Global,
    host: &mut H,
    here: Handle,
    name: NameLeft<'p>,
    left: &mut Vec<PartLeft<'p>>,
    slash: bool,
) -> Result<bool, HostError>
    requires { contains (H.live host.old) here ≡ true }
    ensures cause { HasCause (H.faults host.old) (H.faults host.new) result }
    ensures live { H.live host.new ≡ H.live host.old }
    ensures provenance { HasProvenance (Only here) Nothing Nothing (H.lookups host.old) (H.lookups host.new) }
    ensures reads { FewReads 1 1 (H.lookups host.old) (H.lookups host.new) }
    ensures modelled { IsTrue H.modelled → ReadsLink (H.live host.old) (H.model host.old) (H.model host.new)
        (record { directory = ((H.model host.old).held here).node; name = name.entry.text.now })
        (parts_left left.old.items) (parts_left left.new.items) slash result }
{
    let read = host.read_link_at(alloc, here, name.name())?;
    let text = texts.try_alloc_str(read.as_str())?;
    let was_last = left.as_slice().is_empty();
    put_parts(left, text)?;
    Ok(slash_behind(slash, was_last, text))
}

/// The whole walk along the parts that are left. It reads a link in each turn, and none after the last turn.
fn along<'p, H: Host>(
    texts: &'p Bump,
    alloc: Global,
    host: &mut H,
    start: Handle,
    way: &mut Way<'p>,
    aim: &Aim,
    has_slash: bool,
) -> Result<Found, HostError>
    requires { (first : _) × Stands first (H.live host.old) start way.old.stack.items }
    ensures cause { HasCause (H.faults host.old) (H.faults host.new) result }
    ensures stands { (first : _) → Stands first (H.live host.old) start way.old.stack.items
        → StandsWith first (H.live host.new) start way.new.stack.items (handle_found result) }
    ensures for_aim { FoundOf aim.now result }
    ensures provenance { HasProvenance (Among start way.old.stack.items) Nothing (IsGot (handle_found result))
        (H.lookups host.old) (H.lookups host.new) }
    ensures last { IsLast (handle_found result) (H.lookups host.new) }
    ensures links { links_read (H.lookups host.new) ≤ links_read (H.lookups host.old) + 40 }
    ensures modelled { IsTrue H.modelled → (first : _) (w : HostModel)
        → Stands first (H.live host.old) start way.old.stack.items
        → Walked first w (H.model host.old) start way.old.stack.items
        → Comes (begin first w start) (course_of aim.now has_slash)
        (way_of (H.model host.old) way.old)
        (way_of (H.model host.new) way.new) (H.lookups host.old) (H.lookups host.new) result }
{
    let mut slash = has_slash;
    for links in 0..MAX_SYMLINK_EXPANSIONS {
        match reach(host, start, way, aim, slash) {
            Ok(Reach::Found(found)) => return Ok(found),
            Ok(Reach::Link(name)) => {
                let here = top_of(start, &way.stack);
                slash = read_link(texts, alloc, host, here, name, &mut way.left, slash)?;
            }
            Err(e) => return Err(e),
        }
    }
    match reach(host, start, way, aim, slash) {
        Ok(Reach::Found(found)) => Ok(found),
        Ok(Reach::Link(_name)) => Err(HostError::Code(ErrorCode::Loop)),
        Err(e) => Err(e),
    }
}

/// Whether a path is the empty text.
pub(crate) fn is_empty(path: &str) -> bool
    ensures { result ≡ is_empty path.now }
{
    path.is_empty()
}

/// The walk of a path from a start, which keeps the texts of its links in an arena.
pub(crate) fn walk<'p, H: Host>(
    texts: &'p Bump,
    alloc: Global,
    host: &mut H,
    start: Handle,
    path: &'p str,
    aim: &Aim,
) -> Result<Found, HostError>
    requires { contains (H.live host.old) start ≡ true }
    ensures cause { HasCause (H.faults host.old) (H.faults host.new) result }
    ensures live { LiveWith (H.live host.old) (handle_found result) (H.live host.new) }
    ensures for_aim { FoundOf aim.now result }
    ensures provenance { HasProvenance (Only start) Nothing (IsGot (handle_found result)) (H.lookups host.old) (H.lookups host.new) }
    ensures last { IsLast (handle_found result) (H.lookups host.new) }
    ensures links { links_read (H.lookups host.new) ≤ links_read (H.lookups host.old) + 40 }
    ensures modelled { IsTrue H.modelled → Resolved (H.live host.old) (H.model host.old) (H.model host.new)
        (meant_at (H.model host.old).tree (aim_of aim.now) ((H.model host.old).held start).node
        (walk (H.model host.old).tree ((H.model host.old).held start).node path.now (aim_of aim.now)
        (aim_follows aim.now)).outcome)
        (shown_found (H.model host.new).held) result }
    ensures bound { IsTrue H.modelled → length (H.lookups host.new) ≤ length (H.lookups host.old)
        + walk_looks (walk (H.model host.old).tree ((H.model host.old).held start).node path.now (aim_of aim.now)
        (aim_follows aim.now)) }
{
    if is_empty(path) {
        return Err(HostError::Code(ErrorCode::NoEntry));
    }
    let stack = Vec::new(alloc);
    let left = Vec::new(alloc);
    let mut way = Way { stack, left };
    put_parts(&mut way.left, path)?;
    let slash = path_has_trailing_slash(path);
    let found = along(texts, alloc, host, start, &mut way, aim, slash);
    close_all(host, start, &mut way.stack);
    found
}

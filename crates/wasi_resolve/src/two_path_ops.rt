//! The calls of the resolver that end at two places.
ghost use Rattle.std.specs.Prelude.{◌≡◌, ◌≤◌, ◌+◌, true, IsTrue, IfOk, OnErr, length};
ghost use Rattle.std.specs.FinSet.{contains};
ghost use Rattle.wasi_host.specs.HostLaws.{HasCause};
ghost use Rattle.wasi_host.specs.Provenance.{HasProvenance, OneOf, Nothing};
ghost use Rattle.wasi_paths.specs.Parts.{strip_dir_suffix};
ghost use Rattle.wasi_resolve.specs.TwoPathOps.{HardLink, Rename, asks_directory};
ghost use Rattle.wasi_resolve.specs.Parents.{directory_of, parent_looks, released};
ghost use Rattle.wasi_resolve.specs.PathRequest.{AtTwo, meant_by};
ghost use Rattle.wasi_resolve.specs.Resolved.{links_read, Resolved};
ghost use Rattle.wasi_resolve.specs.TwoParents.{both_at, both_released, shown_places, TracedBoth};
ghost use Rattle.wasi_resolve.specs.WalkSteps.{ModelStays};

use crate::parent::{MaybeOwned, Parent, open_parent};
use std::alloc::Global;
use wasi_host::{Handle, Host, HostError};
use wasi_paths::{path_has_trailing_slash, strip_dir_suffix};

/// Gives the file or link at the place that the old path names below one start directory a further name, at the place
/// that the new path names below another: the crate's `hard_link`, as POSIX's `linkat` without its flag. A link itself
/// gets the name, not what it leads to. A path that ends in `/`, `.` or `..` names a directory, so that such an
/// old one is NotPermitted at the end, and such a new one Exist. Refusals: those of the walk to the old name's
/// directory, NoEntry of the empty old path, then the same of the new path, then those of the host's `link_at`.
///
/// Memory is taken as the walks take it. Where it is wanted, the tree and the live handles are as before.
pub fn hard_link<H: Host>(
    alloc: Global,
    host: &mut H,
    old: Handle,
    old_path: &str,
    new: Handle,
    new_path: &str,
) -> Result<(), HostError>
    requires old { contains (H.live host.old) old ≡ true }
    requires new { contains (H.live host.old) new ≡ true }
    ensures cause { HasCause (H.faults host.old) (H.faults host.new) result }
    ensures live { H.live host.new ≡ H.live host.old }
    ensures provenance { HasProvenance (OneOf old new) Nothing Nothing (H.lookups host.old) (H.lookups host.new) }
    ensures links { links_read (H.lookups host.new) ≤ links_read (H.lookups host.old) + 80 }
    ensures modelled { IsTrue H.modelled → Resolved (H.live host.old) (H.model host.old) (H.model host.new)
        (meant_by (H.model host.old).tree (AtTwo ((H.model host.old).held old).node old_path.now
        ((H.model host.old).held new).node new_path.now HardLink))
        (λ unit. unit) result }
    ensures bound { IsTrue H.modelled → length (H.lookups host.new) ≤ length (H.lookups host.old)
        + parent_looks (H.model host.old).tree ((H.model host.old).held old).node old_path.now
        + parent_looks (H.model host.old).tree ((H.model host.old).held new).node new_path.now + 2 }
{
    let TwoParents { old: from, new: to } = match open_both(
        alloc, host, old, old_path, new, new_path,
    ) {
        Ok(both) => both,
        Err(e) => return Err(e),
    };
    let linked = host.link_at(
        from.directory.handle(),
        from.name,
        to.directory.handle(),
        to.name,
    );
    release_both(host, from.directory, to.directory);
    linked
}

/// Moves what the place holds that the old path names below one start directory to the place that the new path names
/// below another: the crate's `rename`. Slashes after either name are removed, and then a directory is asked for. What
/// the new place held loses its name; where both places hold one node, all stays as it is. A path that then ends in `.`
/// or `..` is Busy. Refusals: those of the walk to the old name's directory, NoEntry of the empty old path, then the
/// same of the new path, then those of the host's `rename_at`, which moves nothing into itself or below.
///
/// Memory is taken as the walks take it. Where it is wanted, the tree and the live handles are as before.
pub fn rename<H: Host>(
    alloc: Global,
    host: &mut H,
    old: Handle,
    old_path: &str,
    new: Handle,
    new_path: &str,
) -> Result<(), HostError>
    requires old { contains (H.live host.old) old ≡ true }
    requires new { contains (H.live host.old) new ≡ true }
    ensures cause { HasCause (H.faults host.old) (H.faults host.new) result }
    ensures live { H.live host.new ≡ H.live host.old }
    ensures provenance { HasProvenance (OneOf old new) Nothing Nothing (H.lookups host.old) (H.lookups host.new) }
    ensures links { links_read (H.lookups host.new) ≤ links_read (H.lookups host.old) + 80 }
    ensures modelled { IsTrue H.modelled → Resolved (H.live host.old) (H.model host.old) (H.model host.new)
        (meant_by (H.model host.old).tree (AtTwo ((H.model host.old).held old).node old_path.now
        ((H.model host.old).held new).node new_path.now Rename))
        (λ unit. unit) result }
    ensures bound { IsTrue H.modelled → length (H.lookups host.new) ≤ length (H.lookups host.old)
        + parent_looks (H.model host.old).tree ((H.model host.old).held old).node (strip_dir_suffix old_path.now)
        + parent_looks (H.model host.old).tree ((H.model host.old).held new).node (strip_dir_suffix new_path.now) + 2 }
{
    let requires_dir = asks_directory(old_path, new_path);
    let TwoParents { old: from, new: to } = match open_both(
        alloc,
        host,
        old,
        strip_dir_suffix(old_path),
        new,
        strip_dir_suffix(new_path),
    ) {
        Ok(both) => both,
        Err(e) => return Err(e),
    };
    let moved = host.rename_at(
        from.directory.handle(),
        from.name,
        to.directory.handle(),
        to.name,
        requires_dir,
    );
    release_both(host, from.directory, to.directory);
    moved
}

/// Whether a slash after either name asks for a directory.
fn asks_directory(old_path: &str, new_path: &str) -> bool
    ensures { result ≡ asks_directory old_path.now new_path.now }
{
    path_has_trailing_slash(old_path) || path_has_trailing_slash(new_path)
}

/// The places of both paths.
#[derive(Clone, Copy, Debug, PartialEq, Eq)]
struct TwoParents<'a, 'b> {
    old: Parent<'a>,
    new: Parent<'b>,
}

/// Closes two directories, as far as they were opened: the second one comes first.
fn release_both<H: Host>(host: &mut H, first: MaybeOwned, second: MaybeOwned)
    requires second { contains (H.live host.old) (directory_of second) ≡ true }
    requires first { contains (released (H.live host.old) second) (directory_of first) ≡ true }
    ensures faults { H.faults host.new ≡ H.faults host.old }
    ensures live { H.live host.new ≡ both_released (H.live host.old) first second }
    ensures logged { H.lookups host.new ≡ H.lookups host.old }
    ensures modelled { IsTrue H.modelled
        → ModelStays (both_released (H.live host.old) first second) (H.model host.old) (H.model host.new) }
{
    second.release(host);
    first.release(host);
}

/// The place of the old path, and then that of the new one. Where the new one is refused, the old one's directory is
/// closed again.
#[tactic(auto, using(wasi_host::proofs::Chain::live_rules))]
fn open_both<'a, 'b, H: Host>(
    alloc: Global,
    host: &mut H,
    old: Handle,
    old_path: &'a str,
    new: Handle,
    new_path: &'b str,
) -> Result<TwoParents<'a, 'b>, HostError>
    requires old { contains (H.live host.old) old ≡ true }
    requires new { contains (H.live host.old) new ≡ true }
    ensures cause { HasCause (H.faults host.old) (H.faults host.new) result }
    ensures live { OnErr result (H.live host.new ≡ H.live host.old) }
    ensures held_old { IfOk result (λ both. contains (H.live host.new) (directory_of both.old.directory) ≡ true) }
    ensures held_new { IfOk result (λ both. contains (H.live host.new) (directory_of both.new.directory) ≡ true) }
    ensures stays { IfOk result (λ both. contains (released (H.live host.new) both.new.directory)
        (directory_of both.old.directory) ≡ true) }
    ensures closes { IfOk result (λ both. both_released (H.live host.new) both.old.directory both.new.directory
        ≡ H.live host.old) }
    ensures provenance { TracedBoth old new result (H.lookups host.old) (H.lookups host.new) }
    ensures links { links_read (H.lookups host.new) ≤ links_read (H.lookups host.old) + 80 }
    ensures modelled { IsTrue H.modelled → Resolved (H.live host.old) (H.model host.old) (H.model host.new)
        (both_at (H.model host.old).tree ((H.model host.old).held old).node old_path.entry.now
        ((H.model host.old).held new).node new_path.entry.now)
        (shown_places (H.model host.new).held) result }
    ensures bound { IsTrue H.modelled → length (H.lookups host.new) ≤ length (H.lookups host.old)
        + parent_looks (H.model host.old).tree ((H.model host.old).held old).node old_path.entry.now
        + parent_looks (H.model host.old).tree ((H.model host.old).held new).node new_path.entry.now }
{
    let first = match open_parent(alloc, host, old, old_path) {
        Ok(first) => first,
        Err(e) => return Err(e),
    };
    match open_parent(alloc, host, new, new_path) {
        Ok(second) => Ok(TwoParents {
            old: first,
            new: second,
        }),
        Err(e) => {
            first.directory.release(host);
            Err(e)
        }
    }
}

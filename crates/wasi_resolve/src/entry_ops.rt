//! The calls of the resolver that end at a place: a name in the directory that a path leads to.
ghost use Rattle.std.specs.Prelude.{◌≡◌, ◌≤◌, ◌+◌, ◌*◌, ◌<◌, true, false, IsTrue, IfOk, Ok, Err, length};
ghost use Rattle.std.specs.FinSet.{contains};
ghost use Rattle.std.specs.String.{string_bytes};
ghost use Rattle.wasi_host.specs.HostLaws.{HasCause};
ghost use Rattle.wasi_host.specs.Provenance.{HasProvenance, Only, Nothing};
ghost use Rattle.wasi_host.specs.Numbers.{longest_link};
ghost use Rattle.wasi_host.specs.declared.errors.ErrorCode.TheVariants as codes;
ghost use Rattle.wasi_host.specs.declared.errors.HostError.TheVariants.{Code};
ghost use Rattle.wasi_paths.specs.Name.{name_bytes};
ghost use Rattle.wasi_paths.specs.Parts.{has_root, strip_dir_suffix};
ghost use Rattle.wasi_resolve.specs.Parents.{parent_looks};
ghost use Rattle.wasi_resolve.specs.Resolved.{links_read, Resolved};
ghost use Rattle.wasi_resolve.specs.Finding.{FewReads};
ghost use Rattle.wasi_resolve.specs.Change.{change_call, change_done};
ghost use Rattle.wasi_resolve.specs.Paths.{place};
ghost use Rattle.wasi_resolve.specs.EntryOps.{CreateDir, RemoveFile, RemoveDir, Symlink, ReadLink, SetTimes, done_in, does_at};

use crate::parent::open_parent;
use std::alloc::Global;
use wasi_host::{ErrorCode, Handle, Host, HostError, SystemTime};
use wasi_paths::{Name, has_root, strip_dir_suffix};

/// Makes an empty directory at the place that a path names below a start directory: the crate's `create_dir` of
/// `manually`. Slashes after the name are removed, as POSIX's `mkdir` does. Refusals: those of the walk to the name's
/// directory, NoEntry of the empty path, then those of the host's `make_dir_at`, Exist where the path ends in `.` or
/// `..` among them.
///
/// Memory is taken as the walk takes it. Where it is wanted, the tree and the live handles are as before.
pub fn create_dir<H: Host>(
    alloc: Global,
    host: &mut H,
    start: Handle,
    path: &str,
) -> Result<(), HostError>
    requires live { contains (H.live host.old) start ≡ true }
    ensures cause { HasCause (H.faults host.old) (H.faults host.new) result }
    ensures live { H.live host.new ≡ H.live host.old }
    ensures provenance { HasProvenance (Only start) Nothing Nothing (H.lookups host.old) (H.lookups host.new) }
    ensures links { links_read (H.lookups host.new) ≤ links_read (H.lookups host.old) + 40 }
    ensures modelled { IsTrue H.modelled → Resolved (H.live host.old) (H.model host.old) (H.model host.new)
        (does_at (H.model host.old).tree ((H.model host.old).held start).node path.now CreateDir)
        (λ unit. unit) result }
    ensures bound { IsTrue H.modelled → length (H.lookups host.new) ≤ length (H.lookups host.old)
        + parent_looks (H.model host.old).tree ((H.model host.old).held start).node (strip_dir_suffix path.now) + 1 }
{
    change_at(
        alloc,
        host,
        start,
        strip_dir_suffix(path),
        &Change::CreateDir,
    )
}

/// Drops the name of a file or link at the place that a path names below a start directory; the link itself is
/// dropped, not what it leads to: the crate's `remove_file`. Refusals: those of the walk to the name's directory,
/// NoEntry of the empty path, then those of the host's `unlink_at`. A path with a slash after its last name names a
/// directory, and is refused so.
pub fn remove_file<H: Host>(
    alloc: Global,
    host: &mut H,
    start: Handle,
    path: &str,
) -> Result<(), HostError>
    requires live { contains (H.live host.old) start ≡ true }
    ensures cause { HasCause (H.faults host.old) (H.faults host.new) result }
    ensures live { H.live host.new ≡ H.live host.old }
    ensures provenance { HasProvenance (Only start) Nothing Nothing (H.lookups host.old) (H.lookups host.new) }
    ensures links { links_read (H.lookups host.new) ≤ links_read (H.lookups host.old) + 40 }
    ensures modelled { IsTrue H.modelled → Resolved (H.live host.old) (H.model host.old) (H.model host.new)
        (does_at (H.model host.old).tree ((H.model host.old).held start).node path.now RemoveFile)
        (λ unit. unit) result }
    ensures bound { IsTrue H.modelled → length (H.lookups host.new) ≤ length (H.lookups host.old)
        + parent_looks (H.model host.old).tree ((H.model host.old).held start).node path.now + 1 }
{
    change_at(alloc, host, start, path, &Change::RemoveFile)
}

/// Drops an empty directory at the place that a path names below a start directory: the crate's `remove_dir`. A handle
/// may still refer to it, but it takes no name any more. Refusals: those of the walk to the name's directory, NoEntry
/// of the empty path, then those of the host's `remove_dir_at`; a path that ends in `/`, `.` or `..` is Invalid, as its
/// place is `.`.
pub fn remove_dir<H: Host>(
    alloc: Global,
    host: &mut H,
    start: Handle,
    path: &str,
) -> Result<(), HostError>
    requires live { contains (H.live host.old) start ≡ true }
    ensures cause { HasCause (H.faults host.old) (H.faults host.new) result }
    ensures live { H.live host.new ≡ H.live host.old }
    ensures provenance { HasProvenance (Only start) Nothing Nothing (H.lookups host.old) (H.lookups host.new) }
    ensures links { links_read (H.lookups host.new) ≤ links_read (H.lookups host.old) + 40 }
    ensures modelled { IsTrue H.modelled → Resolved (H.live host.old) (H.model host.old) (H.model host.new)
        (does_at (H.model host.old).tree ((H.model host.old).held start).node path.now RemoveDir)
        (λ unit. unit) result }
    ensures bound { IsTrue H.modelled → length (H.lookups host.new) ≤ length (H.lookups host.old)
        + parent_looks (H.model host.old).tree ((H.model host.old).held start).node path.now + 1 }
{
    change_at(alloc, host, start, path, &Change::RemoveDir)
}

/// Makes a link of this text at the place that a path names below a start directory: the crate's `symlink`. A text with
/// a root is refused NotPermitted before anything is asked of the host. Then come the refusals of the walk to the
/// name's directory, NoEntry of the empty path, and those of the host's `symlink_at`. Nothing need be where the text
/// leads.
pub fn symlink<H: Host>(
    alloc: Global,
    host: &mut H,
    target: &str,
    start: Handle,
    path: &str,
) -> Result<(), HostError>
    requires live { contains (H.live host.old) start ≡ true }
    ensures cause { HasCause (H.faults host.old) (H.faults host.new) result }
    ensures live { H.live host.new ≡ H.live host.old }
    ensures provenance { HasProvenance (Only start) Nothing Nothing (H.lookups host.old) (H.lookups host.new) }
    ensures links { links_read (H.lookups host.new) ≤ links_read (H.lookups host.old) + 40 }
    ensures rooted { has_root target.now ≡ true
        → (result ≡ Err (Code codes.NotPermitted)) × (host.new ≡ host.old) }
    ensures modelled { IsTrue H.modelled → has_root target.now ≡ false
        → Resolved (H.live host.old) (H.model host.old) (H.model host.new)
        (does_at (H.model host.old).tree ((H.model host.old).held start).node path.now (Symlink target.now))
        (λ unit. unit) result }
    ensures bound { IsTrue H.modelled → length (H.lookups host.new) ≤ length (H.lookups host.old)
        + parent_looks (H.model host.old).tree ((H.model host.old).held start).node path.now + 1 }
{
    if has_root(target) {
        return Err(HostError::Code(ErrorCode::NotPermitted));
    }
    change_at(alloc, host, start, path, &Change::Symlink(target))
}

/// Sets the given times of what the place holds that a path names below a start directory, that of its last read and
/// that of its last change: the crate's `set_times_nofollow`. One that isn't given stays. A link's times are its own,
/// unless a slash stands after it: then the place is `.` in the directory that it leads to. Refusals: those of the
/// walk to the name's directory, NoEntry of the empty path, then those of the host's `times_at`.
pub fn set_times_nofollow<H: Host>(
    alloc: Global,
    host: &mut H,
    start: Handle,
    path: &str,
    atime: Option<SystemTime>,
    mtime: Option<SystemTime>,
) -> Result<(), HostError>
    requires live { contains (H.live host.old) start ≡ true }
    ensures cause { HasCause (H.faults host.old) (H.faults host.new) result }
    ensures live { H.live host.new ≡ H.live host.old }
    ensures provenance { HasProvenance (Only start) Nothing Nothing (H.lookups host.old) (H.lookups host.new) }
    ensures links { links_read (H.lookups host.new) ≤ links_read (H.lookups host.old) + 40 }
    ensures modelled { IsTrue H.modelled → Resolved (H.live host.old) (H.model host.old) (H.model host.new)
        (does_at (H.model host.old).tree ((H.model host.old).held start).node path.now (SetTimes atime mtime))
        (λ unit. unit) result }
    ensures bound { IsTrue H.modelled → length (H.lookups host.new) ≤ length (H.lookups host.old)
        + parent_looks (H.model host.old).tree ((H.model host.old).held start).node path.now + 1 }
{
    change_at(alloc, host, start, path, &Change::SetTimes(atime, mtime))
}

/// What one call of the host changes at a place. It answers nothing but that it was done.
#[derive(Clone, Copy, Debug)]
enum Change<'a> {
    CreateDir,
    RemoveFile,
    RemoveDir,
    /// A link of this text is made.
    Symlink(&'a str),
    /// These times are set: that of the last read, and that of the last change.
    SetTimes(Option<SystemTime>, Option<SystemTime>),
}

/// Changes what a name holds in a directory.
fn change_in<H: Host>(
    host: &mut H,
    directory: Handle,
    name: Name<'_>,
    change: &Change<'_>,
) -> Result<(), HostError>
    requires { contains (H.live host.old) directory ≡ true }
    ensures cause { HasCause (H.faults host.old) (H.faults host.new) result }
    ensures live { H.live host.new ≡ H.live host.old }
    ensures provenance { HasProvenance (Only directory) Nothing Nothing (H.lookups host.old) (H.lookups host.new) }
    ensures reads { FewReads 1 0 (H.lookups host.old) (H.lookups host.new) }
    ensures modelled { IsTrue H.modelled → Resolved (H.live host.old) (H.model host.old) (H.model host.new)
        (done_in (H.model host.old).tree ((H.model host.old).held directory).node
        (Ok (record { directory = ((H.model host.old).held directory).node; name = name_bytes name.entry }))
        (change_call change.now))
        (change_done change.now) result }
{
    match change {
        Change::CreateDir => host.make_dir_at(directory, name),
        Change::RemoveFile => host.unlink_at(directory, name),
        Change::RemoveDir => host.remove_dir_at(directory, name),
        Change::Symlink(text) => host.symlink_at(text, directory, name),
        Change::SetTimes(atime, mtime) => host.times_at(directory, name, *atime, *mtime),
    }
}

/// Changes what stands at the place that a path names below a start directory.
fn change_at<H: Host>(
    alloc: Global,
    host: &mut H,
    start: Handle,
    path: &str,
    change: &Change<'_>,
) -> Result<(), HostError>
    requires live { contains (H.live host.old) start ≡ true }
    ensures cause { HasCause (H.faults host.old) (H.faults host.new) result }
    ensures live { H.live host.new ≡ H.live host.old }
    ensures provenance { HasProvenance (Only start) Nothing Nothing (H.lookups host.old) (H.lookups host.new) }
    ensures links { links_read (H.lookups host.new) ≤ links_read (H.lookups host.old) + 40 }
    ensures modelled { IsTrue H.modelled → Resolved (H.live host.old) (H.model host.old) (H.model host.new)
        (done_in (H.model host.old).tree ((H.model host.old).held start).node
        (place (H.model host.old).tree ((H.model host.old).held start).node path.now) (change_call change.now))
        (change_done change.now) result }
    ensures bound { IsTrue H.modelled → length (H.lookups host.new) ≤ length (H.lookups host.old)
        + parent_looks (H.model host.old).tree ((H.model host.old).held start).node path.now + 1 }
{
    let place = match open_parent(alloc, host, start, path) {
        Ok(place) => place,
        Err(e) => return Err(e),
    };
    let done = change_in(host, place.directory.handle(), place.name, change);
    place.directory.release(host);
    done
}

/// The text of the link at the place that a path names below a start directory: the crate's `read_link`. The link
/// itself is read, whatever its text leads to. Refusals: those of the walk to the name's directory, NoEntry of the
/// empty path, those of the host's `read_link_at`, and NotPermitted where the text has a root.
pub fn read_link<H: Host>(
    alloc: Global,
    host: &mut H,
    start: Handle,
    path: &str,
) -> Result<String, HostError>
    requires live { contains (H.live host.old) start ≡ true }
    ensures cause { HasCause (H.faults host.old) (H.faults host.new) result }
    ensures live { H.live host.new ≡ H.live host.old }
    ensures provenance { HasProvenance (Only start) Nothing Nothing (H.lookups host.old) (H.lookups host.new) }
    ensures links { links_read (H.lookups host.new) ≤ links_read (H.lookups host.old) + 41 }
    ensures some { IfOk result (λ text. 0 < length (string_bytes text)) }
    ensures most { IfOk result (λ text. length (string_bytes text) ≤ longest_link) }
    ensures unrooted { IfOk result (λ text. has_root (string_bytes text) ≡ false) }
    ensures modelled { IsTrue H.modelled → Resolved (H.live host.old) (H.model host.old) (H.model host.new)
        (does_at (H.model host.old).tree ((H.model host.old).held start).node path.now ReadLink)
        (λ text. string_bytes text) result }
    ensures bound { IsTrue H.modelled → length (H.lookups host.new) ≤ length (H.lookups host.old)
        + parent_looks (H.model host.old).tree ((H.model host.old).held start).node path.now + 1 }
{
    let place = match open_parent(alloc, host, start, path) {
        Ok(place) => place,
        Err(e) => return Err(e),
    };
    let text = unrooted_link_at(alloc, host, place.directory.handle(), place.name);
    place.directory.release(host);
    text
}

/// The text of the link under a name in a directory. One that has a root isn't handed out.
fn unrooted_link_at<H: Host>(
    alloc: Global,
    host: &mut H,
    directory: Handle,
    name: Name<'_>,
) -> Result<String, HostError>
    requires { contains (H.live host.old) directory ≡ true }
    ensures cause { HasCause (H.faults host.old) (H.faults host.new) result }
    ensures live { H.live host.new ≡ H.live host.old }
    ensures provenance { HasProvenance (Only directory) Nothing Nothing (H.lookups host.old) (H.lookups host.new) }
    ensures reads { FewReads 1 1 (H.lookups host.old) (H.lookups host.new) }
    ensures some { IfOk result (λ text. 0 < length (string_bytes text)) }
    ensures most { IfOk result (λ text. length (string_bytes text) ≤ longest_link) }
    ensures unrooted { IfOk result (λ text. has_root (string_bytes text) ≡ false) }
    ensures modelled { IsTrue H.modelled → Resolved (H.live host.old) (H.model host.old) (H.model host.new)
        (done_in (H.model host.old).tree ((H.model host.old).held directory).node
        (Ok (record { directory = ((H.model host.old).held directory).node; name = name_bytes name.entry })) ReadLink)
        (λ text. string_bytes text) result }
{
    let text = host.read_link_at(alloc, directory, name)?;
    if has_root(text.as_str()) {
        return Err(HostError::Code(ErrorCode::NotPermitted));
    }
    Ok(text)
}

//! One name in a directory, as a walk meets it.
ghost use Rattle.std.specs.Prelude.{◌≡◌, ◌∷◌, ◌&&◌, ◌||◌, not, true, false, IsTrue, List};
ghost use Rattle.std.specs.FinSet.{contains};
ghost use Rattle.wasi_host.specs.HostLaws.{HasCause, HostModel};
ghost use Rattle.wasi_host.specs.Provenance.{HasProvenance, Only, Nothing};
ghost use Rattle.wasi_paths.specs.Text.{is_plain};
ghost use Rattle.wasi_paths.specs.Name.{name_bytes};
ghost use Rattle.wasi_paths.specs.Parts.{Component, Normal};
ghost use Rattle.wasi_resolve.specs.Walk.{middle_options, last_options};
ghost use Rattle.wasi_resolve.specs.Meanings.{follows};
ghost use Rattle.wasi_resolve.specs.Stack.{Stands, StillStands};
ghost use Rattle.wasi_resolve.specs.WalkState.{begin, way};
ghost use Rattle.wasi_resolve.specs.Finding.{course_of, StackTraced, LiveWith, IsGot, IsLast, FewReads, ReadsBy, ReadsOnce, is_loop, may_be_link, is_link_kind, is_directory_kind, FoundAs, handle_entered, handle_reached};
ghost use Rattle.wasi_resolve.specs.WalkSteps.{Walked, Enters, TakesPart, EndsAtName};

use crate::found::{Aim, Found, Reach, Stop};
use crate::name_left::NameLeft;
use crate::stack::top_of;
use wasi_host::{
    ErrorCode, FileType, FollowSymlinks, Handle, Host, HostError, OpenOptions, dir_options,
};
use wasi_paths::Name;

/// Whether an open was refused as that of a link is, of which no directory is required.
fn is_loop(refused: HostError) -> bool
    ensures { result ≡ is_loop refused }
{
    match refused {
        HostError::Code(ErrorCode::Loop) => true,
        HostError::Code(_) => false,
        HostError::Memory => false,
    }
}

/// Whether an open was refused as that of a link may be, of which a directory is required.
fn may_be_link(refused: HostError, dir_required: bool) -> bool
    ensures { result ≡ may_be_link refused dir_required }
{
    match refused {
        HostError::Code(ErrorCode::NotDirectory) => dir_required,
        HostError::Code(_) => false,
        HostError::Memory => false,
    }
}

/// Whether links are followed.
fn is_follow(follow: FollowSymlinks) -> bool
    ensures { result ≡ follows follow }
{
    match follow {
        FollowSymlinks::Yes => true,
        FollowSymlinks::No => false,
    }
}

/// Whether a last name that is a link is read.
fn reads_links(follow: FollowSymlinks, slash: bool) -> bool
    ensures { result ≡ (follows follow || slash) }
{
    is_follow(follow) || slash
}

fn is_link_kind(kind: FileType) -> bool
    ensures { result ≡ is_link_kind kind }
{
    kind.is_symlink()
}

fn is_directory_kind(kind: FileType) -> bool
    ensures { result ≡ is_directory_kind kind }
{
    kind.is_dir()
}

/// Whether what is looked at is a link that is to be read.
fn is_read(kind: FileType, may_read: bool) -> bool
    ensures { result ≡ (is_link_kind kind && may_read) }
{
    is_link_kind(kind) && may_read
}

/// Whether what is looked at isn't the directory that a slash after it requires.
fn is_no_directory(kind: FileType, slash: bool) -> bool
    ensures { result ≡ (slash && not (is_directory_kind kind)) }
{
    slash && !is_directory_kind(kind)
}

/// Opens a name. `None` is a link that is to be read, where links may be read. A name is a link's where the open is
/// refused Loop; or is refused NotDirectory, a directory is required, and a look says so. Where that look fails, that
/// is the answer.
pub(crate) fn open_or_link<H: Host>(
    host: &mut H,
    here: Handle,
    name: Name<'_>,
    options: &OpenOptions,
    may_read: bool,
) -> Result<Option<Handle>, HostError>
    requires live { contains (H.live host.old) here ≡ true }
    requires plain { IsTrue (is_plain (name_bytes name)) }
    ensures cause { HasCause (H.faults host.old) (H.faults host.new) result }
    ensures live { LiveWith (H.live host.old) (handle_entered result) (H.live host.new) }
    ensures provenance { HasProvenance (Only here) Nothing (IsGot (handle_entered result)) (H.lookups host.old) (H.lookups host.new) }
    ensures last { IsLast (handle_entered result) (H.lookups host.new) }
    ensures reads { ReadsOnce (H.lookups host.old) (H.lookups host.new) result }
    ensures once { options.now.dir_required ≡ false → FewReads 1 0 (H.lookups host.old) (H.lookups host.new) }
    ensures modelled { IsTrue H.modelled → Enters (H.live host.old) (H.model host.old) (H.model host.new)
        ((H.model host.old).held here).node (name_bytes name.entry) options.now may_read result }
{
    let refused = match host.open_at(here, name, options) {
        Ok(handle) => return Ok(Some(handle)),
        Err(refused) => refused,
    };
    if is_loop(refused) {
        if !may_read {
            return Err(refused);
        }
        return Ok(None);
    }
    if !may_be_link(refused, options.is_dir_required()) {
        return Err(refused);
    }
    let kind = match host.stat_at(here, name) {
        Ok(metadata) => metadata.kind,
        Err(failed) => return Err(failed),
    };
    if !is_read(kind, may_read) {
        return Err(refused);
    }
    Ok(None)
}

/// What a name that isn't the last part is opened with: a directory for its path alone, and links not followed.
fn middle_options() -> OpenOptions
    ensures { result ≡ middle_options }
{
    let mut options = dir_options();
    options.follow(FollowSymlinks::No);
    options
}

/// What a last name is opened with: a directory is required after a slash, and links aren't followed.
fn last_options(options: &OpenOptions, slash: bool) -> OpenOptions
    ensures { result ≡ last_options options.now slash }
{
    let mut last = *options;
    last.dir_required(options.is_dir_required() || slash);
    last.follow(FollowSymlinks::No);
    last
}

/// A name that isn't the last part: the walk goes down into its directory, or stops at a link. Room for the handle is
/// taken before the host is asked.
pub(crate) fn go_down<'p, H: Host>(
    host: &mut H,
    start: Handle,
    stack: &mut Vec<Handle>,
    name: NameLeft<'p>,
) -> Result<Option<Stop<'p>>, HostError>
    requires { (first : _) × Stands first (H.live host.old) start stack.old.items }
    ensures cause { HasCause (H.faults host.old) (H.faults host.new) result }
    ensures stands { StillStands start (H.live host.old) stack.old.items (H.live host.new) stack.new.items }
    ensures provenance { StackTraced start stack.old.items stack.new.items (H.lookups host.old) (H.lookups host.new) }
    ensures reads { ReadsBy (H.lookups host.old) (H.lookups host.new) result }
    ensures modelled { IsTrue H.modelled → (first : _) (w : HostModel) (next : Component) (rest : List Component)
        → Stands first (H.live host.old) start stack.old.items
        → Walked first w (H.model host.old) start stack.old.items
        → TakesPart (begin first w start)
        (way (H.model host.old) stack.old.items (Normal name.entry.text.now ∷ next ∷ rest))
        (way (H.model host.new) stack.new.items (next ∷ rest)) result }
{
    stack.reserve(1)?;
    let here = top_of(start, stack);
    match open_or_link(host, here, name.name(), &middle_options(), true) {
        Ok(Some(handle)) => {
            stack.push_reserved(handle);
            Ok(None)
        }
        Ok(None) => Ok(Some(Stop::Link(name))),
        Err(e) => Err(e),
    }
}

/// The last name, of which an open or a look is asked.
pub(crate) fn at_last<'p, H: Host>(
    host: &mut H,
    here: Handle,
    name: NameLeft<'p>,
    aim: &Aim,
    slash: bool,
) -> Result<Reach<'p>, HostError>
    requires { contains (H.live host.old) here ≡ true }
    ensures cause { HasCause (H.faults host.old) (H.faults host.new) result }
    ensures live { LiveWith (H.live host.old) (handle_reached result) (H.live host.new) }
    ensures for_aim { FoundAs aim.now result }
    ensures provenance { HasProvenance (Only here) Nothing (IsGot (handle_reached result)) (H.lookups host.old) (H.lookups host.new) }
    ensures last { IsLast (handle_reached result) (H.lookups host.new) }
    ensures reads { FewReads 2 0 (H.lookups host.old) (H.lookups host.new) }
    ensures modelled { IsTrue H.modelled → EndsAtName (H.live host.old) (H.model host.old) (H.model host.new)
        ((H.model host.old).held here).node (course_of aim.now slash) name.entry.text.now result }
{
    match aim {
        Aim::Open(options) => {
            let last = last_options(options, slash);
            let may_read = reads_links(options.is_follow(), slash);
            match open_or_link(host, here, name.name(), &last, may_read) {
                Ok(Some(handle)) => Ok(Reach::Found(Found::Handle(handle))),
                Ok(None) => Ok(Reach::Link(name)),
                Err(e) => Err(e),
            }
        }
        Aim::Look(follow) => {
            let metadata = host.stat_at(here, name.name())?;
            if is_read(metadata.kind, reads_links(*follow, slash)) {
                return Ok(Reach::Link(name));
            }
            if is_no_directory(metadata.kind, slash) {
                return Err(HostError::Code(ErrorCode::NotDirectory));
            }
            Ok(Reach::Found(Found::Metadata(metadata)))
        }
    }
}

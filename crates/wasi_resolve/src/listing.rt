//! The call of the resolver that lists a directory.
ghost use Rattle.std.specs.Prelude.{◌≡◌, ◌≤◌, ◌+◌, true, All, IsTrue, IfOk, map, length};
ghost use Rattle.std.specs.FinSet.{contains};
ghost use Rattle.wasi_paths.specs.Text.{is_entry_name};
ghost use Rattle.wasi_host.specs.Answer.{entry_of};
ghost use Rattle.wasi_host.specs.HostLaws.{HasCause};
ghost use Rattle.wasi_host.specs.Provenance.{HasProvenance, Only, Nothing};
ghost use Rattle.wasi_resolve.specs.Meanings.{lists_at, listing_options};
ghost use Rattle.wasi_resolve.specs.Resolved.{Resolved};

use std::alloc::Global;
use wasi_host::{DirEntry, FollowSymlinks, Handle, Host, HostError, OpenOptions, readdir_options};
use wasi_paths::Name;

/// All names of a directory but `.` and `..`, in byte order, each with the kind of the node that it holds, a link's
/// own: the crate's `read_dir`. A name has 1 to 255 bytes, no slash and no NUL. The directory is opened again for
/// listing, so it needs its read and search bits, whatever its handle was opened for. Refusals: those of the host's
/// `open_at` of `.`, asked to read and list a directory, then those of its `list`.
///
/// Memory is taken by the length of the listing. Where it is wanted, the tree and the live handles are as before.
#[tactic(auto, using(wasi_host::proofs::Chain::live_rules))]
pub fn read_dir<H: Host>(
    alloc: Global,
    host: &mut H,
    directory: Handle,
) -> Result<Vec<DirEntry>, HostError>
    requires live { contains (H.live host.old) directory ≡ true }
    ensures cause { HasCause (H.faults host.old) (H.faults host.new) result }
    ensures live { H.live host.new ≡ H.live host.old }
    ensures provenance { HasProvenance (Only directory) Nothing Nothing (H.lookups host.old) (H.lookups host.new) }
    ensures names { IfOk result (λ entries. All (λ entry. IsTrue (is_entry_name entry.0)) (map entry_of entries.items)) }
    ensures modelled { IsTrue H.modelled → Resolved (H.live host.old) (H.model host.old) (H.model host.new)
        (lists_at (H.model host.old).tree ((H.model host.old).held directory).node)
        (λ entries. map entry_of entries.items) result }
    ensures bound { length (H.lookups host.new) ≤ length (H.lookups host.old) + 2 }
{
    let listed = match host.open_at(directory, Name::dot(), &listing_options()) {
        Ok(listed) => listed,
        Err(e) => return Err(e),
    };
    let entries = host.list(alloc, listed);
    host.close(listed);
    entries
}

/// What a directory that is to be listed is opened with.
fn listing_options() -> OpenOptions
    ensures { result ≡ listing_options }
{
    let mut options = readdir_options();
    options.follow(FollowSymlinks::No);
    options
}

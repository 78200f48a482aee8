//! A directory's listing, and its pages in a guest's memory.
ghost use Rattle.std.specs.Prelude.{◌≡◌, ◌+◌, ◌≤◌, true, false, IsTrue, IfOk, IfErr, OnErr, All, map, length, take, min};
ghost use Rattle.std.specs.FinSet.{contains};
ghost use Rattle.std.specs.String.{string_bytes};
ghost use Rattle.wasi_guest.specs.Range.{with_bytes, IsInMemory};
ghost use Rattle.wasi_host.specs.Answer.{entry_of};
ghost use Rattle.wasi_host.specs.Provenance.{HasProvenance, Only, Nothing};
ghost use Rattle.wasi_host.specs.HostLaws.{HasCause};
ghost use Rattle.wasi_host.specs.declared.file_type.FileType.TheVariants.{Directory};
ghost use Rattle.wasi_resolve.specs.Resolved.{Resolved};
ghost use Rattle.wasi_p1_types.specs.CallParts.{WantsNoMemory, is_failure, with_after};
ghost use Rattle.wasi_p1_model.specs.EntriesSeen.{entry_seen, entries_seen, reads_from, numbered_behind, IsListed};
ghost use Rattle.wasi_p1_types.specs.Listing.{dots, numbered_at, HasShortNames};
ghost use Rattle.wasi_p1_model.specs.Pages.{dirent_of, record_of, page};
ghost use Rattle.wasi_p1_types.specs.SpecParts.{text_to};
ghost use Rattle.wasi_p1_types.specs.Request.{ListDirectory, meant_of};

use std::alloc::{AllocError, Global};
use wasi_fs::{DescriptorType, Dir};
use wasi_guest::{Dirent, write_bytes};
use wasi_host::{DirEntry, FileType, Host, HostError};
use wasi_p1_types::{Entry, P1Error, bytes_at, filetype_of};
use wasi_paths::Name;

/// A name under which a directory lists itself.
fn dot(alloc: Global, name: &str, node: u64) -> Result<Entry, AllocError>
    ensures name { IfOk result (λ entry. string_bytes entry.name ≡ name.now) }
    ensures node { IfOk result (λ entry. entry.node ≡ node) }
    ensures kind { IfOk result (λ entry. entry.kind ≡ Directory) }
{
    let name = String::from_str(alloc, name)?;
    Ok(Entry {
        name,
        node,
        kind: FileType::Directory,
    })
}

/// The names under which a directory of this number lists itself: `.`, and `..`, since a guest is shown none above.
fn dots(alloc: Global, node: u64) -> Result<Vec<Entry>, AllocError>
    ensures { IfOk result (λ entries. entries_seen entries.items ≡ dots node) }
{
    let mut entries = Vec::with_capacity(alloc, 2)?;
    entries.push(dot(alloc, ".", node)?)?;
    entries.push(dot(alloc, "..", node)?)?;
    Ok(entries)
}

/// An entry with the number of its node. Its name is plain, so that it is looked at where it stands, as the resolver's
/// `stat` does; a link isn't followed. Refusals: those of the host's `stat_at`, as Access where the directory has no
/// search bit.
fn numbered<H: Host>(host: &mut H, dir: &Dir, entry: DirEntry) -> Result<Entry, HostError>
    requires live { contains (H.live host.old) dir.now.dir ≡ true }
    requires listed { IsListed entry }
    ensures cause { HasCause (H.faults host.old) (H.faults host.new) result }
    ensures live { H.live host.new ≡ H.live host.old }
    ensures provenance { HasProvenance (Only dir.now.dir) Nothing Nothing (H.lookups host.old) (H.lookups host.new) }
    ensures name { IfOk result (λ e. e.name ≡ entry.name) }
    ensures modelled { IsTrue H.modelled → Resolved (H.live host.old) (H.model host.old) (H.model host.new)
        (reads_from (H.model host.old).tree ((H.model host.old).held dir.now.dir).node
        (numbered_at (H.model host.old).tree ((H.model host.old).held dir.now.dir).node (entry_of entry)))
        entry_seen result }
{
    let Some(name) = Name::plain(entry.name.as_str()) else {
        unreachable!()
    };
    let metadata = host.stat_at(dir.dir, name)?;
    Ok(Entry {
        name: entry.name,
        node: metadata.ino(),
        kind: entry.kind,
    })
}

/// The names of a directory, which has this number, after `.` and `..`, each with the number of its node. Refusals:
/// those of the look at a name, the first that is refused.
fn all_numbered<H: Host>(
    alloc: Global,
    host: &mut H,
    dir: &Dir,
    node: u64,
    names: Vec<DirEntry>,
) -> Result<Vec<Entry>, HostError>
    requires live { contains (H.live host.old) dir.now.dir ≡ true }
    requires listed { All IsListed names.items }
    ensures cause { HasCause (H.faults host.old) (H.faults host.new) result }
    ensures live { H.live host.new ≡ H.live host.old }
    ensures provenance { HasProvenance (Only dir.now.dir) Nothing Nothing (H.lookups host.old) (H.lookups host.new) }
    ensures short { IfOk result (λ entries. HasShortNames (entries_seen entries.items)) }
    ensures modelled { IsTrue H.modelled → Resolved (H.live host.old) (H.model host.old) (H.model host.new)
        (reads_from (H.model host.old).tree ((H.model host.old).held dir.now.dir).node
        (numbered_behind (H.model host.old).tree ((H.model host.old).held dir.now.dir).node node (map entry_of names.items)))
        (λ entries. entries_seen entries.items) result }
{
    let mut entries = dots(alloc, node)?;
    for name in names {
        let entry = numbered(host, dir, name)?;
        entries.push(entry)?;
    }
    Ok(entries)
}

/// The listing of a directory: `.` and `..`, which both name the directory itself, and then its names in byte order.
/// The directory is opened again and listed, looked at, and then a look is had at each name. Refusals: those of the
/// resolver's `read_dir`, and then of its `stat` at a name. Memory is taken by the length of the listing; what was
/// opened is closed.
pub fn listing_of<H: Host>(alloc: Global, host: &mut H, dir: &Dir) -> Result<Vec<Entry>, HostError>
    requires live { contains (H.live host.old) dir.now.dir ≡ true }
    ensures cause { HasCause (H.faults host.old) (H.faults host.new) result }
    ensures live { H.live host.new ≡ H.live host.old }
    ensures provenance { HasProvenance (Only dir.now.dir) Nothing Nothing (H.lookups host.old) (H.lookups host.new) }
    ensures short { IfOk result (λ entries. HasShortNames (entries_seen entries.items)) }
    ensures modelled { IsTrue H.modelled → Resolved (H.live host.old) (H.model host.old) (H.model host.new)
        (meant_of (H.model host.old).tree (ListDirectory ((H.model host.old).held dir.now.dir).node))
        (λ entries. entries_seen entries.items) result }
{
    let names = wasi_resolve::read_dir(alloc, host, dir.dir)?;
    let own = host.stat(dir.dir)?;
    all_numbered(alloc, host, dir, own.ino(), names)
}

/// The record of an entry, without its name, with the cookie of the next.
fn dirent_of(next: u64, entry: &Entry) -> Dirent
    requires short { length (string_bytes entry.now.name) ≤ 255 }
    ensures { result ≡ dirent_of next (entry_seen entry.now) }
{
    Dirent {
        d_next: next,
        d_ino: entry.node,
        d_namlen: entry.name.len() as u32,
        d_type: filetype_of(DescriptorType::from(entry.kind)).number(),
    }
}

/// Writes bytes from an address on, as many as there is room for, and gives how many.
fn put_front(memory: &mut [u8], at: usize, room: usize, bytes: &[u8]) -> usize
    requires { IsInMemory memory.old at room }
    ensures count { result ≡ length (take room bytes.now) }
    ensures size { length memory.new ≡ length memory.old }
    ensures written { memory.new ≡ with_bytes memory.old at (take room bytes.now) }
{
    let n = room.min(bytes.len());
    write_bytes(memory, at, &bytes[..n]);
    n
}

/// Writes the record of an entry from an address on, with the cookie of the next, as far as there is room, and gives
/// how many bytes it took.
fn put_record(memory: &mut [u8], at: usize, room: usize, next: u64, entry: &Entry) -> usize
    requires short { length (string_bytes entry.now.name) ≤ 255 }
    requires inside { IsInMemory memory.old at room }
    ensures count { result ≡ length (take room (record_of next (entry_seen entry.now))) }
    ensures size { length memory.new ≡ length memory.old }
    ensures written { memory.new ≡ with_bytes memory.old at (take room (record_of next (entry_seen entry.now))) }
{
    let head = dirent_of(next, entry).to_bytes();
    let n = put_front(memory, at, room, &head);
    n + put_front(memory, at + n, room - n, entry.name.as_bytes())
}

/// How many bytes the records of the entries from one on take of a buffer.
fn page_size(entries: &[Entry], from: usize, buf_len: u32) -> u32
    requires short { HasShortNames (entries_seen entries.now) }
    ensures { result ≡ length (page (entries_seen entries.now) from buf_len) }
{
    let mut room = buf_len;
    for i in from..entries.len() {
        if room == 0 {
            return buf_len;
        }
        let entry = &entries[i];
        room = room.saturating_sub(Dirent::SIZE as u32 + entry.name.as_str().len() as u32);
    }
    buf_len - room
}

/// Writes the records of the entries from one on into memory, as far as there is room.
fn put_records(memory: &mut [u8], at: usize, room: usize, entries: &[Entry], from: usize)
    requires short { HasShortNames (entries_seen entries.now) }
    requires inside { IsInMemory memory.old at room }
    ensures size { length memory.new ≡ length memory.old }
    ensures written { memory.new ≡ with_bytes memory.old at (page (entries_seen entries.now) from room) }
{
    let mut place = at;
    let mut left = room;
    for i in from..entries.len() {
        if left == 0 {
            return;
        }
        let entry = &entries[i];
        let n = put_record(memory, place, left, i as u64 + 1, entry);
        place += n;
        left -= n;
    }
}

/// Puts the records of a listing from a cookie on into a buffer, as far as it takes them, and gives how many bytes
/// stand there: trap Pointer where the memory doesn't hold so many from there on. The last record may be cut; from the
/// last one's cookie on there is nothing.
pub fn write_page(
    memory: &mut [u8],
    buf: u32,
    buf_len: u32,
    cookie: u64,
    entries: &[Entry],
) -> Result<u32, P1Error>
    requires short { HasShortNames (entries_seen entries.now) }
    ensures size { length memory.new ≡ length memory.old }
    ensures same { OnErr result (memory.new ≡ memory.old) }
    ensures refusal { IfErr result (λ e. is_failure e ≡ false) }
    ensures never_wants { IfErr result WantsNoMemory }
    ensures specified { with_after result memory.new ≡ text_to memory.old buf (page (entries_seen entries.now) cookie buf_len) }
{
    let from = cookie as usize;
    let n = page_size(entries, from, buf_len);
    bytes_at(memory, buf, n)?;
    put_records(memory, buf as usize, n as usize, entries, from);
    Ok(n)
}

//! Entries as they come into the table and go.
ghost use Rattle.std.specs.Prelude.{◌≡◌, ◌≤◌, ◌<◌, ◌+◌, true, Some, All, IsTrue, IfSome, IfOk, IfErr, IsSome, OnOk, drop, option_map};
ghost use Rattle.std.specs.FinMap.{get, len};
ghost use Rattle.std.specs.FinSet.{contains};
ghost use Rattle.wasi_paths.specs.Text.{is_entry_name};
ghost use Rattle.wasi_host.specs.Provenance.{HasProvenance, Only, Nothing};
ghost use Rattle.wasi_host.specs.HostLaws.{HasCause};
ghost use Rattle.wasi_resolve.specs.Meanings.{lists_at};
ghost use Rattle.wasi_resolve.specs.Resolved.{Resolved};
ghost use Rattle.wasi_fs.specs.Calls.{handle_of};
ghost use Rattle.wasi_streams.specs.Found.{first_of};
ghost use Rattle.wasi_p2_calls.specs.Drops.{entry_named, entry_told, stream_found, NextRead};
ghost use Rattle.wasi_p2_calls.specs.Resources.{entry_handle};
ghost use Rattle.wasi_p2_calls.specs.Rooms.{ClosesHandle, KeepsTable, NoRoom, PutIn, TakenOut};

use crate::types::{DescriptorType, DirectoryEntry};
use crate::{FsError, FsResult};
use std::alloc::Global;
use wasi_fs::Descriptor;
use wasi_host::{Handle, Host, HostError};
use wasi_streams::{Entry, ReaddirIterator, Resource, ResourceTable, TableError};

/// Makes sure of room for one entry more. Refusal: a trap where the table is full.
pub fn make_room(table: &mut ResourceTable) -> FsResult<()>
    ensures keeps { KeepsTable table.old table.new }
    ensures room { OnOk result (0 < table.new.spare) }
    ensures few { OnOk result (len table.old.entries + 1 ≤ table.old.max) }
    ensures refused { IfErr result (NoRoom table.old 1) }
{
    Ok(table.reserve(1)?)
}

/// Puts an entry for which there is sure to be room into the table.
pub fn put(table: &mut ResourceTable, entry: Entry) -> Resource
    requires spare { 0 < table.old.spare }
    ensures { PutIn table.old table.new result.number entry }
{
    let Ok(resource) = table.push(entry) else {
        unreachable!()
    };
    resource
}

/// Takes out an entry that is there.
pub fn take(table: &mut ResourceTable, resource: Resource) -> Entry
    requires there { IsSome (get table.old.entries resource.number) }
    ensures { TakenOut table.old table.new resource.number result }
{
    let Ok(entry) = table.delete(resource) else {
        unreachable!()
    };
    entry
}

/// Looks whether a resource is a stream or a listing. Refusals: a trap where it is missing or neither.
pub fn stream_at(table: &ResourceTable, stream: Resource) -> FsResult<()>
    ensures is { result ≡ stream_found (get table.now.entries stream.number) }
    ensures there { OnOk result (IsSome (get table.now.entries stream.number)) }
{
    match table.get(stream)? {
        Entry::Input(_) => Ok(()),
        Entry::Output(_) => Ok(()),
        Entry::Readdir(_) => Ok(()),
        Entry::Descriptor(_) => Err(FsError::Trap(TableError::WrongKind)),
        Entry::Stdin => Err(FsError::Trap(TableError::WrongKind)),
        Entry::Stdout => Err(FsError::Trap(TableError::WrongKind)),
        Entry::Stderr => Err(FsError::Trap(TableError::WrongKind)),
    }
}

/// Closes the handle of an entry, if it has one.
pub fn close_entry<H: Host>(host: &mut H, entry: Entry)
    requires live { IfSome (entry_handle (Some entry)) (λ h. contains (H.live host.old) h ≡ true) }
    ensures { ClosesHandle H.Host host.old host.new (entry_handle (Some entry)) }
{
    match entry {
        Entry::Descriptor(descriptor) => close_descriptor(host, descriptor),
        Entry::Input(stream) => stream.close(host),
        Entry::Output(stream) => stream.close(host),
        Entry::Readdir(_) => {}
        Entry::Stdin => {}
        Entry::Stdout => {}
        Entry::Stderr => {}
    }
}

fn close_descriptor<H: Host>(host: &mut H, descriptor: Descriptor)
    requires live { contains (H.live host.old) (handle_of descriptor) ≡ true }
    ensures { ClosesHandle H.Host host.old host.new (Some (handle_of descriptor)) }
{
    match descriptor {
        Descriptor::File(file) => host.close(file.file),
        Descriptor::Dir(dir) => host.close(dir.dir),
    }
}

/// The next entry of a listing, as preview2 has it. Refusals: a trap where the resource is missing or no listing.
pub fn read_next(table: &mut ResourceTable, stream: Resource) -> FsResult<Option<DirectoryEntry>>
    ensures { NextRead table.old table.new stream.number result }
{
    let entries = table.readdir(stream)?;
    Ok(next_entry(entries))
}

fn next_entry(entries: &mut ReaddirIterator) -> Option<DirectoryEntry>
    ensures next { option_map entry_told result ≡ option_map entry_named (first_of entries.old) }
    ensures rest { entries.new ≡ drop 1 entries.old }
{
    let entry = entries.next()?;
    Some(DirectoryEntry {
        type_: DescriptorType::from(entry.kind),
        name: entry.name,
    })
}

/// The names of a directory, to be read one by one.
pub fn list_names<H: Host>(
    alloc: Global,
    host: &mut H,
    directory: Handle,
) -> Result<ReaddirIterator, HostError>
    requires live { contains (H.live host.old) directory ≡ true }
    ensures cause { HasCause (H.faults host.old) (H.faults host.new) result }
    ensures live { H.live host.new ≡ H.live host.old }
    ensures provenance { HasProvenance (Only directory) Nothing Nothing (H.lookups host.old) (H.lookups host.new) }
    ensures names { IfOk result (All (λ entry. IsTrue (is_entry_name entry.0))) }
    ensures modelled { IsTrue H.modelled → Resolved (H.live host.old) (H.model host.old) (H.model host.new)
        (lists_at (H.model host.old).tree ((H.model host.old).held directory).node) (λ entries. entries) result }
{
    let entries = wasi_resolve::read_dir(alloc, host, directory)?;
    Ok(ReaddirIterator::new(entries))
}

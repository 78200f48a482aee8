//! What is kept of a descriptor beside the resource table.
ghost use Rattle.std.specs.Prelude.{◌≡◌, ◌<◌, ◌≤◌, ◌+◌, None, IsOk, OnOk, false, length, slice_get, slice_index_or};
ghost use Rattle.std.specs.FinMap.{get, insert, len};
ghost use Rattle.wasi_p1_types.specs.Items.{Admitted, IsOfKind, put_item, slot_in, stream_entry};
ghost use Rattle.wasi_p1_types.specs.Slots.{is_closed_slot};

use crate::{DirectorySlot, FileModes, FileSlot, Slot, Stream};
use std::alloc::AllocError;
use wasi_fs::{Descriptor, Dir, File};
use wasi_streams::{Entry, Resource, ResourceTable, TableError};

/// The resource of a descriptor, and what the table doesn't say of it. A position is in bytes.
#[derive(Clone, Copy, Debug, PartialEq, Eq)]
pub enum Item {
    Closed,
    Stream(Stream, Resource),
    Directory {
        resource: Resource,
        preopen: Option<usize>,
    },
    File {
        resource: Resource,
        position: u64,
        modes: FileModes,
    },
}

/// What is kept of a number, if it was ever given.
pub fn item_at(items: &Vec<Item>, fd: u32) -> Option<Item>
    ensures { result ≡ slice_get items.now.items fd }
{
    Some(*items.get(fd as usize)?)
}

/// What is kept of a number that was given.
pub fn item_under(items: &Vec<Item>, fd: u32) -> Item
    requires { fd < length items.now.items }
    ensures { result ≡ slice_index_or items.now.items fd Item.Closed }
{
    items[fd as usize]
}

fn entry_of(stream: Stream) -> Entry
    ensures { result ≡ stream_entry stream }
{
    match stream {
        Stream::Input => Entry::Stdin,
        Stream::Output => Entry::Stdout,
        Stream::Error => Entry::Stderr,
    }
}

/// Takes the memory for one entry more, which there may be.
pub fn reserve_entry(table: &mut ResourceTable) -> Result<(), AllocError>
    requires fits { len table.old.entries + 1 ≤ table.old.max }
    ensures entries { table.new.entries ≡ table.old.entries }
    ensures max { table.new.max ≡ table.old.max }
    ensures room { OnOk result (0 < table.new.spare) }
    ensures grows { table.old.spare ≤ table.new.spare }
    ensures succeeds { 0 < table.old.spare → IsOk result }
{
    match table.reserve(1) {
        Ok(()) => Ok(()),
        Err(TableError::Memory) => Err(AllocError),
        Err(_) => unreachable!(),
    }
}

/// Puts an entry into the table, which has room for it.
fn put_entry(table: &mut ResourceTable, entry: Entry) -> Resource
    requires spare { 0 < table.old.spare }
    ensures fresh { get table.old.entries result.number ≡ None }
    ensures entries { table.new.entries ≡ insert table.old.entries result.number entry }
    ensures spare { table.old.spare ≡ table.new.spare + 1 }
    ensures max { table.new.max ≡ table.old.max }
{
    let Ok(resource) = table.push(entry) else {
        unreachable!()
    };
    resource
}

/// Puts what a descriptor refers to into the table, which has room for it.
pub fn admit(table: &mut ResourceTable, slot: Slot) -> Item
    requires in_use { is_closed_slot slot ≡ false }
    requires spare { 0 < table.old.spare }
    ensures admitted { Admitted table.old.entries table.new.entries result slot }
    ensures spare { table.old.spare ≡ table.new.spare + 1 }
    ensures max { table.new.max ≡ table.old.max }
{
    match slot {
        Slot::Closed => unreachable!(),
        Slot::Stream(stream) => Item::Stream(stream, put_entry(table, entry_of(stream))),
        Slot::Directory(DirectorySlot { dir, preopen }) => {
            let resource = put_entry(table, Entry::Descriptor(Descriptor::Dir(dir)));
            Item::Directory { resource, preopen }
        }
        Slot::File(
            FileSlot {
                file,
                position,
                modes,
            },
        ) => {
            let resource = put_entry(table, Entry::Descriptor(Descriptor::File(file)));
            Item::File {
                resource,
                position,
                modes,
            }
        }
    }
}

/// What a directory's resource refers to.
fn directory_of(table: &ResourceTable, resource: Resource, preopen: Option<usize>) -> Slot
    requires { IsOfKind table.now.entries (Item.Directory resource preopen) }
    ensures { result ≡ slot_in table.now.entries (Item.Directory resource preopen) }
{
    match table.descriptor(resource) {
        Ok(descriptor) => match descriptor {
            Descriptor::Dir(dir) => Slot::Directory(DirectorySlot {
                dir: Dir::new(dir.dir, dir.perms, dir.open_mode),
                preopen,
            }),
            Descriptor::File(_) => unreachable!(),
        },
        Err(_) => unreachable!(),
    }
}

/// What a file's resource refers to, at a position, with its modes.
fn file_of(table: &ResourceTable, resource: Resource, position: u64, modes: FileModes) -> Slot
    requires { IsOfKind table.now.entries (Item.File resource position modes) }
    ensures { result ≡ slot_in table.now.entries (Item.File resource position modes) }
{
    match table.descriptor(resource) {
        Ok(descriptor) => match descriptor {
            Descriptor::File(file) => Slot::File(FileSlot {
                file: File::new(file.file, file.perms, file.open_mode),
                position,
                modes,
            }),
            Descriptor::Dir(_) => unreachable!(),
        },
        Err(_) => unreachable!(),
    }
}

/// What a descriptor refers to.
pub fn slot_of_item(table: &ResourceTable, item: Item) -> Slot
    requires { IsOfKind table.now.entries item }
    ensures { result ≡ slot_in table.now.entries item }
{
    match item {
        Item::Closed => Slot::Closed,
        Item::Stream(stream, _) => Slot::Stream(stream),
        Item::Directory { resource, preopen } => directory_of(table, resource, preopen),
        Item::File {
            resource,
            position,
            modes,
        } => file_of(table, resource, position, modes),
    }
}

/// A file's descriptor at this position, with these modes.
pub fn put_item(item: Item, position: u64, modes: FileModes) -> Item
    ensures { result ≡ put_item item position modes }
{
    match item {
        Item::File { resource, .. } => Item::File {
            resource,
            position,
            modes,
        },
        Item::Closed => Item::Closed,
        Item::Stream(stream, resource) => Item::Stream(stream, resource),
        Item::Directory { resource, preopen } => Item::Directory { resource, preopen },
    }
}

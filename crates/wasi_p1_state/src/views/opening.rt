//! A path that is opened, through a view.
ghost use Rattle.std.specs.Prelude.{◌≡◌, ◌<◌, ◌≤◌, ◌+◌, Some};
ghost use Rattle.std.specs.FinMap.{get, len};
ghost use Rattle.wasi_fs.specs.declared.descriptor.Descriptor.{Descriptor as Opened};
ghost use Rattle.wasi_p1_types.specs.Items.{resource_in, slot_in, Admitted, IsOfKind};
ghost use Rattle.wasi_p1_types.specs.Slots.{slot_of};
ghost use Rattle.wasi_p1_state.specs.Viewed.{Opens};
ghost use Rattle.wasi_p2_types.specs.FsErrors.{FsCause};
ghost use Rattle.wasi_p2_types.specs.FlagNames.{how_named};
ghost use Rattle.wasi_p2_calls.specs.Opens.{OpensAt};
ghost use Rattle.wasi_p2_calls.specs.Resources.{AreOwned};
ghost use Rattle.wasi_p2_calls.specs.Views.{files_of};

use wasi_fs::{Descriptor, Dir};
use wasi_host::Host;
use wasi_p1_types::FileModes;
use wasi_p1_types::items::Item;
use wasi_p1_types::open_with::OpenWith;
use wasi_p2_calls::{FsResult, WasiFilesystemCtx, WasiFilesystemCtxView};
use wasi_streams::{Entry, Resource, ResourceTable};

/// Opens a path below the directory of a resource.
fn open_at<H: Host>(
    fs: &mut WasiFilesystemCtx<H>,
    table: &mut ResourceTable,
    fd: Resource,
    path: &str,
    with: OpenWith,
) -> FsResult<Resource>
    requires owned { AreOwned (H.live fs.old.host) fs.old.preopens.items table.old.entries }
    ensures { OpensAt H.Host (files_of fs.old table.old) (files_of fs.new table.new) fd.number with.path_flags path.now
        with.open_flags with.flags result }
{
    let mut view = WasiFilesystemCtxView { ctx: fs, table };
    view.open_at(fd, with.path_flags, path, with.open_flags, with.flags)
}

/// What is kept of a resource that was opened, of a file at its start and with these modes.
fn item_of(table: &ResourceTable, opened: Resource, modes: FileModes) -> Item
    requires there { (d : Opened) × (get table.now.entries opened.number ≡ Some (Entry.Descriptor d)) }
    ensures names { resource_in result ≡ Some opened.number }
    ensures kind { IsOfKind table.now.entries result }
    ensures stands { (d : Opened) → get table.now.entries opened.number ≡ Some (Entry.Descriptor d)
        → slot_in table.now.entries result ≡ slot_of modes d }
{
    match table.descriptor(opened) {
        Ok(descriptor) => match descriptor {
            Descriptor::Dir(_) => Item::Directory {
                resource: opened,
                preopen: None,
            },
            Descriptor::File(_) => Item::File {
                resource: opened,
                position: 0,
                modes,
            },
        },
        Err(_) => unreachable!(),
    }
}

/// Opens a path below a directory, for which the table has room, and gives what is kept of the new descriptor.
pub fn open_item<H: Host>(
    fs: &mut WasiFilesystemCtx<H>,
    table: &mut ResourceTable,
    fd: Resource,
    dir: &Dir,
    path: &str,
    with: OpenWith,
) -> FsResult<Item>
    requires stands { get table.old.entries fd.number ≡ Some (Entry.Descriptor (Descriptor.Dir dir.now)) }
    requires owned { AreOwned (H.live fs.old.host) fs.old.preopens.items table.old.entries }
    requires spare { 0 < table.old.spare }
    requires fits { len table.old.entries + 1 ≤ table.old.max }
    ensures ctx { fs.new ≡ record fs.old { host = fs.new.host } }
    ensures cause { FsCause (H.faults fs.old.host) (H.faults fs.new.host) result }
    ensures max { table.new.max ≡ table.old.max }
    ensures did { Opens H.Host fs.old.host fs.new.host dir.now path.now
        (how_named with.path_flags with.open_flags with.flags)
        (λ item d. Admitted table.old.entries table.new.entries item (slot_of with.modes d))
        (table.new.entries ≡ table.old.entries) result }
{
    let opened = open_at(fs, table, fd, path, with)?;
    Ok(item_of(table, opened, with.modes))
}

//! Descriptors whose entries go, through a view.
ghost use Rattle.std.specs.Prelude.{◌≡◌, ◌+◌, false, IsTrue, Some};
ghost use Rattle.std.specs.FinMap.{get};
ghost use Rattle.wasi_fs.specs.declared.descriptor.Descriptor.{Descriptor};
ghost use Rattle.wasi_p1_types.specs.CallParts.{Rests};
ghost use Rattle.wasi_p1_types.specs.Items.{is_closed_item, slot_in, without_item, IsOfKind};
ghost use Rattle.wasi_p1_model.specs.Owners.{handle_in, without};
ghost use Rattle.wasi_p2_calls.specs.Drops.{Closes};
ghost use Rattle.wasi_p2_calls.specs.Resources.{AreOwned};
ghost use Rattle.wasi_p2_calls.specs.Views.{files_of};

use wasi_host::Host;
use wasi_p1_types::items::Item;
use wasi_p2_calls::{WasiFilesystemCtx, WasiFilesystemCtxView};
use wasi_streams::{Entry, Resource, ResourceTable};

/// Takes the entry of a directory or file out of the table, and closes its handle.
fn drop_descriptor<H: Host>(fs: &mut WasiFilesystemCtx<H>, table: &mut ResourceTable, fd: Resource)
    requires there { (d : Descriptor) × (get table.old.entries fd.number ≡ Some (Entry.Descriptor d)) }
    requires owned { AreOwned (H.live fs.old.host) fs.old.preopens.items table.old.entries }
    ensures { Closes H.Host (files_of fs.old table.old) (files_of fs.new table.new) fd.number }
{
    let mut view = WasiFilesystemCtxView { ctx: fs, table };
    let Ok(()) = view.drop(fd) else {
        unreachable!()
    };
}

/// Takes a live descriptor's entry out of the table, and closes its handle, if it has one. It takes no memory.
pub fn drop_item<H: Host>(fs: &mut WasiFilesystemCtx<H>, table: &mut ResourceTable, item: Item)
    requires kind { IsOfKind table.old.entries item }
    requires in_use { is_closed_item item ≡ false }
    requires owned { AreOwned (H.live fs.old.host) fs.old.preopens.items table.old.entries }
    ensures ctx { fs.new ≡ record fs.old { host = fs.new.host } }
    ensures faults { H.faults fs.new.host ≡ H.faults fs.old.host }
    ensures logged { H.lookups fs.new.host ≡ H.lookups fs.old.host }
    ensures live { H.live fs.new.host ≡ without (H.live fs.old.host) (handle_in (slot_in table.old.entries item)) }
    ensures modelled { IsTrue H.modelled → Rests (H.live fs.old.host) (H.live fs.new.host) (H.model fs.old.host)
        (H.model fs.new.host) }
    ensures entries { table.new.entries ≡ without_item table.old.entries item }
    ensures spare { table.new.spare ≡ table.old.spare + 1 }
    ensures max { table.new.max ≡ table.old.max }
{
    match item {
        Item::Closed => unreachable!(),
        Item::Stream(_, resource) => {
            let Ok(_) = table.delete(resource) else {
                unreachable!()
            };
        }
        Item::Directory { resource, .. } => drop_descriptor(fs, table, resource),
        Item::File { resource, .. } => drop_descriptor(fs, table, resource),
    }
}

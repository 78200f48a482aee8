//! The calls of views about a file.
ghost use Rattle.std.specs.Prelude.{◌≡◌, slice_get, Result, Some};
ghost use Rattle.std.specs.FinMap.{get};
ghost use Rattle.wasi_fs.specs.declared.descriptor.Descriptor.TheVariants.{File as AFile};
ghost use Rattle.wasi_fs.specs.declared.descriptor.File.{File as OpenedFile};
ghost use Rattle.wasi_host.specs.declared.errors.HostError.{HostError};
ghost use Rattle.wasi_p1_state.specs.Held.{HoldsHandles};
ghost use Rattle.wasi_p1_state.specs.Viewed.{descriptor_under, Lowered};
ghost use Rattle.wasi_p2_types.specs.FsErrors.{FsCause};
ghost use Rattle.wasi_p2_calls.specs.Views.{files_of, AsksHost, FilesOwned};
ghost use Rattle.wasi_streams.specs.declared.entry.Entry.TheVariants.{Descriptor as AnOpened};
ghost use Rattle.wasi_p1_model.specs.Owners.{handles};

use crate::descriptors::Descriptors;
use crate::views::resource_under;
use wasi_fs::{Descriptor, File};
use wasi_host::Host;
use wasi_p2_calls::{FsResult, WasiFilesystemCtx, WasiFilesystemCtxView};
use wasi_streams::Resource;

/// A call of a view about a file, which looks up no name of one.
pub trait FileCall<H: Host> {
    /// What the lower call did, of a file.
    ghost Did: { Self → H → H → OpenedFile → Result (Unit {0}) HostError → Type 0 };

    /// The call, of a file's resource.
    fn made(self, view: &mut WasiFilesystemCtxView<'_, H>, fd: Resource) -> FsResult<()>
        requires owned { FilesOwned H.Host (files_of view.old.ctx.now view.old.table.now) }
        ensures same_ctx { view.new.ctx.ghost_name ≡ view.old.ctx.ghost_name }
        ensures same_table { view.new.table.ghost_name ≡ view.old.table.ghost_name }
        ensures asks { AsksHost H.Host (files_of view.old.ctx.now view.old.table.now)
            (files_of view.new.ctx.now view.new.table.now) result }
        ensures call { (file : OpenedFile) → get view.old.table.now.entries fd.number ≡ Some (AnOpened (AFile file))
            → (H.lookups view.new.ctx.now.host ≡ H.lookups view.old.ctx.now.host)
            × Lowered (λ unit. unit) (Did self view.old.ctx.now.host view.new.ctx.now.host file) result };
}

/// Makes a call about the file of a number.
pub fn about_file<H: Host, C: FileCall<H>>(
    fs: &mut WasiFilesystemCtx<H>,
    descriptors: &mut Descriptors,
    fd: u32,
    file: &File,
    call: C,
) -> FsResult<()>
    requires holds { HoldsHandles (H.live fs.old.host) (handles descriptors.old.slots) fs.old.preopens.items }
    requires stands { descriptor_under (slice_get descriptors.old.slots fd) ≡ Some (Descriptor.File file.now) }
    ensures ctx { fs.new ≡ record fs.old { host = fs.new.host } }
    ensures same { descriptors.new ≡ descriptors.old }
    ensures cause { FsCause (H.faults fs.old.host) (H.faults fs.new.host) result }
    ensures live { H.live fs.new.host ≡ H.live fs.old.host }
    ensures logged { H.lookups fs.new.host ≡ H.lookups fs.old.host }
    ensures did { Lowered (λ unit. unit) (C.Did call fs.old.host fs.new.host file.now) result }
{
    let resource = resource_under(&descriptors.items, fd);
    let mut view = WasiFilesystemCtxView {
        ctx: fs,
        table: &mut descriptors.table,
    };
    call.made(&mut view, resource)
}

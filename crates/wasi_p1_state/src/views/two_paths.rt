//! The calls of views that name a place below another directory too.
ghost use Rattle.std.specs.Prelude.{◌≡◌, slice_get, Result, Some};
ghost use Rattle.wasi_fs.specs.declared.descriptor.Dir.{Dir as Directory};
ghost use Rattle.wasi_host.specs.Provenance.{HasProvenance, OneOf, Nothing};
ghost use Rattle.wasi_host.specs.declared.errors.HostError.{HostError};
ghost use Rattle.wasi_p1_state.specs.Held.{HoldsHandles};
ghost use Rattle.wasi_p1_model.specs.Owners.{handles};
ghost use Rattle.wasi_p1_state.specs.Viewed.{descriptor_under, Lowered};
ghost use Rattle.wasi_p2_types.specs.FsErrors.{FsCause};
ghost use Rattle.wasi_p2_calls.specs.Resources.{both_found, directory_at};
ghost use Rattle.wasi_p2_calls.specs.Views.{files_of, CallsOn, FilesOwned, LooksFromBoth};

use crate::descriptors::Descriptors;
use crate::views::resource_under;
use wasi_fs::{Descriptor, Dir};
use wasi_host::Host;
use wasi_p2_calls::{FsResult, WasiFilesystemCtx, WasiFilesystemCtxView};
use wasi_streams::Resource;

/// A call of a view at a path below one directory and at a path below another, which may be the same one.
pub trait BetweenCall<H: Host> {
    /// What the lower call did, of the two directories.
    ghost Did: { Self → H → H → Directory → Directory → Result (Unit {0}) HostError → Type 0 };

    /// The call, of the two directories' resources.
    fn made(
        self,
        view: &mut WasiFilesystemCtxView<'_, H>,
        fd: Resource,
        new_fd: Resource,
    ) -> FsResult<()>
        requires owned { FilesOwned H.Host (files_of view.old.ctx.now view.old.table.now) }
        ensures same_ctx { view.new.ctx.ghost_name ≡ view.old.ctx.ghost_name }
        ensures same_table { view.new.table.ghost_name ≡ view.old.table.ghost_name }
        ensures call { CallsOn H.Host (files_of view.old.ctx.now view.old.table.now)
            (files_of view.new.ctx.now view.new.table.now)
            (LooksFromBoth view.old.table.now.entries fd.number new_fd.number)
            (both_found (directory_at view.old.table.now.entries fd.number)
            (directory_at view.old.table.now.entries new_fd.number)) (λ unit. unit)
            (λ dirs. Did self view.old.ctx.now.host view.new.ctx.now.host dirs.0 dirs.1) result };
}

/// Makes a call at a path below the directory of a number and at one below that of another.
pub fn between<H: Host, C: BetweenCall<H>>(
    fs: &mut WasiFilesystemCtx<H>,
    descriptors: &mut Descriptors,
    fd: u32,
    dir: &Dir,
    new_fd: u32,
    new_dir: &Dir,
    call: C,
) -> FsResult<()>
    requires holds { HoldsHandles (H.live fs.old.host) (handles descriptors.old.slots) fs.old.preopens.items }
    requires stands { descriptor_under (slice_get descriptors.old.slots fd) ≡ Some (Descriptor.Dir dir.now) }
    requires new_stands { descriptor_under (slice_get descriptors.old.slots new_fd) ≡ Some (Descriptor.Dir new_dir.now) }
    ensures ctx { fs.new ≡ record fs.old { host = fs.new.host } }
    ensures same { descriptors.new ≡ descriptors.old }
    ensures cause { FsCause (H.faults fs.old.host) (H.faults fs.new.host) result }
    ensures live { H.live fs.new.host ≡ H.live fs.old.host }
    ensures provenance { HasProvenance (OneOf dir.now.dir new_dir.now.dir) Nothing Nothing
        (H.lookups fs.old.host) (H.lookups fs.new.host) }
    ensures did { Lowered (λ unit. unit) (C.Did call fs.old.host fs.new.host dir.now new_dir.now) result }
{
    let resource = resource_under(&descriptors.items, fd);
    let new_resource = resource_under(&descriptors.items, new_fd);
    let mut view = WasiFilesystemCtxView {
        ctx: fs,
        table: &mut descriptors.table,
    };
    call.made(&mut view, resource, new_resource)
}

//! What the calls of preview1 do through the views of preview2, a part at a time. Each takes a number, and what stands
//! under it, and makes the call of its own name of a view, of the resource that the number names.
ghost use Rattle.std.specs.Prelude.{◌≡◌, false, slice_get, slice_index_or, Result, Some};
ghost use Rattle.wasi_fs.specs.declared.descriptor.Descriptor.{Descriptor as Opened};
ghost use Rattle.wasi_fs.specs.declared.descriptor.Dir.{Dir as Directory};
ghost use Rattle.wasi_host.specs.Provenance.{HasProvenance, Only, Nothing};
ghost use Rattle.wasi_host.specs.declared.errors.HostError.{HostError};
ghost use Rattle.wasi_p1_state.specs.Held.{HoldsHandles};
ghost use Rattle.wasi_p1_types.specs.Items.{is_closed_item, NamesResource};
ghost use Rattle.wasi_p1_state.specs.Viewed.{descriptor_under, Lowered};
ghost use Rattle.wasi_p2_types.specs.FsErrors.{FsCause};
ghost use Rattle.wasi_p2_calls.specs.Nodes.{AboutIt};
ghost use Rattle.wasi_p2_calls.specs.PathOps.{BelowIt};
ghost use Rattle.wasi_p2_calls.specs.Views.{files_of, FilesOwned};
ghost use Rattle.wasi_p1_model.specs.Owners.{handles};
ghost use Rattle.wasi_p1_types.specs.ViewErrors.{view_raised};

pub mod closing;
pub mod files;
pub mod opening;
pub mod two_paths;

use crate::descriptors::Descriptors;
use wasi_fs::{Descriptor, Dir};
use wasi_host::Host;
use wasi_p1_types::P1Error;
use wasi_p1_types::items::{Item, item_under};
use wasi_p2_calls::{FsResult, WasiFilesystemCtx, WasiFilesystemCtxView};
use wasi_streams::Resource;

/// The resource that a live number names.
#[tactic(auto, using(crate::proofs::Viewing::given_open))]
pub fn resource_under(items: &Vec<Item>, fd: u32) -> Resource
    requires live { is_closed_item (slice_index_or items.now.items fd Item.Closed) ≡ false }
    ensures names { NamesResource items.now.items fd result.number }
{
    match item_under(items, fd) {
        Item::Closed => unreachable!(),
        Item::Stream(_, resource)
        | Item::Directory { resource, .. }
        | Item::File { resource, .. } => resource,
    }
}

/// An answer of a view, with a refusal as a call's.
pub fn raised<T>(answer: FsResult<T>) -> Result<T, P1Error>
    ensures { result ≡ view_raised answer }
{
    match answer {
        Ok(given) => Ok(given),
        Err(refused) => Err(P1Error::from(refused)),
    }
}

/// A call of a view at a path below a directory.
pub trait EntryOp<H: Host> {
    /// What it answers.
    type Gives;

    /// What the lower call answers.
    type Lower;

    /// How that is shown.
    ghost shown: { Self.Lower → Self.Gives };

    /// What the lower call did, of a directory.
    ghost Did: { Self → H → H → Directory → Result Self.Lower HostError → Type 0 };

    /// What its arguments have to be.
    ghost Fits: { Self → Type 0 } = { λ _. Unit {0} };

    /// The call, of a directory's resource.
    fn made(self, view: &mut WasiFilesystemCtxView<'_, H>, fd: Resource) -> FsResult<Self::Gives>
        requires fits { Fits self }
        requires owned { FilesOwned H.Host (files_of view.old.ctx.now view.old.table.now) }
        ensures same_ctx { view.new.ctx.ghost_name ≡ view.old.ctx.ghost_name }
        ensures same_table { view.new.table.ghost_name ≡ view.old.table.ghost_name }
        ensures call { BelowIt H.Host (files_of view.old.ctx.now view.old.table.now)
            (files_of view.new.ctx.now view.new.table.now) fd.number shown
            (Did self view.old.ctx.now.host view.new.ctx.now.host) result };
}

/// Makes a call at a path below the directory of a number. `dir` is named by the clauses alone.
pub fn below<H: Host, C: EntryOp<H>>(
    fs: &mut WasiFilesystemCtx<H>,
    descriptors: &mut Descriptors,
    fd: u32,
    dir: &Dir,
    call: C,
) -> FsResult<C::Gives>
    requires holds { HoldsHandles (H.live fs.old.host) (handles descriptors.old.slots) fs.old.preopens.items }
    requires stands { descriptor_under (slice_get descriptors.old.slots fd) ≡ Some (Descriptor.Dir dir.now) }
    requires fits { C.Fits call }
    ensures ctx { fs.new ≡ record fs.old { host = fs.new.host } }
    ensures same { descriptors.new ≡ descriptors.old }
    ensures cause { FsCause (H.faults fs.old.host) (H.faults fs.new.host) result }
    ensures live { H.live fs.new.host ≡ H.live fs.old.host }
    ensures provenance { HasProvenance (Only dir.now.dir) Nothing Nothing (H.lookups fs.old.host) (H.lookups fs.new.host) }
    ensures did { Lowered C.shown (C.Did call fs.old.host fs.new.host dir.now) result }
{
    let resource = resource_under(&descriptors.items, fd);
    let mut view = WasiFilesystemCtxView {
        ctx: fs,
        table: &mut descriptors.table,
    };
    call.made(&mut view, resource)
}

/// A call of a view about what a descriptor refers to, which looks up no name.
pub trait NodeCall<H: Host> {
    /// What it answers.
    type Gives;

    /// What the lower call answers.
    type Lower;

    /// How that is shown.
    ghost shown: { Self.Lower → Self.Gives };

    /// What the lower call did, of a descriptor.
    ghost Did: { Self → H → H → Opened → Result Self.Lower HostError → Type 0 };

    /// What its arguments have to be.
    ghost Fits: { Self → Type 0 } = { λ _. Unit {0} };

    /// The call, of a descriptor's resource.
    fn made(self, view: &mut WasiFilesystemCtxView<'_, H>, fd: Resource) -> FsResult<Self::Gives>
        requires fits { Fits self }
        requires owned { FilesOwned H.Host (files_of view.old.ctx.now view.old.table.now) }
        ensures same_ctx { view.new.ctx.ghost_name ≡ view.old.ctx.ghost_name }
        ensures same_table { view.new.table.ghost_name ≡ view.old.table.ghost_name }
        ensures call { AboutIt H.Host (files_of view.old.ctx.now view.old.table.now)
            (files_of view.new.ctx.now view.new.table.now) fd.number shown
            (Did self view.old.ctx.now.host view.new.ctx.now.host) result };
}

/// Makes a call about what a number refers to. `descriptor` is named by the clauses alone.
pub fn about<H: Host, C: NodeCall<H>>(
    fs: &mut WasiFilesystemCtx<H>,
    descriptors: &mut Descriptors,
    fd: u32,
    descriptor: &Descriptor,
    call: C,
) -> FsResult<C::Gives>
    requires holds { HoldsHandles (H.live fs.old.host) (handles descriptors.old.slots) fs.old.preopens.items }
    requires stands { descriptor_under (slice_get descriptors.old.slots fd) ≡ Some descriptor.now }
    requires fits { C.Fits call }
    ensures ctx { fs.new ≡ record fs.old { host = fs.new.host } }
    ensures same { descriptors.new ≡ descriptors.old }
    ensures cause { FsCause (H.faults fs.old.host) (H.faults fs.new.host) result }
    ensures live { H.live fs.new.host ≡ H.live fs.old.host }
    ensures logged { H.lookups fs.new.host ≡ H.lookups fs.old.host }
    ensures did { Lowered C.shown (C.Did call fs.old.host fs.new.host descriptor.now) result }
{
    let resource = resource_under(&descriptors.items, fd);
    let mut view = WasiFilesystemCtxView {
        ctx: fs,
        table: &mut descriptors.table,
    };
    call.made(&mut view, resource)
}

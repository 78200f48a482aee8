//! The calls of views on an open file.
ghost use Rattle.std.specs.Prelude.{◌≡◌, slice_get, IfErr, IsTrue, None, Result, Some};
ghost use Rattle.wasi_fs.specs.Calls.{asks_at, may_do, syncs, NotMemory};
ghost use Rattle.wasi_fs.specs.declared.descriptor.Descriptor.TheVariants.{File as AFile};
ghost use Rattle.wasi_fs.specs.declared.perms.Act.TheVariants.{Alter};
ghost use Rattle.wasi_host.specs.HostCall.{Advise, SetSize};
ghost use Rattle.wasi_p1_state.specs.Held.{HoldsHandles};
ghost use Rattle.wasi_p1_state.specs.Viewed.{descriptor_under};
ghost use Rattle.wasi_p2_types.specs.Advices.{advice_named};
ghost use Rattle.wasi_p2_calls.specs.Views.{Performs};
ghost use Rattle.wasi_host.specs.HostLaws.{Rose};
ghost use Rattle.wasi_p1_types.specs.CallParts.{IsReplied, Makes};
ghost use Rattle.wasi_p1_model.specs.CallTransition.{Causes};
ghost use Rattle.wasi_p1_model.specs.Owners.{handles};
ghost use Rattle.wasi_p1_types.specs.Request.{Direct};
ghost use Rattle.wasi_p1_types.specs.CallResult.{give};

use wasi_fs::{Descriptor, File};
use wasi_host::Host;
use wasi_p1_state::descriptors::Descriptors;
use wasi_p1_state::views::files::{FileCall, about_file};
use wasi_p1_state::views::raised;
use wasi_p1_types::P1Error;
use wasi_p2_calls::types::Advice;
use wasi_p2_calls::{FsResult, WasiFilesystemCtx, WasiFilesystemCtxView};
use wasi_streams::Resource;

/// Tells the host how a file's bytes will be used.
#[derive(Clone, Copy)]
pub struct AdviseOf {
    pub offset: u64,
    pub len: u64,
    pub advice: Advice,
}

impl<H: Host> FileCall<H> for AdviseOf {
    ghost Did = { λ call old new file answer. IfErr answer NotMemory × Performs H.Host old new None
        (asks_at (H.model old).tree
        (Advise ((H.model old).held file.file).node call.offset call.len (advice_named call.advice))
        ((H.model old).held file.file).node) (λ unit. unit) answer };

    #[tactic(auto, using(wasi_p1_state::proofs::Viewing::of_file))]
    fn made(self, view: &mut WasiFilesystemCtxView<'_, H>, fd: Resource) -> FsResult<()> {
        view.advise(fd, self.offset, self.len, self.advice)
    }
}

/// Cuts a file to `size` bytes, or fills it up to them.
#[derive(Clone, Copy)]
pub struct SetSizeOf {
    pub size: u64,
}

impl<H: Host> FileCall<H> for SetSizeOf {
    ghost Did = { λ call old new file. Performs H.Host old new (may_do file.perms Alter)
        (asks_at (H.model old).tree (SetSize ((H.model old).held file.file) call.size)
        ((H.model old).held file.file).node) (λ unit. unit) };

    #[tactic(auto, using(wasi_p1_state::proofs::Viewing::of_file))]
    fn made(self, view: &mut WasiFilesystemCtxView<'_, H>, fd: Resource) -> FsResult<()> {
        view.set_size(fd, self.size)
    }
}

/// Gives a file this size, which its permissions permit, and says so as a call.
pub fn set_size<H: Host>(
    fs: &mut WasiFilesystemCtx<H>,
    descriptors: &mut Descriptors,
    fd: u32,
    file: &File,
    size: u64,
) -> Result<(), P1Error>
    requires holds { HoldsHandles (H.live fs.old.host) (handles descriptors.old.slots) fs.old.preopens.items }
    requires stands { descriptor_under (slice_get descriptors.old.slots fd) ≡ Some (Descriptor.File file.now) }
    requires permitted { may_do file.now.perms Alter ≡ None }
    ensures ctx { fs.new ≡ record fs.old { host = fs.new.host } }
    ensures same { descriptors.new ≡ descriptors.old }
    ensures cause { Causes (H.faults fs.old.host) (H.faults fs.new.host) result }
    ensures live { H.live fs.new.host ≡ H.live fs.old.host }
    ensures logged { H.lookups fs.new.host ≡ H.lookups fs.old.host }

    // The specification, over every host and over a modelled one.
    ensures front { IsReplied (Direct (SetSize ((H.model fs.old.host).held file.now.file) size)) (λ _. give tt) result }
    ensures modelled { IsTrue H.modelled → Makes (Rose (H.faults fs.old.host) (H.faults fs.new.host)) (H.live fs.old.host)
        (H.model fs.old.host) (H.model fs.new.host)
        (Direct (SetSize ((H.model fs.old.host).held file.now.file) size)) (λ _. give tt) result }
{
    raised(about_file(fs, descriptors, fd, file, SetSizeOf { size }))
}

/// Waits until a file's bytes are stored.
#[derive(Clone, Copy)]
pub struct SyncDataOf;

impl<H: Host> FileCall<H> for SyncDataOf {
    ghost Did = { λ _ old new file answer. IfErr answer NotMemory × Performs H.Host old new None
        (syncs (H.model old).tree (H.model old).held (AFile file)) (λ unit. unit) answer };

    #[tactic(auto, using(wasi_p1_state::proofs::Viewing::stored_file))]
    fn made(self, view: &mut WasiFilesystemCtxView<'_, H>, fd: Resource) -> FsResult<()> {
        view.sync_data(fd)
    }
}

/// Waits until a file is stored, with its metadata.
#[derive(Clone, Copy)]
pub struct SyncOf;

impl<H: Host> FileCall<H> for SyncOf {
    ghost Did = { λ _ old new file answer. IfErr answer NotMemory × Performs H.Host old new None
        (syncs (H.model old).tree (H.model old).held (AFile file)) (λ unit. unit) answer };

    #[tactic(auto, using(wasi_p1_state::proofs::Viewing::stored_file))]
    fn made(self, view: &mut WasiFilesystemCtxView<'_, H>, fd: Resource) -> FsResult<()> {
        view.sync(fd)
    }
}

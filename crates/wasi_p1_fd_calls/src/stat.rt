//! What the calls that look at a descriptor do with a host, a part at a time.
ghost use Rattle.std.specs.Prelude.{◌≡◌, slice_get, IfOk, IfErr, None, Some};
ghost use Rattle.wasi_fs.specs.Calls.{handle_of, meant_as, stats, NotMemory};
ghost use Rattle.wasi_host.specs.HostCall.{Flags, Stat};
ghost use Rattle.wasi_p1_types.specs.CallParts.{open_file_of};
ghost use Rattle.wasi_p1_model.specs.CallTransition.{Causes};
ghost use Rattle.wasi_p1_types.specs.Fdstats.{directory_fdstat, file_told};
ghost use Rattle.wasi_p1_types.specs.Filestats.{filestat_in, stat_both, IsStated};
ghost use Rattle.wasi_p1_state.specs.Held.{HoldsHandles};
ghost use Rattle.wasi_p1_model.specs.Owners.{handles};
ghost use Rattle.wasi_p1_types.specs.Request.{Direct};
ghost use Rattle.wasi_p1_types.specs.CallResult.{give};
ghost use Rattle.wasi_p1_state.specs.Viewed.{descriptor_under, Lowered};
ghost use Rattle.wasi_p1_state.specs.ViewedStats.{viewed, LookMakes};
ghost use Rattle.wasi_p2_types.specs.FsErrors.{FsCause};
ghost use Rattle.wasi_p2_calls.specs.Views.{Performs};

use crate::node_calls::{FlagsOf, MetadataHashOf, StatOf, TypeOf};
use wasi_fs::{Descriptor, Dir};
use wasi_guest::{Fdstat, Filestat};
use wasi_host::Host;
use wasi_p1_state::descriptors::Descriptors;
use wasi_p1_state::filestats::{ViewedStat, filetype_named};
use wasi_p1_state::views::about;
use wasi_p1_types::{FileSlot, P1Error, directory_fdstat, file_fdstat};
use wasi_p2_calls::{FsResult, WasiFilesystemCtx};

/// The metadata of a descriptor's node: its two answers, which make one record.
fn looked_at<H: Host>(
    fs: &mut WasiFilesystemCtx<H>,
    descriptors: &mut Descriptors,
    fd: u32,
    descriptor: &Descriptor,
) -> FsResult<ViewedStat>
    requires holds { HoldsHandles (H.live fs.old.host) (handles descriptors.old.slots) fs.old.preopens.items }
    requires stands { descriptor_under (slice_get descriptors.old.slots fd) ≡ Some descriptor.now }
    ensures ctx { fs.new ≡ record fs.old { host = fs.new.host } }
    ensures same { descriptors.new ≡ descriptors.old }
    ensures cause { FsCause (H.faults fs.old.host) (H.faults fs.new.host) result }
    ensures live { H.live fs.new.host ≡ H.live fs.old.host }
    ensures logged { H.lookups fs.new.host ≡ H.lookups fs.old.host }
    ensures did { Lowered viewed (λ answer. IfErr answer NotMemory × IfOk answer IsStated
        × Performs H.Host fs.old.host fs.new.host None (meant_as stat_both
        (stats (H.model fs.old.host).tree ((H.model fs.old.host).held (handle_of descriptor.now)).node))
        (λ both. both) answer) result }
{
    let stat = about(fs, descriptors, fd, descriptor, StatOf)?;
    let hash = about(fs, descriptors, fd, descriptor, MetadataHashOf)?;
    Ok(ViewedStat { stat, hash })
}

/// The record of a descriptor's node. Refusal: Overflow of a time that 64 bits of nanoseconds don't hold.
pub fn node_filestat<H: Host>(
    fs: &mut WasiFilesystemCtx<H>,
    descriptors: &mut Descriptors,
    fd: u32,
    descriptor: &Descriptor,
) -> Result<Filestat, P1Error>
    requires holds { HoldsHandles (H.live fs.old.host) (handles descriptors.old.slots) fs.old.preopens.items }
    requires stands { descriptor_under (slice_get descriptors.old.slots fd) ≡ Some descriptor.now }
    ensures ctx { fs.new ≡ record fs.old { host = fs.new.host } }
    ensures same { descriptors.new ≡ descriptors.old }
    ensures cause { Causes (H.faults fs.old.host) (H.faults fs.new.host) result }
    ensures live { H.live fs.new.host ≡ H.live fs.old.host }
    ensures logged { H.lookups fs.new.host ≡ H.lookups fs.old.host }
    ensures makes { LookMakes H.Host fs.old.host fs.new.host
        (Direct (Stat ((H.model fs.old.host).held (handle_of descriptor.now)).node))
        (λ metadata. filestat_in (stat_both metadata)) result }
{
    let both = looked_at(fs, descriptors, fd, descriptor)?;
    let filestat = both.filestat()?;
    Ok(filestat)
}

/// The `fdstat` of a directory's descriptor that isn't one of those that the guest was given. The host's answer tells
/// nothing.
pub fn dir_fdstat<H: Host>(
    fs: &mut WasiFilesystemCtx<H>,
    descriptors: &mut Descriptors,
    fd: u32,
    dir: Dir,
) -> Result<Fdstat, P1Error>
    requires holds { HoldsHandles (H.live fs.old.host) (handles descriptors.old.slots) fs.old.preopens.items }
    requires stands { descriptor_under (slice_get descriptors.old.slots fd) ≡ Some (Descriptor.Dir dir) }
    ensures ctx { fs.new ≡ record fs.old { host = fs.new.host } }
    ensures same { descriptors.new ≡ descriptors.old }
    ensures cause { Causes (H.faults fs.old.host) (H.faults fs.new.host) result }
    ensures live { H.live fs.new.host ≡ H.live fs.old.host }
    ensures logged { H.lookups fs.new.host ≡ H.lookups fs.old.host }
    ensures makes { LookMakes H.Host fs.old.host fs.new.host
        (Direct (Flags ((H.model fs.old.host).held dir.dir).node))
        (λ _. give directory_fdstat) result }
{
    let dir = Descriptor::Dir(dir);
    about(fs, descriptors, fd, &dir, FlagsOf)?;
    Ok(directory_fdstat())
}

/// The `fdstat` of a file's descriptor: its type as the host says it, whose answer on its flags tells nothing.
pub fn open_file_fdstat<H: Host>(
    fs: &mut WasiFilesystemCtx<H>,
    descriptors: &mut Descriptors,
    fd: u32,
    slot: FileSlot,
) -> Result<Fdstat, P1Error>
    requires holds { HoldsHandles (H.live fs.old.host) (handles descriptors.old.slots) fs.old.preopens.items }
    requires stands { descriptor_under (slice_get descriptors.old.slots fd) ≡ Some (Descriptor.File slot.file) }
    ensures ctx { fs.new ≡ record fs.old { host = fs.new.host } }
    ensures same { descriptors.new ≡ descriptors.old }
    ensures cause { Causes (H.faults fs.old.host) (H.faults fs.new.host) result }
    ensures live { H.live fs.new.host ≡ H.live fs.old.host }
    ensures logged { H.lookups fs.new.host ≡ H.lookups fs.old.host }
    ensures makes { LookMakes H.Host fs.old.host fs.new.host
        (Direct (Stat ((H.model fs.old.host).held slot.file.file).node))
        (λ metadata. give (file_told (open_file_of (H.model fs.old.host).held slot) metadata)) result }
{
    let FileSlot { file, modes, .. } = slot;
    let mode = file.open_mode;
    let file = Descriptor::File(file);
    about(fs, descriptors, fd, &file, FlagsOf)?;
    let kind = about(fs, descriptors, fd, &file, TypeOf)?;
    Ok(file_fdstat(mode, modes, filetype_named(kind)))
}

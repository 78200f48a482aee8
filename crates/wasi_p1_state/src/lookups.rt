//! What the calls of preview1 do with a host and a guest's memory, a part at a time.
ghost use Rattle.std.specs.Prelude.{◌≡◌, ◌<◌, ◌≤◌, ◌+◌, true, false, slice_get, slice_set, Ok, Err, IfOk, IfErr, OnOk, Some};
ghost use Rattle.std.specs.Result.{result_map_both};
ghost use Rattle.std.specs.FinSet.{contains};
ghost use Rattle.wasi_p1_model.specs.Owners.{handles, HasHandle, Owned};
ghost use Rattle.wasi_p1_types.specs.Guest.{guest_slot, guest_slots};
ghost use Rattle.wasi_fs.specs.Calls.{handle_of};
ghost use Rattle.wasi_p1_types.specs.SpecParts.{live_in, directory_or, read_target_in, write_target_in, open_node_in, room_for};
ghost use Rattle.wasi_p1_types.specs.Numbering.{live_count};
ghost use Rattle.wasi_p1_types.specs.Slots.{file_under, is_closed_slot};
ghost use Rattle.wasi_p1_types.specs.CallParts.{open_directory_of, open_file_of, read_target_of, write_target_of, OfReadTarget, OfWriteTarget, open_node_of, is_failure};
ghost use Rattle.wasi_p1_types.specs.Files.{file_in, stream_refused};
ghost use Rattle.wasi_p1_types.specs.declared.error.P1Error.TheVariants as errors;
ghost use Rattle.wasi_p1_types.specs.declared.usage.FileUse.TheVariants.{ReadAt};
ghost use Rattle.wasi_p1_state.specs.Viewed.{descriptor_under};

use crate::descriptors::Descriptors;
use wasi_fs::{Descriptor, Dir, File};
use wasi_guest::{Errno, TrapKind};
use wasi_host::Host;
use wasi_p1_types::{
    DirectorySlot, FileModes, FileSlot, FileUse, Output, P1Error, ReadTarget, Slot, Stream,
    WriteTarget,
};

/// What a live number refers to.
#[tactic(auto, using(wasi_p1_model::proofs::SlotRules::slots))]
pub fn live_at<H: Host>(host: &H, descriptors: &Descriptors, fd: u32) -> Result<Slot, P1Error>
    ensures is { IfOk result (λ slot. slice_get descriptors.now.slots fd ≡ Some slot) }
    ensures in_use { IfOk result (λ slot. is_closed_slot slot ≡ false) }
    ensures specified { result_map_both (guest_slot (H.model host.now).held) (λ e. e) result
        ≡ live_in (slice_get (guest_slots (H.model host.now).held descriptors.now.slots) fd) }
{
    let Some(slot) = descriptors.get(fd) else {
        return Err(P1Error::Errno(Errno::Badf));
    };
    match slot {
        Slot::Closed => Err(P1Error::Errno(Errno::Badf)),
        live => Ok(live),
    }
}

/// The directory of a number: `of_file` where that is a file's, and Badf of any other.
#[tactic(auto, using(wasi_p1_model::proofs::SlotRules::slots))]
pub fn directory_at<H: Host>(
    host: &H,
    descriptors: &Descriptors,
    fd: u32,
    of_file: Errno,
) -> Result<Dir, P1Error>
    requires owned { Owned (H.live host.now) (handles descriptors.now.slots) }
    ensures live { IfOk result (λ dir. contains (H.live host.now) dir.dir ≡ true) }
    ensures is { IfOk result (λ dir. HasHandle descriptors.now.slots fd dir.dir) }
    ensures stands { IfOk result (λ dir. descriptor_under (slice_get descriptors.now.slots fd) ≡ Some (Descriptor.Dir dir)) }
    ensures specified { result_map_both (open_directory_of (H.model host.now).held) (λ e. e) result
        ≡ directory_or of_file (slice_get (guest_slots (H.model host.now).held descriptors.now.slots) fd) }
{
    let Some(slot) = descriptors.get(fd) else {
        return Err(P1Error::Errno(Errno::Badf));
    };
    match slot {
        Slot::Directory(DirectorySlot { dir, .. }) => Ok(dir),
        Slot::File(_) => Err(P1Error::Errno(of_file)),
        Slot::Stream(_) => Err(P1Error::Errno(Errno::Badf)),
        Slot::Closed => Err(P1Error::Errno(Errno::Badf)),
    }
}

/// The descriptor of a directory's or file's number: Badf of any other.
#[tactic(auto, using(wasi_p1_model::proofs::SlotRules::slots))]
pub fn descriptor_at<H: Host>(
    host: &H,
    descriptors: &Descriptors,
    fd: u32,
) -> Result<Descriptor, P1Error>
    requires owned { Owned (H.live host.now) (handles descriptors.now.slots) }
    ensures live { IfOk result (λ descriptor. contains (H.live host.now) (handle_of descriptor) ≡ true) }
    ensures is { IfOk result (λ descriptor. HasHandle descriptors.now.slots fd (handle_of descriptor)) }
    ensures stands { IfOk result (λ descriptor. descriptor_under (slice_get descriptors.now.slots fd) ≡ Some descriptor) }
    ensures specified { result_map_both (open_node_of (H.model host.now).held) (λ e. e) result
        ≡ open_node_in (slice_get (guest_slots (H.model host.now).held descriptors.now.slots) fd) }
{
    let Some(slot) = descriptors.get(fd) else {
        return Err(P1Error::Errno(Errno::Badf));
    };
    match slot {
        Slot::Directory(DirectorySlot { dir, .. }) => Ok(Descriptor::Dir(dir)),
        Slot::File(FileSlot { file, .. }) => Ok(Descriptor::File(file)),
        Slot::Stream(_) => Err(P1Error::Errno(Errno::Badf)),
        Slot::Closed => Err(P1Error::Errno(Errno::Badf)),
    }
}

/// What is read by a number: Badf where that is neither a file's nor the standard input's.
#[tactic(auto, using(wasi_p1_model::proofs::SlotRules::slots))]
pub fn read_target_at<H: Host>(
    host: &H,
    descriptors: &Descriptors,
    fd: u32,
) -> Result<ReadTarget, P1Error>
    requires owned { Owned (H.live host.now) (handles descriptors.now.slots) }
    ensures live { IfOk result (OfReadTarget (λ file. contains (H.live host.now) file.file.file ≡ true)) }
    ensures is { IfOk result (OfReadTarget (λ file. slice_get descriptors.now.slots fd ≡ Some (Slot.File file))) }
    ensures specified { result_map_both (read_target_of (H.model host.now).held) (λ e. e) result
        ≡ read_target_in (slice_get (guest_slots (H.model host.now).held descriptors.now.slots) fd) }
{
    let Some(slot) = descriptors.get(fd) else {
        return Err(P1Error::Errno(Errno::Badf));
    };
    match slot {
        Slot::File(file) => Ok(ReadTarget::File(file)),
        Slot::Stream(Stream::Input) => Ok(ReadTarget::Input),
        Slot::Stream(Stream::Output) => Err(P1Error::Errno(Errno::Badf)),
        Slot::Stream(Stream::Error) => Err(P1Error::Errno(Errno::Badf)),
        Slot::Directory(_) => Err(P1Error::Errno(Errno::Badf)),
        Slot::Closed => Err(P1Error::Errno(Errno::Badf)),
    }
}

/// What is written by a number: Badf where that is neither a file's nor an output's.
#[tactic(auto, using(wasi_p1_model::proofs::SlotRules::slots))]
pub fn write_target_at<H: Host>(
    host: &H,
    descriptors: &Descriptors,
    fd: u32,
) -> Result<WriteTarget, P1Error>
    requires owned { Owned (H.live host.now) (handles descriptors.now.slots) }
    ensures live { IfOk result (OfWriteTarget (λ file. contains (H.live host.now) file.file.file ≡ true)) }
    ensures is { IfOk result (OfWriteTarget (λ file. slice_get descriptors.now.slots fd ≡ Some (Slot.File file))) }
    ensures specified { result_map_both (write_target_of (H.model host.now).held) (λ e. e) result
        ≡ write_target_in (slice_get (guest_slots (H.model host.now).held descriptors.now.slots) fd) }
{
    let Some(slot) = descriptors.get(fd) else {
        return Err(P1Error::Errno(Errno::Badf));
    };
    match slot {
        Slot::File(file) => Ok(WriteTarget::File(file)),
        Slot::Stream(Stream::Output) => Ok(WriteTarget::Output(Output::Stdout)),
        Slot::Stream(Stream::Error) => Ok(WriteTarget::Output(Output::Stderr)),
        Slot::Stream(Stream::Input) => Err(P1Error::Errno(Errno::Badf)),
        Slot::Directory(_) => Err(P1Error::Errno(Errno::Badf)),
        Slot::Closed => Err(P1Error::Errno(Errno::Badf)),
    }
}

/// Trap TableFull where so many more descriptors may not be live. `host` is named by the clauses alone.
pub fn room_at<H: Host>(host: &H, descriptors: &Descriptors, more: u32) -> Result<(), P1Error>
    ensures fits { OnOk result (live_count is_closed_slot descriptors.now.slots + more ≤ descriptors.now.max) }
    ensures specified { result ≡ room_for (guest_slots (H.model host.now).held descriptors.now.slots)
        descriptors.now.max more }
    ensures refusal { IfErr result (λ e. is_failure e ≡ false) }
{
    if !descriptors.fits(more) {
        return Err(P1Error::Trap(TrapKind::TableFull));
    }
    Ok(())
}

/// Puts a file's descriptor back, at another position or with other modes.
pub fn put_back(descriptors: &mut Descriptors, fd: u32, file: File, position: u64, modes: FileModes)
    requires is { file_under (slice_get descriptors.old.slots fd) ≡ Some file }
    ensures handles { handles descriptors.new.slots ≡ handles descriptors.old.slots }
    ensures slots { descriptors.new.slots ≡ slice_set descriptors.old.slots fd
        (Slot.File (record { file = file; position = position; modes = modes })) }
    ensures max { descriptors.new.max ≡ descriptors.old.max }
{
    let slot = FileSlot {
        file,
        position,
        modes,
    };
    descriptors.put_back(fd, slot);
}

/// How a standard stream is refused where a file is asked for.
fn stream_refusal(wanted: FileUse, stream: Stream) -> P1Error
    ensures specified { result ≡ errors.Errno (stream_refused wanted stream) }
    ensures refusal { is_failure result ≡ false }
{
    let errno = match wanted {
        FileUse::Itself => Errno::Badf,
        FileUse::Position => Errno::Spipe,
        FileUse::ReadAt => match stream {
            Stream::Input => Errno::Spipe,
            Stream::Output | Stream::Error => Errno::Badf,
        },
        FileUse::WriteAt => match stream {
            Stream::Input => Errno::Badf,
            Stream::Output | Stream::Error => Errno::Spipe,
        },
    };
    P1Error::Errno(errno)
}

/// The file of a number: Badf where that isn't a file's, and Spipe of a standard stream where a place in a file is
/// named that could be read or written there.
#[tactic(auto, using(wasi_p1_model::proofs::SlotRules::slots))]
pub fn file_at<H: Host>(
    host: &H,
    descriptors: &Descriptors,
    fd: u32,
    wanted: FileUse,
) -> Result<FileSlot, P1Error>
    requires owned { Owned (H.live host.now) (handles descriptors.now.slots) }
    ensures live { IfOk result (λ f. contains (H.live host.now) f.file.file ≡ true) }
    ensures is { IfOk result (λ f. slice_get descriptors.now.slots fd ≡ Some (Slot.File f)) }
    ensures stands { IfOk result (λ f. descriptor_under (slice_get descriptors.now.slots fd)
        ≡ Some (Descriptor.File f.file)) }
    ensures refusal { IfErr result (λ e. is_failure e ≡ false) }
    ensures specified { result_map_both (open_file_of (H.model host.now).held) (λ e. e) result
        ≡ file_in wanted (slice_get (guest_slots (H.model host.now).held descriptors.now.slots) fd) }
{
    let Some(slot) = descriptors.get(fd) else {
        return Err(P1Error::Errno(Errno::Badf));
    };
    match slot {
        Slot::File(file) => Ok(file),
        Slot::Stream(stream) => Err(stream_refusal(wanted, stream)),
        Slot::Directory(_) => Err(P1Error::Errno(Errno::Badf)),
        Slot::Closed => Err(P1Error::Errno(Errno::Badf)),
    }
}

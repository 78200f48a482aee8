//! Where a file is read and written, and by how much it grows.
ghost use Rattle.std.specs.Prelude.{◌≡◌, ◌+◌, ◌≤◌, true, false, IsTrue, slice_get, Some, None, Ok, IfSome, IfOk, IfErr, OnOk};
ghost use Rattle.std.specs.FinSet.{contains};
ghost use Rattle.std.specs.Result.{result_map_both};
ghost use Rattle.wasi_host.specs.HostCall.{Append, Stat};
ghost use Rattle.wasi_host.specs.HostLaws.{Rose};
ghost use Rattle.wasi_p1_types.specs.CallParts.{IsReplied, Knows, Makes, WantsNoMemory, is_failure, open_file_of};
ghost use Rattle.wasi_p1_model.specs.CallTransition.{Causes};
ghost use Rattle.wasi_p1_types.specs.Files.{base_in, host_advice, position_from, read_place_in};
ghost use Rattle.wasi_p1_types.specs.Guest.{guest_slots};
ghost use Rattle.wasi_p1_model.specs.Owners.{handles, Owned};
ghost use Rattle.wasi_p1_types.specs.SpecParts.{permit};
ghost use Rattle.wasi_p1_model.specs.Putting.{appended_in, count_in, put_call, put_end, put_in, put_request};
ghost use Rattle.wasi_p1_types.specs.Quotas.{allowance};
ghost use Rattle.wasi_p1_types.specs.Spending.{growth_from};
ghost use Rattle.wasi_fs.specs.Calls.{may_do};
ghost use Rattle.wasi_fs.specs.declared.perms.Act.TheVariants.{Alter};
ghost use Rattle.wasi_p1_types.specs.Request.{Direct, Behind};
ghost use Rattle.wasi_p1_types.specs.CallResult.{give};
ghost use Rattle.wasi_p2_types.specs.Advices.{advice_named};
ghost use Rattle.wasi_p1_types.specs.declared.usage.FileUse.TheVariants.{ReadAt};

use crate::transfer::write_piece;
use wasi_fs::{Act, File, FsPerms};
use wasi_guest::{Advice, Errno, Whence};
use wasi_host::{Handle, Host};
use wasi_p1_state::descriptors::Descriptors;
use wasi_p1_state::lookups::{file_at, room_at};
use wasi_p1_types::{
    Allowance, FileEnd, FileModes, FileSlot, FileUse, GuestEnv, INVALID, P1Error, Put, Slot,
};
use wasi_p2_calls::types;

/// The file of a number that is read at an offset: as such a number is refused, and trap TableFull where no descriptor
/// more may be live, since the crate reads through a stream.
pub fn read_place<H: Host>(
    host: &H,
    descriptors: &Descriptors,
    fd: u32,
) -> Result<FileSlot, P1Error>
    requires owned { Owned (H.live host.now) (handles descriptors.now.slots) }
    ensures live { IfOk result (λ f. contains (H.live host.now) f.file.file ≡ true) }
    ensures is { IfOk result (λ f. slice_get descriptors.now.slots fd ≡ Some (Slot.File f)) }
    ensures refusal { IfErr result (λ e. is_failure e ≡ false) }
    ensures specified { result_map_both (open_file_of (H.model host.now).held) (λ e. e) result
        ≡ read_place_in (guest_slots (H.model host.now).held descriptors.now.slots) descriptors.now.max
        (slice_get (guest_slots (H.model host.now).held descriptors.now.slots) fd) }
{
    let file = file_at(host, descriptors, fd, FileUse::ReadAt)?;
    room_at(host, descriptors, 1)?;
    Ok(file)
}

/// From where a position is counted, but for the end of the file.
fn base_of(position: u64, whence: Whence) -> Option<u64>
    ensures { result ≡ base_in position whence }
{
    match whence {
        Whence::Set => Some(0),
        Whence::Cur => Some(position),
        Whence::End => None,
    }
}

/// A position so far from another one: Inval where that is below 0, or 64 bits don't hold it.
#[tactic(auto, unfolding(wasi_p1_types::specs::Files::position_from))]
fn position_from(base: u64, offset: i64) -> Result<u64, P1Error>
    ensures specified { result ≡ position_from base offset }
    ensures refusal { IfErr result (λ e. is_failure e ≡ false) }
    ensures never_wants { IfErr result WantsNoMemory }
{
    base.checked_add_signed(offset).ok_or(INVALID)
}

/// A position so far from the end of a file, whose size the host tells: Inval as of `position_from`.
fn position_from_end<H: Host>(host: &mut H, file: Handle, offset: i64) -> Result<u64, P1Error>
    requires live { contains (H.live host.old) file ≡ true }
    ensures cause { Causes (H.faults host.old) (H.faults host.new) result }
    ensures live { H.live host.new ≡ H.live host.old }
    ensures logged { H.lookups host.new ≡ H.lookups host.old }
    ensures never_wants { IfErr result WantsNoMemory }

    // The specification, over every host and over a modelled one.
    ensures front { IsReplied (Direct (Stat ((H.model host.old).held file).node))
        (λ metadata. position_from metadata.size offset) result }
    ensures modelled { IsTrue H.modelled → Makes (Rose (H.faults host.old) (H.faults host.new)) (H.live host.old)
        (H.model host.old) (H.model host.new) (Direct (Stat ((H.model host.old).held file).node))
        (λ metadata. position_from metadata.size offset) result }
{
    let metadata = host.stat(file)?;
    let position = position_from(metadata.size, offset)?;
    Ok(position)
}

/// A position so far from the place that `whence` names, of a file at another one: Inval as of `position_from`. The
/// host is asked for the file's size where the place is its end.
pub fn position_sought<H: Host>(
    host: &mut H,
    file: Handle,
    position: u64,
    whence: Whence,
    offset: i64,
) -> Result<u64, P1Error>
    requires live { contains (H.live host.old) file ≡ true }
    ensures cause { Causes (H.faults host.old) (H.faults host.new) result }
    ensures live { H.live host.new ≡ H.live host.old }
    ensures logged { H.lookups host.new ≡ H.lookups host.old }
    ensures never_wants { IfErr result WantsNoMemory }

    // The specification, over every host and over a modelled one.
    ensures known { Knows (base_in position whence) (λ base. position_from base offset) result host.old host.new }
    ensures front { base_in position whence ≡ None → IsReplied (Direct (Stat ((H.model host.old).held file).node))
        (λ metadata. position_from metadata.size offset) result }
    ensures modelled { IsTrue H.modelled → base_in position whence ≡ None
        → Makes (Rose (H.faults host.old) (H.faults host.new)) (H.live host.old) (H.model host.old)
        (H.model host.new) (Direct (Stat ((H.model host.old).held file).node))
        (λ metadata. position_from metadata.size offset) result }
{
    let Some(base) = base_of(position, whence) else {
        return position_from_end(host, file, offset);
    };
    position_from(base, offset)
}

/// Puts a piece after a file's last byte, and gives how many bytes the file took. A host that takes nothing of a piece
/// that isn't empty has failed.
#[tactic(auto, using(wasi_host::proofs::Chain::live_rules))]
fn append_piece<H: Host>(host: &mut H, file: Handle, piece: &[u8]) -> Result<u64, P1Error>
    requires live { contains (H.live host.old) file ≡ true }
    ensures cause { Causes (H.faults host.old) (H.faults host.new) result }
    ensures live { H.live host.new ≡ H.live host.old }
    ensures logged { H.lookups host.new ≡ H.lookups host.old }

    // The specification, over every host and over a modelled one.
    ensures front { IsReplied (Direct (Append ((H.model host.old).held file) piece.now)) give result }
    ensures modelled { IsTrue H.modelled → Makes (Rose (H.faults host.old) (H.faults host.new)) (H.live host.old)
        (H.model host.old) (H.model host.new) (Direct (Append ((H.model host.old).held file) piece.now)) give result }
{
    let count = host.append(file, piece)?;
    if count == 0 && !piece.is_empty() {
        return Err(P1Error::Errno(Errno::Io));
    }
    Ok(count as u64)
}

/// Puts a piece after a file's last byte, as `append_piece` does; the position is the file's size after that.
fn put_behind<H: Host>(host: &mut H, file: Handle, piece: &[u8]) -> Result<Put, P1Error>
    requires live { contains (H.live host.old) file ≡ true }
    ensures cause { Causes (H.faults host.old) (H.faults host.new) result }
    ensures live { H.live host.new ≡ H.live host.old }
    ensures logged { H.lookups host.new ≡ H.lookups host.old }

    // The specification, over every host and over a modelled one.
    ensures front { IsReplied (Behind ((H.model host.old).held file) piece.now) (λ put. give (appended_in put)) result }
    ensures modelled { IsTrue H.modelled → Makes (Rose (H.faults host.old) (H.faults host.new)) (H.live host.old)
        (H.model host.old) (H.model host.new) (Behind ((H.model host.old).held file) piece.now)
        (λ put. give (appended_in put)) result }
{
    let count = append_piece(host, file, piece)?;
    let metadata = host.stat(file)?;
    Ok(Put {
        count,
        position: metadata.size,
    })
}

/// Puts a piece into a file, in append mode after its last byte and else from an offset on, and gives how many bytes
/// the file took.
pub fn put_piece<H: Host>(
    host: &mut H,
    file: Handle,
    modes: FileModes,
    offset: u64,
    piece: &[u8],
) -> Result<u64, P1Error>
    requires live { contains (H.live host.old) file ≡ true }
    ensures cause { Causes (H.faults host.old) (H.faults host.new) result }
    ensures live { H.live host.new ≡ H.live host.old }
    ensures logged { H.lookups host.new ≡ H.lookups host.old }

    // The specification, over every host and over a modelled one.
    ensures front { IsReplied (Direct (put_call modes.append ((H.model host.old).held file) offset piece.now))
        (λ answer. give (count_in modes.append ((H.model host.old).held file) offset piece.now answer)) result }
    ensures modelled { IsTrue H.modelled → Makes (Rose (H.faults host.old) (H.faults host.new)) (H.live host.old)
        (H.model host.old) (H.model host.new)
        (Direct (put_call modes.append ((H.model host.old).held file) offset piece.now))
        (λ answer. give (count_in modes.append ((H.model host.old).held file) offset piece.now answer)) result }
{
    if modes.append {
        return append_piece(host, file, piece);
    }
    write_piece(host, file, offset, piece)
}

/// Puts a piece into a file, in append mode after its last byte and else from its position on, and gives where its
/// position is then: in append mode the file's size, and else after what the file took.
pub fn put_next<H: Host>(
    host: &mut H,
    file: Handle,
    modes: FileModes,
    position: u64,
    piece: &[u8],
) -> Result<Put, P1Error>
    requires live { contains (H.live host.old) file ≡ true }
    ensures cause { Causes (H.faults host.old) (H.faults host.new) result }
    ensures live { H.live host.new ≡ H.live host.old }
    ensures logged { H.lookups host.new ≡ H.lookups host.old }

    // The specification, over every host and over a modelled one.
    ensures front { IsReplied (put_request modes.append ((H.model host.old).held file) position piece.now)
        (λ reply. give (put_in modes.append ((H.model host.old).held file) position piece.now reply)) result }
    ensures modelled { IsTrue H.modelled → Makes (Rose (H.faults host.old) (H.faults host.new)) (H.live host.old)
        (H.model host.old) (H.model host.new)
        (put_request modes.append ((H.model host.old).held file) position piece.now)
        (λ reply. give (put_in modes.append ((H.model host.old).held file) position piece.now reply)) result }
{
    if modes.append {
        return put_behind(host, file, piece);
    }
    let count = write_piece(host, file, position, piece)?;
    Ok(Put {
        count,
        position: position + count,
    })
}

/// Where a file ends after a piece is put into it, if that is more than its size.
pub fn put_end(modes: FileModes, offset: u64, piece: &[u8]) -> FileEnd
    ensures { result ≡ put_end modes.append offset piece.now }
{
    if modes.append {
        return FileEnd::Behind(piece.len() as u64);
    }
    FileEnd::of_piece(offset, piece)
}

/// How many bytes a file would grow by, with its size by its host. Refusal: Dquot where the bound would be passed.
fn growth_of<H: Host>(
    host: &mut H,
    file: Handle,
    limit: Allowance,
    end: FileEnd,
) -> Result<u64, P1Error>
    requires live { contains (H.live host.old) file ≡ true }
    ensures cause { Causes (H.faults host.old) (H.faults host.new) result }
    ensures live { H.live host.new ≡ H.live host.old }
    ensures logged { H.lookups host.new ≡ H.lookups host.old }
    ensures never_wants { IfErr result WantsNoMemory }
    ensures fits { IfOk result (λ growth. limit.used + growth ≤ limit.most) }

    // The specification, over every host and over a modelled one.
    ensures front { IsReplied (Direct (Stat ((H.model host.old).held file).node))
        (λ metadata. growth_from limit end metadata.size) result }
    ensures modelled { IsTrue H.modelled → Makes (Rose (H.faults host.old) (H.faults host.new)) (H.live host.old)
        (H.model host.old) (H.model host.new) (Direct (Stat ((H.model host.old).held file).node))
        (λ metadata. growth_from limit end metadata.size) result }
{
    let metadata = host.stat(file)?;
    let growth = limit.growth_from(end, metadata.size)?;
    Ok(growth)
}

/// How many bytes a file would grow by, where a bound on these is set: only then its host is asked for its size.
/// Refusal: Dquot where the bound would be passed.
pub fn check_growth<H: Host>(
    host: &mut H,
    holdings: &GuestEnv,
    file: &File,
    end: FileEnd,
) -> Result<u64, P1Error>
    requires live { contains (H.live host.old) file.now.file ≡ true }
    ensures cause { Causes (H.faults host.old) (H.faults host.new) result }
    ensures live { H.live host.new ≡ H.live host.old }
    ensures logged { H.lookups host.new ≡ H.lookups host.old }
    ensures never_wants { IfErr result WantsNoMemory }
    ensures fits { IfOk result (λ growth. IfSome holdings.now.quota.bytes
        (λ most. holdings.now.used.bytes + growth ≤ most)) }

    // The specification, over every host and over a modelled one.
    ensures unbound { allowance holdings.now file.now.open_mode ≡ None → (result ≡ Ok 0) × (host.new ≡ host.old) }
    ensures front { (limit : Allowance) → allowance holdings.now file.now.open_mode ≡ Some limit
        → IsReplied (Direct (Stat ((H.model host.old).held file.now.file).node))
        (λ metadata. growth_from limit end metadata.size) result }
    ensures modelled { IsTrue H.modelled → (limit : Allowance) → allowance holdings.now file.now.open_mode ≡ Some limit
        → Makes (Rose (H.faults host.old) (H.faults host.new)) (H.live host.old)
        (H.model host.old) (H.model host.new) (Direct (Stat ((H.model host.old).held file.now.file).node))
        (λ metadata. growth_from limit end metadata.size) result }
{
    let Some(limit) = holdings.allowance(file.open_mode) else {
        return Ok(0);
    };
    growth_of(host, file.file, limit, end)
}

/// Whether a file may be altered: Perm unless its permissions are read-write.
#[tactic(auto, unfolding(wasi_fs::specs::Calls::may_do))]
pub fn check_alter(perms: FsPerms) -> Result<(), P1Error>
    ensures specified { result ≡ permit (may_do perms Alter) }
    ensures permitted { OnOk result (may_do perms Alter ≡ None) }
    ensures refusal { IfErr result (λ e. is_failure e ≡ false) }
{
    if !perms.permits(Act::Alter) {
        return Err(P1Error::Errno(Errno::Perm));
    }
    Ok(())
}

/// The advice of the same name.
pub fn view_advice(advice: Advice) -> types::Advice
    ensures { advice_named result ≡ host_advice advice }
{
    match advice {
        Advice::Normal => types::Advice::Normal,
        Advice::Sequential => types::Advice::Sequential,
        Advice::Random => types::Advice::Random,
        Advice::WillNeed => types::Advice::WillNeed,
        Advice::DontNeed => types::Advice::DontNeed,
        Advice::NoReuse => types::Advice::NoReuse,
    }
}

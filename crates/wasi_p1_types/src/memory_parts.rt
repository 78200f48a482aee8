//! What the calls of preview1 do with a guest's memory, a part at a time.
ghost use Rattle.std.specs.Prelude.{◌≡◌, false, length, take, IfErr, OnOk, OnErr};
ghost use Rattle.std.specs.Result.{result_map_both};
ghost use Rattle.wasi_guest.specs.Range.{IsInMemory};
ghost use Rattle.wasi_p1_types.specs.CallParts.{with_after, WantsNoMemory, is_failure};
ghost use Rattle.wasi_p1_types.specs.Front.{charge, charged_text, charged_buffer};
ghost use Rattle.wasi_p1_types.specs.SpecParts.{range, may_write, text_to};

use crate::error::P1Error;
use wasi_fs::FsPerms;
use wasi_guest::{Errno, Iovec, TrapKind, first_buffer, slice_at, text_in, write_bytes};

/// The `n` bytes of a guest's memory from the address `ptr` on, lent: trap Pointer where the memory doesn't hold them all.
pub fn bytes_at(memory: &[u8], ptr: u32, n: u32) -> Result<&[u8], P1Error>
    ensures specified { result_map_both (λ bytes. bytes.now) (λ e. e) result ≡ range memory.now ptr n }
    ensures inside { OnOk result (IsInMemory memory.now ptr n) }
{
    let Some(bytes) = slice_at(memory, ptr, n) else {
        return Err(P1Error::Trap(TrapKind::Pointer));
    };
    Ok(bytes)
}

/// Takes so much of a call's fuel, as the crate's `hostcall_fuel`: Nomem where there is less, and then none is taken.
#[tactic(auto, unfolding(crate::specs::Front::charge))]
pub fn charge(fuel: &mut u64, n: u64) -> Result<(), P1Error>
    ensures specified { (result, fuel.new) ≡ charge n fuel.old }
    ensures refusal { IfErr result (λ e. is_failure e ≡ false) }
{
    if *fuel < n {
        return Err(P1Error::Errno(Errno::Nomem));
    }
    *fuel -= n;
    Ok(())
}

/// The text of `n` bytes from the address `ptr` on, which takes as much fuel as it has bytes. Refusals, in this order:
/// Nomem where there is less fuel; trap Pointer where the memory doesn't hold it; Ilseq where its bytes aren't UTF-8.
#[tactic(auto, using(crate::proofs::Wanting::fault_never), unfolding(crate::specs::Front::charged_text))]
pub fn text_at<'m>(memory: &'m [u8], fuel: &mut u64, ptr: u32, n: u32) -> Result<&'m str, P1Error>
    ensures specified { (result_map_both (λ text. text.now) (λ e. e) result, fuel.new)
        ≡ charged_text memory.now ptr n fuel.old }
    ensures refusal { IfErr result (λ e. is_failure e ≡ false) }
{
    charge(fuel, n as u64)?;
    Ok(text_in(memory, ptr, n)?)
}

/// The first buffer that has bytes, of so many records at an address. Where none has any it is an empty one at 0. The
/// records take as much fuel as they have bytes, before they are read, and then the buffer does. Refusals, in this order:
/// Nomem where there is less fuel than the records have bytes; those of reading them, trap Pointer; Nomem where there is
/// less than the buffer has.
#[tactic(auto, using(crate::proofs::Wanting::fault_never), unfolding(crate::specs::Front::charged_buffer))]
pub fn buffer_at(memory: &[u8], fuel: &mut u64, iovs: u32, iovs_len: u32) -> Result<Iovec, P1Error>
    ensures specified { (result, fuel.new) ≡ charged_buffer memory.now iovs iovs_len fuel.old }
    ensures refusal { IfErr result (λ e. is_failure e ≡ false) }
{
    charge(fuel, 8 * iovs_len as u64)?;
    let buffer = first_buffer(memory, iovs, iovs_len)?;
    charge(fuel, buffer.buf_len as u64)?;
    Ok(buffer)
}

/// Whether a file may be written that was opened under these permissions: Badf under read-only ones.
#[tactic(auto, unfolding(crate::specs::SpecParts::may_write))]
pub fn check_write(perms: FsPerms) -> Result<(), P1Error>
    ensures specified { result ≡ may_write perms }
    ensures refusal { IfErr result (λ e. is_failure e ≡ false) }
{
    if perms.write_not_permitted() {
        return Err(P1Error::Errno(Errno::Badf));
    }
    Ok(())
}

/// Puts bytes into the front of a buffer of `buf_len` bytes from the address `buf` on, as many as it takes, and gives how
/// many: trap Pointer where the memory doesn't hold as many there, and then none is put.
pub fn write_front(memory: &mut [u8], buf: u32, buf_len: u32, bytes: &[u8]) -> Result<u32, P1Error>
    ensures size { length memory.new ≡ length memory.old }
    ensures same { OnErr result (memory.new ≡ memory.old) }
    ensures refusal { IfErr result (λ e. is_failure e ≡ false) }
    ensures never_wants { IfErr result WantsNoMemory }
    ensures specified { with_after result memory.new ≡ text_to memory.old buf (take buf_len bytes.now) }
{
    let n = (buf_len as usize).min(bytes.len());
    let part = &bytes[..n];
    let n = n as u32;
    bytes_at(memory, buf, n)?;
    write_bytes(memory, buf as usize, part);
    Ok(n)
}

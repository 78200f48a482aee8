//! What is read from a guest's memory at an address, or why it isn't.
ghost use Rattle.std.specs.Prelude.{◌≡◌, ◌+◌, ◌^◌, ◌<◌, ◌≤◌, length, slice_range, IfOk, OnOk};
ghost use Rattle.std.specs.Result.{result_map_both};
ghost use Rattle.wasi_guest.specs.Iovec.{iovec_in, first_buffer};
ghost use Rattle.wasi_guest.specs.Records.{bytes_in, record_in, text_from, text_in, u32_in, u16_at, u32_at, u64_at};
ghost use Rattle.wasi_guest.specs.Subscription.{subscription_in};

use crate::guest_error::GuestError;
use crate::iovec::Iovec;
use crate::range::slice_at;
use crate::subscription::{Subscription, awaited_of};

/// The bytes of a range, or why it isn't in memory.
fn bytes_in(memory: &[u8], ptr: u32, n: u32) -> Result<&[u8], GuestError>
    ensures bytes { result_map_both (λ bytes. bytes.now) (λ e. e) result ≡ bytes_in memory.now ptr n }
    ensures len { IfOk result (λ bytes. length bytes.now ≡ n) }
    ensures next { OnOk result (ptr + n < 2 ^ 32) }
{
    if ptr.checked_add(n).is_none() {
        return Err(GuestError::PtrOverflow);
    }
    let Some(bytes) = slice_at(memory, ptr, n) else {
        return Err(GuestError::PtrOutOfBounds);
    };
    Ok(bytes)
}

/// The bytes of a record of so many bytes, whose address is a multiple of this.
fn record_in(memory: &[u8], ptr: u32, size: u32, alignment: u32) -> Result<&[u8], GuestError>
    requires { 0 < alignment }
    ensures bytes { result_map_both (λ bytes. bytes.now) (λ e. e) result ≡ record_in memory.now ptr size alignment }
    ensures len { IfOk result (λ bytes. length bytes.now ≡ size) }
    ensures next { OnOk result (ptr + size < 2 ^ 32) }
{
    if ptr % alignment != 0 {
        return Err(GuestError::PtrNotAligned);
    }
    bytes_in(memory, ptr, size)
}

/// The number at an address, four bytes in little-endian order. PtrNotAligned where the address isn't a multiple of 4,
/// then PtrOverflow where the bytes end above 2^32 - 1, PtrOutOfBounds where they leave the memory.
pub fn u32_in(memory: &[u8], ptr: u32) -> Result<u32, GuestError>
    ensures number { result ≡ u32_in memory.now ptr }
{
    let bytes = record_in(memory, ptr, 4, 4)?;
    Ok(u32_at(bytes, 0))
}

/// The text in a range. PtrOverflow where the range ends above 2^32 - 1, PtrOutOfBounds where it leaves the memory, then
/// InvalidUtf8 where its bytes aren't UTF-8.
pub fn text_in(memory: &[u8], ptr: u32, n: u32) -> Result<&str, GuestError>
    ensures text { result_map_both (λ text. text.now) (λ e. e) result ≡ text_in memory.now ptr n }
{
    let bytes = bytes_in(memory, ptr, n)?;
    text_from(bytes)
}

/// The text that bytes are.
fn text_from(bytes: &[u8]) -> Result<&str, GuestError>
    ensures { result_map_both (λ text. text.now) (λ e. e) result ≡ text_from bytes.now }
{
    match str::from_utf8(bytes) {
        Ok(text) => Ok(text),
        Err(_) => Err(GuestError::InvalidUtf8),
    }
}

/// The buffer that the record at an address names: preview1's `iovec`, of 8 bytes, aligned to 4. It is refused as
/// `u32_in` is.
pub fn iovec_in(memory: &[u8], ptr: u32) -> Result<Iovec, GuestError>
    ensures record_at { result ≡ iovec_in memory.now ptr }
    ensures next { OnOk result (ptr + 8 < 2 ^ 32) }
{
    let bytes = record_in(memory, ptr, 8, 4)?;
    Ok(Iovec {
        buf: u32_at(bytes, 0),
        buf_len: u32_at(bytes, 4),
    })
}

/// What the record at an address waits for: preview1's `subscription`, of 48 bytes, aligned to 8. It is refused as
/// `u32_in` is; then InvalidEnumValue where its tag or the number of a clock names nothing, InvalidFlagValue where a
/// clock's flag is unknown.
pub fn subscription_in(memory: &[u8], ptr: u32) -> Result<Subscription, GuestError>
    ensures record_at { result ≡ subscription_in memory.now ptr }
{
    let bytes = record_in(memory, ptr, 48, 8)?;
    let what = awaited_of(bytes)?;
    Ok(Subscription {
        userdata: u64_at(bytes, 0),
        what,
    })
}

/// The buffer of `n` records that stand from `iovs` on. They are read in order up to the first whose length isn't 0;
/// where each has length 0 it is the empty buffer at 0. It is refused as the first record that is read and is refused.
/// It stands for the crate's `first_non_empty_iovec`, without fuel.
#[tactic(auto, using(crate::proofs::Buffers::passed_over))]
pub fn first_buffer(memory: &[u8], iovs: u32, n: u32) -> Result<Iovec, GuestError>
    ensures first { result ≡ first_buffer memory.now iovs n }
{
    for i in 0..n {
        let item = iovec_in(memory, iovs + 8 * i)?;
        if item.buf_len != 0 {
            return Ok(item);
        }
    }
    Ok(Iovec { buf: 0, buf_len: 0 })
}

/// The N bytes at a place of a record.
fn chunk_at<const N: usize>(bytes: &[u8], at: usize) -> [u8; N]
    requires { at + N ≤ length bytes.now }
    ensures { result ≡ slice_range bytes.now at (at + N) }
{
    match bytes[at..at + N].first_chunk() {
        Some(chunk) => *chunk,
        None => [0; N],
    }
}

/// The little-endian number of two bytes at a place of a record.
pub(crate) fn u16_at(bytes: &[u8], at: usize) -> u16
    requires { at + 2 ≤ length bytes.now }
    ensures { result ≡ u16_at bytes.now at }
{
    u16::from_le_bytes(chunk_at(bytes, at))
}

/// That of eight bytes.
pub(crate) fn u64_at(bytes: &[u8], at: usize) -> u64
    requires { at + 8 ≤ length bytes.now }
    ensures { result ≡ u64_at bytes.now at }
{
    u64::from_le_bytes(chunk_at(bytes, at))
}

/// That of four bytes.
pub(crate) fn u32_at(bytes: &[u8], at: usize) -> u32
    requires { at + 4 ≤ length bytes.now }
    ensures { result ≡ u32_at bytes.now at }
{
    u32::from_le_bytes(chunk_at(bytes, at))
}

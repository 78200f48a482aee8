//! Copies of bytes with a change, in memory of their own.
ghost use Rattle.std.specs.Prelude.{◌≡◌, ◌+◌, ◌≤◌, IfOk, length, take};
ghost use Rattle.wasi_host.specs.Numbers.{largest_file};
ghost use Rattle.wasi_host.specs.Step.{with_piece, with_size};

use std::alloc::{AllocError, Global};
use wasi_tree::{put_piece, resize_bytes};

/// A copy of bytes with a piece from an offset on, with zeros in a gap before it.
pub fn copy_with_piece(
    alloc: Global,
    bytes: &[u8],
    offset: usize,
    piece: &[u8],
) -> Result<Vec<u8>, AllocError>
    requires { offset + length piece.now ≤ largest_file }
    ensures { IfOk result (λ copy. copy.items ≡ with_piece bytes.now offset piece.now) }
{
    let mut copy = Vec::with_capacity(alloc, bytes.len().max(offset + piece.len()))?;
    copy.extend_from_slice(bytes)?;
    put_piece(&mut copy, offset, piece)?;
    Ok(copy)
}

/// A copy of the first bytes, so many, with zeros after them where there are fewer.
#[tactic(auto, using(crate::proofs::SeatLemmas::with_size_front))]
pub fn copy_of_size(alloc: Global, bytes: &[u8], size: usize) -> Result<Vec<u8>, AllocError>
    ensures { IfOk result (λ copy. copy.items ≡ with_size size bytes.now) }
{
    let mut copy = Vec::with_capacity(alloc, size)?;
    copy.extend_from_slice(front(bytes, size))?;
    resize_bytes(&mut copy, size)?;
    Ok(copy)
}

/// The first of some bytes, so many at most.
fn front(bytes: &[u8], size: usize) -> &[u8]
    ensures { result.now ≡ take size bytes.now }
{
    if size < bytes.len() {
        &bytes[..size]
    } else {
        bytes
    }
}

//! The calls of an open file, in whatever way its node is kept.
ghost use Rattle.std.specs.Prelude.{◌≡◌, ◌<◌, ◌≤◌, ◌^◌, IfOk, OnOk, OnErr, MatchResult, Ok, Err, take, drop, length, false};
ghost use Rattle.wasi_host.specs.Tree.{next_of};
ghost use Rattle.wasi_host.specs.HostCall.{SetSize};
ghost use Rattle.wasi_host.specs.Refusal.{is_too_large};
ghost use Rattle.wasi_host.specs.Step.{write_step, append_step, size_set};
ghost use Rattle.wasi_host.specs.Answer.{bytes_read, bytes_taken, bytes_appended, host_answer};
ghost use Rattle.wasi_tree.specs.Sound.{NodesStay};
ghost use Rattle.wasi_tree.specs.TouchedTree.{Grows, MeansCode};

use crate::node_store::NodeStore;
use std::alloc::AllocError;
use wasi_host::{ErrorCode, FILE_MAX, HostError, OpenHandle};

/// Reads a file's bytes from an offset on into the front of `buf`, and answers how many.
#[tactic(auto, unfolding(wasi_host::specs::Refusal::refusal))]
pub fn get_at<S: NodeStore>(
    store: &S,
    file: OpenHandle,
    buf: &mut [u8],
    offset: u64,
) -> Result<usize, ErrorCode>
    requires { file.node < next_of (S.seen store.now).tree }
    ensures fits { IfOk result (λ n. n ≤ length buf.old) }
    ensures offset { OnOk result (offset < 2 ^ 63) }
    ensures rest { IfOk result (λ n. drop n buf.new ≡ drop n buf.old) }
    ensures kept { OnErr result (buf.new ≡ buf.old) }
    ensures meaning { MatchResult result
        (λ n. bytes_read (S.seen store.now).tree file offset (length buf.old) ≡ Ok (take n buf.new))
        (λ code. bytes_read (S.seen store.now).tree file offset (length buf.old) ≡ Err code) }
{
    if !file.mode.can_read() || !store.is_file(file.node) {
        return Err(ErrorCode::BadDescriptor);
    }
    if offset >= 1 << 63 {
        return Err(ErrorCode::Invalid);
    }
    Ok(copy_front(bytes_from(store.bytes(file.node), offset), buf))
}

/// Puts a piece of bytes into a file from an offset on, and answers how many: all.
#[tactic(auto, unfolding(wasi_host::specs::Refusal::refusal))]
pub fn put_at<S: NodeStore>(
    store: &mut S,
    file: OpenHandle,
    piece: &[u8],
    offset: u64,
) -> Result<usize, HostError>
    requires within { file.node < next_of (S.seen store.old).tree }
    requires at { S.HasRoom store.old file.node }
    ensures meaning { MatchResult result
        (λ n. bytes_taken (S.seen store.old).tree file offset piece.now ≡ Ok n)
        (MeansCode (bytes_taken (S.seen store.old).tree file offset piece.now)) }
    ensures step { OnOk result ((S.seen store.new).tree ≡ write_step (S.seen store.old).tree file.node offset piece.now) }
    ensures kept { OnErr result ((S.seen store.new).tree ≡ (S.seen store.old).tree) }
    ensures touched { (S.seen store.new).touched ≡ (S.seen store.old).touched }
    ensures stays { NodesStay (S.seen store.old).tree (S.seen store.new).tree }
    ensures room { Grows (S.HasRoom store.old) (S.HasRoom store.new) }
    ensures all { IfOk result (λ n. n ≡ length piece.now) }
    ensures offset { OnOk result (offset < 2 ^ 63) }
{
    if !file.mode.can_write() {
        return Err(HostError::Code(ErrorCode::BadDescriptor));
    }
    if offset >= 1 << 63 {
        return Err(HostError::Code(ErrorCode::Invalid));
    }
    if makes_too_large(offset, piece) {
        return Err(HostError::Code(ErrorCode::FileTooLarge));
    }
    write(store, file.node, offset as usize, piece)?;
    Ok(piece.len())
}

/// Puts a piece of bytes after a file's last one, and answers how many: all.
#[tactic(auto, unfolding(wasi_host::specs::Refusal::refusal))]
pub fn put_behind<S: NodeStore>(
    store: &mut S,
    file: OpenHandle,
    piece: &[u8],
) -> Result<usize, HostError>
    requires within { file.node < next_of (S.seen store.old).tree }
    requires at { S.HasRoom store.old file.node }
    ensures meaning { MatchResult result
        (λ n. bytes_appended (S.seen store.old).tree file piece.now ≡ Ok n)
        (MeansCode (bytes_appended (S.seen store.old).tree file piece.now)) }
    ensures step { OnOk result ((S.seen store.new).tree ≡ append_step (S.seen store.old).tree file.node piece.now) }
    ensures kept { OnErr result ((S.seen store.new).tree ≡ (S.seen store.old).tree) }
    ensures touched { (S.seen store.new).touched ≡ (S.seen store.old).touched }
    ensures stays { NodesStay (S.seen store.old).tree (S.seen store.new).tree }
    ensures room { Grows (S.HasRoom store.old) (S.HasRoom store.new) }
    ensures all { IfOk result (λ n. n ≡ length piece.now) }
{
    if !file.mode.can_write() {
        return Err(HostError::Code(ErrorCode::BadDescriptor));
    }
    let end = store.bytes(file.node).len();
    if makes_too_large(end as u64, piece) {
        return Err(HostError::Code(ErrorCode::FileTooLarge));
    }
    write(store, file.node, end, piece)?;
    Ok(piece.len())
}

/// Writes a piece of bytes into a file from an offset on; no bytes change nothing. If memory runs out, nothing has
/// changed.
#[tactic(auto, using(crate::proofs::StoreLemmas::write_none, crate::proofs::StoreLemmas::write_some))]
fn write<S: NodeStore>(
    store: &mut S,
    node: u64,
    offset: usize,
    piece: &[u8],
) -> Result<(), AllocError>
    requires within { node < next_of (S.seen store.old).tree }
    requires at { S.HasRoom store.old node }
    requires fits { is_too_large offset piece.now ≡ false }
    ensures step { OnOk result ((S.seen store.new).tree ≡ write_step (S.seen store.old).tree node offset piece.now) }
    ensures kept { OnErr result ((S.seen store.new).tree ≡ (S.seen store.old).tree) }
    ensures touched { (S.seen store.new).touched ≡ (S.seen store.old).touched }
    ensures stays { NodesStay (S.seen store.old).tree (S.seen store.new).tree }
    ensures room { Grows (S.HasRoom store.old) (S.HasRoom store.new) }
{
    if piece.is_empty() {
        return Ok(());
    }
    store.put(node, offset, piece)
}

/// Cuts a file to a size, or fills it up with zeros.
#[tactic(auto, unfolding(wasi_host::specs::Refusal::refusal))]
pub fn put_size<S: NodeStore>(store: &mut S, file: OpenHandle, size: u64) -> Result<(), HostError>
    requires within { file.node < next_of (S.seen store.old).tree }
    requires at { S.HasRoom store.old file.node }
    ensures meaning { MatchResult result
        (λ unit. host_answer (S.seen store.old).tree (SetSize file size) ≡ Ok unit)
        (MeansCode (host_answer (S.seen store.old).tree (SetSize file size))) }
    ensures step { OnOk result ((S.seen store.new).tree ≡ size_set (S.seen store.old).tree file.node size) }
    ensures kept { OnErr result ((S.seen store.new).tree ≡ (S.seen store.old).tree) }
    ensures touched { (S.seen store.new).touched ≡ (S.seen store.old).touched }
    ensures stays { NodesStay (S.seen store.old).tree (S.seen store.new).tree }
    ensures room { Grows (S.HasRoom store.old) (S.HasRoom store.new) }
{
    if !file.mode.can_write() || size >= 1 << 63 {
        return Err(HostError::Code(ErrorCode::Invalid));
    }
    if size > FILE_MAX as u64 {
        return Err(HostError::Code(ErrorCode::FileTooLarge));
    }
    store.resize(file.node, size as usize)?;
    Ok(())
}

/// The bytes from an offset on; none at or past the end.
fn bytes_from(bytes: &[u8], offset: u64) -> &[u8]
    ensures { result.now ≡ drop offset bytes.now }
{
    if offset >= bytes.len() as u64 {
        return &[];
    }
    &bytes[offset as usize..]
}

/// Copies as many bytes as there are and `buf` takes into its front, and answers how many.
fn copy_front(bytes: &[u8], buf: &mut [u8]) -> usize
    ensures fits { result ≤ length buf.old }
    ensures rest { drop result buf.new ≡ drop result buf.old }
    ensures taken { take result buf.new ≡ take (length buf.old) bytes.now }
{
    let n = bytes.len().min(buf.len());
    buf[..n].copy_from_slice(&bytes[..n]);
    n
}

/// Whether bytes from an offset on would make a file too large. No bytes change nothing.
fn makes_too_large(offset: u64, piece: &[u8]) -> bool
    requires { offset < 2 ^ 63 }
    ensures { result ≡ is_too_large offset piece.now }
{
    !piece.is_empty() && offset + piece.len() as u64 > FILE_MAX as u64
}

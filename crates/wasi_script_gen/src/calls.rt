//! The calls at each of the links, and the texts of their paths in memory.
ghost use Rattle.std.specs.Prelude.{◌≡◌, ◌<◌, ◌++◌, map, IfOk, OnOk};
ghost use Rattle.std.specs.String.{string_bytes};
ghost use Rattle.wasi_form.specs.Plan.{planned_piece};
ghost use Rattle.wasi_script_gen.specs.GenScript as specs;

use std::alloc::{AllocError, Global};
use wasi_form::{Piece, PieceBytes};
use wasi_guest::Call;

/// The calls of a script, and the pieces of its memory.
#[derive(Drop)]
pub struct Turns {
    pub pieces: Vec<Piece>,
    pub calls: Vec<Call>,
}

// The buffer that is read into, as an iovec: 16 bytes at 64.
fn iovec_bytes(alloc: Global) -> Result<PieceBytes, AllocError>
    ensures { IfOk result (λ bytes. bytes.items ≡ specs.iovec_bytes) }
{
    PieceBytes::from_slice(alloc, &[64, 0, 0, 0, 16, 0, 0, 0])
}

// The path of a link, `di/up`.
fn link_path(alloc: Global, i: u64) -> Result<String, AllocError>
    ensures { IfOk result (λ text. string_bytes text ≡ specs.link_path i) }
{
    format!(in alloc; "d{i}/up")
}

// The path of a directory that is made, `ni`.
fn new_path(alloc: Global, i: u64) -> Result<String, AllocError>
    ensures { IfOk result (λ text. string_bytes text ≡ specs.new_path i) }
{
    format!(in alloc; "n{i}")
}

// Puts the calls at the i-th link, and the texts of their paths, after those before them.
fn push_turn(alloc: Global, turns: &mut Turns, i: u64) -> Result<(), AllocError>
    requires { i < 9999 }
    ensures pieces { OnOk result (map planned_piece turns.new.pieces.items
        ≡ map planned_piece turns.old.pieces.items ++ specs.pieces_at i) }
    ensures calls { OnOk result (turns.new.calls.items ≡ turns.old.calls.items ++ specs.calls_at i) }
{
    let link = link_path(alloc, i)?;
    let made = new_path(alloc, i)?;
    let link_at = 1024 + 32 * i as u32;
    let made_at = 1040 + 32 * i as u32;
    turns.calls.push(Call::PathOpen {
        fd: 3,
        dirflags: 1,
        path: link_at,
        path_len: link.len() as u32,
        oflags: 0,
        base: 2,
        inheriting: 0,
        fdflags: 0,
    })?;
    turns.calls.push(Call::FdRead {
        fd: 4,
        iovs: 0,
        iovs_len: 1,
    })?;
    turns.calls.push(Call::FdClose { fd: 4 })?;
    turns.calls.push(Call::PathCreateDirectory {
        fd: 3,
        path: made_at,
        path_len: made.len() as u32,
    })?;
    turns.pieces.push(Piece {
        offset: link_at,
        bytes: PieceBytes::from_vec(link.into_bytes()),
    })?;
    turns.pieces.push(Piece {
        offset: made_at,
        bytes: PieceBytes::from_vec(made.into_bytes()),
    })?;
    Ok(())
}

/// The calls at all links in order, and the pieces of memory that they name.
pub fn all_turns(alloc: Global, n: u64) -> Result<Turns, AllocError>
    requires { n < 10000 }
    ensures pieces { IfOk result (λ turns. map planned_piece turns.pieces.items ≡ specs.gen_pieces n) }
    ensures calls { IfOk result (λ turns. turns.calls.items ≡ specs.gen_calls n) }
{
    let mut turns = Turns {
        pieces: Vec::with_capacity(alloc, 1 + 2 * n as usize)?,
        calls: Vec::with_capacity(alloc, 4 * n as usize)?,
    };
    turns.pieces.push(Piece {
        offset: 0,
        bytes: iovec_bytes(alloc)?,
    })?;
    for i in 0..n {
        push_turn(alloc, &mut turns, i)?;
    }
    Ok(turns)
}

//! The calls of `wasi_snapshot_preview1` on the bytes, the position, the size and the storing of an open file.
#![tactic(auto)]

mod file_ops;
mod file_pieces;
pub mod positions_and_sizes;
pub mod reading_and_writing;
mod transfer;

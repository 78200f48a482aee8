//! The calls of `wasi_snapshot_preview1` that take a path.
#![tactic(auto)]

mod creations;
mod entry_ops;
pub mod opening;
mod opens;
pub mod path_ops;
mod stat;
pub mod times;
mod two_path_ops;
pub mod two_paths;

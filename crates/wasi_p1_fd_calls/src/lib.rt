//! The calls of `wasi_snapshot_preview1` on a descriptor itself, and on the node that it refers to.
#![tactic(auto)]

pub mod descriptors;
mod fdflags;
pub mod listing;
mod node_calls;
mod pages;
mod preopens;
mod slots;
mod stat;
pub mod times;

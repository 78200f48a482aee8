//! The calls of `wasi_snapshot_preview1` on what a guest has beside its files, and the one that waits.
#![tactic(auto)]

pub mod polling;
pub mod services;
mod subscriptions;

//! `Overlay`, a trial run over a tree that stays: a host over a tree in memory, which keeps what changes and leaves the tree.
#![tactic(auto)]

mod byte_copies;
mod commit;
mod grown;
mod kept;
mod over_nodes;
mod over_parents;
mod over_store;
mod overlay;
mod seat;
mod seats;

pub use overlay::Overlay;

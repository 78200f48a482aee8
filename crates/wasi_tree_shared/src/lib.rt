//! A tree that others change between the calls of its host.
#![tactic(auto)]

mod change;
mod order;
mod shared;

pub use change::Change;
pub use shared::Shared;

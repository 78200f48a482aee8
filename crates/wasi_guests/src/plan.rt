//! What several guests are given, and what comes of them.

use std::alloc::AllocError;
use thiserror::Error;
use wasi_form::ScriptPreopen;
use wasi_guest::{Answers, Call, GuestMemory, Quota, Services};
use wasi_tree::NewNode;

/// A directory that a guest is given: its node's number, the name under which the guest knows it, and what may be done
/// below it.
pub type GuestPreopen = ScriptPreopen;

/// A guest before its first turn: the directories that it is given, its environment, its memory, the fuel of each call,
/// how many descriptors may be live, streams and preopens among them, how much it may make and grow, and its calls in
/// order.
#[derive(Drop)]
pub struct GuestPlan {
    pub preopens: Vec<GuestPreopen>,
    pub services: Services,
    pub memory: GuestMemory,
    pub fuel: u64,
    pub table: u32,
    pub quota: Quota,
    pub calls: Vec<Call>,
}

/// What a guest came to: the answer of each of its calls that was made, its memory, and what it wrote to its outputs.
#[derive(Drop)]
pub struct GuestEnd {
    pub answers: Answers,
    pub memory: GuestMemory,
    pub stdout: Vec<u8>,
    pub stderr: Vec<u8>,
}

/// What several guests came to: each of them in order, and the nodes of the tree by their numbers.
#[derive(Drop)]
pub struct GuestsOutcome {
    pub guests: Vec<GuestEnd>,
    pub nodes: Vec<NewNode>,
}

/// Why several guests can't run over one tree.
#[derive(Clone, Copy, Debug, PartialEq, Eq, Error)]
pub enum GuestsError {
    /// A node lies inside two guests: this is the lowest one.
    #[error("node {0} lies inside two guests")]
    Overlap(u64),
    /// The nodes of the tree and one for each turn are more than the tree may have.
    #[error("the turns may make more nodes than the tree has room for")]
    Room,
    #[error("out of memory")]
    Memory,
}

impl From<AllocError> for GuestsError {
    ghost use Rattle.std.specs.Prelude.{◌≡◌};
    ghost use Rattle.wasi_guests.specs.declared.plan.GuestsError.TheVariants.{Memory};

    ghost from_gives = { λ _ e. e ≡ Memory };

    fn from(_: AllocError) -> Self {
        GuestsError::Memory
    }
}

//! A script: a tree of files, what the guest is given of it, its memory, and its calls.

use smallvec::SmallVec;
use wasi_fs::FsPerms;
use wasi_guest::{Call, Quota, Services};
use wasi_host::Limits;
use wasi_host_faults::Fault;
use wasi_tree::{NewNode, WellFormedNodes};

/// A directory that the guest is given: its node's number, the name under which the guest knows it, and what may be
/// done below it.
#[derive(Debug, Drop)]
pub struct ScriptPreopen {
    pub node: u64,
    pub name: String,
    pub perms: FsPerms,
}

// How many bytes of a piece stand in the piece itself, so that small ones take no memory of their own.
pub(crate) const BYTES_IN_PLACE: usize = 16;

/// The bytes of a piece.
pub type PieceBytes = SmallVec<u8, BYTES_IN_PLACE>;

/// Bytes that stand in the guest's memory from an offset on.
#[derive(Debug, Drop)]
pub struct Piece {
    pub offset: u32,
    pub bytes: PieceBytes,
}

/// A range of the guest's memory that is to be shown after the run.
#[derive(Clone, Copy, Debug, PartialEq, Eq)]
pub struct Shown {
    pub ptr: u32,
    pub len: u32,
}

/// What is run on a tree of files: the directories that the guest is given, the size of its memory in bytes, the pieces
/// that are written there before the run, the ranges that are shown after it, the calls, how much fuel each of them
/// has, how many descriptors may be live, streams and preopens among them, which calls of the host fail, how much the
/// guest may make and grow, and its environment.
#[derive(Drop)]
pub struct Session {
    pub preopens: Vec<ScriptPreopen>,
    pub size: u32,
    pub pieces: Vec<Piece>,
    pub show: Vec<Shown>,
    pub calls: Vec<Call>,
    pub fuel: u64,
    pub table: u32,
    pub faults: Vec<Fault>,
    pub quota: Quota,
    pub services: Services,
}

/// The nodes of a tree of files and how large it may grow, and what is run on it.
#[derive(Drop)]
pub struct Script {
    pub nodes: WellFormedNodes,
    pub session: Session,
}

/// A script whose nodes weren't tested yet.
#[derive(Drop)]
pub struct Draft {
    pub nodes: Vec<NewNode>,
    pub limits: Limits,
    pub session: Session,
}

/// Several guests that run in turns over one tree of files: its nodes and how large it may grow, what each guest runs,
/// and of each turn the guest that has it, by its place among them. None of the calls that their host makes is let
/// fail.
#[derive(Drop)]
pub struct GuestScript {
    pub nodes: WellFormedNodes,
    pub guests: Vec<Session>,
    pub schedule: Vec<u32>,
}

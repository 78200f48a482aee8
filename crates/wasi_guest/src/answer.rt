//! What a call answers.

use crate::errno::Errno;
use crate::fdstat::Fdstat;
use crate::filestat::Filestat;

/// Why a guest is stopped.
#[derive(Clone, Copy, Debug, PartialEq, Eq)]
pub enum TrapKind {
    /// A range leaves the guest's memory, or a record in it isn't aligned.
    Pointer,
    /// There would be more live descriptors than the resource table may have entries.
    TableFull,
    /// The guest ended with a status of 126 or more.
    ExitStatus,
}

/// What a call answers beside its success.
#[derive(Clone, Copy, Debug, PartialEq, Eq)]
pub enum Value {
    /// Nothing but its success.
    Unit,
    Number(u64),
    Pair(u32, u32),
    /// The type, flags and rights of a descriptor.
    Fdstat(Fdstat),
    /// The metadata of a node.
    Filestat(Filestat),
}

/// The answer of a call.
#[derive(Clone, Copy, Debug, PartialEq, Eq)]
pub enum Answer {
    Ok(Value),
    Errno(Errno),
    Trap(TrapKind),
    /// The guest ended with this status.
    Exit(u32),
}

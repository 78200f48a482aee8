//! What is read or written by a number, and what came of it.

use crate::guest_env::Output;
use crate::slots::FileSlot;

/// What is read by a number.
#[derive(Drop)]
pub enum ReadTarget {
    Input,
    File(FileSlot),
}

/// What is written by a number.
#[derive(Drop)]
pub enum WriteTarget {
    Output(Output),
    File(FileSlot),
}

/// What a number is named for where a file's is asked for; by it a standard stream is refused.
#[derive(Clone, Copy, Debug, PartialEq, Eq)]
pub enum FileUse {
    /// For the file itself.
    Itself,
    /// For its position.
    Position,
    /// To be read at an offset.
    ReadAt,
    /// To be written at an offset.
    WriteAt,
}

/// How many bytes of a piece a file took, and where its position is then.
#[derive(Clone, Copy, Debug, PartialEq, Eq)]
pub struct Put {
    pub count: u64,
    pub position: u64,
}

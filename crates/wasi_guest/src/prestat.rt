//! The record of a directory that a guest is given.

/// How long the name is by which a guest knows a directory that it is given: preview1's `prestat_dir`.
#[derive(Clone, Copy, Debug, PartialEq, Eq)]
pub struct PrestatDir {
    /// How many bytes the name has.
    pub name_len: u32,
}

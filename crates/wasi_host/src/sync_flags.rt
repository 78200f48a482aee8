//! Synchronized modes.

/// Which of POSIX's synchronized modes a handle has: integrity of the file, of its data, and of reads.
#[derive(Clone, Copy, Debug, PartialEq, Eq)]
pub struct SyncFlags {
    pub sync: bool,
    pub dsync: bool,
    pub rsync: bool,
}

//! The record of a node's attributes.

/// The metadata of a node or a stream: preview1's `filestat`.
#[derive(Clone, Copy, Debug, PartialEq, Eq)]
pub struct Filestat {
    /// The number of the device.
    pub dev: u64,
    /// The node's number on its device.
    pub ino: u64,
    /// The number of its type, as `Filetype::number` gives it.
    pub filetype: u8,
    /// How many names hold it.
    pub nlink: u64,
    /// How many bytes a file has, or a link's text.
    pub size: u64,
    /// When it was accessed, in nanoseconds since the epoch.
    pub atim: u64,
    /// When it was modified, in nanoseconds since the epoch.
    pub mtim: u64,
    /// Preview1's time of the last change of its status, in nanoseconds since the epoch. A host tells no such time, and
    /// when the node was created stands here.
    pub ctim: u64,
}

//! The log that a host keeps of its lookups, so that contracts can state where each one began.

use crate::Handle;

/// Which call of a host a lookup was.
#[derive(Clone, Copy, Debug, PartialEq, Eq)]
pub enum LookKind {
    /// `open_at`.
    Open,
    /// `stat_at`.
    Stat,
    /// `read_link_at`.
    ReadLink,
    /// `make_dir_at`.
    Make,
    /// `symlink_at`.
    MakeLink,
    /// `link_at`, once for each of its two directories.
    Link,
    /// `rename_at`, once for each of its two directories.
    Rename,
    /// `unlink_at`.
    Unlink,
    /// `remove_dir_at`.
    RemoveDir,
    /// `times_at`.
    Times,
    /// `list`.
    List,
    /// `dup`.
    Dup,
}

/// One lookup of a host: the call, the handle of the directory in which it looked, or the handle that was copied, and
/// the handle that it opened, if it opened one.
#[derive(Clone, Copy, Debug, PartialEq, Eq)]
pub struct Lookup {
    pub kind: LookKind,
    pub from: Handle,
    pub got: Option<Handle>,
}

//! How large a tree may grow.

/// How large a tree may grow: each is 1 to 2^32.
#[derive(Clone, Copy, Debug, PartialEq, Eq)]
pub struct Limits {
    /// Every node's number is below it.
    pub nodes: u64,
    /// No link count is above it.
    pub links: u64,
}

/// The bytes of the longest text of a link: POSIX's `PATH_MAX` without the NUL that ends it.
pub const LINK_MAX: usize = 4095;

/// The bytes of the largest file.
pub const FILE_MAX: usize = 1 << 30;

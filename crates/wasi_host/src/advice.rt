//! How a file will be used.

/// How a file will be used, as POSIX's `posix_fadvise` says it.
#[derive(Clone, Copy, Debug, PartialEq, Eq)]
pub enum Advice {
    Normal,
    Sequential,
    Random,
    WillNeed,
    DontNeed,
    NoReuse,
}

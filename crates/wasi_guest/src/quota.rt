//! How much a guest may make and grow.

/// How much a guest may make and grow in all, none of which is ever given back: a number of makings, and a number of
/// bytes by which files become longer. `None` sets no bound. No host of preview1 has such a thing but by a file system
/// of its own, where POSIX's answer is `EDQUOT`. Contracts see its bounds as `IsQuota`.
#[derive(Clone, Copy, Debug, PartialEq, Eq)]
pub struct Quota {
    /// How many calls may make something: a directory, a symbolic link, or an open that creates, whether or not the
    /// file was there.
    pub nodes: Option<u64>,
    /// By how many bytes writes and new sizes may make files longer.
    pub bytes: Option<u64>,
}

/// How much of a quota is used. A count whose bound is `None` stays 0.
#[derive(Clone, Copy, Debug, PartialEq, Eq)]
pub struct QuotaUsed {
    /// How many makings were counted.
    pub nodes: u64,
    /// How many grown bytes were counted.
    pub bytes: u64,
}

impl Quota {
    /// No bound at all.
    pub const NONE: Quota = Quota {
        nodes: None,
        bytes: None,
    };
}

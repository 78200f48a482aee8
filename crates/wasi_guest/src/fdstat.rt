//! The record of a descriptor's attributes.

/// The type, flags and rights of a descriptor: preview1's `fdstat`.
#[derive(Clone, Copy, Debug, PartialEq, Eq)]
pub struct Fdstat {
    /// The number of its type, as `Filetype::number` gives it.
    pub filetype: u8,
    /// The bits of `FdFlags`.
    pub flags: u16,
    /// The bits of `Rights`: what it may be used for.
    pub base: u64,
    /// The bits of `Rights`: what all that is opened below it may be used for.
    pub inheriting: u64,
}

//! Why something isn't read from a guest's memory.

/// Why a range, a record or a text isn't read from a guest's memory: the crate's `GuestError`, of what can come here.
#[derive(Clone, Copy, Debug, PartialEq, Eq)]
pub enum GuestError {
    /// The end of a range is above 2^32 - 1.
    PtrOverflow,
    /// The end of a range is past the memory's end.
    PtrOutOfBounds,
    /// The address of a record isn't a multiple of its alignment.
    PtrNotAligned,
    /// The bytes of a text aren't UTF-8.
    InvalidUtf8,
    /// A flag of a record is unknown.
    InvalidFlagValue,
    /// A number of a record names nothing.
    InvalidEnumValue,
}

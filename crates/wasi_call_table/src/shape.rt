//! What a call leaves in the guest's memory.

/// What stands at the addresses of a call's results, as preview1 has it.
#[derive(Clone, Copy, Debug, PartialEq, Eq)]
pub enum Shape {
    /// The call has no result.
    Nothing,
    /// A number of 32 bits, aligned to 4.
    U32,
    /// A number of 64 bits, aligned to 8.
    U64,
    /// Two numbers of 32 bits, each at an address of its own and aligned to 4.
    TwoU32,
    /// A number of 32 bits, aligned to 4, and at the other address one of 16 bits, aligned to 2.
    U32AndU16,
    /// The record of a preopen, 8 bytes, aligned to 4.
    Prestat,
    /// The record of a descriptor, 24 bytes, aligned to 8.
    Fdstat,
    /// The record of a node, 64 bytes, aligned to 8.
    Filestat,
}

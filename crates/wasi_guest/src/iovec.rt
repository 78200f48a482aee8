//! The record of a buffer.

/// A buffer of the guest's, as the record `iovec` of preview1 has it: 8 bytes, aligned to 4, the address and the length
/// as little-endian numbers.
#[derive(Clone, Copy, Debug, PartialEq, Eq)]
pub struct Iovec {
    pub buf: u32,
    pub buf_len: u32,
}

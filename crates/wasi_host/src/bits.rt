//! Access bits.

/// The access bits of a node: read, write, and search or execute.
#[derive(Clone, Copy, Debug, PartialEq, Eq)]
pub struct Bits {
    pub r: bool,
    pub w: bool,
    pub x: bool,
}

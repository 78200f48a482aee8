//! Calls that fail.

/// A host call that fails.
#[derive(Clone, Copy, Debug, PartialEq, Eq)]
pub struct Fault {
    /// Which call: the first one has number 1.
    pub number: u64,
    /// Whether the call is made, and its answer lost; else it isn't made.
    pub after: bool,
}

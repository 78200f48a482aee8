//! What a read gives.

/// The bytes that a read gave, and whether it gave none: the pair that the crate's `read` answers.
#[derive(Debug, Drop)]
pub struct ReadResult {
    pub bytes: Vec<u8>,
    pub end: bool,
}

//! Entries of a listing.

use crate::FileType;

/// A name in a directory, and the kind of the node that it holds.
#[derive(Debug, Drop)]
pub struct DirEntry {
    pub name: String,
    pub kind: FileType,
}

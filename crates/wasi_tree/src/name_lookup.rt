//! Names that were looked up.

use wasi_paths::Name;

/// A name in a directory, with the node that it holds, if it holds one.
#[derive(Clone, Copy)]
pub struct NameLookup<'n> {
    pub directory: u64,
    pub name: Name<'n>,
    pub found: Option<u64>,
}

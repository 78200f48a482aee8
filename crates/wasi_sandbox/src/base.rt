//! A tree that sandboxes stand over.

use wasi_tree::MemTree;

/// A tree that sandboxes stand over, as a type without parameters, for what can't name any.
#[derive(Drop)]
pub struct Base {
    pub tree: MemTree,
}

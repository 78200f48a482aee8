//! What a tree shows of its nodes and names without a handle.
use std::alloc::Global;
use test_support::{Rendered, number, rendered, word};
use wasi_tree::MemTree;

/// `NUMBER`: the node that there is.
pub fn rendered_view(alloc: Global, tree: &MemTree, rest: &str) -> Rendered {
    rendered(alloc, &tree.node(number(rest)))
}

/// `DIRECTORY NAME`: the node that the directory holds.
pub fn rendered_entry(alloc: Global, tree: &MemTree, rest: &str) -> Rendered {
    let (dir, rest) = word(rest);
    let (name, _) = word(rest);
    rendered(alloc, &tree.entry(number(dir), name))
}

/// `DIRECTORY PLACE`: the name at that place, with its node.
pub fn rendered_entry_at(alloc: Global, tree: &MemTree, rest: &str) -> Rendered {
    let (dir, place) = word(rest);
    rendered(alloc, &tree.entry_at(number(dir), number(place)))
}

//! The trees in which paths are opened.
use std::alloc::{AllocError, Global};
use wasi_tree::{Limits, MemTree, NewContent, NewEntry, NewNode, TreeError};

/// Node 0 with the directories `a`, node 1, and `b`, node 2.
pub fn small_tree(alloc: Global) -> Result<MemTree, TreeError> {
    MemTree::new(alloc, small(alloc)?, LIMITS)
}

fn small(alloc: Global) -> Result<Vec<NewNode>, AllocError> {
    let mut nodes = Vec::new(alloc);
    nodes.push(directory(alloc, &[("a", 1), ("b", 2)])?)?;
    nodes.push(directory(alloc, &[])?)?;
    nodes.push(directory(alloc, &[])?)?;
    Ok(nodes)
}

/// Node 0 with the directories `a`, node 1, and `b`, node 2, a link `l` to `a/c/..`, node 4, and one `e` to `../b`, node
/// 5; node 1 with the directory `c`, node 3, and the link `e`; node 3 with the link `l`.
pub fn walked_tree(alloc: Global) -> Result<MemTree, TreeError> {
    MemTree::new(alloc, walked(alloc)?, LIMITS)
}

fn walked(alloc: Global) -> Result<Vec<NewNode>, AllocError> {
    let mut nodes = Vec::new(alloc);
    nodes.push(directory(alloc, &[("a", 1), ("b", 2), ("l", 4), ("e", 5)])?)?;
    nodes.push(directory(alloc, &[("c", 3), ("e", 5)])?)?;
    nodes.push(directory(alloc, &[])?)?;
    nodes.push(directory(alloc, &[("l", 4)])?)?;
    nodes.push(link(alloc, "a/c/..")?)?;
    nodes.push(link(alloc, "../b")?)?;
    Ok(nodes)
}

const LIMITS: Limits = Limits { nodes: 8, links: 8 };

fn directory(alloc: Global, names: &[(&str, u64)]) -> Result<NewNode, AllocError> {
    let mut entries = Vec::new(alloc);
    for (name, node) in names {
        let name = String::from_str(alloc, name)?;
        entries.push(NewEntry { name, node: *node })?;
    }
    Ok(NewNode::new(NewContent::Dir(entries)))
}

fn link(alloc: Global, text: &str) -> Result<NewNode, AllocError> {
    Ok(NewNode::new(NewContent::Link(String::from_str(alloc, text)?)))
}

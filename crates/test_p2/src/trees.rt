//! The tree that each line begins with.
use std::alloc::{AllocError, Global};
use wasi_tree::{Limits, MemTree, NewContent, NewEntry, NewNode, TreeError};

/// Node 0 holds a directory `d`, a file `f` with the bytes `top`, and a link `l` to `d/e`; `d`, node 1, holds an empty
/// directory `e` and a file `f` with the bytes `low`.
pub fn tree(alloc: Global) -> Result<MemTree, TreeError> {
    let limits = Limits {
        nodes: 16,
        links: 8,
    };
    MemTree::new(alloc, nodes(alloc)?, limits)
}

fn nodes(alloc: Global) -> Result<Vec<NewNode>, AllocError> {
    let mut nodes = Vec::new(alloc);
    nodes.push(directory(top_entries(alloc)?))?;
    nodes.push(directory(low_entries(alloc)?))?;
    nodes.push(file(alloc, b"top")?)?;
    nodes.push(NewNode::new(NewContent::Link(String::from_str(alloc, "d/e")?)))?;
    nodes.push(directory(Vec::new(alloc)))?;
    nodes.push(file(alloc, b"low")?)?;
    Ok(nodes)
}

fn top_entries(alloc: Global) -> Result<Vec<NewEntry>, AllocError> {
    let mut entries = Vec::new(alloc);
    entries.push(entry(alloc, "d", 1)?)?;
    entries.push(entry(alloc, "f", 2)?)?;
    entries.push(entry(alloc, "l", 3)?)?;
    Ok(entries)
}

fn low_entries(alloc: Global) -> Result<Vec<NewEntry>, AllocError> {
    let mut entries = Vec::new(alloc);
    entries.push(entry(alloc, "e", 4)?)?;
    entries.push(entry(alloc, "f", 5)?)?;
    Ok(entries)
}

fn entry(alloc: Global, name: &str, node: u64) -> Result<NewEntry, AllocError> {
    let name = String::from_str(alloc, name)?;
    Ok(NewEntry { name, node })
}

fn directory(entries: Vec<NewEntry>) -> NewNode {
    NewNode::new(NewContent::Dir(entries))
}

fn file(alloc: Global, bytes: &[u8]) -> Result<NewNode, AllocError> {
    Ok(NewNode::new(NewContent::File(Vec::from_slice(alloc, bytes)?)))
}

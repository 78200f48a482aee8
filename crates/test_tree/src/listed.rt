//! Trees from texts.
use std::alloc::{AllocError, Global};
use test_support::{list_of, number, time_of};
use wasi_host::SystemTime;
use wasi_tree::{Bits, Limits, MemTree, NewContent, NewEntry, NewNode, TreeError};

fn entries(alloc: Global, text: &str) -> Result<Vec<NewEntry>, AllocError> {
    let mut entries = Vec::new(alloc);
    for entry in text.split(',') {
        if let Some((name, node)) = entry.split_once('=') {
            let name = String::from_str(alloc, name)?;
            let node = number(node);
            entries.push(NewEntry { name, node })?;
        }
    }
    Ok(entries)
}

fn content(alloc: Global, text: &str) -> Result<NewContent, AllocError> {
    if let Some(text) = text.strip_prefix('@') {
        return Ok(NewContent::Link(String::from_str(alloc, text)?));
    }
    if let Some(text) = text.strip_prefix(':') {
        return Ok(NewContent::File(Vec::from_slice(alloc, text.as_bytes())?));
    }
    if let Some(bytes) = text.strip_prefix('%') {
        return Ok(NewContent::File(list_of::<u8>(alloc, bytes)?));
    }
    Ok(NewContent::Dir(entries(alloc, text)?))
}

// Sets the bits that stand after `!` and the times that stand after `?`.
fn set_attributes(node: &mut NewNode, attributes: &str) {
    let (bits, times) = attributes.split_once('?').unwrap_or((attributes, ""));
    if !bits.is_empty() {
        node.bits = Bits {
            r: bits.contains('r'),
            w: bits.contains('w'),
            x: bits.contains('x'),
        };
    }
    let (atime, times) = times.split_once(',').unwrap_or((times, ""));
    let (mtime, btime) = times.split_once(',').unwrap_or((times, ""));
    node.atime = time_of(atime).unwrap_or(SystemTime::EPOCH);
    node.mtime = time_of(mtime).unwrap_or(SystemTime::EPOCH);
    node.btime = time_of(btime).unwrap_or(SystemTime::EPOCH);
}

/// The nodes that a text gives, between blanks: a file's text after `:` or its bytes after `%`, a link's text after
/// `@`, or a directory's entries, of which `-` has none. Bits stand after `!`, where they aren't those of a new node,
/// and the three times after a `?` after that.
pub fn listed(alloc: Global, text: &str) -> Result<Vec<NewNode>, AllocError> {
    let mut nodes = Vec::new(alloc);
    for part in text.split_whitespace() {
        let (text, attributes) = part.split_once('!').unwrap_or((part, ""));
        let mut node = NewNode::new(content(alloc, text)?);
        set_attributes(&mut node, attributes);
        nodes.push(node)?;
    }
    Ok(nodes)
}

/// The tree of the nodes that a text gives, in which no node has a number above the last one.
pub fn tree_of(alloc: Global, last: u16, text: &str) -> Result<MemTree, TreeError> {
    let limits = Limits {
        nodes: u64::from(last) + 1,
        links: 8,
    };
    MemTree::new(alloc, listed(alloc, text)?, limits)
}

/// So many directories, each of which has the next one, and one more.
pub fn chain(alloc: Global, many: u64) -> Result<Vec<NewNode>, AllocError> {
    let mut nodes = Vec::new(alloc);
    for i in 0..many {
        let name = String::from_str(alloc, "d")?;
        let entries = vec![in alloc; NewEntry { name, node: i + 1 }]?;
        nodes.push(NewNode::new(NewContent::Dir(entries)))?;
    }
    nodes.push(NewNode::new(NewContent::Dir(Vec::new(alloc))))?;
    Ok(nodes)
}

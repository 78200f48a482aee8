//! The tree of files.
ghost use Rattle.std.specs.Prelude.{◌≡◌, ◌+◌, ◌*◌, ◌<◌, ◌≤◌, ◌++◌, map, IfOk, OnOk};
ghost use Rattle.std.specs.String.{string_bytes};
ghost use Rattle.std.specs.List.{range_with_len};
ghost use Rattle.wasi_tree.specs.NodeData.{node_data, content_data, pair_of};
ghost use Rattle.wasi_script_gen.specs.GenNodes as specs;
ghost use Rattle.wasi_script_gen.specs.GenNodes.{root_entry, nodes_of_kind};

use std::alloc::{AllocError, Global};
use wasi_host::Limits;
use wasi_tree::{NewContent, NewEntry, NewNode, TreeError, WellFormedNodes};

/// What a node below node 0 is.
#[derive(Clone, Copy)]
enum Kind {
    Directory,
    File,
    Link,
}

fn directory_name(alloc: Global, i: u64) -> Result<String, AllocError>
    ensures { IfOk result (λ name. string_bytes name ≡ specs.directory_name i) }
{
    format!(in alloc; "d{i}")
}

// The names of node 0.
fn root_entries(alloc: Global, n: u64) -> Result<Vec<NewEntry>, AllocError>
    requires { n < 10000 }
    ensures { IfOk result (λ entries. map pair_of entries.items ≡ map root_entry (range_with_len 0 n)) }
{
    let mut entries = Vec::with_capacity(alloc, n as usize)?;
    for i in 0..n {
        entries.push(NewEntry {
            name: directory_name(alloc, i)?,
            node: 1 + i,
        })?;
    }
    Ok(entries)
}

// The names of a directory: `f`, a file, and `up`, a link.
fn directory_entries(alloc: Global, n: u64, i: u64) -> Result<Vec<NewEntry>, AllocError>
    requires n { n < 10000 }
    requires i { i < n }
    ensures { IfOk result (λ entries. map pair_of entries.items ≡ specs.directory_entries n i) }
{
    let mut entries = Vec::with_capacity(alloc, 2)?;
    entries.push(NewEntry {
        name: String::from_str(alloc, "f")?,
        node: 1 + n + i,
    })?;
    entries.push(NewEntry {
        name: String::from_str(alloc, "up")?,
        node: 1 + 2 * n + i,
    })?;
    Ok(entries)
}

// A file's bytes, the digits of its number.
fn digits(alloc: Global, i: u64) -> Result<Vec<u8>, AllocError>
    ensures { IfOk result (λ bytes. bytes.items ≡ specs.digits i) }
{
    let text = format!(in alloc; "{i}")?;
    Ok(text.into_bytes())
}

// A link's text, by which it leads to the file of the next directory, and from the last to the first one's.
fn target_of(alloc: Global, n: u64, i: u64) -> Result<String, AllocError>
    requires n { n < 10000 }
    requires i { i < n }
    ensures { IfOk result (λ text. string_bytes text ≡ specs.target_of n i) }
{
    let j = (i + 1) % n;
    format!(in alloc; "../d{j}/f")
}

fn content(alloc: Global, n: u64, kind: Kind, i: u64) -> Result<NewContent, AllocError>
    requires n { n < 10000 }
    requires i { i < n }
    ensures { IfOk result (λ content. content_data content ≡ specs.content_of n kind i) }
{
    match kind {
        Kind::Directory => Ok(NewContent::Dir(directory_entries(alloc, n, i)?)),
        Kind::File => Ok(NewContent::File(digits(alloc, i)?)),
        Kind::Link => Ok(NewContent::Link(target_of(alloc, n, i)?)),
    }
}

// Puts all nodes of a kind after others.
fn push_all(alloc: Global, nodes: &mut Vec<NewNode>, n: u64, kind: Kind) -> Result<(), AllocError>
    requires { n < 10000 }
    ensures { OnOk result (map node_data nodes.new.items ≡ map node_data nodes.old.items ++ nodes_of_kind n kind) }
{
    for i in 0..n {
        nodes.push(NewNode::new(content(alloc, n, kind, i)?))?;
    }
    Ok(())
}

fn node_list(alloc: Global, n: u64) -> Result<Vec<NewNode>, AllocError>
    requires { n < 10000 }
    ensures { IfOk result (λ nodes. map node_data nodes.items ≡ specs.gen_nodes n) }
{
    let mut nodes = Vec::with_capacity(alloc, 1 + 3 * n as usize)?;
    nodes.push(NewNode::new(NewContent::Dir(root_entries(alloc, n)?)))?;
    push_all(alloc, &mut nodes, n, Kind::Directory)?;
    push_all(alloc, &mut nodes, n, Kind::File)?;
    push_all(alloc, &mut nodes, n, Kind::Link)?;
    Ok(nodes)
}

/// The nodes of the script of `gen n`, of which a tree can be made within these limits.
pub fn gen_nodes(alloc: Global, n: u64, limits: Limits) -> Result<WellFormedNodes, AllocError>
    requires some { 1 ≤ n }
    requires few { n < 10000 }
    requires nodes { 3 * n < limits.nodes }
    requires links { 1 ≤ limits.links }
    ensures { IfOk result (λ fit. fit ≡ record { nodes = specs.gen_nodes n; limits = limits }) }
{
    match WellFormedNodes::new(alloc, node_list(alloc, n)?, limits) {
        Ok(fit) => Ok(fit),
        Err(TreeError::Memory) => Err(AllocError),
        Err(TreeError::Invalid(_)) => unreachable!(),
    }
}

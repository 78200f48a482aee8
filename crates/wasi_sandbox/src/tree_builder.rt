//! A tree's nodes, put one after another.
ghost use Rattle.std.specs.Prelude.{◌≡◌, [], ◌∷◌, IfOk, map, slice_get, vec_capacity, vec_len};
ghost use Rattle.wasi_tree.specs.NodeData.{content_data, directory, file, link, new_node_data, node_data, pair_of};
ghost use Rattle.wasi_sandbox.specs.Building.{TakesEntry, GetsEntry, is_nameable, NamesNode, put_below, PutsNode};
ghost use Rattle.wasi_sandbox.specs.declared.tree_builder.BuildError.TheVariants as errors;

use std::alloc::{AllocError, Global};
use std::marker::Model;
use thiserror::Error;
use wasi_tree::{NewContent, NewEntry, NewNode};

/// Why a node isn't put, or isn't named.
#[derive(Clone, Copy, Debug, PartialEq, Eq, Error)]
pub enum BuildError {
    /// The number isn't that of a directory that was put.
    #[error("no directory has the number")]
    NotDirectory,
    /// The number isn't that of a file or a link that was put.
    #[error("no file and no link has the number")]
    NotNameable,
    /// Memory ran out.
    #[error("out of memory")]
    Memory,
}

impl From<AllocError> for BuildError {
    ghost from_gives = { λ _ error. error ≡ errors.Memory };

    fn from(_: AllocError) -> Self {
        BuildError::Memory
    }
}

/// Nodes put one after another, each below a directory that stands already, of which a tree is made. A node's number
/// is its place among them. Contracts see the nodes.
///
/// What a tree allows in names, sizes, links and counts is not tested here, but where the tree is made.
#[derive(Debug, Drop)]
pub struct TreeBuilder {
    nodes: Vec<NewNode>,
}

impl Model for TreeBuilder {
    ghost use Rattle.std.specs.Prelude.{List, map};
    ghost use Rattle.wasi_tree.specs.NodeData.{node_data, NodeData};
    ghost use Rattle.wasi_sandbox.specs.Building.{built_code};

    ghost Value = { List NodeData };

    ghost coded = { built_code };

    ghost view = { λ b. map node_data b.nodes.items };
}

/// Puts an entry behind those of a node, if it is a directory.
fn add_entry(node: &mut NewNode, entry: NewEntry) -> Result<(), BuildError>
    ensures added { GetsEntry (node_data node.old) (node_data node.new) (pair_of entry) result }
{
    let NewContent::Dir(entries) = &mut node.content else {
        return Err(BuildError::NotDirectory);
    };
    let Ok(()) = entries.push(entry) else {
        return Err(BuildError::Memory);
    };
    Ok(())
}

/// Puts an entry behind those of the directory of a number.
fn enter(nodes: &mut Vec<NewNode>, parent: u64, entry: NewEntry) -> Result<(), BuildError>
    ensures entered { TakesEntry (map node_data nodes.old.items) (map node_data nodes.new.items) parent (pair_of entry) result }
    ensures len { vec_len nodes.new ≡ vec_len nodes.old }
    ensures capacity { vec_capacity nodes.new ≡ vec_capacity nodes.old }
{
    let place = parent as usize;
    if place >= nodes.as_slice().len() {
        return Err(BuildError::NotDirectory);
    }
    add_entry(&mut nodes[place], entry)
}

/// Whether the number is that of a file or a link.
fn is_nameable(nodes: &Vec<NewNode>, number: u64) -> bool
    ensures test { result ≡ is_nameable (slice_get (map node_data nodes.now.items) number) }
{
    match nodes.get(number as usize) {
        Some(node) => !matches!(node.content, NewContent::Dir(_)),
        None => false,
    }
}

impl TreeBuilder {
    /// The root directory alone, which is node 0.
    pub fn new(alloc: Global) -> Result<TreeBuilder, AllocError>
        ensures root { IfOk result (λ b. b ≡ new_node_data (directory []) ∷ []) }
    {
        let mut nodes = Vec::with_capacity(alloc, 1)?;
        nodes.push_reserved(NewNode::new(NewContent::Dir(Vec::new(alloc))));
        Ok(TreeBuilder { nodes })
    }

    /// Puts an empty directory below a directory, under a name, and gives its number.
    pub fn add_dir(&mut self, alloc: Global, parent: u64, name: &str) -> Result<u64, BuildError>
        ensures put { PutsNode self.old self.new (put_below self.old parent name.now (directory [])) result }
    {
        self.put(alloc, parent, name, NewContent::Dir(Vec::new(alloc)))
    }

    /// Puts a file with a copy of these bytes below a directory, under a name, and gives its number.
    pub fn add_file(
        &mut self,
        alloc: Global,
        parent: u64,
        name: &str,
        bytes: &[u8],
    ) -> Result<u64, BuildError>
        ensures put { PutsNode self.old self.new (put_below self.old parent name.now (file bytes.now)) result }
    {
        self.put(
            alloc,
            parent,
            name,
            NewContent::File(Vec::from_slice(alloc, bytes)?),
        )
    }

    /// Puts a link with this text below a directory, under a name, and gives its number.
    pub fn add_link(
        &mut self,
        alloc: Global,
        parent: u64,
        name: &str,
        text: &str,
    ) -> Result<u64, BuildError>
        ensures put { PutsNode self.old self.new (put_below self.old parent name.now (link text.now)) result }
    {
        self.put(
            alloc,
            parent,
            name,
            NewContent::Link(String::from_str(alloc, text)?),
        )
    }

    /// Gives a file or a link one more name, below a directory. A node that is neither is refused first.
    pub fn add_name(
        &mut self,
        alloc: Global,
        parent: u64,
        name: &str,
        node: u64,
    ) -> Result<(), BuildError>
        ensures named { NamesNode self.old self.new parent (name.now, node) result }
    {
        if !is_nameable(&self.nodes, node) {
            return Err(BuildError::NotNameable);
        }
        let name = String::from_str(alloc, name)?;
        enter(&mut self.nodes, parent, NewEntry { name, node })
    }

    /// The nodes, whose numbers are their places.
    pub fn into_nodes(self) -> Vec<NewNode>
        ensures nodes { map node_data result.items ≡ self }
    {
        self.nodes
    }

    /// Puts a node of this content below a directory, under a name, and gives its number.
    fn put(
        &mut self,
        alloc: Global,
        parent: u64,
        name: &str,
        content: NewContent,
    ) -> Result<u64, BuildError>
        ensures put { PutsNode self.old self.new (put_below self.old parent name.now (content_data content)) result }
    {
        let number = self.nodes.as_slice().len() as u64;
        let name = String::from_str(alloc, name)?;
        self.nodes.reserve(1)?;
        enter(&mut self.nodes, parent, NewEntry { name, node: number })?;
        self.nodes.push_reserved(NewNode::new(content));
        Ok(number)
    }
}

//! In which directory each directory stands.
ghost use Rattle.std.specs.Prelude.{◌≡◌, ◌<◌, ◌++◌, ◌∷◌, [], IfOk, OnOk, length, map, Some, slice_set, vec_len, vec_capacity};
ghost use Rattle.std.specs.Option.{ForSome};
ghost use Rattle.wasi_tree.specs.NodeData.{node_data};
ghost use Rattle.wasi_tree.specs.FitTests.{entry_numbers};
ghost use Rattle.wasi_tree.specs.ParentOf.{is_on_way, without_parent, ArePut, TellParents};

use crate::node::{NewEntry, NewNode};
use crate::way::{ParentLookup, is_below};
use crate::well_formed::entries_of;
use std::alloc::{AllocError, Global};

/// For each node, in which directory it stands; nothing of the root, and of a directory that is removed. What it says of
/// a file or a link, which may have several names, is no matter.
#[derive(Debug, Drop)]
pub struct Parents {
    rows: Vec<Option<u64>>,
}

#[tactic(auto, using(crate::proofs::PutParents::put_rules))]
impl Parents {
    /// Of each node of a list, the last directory with an entry that gives it.
    pub fn of(alloc: Global, nodes: &[NewNode]) -> Result<Parents, AllocError>
        ensures { IfOk result (λ parents. TellParents (map node_data nodes.now) parents.rows.items) }
    {
        let mut rows = vec![in alloc; None; nodes.len()]?;
        for (directory, node) in nodes.iter().enumerate() {
            put_entries(&mut rows, entries_of(&node.content), directory as u64);
        }
        Ok(Parents { rows })
    }

    /// These directories, by the numbers of their nodes.
    pub fn of_stored(rows: Vec<Option<u64>>) -> Parents
        ensures { result.rows.items ≡ rows.items }
    {
        Parents { rows }
    }

    /// Makes room for one more node.
    pub fn reserve(&mut self) -> Result<(), AllocError>
        ensures same { self.new.rows.items ≡ self.old.rows.items }
        ensures room { OnOk result (vec_len self.new.rows < vec_capacity self.new.rows) }
    {
        self.rows.reserve(1)
    }

    /// One node more, in this directory.
    pub fn push(&mut self, directory: u64)
        requires { vec_len self.old.rows < vec_capacity self.old.rows }
        ensures { self.new.rows.items ≡ self.old.rows.items ++ Some directory ∷ [] }
    {
        self.rows.push_reserved(Some(directory));
    }

    /// A node stands in this directory from now on, or in none.
    pub fn set(&mut self, node: u64, directory: Option<u64>)
        requires { node < length self.old.rows.items }
        ensures { self.new.rows.items ≡ slice_set self.old.rows.items node directory }
    {
        self.rows[node as usize] = directory;
    }

    /// A node stands in this directory from now on, and what was in its place in none.
    pub fn replace(&mut self, lost: Option<u64>, node: u64, directory: u64)
        requires lost { ForSome lost (λ n. n < length self.old.rows.items) }
        requires node { node < length self.old.rows.items }
        ensures { self.new.rows.items ≡ slice_set (without_parent self.old.rows.items lost) node (Some directory) }
    {
        if let Some(lost) = lost {
            self.set(lost, None);
        }
        self.set(node, Some(directory));
    }

    /// Whether the way up from a directory comes to a node, which may be the directory itself.
    pub fn is_below(&self, top: u64, directory: u64) -> bool
        ensures { result ≡ is_on_way self.now.rows.items (length self.now.rows.items) top directory }
    {
        is_below(self, top, directory)
    }
}

impl ParentLookup for Parents {
    ghost known_parents = { λ p. p.rows.items };

    fn count(&self) -> u64 {
        self.rows.len() as u64
    }

    fn parent(&self, node: u64) -> Option<u64> {
        if node >= self.rows.len() as u64 {
            return None;
        }
        self.rows[node as usize]
    }
}

/// The numbers of these entries stand in this directory.
#[tactic(auto, using(crate::proofs::PutParents::put_rules))]
fn put_entries(rows: &mut Vec<Option<u64>>, entries: &[NewEntry], directory: u64)
    ensures { ArePut directory (entry_numbers entries.now) rows.old.items rows.new.items }
{
    for entry in entries {
        put_one(rows, entry.node, directory);
    }
}

/// A number stands in this directory, if it is in range.
#[tactic(auto, using(crate::proofs::PutParents::put_rules))]
fn put_one(rows: &mut Vec<Option<u64>>, number: u64, directory: u64)
    ensures { ArePut directory (number ∷ []) rows.old.items rows.new.items }
{
    if number < rows.len() as u64 {
        rows[number as usize] = Some(directory);
    }
}

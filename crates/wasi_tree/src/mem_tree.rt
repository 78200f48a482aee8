//! The tree in memory.
ghost use Rattle.std.specs.Prelude.{◌≡◌, ◌↔◌, ◌≤◌, [], None, IfSome, IfOk, IfErr, OnOk, map};
ghost use Rattle.std.specs.FinSet.{empty};
ghost use Rattle.std.specs.FinMap as maps;
ghost use Rattle.std.specs.List.{slice_get};
ghost use Rattle.std.specs.Option.{option_map};
ghost use Rattle.wasi_host.specs.Tree.{next_of, node_at, names_of};
ghost use Rattle.wasi_host.specs.ValidTree.{AreLimits};
ghost use Rattle.wasi_tree.specs.NodeData.{node_data, tree_of};
ghost use Rattle.wasi_tree.specs.WellFormed.{AreFit, IsTreeCause};
ghost use Rattle.wasi_tree.specs.Changed.{changed};
ghost use Rattle.wasi_tree.specs.Viewed.{Views};
ghost use Rattle.wasi_tree.specs.MemState.{live_of};

use crate::change::TreeChange;
use crate::errors::TreeError;
use crate::mem_store::MemStore;
use crate::node::{EntryView, NewNode, NodeView};
use crate::node_store::NodeStore;
use crate::tree_host::TreeHost;
use crate::well_formed_nodes::WellFormedNodes;
use std::alloc::{AllocError, Global};
use wasi_host::Limits;
use wasi_tree_index::EntryCursor;

/// A tree of files in memory, as a host.
pub type MemTree = TreeHost<MemStore>;

#[tactic(auto, using(crate::proofs::MemLemmas::mem_rules))]
impl TreeHost<MemStore> {
    /// A tree of these nodes, whose numbers are their places in the list, where they keep the rules; else the cause, as
    /// `WellFormedNodes::new` says both. It has no live handle, no node is touched, and there is no lookup.
    pub fn new(alloc: Global, nodes: Vec<NewNode>, limits: Limits) -> Result<MemTree, TreeError>
        requires limits { AreLimits limits }
        ensures tree { IfOk result (λ m. m.tree ≡ tree_of (map node_data nodes.items) limits) }
        ensures fit { OnOk result (AreFit limits (map node_data nodes.items)) }
        ensures cause { IfErr result (IsTreeCause limits (map node_data nodes.items)) }
        ensures live { IfOk result (λ m. live_of m.handles ≡ empty) }
        ensures touched { IfOk result (λ m. m.touched ≡ empty) }
        ensures lookups { IfOk result (λ m. m.lookups ≡ []) }
    {
        let fit = WellFormedNodes::new(alloc, nodes, limits)?;
        Ok(MemTree::of(alloc, fit)?)
    }

    /// The tree of these nodes. It has no live handle, no node is touched, and there is no lookup. Bits and times are
    /// as given. Every entry counts as a name of the node that it gives: a file or a link has as many links as names,
    /// and a directory but node 0 that has no name is removed.
    pub fn of(alloc: Global, fit: WellFormedNodes) -> Result<MemTree, AllocError>
        ensures tree { IfOk result (λ m. m.tree ≡ tree_of fit.nodes fit.limits) }
        ensures live { IfOk result (λ m. live_of m.handles ≡ empty) }
        ensures touched { IfOk result (λ m. m.touched ≡ empty) }
        ensures lookups { IfOk result (λ m. m.lookups ≡ []) }
    {
        Ok(TreeHost::over(alloc, MemStore::of(alloc, fit)?))
    }

    /// The number of the next node that is made. Those that there are, a node without a name among them, have the
    /// numbers below.
    pub fn next(&self) -> u64
        ensures next { result ≡ next_of self.now.tree }
    {
        self.store.count()
    }

    /// The limits of the tree.
    pub fn limits(&self) -> Limits
        ensures limits { result ≡ self.now.tree.limits }
    {
        self.store.limits()
    }

    /// The node of a number as it is, lent without a copy. A directory's names are asked for by `entry`, `entry_at` and
    /// `names`. None where there is no such node.
    pub fn node(&self, number: u64) -> Option<NodeView<'_>>
        ensures none { (result ≡ None) ↔ (next_of self.now.tree ≤ number) }
        ensures node { IfSome result (Views (node_at self.now.tree number)) }
    {
        if number >= self.next() {
            return None;
        }
        Some(self.store.node(number))
    }

    /// The node that a directory holds under a text, be the text a plain name or not. None where it holds none, and of
    /// what is no directory.
    pub fn entry(&self, dir: u64, name: &str) -> Option<u64>
        ensures entry { result ≡ maps.get (names_of (node_at self.now.tree dir).content) name.now }
    {
        self.store.entry(dir, name)
    }

    /// The name at a place among those of a directory, which stand in byte order, the first at 0. None past the last
    /// one, and of what is no directory.
    pub fn entry_at(&self, dir: u64, place: u64) -> Option<EntryView<'_>>
        ensures entry { option_map (λ e. (e.name.now, e.node)) result
            ≡ slice_get (maps.entries (names_of (node_at self.now.tree dir).content)) place }
    {
        let (name, node) = self.names(dir).at(place)?;
        Some(EntryView { name, node })
    }

    /// All names of a directory in byte order, one after another. What is no directory has none.
    pub fn names(&self, dir: u64) -> EntryCursor<'_>
        ensures names { result ≡ maps.entries (names_of (node_at self.now.tree dir).content) }
    {
        self.store.names(dir)
    }

    /// Makes a change that no call makes, as the host's step of that kind; one that a rule of the host's table refuses,
    /// that has a name which isn't plain, or that names as a directory a number which isn't one, is skipped. It takes
    /// no memory: the row of the old name holds the new one. Nothing is touched, and no lookup is added.
    pub fn change(&mut self, change: TreeChange)
        ensures tree { self.new.tree ≡ changed self.old.tree change }
        ensures handles { self.new.handles ≡ self.old.handles }
        ensures touched { self.new.touched ≡ self.old.touched }
        ensures lookups { self.new.lookups ≡ self.old.lookups }
    {
        self.store.change(change);
    }
}

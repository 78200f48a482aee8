//! A walk over a tree from the directories of all guests at once.
ghost use Rattle.std.specs.Prelude.{◌≡◌, ◌<◌, ◌≤◌, ℕ, [], ◌∷◌, All, IfOk, OnOk, MatchOption, length, map};
ghost use Rattle.wasi_guests.specs.Insides.{AreInTree};
ghost use Rattle.wasi_guests.specs.Walk.{known_at, HasAllBegun, AreFound, KnowsAll};
ghost use Rattle.wasi_guests.specs.declared.holders.Holders.TheVariants.{Several};

use crate::holders::Holders;
use std::alloc::{AllocError, Global};
use wasi_tree::MemTree;
use wasi_tree_index::EntryCursor;

/// A walk over a tree from the directories of all guests at once. The names of a directory are gone over at most twice:
/// for the guest that comes to it first, and for the next one.
#[derive(Drop)]
pub(crate) struct Walk {
    /// Of each node, which guests are known to hold it.
    holders: Vec<Holders>,
    /// The nodes whose holders have still to be told of the nodes that their names hold.
    left: Vec<u64>,
}

impl Walk {
    /// A whole walk: whoever holds a directory holds the nodes that its names hold.
    pub(crate) fn over(
        alloc: Global,
        tree: &MemTree,
        guests: &[Vec<u64>],
    ) -> Result<Walk, AllocError>
        requires { AreInTree tree.now.tree (map (λ guest. guest.items) guests.now) }
        ensures { IfOk result (KnowsAll tree.now.tree (map (λ guest. guest.items) guests.now)) }
    {
        // Names hold nodes of the tree, so each has its holders.
        tree.store().laws();
        let mut walk = Walk::begin(alloc, tree, guests)?;
        while let Some(directory) = walk.left.pop() {
            let holders = walk.holders[directory as usize];
            walk.find_names(tree.names(directory), holders)?;
        }
        Ok(walk)
    }

    /// Each guest holds its own directories.
    fn begin(alloc: Global, tree: &MemTree, guests: &[Vec<u64>]) -> Result<Walk, AllocError>
        requires { AreInTree tree.now.tree (map (λ guest. guest.items) guests.now) }
        ensures { IfOk result (HasAllBegun tree.now.tree (map (λ guest. guest.items) guests.now)) }
    {
        let mut walk = Walk {
            holders: vec![in alloc; Holders::Nobody; tree.next() as usize]?,
            left: Vec::new(alloc),
        };
        for (guest, directories) in guests.iter().enumerate() {
            walk.find_all(directories.as_slice(), Holders::One(guest))?;
        }
        Ok(walk)
    }

    /// The lowest node that several guests are known to hold.
    pub(crate) fn lowest(&self) -> Option<u64>
        ensures { MatchOption result ((n : ℕ) → known_at self.now n ≡ Several → ⊥)
            (λ lowest. (known_at self.now lowest ≡ Several) × ((n : ℕ) → known_at self.now n ≡ Several → lowest ≤ n)) }
    {
        let node = self
            .holders
            .iter()
            .position(|holders| holders.are_several())?;
        Some(node as u64)
    }

    /// These guests hold each of these nodes.
    fn find_all(&mut self, nodes: &[u64], holders: Holders) -> Result<(), AllocError>
        requires { All (λ n. n < length self.old.holders.items) nodes.now }
        ensures { OnOk result (AreFound nodes.now holders self.old self.new) }
    {
        for &node in nodes {
            self.find(node, holders)?;
        }
        Ok(())
    }

    /// These guests hold the node of each of these names.
    fn find_names(&mut self, mut names: EntryCursor<'_>, holders: Holders) -> Result<(), AllocError>
        requires { All (λ e. e.1 < length self.old.holders.items) names }
        ensures { OnOk result (AreFound (map (λ e. e.1) names.entry) holders self.old self.new) }
    {
        while let Some((_, named)) = names.next() {
            self.find(named, holders)?;
        }
        Ok(())
    }

    /// These guests hold a node.
    fn find(&mut self, node: u64, holders: Holders) -> Result<(), AllocError>
        requires { node < length self.old.holders.items }
        ensures { OnOk result (AreFound (node ∷ []) holders self.old self.new) }
    {
        if let Some(all) = self.holders[node as usize].more(holders) {
            self.left.push(node)?;
            self.holders[node as usize] = all;
        }
        Ok(())
    }
}

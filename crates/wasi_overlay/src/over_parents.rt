//! In which directory each node of an overlay stands.
ghost use Rattle.std.specs.Prelude.{◌≡◌, ◌<◌, ◌++◌, ◌∷◌, [], ℕ, true, Some, IfOk, OnOk, length, slice_set};
ghost use Rattle.std.specs.FinMap as maps;
ghost use Rattle.std.specs.FinSet.{contains, empty};
ghost use Rattle.std.specs.Option.{ForSome, IsSome};
ghost use Rattle.wasi_tree.specs.ParentOf.{is_on_way, without_parent};

use std::alloc::{AllocError, Global};
use std::marker::Model;
use wasi_paged_map::Pages;
use wasi_tree::{MemStore, NodeStore, ParentLookup, is_below};

/// In which directory each node of an overlay stands. The tree below stays as it is and tells it of its own nodes; what
/// changed stands apart. Nodes that are made have the numbers after those of the tree below.
#[derive(Debug, Drop)]
pub struct OverParents<'a> {
    base: &'a MemStore,
    /// What changed, by number.
    changed: Pages<Option<u64>>,
    /// How many nodes there are.
    count: u64,
}

impl<'a> Model for OverParents<'a> {
    ghost use Rattle.std.specs.Prelude.{is_some};
    ghost use Rattle.std.specs.FinMap as maps;
    ghost use Rattle.wasi_overlay.specs.OverParents.{HeldParents, parents_code, parents_over, numbers_held, AreNumbered};

    ghost Value = { HeldParents };

    ghost coded = { parents_code };

    ghost view = { λ a. record {
      parents = parents_over a.base.now.parents a.changed a.count;
      held = numbers_held a.changed;
      has_room = is_some (maps.get a.changed a.count);
    } };

    ghost invariant = { λ a. AreNumbered a.base.now.parents a.changed a.count };
}

#[tactic(auto, using(crate::proofs::HeldLemmas::held_rules))]
impl<'a> OverParents<'a> {
    /// The parents of the tree below, none of which has changed.
    pub fn new(alloc: Global, base: &MemStore) -> OverParents<'_>
        ensures parents { result.parents ≡ base.now.parents }
        ensures held { result.held ≡ empty }
    {
        base.laws();
        OverParents {
            base,
            changed: Pages::new(alloc),
            count: base.count(),
        }
    }

    /// Makes sure that the directory of a node can change without memory.
    pub fn hold(&mut self, n: u64) -> Result<(), AllocError>
        requires { n < length self.old.parents }
        ensures parents { self.new.parents ≡ self.old.parents }
        ensures room { self.new.has_room ≡ self.old.has_room }
        ensures held { OnOk result (contains self.new.held n ≡ true) }
        ensures grows { (m : ℕ) → contains self.old.held m ≡ true → contains self.new.held m ≡ true }
    {
        if self.changed.has(n) {
            return Ok(());
        }
        self.changed.insert(n, self.base.parent(n))?;
        Ok(())
    }

    /// A node stands in this directory from now on, or in none.
    pub fn set(&mut self, n: u64, directory: Option<u64>)
        requires held { contains self.old.held n ≡ true }
        requires within { n < length self.old.parents }
        ensures parents { self.new.parents ≡ slice_set self.old.parents n directory }
        ensures held { self.new.held ≡ self.old.held }
        ensures room { self.new.has_room ≡ self.old.has_room }
    {
        put(&mut self.changed, n, directory);
    }

    /// A node stands in this directory from now on, and what was in its place in none.
    pub fn replace(&mut self, lost: Option<u64>, n: u64, directory: u64)
        requires lost_held { ForSome lost (λ l. contains self.old.held l ≡ true) }
        requires lost_within { ForSome lost (λ l. l < length self.old.parents) }
        requires held { contains self.old.held n ≡ true }
        requires within { n < length self.old.parents }
        ensures parents { self.new.parents ≡ slice_set (without_parent self.old.parents lost) n (Some directory) }
        ensures held { self.new.held ≡ self.old.held }
        ensures room { self.new.has_room ≡ self.old.has_room }
    {
        if let Some(lost) = lost {
            self.set(lost, None);
        }
        self.set(n, Some(directory));
    }

    /// Makes room for one node more. Where no number is left it fails as when memory runs out.
    pub fn reserve(&mut self) -> Result<(), AllocError>
        ensures parents { self.new.parents ≡ self.old.parents }
        ensures room { OnOk result (self.new.has_room ≡ true) }
        ensures grows { (m : ℕ) → contains self.old.held m ≡ true → contains self.new.held m ≡ true }
    {
        if self.count == u64::MAX {
            return Err(AllocError);
        }
        if self.changed.has(self.count) {
            return Ok(());
        }
        self.changed.insert(self.count, None)?;
        Ok(())
    }

    /// One node more, in this directory.
    pub fn push(&mut self, directory: u64)
        requires { self.old.has_room ≡ true }
        ensures parents { self.new.parents ≡ self.old.parents ++ Some directory ∷ [] }
        ensures held { self.new.held ≡ self.old.held }
    {
        put(&mut self.changed, self.count, Some(directory));
        self.count += 1;
    }

    /// The directory of each node, as a list in memory of its own.
    pub fn to_vec(&self, alloc: Global) -> Result<Vec<Option<u64>>, AllocError>
        ensures { IfOk result (λ parents. parents.items ≡ self.now.parents) }
    {
        let mut parents = Vec::new(alloc);
        for n in 0..self.count() {
            parents.push(self.parent(n))?;
        }
        Ok(parents)
    }

    /// Whether the way up from a directory comes to a node, which may be the directory itself.
    pub fn is_below(&self, top: u64, directory: u64) -> bool
        ensures { result ≡ is_on_way self.now.parents (length self.now.parents) top directory }
    {
        is_below(self, top, directory)
    }
}

#[tactic(auto, using(crate::proofs::HeldLemmas::held_rules))]
impl<'a> ParentLookup for OverParents<'a> {
    ghost known_parents = { λ p. p.parents };

    fn count(&self) -> u64 {
        self.count
    }

    fn parent(&self, n: u64) -> Option<u64> {
        if n >= self.count {
            return None;
        }
        match self.changed.get(n) {
            Some(parent) => *parent,
            None => self.base.parent(n),
        }
    }
}

/// A number that has an entry has this one from now on.
fn put(changed: &mut Pages<Option<u64>>, n: u64, directory: Option<u64>)
    requires { IsSome (maps.get changed.old n) }
    ensures { changed.new ≡ maps.insert changed.old n directory }
{
    if let Some(parent) = changed.get_mut(n) {
        *parent = directory;
    }
}

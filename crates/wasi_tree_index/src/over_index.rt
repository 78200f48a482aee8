//! Names that were put or taken, over entries that stay.
ghost use Rattle.std.specs.Prelude.{◌≡◌, ◌<◌, ◌-◌, ◌^◌, OnErr, OnOk, IfOk, Some, is_some, true, nat_eq};
ghost use Rattle.std.specs.FinMap as maps;
ghost use Rattle.wasi_tree_index.specs.DirEntryKeys.{AllNames, Key, names_at};
ghost use Rattle.wasi_tree_index.specs.OverNames.{overlaid, found_over, IsChanged};

use crate::hint::SearchHint;
use crate::name_index::NameIndex;
use crate::over_entries::OverEntryCursor;
use std::alloc::{AllocError, Global};
use std::marker::Model;

/// The node that marks a name as taken. No name holds it.
pub(crate) const TAKEN: u64 = u64::MAX;

/// The names of all directories of a tree as entries that stay give them, but for the names that were put or taken
/// since. A name that was taken from those that stay has an entry with the mark for its node. Contracts see a finite
/// map from directories and names.
#[derive(Debug, Drop)]
pub struct OverNameIndex<'a> {
    base: &'a NameIndex,
    changed: NameIndex,
}

impl<'a> Model for OverNameIndex<'a> {
    ghost use Rattle.wasi_tree_index.specs.DirEntryKeys.{AllNames};
    ghost use Rattle.wasi_tree_index.specs.OverNames.{all_names_code, overlaid};

    ghost Value = { AllNames };

    ghost coded = { all_names_code };

    ghost view = { λ a. overlaid a.base.now.names a.changed.names };
}

impl<'a> OverNameIndex<'a> {
    /// The names of some entries. It takes no memory.
    pub fn new(alloc: Global, base: &'a NameIndex) -> OverNameIndex<'a>
        ensures { result ≡ base.now.names }
    {
        OverNameIndex {
            base,
            changed: NameIndex::new(alloc),
        }
    }

    /// The node of a name in a directory. In the entries that stay it is looked for after the place where one was found
    /// last, before all else.
    pub fn find(&self, near: &mut SearchHint, directory: u64, name: &str) -> Option<u64>
        ensures { result ≡ maps.get self.now (directory, name.now) }
    {
        if self.changed.is_bare() {
            return self.base.find(near, directory, name);
        }
        let mut first = SearchHint::first();
        match self.changed.find(&mut first, directory, name) {
            Some(node) if node == TAKEN => None,
            Some(node) => Some(node),
            None => self.base.find(near, directory, name),
        }
    }

    /// Puts a node under a name in a directory, instead of any other. The mark is no node, so it is refused as one for
    /// which there is no room.
    pub fn put(&mut self, directory: u64, name: &str, node: u64) -> Result<(), AllocError>
        ensures put { OnOk result (self.new ≡ maps.insert self.old (directory, name.now) node) }
        ensures kept { OnErr result (self.new ≡ self.old) }
    {
        if node == TAKEN {
            return Err(AllocError);
        }
        self.changed.put(directory, name, node)?;
        Ok(())
    }

    /// Takes a name out of a directory. A mark is kept only of a name that the entries that stay have, so names that
    /// are made and taken again leave nothing.
    pub fn take(&mut self, directory: u64, name: &str) -> Result<(), AllocError>
        ensures taken { OnOk result (self.new ≡ maps.remove self.old (directory, name.now)) }
        ensures kept { OnErr result (self.new ≡ self.old) }
    {
        if !self.base.has(directory, name) {
            self.changed.remove(directory, name);
            return Ok(());
        }
        self.changed.put(directory, name, TAKEN)?;
        Ok(())
    }

    /// Puts the node of a name under another name, instead of any other, and takes the first name out. What wants
    /// memory comes before that. The mark is refused as by `put`.
    pub fn rename(
        &mut self,
        directory: u64,
        name: &str,
        new_directory: u64,
        new_name: &str,
        node: u64,
    ) -> Result<(), AllocError>
        requires held { maps.get self.old (directory, name.now) ≡ Some node }
        requires apart { ◌≡◌ {A = Key} (directory, name.now) (new_directory, new_name.now) → ⊥ }
        ensures renamed { OnOk result (self.new
            ≡ maps.remove (maps.insert self.old (new_directory, new_name.now) node) (directory, name.now)) }
        ensures kept { OnErr result (self.new ≡ self.old) }
    {
        if node == TAKEN {
            return Err(AllocError);
        }
        let is_below = hold(self.base, &mut self.changed, directory, name, node)?;
        self.changed.put(new_directory, new_name, node)?;
        strike(&mut self.changed, directory, name, is_below);
        Ok(())
    }

    /// The names of a directory, in byte order.
    pub fn names(&self, directory: u64) -> OverEntryCursor<'_>
        ensures { result ≡ maps.entries (names_at self.now directory) }
    {
        OverEntryCursor {
            base: self.base.names(directory),
            changed: self.changed.names(directory),
        }
    }

    /// Whether a directory has no names.
    pub fn is_empty(&self, directory: u64) -> bool
        ensures { result ≡ nat_eq (maps.len (names_at self.now directory)) 0 }
    {
        self.names(directory).next().is_none()
    }
}

/// Gives a name that the entries that stay have an entry among the changed ones, with the node that it holds, and
/// answers whether they have it. It can then be marked without memory.
fn hold(
    base: &NameIndex,
    changed: &mut NameIndex,
    directory: u64,
    name: &str,
    node: u64,
) -> Result<bool, AllocError>
    requires held { maps.get (overlaid base.now.names changed.old.names) (directory, name.now) ≡ Some node }
    requires unmarked { node < 2 ^ 64 - 1 }
    ensures same { overlaid base.now.names changed.new.names ≡ overlaid base.now.names changed.old.names }
    ensures row { OnOk result (IsChanged base.now.names changed.new.names (directory, name.now)) }
    ensures below { IfOk result (λ is_below. is_below ≡ is_some (maps.get base.now.names (directory, name.now))) }
{
    if !base.has(directory, name) {
        return Ok(false);
    }
    changed.put(directory, name, node)?;
    Ok(true)
}

/// Takes out a name, given whether the entries that stay have it. If they do, it has an entry among the changed ones,
/// which is marked then, and else it goes.
fn strike(changed: &mut NameIndex, directory: u64, name: &str, is_below: bool)
    requires { is_below ≡ true → is_some (maps.get changed.old.names (directory, name.now)) ≡ true }
    ensures { (base : AllNames) → is_below ≡ is_some (maps.get base (directory, name.now))
        → overlaid base changed.new.names ≡ maps.remove (overlaid base changed.old.names) (directory, name.now) }
{
    if is_below {
        changed.set(directory, name, TAKEN);
        return;
    }
    changed.remove(directory, name);
}

/// What names that lie over others hold: what was put of a name, nothing where it was taken, and else what lies below.
pub fn names_lie_over()
    ensures { (base changes : AllNames) (key : Key)
        → maps.get (overlaid base changes) key ≡ found_over (maps.get changes key) (maps.get base key) }
{}

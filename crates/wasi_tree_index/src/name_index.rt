//! The entries of all directories.
ghost use Rattle.std.specs.Prelude.{◌≡◌, ℕ, List, OnErr, OnOk, IfOk, Some, is_some, true, false, nat_eq};
ghost use Rattle.std.specs.FinMap as maps;
ghost use Rattle.std.specs.String.{string_bytes};
ghost use Rattle.wasi_tree_index.specs.DirEntryKeys.{AllNames, Key, names_at, run_of};

use crate::blocks::{self, BLOCK};
use crate::entries::EntryCursor;
use crate::hint::SearchHint;
use crate::key::DirEntryKey;
use crate::sought::Sought;
use std::alloc::{AllocError, Global};
use std::marker::Model;

/// The names of all directories of a tree, each with the node that it holds, in one sequence that is sorted by
/// directory and then by the bytes of the name. It is kept in blocks, so that an insert or a removal moves the entries
/// of one block alone. Contracts see a finite map from directories and names, and whether there is room for one more
/// name.
#[derive(Debug, Drop)]
pub struct NameIndex {
    blocks: Vec<Vec<DirEntryKey>>,
    spare: Vec<DirEntryKey>,
}

impl Model for NameIndex {
    ghost use Rattle.wasi_tree_index.specs.NameIndex.{HeldNames, held_names_code, held_names, AreRows};

    ghost Value = { HeldNames };

    ghost coded = { held_names_code };

    ghost view = { λ a. held_names a.blocks a.spare };

    ghost invariant = { λ a. AreRows a.blocks a.spare };
}

impl NameIndex {
    /// No names.
    pub fn new(alloc: Global) -> NameIndex
        ensures { result.names ≡ maps.empty }
    {
        NameIndex {
            blocks: Vec::new(alloc),
            spare: Vec::new(alloc),
        }
    }

    /// The node of a name in a directory. It is looked for after the place where one was found last, before all else.
    pub fn find(&self, near: &mut SearchHint, directory: u64, name: &str) -> Option<u64>
        ensures { result ≡ maps.get self.now.names (directory, name.now) }
    {
        blocks::find(&self.blocks, near, &Sought::new(directory, name))
    }

    /// Whether a directory has a name. Of one that comes after all others this is told at once.
    pub fn has(&self, directory: u64, name: &str) -> bool
        ensures { result ≡ is_some (maps.get self.now.names (directory, name.now)) }
    {
        let key = Sought::new(directory, name);
        if blocks::is_behind(&self.blocks, &key) {
            return false;
        }
        let mut near = SearchHint::first();
        blocks::find(&self.blocks, &mut near, &key).is_some()
    }

    /// Whether no directory has a name.
    pub fn is_bare(&self) -> bool
        ensures { result ≡ nat_eq (maps.len self.now.names) 0 }
    {
        self.blocks.is_empty()
    }

    /// Makes room for one more name. Where there is room already it takes no memory; if memory runs out all stays as
    /// it was.
    pub fn reserve(&mut self) -> Result<(), AllocError>
        ensures names { self.new.names ≡ self.old.names }
        ensures room { OnOk result (self.new.has_room ≡ true) }
        ensures wanted { OnErr result (self.old.has_room ≡ false) }
        ensures stays { OnErr result (self.new ≡ self.old) }
    {
        self.blocks.reserve(1)?;
        if self.spare.capacity() < BLOCK {
            let alloc = *self.blocks.allocator();
            self.spare = Vec::with_capacity(alloc, BLOCK)?;
        }
        Ok(())
    }

    /// Puts a node under a name in a directory, instead of any other.
    pub fn insert(&mut self, directory: u64, name: String, node: u64)
        requires { self.old.has_room ≡ true }
        ensures names { self.new.names ≡ maps.insert self.old.names (directory, string_bytes name) node }
    {
        let row = DirEntryKey::new(directory, name, node);
        blocks::put(&mut self.blocks, &mut self.spare, None, row);
    }

    /// Gives a name in a directory, which holds a node, another one. It takes no memory.
    pub fn set(&mut self, directory: u64, name: &str, node: u64)
        requires { is_some (maps.get self.old.names (directory, name.now)) ≡ true }
        ensures names { self.new.names ≡ maps.insert self.old.names (directory, name.now) node }
        ensures room { self.new.has_room ≡ self.old.has_room }
    {
        let key = Sought::new(directory, name);
        blocks::set(&mut self.blocks, &key, node);
    }

    /// Puts a node under a name in a directory, instead of any other. Only where the directory has no such name is
    /// this copied, and room made for it.
    pub fn put(&mut self, directory: u64, name: &str, node: u64) -> Result<(), AllocError>
        ensures put { OnOk result (self.new.names ≡ maps.insert self.old.names (directory, name.now) node) }
        ensures kept { OnErr result (self.new.names ≡ self.old.names) }
    {
        if self.has(directory, name) {
            self.set(directory, name, node);
            return Ok(());
        }
        let copy = self.copied(name)?;
        self.reserve()?;
        self.insert(directory, copy, node);
        Ok(())
    }

    /// A name once more, where the entries have theirs.
    fn copied(&self, name: &str) -> Result<String, AllocError>
        ensures { IfOk result (λ copy. string_bytes copy ≡ name.now) }
    {
        let alloc = *self.blocks.allocator();
        String::from_str(alloc, name)
    }

    /// Takes a name out of a directory, and gives the node that it held.
    pub fn remove(&mut self, directory: u64, name: &str) -> Option<u64>
        ensures found { result ≡ maps.get self.old.names (directory, name.now) }
        ensures names { self.new.names ≡ maps.remove self.old.names (directory, name.now) }
    {
        let key = Sought::new(directory, name);
        blocks::remove(&mut self.blocks, &mut self.spare, &key)
    }

    /// Takes a name out of a directory, and puts the node that it held under a name of a directory, which may be the
    /// same, instead of any other. It takes no memory: where the new name's block is full, and there is no room for
    /// a block more, the entries between the two places move on by one.
    pub fn rename(&mut self, directory: u64, name: &str, new_directory: u64, new_name: String)
        requires { is_some (maps.get self.old.names (directory, name.now)) ≡ true }
        ensures names { (node : ℕ) → maps.get self.old.names (directory, name.now) ≡ Some node
            → self.new.names ≡ maps.insert (maps.remove self.old.names (directory, name.now))
            (new_directory, string_bytes new_name) node }
    {
        blocks::rename(
            &mut self.blocks,
            &mut self.spare,
            &Sought::new(directory, name),
            new_directory,
            new_name,
        );
    }

    /// The names of a directory, in byte order.
    pub fn names(&self, directory: u64) -> EntryCursor<'_>
        ensures { result ≡ maps.entries (names_at self.now.names directory) }
    {
        let (here, rest) = blocks::rows_from(&self.blocks, directory);
        EntryCursor {
            here,
            rest,
            directory,
        }
    }

    /// Whether a directory has no names.
    pub fn is_empty(&self, directory: u64) -> bool
        ensures { result ≡ nat_eq (maps.len (names_at self.now.names directory)) 0 }
    {
        self.names(directory).next().is_none()
    }
}

/// A directory's names, where one of its own is put or taken: the change is in its names, and those of others stay.
pub fn directories_are_apart()
    ensures get { (m : AllNames) (d : ℕ) (name : List ℕ) → maps.get (names_at m d) name ≡ maps.get m (d, name) }
    ensures run { (m : AllNames) (d : ℕ) → maps.entries (names_at m d) ≡ run_of d (maps.entries m) }
    ensures inserted { (m : AllNames) (d : ℕ) (name : List ℕ) (n : ℕ)
        → names_at (maps.insert m (d, name) n) d ≡ maps.insert (names_at m d) name n }
    ensures removed { (m : AllNames) (d : ℕ) (name : List ℕ)
        → names_at (maps.remove m (d, name)) d ≡ maps.remove (names_at m d) name }
    ensures others_inserted { (m : AllNames) (d e : ℕ) (name : List ℕ) (n : ℕ) → nat_eq d e ≡ false
        → names_at (maps.insert m (d, name) n) e ≡ names_at m e }
    ensures others_removed { (m : AllNames) (d e : ℕ) (name : List ℕ) → nat_eq d e ≡ false
        → names_at (maps.remove m (d, name)) e ≡ names_at m e }
{}

/// Two names that differ: it is the same whether one is taken before the other is put, or after it.
pub fn names_are_apart()
    ensures { (m : AllNames) (a b : Key) (n : ℕ) → (a ≡ b → ⊥)
        → maps.insert (maps.remove m a) b n ≡ maps.remove (maps.insert m b n) a }
{}

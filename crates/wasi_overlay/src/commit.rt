//! The tree that an overlay makes, in memory of its own.
ghost use Rattle.std.specs.Prelude.{◌≡◌, ◌+◌, ◌<◌, IfOk, OnOk, map};
ghost use Rattle.std.specs.FinMap as maps;
ghost use Rattle.std.specs.FinSet.{empty};
ghost use Rattle.wasi_host.specs.Tree.{next_of, node_at};
ghost use Rattle.wasi_tree.specs.StoredTree.{named_content, stored_content, stored_node, with_names};
ghost use Rattle.wasi_overlay.specs.OverStore.{HoldsNames};

use crate::over_store::OverStore;
use std::alloc::{AllocError, Global};
use wasi_host::Metadata;
use wasi_tree::{Inode, InodeContent, MemStore, NodeStore, add_entries};
use wasi_tree_index::NameIndex;

impl<'a> OverStore<'a> {
    /// The tree as it is, on which no step has worked, in memory of its own.
    pub fn commit(&self, alloc: Global) -> Result<MemStore, AllocError>
        ensures tree { IfOk result (λ m. m.tree ≡ record self.now.tree { worked = empty }) }
        ensures touched { IfOk result (λ m. m.touched ≡ empty) }
    {
        let rows = self.copy_inodes(alloc)?;
        let names = self.copy_names(alloc)?;
        let parents = self.parents.to_vec(alloc)?;
        MemStore::of_stored(alloc, rows, names, parents, self.limits)
    }

    /// An inode of each node.
    fn copy_inodes(&self, alloc: Global) -> Result<Vec<Inode>, AllocError>
        ensures { IfOk result (λ rows. map stored_node rows.items ≡ map (with_names maps.empty) self.now.tree.nodes) }
    {
        let mut rows = Vec::new(alloc);
        for n in 0..self.count() {
            rows.push(self.copy_inode(alloc, n)?)?;
        }
        Ok(rows)
    }

    /// The inode of a node, without a directory's names.
    fn copy_inode(&self, alloc: Global, n: u64) -> Result<Inode, AllocError>
        requires { n < next_of self.now.tree }
        ensures { IfOk result (λ inode. stored_node inode ≡ with_names maps.empty (node_at self.now.tree n)) }
    {
        let Metadata {
            atime,
            mtime,
            btime,
            ..
        } = self.metadata(n);
        Ok(Inode {
            content: self.copy_content(alloc, n)?,
            bits: self.bits(n),
            atime,
            mtime,
            btime,
        })
    }

    /// What a node is, without a directory's names.
    fn copy_content(&self, alloc: Global, n: u64) -> Result<InodeContent, AllocError>
        requires { n < next_of self.now.tree }
        ensures { IfOk result (λ content. stored_content content ≡ named_content maps.empty (node_at self.now.tree n).content) }
    {
        if self.is_directory(n) {
            return Ok(InodeContent::Dir {
                gone: self.is_gone(n),
            });
        }
        let links = self.links(n);
        if self.is_file(n) {
            let bytes = Vec::from_slice(alloc, self.bytes(n))?;
            return Ok(InodeContent::File { bytes, links });
        }
        let text = String::from_str(alloc, self.text(n))?;
        Ok(InodeContent::Link { text, links })
    }

    /// The names of all directories.
    fn copy_names(&self, alloc: Global) -> Result<NameIndex, AllocError>
        ensures { IfOk result (λ rows. HoldsNames self.now.tree (next_of self.now.tree) rows.names) }
    {
        let mut rows = NameIndex::new(alloc);
        for n in 0..self.count() {
            self.copy_names_of(alloc, &mut rows, n)?;
        }
        Ok(rows)
    }

    /// The names of a node, after those of the nodes below its number.
    fn copy_names_of(&self, alloc: Global, rows: &mut NameIndex, n: u64) -> Result<(), AllocError>
        requires { HoldsNames self.now.tree n rows.old.names }
        ensures { OnOk result (HoldsNames self.now.tree (n + 1) rows.new.names) }
    {
        if !self.is_directory(n) {
            return Ok(());
        }
        add_entries(rows, n, self.new_entries(alloc, n)?)
    }
}

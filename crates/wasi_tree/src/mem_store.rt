//! Nodes in memory: an inode each, the parents of directories, and marks of the touched ones.
ghost use Rattle.std.specs.Prelude.{◌≡◌, ◌<◌, ◌≤◌, ℕ, true, length, IfOk};
ghost use Rattle.std.specs.FinMap as maps;
ghost use Rattle.std.specs.FinSet.{empty};
ghost use Rattle.wasi_host.specs.Tree.{next_of, node_at, names_of, is_directory};
ghost use Rattle.wasi_tree_index.specs.DirEntryKeys.{names_at};
ghost use Rattle.wasi_tree.specs.NodeData.{tree_of};
ghost use Rattle.wasi_tree.specs.ParentOf.{AreParents, parent_of};
ghost use Rattle.wasi_tree.specs.Sound.{IsSoundNode};
ghost use Rattle.wasi_tree.specs.StoredTree.{stored_tree, IsStored};
ghost use Rattle.wasi_tree.specs.Viewed.{Views};

use crate::inode::Inode;
use crate::marks::Marks;
use crate::name_lookup::NameLookup;
use crate::node::{NewNode, NodeView};
use crate::node_store::NodeStore;
use crate::parents::Parents;
use crate::store::InodeStore;
use crate::way::ParentLookup;
use crate::well_formed_nodes::WellFormedNodes;
use std::alloc::{AllocError, Global};
use std::marker::Model;
use wasi_host::{Bits, DirEntry, Limits, Metadata, SystemTime};
use wasi_paths::Name;
use wasi_tree_index::{EntryCursor, NameIndex, SearchHint};

/// The nodes of a tree with the parents of its directories, and which of them calls have touched. Contracts see all
/// three. Each node has room.
#[derive(Debug, Drop)]
pub struct MemStore {
    pub(crate) store: InodeStore,
    pub(crate) parents: Parents,
    pub(crate) touched: Marks,
    /// Where a name was found last.
    pub(crate) near: SearchHint,
}

impl Model for MemStore {
    ghost use Rattle.wasi_tree.specs.ParentOf.{IsKept};
    ghost use Rattle.wasi_tree.specs.TouchedTree.{Parented, parented_code};

    ghost Value = { Parented };

    ghost coded = { parented_code };

    ghost view = { λ a. record { tree = a.store; touched = a.touched.nodes; parents = a.parents.rows.items } };

    ghost invariant = { λ a. IsKept a.store a.touched.count a.parents.rows.items };
}

#[tactic(auto, using(crate::proofs::TouchedLemmas::touched_rules))]
impl MemStore {
    /// The tree of these nodes, none of which is touched.
    pub fn of(alloc: Global, fit: WellFormedNodes) -> Result<MemStore, AllocError>
        ensures tree { IfOk result (λ t. t.tree ≡ tree_of fit.nodes fit.limits) }
        ensures touched { IfOk result (λ t. t.touched ≡ empty) }
    {
        let parents = Parents::of(alloc, fit.list())?;
        let store = InodeStore::of(alloc, fit)?;
        MemStore::begin(alloc, store, parents)
    }

    /// The tree of these inodes, with the names of all directories, and for each node the directory that it stands in.
    /// No node has been worked on, and none is touched.
    pub fn of_stored(
        alloc: Global,
        rows: Vec<Inode>,
        names: NameIndex,
        parents: Vec<Option<u64>>,
        limits: Limits,
    ) -> Result<MemStore, AllocError>
        requires stored { IsStored rows.items names.names limits empty (length rows.items) }
        requires stand { AreParents (stored_tree rows.items names.names limits empty) parents.items }
        ensures tree { IfOk result (λ t. t.tree ≡ stored_tree rows.items names.names limits empty) }
        ensures touched { IfOk result (λ t. t.touched ≡ empty) }
    {
        let store = InodeStore::of_stored(alloc, rows, names, limits)?;
        MemStore::begin(alloc, store, Parents::of_stored(parents))
    }

    /// A store of which no node is touched.
    fn begin(alloc: Global, store: InodeStore, parents: Parents) -> Result<MemStore, AllocError>
        requires { AreParents store parents.rows.items }
        ensures tree { IfOk result (λ t. t.tree ≡ store) }
        ensures touched { IfOk result (λ t. t.touched ≡ empty) }
    {
        let touched = Marks::new(alloc, store.count() as usize)?;
        Ok(MemStore {
            store,
            parents,
            touched,
            near: SearchHint::first(),
        })
    }

    /// The node of a number, lent without a copy and without a directory's names.
    pub fn node(&self, n: u64) -> NodeView<'_>
        requires { n < next_of self.now.tree }
        ensures { Views (node_at self.now.tree n) result }
    {
        self.store.node(n)
    }

    /// The names of a directory, in byte order. What is no directory has none.
    pub fn names(&self, directory: u64) -> EntryCursor<'_>
        ensures { result ≡ maps.entries (names_of (node_at self.now.tree directory).content) }
    {
        self.store.names(directory)
    }

    /// The node that a directory holds under a text.
    pub fn entry(&self, directory: u64, name: &str) -> Option<u64>
        ensures { result ≡ maps.get (names_of (node_at self.now.tree directory).content) name.now }
    {
        self.store.entry(directory, name)
    }

    /// The names of all directories.
    pub fn all_names(&self) -> &NameIndex
        ensures here { (d : ℕ) → is_directory (node_at self.now.tree d).content ≡ true
            → names_at result.now.names d ≡ names_of (node_at self.now.tree d).content }
        ensures past { (d : ℕ) → next_of self.now.tree ≤ d → names_at result.now.names d ≡ maps.empty }
    {
        self.store.all_names()
    }

    /// The directory in which a directory stands; none of the root, and of one that was removed. What is said of a file
    /// or a link is no matter.
    pub fn parent(&self, n: u64) -> Option<u64>
        ensures { result ≡ parent_of self.now.parents n }
    {
        self.parents.parent(n)
    }

    /// Each node is sound, and the parents are those of the tree.
    pub fn laws(&self)
        ensures nodes { (n : ℕ) → IsSoundNode (next_of self.now.tree) (node_at self.now.tree n) }
        ensures stand { AreParents self.now.tree self.now.parents }
    {
        self.store.laws();
    }
}

#[tactic(auto, using(crate::proofs::TouchedLemmas::touched_rules))]
impl NodeStore for MemStore {
    ghost seen = { λ s. record { tree = s.tree; touched = s.touched } };

    ghost HasRoom = { λ _ _. Unit {0} };

    fn count(&self) -> u64 {
        self.store.count()
    }

    fn limits(&self) -> Limits {
        self.store.limits()
    }

    fn allocator(&self) -> Global {
        self.store.allocator()
    }

    fn is_directory(&self, n: u64) -> bool {
        self.store.is_directory(n)
    }

    fn is_file(&self, n: u64) -> bool {
        self.store.is_file(n)
    }

    fn is_link(&self, n: u64) -> bool {
        self.store.is_link(n)
    }

    fn is_gone(&self, n: u64) -> bool {
        self.store.is_gone(n)
    }

    fn bits(&self, n: u64) -> Bits {
        self.store.bits(n)
    }

    fn links(&self, n: u64) -> u64 {
        self.store.links(n)
    }

    fn bytes(&self, n: u64) -> &[u8] {
        self.store.bytes(n)
    }

    fn text(&self, n: u64) -> &str {
        self.store.text(n)
    }

    fn metadata(&self, n: u64) -> Metadata {
        self.store.metadata(n)
    }

    fn is_bare(&self, directory: u64) -> bool {
        self.store.is_bare(directory)
    }

    fn is_below(&self, top: u64, directory: u64) -> bool {
        self.parents.is_below(top, directory)
    }

    fn look<'n>(&mut self, directory: u64, name: Name<'n>) -> NameLookup<'n> {
        let found = self.store.child(&mut self.near, directory, name);
        NameLookup {
            directory,
            name,
            found,
        }
    }

    fn list_names(&self, alloc: Global, directory: u64) -> Result<Vec<DirEntry>, AllocError> {
        self.store.list_names(alloc, directory)
    }

    fn to_new(&self, alloc: Global) -> Result<Vec<NewNode>, AllocError> {
        self.store.to_new(alloc)
    }

    fn make_room(&mut self, _n: u64) -> Result<(), AllocError> {
        Ok(())
    }

    fn touch(&mut self, n: u64) {
        self.touched.mark(n);
    }

    fn forget(&mut self) {
        self.touched.clear();
    }

    fn list_touched(&self, alloc: Global) -> Result<Vec<u64>, AllocError> {
        self.touched.list(alloc)
    }

    /// All room is taken first, so that nothing has changed if memory runs out.
    fn make_node(
        &mut self,
        directory: u64,
        name: Name<'_>,
        inode: Inode,
    ) -> Result<u64, AllocError> {
        self.touched.reserve()?;
        self.parents.reserve()?;
        let node = self.store.make_node(directory, name, inode)?;
        self.touched.push();
        self.parents.push(directory);
        Ok(node)
    }

    fn add_link(&mut self, directory: u64, name: Name<'_>, node: u64) -> Result<(), AllocError> {
        self.store.add_link(directory, name, node)
    }

    fn move_name(
        &mut self,
        old: u64,
        old_name: Name<'_>,
        new: u64,
        new_name: Name<'_>,
        node: u64,
        there: Option<u64>,
    ) -> Result<(), AllocError> {
        self.store
            .move_name(old, old_name, new, new_name, node, there)?;
        self.parents.replace(there, node, new);
        Ok(())
    }

    fn drop_name(&mut self, directory: u64, name: Name<'_>, node: u64) -> Result<(), AllocError> {
        self.lose_name(directory, name, node);
        Ok(())
    }

    fn cut(&mut self, file: u64) {
        self.store.cut(file);
    }

    fn set_times(&mut self, node: u64, atime: Option<SystemTime>, mtime: Option<SystemTime>) {
        self.store.set_times(node, atime, mtime);
    }

    fn put(&mut self, file: u64, offset: usize, piece: &[u8]) -> Result<(), AllocError> {
        self.store.put(file, offset, piece)
    }

    fn resize(&mut self, file: u64, size: usize) -> Result<(), AllocError> {
        self.store.resize(file, size)
    }
}

//! A tree of files over one that stays, as a host.
ghost use Rattle.std.specs.Prelude.{◌≡◌, ◌<◌, ◌≤◌, ◌↔◌, ℕ, true, false, None, Err, IfSome, IfOk, OnErr, All, map};
ghost use Rattle.std.specs.FinMap as maps;
ghost use Rattle.std.specs.FinSet.{contains, insert, from_list};
ghost use Rattle.std.specs.List.Sorted.{IsStrictlySortedBy};
ghost use Rattle.std.specs.Ordering.{nat_cmp};
ghost use Rattle.wasi_host.specs.Tree.{next_of, node_at, names_of, is_directory};
ghost use Rattle.wasi_host.specs.HostLaws.{never_fails};
ghost use Rattle.wasi_host.specs.declared.injected_fault.InjectedFault.TheVariants.{Passes};
ghost use Rattle.wasi_overlay.specs.Overlay.{IsFreshOn};
ghost use Rattle.wasi_tree.specs.NodeData.{node_data, data_of_node, pair_of};
ghost use Rattle.wasi_tree.specs.Viewed.{Views};
ghost use Rattle.wasi_tree.specs.MemState.{live_of, held_in, model_of};

use crate::over_store::OverStore;
use std::alloc::{AllocError, Global};
use std::marker::Model;
use wasi_host::{
    AccessMode, Advice, DirEntry, ErrorCode, Handle, Host, HostError, Metadata, OpenOptions,
    SyncFlags, SystemTime,
};
use wasi_paths::Name;
use wasi_tree::{HandleError, MemTree, NewEntry, NewNode, NodeStore, NodeView, TreeHost};

/// A tree of files over a tree in memory that stays, as a host. Guests see and change the tree that both together are.
/// The tree below is never changed, so dropping the overlay drops the changes; `commit` makes a tree of them. It never
/// forgets what was touched, so what is kept always lies in it. Contracts see what they see of a `MemTree`.
#[derive(Debug, Drop)]
pub struct Overlay<'a> {
    host: TreeHost<OverStore<'a>>,
}

impl<'a> Model for Overlay<'a> {
    ghost use Rattle.wasi_overlay.specs.Overlay.{WorksOnTouched};
    ghost use Rattle.wasi_tree.specs.MemState.{MemState, state_code};

    ghost Value = { MemState };

    ghost coded = { state_code };

    ghost view = { λ a. a.host };

    ghost invariant = { λ a. WorksOnTouched a.host };
}

impl<'a> Overlay<'a> {
    /// The tree below, of which nothing has changed. There is no live handle, no node is touched, and there is no
    /// lookup. It takes no memory.
    pub fn new(alloc: Global, base: &MemTree) -> Overlay<'_>
        ensures { IsFreshOn base.now.tree result }
    {
        Overlay {
            host: TreeHost::over(alloc, OverStore::new(alloc, base.store())),
        }
    }

    /// A handle of a directory, for its path alone. `NotDirectory` where the node isn't one; `Memory` if memory ran
    /// out.
    pub fn handle(&mut self, node: u64) -> Result<Handle, HandleError>
        ensures not_directory { (result ≡ Err HandleError.NotDirectory) ↔ (is_directory (node_at self.old.tree node).content ≡ false) }
        ensures fresh { IfOk result (λ h. contains (live_of self.old.handles) h ≡ false) }
        ensures live { IfOk result (λ h. live_of self.new.handles ≡ insert (live_of self.old.handles) h) }
        ensures held { IfOk result (λ h. held_in self.new.handles h ≡ record { node = node; mode = AccessMode.PathOnly }) }
        ensures others { (h : ℕ) → contains (live_of self.old.handles) h ≡ true
            → held_in self.new.handles h ≡ held_in self.old.handles h }
        ensures tree { self.new.tree ≡ self.old.tree }
        ensures touched { self.new.touched ≡ self.old.touched }
        ensures lookups { self.new.lookups ≡ self.old.lookups }
        ensures err { OnErr result (self.new ≡ self.old) }
    {
        self.host.handle(node)
    }

    /// The number that the next node has which is made. The nodes have the numbers below it.
    pub fn next(&self) -> u64
        ensures { result ≡ next_of self.now.tree }
    {
        self.host.store().count()
    }

    /// The node of a number as it is, lent without a copy, as that of a `MemTree`. A directory's names are asked for by
    /// `entry` and `entries`. None where there is no such node.
    pub fn node(&self, number: u64) -> Option<NodeView<'_>>
        ensures none { (result ≡ None) ↔ (next_of self.now.tree ≤ number) }
        ensures node { IfSome result (Views (node_at self.now.tree number)) }
    {
        if number >= self.next() {
            return None;
        }
        Some(self.host.store().node(number))
    }

    /// The node that a directory holds under a text, be the text a plain name or not. None where it holds none, and of
    /// what is no directory.
    pub fn entry(&self, dir: u64, name: &str) -> Option<u64>
        ensures entry { result ≡ maps.get (names_of (node_at self.now.tree dir).content) name.now }
    {
        self.host.store().entry(dir, name)
    }

    /// The entries of a directory in byte order, in memory of their own. What is no directory has none. The only `Err`
    /// is want of memory.
    pub fn entries(&self, alloc: Global, dir: u64) -> Result<Vec<NewEntry>, AllocError>
        ensures entries { IfOk result (λ entries. map pair_of entries.items
            ≡ maps.entries (names_of (node_at self.now.tree dir).content)) }
    {
        self.host.store().entries(alloc, dir)
    }

    /// The node of a number, in memory of its own. The entries of a directory stand in byte order. The only `Err` is
    /// want of memory, as of all that follows here.
    pub fn new_node(&self, alloc: Global, number: u64) -> Result<NewNode, AllocError>
        requires { number < next_of self.now.tree }
        ensures { IfOk result (λ node. node_data node ≡ data_of_node (node_at self.now.tree number)) }
    {
        self.host.store().new_node(alloc, number)
    }

    /// The numbers of the nodes that steps have worked on, rising. Something stands apart of a node that was only read,
    /// too, but that changes nothing of the node.
    pub fn kept(&self, alloc: Global) -> Result<Vec<u64>, AllocError>
        ensures nodes { IfOk result (λ nodes. from_list nodes.items ≡ self.now.tree.worked) }
        ensures touched { IfOk result (λ nodes. All (λ n. contains self.now.touched n ≡ true) nodes.items) }
        ensures rising { IfOk result (λ nodes. IsStrictlySortedBy nat_cmp nodes.items) }
    {
        self.host.store().list_worked(alloc)
    }

    /// The tree as it is, in memory of its own, as a tree in memory on which no step has worked. It has no live handle,
    /// no node is touched, and there is no lookup. The overlay and the tree below stay.
    pub fn commit(&self, alloc: Global) -> Result<MemTree, AllocError>
        ensures { IfOk result (IsFreshOn self.now.tree) }
    {
        Ok(TreeHost::over(alloc, self.host.store().commit(alloc)?))
    }

    /// The numbers of the touched nodes, rising, as those of a `MemTree`.
    pub fn touched(&self, alloc: Global) -> Result<Vec<u64>, AllocError>
        ensures nodes { IfOk result (λ nodes. from_list nodes.items ≡ self.now.touched) }
        ensures rising { IfOk result (λ nodes. IsStrictlySortedBy nat_cmp nodes.items) }
    {
        self.host.touched(alloc)
    }

    /// The tree as it is, as a list of nodes in memory of its own. The entries of each directory stand in byte order.
    pub fn nodes(&self, alloc: Global) -> Result<Vec<NewNode>, AllocError>
        ensures nodes { IfOk result (λ nodes. map node_data nodes.items ≡ map data_of_node self.now.tree.nodes) }
    {
        self.host.nodes(alloc)
    }
}

impl<'a> Host for Overlay<'a> {
    ghost faults = { λ _. never_fails };

    ghost live = { λ m. live_of m.handles };

    ghost lookups = { λ m. m.lookups };

    ghost modelled = { true };

    ghost model = { model_of };

    ghost fails_modelled = { true };

    ghost fails = { λ _ _. Passes };

    ghost found_modelled = { true };

    ghost others = { λ _ _ t. t };

    ghost found = { λ m. m.tree };

    ghost left = { model_of };

    fn open_at(
        &mut self,
        start: Handle,
        name: Name<'_>,
        options: &OpenOptions,
    ) -> Result<Handle, HostError> {
        self.host.open_at(start, name, options)
    }

    fn stat_at(&mut self, start: Handle, name: Name<'_>) -> Result<Metadata, HostError> {
        self.host.stat_at(start, name)
    }

    fn read_link_at(
        &mut self,
        alloc: Global,
        start: Handle,
        name: Name<'_>,
    ) -> Result<String, HostError> {
        self.host.read_link_at(alloc, start, name)
    }

    fn make_dir_at(&mut self, start: Handle, name: Name<'_>) -> Result<(), HostError> {
        self.host.make_dir_at(start, name)
    }

    fn symlink_at(&mut self, target: &str, start: Handle, name: Name<'_>) -> Result<(), HostError> {
        self.host.symlink_at(target, start, name)
    }

    fn link_at(
        &mut self,
        old: Handle,
        old_name: Name<'_>,
        new: Handle,
        new_name: Name<'_>,
    ) -> Result<(), HostError> {
        self.host.link_at(old, old_name, new, new_name)
    }

    fn rename_at(
        &mut self,
        old: Handle,
        old_name: Name<'_>,
        new: Handle,
        new_name: Name<'_>,
        requires_dir: bool,
    ) -> Result<(), HostError> {
        self.host
            .rename_at(old, old_name, new, new_name, requires_dir)
    }

    fn unlink_at(&mut self, start: Handle, name: Name<'_>) -> Result<(), HostError> {
        self.host.unlink_at(start, name)
    }

    fn remove_dir_at(&mut self, start: Handle, name: Name<'_>) -> Result<(), HostError> {
        self.host.remove_dir_at(start, name)
    }

    fn times_at(
        &mut self,
        start: Handle,
        name: Name<'_>,
        atime: Option<SystemTime>,
        mtime: Option<SystemTime>,
    ) -> Result<(), HostError> {
        self.host.times_at(start, name, atime, mtime)
    }

    fn access(&mut self, directory: Handle) -> Result<(), ErrorCode> {
        self.host.access(directory)
    }

    fn list(&mut self, alloc: Global, directory: Handle) -> Result<Vec<DirEntry>, HostError> {
        self.host.list(alloc, directory)
    }

    fn dup(&mut self, handle: Handle) -> Result<Handle, HostError> {
        self.host.dup(handle)
    }

    fn stat(&mut self, handle: Handle) -> Result<Metadata, ErrorCode> {
        self.host.stat(handle)
    }

    fn set_times(
        &mut self,
        handle: Handle,
        atime: Option<SystemTime>,
        mtime: Option<SystemTime>,
    ) -> Result<(), ErrorCode> {
        self.host.set_times(handle, atime, mtime)
    }

    fn pread(&mut self, file: Handle, buf: &mut [u8], offset: u64) -> Result<usize, ErrorCode> {
        self.host.pread(file, buf, offset)
    }

    fn pwrite(&mut self, file: Handle, piece: &[u8], offset: u64) -> Result<usize, HostError> {
        self.host.pwrite(file, piece, offset)
    }

    fn append(&mut self, file: Handle, piece: &[u8]) -> Result<usize, HostError> {
        self.host.append(file, piece)
    }

    fn set_size(&mut self, file: Handle, size: u64) -> Result<(), HostError> {
        self.host.set_size(file, size)
    }

    fn sync(&mut self, handle: Handle) -> Result<(), ErrorCode> {
        self.host.sync(handle)
    }

    fn advise(
        &mut self,
        file: Handle,
        offset: u64,
        len: u64,
        advice: Advice,
    ) -> Result<(), ErrorCode> {
        self.host.advise(file, offset, len, advice)
    }

    fn flags(&mut self, handle: Handle) -> Result<SyncFlags, ErrorCode> {
        self.host.flags(handle)
    }

    fn close(&mut self, handle: Handle) {
        self.host.close(handle)
    }

    fn laws(&self) {
        self.host.laws()
    }
}

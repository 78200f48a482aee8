//! The nodes of a tree that stays, with what changed of them.
ghost use Rattle.std.specs.Prelude.{◌≡◌, ◌<◌, true, IfSome, IfOk, OnOk, length, map};
ghost use Rattle.wasi_host.specs.Answer.{kind_of};
ghost use Rattle.wasi_overlay.specs.OverStore.{nodes_lost, worked_lost};
ghost use Rattle.std.specs.Option.{ForSome};
ghost use Rattle.std.specs.Ordering.{nat_cmp};
ghost use Rattle.std.specs.List.Sorted.{IsStrictlySortedBy};
ghost use Rattle.std.specs.FinMap as maps;
ghost use Rattle.std.specs.FinSet.{contains, empty, from_list};
ghost use Rattle.wasi_paths.specs.Name.{name_bytes};
ghost use Rattle.wasi_host.specs.Tree.{next_of, node_at, child, names_of, is_directory};
ghost use Rattle.wasi_tree.specs.NodeData.{node_data, content_data, data_of_node, data_of_content, pair_of};
ghost use Rattle.wasi_tree.specs.Viewed.{Views, viewed_content};

use crate::over_nodes::OverNodes;
use crate::over_parents::OverParents;
use std::alloc::{AllocError, Global};
use std::marker::Model;
use wasi_host::{Bits, DirEntry, FileType, Limits, Metadata, SystemTime};
use wasi_paths::Name;
use wasi_tree::{
    ContentView, Inode, MemStore, NameLookup, NewContent, NewEntry, NewNode, NodeStore, NodeView,
};
use wasi_tree_index::{OverNameIndex, SearchHint};

/// The nodes of a tree that stays, with what changed of them since: the nodes that were accessed, those that were made,
/// and the names that were put or taken. Contracts see the tree that both together are, the touched nodes, and the
/// nodes that have room.
#[derive(Debug, Drop)]
pub struct OverStore<'a> {
    pub(crate) nodes: OverNodes<'a>,
    pub(crate) names: OverNameIndex<'a>,
    pub(crate) parents: OverParents<'a>,
    pub(crate) limits: Limits,
    alloc: Global,
    /// Where a name of the tree below was found last.
    near: SearchHint,
}

impl<'a> Model for OverStore<'a> {
    ghost use Rattle.wasi_overlay.specs.OverStore.{IsOver, Overlaid, overlaid_code, overlay_parts, tree_over};

    ghost Value = { Overlaid };

    ghost coded = { overlaid_code };

    ghost view = { λ a. record {
      tree = tree_over (overlay_parts a.nodes a.names a.limits);
      touched = a.nodes.touched;
      held = a.nodes.held;
    } };

    ghost invariant = { λ a. IsOver (overlay_parts a.nodes a.names a.limits) a.parents.parents };
}

#[tactic(auto, using(wasi_tree::proofs::StoreLemmas::child_is, wasi_tree::proofs::StoreLemmas::child_dot, wasi_tree::proofs::StoreLemmas::no_child))]
impl<'a> OverStore<'a> {
    /// The tree of a store as it is, where nothing has been worked on or touched. It takes no memory.
    pub fn new(alloc: Global, base: &MemStore) -> OverStore<'_>
        ensures tree { result.tree ≡ record base.now.tree { worked = empty } }
        ensures touched { result.touched ≡ empty }
    {
        base.laws();
        OverStore {
            nodes: OverNodes::new(alloc, base),
            names: OverNameIndex::new(alloc, base.all_names()),
            parents: OverParents::new(alloc, base),
            limits: base.limits(),
            alloc,
            near: SearchHint::first(),
        }
    }

    /// The nodes that steps have worked on, rising.
    pub fn list_worked(&self, alloc: Global) -> Result<Vec<u64>, AllocError>
        ensures nodes { IfOk result (λ nodes. from_list nodes.items ≡ self.now.tree.worked) }
        ensures rising { IfOk result (λ nodes. IsStrictlySortedBy nat_cmp nodes.items) }
    {
        self.nodes.list_worked(alloc)
    }

    /// The kind of a node; that of a file where the number is out of range.
    fn kind(&self, n: u64) -> FileType
        ensures { result ≡ kind_of (node_at self.now.tree n).content }
    {
        self.nodes.kind(n)
    }

    /// The node that a name holds in a directory.
    fn child(&self, near: &mut SearchHint, directory: u64, name: Name<'_>) -> Option<u64>
        requires { directory < next_of self.now.tree }
        ensures found { result ≡ child self.now.tree directory (name_bytes name.entry) }
        ensures below { IfSome result (λ n. n < next_of self.now.tree) }
    {
        if name.is_dot() {
            return Some(directory);
        }
        if !self.nodes.is_directory(directory) {
            return None;
        }
        self.names.find(near, directory, name.as_str())
    }

    /// The node of a number, lent without a copy and without a directory's names.
    pub fn node(&self, n: u64) -> NodeView<'_>
        requires { n < next_of self.now.tree }
        ensures { Views (node_at self.now.tree n) result }
    {
        let Metadata {
            atime,
            mtime,
            btime,
            links,
            ..
        } = self.metadata(n);
        NodeView {
            content: self.content(n),
            bits: self.bits(n),
            atime,
            mtime,
            btime,
            links,
            gone: self.is_gone(n),
        }
    }

    /// What a node is, lent without a directory's names.
    fn content(&self, n: u64) -> ContentView<'_>
        requires { n < next_of self.now.tree }
        ensures { viewed_content (maps.entries (names_of (node_at self.now.tree n).content)) result
            ≡ data_of_content (node_at self.now.tree n).content }
    {
        if self.is_directory(n) {
            return ContentView::Dir;
        }
        if self.is_file(n) {
            return ContentView::File(self.bytes(n));
        }
        ContentView::Link(self.text(n))
    }

    /// The node that a directory holds under a text.
    pub fn entry(&self, directory: u64, name: &str) -> Option<u64>
        ensures { result ≡ maps.get (names_of (node_at self.now.tree directory).content) name.now }
    {
        if !self.is_directory(directory) {
            return None;
        }
        let mut near = self.near;
        self.names.find(&mut near, directory, name)
    }

    /// The node of a number as a list gives it, in memory of its own.
    pub fn new_node(&self, alloc: Global, n: u64) -> Result<NewNode, AllocError>
        requires { n < next_of self.now.tree }
        ensures { IfOk result (λ node. node_data node ≡ data_of_node (node_at self.now.tree n)) }
    {
        let Metadata {
            atime,
            mtime,
            btime,
            ..
        } = self.metadata(n);
        Ok(NewNode {
            content: self.new_content(alloc, n)?,
            bits: self.bits(n),
            atime,
            mtime,
            btime,
        })
    }

    /// What a node is, as a list gives it.
    fn new_content(&self, alloc: Global, n: u64) -> Result<NewContent, AllocError>
        requires { n < next_of self.now.tree }
        ensures { IfOk result (λ content. content_data content ≡ data_of_content (node_at self.now.tree n).content) }
    {
        if self.is_directory(n) {
            return Ok(NewContent::Dir(self.new_entries(alloc, n)?));
        }
        if self.is_file(n) {
            return Ok(NewContent::File(Vec::from_slice(alloc, self.bytes(n))?));
        }
        Ok(NewContent::Link(String::from_str(alloc, self.text(n))?))
    }

    /// The entries of a directory, in byte order. What is no directory has none.
    pub fn entries(&self, alloc: Global, directory: u64) -> Result<Vec<NewEntry>, AllocError>
        ensures { IfOk result (λ entries. map pair_of entries.items
            ≡ maps.entries (names_of (node_at self.now.tree directory).content)) }
    {
        if !self.is_directory(directory) {
            return Ok(Vec::new(alloc));
        }
        self.new_entries(alloc, directory)
    }

    /// The entries of a directory, in byte order.
    pub(crate) fn new_entries(
        &self,
        alloc: Global,
        directory: u64,
    ) -> Result<Vec<NewEntry>, AllocError>
        requires { is_directory (node_at self.now.tree directory).content ≡ true }
        ensures { IfOk result (λ entries. map pair_of entries.items
            ≡ maps.entries (names_of (node_at self.now.tree directory).content)) }
    {
        let mut entries = Vec::new(alloc);
        let mut names = self.names.names(directory);
        while let Some((name, node)) = names.next() {
            entries.push(NewEntry {
                name: String::from_str(alloc, name)?,
                node,
            })?;
        }
        Ok(entries)
    }
}

impl<'a> NodeStore for OverStore<'a> {
    ghost use Rattle.std.specs.Prelude.{◌≡◌, true};
    ghost use Rattle.std.specs.FinSet.{contains};

    ghost seen = { λ s. record { tree = s.tree; touched = s.touched } };

    ghost HasRoom = { λ s n. contains s.held n ≡ true };

    fn count(&self) -> u64 {
        self.nodes.count()
    }

    fn limits(&self) -> Limits {
        self.limits
    }

    fn allocator(&self) -> Global {
        self.alloc
    }

    fn is_directory(&self, n: u64) -> bool {
        self.nodes.is_directory(n)
    }

    fn is_file(&self, n: u64) -> bool {
        self.nodes.is_file(n)
    }

    fn is_link(&self, n: u64) -> bool {
        self.nodes.is_link(n)
    }

    fn is_gone(&self, n: u64) -> bool {
        self.nodes.is_gone(n)
    }

    fn bits(&self, n: u64) -> Bits {
        self.nodes.bits(n)
    }

    fn links(&self, n: u64) -> u64 {
        self.nodes.links(n)
    }

    fn bytes(&self, n: u64) -> &[u8] {
        self.nodes.bytes(n)
    }

    fn text(&self, n: u64) -> &str {
        self.nodes.text(n)
    }

    fn metadata(&self, n: u64) -> Metadata {
        self.nodes.metadata(n)
    }

    fn is_bare(&self, directory: u64) -> bool {
        self.names.is_empty(directory)
    }

    fn is_below(&self, top: u64, directory: u64) -> bool {
        self.parents.is_below(top, directory)
    }

    fn look<'n>(&mut self, directory: u64, name: Name<'n>) -> NameLookup<'n> {
        let mut near = self.near;
        let found = self.child(&mut near, directory, name);
        self.near = near;
        NameLookup {
            directory,
            name,
            found,
        }
    }

    fn list_names(&self, alloc: Global, directory: u64) -> Result<Vec<DirEntry>, AllocError> {
        let mut entries = Vec::new(alloc);
        let mut names = self.names.names(directory);
        while let Some((name, node)) = names.next() {
            entries.push(DirEntry {
                name: String::from_str(alloc, name)?,
                kind: self.kind(node),
            })?;
        }
        Ok(entries)
    }

    fn to_new(&self, alloc: Global) -> Result<Vec<NewNode>, AllocError> {
        let mut nodes = Vec::new(alloc);
        for n in 0..self.nodes.count() {
            nodes.push(self.new_node(alloc, n)?)?;
        }
        Ok(nodes)
    }

    fn make_room(&mut self, n: u64) -> Result<(), AllocError> {
        self.nodes.hold(n)
    }

    fn touch(&mut self, n: u64) {
        self.nodes.touch(n);
    }

    fn forget(&mut self) {
        self.nodes.forget();
    }

    fn list_touched(&self, alloc: Global) -> Result<Vec<u64>, AllocError> {
        self.nodes.list_touched(alloc)
    }

    /// All room is taken first, so that nothing has changed if memory runs out.
    fn make_node(
        &mut self,
        directory: u64,
        name: Name<'_>,
        inode: Inode,
    ) -> Result<u64, AllocError> {
        let node = self.nodes.count();
        self.nodes.reserve()?;
        self.parents.reserve()?;
        self.names.put(directory, name.as_str(), node)?;
        self.nodes.work(directory);
        self.nodes.push(inode);
        self.parents.push(directory);
        Ok(node)
    }

    fn add_link(&mut self, directory: u64, name: Name<'_>, node: u64) -> Result<(), AllocError> {
        self.names.put(directory, name.as_str(), node)?;
        self.nodes.work(directory);
        self.nodes.gain_name(node);
        Ok(())
    }

    fn move_name(
        &mut self,
        old: u64,
        old_name: Name<'_>,
        new: u64,
        new_name: Name<'_>,
        node: u64,
        there: Option<u64>,
    ) -> Result<(), AllocError> {
        hold_both(&mut self.parents, node, there)?;
        self.names
            .rename(old, old_name.as_str(), new, new_name.as_str(), node)?;
        self.nodes.work(new);
        lose_found(&mut self.nodes, there);
        self.nodes.work(old);
        self.parents.replace(there, node, new);
        Ok(())
    }

    fn drop_name(&mut self, directory: u64, name: Name<'_>, node: u64) -> Result<(), AllocError> {
        self.parents.hold(node)?;
        self.names.take(directory, name.as_str())?;
        self.nodes.work(directory);
        self.nodes.lose_name(node);
        self.parents.set(node, None);
        Ok(())
    }

    fn cut(&mut self, file: u64) {
        self.nodes.cut(file);
    }

    fn set_times(&mut self, node: u64, atime: Option<SystemTime>, mtime: Option<SystemTime>) {
        self.nodes.set_times(node, atime, mtime);
    }

    fn put(&mut self, file: u64, offset: usize, piece: &[u8]) -> Result<(), AllocError> {
        self.nodes.put(file, offset, piece)
    }

    fn resize(&mut self, file: u64, size: usize) -> Result<(), AllocError> {
        self.nodes.resize(file, size)
    }
}

/// Makes room for another parent of a node, and of what stands in its place, if there is one.
fn hold_both(parents: &mut OverParents<'_>, node: u64, there: Option<u64>) -> Result<(), AllocError>
    requires node { node < length parents.old.parents }
    requires there { ForSome there (λ m. m < length parents.old.parents) }
    ensures same { parents.new.parents ≡ parents.old.parents }
    ensures node { OnOk result (contains parents.new.held node ≡ true) }
    ensures there { OnOk result (ForSome there (λ m. contains parents.new.held m ≡ true)) }
{
    parents.hold(node)?;
    match there {
        Some(lost) => parents.hold(lost),
        None => Ok(()),
    }
}

/// Takes a name from the node that has it, if there is one.
fn lose_found(nodes: &mut OverNodes<'_>, found: Option<u64>)
    requires within { ForSome found (λ n. n < length nodes.old.nodes) }
    requires held { ForSome found (λ n. contains nodes.old.held n ≡ true) }
    ensures nodes { nodes.new.nodes ≡ nodes_lost nodes.old.nodes found }
    ensures worked { nodes.new.worked ≡ worked_lost nodes.old.worked found }
    ensures touched { nodes.new.touched ≡ nodes.old.touched }
    ensures held { nodes.new.held ≡ nodes.old.held }
{
    if let Some(lost) = found {
        nodes.lose_name(lost);
    }
}

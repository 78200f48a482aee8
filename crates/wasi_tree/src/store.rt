//! The nodes by number.
ghost use Rattle.std.specs.Prelude.{◌≡◌, ℕ, ◌+◌, ◌-◌, ◌<◌, ◌≤◌, OnOk, Some, None, IfSome, IfOk, OnErr, Ok, length, map, true, false, IsTrue, All};
ghost use Rattle.wasi_paths.specs.Name.{name_bytes};
ghost use Rattle.wasi_paths.specs.Text.{is_entry_name};
ghost use Rattle.wasi_host.specs.Tree.{Tree, next_of, node_at, child, is_directory, is_file, is_link, is_gone, names_of, links_of, bytes_of, text_of};
ghost use Rattle.wasi_host.specs.Refusal.{is_bare};
ghost use Rattle.wasi_host.specs.Step.{file_cut, node_made, bytes_put, size_set, times_set};
ghost use Rattle.wasi_host.specs.Answer.{metadata_of, kind_of, entry_of, listed};
ghost use Rattle.wasi_host.specs.Numbers.{largest_file};
ghost use Rattle.wasi_tree.specs.NodeData.{node_data, data_of_node, nodes_from, tree_of};
ghost use Rattle.wasi_tree.specs.WellFormed.{name_counts};
ghost use Rattle.wasi_tree.specs.Viewed.{Views};
ghost use Rattle.wasi_tree.specs.Sound.{NodesStay, IsSoundText};
ghost use Rattle.std.specs.FinSet.{empty};
ghost use Rattle.wasi_tree.specs.StoredTree.{stored_node, stored_tree, named_from, AreBelow, IsStored};
ghost use Rattle.std.specs.FinMap as maps;
ghost use Rattle.wasi_tree_index.specs.DirEntryKeys.{names_at};

use crate::inode::Inode;
use crate::marks::Marks;
use crate::node::{NewNode, NodeView};
use crate::well_formed_nodes::WellFormedNodes;
use std::alloc::{AllocError, Global};
use std::marker::Model;
use wasi_host::{Bits, DirEntry, FileType, Limits, Metadata, SystemTime};
use wasi_paths::Name;
use wasi_tree_index::{EntryCursor, NameIndex, SearchHint};

/// The nodes of a tree, with the names of its directories, its limits and the nodes that steps have worked on.
/// Contracts see the tree.
#[derive(Debug, Drop)]
pub struct InodeStore {
    pub(crate) inodes: Vec<Inode>,
    pub(crate) names: NameIndex,
    pub(crate) limits: Limits,
    pub(crate) worked: Marks,
}

impl Model for InodeStore {
    ghost use Rattle.wasi_host.specs.Tree.{Tree};
    ghost use Rattle.wasi_host.specs.TreeCode.{tree_code};

    ghost Value = { Tree };

    ghost coded = { tree_code };

    ghost use Rattle.wasi_tree.specs.StoredTree.{stored_tree, IsStored};

    ghost view = { λ a. stored_tree a.inodes.items a.names.names a.limits a.worked.nodes };

    ghost invariant = { λ a. IsStored a.inodes.items a.names.names a.limits a.worked.nodes a.worked.count };
}

#[tactic(auto, using(crate::proofs::StoreLemmas::store_rules))]
impl InodeStore {
    ghost use Rattle.wasi_tree.specs.Sound.{IsSoundNode};
    ghost use Rattle.wasi_host.specs.Time.{HasTimes};

    /// The tree of these nodes.
    #[tactic(auto, using(crate::proofs::NewTreeLemmas::new_tree_rules))]
    pub fn of(alloc: Global, fit: WellFormedNodes) -> Result<InodeStore, AllocError>
        ensures tree { IfOk result (λ store. store ≡ tree_of fit.nodes fit.limits) }
    {
        let WellFormedNodes {
            nodes,
            counts,
            limits,
        } = fit;
        let mut names = NameIndex::new(alloc);
        let inodes = inodes_of(alloc, nodes, &counts, &mut names)?;
        InodeStore::of_stored(alloc, inodes, names, limits)
    }

    /// The tree of these inodes, with the names of all directories. No node has been worked on.
    pub fn of_stored(
        alloc: Global,
        inodes: Vec<Inode>,
        names: NameIndex,
        limits: Limits,
    ) -> Result<InodeStore, AllocError>
        requires { IsStored inodes.items names.names limits empty (length inodes.items) }
        ensures tree { IfOk result (λ store. store ≡ stored_tree inodes.items names.names limits empty) }
    {
        let worked = Marks::new(alloc, inodes.len())?;
        Ok(InodeStore {
            inodes,
            names,
            limits,
            worked,
        })
    }

    /// The nodes as a list gives them, each directory's entries in byte order.
    pub fn to_new(&self, alloc: Global) -> Result<Vec<NewNode>, AllocError>
        ensures { IfOk result (λ nodes. map node_data nodes.items ≡ map data_of_node self.now.nodes) }
    {
        new_nodes(alloc, self.inodes.as_slice(), &self.names)
    }

    /// How many nodes there are.
    pub fn count(&self) -> u64
        ensures { result ≡ next_of self.now }
    {
        self.inodes.as_slice().len() as u64
    }

    /// The limits of the tree.
    pub fn limits(&self) -> Limits
        ensures { result ≡ self.now.limits }
    {
        self.limits
    }

    /// The node of a number, lent without a directory's names.
    pub fn node(&self, n: u64) -> NodeView<'_>
        requires { n < next_of self.now }
        ensures { Views (node_at self.now n) result }
    {
        self.inodes[n as usize].view()
    }

    /// The names of a directory, in byte order. What is no directory has none.
    pub fn names(&self, directory: u64) -> EntryCursor<'_>
        ensures { result ≡ maps.entries (names_of (node_at self.now directory).content) }
    {
        if !self.is_directory(directory) {
            return EntryCursor::none();
        }
        self.names.names(directory)
    }

    /// The names of all directories.
    pub fn all_names(&self) -> &NameIndex
        ensures here { (d : ℕ) → is_directory (node_at self.now d).content ≡ true
            → names_at result.now.names d ≡ names_of (node_at self.now d).content }
        ensures past { (d : ℕ) → next_of self.now ≤ d → names_at result.now.names d ≡ maps.empty }
    {
        &self.names
    }

    /// Each node is sound.
    pub fn laws(&self)
        ensures { (n : ℕ) → IsSoundNode (next_of self.now) (node_at self.now n) }
    {
        let _inodes = &self.inodes;
    }

    /// The node that a directory holds under a text.
    pub fn entry(&self, directory: u64, name: &str) -> Option<u64>
        ensures { result ≡ maps.get (names_of (node_at self.now directory).content) name.now }
    {
        if !self.is_directory(directory) {
            return None;
        }
        let mut near = SearchHint::first();
        self.names.find(&mut near, directory, name)
    }

    /// Whether a number is a directory's.
    pub fn is_directory(&self, n: u64) -> bool
        ensures { result ≡ is_directory (node_at self.now n).content }
    {
        if n >= self.count() {
            return false;
        }
        self.inodes[n as usize].content.is_directory()
    }

    /// Whether a number is a file's.
    pub fn is_file(&self, n: u64) -> bool
        requires { n < next_of self.now }
        ensures { result ≡ is_file (node_at self.now n).content }
    {
        self.inodes[n as usize].content.is_file()
    }

    /// Whether a number is a link's.
    pub fn is_link(&self, n: u64) -> bool
        requires { n < next_of self.now }
        ensures { result ≡ is_link (node_at self.now n).content }
    {
        self.inodes[n as usize].content.is_link()
    }

    /// Whether a number is that of a directory that is gone.
    pub fn is_gone(&self, n: u64) -> bool
        requires { n < next_of self.now }
        ensures { result ≡ is_gone (node_at self.now n).content }
    {
        self.inodes[n as usize].content.is_gone()
    }

    /// The bits of a node.
    pub fn bits(&self, n: u64) -> Bits
        requires { n < next_of self.now }
        ensures { result ≡ (node_at self.now n).bits }
    {
        self.inodes[n as usize].bits
    }

    /// How many names a node has. A directory's are shown as 1.
    pub fn links(&self, n: u64) -> u64
        requires { n < next_of self.now }
        ensures { result ≡ links_of (node_at self.now n).content }
    {
        self.inodes[n as usize].content.links()
    }

    /// A file's bytes. Nothing of what is no file.
    pub fn bytes(&self, n: u64) -> &[u8]
        requires { n < next_of self.now }
        ensures { result.now ≡ bytes_of (node_at self.now n).content }
    {
        self.inodes[n as usize].content.bytes()
    }

    /// A link's text. Nothing of what is no link.
    pub fn text(&self, n: u64) -> &str
        requires { n < next_of self.now }
        ensures text { result.now ≡ text_of (node_at self.now n).content }
        ensures sound { is_link (node_at self.now n).content ≡ true → IsSoundText result.now }
    {
        self.inodes[n as usize].content.text()
    }

    /// Whether a directory holds no names.
    pub fn is_bare(&self, directory: u64) -> bool
        requires { is_directory (node_at self.now directory).content ≡ true }
        ensures { result ≡ is_bare (node_at self.now directory) }
    {
        self.names.is_empty(directory)
    }

    /// The node that a name holds in a directory. It is looked for near where a name was found last, before all else.
    pub fn child(&self, near: &mut SearchHint, directory: u64, name: Name<'_>) -> Option<u64>
        requires { directory < next_of self.now }
        ensures found { result ≡ child self.now directory (name_bytes name.entry) }
        ensures below { IfSome result (λ n. n < next_of self.now) }
    {
        if name.is_dot() {
            return Some(directory);
        }
        if !self.is_directory(directory) {
            return None;
        }
        self.names.find(near, directory, name.as_str())
    }

    /// Cuts a file to no bytes.
    pub fn cut(&mut self, file: u64)
        requires { file < next_of self.old }
        ensures cut { self.new ≡ file_cut self.old file }
        ensures stays { NodesStay self.old self.new }
        ensures count { next_of self.new ≡ next_of self.old }
    {
        self.inodes[file as usize].content.cut();
        self.worked.mark(file);
    }

    /// Makes a node under a name of a directory, and gives its number. All room is taken first, so that nothing has
    /// changed if memory runs out.
    pub fn make_node(
        &mut self,
        directory: u64,
        name: Name<'_>,
        inode: Inode,
    ) -> Result<u64, AllocError>
        requires directory { is_directory (node_at self.old directory).content ≡ true }
        requires named { IsTrue (is_entry_name (name_bytes name)) }
        requires sound { IsSoundNode 0 (stored_node inode) }
        ensures number { IfOk result (λ n. n ≡ next_of self.old) }
        ensures made { OnOk result
            (self.new ≡ node_made self.old directory (name_bytes name.entry) (stored_node inode)) }
        ensures kept { OnErr result (self.new ≡ self.old) }
        ensures stays { NodesStay self.old self.new }
    {
        let text = String::from_str(self.allocator(), name.as_str())?;
        let node = self.count();
        self.names.reserve()?;
        self.inodes.reserve(1)?;
        self.worked.reserve()?;
        self.names.insert(directory, text, node);
        self.inodes.push_reserved(inode);
        self.worked.mark(directory);
        self.worked.push();
        Ok(node)
    }

    /// The names of a directory, each with the kind of its node.
    pub fn list_names(&self, alloc: Global, directory: u64) -> Result<Vec<DirEntry>, AllocError>
        requires { is_directory (node_at self.now directory).content ≡ true }
        ensures listed { IfOk result (λ entries. map entry_of entries.items
            ≡ map (listed self.now) (maps.entries (names_of (node_at self.now directory).content))) }
        ensures named { IfOk result
            (λ entries. All (λ entry. IsTrue (is_entry_name entry.0)) (map entry_of entries.items)) }
    {
        let mut entries = Vec::new(alloc);
        let mut names = self.names.names(directory);
        while let Some((name, node)) = names.next() {
            entries.push(DirEntry {
                name: String::from_str(alloc, name)?,
                kind: self.kind(node),
            })?;
        }
        Ok(entries)
    }

    /// The allocator of its memory.
    pub fn allocator(&self) -> Global {
        *self.inodes.allocator()
    }

    /// The kind of a node; that of a file where the number is out of range.
    fn kind(&self, n: u64) -> FileType
        ensures { result ≡ kind_of (node_at self.now n).content }
    {
        if n >= self.count() {
            return FileType::RegularFile;
        }
        self.inodes[n as usize].content.kind()
    }

    /// Sets the given times of a node; one that isn't given stays.
    pub fn set_times(&mut self, node: u64, atime: Option<SystemTime>, mtime: Option<SystemTime>)
        requires { node < next_of self.old }
        ensures set { self.new ≡ times_set self.old node atime mtime }
        ensures stays { NodesStay self.old self.new }
        ensures count { next_of self.new ≡ next_of self.old }
    {
        self.inodes[node as usize].set_times(atime, mtime);
        self.worked.mark(node);
    }

    /// The metadata of a node.
    pub fn metadata(&self, node: u64) -> Metadata
        requires { node < next_of self.now }
        ensures metadata { result ≡ metadata_of self.now node }
        ensures times { HasTimes result }
    {
        self.inodes[node as usize].metadata(node)
    }

    /// Puts a piece of bytes into a file from an offset on. If memory runs out, nothing has changed.
    pub fn put(&mut self, file: u64, offset: usize, piece: &[u8]) -> Result<(), AllocError>
        requires within { file < next_of self.old }
        requires fits { offset + length piece.now ≤ largest_file }
        ensures put { OnOk result (self.new ≡ bytes_put self.old file offset piece.now) }
        ensures kept { OnErr result (self.new ≡ self.old) }
        ensures stays { NodesStay self.old self.new }
        ensures count { next_of self.new ≡ next_of self.old }
    {
        self.inodes[file as usize].content.put(offset, piece)?;
        self.worked.mark(file);
        Ok(())
    }

    /// Cuts a file to a size, or fills it up with zeros. If memory runs out, nothing has changed.
    pub fn resize(&mut self, file: u64, size: usize) -> Result<(), AllocError>
        requires { file < next_of self.old }
        ensures sized { OnOk result (self.new ≡ size_set self.old file size) }
        ensures kept { OnErr result (self.new ≡ self.old) }
        ensures stays { NodesStay self.old self.new }
        ensures count { next_of self.new ≡ next_of self.old }
    {
        self.inodes[file as usize].content.resize(size)?;
        self.worked.mark(file);
        Ok(())
    }
}

/// The inodes of these nodes, where no names are there yet; those of their directories come. The counts say how many
/// entries give each number.
fn inodes_of(
    alloc: Global,
    nodes: Vec<NewNode>,
    counts: &[u64],
    names: &mut NameIndex,
) -> Result<Vec<Inode>, AllocError>
    requires counts { counts.now ≡ name_counts (map node_data nodes.items) }
    requires none { names.old.names ≡ maps.empty }
    ensures nodes { let all = map node_data nodes.items in
        IfOk result (λ inodes. named_from names.new.names 0 (map stored_node inodes.items) ≡ nodes_from all 0 all) }
    ensures below { IfOk result (λ inodes. AreBelow names.new.names (length inodes.items)) }
{
    let mut inodes = Vec::with_capacity(alloc, nodes.len())?;
    for node in nodes {
        let number = inodes.len();
        let inode = Inode::new(node, number as u64, counts[number], names)?;
        inodes.push(inode)?;
    }
    Ok(inodes)
}

/// The nodes of these inodes and names as a list gives them.
fn new_nodes(alloc: Global, inodes: &[Inode], names: &NameIndex) -> Result<Vec<NewNode>, AllocError>
    ensures { IfOk result (λ nodes. map node_data nodes.items ≡ map data_of_node (named_from names.now.names 0 (map stored_node inodes.now))) }
{
    let mut nodes = Vec::with_capacity(alloc, inodes.len())?;
    for inode in inodes {
        let number = nodes.len();
        nodes.push(inode.to_new(alloc, names.names(number as u64))?)?;
    }
    Ok(nodes)
}

//! How a tree keeps its nodes.
ghost use Rattle.std.specs.Prelude.{◌≡◌, ◌+◌, ◌<◌, ◌≤◌, ℕ, true, All, IsTrue, IfOk, OnOk, OnErr, length, map};
ghost use Rattle.std.specs.Ordering.{nat_cmp};
ghost use Rattle.std.specs.List.Sorted.{IsStrictlySortedBy};
ghost use Rattle.std.specs.FinSet.{empty, from_list};
ghost use Rattle.std.specs.FinMap as maps;
ghost use Rattle.std.specs.Option.{ForSome};
ghost use Rattle.wasi_paths.specs.Name.{name_bytes};
ghost use Rattle.wasi_paths.specs.Text.{is_entry_name};
ghost use Rattle.wasi_host.specs.Tree.{next_of, node_at, is_directory, is_file, is_link, is_gone, names_of, links_of, bytes_of, text_of};
ghost use Rattle.wasi_host.specs.Below.{is_below};
ghost use Rattle.wasi_host.specs.Refusal.{is_bare};
ghost use Rattle.wasi_host.specs.Step.{file_cut, node_made, bytes_put, size_set, times_set, name_added, name_dropped, name_lost, name_moved_onto};
ghost use Rattle.wasi_host.specs.Answer.{metadata_of, entry_of, listed};
ghost use Rattle.wasi_host.specs.Numbers.{largest_file};
ghost use Rattle.wasi_host.specs.Time.{HasTimes};
ghost use Rattle.wasi_tree.specs.NodeData.{node_data, data_of_node};
ghost use Rattle.wasi_tree.specs.NameLookup.{IsLooked, looked_at};
ghost use Rattle.wasi_tree.specs.Move.{HasName, IsMove, MayGain, MayName};
ghost use Rattle.wasi_tree.specs.Sound.{NodesStay, IsSoundNode, IsSoundText};
ghost use Rattle.wasi_tree.specs.StoredTree.{stored_node};
ghost use Rattle.wasi_tree.specs.TouchedTree.{Touched, Grows, with_touched, with_tree};

use crate::inode::Inode;
use crate::name_lookup::NameLookup;
use crate::node::NewNode;
use std::alloc::{AllocError, Global};
use wasi_host::{Bits, DirEntry, Limits, Metadata, SystemTime};
use wasi_paths::Name;

/// How the nodes of a tree and the names of its directories are kept, and which nodes were touched. A host over a tree
/// is generic over this: what a call is refused for, and which steps it makes, is said once for all stores.
///
/// A node has room where what is done at it takes no memory, but for its bytes and a directory's names: it may be
/// touched, its times be set, and names of it be counted. A store that copies what changes makes this room before a
/// step.
pub trait NodeStore {
    /// The tree, and the touched nodes.
    ghost seen: { Self → Touched };

    /// The nodes that have room.
    ghost HasRoom: { Self → ℕ → Type 0 };

    /// How many nodes there are.
    fn count(&self) -> u64
        ensures { result ≡ next_of (seen self.now).tree };

    /// The limits of the tree.
    fn limits(&self) -> Limits
        ensures { result ≡ (seen self.now).tree.limits };

    /// The allocator of its memory.
    fn allocator(&self) -> Global;

    /// Whether a number is a directory's.
    fn is_directory(&self, n: u64) -> bool
        ensures { result ≡ is_directory (node_at (seen self.now).tree n).content };

    /// Whether a number is a file's.
    fn is_file(&self, n: u64) -> bool
        requires { n < next_of (seen self.now).tree }
        ensures { result ≡ is_file (node_at (seen self.now).tree n).content };

    /// Whether a number is a link's.
    fn is_link(&self, n: u64) -> bool
        requires { n < next_of (seen self.now).tree }
        ensures { result ≡ is_link (node_at (seen self.now).tree n).content };

    /// Whether a number is that of a directory that is gone.
    fn is_gone(&self, n: u64) -> bool
        requires { n < next_of (seen self.now).tree }
        ensures { result ≡ is_gone (node_at (seen self.now).tree n).content };

    /// The bits of a node.
    fn bits(&self, n: u64) -> Bits
        requires { n < next_of (seen self.now).tree }
        ensures { result ≡ (node_at (seen self.now).tree n).bits };

    /// How many names a node has. A directory's are shown as 1.
    fn links(&self, n: u64) -> u64
        requires { n < next_of (seen self.now).tree }
        ensures { result ≡ links_of (node_at (seen self.now).tree n).content };

    /// A file's bytes. Nothing of what is no file.
    fn bytes(&self, n: u64) -> &[u8]
        requires { n < next_of (seen self.now).tree }
        ensures { result.now ≡ bytes_of (node_at (seen self.now).tree n).content };

    /// A link's text. Nothing of what is no link.
    fn text(&self, n: u64) -> &str
        requires { n < next_of (seen self.now).tree }
        ensures text { result.now ≡ text_of (node_at (seen self.now).tree n).content }
        ensures sound { is_link (node_at (seen self.now).tree n).content ≡ true → IsSoundText result.now };

    /// The metadata of a node.
    fn metadata(&self, n: u64) -> Metadata
        requires { n < next_of (seen self.now).tree }
        ensures metadata { result ≡ metadata_of (seen self.now).tree n }
        ensures times { HasTimes result };

    /// Whether a directory holds no names.
    fn is_bare(&self, directory: u64) -> bool
        requires { is_directory (node_at (seen self.now).tree directory).content ≡ true }
        ensures { result ≡ is_bare (node_at (seen self.now).tree directory) };

    /// Whether a directory is another one, or below it.
    fn is_below(&self, top: u64, directory: u64) -> bool
        requires top { is_directory (node_at (seen self.now).tree top).content ≡ true }
        requires directory { is_directory (node_at (seen self.now).tree directory).content ≡ true }
        ensures { result ≡ is_below (seen self.now).tree top directory };

    /// Looks up a name in a directory. Nothing is touched.
    fn look<'n>(&mut self, directory: u64, name: Name<'n>) -> NameLookup<'n>
        requires { directory < next_of (seen self.old).tree }
        ensures looked { result ≡ looked_at (seen self.old).tree directory name.entry }
        ensures is { IsLooked (seen self.old).tree result }
        ensures seen { seen self.new ≡ seen self.old }
        ensures room { Grows (HasRoom self.old) (HasRoom self.new) };

    /// All names of a directory, in byte order, each with the kind of its node.
    fn list_names(&self, alloc: Global, directory: u64) -> Result<Vec<DirEntry>, AllocError>
        requires { is_directory (node_at (seen self.now).tree directory).content ≡ true }
        ensures listed { IfOk result (λ entries. map entry_of entries.items
            ≡ map (listed (seen self.now).tree) (maps.entries (names_of (node_at (seen self.now).tree directory).content))) }
        ensures named { IfOk result
            (λ entries. All (λ entry. IsTrue (is_entry_name entry.0)) (map entry_of entries.items)) };

    /// All nodes as a list gives them, each directory's entries in byte order.
    fn to_new(&self, alloc: Global) -> Result<Vec<NewNode>, AllocError>
        ensures { IfOk result (λ nodes. map node_data nodes.items ≡ map data_of_node (seen self.now).tree.nodes) };

    /// Makes room at a node.
    fn make_room(&mut self, n: u64) -> Result<(), AllocError>
        requires { n < next_of (seen self.old).tree }
        ensures seen { seen self.new ≡ seen self.old }
        ensures made { OnOk result (HasRoom self.new n) }
        ensures room { Grows (HasRoom self.old) (HasRoom self.new) };

    /// Touches a node that has room.
    fn touch(&mut self, n: u64)
        requires within { n < next_of (seen self.old).tree }
        requires at { HasRoom self.old n }
        ensures touched { seen self.new ≡ with_touched (seen self.old) n }
        ensures room { Grows (HasRoom self.old) (HasRoom self.new) };

    /// No node is touched from here on.
    fn forget(&mut self)
        ensures tree { (seen self.new).tree ≡ (seen self.old).tree }
        ensures touched { (seen self.new).touched ≡ empty }
        ensures room { Grows (HasRoom self.old) (HasRoom self.new) };

    /// The touched nodes, rising.
    fn list_touched(&self, alloc: Global) -> Result<Vec<u64>, AllocError>
        ensures nodes { IfOk result (λ nodes. from_list nodes.items ≡ (seen self.now).touched) }
        ensures rising { IfOk result (λ nodes. IsStrictlySortedBy nat_cmp nodes.items) };

    /// Makes a node under a name that a directory lacks, and gives its number. It is touched, and has room.
    fn make_node(&mut self, directory: u64, name: Name<'_>, inode: Inode) -> Result<u64, AllocError>
        requires may { MayName (seen self.old).tree directory (name_bytes name) }
        requires sound { IsSoundNode 0 (stored_node inode) }
        requires at { HasRoom self.old directory }
        ensures number { IfOk result (λ n. n ≡ next_of (seen self.old).tree) }
        ensures made { OnOk result (seen self.new ≡ with_touched
            (with_tree (seen self.old) (node_made (seen self.old).tree directory (name_bytes name.entry) (stored_node inode)))
            (next_of (seen self.old).tree)) }
        ensures fresh { IfOk result (HasRoom self.new) }
        ensures kept { OnErr result (seen self.new ≡ seen self.old) }
        ensures stays { NodesStay (seen self.old).tree (seen self.new).tree }
        ensures room { Grows (HasRoom self.old) (HasRoom self.new) };

    /// Gives a file or link a name more, in a directory that lacks it.
    fn add_link(&mut self, directory: u64, name: Name<'_>, node: u64) -> Result<(), AllocError>
        requires may { MayGain (seen self.old).tree directory (name_bytes name) node }
        requires at { HasRoom self.old directory }
        requires gains { HasRoom self.old node }
        ensures added { OnOk result (seen self.new
            ≡ with_tree (seen self.old) (name_added (seen self.old).tree directory (name_bytes name.entry) node)) }
        ensures kept { OnErr result (seen self.new ≡ seen self.old) }
        ensures stays { NodesStay (seen self.old).tree (seen self.new).tree }
        ensures room { Grows (HasRoom self.old) (HasRoom self.new) };

    /// Moves a name of a directory, which this node has, to a name of another, which may be the same. What the new name
    /// held loses it.
    fn move_name(
        &mut self,
        old: u64,
        old_name: Name<'_>,
        new: u64,
        new_name: Name<'_>,
        node: u64,
        there: Option<u64>,
    ) -> Result<(), AllocError>
        requires may { IsMove (seen self.old).tree old (name_bytes old_name) new (name_bytes new_name) node there }
        requires from { HasRoom self.old old }
        requires to { HasRoom self.old new }
        requires loses { ForSome there (HasRoom self.old) }
        ensures moved { OnOk result (seen self.new ≡ with_tree (seen self.old) (name_moved_onto (seen self.old).tree
            old (name_bytes old_name.entry) new (name_bytes new_name.entry) node there)) }
        ensures kept { OnErr result (seen self.new ≡ seen self.old) }
        ensures stays { NodesStay (seen self.old).tree (seen self.new).tree }
        ensures room { Grows (HasRoom self.old) (HasRoom self.new) };

    /// Drops a name of a directory, which another node has: a file or link has one fewer, and a directory is gone.
    fn drop_name(&mut self, directory: u64, name: Name<'_>, node: u64) -> Result<(), AllocError>
        requires has { HasName (seen self.old).tree directory (name_bytes name) node }
        requires at { HasRoom self.old directory }
        requires loses { HasRoom self.old node }
        ensures dropped { OnOk result (seen self.new ≡ with_tree (seen self.old)
            (name_dropped (seen self.old).tree directory (name_bytes name.entry) name_lost node)) }
        ensures kept { OnErr result (seen self.new ≡ seen self.old) }
        ensures stays { NodesStay (seen self.old).tree (seen self.new).tree }
        ensures room { Grows (HasRoom self.old) (HasRoom self.new) };

    /// Cuts a file to no bytes.
    fn cut(&mut self, file: u64)
        requires within { file < next_of (seen self.old).tree }
        requires at { HasRoom self.old file }
        ensures cut { seen self.new ≡ with_tree (seen self.old) (file_cut (seen self.old).tree file) }
        ensures stays { NodesStay (seen self.old).tree (seen self.new).tree }
        ensures room { Grows (HasRoom self.old) (HasRoom self.new) };

    /// Sets the given times of a node; one that isn't given stays.
    fn set_times(&mut self, node: u64, atime: Option<SystemTime>, mtime: Option<SystemTime>)
        requires within { node < next_of (seen self.old).tree }
        requires at { HasRoom self.old node }
        ensures set { seen self.new ≡ with_tree (seen self.old) (times_set (seen self.old).tree node atime mtime) }
        ensures stays { NodesStay (seen self.old).tree (seen self.new).tree }
        ensures room { Grows (HasRoom self.old) (HasRoom self.new) };

    /// Puts a piece of bytes into a file from an offset on.
    fn put(&mut self, file: u64, offset: usize, piece: &[u8]) -> Result<(), AllocError>
        requires within { file < next_of (seen self.old).tree }
        requires at { HasRoom self.old file }
        requires fits { offset + length piece.now ≤ largest_file }
        ensures put { OnOk result
            (seen self.new ≡ with_tree (seen self.old) (bytes_put (seen self.old).tree file offset piece.now)) }
        ensures kept { OnErr result (seen self.new ≡ seen self.old) }
        ensures stays { NodesStay (seen self.old).tree (seen self.new).tree }
        ensures room { Grows (HasRoom self.old) (HasRoom self.new) };

    /// Cuts a file to a size, or fills it up with zeros.
    fn resize(&mut self, file: u64, size: usize) -> Result<(), AllocError>
        requires within { file < next_of (seen self.old).tree }
        requires at { HasRoom self.old file }
        ensures sized { OnOk result (seen self.new ≡ with_tree (seen self.old) (size_set (seen self.old).tree file size)) }
        ensures kept { OnErr result (seen self.new ≡ seen self.old) }
        ensures stays { NodesStay (seen self.old).tree (seen self.new).tree }
        ensures room { Grows (HasRoom self.old) (HasRoom self.new) };
}

//! The nodes of a tree that stays, and those made after them.
ghost use Rattle.std.specs.Prelude.{◌≡◌, ◌+◌, ◌-◌, ◌^◌, ◌<◌, [], ◌∷◌, ◌++◌, OnOk, IfSome, IfNone, length, slice_index_or};
ghost use Rattle.wasi_host.specs.Answer.{kind_of, metadata_from};
ghost use Rattle.wasi_host.specs.Tree.{stray, node_at, is_directory, is_file, is_link, is_gone, bytes_of, text_of};
ghost use Rattle.wasi_tree.specs.StoredTree.{stored_node};
ghost use Rattle.wasi_overlay.specs.Grown.{grown};

use std::alloc::{AllocError, Global};
use std::marker::Model;
use wasi_host::{Bits, FileType, Metadata};
use wasi_tree::{Inode, MemStore, NodeStore};

/// The nodes of a tree that stays, and after them nodes that were made. Contracts see the nodes by number, and how
/// many more can be made before memory is taken.
#[derive(Debug, Drop)]
pub struct Grown<'a> {
    base: &'a MemStore,
    made: Vec<Inode>,
}

impl<'a> Model for Grown<'a> {
    ghost use Rattle.std.specs.Prelude.{◌-◌, vec_len, vec_capacity};
    ghost use Rattle.wasi_overlay.specs.Grown.{GrownNodes, grown, grown_code, AreCounted};

    ghost Value = { GrownNodes };

    ghost coded = { grown_code };

    ghost view = { λ a. record {
      nodes = grown a.base.now.tree.nodes a.made.items;
      room = vec_capacity a.made - vec_len a.made;
    } };

    ghost invariant = { λ a. AreCounted (grown a.base.now.tree.nodes a.made.items) };
}

#[tactic(auto, using(crate::proofs::GrownLemmas::grown_rules))]
impl<'a> Grown<'a> {
    /// The nodes of a tree. It takes no memory.
    pub fn new(alloc: Global, base: &'a MemStore) -> Grown<'a>
        ensures { result.nodes ≡ base.now.tree.nodes }
    {
        let _count = base.count();
        Grown {
            base,
            made: Vec::new(alloc),
        }
    }

    /// The allocator of the nodes that are made.
    pub fn allocator(&self) -> Global {
        *self.made.allocator()
    }

    /// How many nodes there are.
    #[inline(always)]
    pub fn count(&self) -> u64
        ensures { result ≡ length self.now.nodes }
    {
        self.base.count() + self.made.as_slice().len() as u64
    }

    /// Whether a number is a directory's.
    #[inline(always)]
    pub fn is_directory(&self, n: u64) -> bool
        ensures { result ≡ is_directory (slice_index_or self.now.nodes n stray).content }
    {
        if n >= self.count() {
            return false;
        }
        match inode_of(self.base, self.made.as_slice(), n) {
            Some(inode) => inode.content.is_directory(),
            None => self.base.is_directory(n),
        }
    }

    /// Whether a number is a file's.
    #[inline(always)]
    pub fn is_file(&self, n: u64) -> bool
        requires { n < length self.now.nodes }
        ensures { result ≡ is_file (slice_index_or self.now.nodes n stray).content }
    {
        match inode_of(self.base, self.made.as_slice(), n) {
            Some(inode) => inode.content.is_file(),
            None => self.base.is_file(n),
        }
    }

    /// Whether a number is a link's.
    #[inline(always)]
    pub fn is_link(&self, n: u64) -> bool
        requires { n < length self.now.nodes }
        ensures { result ≡ is_link (slice_index_or self.now.nodes n stray).content }
    {
        match inode_of(self.base, self.made.as_slice(), n) {
            Some(inode) => inode.content.is_link(),
            None => self.base.is_link(n),
        }
    }

    /// What kind of node a number is. That of no node is shown as a file.
    #[inline(always)]
    pub fn kind(&self, n: u64) -> FileType
        ensures { result ≡ kind_of (slice_index_or self.now.nodes n stray).content }
    {
        if self.is_directory(n) {
            return FileType::Directory;
        }
        if n < self.count() && self.is_link(n) {
            return FileType::SymbolicLink;
        }
        FileType::RegularFile
    }

    /// Whether a number is that of a directory that is gone.
    #[inline(always)]
    pub fn is_gone(&self, n: u64) -> bool
        requires { n < length self.now.nodes }
        ensures { result ≡ is_gone (slice_index_or self.now.nodes n stray).content }
    {
        match inode_of(self.base, self.made.as_slice(), n) {
            Some(inode) => inode.content.is_gone(),
            None => self.base.is_gone(n),
        }
    }

    /// The bits of a node.
    #[inline(always)]
    pub fn bits(&self, n: u64) -> Bits
        requires { n < length self.now.nodes }
        ensures { result ≡ (slice_index_or self.now.nodes n stray).bits }
    {
        match inode_of(self.base, self.made.as_slice(), n) {
            Some(inode) => inode.bits,
            None => self.base.bits(n),
        }
    }

    /// A file's bytes. Nothing of what is no file.
    #[inline(always)]
    pub fn bytes(&self, n: u64) -> &[u8]
        requires { n < length self.now.nodes }
        ensures { result.now ≡ bytes_of (slice_index_or self.now.nodes n stray).content }
    {
        match inode_of(self.base, self.made.as_slice(), n) {
            Some(inode) => inode.content.bytes(),
            None => self.base.bytes(n),
        }
    }

    /// A link's text. Nothing of what is no link.
    pub fn text(&self, n: u64) -> &str
        requires { n < length self.now.nodes }
        ensures { result.now ≡ text_of (slice_index_or self.now.nodes n stray).content }
    {
        match inode_of(self.base, self.made.as_slice(), n) {
            Some(inode) => inode.content.text(),
            None => self.base.text(n),
        }
    }

    /// The metadata of a node.
    #[inline(always)]
    pub fn metadata(&self, n: u64) -> Metadata
        requires { n < length self.now.nodes }
        ensures { result ≡ metadata_from n (slice_index_or self.now.nodes n stray) }
    {
        match inode_of(self.base, self.made.as_slice(), n) {
            Some(inode) => inode.metadata(n),
            None => self.base.metadata(n),
        }
    }

    /// Makes room for one more node.
    pub fn reserve(&mut self) -> Result<(), AllocError>
        ensures nodes { self.new.nodes ≡ self.old.nodes }
        ensures room { OnOk result (0 < self.new.room) }
    {
        self.made.reserve(1)
    }

    /// One node more, with the next number.
    pub fn push(&mut self, inode: Inode)
        requires room { 0 < self.old.room }
        requires number { length self.old.nodes < 2 ^ 64 - 1 }
        ensures { self.new.nodes ≡ self.old.nodes ++ stored_node inode ∷ [] }
    {
        self.made.push_reserved(inode);
    }
}

/// The inode of the node of a number, where it was made.
#[inline(always)]
fn inode_of<'a>(base: &MemStore, made: &'a [Inode], n: u64) -> Option<&'a Inode>
    requires { n < length (grown base.now.tree.nodes made.now) }
    ensures made { IfSome result (λ inode. stored_node inode.now ≡ slice_index_or (grown base.now.tree.nodes made.now) n stray) }
    ensures within { IfNone result (n < length base.now.tree.nodes) }
    ensures same { IfNone result
        (node_at base.now.tree n ≡ slice_index_or (grown base.now.tree.nodes made.now) n stray) }
{
    let count = base.count();
    if n < count {
        return None;
    }
    Some(&made[(n - count) as usize])
}

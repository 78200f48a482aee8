//! The nodes of an overlay over a tree that stays.
ghost use Rattle.std.specs.Prelude.{◌≡◌, ℕ, ◌+◌, ◌-◌, ◌^◌, ◌<◌, ◌≤◌, true, [], ◌∷◌, ◌++◌, IfOk, OnOk, OnErr, length, slice_index_or, slice_set};
ghost use Rattle.std.specs.FinSet.{contains, empty, insert, from_list};
ghost use Rattle.std.specs.List.Sorted.{IsStrictlySortedBy};
ghost use Rattle.std.specs.Ordering.{nat_cmp};
ghost use Rattle.wasi_host.specs.Answer.{kind_of, metadata_from};
ghost use Rattle.wasi_host.specs.Numbers.{largest_file};
ghost use Rattle.wasi_host.specs.Step.{with_content, with_times, name_lost, one_name_more, other_bytes, with_piece, with_size};
ghost use Rattle.wasi_host.specs.Time.{HasTimes};
ghost use Rattle.wasi_host.specs.Tree.{stray, is_directory, is_file, is_link, is_gone, links_of, bytes_of, text_of};
ghost use Rattle.wasi_tree.specs.StoredTree.{stored_node};

use crate::byte_copies::{copy_of_size, copy_with_piece};
use crate::grown::Grown;
use crate::seat::Mark;
use crate::seats::Seats;
use std::alloc::{AllocError, Global};
use std::marker::Model;
use wasi_host::{Bits, FileType, Metadata, SystemTime};
use wasi_tree::{Inode, MemStore};

/// The nodes of an overlay over a tree that stays: those of the tree and those that were made, each with what its seat
/// keeps of it. What a step comes to has a seat from then on. Contracts see the nodes, and the numbers of seats.
#[derive(Debug, Drop)]
pub struct OverNodes<'a> {
    below: Grown<'a>,
    seats: Seats,
    /// The round of now. A node is touched where it was touched last in it.
    round: u32,
}

impl<'a> Model for OverNodes<'a> {
    ghost use Rattle.wasi_overlay.specs.OverNodes.{OverState, over_code, over_state, AreRounds};

    ghost Value = { OverState };

    ghost coded = { over_code };

    ghost view = { λ a. over_state a.below a.seats a.round };

    ghost invariant = { λ a. AreRounds a.round a.seats };
}

#[tactic(auto, using(crate::proofs::StateLemmas::read_rules))]
impl<'a> OverNodes<'a> {
    /// The nodes of a tree. It takes no memory.
    pub fn new(alloc: Global, base: &'a MemStore) -> OverNodes<'a>
        ensures nodes { result.nodes ≡ base.now.tree.nodes }
        ensures held { result.held ≡ empty }
        ensures worked { result.worked ≡ empty }
        ensures touched { result.touched ≡ empty }
    {
        OverNodes {
            below: Grown::new(alloc, base),
            seats: Seats::new(alloc),
            round: 1,
        }
    }

    /// How many nodes there are.
    pub fn count(&self) -> u64
        ensures { result ≡ length self.now.nodes }
    {
        self.below.count()
    }

    /// Whether a number is a directory's.
    pub fn is_directory(&self, n: u64) -> bool
        ensures { result ≡ is_directory (slice_index_or self.now.nodes n stray).content }
    {
        self.below.is_directory(n)
    }

    /// Whether a number is a file's.
    pub fn is_file(&self, n: u64) -> bool
        requires { n < length self.now.nodes }
        ensures { result ≡ is_file (slice_index_or self.now.nodes n stray).content }
    {
        self.below.is_file(n)
    }

    /// Whether a number is a link's.
    pub fn is_link(&self, n: u64) -> bool
        requires { n < length self.now.nodes }
        ensures { result ≡ is_link (slice_index_or self.now.nodes n stray).content }
    {
        self.below.is_link(n)
    }

    /// The bits of a node.
    pub fn bits(&self, n: u64) -> Bits
        requires { n < length self.now.nodes }
        ensures { result ≡ (slice_index_or self.now.nodes n stray).bits }
    {
        self.below.bits(n)
    }

    /// A link's text. Nothing of what is no link.
    pub fn text(&self, n: u64) -> &str
        requires { n < length self.now.nodes }
        ensures { result.now ≡ text_of (slice_index_or self.now.nodes n stray).content }
    {
        self.below.text(n)
    }

    /// What kind of node a number is. That of no node is shown as a file.
    pub fn kind(&self, n: u64) -> FileType
        ensures { result ≡ kind_of (slice_index_or self.now.nodes n stray).content }
    {
        self.below.kind(n)
    }

    /// Whether a number is that of a directory that is gone.
    pub fn is_gone(&self, n: u64) -> bool
        requires { n < length self.now.nodes }
        ensures { result ≡ is_gone (slice_index_or self.now.nodes n stray).content }
    {
        match self.seats.kept(n) {
            Some(kept) => self.below.is_directory(n) && kept.gone,
            None => self.below.is_gone(n),
        }
    }

    /// How many names a node has. A directory's are shown as 1.
    pub fn links(&self, n: u64) -> u64
        requires { n < length self.now.nodes }
        ensures { result ≡ links_of (slice_index_or self.now.nodes n stray).content }
    {
        self.metadata(n).links
    }

    /// The metadata of a node.
    pub fn metadata(&self, n: u64) -> Metadata
        requires { n < length self.now.nodes }
        ensures metadata { result ≡ metadata_from n (slice_index_or self.now.nodes n stray) }
        ensures times { HasTimes result }
    {
        match self.seats.kept(n) {
            Some(kept) => kept.metadata(self.below.metadata(n)),
            None => self.below.metadata(n),
        }
    }

    /// A file's bytes. Nothing of what is no file.
    pub fn bytes(&self, n: u64) -> &[u8]
        requires { n < length self.now.nodes }
        ensures { result.now ≡ bytes_of (slice_index_or self.now.nodes n stray).content }
    {
        let below = self.below.bytes(n);
        match self.seats.kept(n) {
            Some(kept) if kept.bytes.is_some() && self.below.is_file(n) => kept.bytes_over(below),
            _ => below,
        }
    }

    /// Touches a node.
    #[inline(always)]
    pub fn touch(&mut self, n: u64)
        requires held { contains self.old.held n ≡ true }
        requires within { n < length self.old.nodes }
        ensures touched { self.new.touched ≡ insert self.old.touched n }
        ensures nodes { self.new.nodes ≡ self.old.nodes }
        ensures worked { self.new.worked ≡ self.old.worked }
        ensures held { self.new.held ≡ self.old.held }
        ensures room { self.new.has_room ≡ self.old.has_room }
    {
        self.seats.touch(n, self.round);
    }

    /// Works on a node.
    pub fn work(&mut self, n: u64)
        requires held { contains self.old.held n ≡ true }
        requires within { n < length self.old.nodes }
        ensures worked { self.new.worked ≡ insert self.old.worked n }
        ensures nodes { self.new.nodes ≡ self.old.nodes }
        ensures touched { self.new.touched ≡ self.old.touched }
        ensures held { self.new.held ≡ self.old.held }
        ensures room { self.new.has_room ≡ self.old.has_room }
    {
        self.seats.work(&self.below, n);
    }

    /// Sets the given times of a node; one that isn't given stays.
    pub fn set_times(&mut self, n: u64, atime: Option<SystemTime>, mtime: Option<SystemTime>)
        requires held { contains self.old.held n ≡ true }
        requires within { n < length self.old.nodes }
        ensures nodes { self.new.nodes ≡ slice_set self.old.nodes n (with_times (slice_index_or self.old.nodes n stray) atime mtime) }
        ensures worked { self.new.worked ≡ insert self.old.worked n }
        ensures touched { self.new.touched ≡ self.old.touched }
        ensures held { self.new.held ≡ self.old.held }
        ensures room { self.new.has_room ≡ self.old.has_room }
    {
        self.work(n);
        self.seats.set_times(n, atime, mtime);
    }

    /// Takes a name from a node: a file or link has one fewer, and a directory is gone.
    pub fn lose_name(&mut self, n: u64)
        requires held { contains self.old.held n ≡ true }
        requires within { n < length self.old.nodes }
        ensures nodes { self.new.nodes ≡ slice_set self.old.nodes n (with_content (slice_index_or self.old.nodes n stray) name_lost) }
        ensures worked { self.new.worked ≡ insert self.old.worked n }
        ensures touched { self.new.touched ≡ self.old.touched }
        ensures held { self.new.held ≡ self.old.held }
        ensures room { self.new.has_room ≡ self.old.has_room }
    {
        self.work(n);
        self.seats.lose_name(n);
    }

    /// Gives a file or link a name more. A directory stays.
    pub fn gain_name(&mut self, n: u64)
        requires held { contains self.old.held n ≡ true }
        requires within { n < length self.old.nodes }
        requires room { links_of (slice_index_or self.old.nodes n stray).content < 2 ^ 64 - 1 }
        ensures nodes { self.new.nodes ≡ slice_set self.old.nodes n (with_content (slice_index_or self.old.nodes n stray) one_name_more) }
        ensures worked { self.new.worked ≡ insert self.old.worked n }
        ensures touched { self.new.touched ≡ self.old.touched }
        ensures held { self.new.held ≡ self.old.held }
        ensures room { self.new.has_room ≡ self.old.has_room }
    {
        let links = self.links(n);
        self.work(n);
        self.seats.set_links(n, links + 1);
    }

    /// Cuts a file to no bytes. What is no file stays.
    pub fn cut(&mut self, n: u64)
        requires held { contains self.old.held n ≡ true }
        requires within { n < length self.old.nodes }
        ensures nodes { self.new.nodes ≡ slice_set self.old.nodes n (with_content (slice_index_or self.old.nodes n stray) (other_bytes (with_size 0))) }
        ensures worked { self.new.worked ≡ insert self.old.worked n }
        ensures touched { self.new.touched ≡ self.old.touched }
        ensures held { self.new.held ≡ self.old.held }
        ensures room { self.new.has_room ≡ self.old.has_room }
    {
        let alloc = self.below.allocator();
        self.set_bytes(n, Vec::new(alloc));
    }

    /// Gives a file these bytes of its own. What is no file stays.
    fn set_bytes(&mut self, n: u64, bytes: Vec<u8>)
        requires held { contains self.old.held n ≡ true }
        requires within { n < length self.old.nodes }
        ensures nodes { self.new.nodes ≡ slice_set self.old.nodes n (with_content (slice_index_or self.old.nodes n stray) (other_bytes (λ _. bytes.items))) }
        ensures worked { self.new.worked ≡ insert self.old.worked n }
        ensures touched { self.new.touched ≡ self.old.touched }
        ensures held { self.new.held ≡ self.old.held }
        ensures room { self.new.has_room ≡ self.old.has_room }
    {
        self.work(n);
        self.seats.set_bytes(n, bytes);
    }

    /// Gives a node a seat.
    #[inline(always)]
    pub fn hold(&mut self, n: u64) -> Result<(), AllocError>
        requires { n < length self.old.nodes }
        ensures held { OnOk result (contains self.new.held n ≡ true) }
        ensures grows { (m : ℕ) → contains self.old.held m ≡ true → contains self.new.held m ≡ true }
        ensures nodes { self.new.nodes ≡ self.old.nodes }
        ensures worked { self.new.worked ≡ self.old.worked }
        ensures touched { self.new.touched ≡ self.old.touched }
        ensures room { self.new.has_room ≡ self.old.has_room }
    {
        self.seats.hold(n)?;
        Ok(())
    }

    /// Makes room for one more node: a seat for its number, and a place for it.
    pub fn reserve(&mut self) -> Result<(), AllocError>
        ensures room { OnOk result (self.new.has_room ≡ true) }
        ensures grows { (m : ℕ) → contains self.old.held m ≡ true → contains self.new.held m ≡ true }
        ensures nodes { self.new.nodes ≡ self.old.nodes }
        ensures worked { self.new.worked ≡ self.old.worked }
        ensures touched { self.new.touched ≡ self.old.touched }
    {
        let n = self.below.count();
        if n == u64::MAX {
            return Err(AllocError);
        }
        self.below.reserve()?;
        self.seats.hold(n)?;
        Ok(())
    }

    /// One node more, which is worked on and touched.
    pub fn push(&mut self, inode: Inode)
        requires { self.old.has_room ≡ true }
        ensures nodes { self.new.nodes ≡ self.old.nodes ++ stored_node inode ∷ [] }
        ensures worked { self.new.worked ≡ insert self.old.worked (length self.old.nodes) }
        ensures touched { self.new.touched ≡ insert self.old.touched (length self.old.nodes) }
        ensures held { contains self.new.held (length self.old.nodes) ≡ true }
        ensures grows { (m : ℕ) → contains self.old.held m ≡ true → contains self.new.held m ≡ true }
    {
        let n = self.below.count();
        let gone = inode.content.is_gone();
        self.seats.begin(n, self.round, inode.metadata(n), gone);
        self.below.push(inode);
    }

    /// Puts a piece of bytes into a file from an offset on, with zeros in a gap before it. What is no file stays. Where
    /// memory runs out, nothing has changed.
    pub fn put(&mut self, n: u64, offset: usize, piece: &[u8]) -> Result<(), AllocError>
        requires held { contains self.old.held n ≡ true }
        requires within { n < length self.old.nodes }
        requires fits { offset + length piece.now ≤ largest_file }
        ensures nodes { OnOk result (self.new.nodes
            ≡ slice_set self.old.nodes n (with_content (slice_index_or self.old.nodes n stray) (other_bytes (λ bytes. with_piece bytes offset piece.now)))) }
        ensures worked { OnOk result (self.new.worked ≡ insert self.old.worked n) }
        ensures kept { OnErr result (self.new ≡ self.old) }
        ensures touched { self.new.touched ≡ self.old.touched }
        ensures held { self.new.held ≡ self.old.held }
        ensures room { self.new.has_room ≡ self.old.has_room }
    {
        if self.seats.has_bytes(n) {
            return self.seats.put_bytes(n, offset, piece);
        }
        let alloc = self.below.allocator();
        let bytes = copy_with_piece(alloc, self.bytes(n), offset, piece)?;
        self.set_bytes(n, bytes);
        Ok(())
    }

    /// Cuts a file to a size, or fills it up with zeros. What is no file stays. If memory runs out,
    /// nothing has changed.
    pub fn resize(&mut self, n: u64, size: usize) -> Result<(), AllocError>
        requires held { contains self.old.held n ≡ true }
        requires within { n < length self.old.nodes }
        ensures nodes { OnOk result (self.new.nodes
            ≡ slice_set self.old.nodes n (with_content (slice_index_or self.old.nodes n stray) (other_bytes (with_size size)))) }
        ensures worked { OnOk result (self.new.worked ≡ insert self.old.worked n) }
        ensures kept { OnErr result (self.new ≡ self.old) }
        ensures touched { self.new.touched ≡ self.old.touched }
        ensures held { self.new.held ≡ self.old.held }
        ensures room { self.new.has_room ≡ self.old.has_room }
    {
        if self.seats.has_bytes(n) {
            return self.seats.resize(n, size);
        }
        let alloc = self.below.allocator();
        let bytes = copy_of_size(alloc, self.bytes(n), size)?;
        self.set_bytes(n, bytes);
        Ok(())
    }

    /// No node is touched from here on.
    pub fn forget(&mut self)
        ensures touched { self.new.touched ≡ empty }
        ensures nodes { self.new.nodes ≡ self.old.nodes }
        ensures worked { self.new.worked ≡ self.old.worked }
        ensures held { self.new.held ≡ self.old.held }
        ensures room { self.new.has_room ≡ self.old.has_room }
    {
        self.round = self.seats.begin_round(self.round);
    }

    /// The touched nodes, rising.
    pub fn list_touched(&self, alloc: Global) -> Result<Vec<u64>, AllocError>
        ensures nodes { IfOk result (λ nodes. from_list nodes.items ≡ self.now.touched) }
        ensures rising { IfOk result (λ nodes. IsStrictlySortedBy nat_cmp nodes.items) }
    {
        self.seats.list(alloc, Mark::Touched(self.round))
    }

    /// The nodes that were worked on, rising.
    pub fn list_worked(&self, alloc: Global) -> Result<Vec<u64>, AllocError>
        ensures nodes { IfOk result (λ nodes. from_list nodes.items ≡ self.now.worked) }
        ensures rising { IfOk result (λ nodes. IsStrictlySortedBy nat_cmp nodes.items) }
    {
        self.seats.list(alloc, Mark::Worked)
    }
}

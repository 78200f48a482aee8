//! One node, as it is stored.
ghost use Rattle.std.specs.Prelude.{◌≡◌, ◌+◌, ◌-◌, ◌^◌, ◌<◌, ◌≤◌, List, IfOk, OnOk, OnErr, length, map, not, nat_eq, ◌&&◌};
ghost use Rattle.std.specs.FinMap as maps;
ghost use Rattle.wasi_host.specs.Tree.{Names, names_of, is_directory, is_file, is_link, is_gone, links_of, bytes_of, text_of};
ghost use Rattle.std.specs.String.{string_bytes};
ghost use Rattle.wasi_host.specs.Step.{new_node, new_file, new_directory, new_link, other_bytes, with_piece, with_size, with_times, one_name_more, name_lost};
ghost use Rattle.wasi_host.specs.Numbers.{largest_file};
ghost use Rattle.wasi_tree.specs.NodeData.{NodeData, pair_of, node_data, content_data, data_of_node, data_of_content, entry_count, content_from, node_from};
ghost use Rattle.wasi_tree.specs.Viewed.{Views, viewed_content};
ghost use Rattle.wasi_tree_index.specs.DirEntryKeys.{names_at};
ghost use Rattle.wasi_tree.specs.StoredTree.{stored_content, with_names, named_content, OtherNamesStay, with_first};
ghost use Rattle.wasi_host.specs.Answer.{kind_of, size_of, metadata_from};

use crate::node::{ContentView, NewContent, NewEntry, NewNode, NodeView, new_bits};
use std::alloc::{AllocError, Global};
use wasi_host::{Bits, FileType, Metadata, SystemTime};
use wasi_tree_index::{EntryCursor, NameIndex};

/// What a node is, with how many names it has. The names that a directory holds stand in the rows of all names.
#[derive(Debug, Drop)]
pub enum InodeContent {
    File { bytes: Vec<u8>, links: u64 },
    Dir { gone: bool },
    Link { text: String, links: u64 },
}

/// A node as a store holds it.
#[derive(Debug, Drop)]
pub struct Inode {
    pub content: InodeContent,
    pub bits: Bits,
    pub atime: SystemTime,
    pub mtime: SystemTime,
    pub btime: SystemTime,
}

impl InodeContent {
    ghost use Rattle.wasi_tree.specs.StoredTree.{stored_content};

    /// The content of the node of a number, which so many entries of its list give. The names of a directory come among
    /// the others; of two entries of one name the first one stays.
    fn new(
        content: NewContent,
        number: u64,
        links: u64,
        names: &mut NameIndex,
    ) -> Result<InodeContent, AllocError>
        requires { names_at names.old.names number ≡ maps.empty }
        ensures content { IfOk result (λ made. (all : List NodeData) → entry_count number all ≡ links
            → named_content (names_at names.new.names number) (stored_content made) ≡ content_from all number (content_data content)) }
        ensures others { OtherNamesStay number names.old.names names.new.names }
    {
        match content {
            NewContent::File(bytes) => Ok(InodeContent::File { bytes, links }),
            NewContent::Dir(entries) => {
                add_entries(names, number, entries)?;
                Ok(InodeContent::Dir {
                    gone: is_removed(number, links),
                })
            }
            NewContent::Link(text) => Ok(InodeContent::Link { text, links }),
        }
    }

    /// The content as a list of nodes gives it, in memory of its own, where a directory has these names.
    fn to_new(&self, alloc: Global, names: EntryCursor<'_>) -> Result<NewContent, AllocError>
        ensures { IfOk result (λ content. (held : Names) → maps.entries held ≡ names.entry
            → content_data content ≡ data_of_content (named_content held (stored_content self.now))) }
    {
        match self {
            InodeContent::File { bytes, .. } => {
                Ok(NewContent::File(Vec::from_slice(alloc, bytes.as_slice())?))
            }
            InodeContent::Dir { .. } => Ok(NewContent::Dir(new_entries(alloc, names)?)),
            InodeContent::Link { text, .. } => {
                Ok(NewContent::Link(String::from_str(alloc, text.as_str())?))
            }
        }
    }

    /// The content, lent without a directory's names.
    fn view(&self) -> ContentView<'_>
        ensures { (names : Names) → let content = named_content names (stored_content self.now) in
            viewed_content (maps.entries (names_of content)) result ≡ data_of_content content }
    {
        match self {
            InodeContent::File { bytes, .. } => ContentView::File(bytes.as_slice()),
            InodeContent::Dir { .. } => ContentView::Dir,
            InodeContent::Link { text, .. } => ContentView::Link(text.as_str()),
        }
    }

    pub fn is_directory(&self) -> bool
        ensures { result ≡ is_directory (stored_content self.now) }
    {
        match self {
            InodeContent::File { .. } => false,
            InodeContent::Dir { .. } => true,
            InodeContent::Link { .. } => false,
        }
    }

    pub fn is_file(&self) -> bool
        ensures { result ≡ is_file (stored_content self.now) }
    {
        match self {
            InodeContent::File { .. } => true,
            InodeContent::Dir { .. } => false,
            InodeContent::Link { .. } => false,
        }
    }

    pub fn is_link(&self) -> bool
        ensures { result ≡ is_link (stored_content self.now) }
    {
        match self {
            InodeContent::File { .. } => false,
            InodeContent::Dir { .. } => false,
            InodeContent::Link { .. } => true,
        }
    }

    pub fn is_gone(&self) -> bool
        ensures { result ≡ is_gone (stored_content self.now) }
    {
        match self {
            InodeContent::File { .. } => false,
            InodeContent::Dir { gone, .. } => *gone,
            InodeContent::Link { .. } => false,
        }
    }

    pub fn kind(&self) -> FileType
        ensures { result ≡ kind_of (stored_content self.now) }
    {
        match self {
            InodeContent::File { .. } => FileType::RegularFile,
            InodeContent::Dir { .. } => FileType::Directory,
            InodeContent::Link { .. } => FileType::SymbolicLink,
        }
    }

    pub fn size(&self) -> u64
        ensures { result ≡ size_of (stored_content self.now) }
    {
        match self {
            InodeContent::File { bytes, .. } => bytes.as_slice().len() as u64,
            InodeContent::Dir { .. } => 0,
            InodeContent::Link { text, .. } => text.as_bytes().len() as u64,
        }
    }

    pub fn links(&self) -> u64
        ensures { result ≡ links_of (stored_content self.now) }
    {
        match self {
            InodeContent::File { links, .. } => *links,
            InodeContent::Dir { .. } => 1,
            InodeContent::Link { links, .. } => *links,
        }
    }

    /// A file's bytes. Nothing of what is no file.
    pub fn bytes(&self) -> &[u8]
        ensures { result.now ≡ bytes_of (stored_content self.now) }
    {
        match self {
            InodeContent::File { bytes, .. } => bytes.as_slice(),
            InodeContent::Dir { .. } => &[],
            InodeContent::Link { .. } => &[],
        }
    }

    /// A link's text. Nothing of what is no link.
    pub fn text(&self) -> &str
        ensures { result.now ≡ text_of (stored_content self.now) }
    {
        match self {
            InodeContent::File { .. } => "",
            InodeContent::Dir { .. } => "",
            InodeContent::Link { text, .. } => text.as_str(),
        }
    }

    /// Takes a name from what has it: a file or link has one fewer, and a directory, which has no other, is gone.
    pub fn lose_name(&mut self)
        ensures { stored_content self.new ≡ name_lost (stored_content self.old) }
    {
        match self {
            InodeContent::File { links, .. } => *links = links.saturating_sub(1),
            InodeContent::Dir { gone, .. } => *gone = true,
            InodeContent::Link { links, .. } => *links = links.saturating_sub(1),
        }
    }

    /// Gives a file or link a name more. A directory, which has one name at most, stays.
    pub fn gain_name(&mut self)
        requires { links_of (stored_content self.old) < 2 ^ 64 - 1 }
        ensures { stored_content self.new ≡ one_name_more (stored_content self.old) }
    {
        match self {
            InodeContent::File { links, .. } => *links += 1,
            InodeContent::Dir { .. } => {}
            InodeContent::Link { links, .. } => *links += 1,
        }
    }

    /// Cuts a file to no bytes, and gives their memory back. What is no file stays.
    #[tactic(auto, unfolding(wasi_host::specs::Step::with_size))]
    pub fn cut(&mut self)
        ensures { stored_content self.new ≡ other_bytes (with_size 0) (stored_content self.old) }
    {
        match self {
            InodeContent::File { bytes, .. } => {
                bytes.clear();
                bytes.shrink_to_fit();
            }
            InodeContent::Dir { .. } => {}
            InodeContent::Link { .. } => {}
        }
    }

    /// Puts a piece of bytes into a file from an offset on, with zeros in a gap before it. What is no file stays. Where
    /// memory runs out, nothing has changed.
    pub fn put(&mut self, offset: usize, piece: &[u8]) -> Result<(), AllocError>
        requires { offset + length piece.now ≤ largest_file }
        ensures put { OnOk result
            (stored_content self.new ≡ other_bytes (λ bytes. with_piece bytes offset piece.now) (stored_content self.old)) }
        ensures kept { OnErr result (stored_content self.new ≡ stored_content self.old) }
    {
        match self {
            InodeContent::File { bytes, .. } => put_piece(bytes, offset, piece),
            InodeContent::Dir { .. } => Ok(()),
            InodeContent::Link { .. } => Ok(()),
        }
    }

    /// Cuts a file to a size, or fills it up with zeros. What is no file stays. If memory runs out,
    /// nothing has changed.
    pub fn resize(&mut self, size: usize) -> Result<(), AllocError>
        ensures sized { OnOk result (stored_content self.new ≡ other_bytes (with_size size) (stored_content self.old)) }
        ensures kept { OnErr result (stored_content self.new ≡ stored_content self.old) }
    {
        match self {
            InodeContent::File { bytes, .. } => resize_bytes(bytes, size),
            InodeContent::Dir { .. } => Ok(()),
            InodeContent::Link { .. } => Ok(()),
        }
    }
}

impl Inode {
    ghost use Rattle.wasi_tree.specs.StoredTree.{stored_node};

    /// The inode of the node of a number, which so many entries of its list give. The names of a directory come among
    /// the others; of two entries of one name the first one stays.
    pub fn new(
        node: NewNode,
        number: u64,
        links: u64,
        names: &mut NameIndex,
    ) -> Result<Inode, AllocError>
        requires { names_at names.old.names number ≡ maps.empty }
        ensures inode { IfOk result (λ inode. (all : List NodeData) → entry_count number all ≡ links
            → with_names (names_at names.new.names number) (stored_node inode) ≡ node_from all number (node_data node)) }
        ensures others { OtherNamesStay number names.old.names names.new.names }
    {
        Ok(Inode {
            content: InodeContent::new(node.content, number, links, names)?,
            bits: node.bits,
            atime: node.atime,
            mtime: node.mtime,
            btime: node.btime,
        })
    }

    /// The inode of a node that is made.
    fn made(content: InodeContent, x: bool) -> Inode
        ensures { stored_node result ≡ new_node (stored_content content) x }
    {
        Inode {
            content,
            bits: new_bits(x),
            atime: SystemTime::EPOCH,
            mtime: SystemTime::EPOCH,
            btime: SystemTime::EPOCH,
        }
    }

    /// The inode of a file that is made.
    pub fn new_file(alloc: Global) -> Inode
        ensures { stored_node result ≡ new_file }
    {
        let bytes = Vec::new(alloc);
        Inode::made(InodeContent::File { bytes, links: 1 }, false)
    }

    /// The inode of a directory that is made.
    pub fn new_directory() -> Inode
        ensures { stored_node result ≡ new_directory }
    {
        Inode::made(InodeContent::Dir { gone: false }, true)
    }

    /// The inode of a link that is made.
    pub fn new_link(text: String) -> Inode
        ensures { stored_node result ≡ new_link (string_bytes text) }
    {
        Inode::made(InodeContent::Link { text, links: 1 }, true)
    }

    /// The node as a list of nodes gives it, in memory of its own, where a directory has these names.
    pub fn to_new(&self, alloc: Global, names: EntryCursor<'_>) -> Result<NewNode, AllocError>
        ensures { IfOk result (λ node. (held : Names) → maps.entries held ≡ names.entry
            → node_data node ≡ data_of_node (with_names held (stored_node self.now))) }
    {
        Ok(NewNode {
            content: self.content.to_new(alloc, names)?,
            bits: self.bits,
            atime: self.atime,
            mtime: self.mtime,
            btime: self.btime,
        })
    }

    /// The node, lent without a directory's names.
    pub fn view(&self) -> NodeView<'_>
        ensures { (names : Names) → Views (with_names names (stored_node self.now)) result }
    {
        NodeView {
            content: self.content.view(),
            bits: self.bits,
            atime: self.atime,
            mtime: self.mtime,
            btime: self.btime,
            links: self.content.links(),
            gone: self.content.is_gone(),
        }
    }

    /// Sets the given times; one that isn't given stays.
    pub fn set_times(&mut self, atime: Option<SystemTime>, mtime: Option<SystemTime>)
        ensures { stored_node self.new ≡ with_times (stored_node self.old) atime mtime }
    {
        self.atime = atime.unwrap_or(self.atime);
        self.mtime = mtime.unwrap_or(self.mtime);
    }

    pub fn metadata(&self, node: u64) -> Metadata
        ensures { result ≡ metadata_from node (stored_node self.now) }
    {
        Metadata {
            kind: self.content.kind(),
            size: self.content.size(),
            atime: self.atime,
            mtime: self.mtime,
            btime: self.btime,
            node,
            links: self.content.links(),
        }
    }
}

/// Whether the directory of a number is removed, where so many entries give it: one but node 0 that has no name.
fn is_removed(number: u64, links: u64) -> bool
    ensures { result ≡ (not (nat_eq number 0) && nat_eq links 0) }
{
    number != 0 && links == 0
}

/// Puts the entries of a directory that has none among the names. Of two entries of one name the first one stays.
pub fn add_entries(
    names: &mut NameIndex,
    directory: u64,
    entries: Vec<NewEntry>,
) -> Result<(), AllocError>
    requires { names_at names.old.names directory ≡ maps.empty }
    ensures added { OnOk result (names_at names.new.names directory ≡ maps.from_entries (map pair_of entries.items)) }
    ensures others { OtherNamesStay directory names.old.names names.new.names }
{
    for entry in entries {
        add_entry(names, directory, entry)?;
    }
    Ok(())
}

/// Puts an entry of a directory among the names, unless one of its name is there.
fn add_entry(names: &mut NameIndex, directory: u64, entry: NewEntry) -> Result<(), AllocError>
    ensures added { OnOk result (names_at names.new.names directory ≡ with_first (names_at names.old.names directory) (pair_of entry)) }
    ensures others { OtherNamesStay directory names.old.names names.new.names }
{
    let NewEntry { name, node } = entry;
    if names.has(directory, name.as_str()) {
        return Ok(());
    }
    names.reserve()?;
    names.insert(directory, name, node);
    Ok(())
}

/// The entries of a directory with these names, in byte order.
fn new_entries(alloc: Global, mut names: EntryCursor<'_>) -> Result<Vec<NewEntry>, AllocError>
    ensures { IfOk result (λ entries. map pair_of entries.items ≡ names.entry) }
{
    let mut entries = Vec::new(alloc);
    while let Some((name, node)) = names.next() {
        entries.push(NewEntry {
            name: String::from_str(alloc, name)?,
            node,
        })?;
    }
    Ok(entries)
}

/// Puts a piece into bytes from an offset on, with zeros in a gap before it. A piece that runs past the end is copied
/// once, into room that grows by doubling. If memory runs out, the bytes are as they were.
pub fn put_piece(bytes: &mut Vec<u8>, offset: usize, piece: &[u8]) -> Result<(), AllocError>
    requires { offset + length piece.now ≤ largest_file }
    ensures put { OnOk result (bytes.new.items ≡ with_piece bytes.old.items offset piece.now) }
    ensures kept { OnErr result (bytes.new.items ≡ bytes.old.items) }
{
    let end = offset + piece.len();
    if end <= bytes.len() {
        bytes[offset..end].copy_from_slice(piece);
        return Ok(());
    }
    bytes.reserve(end - bytes.len())?;
    bytes.resize(offset, 0)?;
    bytes.extend_from_slice(piece)
}

/// Cuts bytes to a size, and keeps their room, or fills them up to it with zeros, in room that grows by doubling. Where
/// memory runs out, the bytes are as they were.
#[tactic(auto, unfolding(wasi_host::specs::Step::with_size))]
pub fn resize_bytes(bytes: &mut Vec<u8>, size: usize) -> Result<(), AllocError>
    ensures sized { OnOk result (bytes.new.items ≡ with_size size bytes.old.items) }
    ensures kept { OnErr result (bytes.new.items ≡ bytes.old.items) }
{
    bytes.resize(size, 0)
}

//! Nodes as plain data.
ghost use Rattle.std.specs.Prelude.{◌≡◌};
ghost use Rattle.wasi_tree.specs.NodeData.{node_data, content_data, new_node_data, may_search};
ghost use Rattle.wasi_host.specs.Tree.{default_bits};

use wasi_host::{Bits, SystemTime};

/// A name in a directory, and the number of the node that it holds.
#[derive(Debug, Drop)]
pub struct NewEntry {
    pub name: String,
    pub node: u64,
}

/// What a node is: a file with its bytes, a directory with its names, or a link with its text.
#[derive(Debug, Drop)]
pub enum NewContent {
    File(Vec<u8>),
    Dir(Vec<NewEntry>),
    Link(String),
}

/// A node of a list of nodes, in which a node's number is its place. Link counts, and which directories are removed,
/// follow from the names.
#[derive(Debug, Drop)]
pub struct NewNode {
    pub content: NewContent,
    pub bits: Bits,
    pub atime: SystemTime,
    pub mtime: SystemTime,
    pub btime: SystemTime,
}

impl NewNode {
    /// A node of this content, with the bits and times that a new one has: it may be read and written, a directory or a
    /// link searched too, and its times are the epoch.
    pub fn new(content: NewContent) -> NewNode
        ensures node { node_data result ≡ new_node_data (content_data content) }
    {
        let x = content.may_search();
        NewNode {
            content,
            bits: new_bits(x),
            atime: SystemTime::EPOCH,
            mtime: SystemTime::EPOCH,
            btime: SystemTime::EPOCH,
        }
    }
}

/// The bits of a new node: it may be read and written, and searched or executed where that is asked.
pub fn new_bits(x: bool) -> Bits
    ensures { result ≡ default_bits x }
{
    Bits {
        r: true,
        w: true,
        x,
    }
}

impl NewContent {
    fn may_search(&self) -> bool
        ensures { result ≡ may_search (content_data self.now) }
    {
        match self {
            NewContent::File(_) => false,
            NewContent::Dir(_) => true,
            NewContent::Link(_) => true,
        }
    }
}

/// A node as a tree lends it, without a copy.
#[derive(Clone, Copy, Debug)]
pub struct NodeView<'a> {
    pub content: ContentView<'a>,
    pub bits: Bits,
    pub atime: SystemTime,
    pub mtime: SystemTime,
    pub btime: SystemTime,
    /// How many names a file or a link has. A directory's are shown as 1.
    pub links: u64,
    /// Whether the node is a directory that was removed.
    pub gone: bool,
}

/// What a lent node is: a file with its bytes, a directory, or a link with its text. The names of a directory are asked of
/// its tree.
#[derive(Clone, Copy, Debug)]
pub enum ContentView<'a> {
    File(&'a [u8]),
    Dir,
    Link(&'a str),
}

/// A name of a directory, with the number of the node that it holds.
#[derive(Clone, Copy, Debug)]
pub struct EntryView<'a> {
    pub name: &'a str,
    pub node: u64,
}

//! What an overlay keeps of a node that a step has worked on.
ghost use Rattle.std.specs.Prelude.{◌≡◌, ℕ};
ghost use Rattle.wasi_host.specs.Answer.{metadata_from, size_of};
ghost use Rattle.wasi_host.specs.Tree.{Node, is_gone, links_of};
ghost use Rattle.wasi_overlay.specs.OverSeats.{bytes_over, content_over, node_over, kept_of};

use wasi_host::{FileType, Metadata, SystemTime};

/// What an overlay keeps of a node that a step has worked on, beside the node below.
#[derive(Debug, Drop)]
pub struct Kept {
    pub atime: SystemTime,
    pub mtime: SystemTime,
    /// How many names a file or a link has.
    pub links: u64,
    /// Whether a directory was removed.
    pub gone: bool,
    /// A file's bytes, once a step has changed them.
    pub bytes: Option<Vec<u8>>,
}

impl Kept {
    /// What is kept of a node with this metadata, of which nothing has changed yet.
    pub fn new(below: Metadata, gone: bool) -> Kept
        ensures { (n : ℕ) (node : Node) → below ≡ metadata_from n node → gone ≡ is_gone node.content → result ≡ kept_of node }
    {
        Kept {
            atime: below.atime,
            mtime: below.mtime,
            links: below.links,
            gone,
            bytes: None,
        }
    }

    /// The metadata of a node, given that of the node below.
    #[inline(always)]
    pub fn metadata(&self, below: Metadata) -> Metadata
        ensures { (n : ℕ) (node : Node) → below ≡ metadata_from n node
            → result ≡ metadata_from n (node_over self.now node) }
    {
        Metadata {
            size: self.size(below),
            atime: self.atime,
            mtime: self.mtime,
            links: self.shown_links(below),
            ..below
        }
    }

    /// A file's size, and that of anything else as the node below has it.
    #[inline(always)]
    fn size(&self, below: Metadata) -> u64
        ensures { (n : ℕ) (node : Node) → below ≡ metadata_from n node
            → result ≡ size_of (content_over self.now node.content) }
    {
        match &self.bytes {
            Some(own) if below.kind == FileType::RegularFile => own.as_slice().len() as u64,
            _ => below.size,
        }
    }

    /// How many names a file or a link has. A directory's are shown as 1.
    #[inline(always)]
    fn shown_links(&self, below: Metadata) -> u64
        ensures { (n : ℕ) (node : Node) → below ≡ metadata_from n node
            → result ≡ links_of (content_over self.now node.content) }
    {
        match below.kind {
            FileType::Directory => 1,
            _ => self.links,
        }
    }

    /// The bytes of its own, or those below.
    #[inline(always)]
    pub fn bytes_over<'b>(&'b self, below: &'b [u8]) -> &'b [u8]
        ensures { result.now ≡ bytes_over self.now.bytes below.now }
    {
        match &self.bytes {
            Some(own) => own.as_slice(),
            None => below,
        }
    }
}

//! How the nodes of a tree are reported.
ghost use Rattle.std.specs.Prelude.{◌≡◌, ◌++◌, ◌∷◌, ℕ, List, [], MatchOption, OnOk, All, map};
ghost use Rattle.serde_json.specs.Data.{object, no_members};
ghost use Rattle.wasi_tree.specs.NodeData.{directory, node_data, content_data, data_entries, pair_of};
ghost use Rattle.wasi_tree.specs.Viewed.{viewed, viewed_content};
ghost use Rattle.wasi_report.specs.ReadBack.{FitsTimes, FitsContent, FitsNode, HasRisingNames, IsRising};
ghost use Rattle.wasi_report.specs.Report.{bits_text, list_value, times_value, put_all, node_value};
ghost use Rattle.wasi_report.specs.Encoded.{tokens_of, content_tokens, lent_node};

use crate::encode::{DigitRoom, EncodeJson, encode_bytes};
use json::Writer;
use std::alloc::{AllocError, Allocator};
use wasi_host::{Bits, SystemTime};
use wasi_tree::{ContentView, NewContent, NewEntry, NewNode, NodeView};
use wasi_tree_index::EntryCursor;

/// The names of a directory that are still to come, each with the number of the node that it holds.
pub trait Names<'a> {
    ghost left: { Self → List (List ℕ × ℕ) };

    /// The next name with its node. Behind the last one there is none.
    fn next_name(&mut self) -> Option<(&'a str, u64)>
        ensures { MatchOption result ((left self.old ≡ []) × (left self.new ≡ []))
            (λ found. left self.old ≡ (found.0.now, found.1) ∷ left self.new) };
}

impl<'a> Names<'a> for EntryCursor<'a> {
    ghost left = { λ names. names };

    fn next_name(&mut self) -> Option<(&'a str, u64)> {
        self.next()
    }
}

impl<'a> Names<'a> for &'a [NewEntry] {
    ghost left = { λ entries. map pair_of entries.now };

    fn next_name(&mut self) -> Option<(&'a str, u64)> {
        let (entry, left) = self.split_first()?;
        *self = left;
        Some((entry.name.as_str(), entry.node))
    }
}

/// The metadata of a node, but for the names of a directory: of a node that a tree lends, or of one of a list.
#[derive(Clone, Copy)]
pub struct LentNode<'a> {
    pub bits: Bits,
    pub content: ContentView<'a>,
    pub atime: SystemTime,
    pub mtime: SystemTime,
    pub btime: SystemTime,
}

/// A node, as one object with no space and with keys in byte order. A directory has these names.
pub fn encode_node<A: Allocator + Copy>(
    digits: DigitRoom<A>,
    node: &NodeView<'_>,
    names: &EntryCursor<'_>,
    out: &mut Writer,
) -> Result<(), AllocError>
    ensures before { out.new.before ≡ out.old.before }
    ensures tokens { OnOk result (out.new.tokens ≡ out.old.tokens ++ tokens_of (node_value (viewed names.now node.now))) }
    ensures fits { OnOk result (FitsNode (viewed names.now node.now)) }
{
    let lent = LentNode {
        bits: node.bits,
        content: node.content,
        atime: node.atime,
        mtime: node.mtime,
        btime: node.btime,
    };
    encode_lent(digits, &lent, &mut names.again(), out)
}

/// The nodes of a list, in order, each as in a report.
pub fn encode_new_nodes<A: Allocator + Copy>(
    digits: DigitRoom<A>,
    nodes: &[NewNode],
    out: &mut Writer,
) -> Result<(), AllocError>
    requires { All HasRisingNames (map node_data nodes.now) }
    ensures before { out.new.before ≡ out.old.before }
    ensures tokens { OnOk result (out.new.tokens ≡ out.old.tokens ++ tokens_of (list_value node_value (map node_data nodes.now))) }
    ensures fits { OnOk result (All FitsNode (map node_data nodes.now)) }
{
    out.begin_array()?;
    for node in nodes {
        encode_new_node(digits, node, out)?;
    }
    out.end_array()
}

fn encode_new_node<A: Allocator + Copy>(
    digits: DigitRoom<A>,
    node: &NewNode,
    out: &mut Writer,
) -> Result<(), AllocError>
    requires { HasRisingNames (node_data node.now) }
    ensures before { out.new.before ≡ out.old.before }
    ensures tokens { OnOk result (out.new.tokens ≡ out.old.tokens ++ tokens_of (node_value (node_data node.now))) }
    ensures fits { OnOk result (FitsNode (node_data node.now)) }
{
    let lent = LentNode {
        bits: node.bits,
        content: view_of(&node.content),
        atime: node.atime,
        mtime: node.mtime,
        btime: node.btime,
    };
    encode_lent(digits, &lent, &mut entries_of(&node.content), out)
}

/// The content, lent without a directory's names.
fn view_of(content: &NewContent) -> ContentView<'_>
    ensures { viewed_content (data_entries (content_data content.now)) result ≡ content_data content.now }
{
    match content {
        NewContent::File(bytes) => ContentView::File(bytes.as_slice()),
        NewContent::Dir(_) => ContentView::Dir,
        NewContent::Link(text) => ContentView::Link(text.as_str()),
    }
}

/// The names of a directory; of what is none there are none.
fn entries_of(content: &NewContent) -> &[NewEntry]
    ensures { map pair_of result.now ≡ data_entries (content_data content.now) }
{
    match content {
        NewContent::Dir(entries) => entries.as_slice(),
        NewContent::File(_) | NewContent::Link(_) => &[],
    }
}

fn encode_lent<'a, A: Allocator + Copy, N: Names<'a>>(
    digits: DigitRoom<A>,
    node: &LentNode<'_>,
    names: &mut N,
    out: &mut Writer,
) -> Result<(), AllocError>
    requires { IsRising (N.left names.old) }
    ensures before { out.new.before ≡ out.old.before }
    ensures tokens { OnOk result (out.new.tokens ≡ out.old.tokens ++ tokens_of (node_value (lent_node (N.left names.old) node.now))) }
    ensures fits { OnOk result (FitsNode (lent_node (N.left names.old) node.now)) }
{
    out.begin_object()?;
    out.key("bits")?;
    out.string(bits_text(node.bits))?;
    encode_content(digits, &node.content, names, out)?;
    out.key("times")?;
    encode_times(digits, node, out)?;
    out.end_object()
}

fn encode_content<'a, A: Allocator + Copy, N: Names<'a>>(
    digits: DigitRoom<A>,
    content: &ContentView<'_>,
    names: &mut N,
    out: &mut Writer,
) -> Result<(), AllocError>
    requires { IsRising (N.left names.old) }
    ensures before { out.new.before ≡ out.old.before }
    ensures tokens { OnOk result (out.new.tokens ≡ out.old.tokens ++ content_tokens (viewed_content (N.left names.old) content.now)) }
    ensures fits { OnOk result (FitsContent (viewed_content (N.left names.old) content.now)) }
{
    match content {
        ContentView::File(bytes) => {
            out.key("file")?;
            encode_bytes(digits, bytes, out)
        }
        ContentView::Dir => {
            out.key("dir")?;
            encode_numbers(names, out)
        }
        ContentView::Link(text) => {
            out.key("link")?;
            out.string(text)
        }
    }
}

fn bits_text(bits: Bits) -> &'static str
    ensures { result.now ≡ bits_text bits }
{
    match (bits.r, bits.w, bits.x) {
        (true, true, true) => "rwx",
        (true, true, false) => "rw-",
        (true, false, true) => "r-x",
        (true, false, false) => "r--",
        (false, true, true) => "-wx",
        (false, true, false) => "-w-",
        (false, false, true) => "--x",
        (false, false, false) => "---",
    }
}

fn encode_times<A: Allocator + Copy>(
    digits: DigitRoom<A>,
    node: &LentNode<'_>,
    out: &mut Writer,
) -> Result<(), AllocError>
    ensures before { out.new.before ≡ out.old.before }
    ensures tokens { OnOk result (out.new.tokens ≡ out.old.tokens ++ tokens_of (times_value (lent_node [] node.now))) }
    ensures fits { OnOk result (FitsTimes (lent_node [] node.now)) }
{
    out.begin_array()?;
    node.atime.encode_json(digits, out)?;
    node.mtime.encode_json(digits, out)?;
    node.btime.encode_json(digits, out)?;
    out.end_array()
}

// The number of each name, in the order of the names, which is their byte order.
fn encode_numbers<'a, N: Names<'a>>(names: &mut N, out: &mut Writer) -> Result<(), AllocError>
    requires { IsRising (N.left names.old) }
    ensures before { out.new.before ≡ out.old.before }
    ensures tokens { OnOk result (out.new.tokens ≡ out.old.tokens ++ tokens_of (object (put_all (N.left names.old) no_members))) }
    ensures fits { OnOk result (FitsContent (directory (N.left names.old))) }
{
    out.begin_object()?;
    while let Some((name, number)) = names.next_name() {
        out.key(name)?;
        out.u64(number)?;
    }
    out.end_object()
}

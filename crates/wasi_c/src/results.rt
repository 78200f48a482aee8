//! What a guest's run left, by number and pointer: nodes, bytes, names and outputs. These functions only read.
ghost use Rattle.std.specs.Prelude.{◌≡◌, ◌++◌, ℕ, List, None, IsSome, IfOk, OnOk, drop, length, map, option_map};
ghost use Rattle.wasi_sandbox.specs.Any.{one_of};
ghost use Rattle.wasi_tree.specs.NodeData.{pair_of};
ghost use Rattle.wasi_tree.specs.Viewed.{viewed, viewed_content};
ghost use Rattle.wasi_c.specs.ResultsTold.{entry_bytes, filetype_in, listing_bytes, listing_in, node_record, output_of, readable, size_in, time_record, tree_of, Copied, EntryTold, NodeTold, OutputTold, ReadTold, TellsEntries, TellsEntry, TellsNode, TellsOutput, TellsRead};

use crate::codes::{DIRECTORY, NO_MEMORY, NO_NODE, SHORT};
use crate::handle::SandboxHandle;
use std::alloc::{AllocError, Global};
use wasi_guest::Filetype;
use wasi_host::SystemTime;
use wasi_sandbox::{AnySandbox, ContentView, NewEntry, NodeView};

/// A point in time: seconds since the epoch, negative before it, plus nanoseconds below 1,000,000,000.
#[repr(C)]
#[derive(Clone, Copy, Debug)]
pub struct TimeRecord {
    pub seconds: i64,
    pub nanoseconds: u32,
}

/// A node, but for its bytes and its names.
#[repr(C)]
#[derive(Clone, Copy, Debug)]
pub struct NodeRecord {
    /// How many names a file or a link has. A directory's are shown as 1.
    pub links: u64,
    /// How many bytes a file, or a link's text, has; 0 of a directory.
    pub size: u64,
    pub atime: TimeRecord,
    pub mtime: TimeRecord,
    pub btime: TimeRecord,
    /// Preview1's number of its type: 3 of a directory, 4 of a file, 7 of a link.
    pub filetype: u32,
    /// 1 of a directory that was removed, 0 of every other node.
    pub removed: u32,
}

impl TimeRecord {
    fn of(time: SystemTime) -> TimeRecord
        ensures { result ≡ time_record time }
    {
        TimeRecord {
            seconds: time.seconds,
            nanoseconds: time.nanoseconds,
        }
    }
}

impl NodeRecord {
    fn of(node: &NodeView<'_>) -> NodeRecord
        ensures { (names : List (List ℕ × ℕ)) → result ≡ node_record (viewed names node.now) node.now.links node.now.gone }
    {
        NodeRecord {
            links: node.links,
            size: size(&node.content),
            atime: TimeRecord::of(node.atime),
            mtime: TimeRecord::of(node.mtime),
            btime: TimeRecord::of(node.btime),
            filetype: filetype(&node.content).number() as u32,
            removed: node.gone as u32,
        }
    }
}

fn filetype(content: &ContentView<'_>) -> Filetype
    ensures { (names : List (List ℕ × ℕ)) → result ≡ filetype_in (viewed_content names content.now) }
{
    match content {
        ContentView::File(_) => Filetype::RegularFile,
        ContentView::Dir => Filetype::Directory,
        ContentView::Link(_) => Filetype::SymbolicLink,
    }
}

fn size(content: &ContentView<'_>) -> u64
    ensures { (names : List (List ℕ × ℕ)) → result ≡ size_in (viewed_content names content.now) }
{
    match content {
        ContentView::File(bytes) => bytes.len() as u64,
        ContentView::Dir => 0,
        ContentView::Link(text) => text.len() as u64,
    }
}

/// The bytes of a file, or of a link's text. None of a directory.
fn readable<'a>(content: ContentView<'a>) -> Option<&'a [u8]>
    ensures { (names : List (List ℕ × ℕ)) → option_map (λ bytes. bytes.now) result ≡ readable (viewed_content names content.entry) }
{
    match content {
        ContentView::File(bytes) => Some(bytes),
        ContentView::Dir => None,
        ContentView::Link(text) => Some(text.as_bytes()),
    }
}

/// The bytes from an offset on; none at or past the end.
fn bytes_from(bytes: &[u8], from: u64) -> &[u8]
    ensures { result.now ≡ drop from bytes.now }
{
    if from >= bytes.len() as u64 {
        return &[];
    }
    &bytes[from as usize..]
}

/// Copies bytes from an offset on to the front of a room, as many as there are and have room; answers how many.
fn copy_part(bytes: &[u8], from: u64, room: &mut [u8]) -> usize
    ensures { Copied bytes.now from room.old room.new result }
{
    let rest = bytes_from(bytes, from);
    let count = room.len().min(rest.len());
    room[..count].copy_from_slice(&rest[..count]);
    count
}

fn put_node(sandbox: &AnySandbox, number: u64, node: &mut NodeRecord) -> u32
    ensures { NodeTold (tree_of (one_of sandbox.now)) number node.old node.new result }
{
    let Some(view) = sandbox.node(number) else {
        return NO_NODE;
    };
    *node = NodeRecord::of(&view);
    0
}

fn put_bytes(sandbox: &AnySandbox, number: u64, from: u64, bytes: &mut [u8], len: &mut usize) -> u32
    ensures { ReadTold (tree_of (one_of sandbox.now)) number from bytes.old bytes.new len.old len.new result }
{
    let Some(view) = sandbox.node(number) else {
        return NO_NODE;
    };
    let Some(whole) = readable(view.content) else {
        return DIRECTORY;
    };
    *len = copy_part(whole, from, bytes);
    0
}

fn put_entry(sandbox: &AnySandbox, directory: u64, name: &[u8], number: &mut u64) -> u32
    ensures { EntryTold (tree_of (one_of sandbox.now)) directory name.now number.old number.new result }
{
    let Ok(text) = str::from_utf8(name) else {
        return NO_NODE;
    };
    let Some(node) = sandbox.entry(directory, text) else {
        return NO_NODE;
    };
    *number = node;
    0
}

/// Adds an entry to a listing: its node's number in 8 bytes, little-endian, its name, and a 0.
fn add_entry(listing: &mut Vec<u8>, entry: &NewEntry) -> Result<(), AllocError>
    ensures { OnOk result (listing.new.items ≡ listing.old.items ++ entry_bytes (pair_of entry.now)) }
{
    listing.extend_from_slice(&entry.node.to_le_bytes())?;
    listing.extend_from_slice(entry.name.as_bytes())?;
    listing.push(0)?;
    Ok(())
}

/// The listing of entries.
fn listing_of(alloc: Global, entries: Vec<NewEntry>) -> Result<Vec<u8>, AllocError>
    ensures { IfOk result (λ listing. listing.items ≡ listing_bytes (map pair_of entries.items)) }
{
    let mut listing = Vec::new(alloc);
    for entry in entries {
        add_entry(&mut listing, &entry)?;
    }
    Ok(listing)
}

/// The listing of a directory.
fn list_entries(alloc: Global, sandbox: &AnySandbox, directory: u64) -> Result<Vec<u8>, AllocError>
    ensures { IfOk result (λ listing. listing.items ≡ listing_in (tree_of (one_of sandbox.now)) directory) }
{
    listing_of(alloc, sandbox.entries(alloc, directory)?)
}

/// Puts a node to `node`, but for its bytes and its names. 0; or NO_NODE (279) where no node has the number, and then
/// nothing is written.
#[unsafe(no_mangle)]
pub extern "C" fn wasi_c_node(
    alloc: Global,
    sandbox: &mut SandboxHandle,
    empty: SandboxHandle,
    number: u64,
    node: &mut NodeRecord,
) -> u32
    requires held { IsSome sandbox.old.value }
    requires empty { empty.value ≡ None }
    ensures same { sandbox.new.value ≡ sandbox.old.value }
    ensures told { TellsNode sandbox.old.value number node.old node.new result }
{
    let held = sandbox.take(empty);
    let code = put_node(&held, number, node);
    sandbox.put(held);
    code
}

/// Copies a file's bytes, or those of a link's text, from an offset on to the front of the bytes that are lent, as many
/// as there are and have room, and to `len` how many: 0 at or past the end. 0; or NO_NODE (279) where no node has the
/// number, or DIRECTORY (280) of a directory, and then nothing is written.
#[unsafe(no_mangle)]
pub extern "C" fn wasi_c_read(
    alloc: Global,
    sandbox: &mut SandboxHandle,
    empty: SandboxHandle,
    number: u64,
    from: u64,
    bytes: &mut [u8],
    len: &mut usize,
) -> u32
    requires held { IsSome sandbox.old.value }
    requires empty { empty.value ≡ None }
    ensures same { sandbox.new.value ≡ sandbox.old.value }
    ensures told { TellsRead sandbox.old.value number from bytes.old bytes.new len.old len.new result }
{
    let held = sandbox.take(empty);
    let code = put_bytes(&held, number, from, bytes, len);
    sandbox.put(held);
    code
}

/// Writes the number of the node that a directory holds under a name to `number`. 0; or NO_NODE (279) where it holds
/// none, where the directory is none, or where the name isn't UTF-8, and then nothing is written.
#[unsafe(no_mangle)]
pub extern "C" fn wasi_c_entry(
    alloc: Global,
    sandbox: &mut SandboxHandle,
    empty: SandboxHandle,
    directory: u64,
    name: &[u8],
    number: &mut u64,
) -> u32
    requires held { IsSome sandbox.old.value }
    requires empty { empty.value ≡ None }
    ensures same { sandbox.new.value ≡ sandbox.old.value }
    ensures told { TellsEntry sandbox.old.value directory name.now number.old number.new result }
{
    let held = sandbox.take(empty);
    let code = put_entry(&held, directory, name, number);
    sandbox.put(held);
    code
}

/// Writes the listing of a directory to the front of the bytes that are lent, and to `len` how many bytes it has. Each
/// of its names, in byte order, is its node's number in 8 bytes, little-endian, then the name, then a 0. What is no
/// directory has no names. 0; or SHORT (262), and then only `len` is written; or NO_MEMORY (260), and then nothing is.
#[unsafe(no_mangle)]
pub extern "C" fn wasi_c_entries(
    alloc: Global,
    sandbox: &mut SandboxHandle,
    empty: SandboxHandle,
    directory: u64,
    text: &mut [u8],
    len: &mut usize,
) -> u32
    requires held { IsSome sandbox.old.value }
    requires empty { empty.value ≡ None }
    ensures same { sandbox.new.value ≡ sandbox.old.value }
    ensures told { TellsEntries sandbox.old.value directory text.old text.new len.old len.new result }
{
    let held = sandbox.take(empty);
    let listing = list_entries(alloc, &held, directory);
    sandbox.put(held);
    let Ok(listing) = listing else {
        return NO_MEMORY;
    };
    *len = listing.len();
    if listing.len() > text.len() {
        return SHORT;
    }
    text[..listing.len()].copy_from_slice(listing.as_slice());
    0
}

/// What the guest wrote so far to the standard error, or to the standard output.
fn output(sandbox: &AnySandbox, error: bool) -> &[u8]
    ensures { result.now ≡ output_of (one_of sandbox.now) error }
{
    if error {
        return sandbox.stderr();
    }
    sandbox.stdout()
}

fn put_output(
    sandbox: &AnySandbox,
    error: bool,
    from: u64,
    bytes: &mut [u8],
    len: &mut usize,
    total: &mut u64,
)
    ensures { OutputTold (one_of sandbox.now) error from bytes.old bytes.new len.new total.new }
{
    let written = output(sandbox, error);
    *len = copy_part(written, from, bytes);
    *total = written.len() as u64;
}

/// Copies what the guest wrote so far to the standard output, or to the standard error, from an offset on to the front
/// of the bytes that are lent, as many as there are and have room; to `len` how many, 0 at or past the end, and to
/// `total` how many it wrote in all.
#[unsafe(no_mangle)]
pub extern "C" fn wasi_c_output(
    alloc: Global,
    sandbox: &mut SandboxHandle,
    empty: SandboxHandle,
    error: bool,
    from: u64,
    bytes: &mut [u8],
    len: &mut usize,
    total: &mut u64,
)
    requires held { IsSome sandbox.old.value }
    requires empty { empty.value ≡ None }
    ensures same { sandbox.new.value ≡ sandbox.old.value }
    ensures told { TellsOutput sandbox.old.value error from bytes.old bytes.new len.new total.new }
{
    let held = sandbox.take(empty);
    put_output(&held, error, from, bytes, len, total);
    sandbox.put(held);
}

//! Large amounts: a file that is copied chunk by chunk, and a table with much coming and going.
ghost use Rattle.std.specs.Prelude.{◌≡◌, true};
ghost use Rattle.std.specs.FinSet.{contains};
ghost use Rattle.std.specs.Result.{result_map_both};
ghost use Rattle.wasi_host.specs.HostLaws.{LiveGot};

use std::alloc::{AllocError, Global};
use test_support::{Asked, Rendered, number, refused, rendered};
use wasi_fs::{File, FsPerms, OpenMode};
use wasi_host::{Handle, Host, HostError, OpenOptions};
use wasi_paths::Name;
use wasi_streams::{
    Entry, FileInputStream, FileOutputStream, ResourceTable, StreamError, TableError,
};
use wasi_tree::{Limits, MemTree, NewContent, NewEntry, NewNode, TreeError};

/// The most bytes that one write takes.
const CHUNK: usize = 65_536;

/// `COUNT`: adds an entry to a table of one and deletes it, so many times; how many are live at the end.
pub fn turns_line(asked: &Asked<'_>) -> Rendered {
    let mut table = ResourceTable::with_max(asked.alloc, 1);
    for _ in 0..number(asked.rest) {
        if let Err(error) = turn(&mut table) {
            return rendered(asked.alloc, &error);
        }
    }
    rendered(asked.alloc, &table.live())
}

fn turn(table: &mut ResourceTable) -> Result<(), TableError> {
    match table.push(Entry::Stdin) {
        Ok(resource) => {
            table.delete(resource)?;
            Ok(())
        }
        Err(refused) => Err(refused.error),
    }
}

/// `SIZE`: reads a file of so many bytes through an input stream and writes them through an output stream into another;
/// the size of that.
#[tactic(auto, using(wasi_tree::proofs::SlotLemmas::slot_rules))]
pub fn copy_line(asked: &Asked<'_>) -> Rendered {
    let Ok(mut tree) = tree(asked.alloc, number(asked.rest) as usize) else {
        return Err(AllocError);
    };
    let Ok(root) = tree.handle(0) else {
        return Err(AllocError);
    };
    match copied_below(asked.alloc, &mut tree, root) {
        Ok(copied) => rendered(asked.alloc, &copied),
        Err(error) => refused(asked.alloc, error),
    }
}

/// A directory with a file of so many bytes, `from`, and an empty one, `to`.
fn tree(alloc: Global, size: usize) -> Result<MemTree, TreeError> {
    let limits = Limits { nodes: 3, links: 1 };
    MemTree::new(alloc, nodes(alloc, size)?, limits)
}

fn nodes(alloc: Global, size: usize) -> Result<Vec<NewNode>, AllocError> {
    let mut entries = Vec::new(alloc);
    entries.push(entry(alloc, "from", 1)?)?;
    entries.push(entry(alloc, "to", 2)?)?;
    let mut nodes = Vec::new(alloc);
    nodes.push(NewNode::new(NewContent::Dir(entries)))?;
    nodes.push(NewNode::new(NewContent::File(vec![in alloc; b'x'; size]?)))?;
    nodes.push(NewNode::new(NewContent::File(Vec::new(alloc))))?;
    Ok(nodes)
}

fn entry(alloc: Global, name: &str, node: u64) -> Result<NewEntry, AllocError> {
    let name = String::from_str(alloc, name)?;
    Ok(NewEntry { name, node })
}

/// Whether all was copied, and the size of the copy.
#[tactic(auto, using(wasi_host::proofs::Chain::live_rules))]
fn copied_below<H: Host>(
    alloc: Global,
    host: &mut H,
    root: Handle,
) -> Result<(Result<(), StreamError>, u64), HostError>
    requires { contains (H.live host.old) root ≡ true }
{
    let from = opened(host, root, "from", false)?;
    let to = opened(host, root, "to", true)?;
    let input = FileInputStream::new(alloc, host, &from, 0)?;
    let output = FileOutputStream::write_at(alloc, host, &to, 0)?;
    let copied = copy(host, input, output);
    Ok((copied, host.stat(to.file)?.len()))
}

fn opened<H: Host>(host: &mut H, root: Handle, name: &str, write: bool) -> Result<File, HostError>
    requires { contains (H.live host.old) root ≡ true }
    ensures { LiveGot (H.live host.old) (result_map_both (λ file. file.file) (λ e. e) result) (H.live host.new) }
{
    let mut options = OpenOptions::new();
    options.read(true).write(write);
    let name = Name::plain(name).unwrap_or(Name::dot());
    let handle = host.open_at(root, name, &options)?;
    Ok(File::new(handle, FsPerms::ReadWrite, OpenMode::READ))
}

/// Reads chunk by chunk to the end, and writes each after the one before.
fn copy<H: Host>(
    host: &mut H,
    mut input: FileInputStream,
    mut output: FileOutputStream,
) -> Result<(), StreamError>
    requires input { contains (H.live host.old) input.file ≡ true }
    requires output { contains (H.live host.old) output.file ≡ true }
    ensures { H.live host.new ≡ H.live host.old }
{
    for _chunk in 0..u64::MAX {
        match input.blocking_read(host, CHUNK) {
            Ok(bytes) => output.blocking_write_and_flush(host, bytes)?,
            Err(StreamError::Closed) => return Ok(()),
            Err(error) => return Err(error),
        }
    }
    Ok(())
}

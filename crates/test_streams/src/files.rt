//! The lines of the tables, each over a tree of its own.
ghost use Rattle.std.specs.Prelude.{◌≡◌, true};
ghost use Rattle.std.specs.FinSet.{contains};

use crate::amounts::{copy_line, turns_line};
use crate::inputs::input_line;
use crate::outputs::output_line;
use crate::tables::table_line;
use std::alloc::{AllocError, Global};
use test_support::{Answering, Asked, Rendered, refused, unknown};
use wasi_fs::{File, Flags, FsPerms, OpenMode};
use wasi_host::{Handle, Host, OpenOptions};
use wasi_paths::Name;
use wasi_tree::{Limits, MemTree, NewContent, NewEntry, NewNode, TreeError};

/// What answers the lines.
#[derive(Drop)]
pub struct StreamRows;

impl Answering for StreamRows {
    fn answer(&mut self, asked: &Asked<'_>) -> Rendered {
        match asked.what {
            "table" => table_line(asked),
            "turns" => turns_line(asked),
            "copy" => copy_line(asked),
            _ => with_tree(asked),
        }
    }
}

/// A directory with one file, `top`, whose bytes are its name.
fn nodes(alloc: Global) -> Result<Vec<NewNode>, AllocError> {
    let name = String::from_str(alloc, "top")?;
    let entries = vec![in alloc; NewEntry { name, node: 1 }]?;
    let file = Vec::from_slice(alloc, b"top")?;
    let mut nodes = Vec::new(alloc);
    nodes.push(NewNode::new(NewContent::Dir(entries)))?;
    nodes.push(NewNode::new(NewContent::File(file)))?;
    Ok(nodes)
}

fn tree(alloc: Global) -> Result<MemTree, TreeError> {
    let limits = Limits { nodes: 8, links: 8 };
    MemTree::new(alloc, nodes(alloc)?, limits)
}

#[tactic(auto, using(wasi_tree::proofs::SlotLemmas::slot_rules))]
fn with_tree(asked: &Asked<'_>) -> Rendered {
    let Ok(mut tree) = tree(asked.alloc) else {
        return Err(AllocError);
    };
    let Ok(root) = tree.handle(0) else {
        return Err(AllocError);
    };
    with_file(&mut tree, root, asked)
}

/// What is asked of the file, opened for reading and writing, or for reading alone.
#[tactic(auto, using(wasi_host::proofs::Chain::live_rules))]
fn with_file<H: Host>(host: &mut H, root: Handle, asked: &Asked<'_>) -> Rendered
    requires { contains (H.live host.old) root ≡ true }
{
    let mut options = OpenOptions::new();
    options.read(true).write(asked.what != "input");
    let name = Name::plain("top").unwrap_or(Name::dot());
    match host.open_at(root, name, &options) {
        Ok(handle) => {
            let file = File::new(handle, FsPerms::ReadWrite, OpenMode::READ);
            match asked.what {
                "input" => input_line(host, &file, asked),
                "output" => output_line(host, &file, asked),
                _ => unknown(asked.alloc),
            }
        }
        Err(error) => refused(asked.alloc, error),
    }
}

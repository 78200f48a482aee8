//! The lines of the tables, each over a tree of its own.
ghost use Rattle.std.specs.Prelude.{◌≡◌, true};
ghost use Rattle.std.specs.FinSet.{contains};

use crate::changes::changes_of;
use crate::trees::{small_tree, walked_tree};
use std::alloc::{AllocError, Global};
use test_support::{Answering, Asked, Rendered, answered, coded, unknown};
use wasi_host::{Handle, Host, HostError, dir_options};
use wasi_resolve::open;
use wasi_tree::{MemTree, TreeError};
use wasi_tree_shared::Shared;

/// What answers the lines.
#[derive(Drop)]
pub struct WalkRows;

impl Answering for WalkRows {
    fn answer(&mut self, asked: &Asked<'_>) -> Rendered {
        match asked.what {
            "open" => walk_in(small_tree(asked.alloc), asked),
            "linked" => walk_in(walked_tree(asked.alloc), asked),
            _ => unknown(asked.alloc),
        }
    }
}

/// `PATH: CHANGES`: opens a path from node 0 of a tree that others change so.
#[tactic(auto, using(wasi_tree::proofs::SlotLemmas::slot_rules))]
fn walk_in(tree: Result<MemTree, TreeError>, asked: &Asked<'_>) -> Rendered {
    let alloc = asked.alloc;
    let (path, list) = asked.rest.split_once(": ").unwrap_or((asked.rest, ""));
    let Ok(mut tree) = tree else {
        return Err(AllocError);
    };
    let Ok(root) = tree.handle(0) else {
        return Err(AllocError);
    };
    let mut host = Shared::new(tree, changes_of(alloc, list)?);
    answered(alloc, open_node(alloc, &mut host, root, path))
}

/// Opens a directory, and gives its node.
#[tactic(auto, using(wasi_host::proofs::Chain::live_rules))]
fn open_node<H: Host>(
    alloc: Global,
    host: &mut H,
    start: Handle,
    path: &str,
) -> Result<u64, HostError>
    requires { contains (H.live host.old) start ≡ true }
{
    let directory = open(alloc, host, start, path, &dir_options())?;
    let metadata = coded(host.stat(directory))?;
    Ok(metadata.node)
}

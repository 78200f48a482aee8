//! The lines of the tables, over a tree that is kept from line to line.
use crate::dirs::dir_call;
use crate::paths::path_call;
use std::alloc::{AllocError, Global};
use test_support::{Answering, Asked, Rendered, rendered, unknown};
use wasi_tree::{Limits, MemTree, NewContent, NewNode, TreeError};

/// An empty directory, where no node has a number above the last one.
pub fn empty_tree(alloc: Global, last: u16) -> Result<MemTree, TreeError> {
    let limits = Limits {
        nodes: u64::from(last) + 1,
        links: 8,
    };
    MemTree::new(alloc, root(alloc)?, limits)
}

fn root(alloc: Global) -> Result<Vec<NewNode>, AllocError> {
    let root = NewNode::new(NewContent::Dir(Vec::new(alloc)));
    Ok(vec![in alloc; root]?)
}

/// What answers the lines: the tree that the last `new` gave, with the changes since.
#[derive(Drop)]
pub struct PathRows {
    tree: MemTree,
}

impl PathRows {
    /// Begins with an empty directory.
    pub fn new(alloc: Global) -> Result<PathRows, TreeError> {
        Ok(PathRows {
            tree: empty_tree(alloc, 0)?,
        })
    }

    /// `LAST`: takes an empty directory.
    fn begin(&mut self, alloc: Global, last: u16) -> Rendered {
        match empty_tree(alloc, last) {
            Ok(tree) => {
                self.tree = tree;
                String::from_str(alloc, "ok")
            }
            Err(error) => rendered(alloc, &error),
        }
    }
}

impl Answering for PathRows {
    fn answer(&mut self, asked: &Asked<'_>) -> Rendered {
        match asked.what {
            "new" => self.begin(asked.alloc, asked.rest.parse::<u16>().unwrap_or(0)),
            _ => ask_root(&mut self.tree, asked),
        }
    }
}

/// What is asked by a handle of node 0.
#[tactic(auto, using(wasi_tree::proofs::SlotLemmas::slot_rules))]
fn ask_root(tree: &mut MemTree, asked: &Asked<'_>) -> Rendered {
    let Ok(root) = tree.handle(0) else {
        return Err(AllocError);
    };
    let one = Asked::of(asked.alloc, asked.rest);
    match asked.what {
        "path" => path_call(tree, root, &one),
        "dir" => dir_call(tree, root, &one),
        _ => unknown(asked.alloc),
    }
}

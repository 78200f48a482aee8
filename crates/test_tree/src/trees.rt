//! The lines of the tables, over a tree that is kept from line to line.
ghost use Rattle.wasi_host.specs.ValidTree.{AreLimits};

use crate::calls::call;
use crate::listed::{chain, listed, tree_of};
use crate::opened::with_opened;
use crate::overlays::over;
use crate::readers::{rendered_entry, rendered_entry_at, rendered_view};
use crate::reports::rendered_report;
use std::alloc::{AllocError, Global};
use test_support::{Answering, Asked, Rendered, done, number, rendered, word};
use wasi_host::{Forget, Limits};
use wasi_tree::{MemTree, NewNode, TreeError};

/// What answers the lines: the tree that the last `tree` gave.
#[derive(Drop)]
pub struct TreeRows {
    tree: MemTree,
}

impl TreeRows {
    /// Begins with an empty directory.
    pub fn new(alloc: Global) -> Result<TreeRows, TreeError> {
        Ok(TreeRows {
            tree: tree_of(alloc, 0, "-")?,
        })
    }
}

impl Answering for TreeRows {
    fn answer(&mut self, asked: &Asked<'_>) -> Rendered {
        match asked.what {
            "tree" => self.begin(asked.alloc, asked.rest),
            "fit" => fit(asked.alloc, asked.rest),
            "chain" => chained(asked.alloc, asked.rest),
            _ => ask(&mut self.tree, asked),
        }
    }
}

impl TreeRows {
    /// `LAST NODES`: takes the tree of these nodes.
    fn begin(&mut self, alloc: Global, rest: &str) -> Rendered {
        let (last, nodes) = word(rest);
        match tree_of(alloc, last.parse::<u16>().unwrap_or(0), nodes) {
            Ok(tree) => {
                self.tree = tree;
                String::from_str(alloc, "ok")
            }
            Err(error) => rendered(alloc, &error),
        }
    }
}

fn fit(alloc: Global, rest: &str) -> Rendered {
    made_of(alloc, listed(alloc, rest)?, 3)
}

fn chained(alloc: Global, rest: &str) -> Rendered {
    made_of(alloc, chain(alloc, number(rest))?, 200_000)
}

/// That no node has a number above the last one, and no file or link more than two names.
fn most(last: u32) -> Limits
    ensures { AreLimits result }
{
    Limits {
        nodes: u64::from(last) + 1,
        links: 2,
    }
}

/// How many nodes a tree of these nodes has within these limits, or why none is made of them.
fn made_of(alloc: Global, nodes: Vec<NewNode>, last: u32) -> Rendered {
    match MemTree::new(alloc, nodes, most(last)) {
        Ok(tree) => rendered(alloc, &tree.next()),
        Err(error) => rendered(alloc, &error),
    }
}

/// What is asked of the tree as a whole.
fn ask(tree: &mut MemTree, asked: &Asked<'_>) -> Rendered {
    let alloc = asked.alloc;
    match asked.what {
        "touched" => rendered(alloc, &tree.touched(alloc)?),
        "nodes" => rendered(alloc, &tree.nodes(alloc)?),
        "next" => rendered(alloc, &tree.next()),
        "node" => rendered_view(alloc, tree, asked.rest),
        "entry" => rendered_entry(alloc, tree, asked.rest),
        "entry_at" => rendered_entry_at(alloc, tree, asked.rest),
        "forget" => forgotten(alloc, tree),
        "over" => over(alloc, tree, asked.rest),
        "report" => rendered_report(alloc, tree, asked.rest),
        "many" => many(alloc, tree, asked.rest),
        _ => ask_root(tree, asked),
    }
}

/// What is asked by a handle of node 0.
#[tactic(auto, using(wasi_tree::proofs::SlotLemmas::slot_rules))]
fn ask_root(tree: &mut MemTree, asked: &Asked<'_>) -> Rendered {
    let Ok(root) = tree.handle(0) else {
        return Err(AllocError);
    };
    match asked.what {
        "open" => with_opened(tree, root, asked),
        "copy" => with_opened(tree, root, asked),
        _ => call(tree, root, asked),
    }
}

/// Forgets which nodes were touched.
fn forgotten(alloc: Global, tree: &mut MemTree) -> Rendered {
    tree.forget();
    done(alloc, Ok(()))
}

/// `CALL COUNT`, of the names `d0`, `d1` .. in node 0: how many nodes there are then.
fn many(alloc: Global, tree: &mut MemTree, rest: &str) -> Rendered {
    let (what, count) = word(rest);
    for i in 0..number(count) {
        let name = format!(in alloc; "0 {what} d{i}")?;
        let answer = ask_root(tree, &Asked::of(alloc, name.as_str()))?;
        if answer.as_str() != "ok" {
            return Ok(answer);
        }
    }
    rendered(alloc, &tree.next())
}

//! The lists of all preopens.
ghost use Rattle.std.specs.Prelude.{◌≡◌, map, length, OnOk};
ghost use Rattle.wasi_audit.specs.Audits.{noted_from};
ghost use Rattle.wasi_audit.specs.NodeLists.{nodes_of, is_among, HaveRoom};

use crate::nodes::Nodes;
use std::alloc::AllocError;

/// Makes sure of room for as many more nodes in the list of each of these preopens.
pub fn make_room(lists: &mut Vec<Nodes>, preopens: &[usize], more: usize) -> Result<(), AllocError>
    ensures same { map nodes_of lists.new.items ≡ map nodes_of lists.old.items }
    ensures room { OnOk result (HaveRoom preopens.now more lists.new.items) }
{
    for preopen in 0..lists.len() {
        if preopens.contains(&preopen) {
            lists[preopen].reserve(more)?;
        }
    }
    Ok(())
}

/// Adds nodes to the list of each of these preopens, which have room for them.
pub fn add_touched(lists: &mut Vec<Nodes>, preopens: &[usize], touched: &[u64])
    requires { HaveRoom preopens.now (length touched.now) lists.old.items }
    ensures { map nodes_of lists.new.items
        ≡ noted_from 0 (is_among preopens.now) touched.now (map nodes_of lists.old.items) }
{
    for preopen in 0..lists.len() {
        if preopens.contains(&preopen) {
            lists[preopen].add_all(touched);
        }
    }
}

//! Where the insides of guests meet.
ghost use Rattle.std.specs.Prelude.{IfOk, map};
ghost use Rattle.wasi_guests.specs.Insides.{AreInTree, IsLowestShared};

use crate::walk::Walk;
use std::alloc::{AllocError, Global};
use wasi_tree::MemTree;

/// The lowest node that lies inside two guests, each given by the numbers of its directories; none where no node does.
/// A node lies inside a guest where it is reached by names from one of these. Two names of one guest for a node don't
/// count. The only `Err` is out of memory. (No clause says so, but the code goes over the names of a directory at most
/// twice, however many guests there are.)
pub fn lowest_shared(
    alloc: Global,
    tree: &MemTree,
    guests: &[Vec<u64>],
) -> Result<Option<u64>, AllocError>
    requires { AreInTree tree.now.tree (map (λ guest. guest.items) guests.now) }
    ensures { IfOk result (IsLowestShared tree.now.tree (map (λ guest. guest.items) guests.now)) }
{
    let walk = Walk::over(alloc, tree, guests)?;
    Ok(walk.lowest())
}

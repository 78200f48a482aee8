//! Several guests in turns over one tree.
ghost use Rattle.std.specs.Prelude.{◌≡◌, ◌+◌, ◌<◌, ◌≤◌, ◌↔◌, length, map, All, IfOk, IsTrue, None, OnOk};
ghost use Rattle.wasi_host.specs.Tree.{next_of};
ghost use Rattle.wasi_tree.specs.NodeData.{node_data};
ghost use Rattle.wasi_report.specs.ReadBack.{HasRisingNames};
ghost use Rattle.wasi_guests.specs.Alone.{ended, starting};
ghost use Rattle.wasi_guests.specs.AsIfAlone.{AsIfAlone, IsOutcome, MayBegin, preopen_directories};
ghost use Rattle.wasi_guests.specs.Between.{AreBegunOn, AreJoined, IsMadeBy, IsPut, IsPutAt, end_of, made_node, tree_of};
ghost use Rattle.wasi_guests.specs.Insides.{IsLowestShared};

use crate::guest_run::GuestRun;
use crate::insides::lowest_shared;
use crate::plan::{GuestEnd, GuestPlan, GuestsError, GuestsOutcome};
use crate::turns::{Made, take_turns};
use std::alloc::{AllocError, Global};
use wasi_tree::{MemTree, NewNode};

// The directories of each guest.
fn directories_of(alloc: Global, guests: &[GuestPlan]) -> Result<Vec<Vec<u64>>, AllocError>
    ensures { IfOk result (λ all. map (λ one. one.items) all.items ≡ map preopen_directories guests.now) }
{
    let mut all = Vec::new(alloc);
    for guest in guests {
        all.push(
            guest
                .preopens
                .iter()
                .map(|preopen| preopen.node)
                .collect(alloc)?,
        )?;
    }
    Ok(all)
}

// Whether a tree may have one node more for each turn.
fn has_room(tree: &MemTree, turns: usize) -> bool
    ensures { IsTrue result ↔ (next_of tree.now.tree + turns ≤ tree.now.tree.limits.nodes) }
{
    let most = tree.limits().nodes;
    match tree.next().checked_add(turns as u64) {
        Some(all) => all <= most,
        None => false,
    }
}

// The guests before their first turns.
fn begin_all(
    alloc: Global,
    base: &MemTree,
    guests: Vec<GuestPlan>,
) -> Result<Vec<GuestRun<'_>>, AllocError>
    requires { All (MayBegin base.now.tree) guests.items }
    ensures { IfOk result (λ runs. AreBegunOn base.now.tree guests.items runs.items) }
{
    let mut runs = Vec::new(alloc);
    for guest in guests {
        runs.push(GuestRun::begin(alloc, base, guest)?)?;
    }
    Ok(runs)
}

// Puts a node of a guest in its place, if it is one of the start.
fn put_node(
    alloc: Global,
    run: &GuestRun<'_>,
    start: u64,
    node: u64,
    nodes: &mut Vec<NewNode>,
) -> Result<(), AllocError>
    requires start { length nodes.old.items ≡ start }
    requires within { start ≤ next_of (tree_of run.now) }
    ensures put { OnOk result (IsPutAt run.now node (map node_data nodes.old.items) (map node_data nodes.new.items)) }
    ensures count { length nodes.new.items ≡ start }
    ensures rises { All HasRisingNames (map node_data nodes.old.items) → All HasRisingNames (map node_data nodes.new.items) }
{
    if node >= start {
        return Ok(());
    }
    let joint = run.joint_node(alloc, start, node)?;
    nodes[node as usize] = joint;
    Ok(())
}

// Puts the nodes that a guest kept in the places of those at the start.
fn put_kept(
    alloc: Global,
    run: &GuestRun<'_>,
    start: u64,
    nodes: &mut Vec<NewNode>,
) -> Result<(), AllocError>
    requires start { length nodes.old.items ≡ start }
    requires within { start ≤ next_of (tree_of run.now) }
    ensures put { OnOk result (IsPut run.now (map node_data nodes.old.items) (map node_data nodes.new.items)) }
    ensures rises { All HasRisingNames (map node_data nodes.old.items)
        → OnOk result (All HasRisingNames (map node_data nodes.new.items)) }
{
    let kept = run.tree().kept(alloc)?;
    for &node in kept.as_slice() {
        put_node(alloc, run, start, node, nodes)?;
    }
    Ok(())
}

// The nodes after all turns: those at the start, with what each guest kept, and those that were made.
fn joined(
    alloc: Global,
    runs: &[GuestRun<'_>],
    made: &[Made],
    mut nodes: Vec<NewNode>,
) -> Result<Vec<NewNode>, AllocError>
    requires within { All (λ run. length nodes.items ≤ next_of (tree_of run)) runs.now }
    requires made { All (IsMadeBy runs.now) (map made_node made.now) }
    ensures joined { IfOk result (λ all. AreJoined runs.now (map made_node made.now) (map node_data nodes.items)
        (map node_data all.items)) }
    ensures rises { All HasRisingNames (map node_data nodes.items)
        → IfOk result (λ all. All HasRisingNames (map node_data all.items)) }
{
    let start = nodes.len() as u64;
    for run in runs {
        put_kept(alloc, run, start, &mut nodes)?;
    }
    for one in made {
        nodes.push(runs[one.guest as usize].joint_node(alloc, start, one.node)?)?;
    }
    Ok(nodes)
}

// What the guests came to.
fn ends_of(alloc: Global, runs: Vec<GuestRun<'_>>) -> Result<Vec<GuestEnd>, AllocError>
    ensures { IfOk result (λ ends. map ended ends.items ≡ map end_of runs.entry.items) }
{
    let mut ends = Vec::new(alloc);
    for run in runs {
        ends.push(run.into_end())?;
    }
    Ok(ends)
}

// Runs guests over a tree of which no node lies inside two of them.
fn run_apart(
    alloc: Global,
    base: &MemTree,
    guests: Vec<GuestPlan>,
    schedule: &[u32],
) -> Result<GuestsOutcome, AllocError>
    requires begin { All (MayBegin base.now.tree) guests.items }
    requires named { All (λ guest. guest < length guests.items) schedule.now }
    requires apart { IsLowestShared base.now.tree (map preopen_directories guests.items) None }
    ensures alone { IfOk result (λ outcome. AsIfAlone base.now.tree (map (starting base.now.tree) guests.items) schedule.now
        (map ended outcome.guests.items) (map node_data outcome.nodes.items)) }
    ensures ordered { IfOk result (λ outcome. All HasRisingNames (map node_data outcome.nodes.items)) }
    ensures sizes { IfOk result (λ outcome. map (λ end. length end.memory) outcome.guests.items
        ≡ map (λ guest. length guest.memory) guests.items) }
{
    base.store().laws();
    let nodes = base.nodes(alloc)?;
    let mut runs = begin_all(alloc, base, guests)?;
    let made = take_turns(alloc, &mut runs, schedule, nodes.len() as u64)?;
    let nodes = joined(alloc, runs.as_slice(), made.as_slice(), nodes)?;
    let guests = ends_of(alloc, runs)?;
    Ok(GuestsOutcome { guests, nodes })
}

/// Runs several guests over one tree, in turns: each number of the schedule is one turn, the next call of that guest,
/// or nothing where its calls are at an end, or it trapped or exited. No node may lie inside two guests, that is be
/// reached by names from directories of both. Then each guest comes to what it comes to alone, by as many calls as it
/// has turns: its answers, its memory, which keeps its size, and its outputs are those of its run over the same tree by
/// itself. In the nodes afterwards, those inside it and those that it made are as that run leaves them. A node that was
/// made has a number for all, that of the nodes at the start and of those that turns before it made; a guest is told
/// the number that it would see alone. Every other node is as it was. The guests share the tree and nothing else: each
/// has memory, descriptors, quotas, clocks and random bytes of its own, and keeps what it changes over the tree apart.
///
/// `Overlap` has the lowest node that lies inside two guests, where there is one. `Room` comes where there is none, and
/// the nodes of the tree and one for each turn are more than the tree may have. `Memory` if memory ran out. On a
/// refusal the tree and the guests are dropped.
pub fn run_guests(
    alloc: Global,
    tree: MemTree,
    guests: Vec<GuestPlan>,
    schedule: &Vec<u32>,
) -> Result<GuestsOutcome, GuestsError>
    requires begin { All (MayBegin tree.tree) guests.items }
    requires named { All (λ guest. guest < length guests.items) schedule.now.items }
    ensures outcome { IsOutcome tree.tree (map preopen_directories guests.items) (length schedule.now.items) result
        (λ outcome. AsIfAlone tree.tree (map (starting tree.tree) guests.items) schedule.now.items
        (map ended outcome.guests.items) (map node_data outcome.nodes.items)) }
    ensures ordered { IfOk result (λ outcome. All HasRisingNames (map node_data outcome.nodes.items)) }
    ensures sizes { IfOk result (λ outcome. map (λ end. length end.memory) outcome.guests.items
        ≡ map (λ guest. length guest.memory) guests.items) }
{
    let directories = directories_of(alloc, guests.as_slice())?;
    if let Some(node) = lowest_shared(alloc, &tree, directories.as_slice())? {
        return Err(GuestsError::Overlap(node));
    }
    if !has_room(&tree, schedule.len()) {
        return Err(GuestsError::Room);
    }
    Ok(run_apart(alloc, &tree, guests, schedule.as_slice())?)
}

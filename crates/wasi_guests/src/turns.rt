//! The turns of a schedule, and the nodes that they make.
ghost use Rattle.std.specs.Prelude.{◌≡◌, ◌<◌, ◌^◌, [], length, map, All, List, IfOk, OnOk};
ghost use Rattle.wasi_host.specs.Tree.{Tree, next_of};
ghost use Rattle.wasi_guests.specs.Alone.{Starting};
ghost use Rattle.wasi_guests.specs.Between.{AreAt, HasRoom, NotesTurn, made_node};

use crate::guest_run::GuestRun;
use std::alloc::{AllocError, Global};

/// A node that a guest made: the guest, and the number that the node has for it.
#[derive(Clone, Copy)]
pub(crate) struct Made {
    pub(crate) guest: u32,
    pub(crate) node: u64,
}

/// Takes the turns of a schedule. The nodes that they made, in order; a tree of so many nodes was there at the start.
pub(crate) fn take_turns(
    alloc: Global,
    runs: &mut Vec<GuestRun<'_>>,
    schedule: &[u32],
    start: u64,
) -> Result<Vec<Made>, AllocError>
    requires rooms { All HasRoom runs.old.items }
    requires named { All (λ guest. guest < length runs.old.items) schedule.now }
    requires small { start < 2 ^ 63 }
    ensures { IfOk result (λ made. (t : Tree) (guests : List Starting) → next_of t ≡ start
        → AreAt t guests [] runs.old.items [] → AreAt t guests schedule.now runs.new.items (map made_node made.items)) }
{
    let mut made = Vec::new(alloc);
    for &guest in schedule {
        take_turn(&mut runs[guest as usize], guest, start, &mut made)?;
    }
    Ok(made)
}

// Takes a turn of a guest, and notes the nodes that it made.
fn take_turn(
    run: &mut GuestRun<'_>,
    guest: u32,
    start: u64,
    made: &mut Vec<Made>,
) -> Result<(), AllocError>
    requires room { HasRoom run.old }
    requires small { start < 2 ^ 63 }
    ensures { OnOk result (NotesTurn start guest run.old run.new (map made_node made.old.items)
        (map made_node made.new.items)) }
{
    let first = run.next_node();
    run.take_turn()?;
    for node in first..run.next_node() {
        run.note(start + made.len() as u64)?;
        made.push(Made { guest, node })?;
    }
    Ok(())
}

//! A script that is run over an overlay of its tree, which stays as it was.
ghost use Rattle.std.specs.Prelude.{IfOk};
ghost use Rattle.wasi_form.specs.Plan.{plan};
ghost use Rattle.wasi_script.specs.Tried.{TellsTrial, Tries};
ghost use Rattle.wasi_setup.specs.Start.{CanRun};

use crate::run::{RunEnd, end_of, run_over};
use std::alloc::{AllocError, Allocator, Global};
use wasi_form::Script;
use wasi_overlay::Overlay;
use wasi_report::trial_in;
use wasi_tree::MemTree;

// The trial of what came of a script, over a tree that stays.
fn told_trial<A: Allocator + Copy>(
    alloc: Global,
    room: A,
    buffer: Vec<u8>,
    base: &MemTree,
    end: &RunEnd<Overlay<'_>>,
) -> Result<Vec<u8>, AllocError>
    ensures { IfOk result (λ text. TellsTrial base.now end.now text.items) }
{
    let overlay = end.host.inner();
    let kept = overlay.kept(alloc)?;
    let tree = overlay.commit(alloc)?;
    let text = trial_in(
        alloc,
        room,
        buffer,
        base,
        kept.as_slice(),
        &end.outcome,
        &tree,
    )?;
    Ok(text)
}

/// The trial of a script, in the memory of a buffer. `room` is for its digits, where it has enough.
pub fn trial_of<A: Allocator + Copy>(
    alloc: Global,
    room: A,
    script: Script,
    buffer: Vec<u8>,
) -> Result<Vec<u8>, AllocError>
    requires { CanRun script }
    ensures { IfOk result (λ text. Tries (plan script) text.items) }
{
    let Script { nodes, session } = script;
    let base = MemTree::of(alloc, nodes)?;
    let ran = run_over(alloc, Overlay::new(alloc, &base), session)?;
    let end = end_of(alloc, ran)?;
    told_trial(alloc, room, buffer, &base, &end)
}

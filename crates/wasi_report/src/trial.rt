//! A trial as a text: the tree that stays, the nodes that were worked on, and the report.
ghost use Rattle.std.specs.Prelude.{◌≡◌, ◌++◌, IfOk, OnOk};
ghost use Rattle.wasi_report.specs.Report.{reported};
ghost use Rattle.wasi_report.specs.Encoded.{tokens_of};
ghost use Rattle.wasi_report.specs.Trial.{trial_by, trial_text, trial_value};
ghost use Rattle.wasi_report.specs.TrialReadBack.{FitsTrial};

use crate::encode::{DigitRoom, encode_list_at};
use crate::outcome::{Outcome, encode_outcome, encode_tree};
use json::Writer;
use std::alloc::{AllocError, Allocator, Global};
use wasi_tree::MemTree;

/// The trial's text: one object of JSON with no space and with keys in byte order, and a newline. It has the nodes of
/// the tree that stays, the numbers of the nodes that were worked on, and the report as `report_in` writes it. The text
/// is written in the memory of a buffer, whose bytes are dropped, and `room` is for digits as there. It is a text that
/// tells the trial, as `trials_are_determined` says. The only `Err` is out of memory.
pub fn trial_in<A: Allocator + Copy>(
    alloc: Global,
    room: A,
    mut buffer: Vec<u8>,
    base: &MemTree,
    kept: &[u64],
    outcome: &Outcome,
    tree: &MemTree,
) -> Result<Vec<u8>, AllocError>
    ensures text { IfOk result (λ text. text.items
        ≡ trial_text (trial_by base.now.tree.nodes kept.now (reported outcome.now tree.now.tree.nodes))) }
    ensures fits { OnOk result (FitsTrial
        (trial_by base.now.tree.nodes kept.now (reported outcome.now tree.now.tree.nodes))) }
{
    buffer.clear();
    let mut out = Writer::new(buffer);
    encode_trial(
        DigitRoom { room, alloc },
        base,
        kept,
        outcome,
        tree,
        &mut out,
    )?;
    let mut text = out.into_inner();
    text.push(b'\n')?;
    Ok(text)
}

fn encode_trial<A: Allocator + Copy>(
    digits: DigitRoom<A>,
    base: &MemTree,
    kept: &[u64],
    outcome: &Outcome,
    tree: &MemTree,
    out: &mut Writer,
) -> Result<(), AllocError>
    ensures before { out.new.before ≡ out.old.before }
    ensures tokens { OnOk result (out.new.tokens ≡ out.old.tokens
        ++ tokens_of (trial_value (trial_by base.now.tree.nodes kept.now (reported outcome.now tree.now.tree.nodes)))) }
    ensures fits { OnOk result (FitsTrial
        (trial_by base.now.tree.nodes kept.now (reported outcome.now tree.now.tree.nodes))) }
{
    out.begin_object()?;
    out.key("base")?;
    encode_tree(digits, base, out)?;
    encode_list_at(digits, "kept", kept, out)?;
    out.key("report")?;
    encode_outcome(digits, outcome, tree, out)?;
    out.end_object()
}

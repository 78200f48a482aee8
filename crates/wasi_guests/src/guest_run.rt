//! A guest between its turns.
ghost use Rattle.std.specs.Prelude.{◌≡◌, ◌+◌, ◌++◌, ◌∷◌, ◌<◌, [], length, map, suc, if◌then◌else◌, IfOk, OnOk};
ghost use Rattle.wasi_host.specs.Tree.{next_of};
ghost use Rattle.wasi_tree.specs.NodeData.{node_data, content_data, pair_of};
ghost use Rattle.wasi_report.specs.ReadBack.{HasRisingNames};
ghost use Rattle.wasi_p1_model.specs.Trace.{ends};
ghost use Rattle.wasi_guests.specs.Alone.{ended};
ghost use Rattle.wasi_guests.specs.AsIfAlone.{MayBegin};
ghost use Rattle.wasi_guests.specs.Between.{HasRoom, IsBegunOn, TakesItsTurn, end_of, joint_node_data, joint_in, tree_of};
ghost use Rattle.wasi_guests.specs.Joint.{content_renumbered};

use crate::plan::{GuestEnd, GuestPlan};
use std::alloc::{AllocError, Global};
use wasi_guest::{Answer, Answers, Call, GuestMemory};
use wasi_host_faults::FailAt;
use wasi_overlay::Overlay;
use wasi_p1::{WasiP1Ctx, answer_of, call, ends_run};
use wasi_setup::first_context;
use wasi_tree::{MemTree, NewContent, NewEntry, NewNode};

/// A guest between its turns, over an overlay of its own. So it finds the tree as its own calls left it.
#[derive(Drop)]
pub(crate) struct GuestRun<'a> {
    context: WasiP1Ctx<FailAt<Overlay<'a>>>,
    memory: GuestMemory,
    fuel: u64,
    calls: Vec<Call>,
    /// The place of its next call; past the last where none will be made.
    next: usize,
    answers: Answers,
    /// Of each node that it made, in order, the number that the node has for all.
    joint: Vec<u64>,
}

impl<'a> GuestRun<'a> {
    /// A guest before its first turn.
    pub(crate) fn begin(
        alloc: Global,
        base: &MemTree,
        plan: GuestPlan,
    ) -> Result<GuestRun<'_>, AllocError>
        requires { MayBegin base.now.tree plan }
        ensures { IfOk result (IsBegunOn base.now.tree plan) }
    {
        let context = first_context(
            alloc,
            Overlay::new(alloc, base),
            plan.services,
            Vec::new(alloc),
            plan.quota,
            plan.preopens.as_slice(),
            plan.table,
        )?;
        Ok(GuestRun {
            context: WasiP1Ctx::of(context),
            memory: plan.memory,
            fuel: plan.fuel,
            next: 0,
            answers: Answers::with_room(alloc, plan.calls.len())?,
            calls: plan.calls,
            joint: Vec::new(alloc),
        })
    }

    /// The tree as the guest sees it.
    pub(crate) fn tree(&self) -> &Overlay<'a>
        ensures { result.now ≡ self.now.context.host.inner }
    {
        self.context.host().inner()
    }

    /// A turn: the guest's next call, or nothing where its calls are at an end, or one ended its run.
    pub(crate) fn take_turn(&mut self) -> Result<(), AllocError>
        requires { HasRoom self.old }
        ensures { OnOk result (TakesItsTurn self.old self.new) }
    {
        if self.next >= self.calls.len() {
            return Ok(());
        }
        let next = self.calls[self.next];
        self.context.set_hostcall_fuel(self.fuel);
        let result = call(&mut self.context, self.memory.bytes_mut(), next);
        let Some(answer) = answer_of(result) else {
            return Err(AllocError);
        };
        self.answers.push(answer);
        self.next = self.place_after(answer);
        Ok(())
    }

    /// The place of the call after one with this answer; past the last where the answer ends the run.
    fn place_after(&self, answer: Answer) -> usize
        requires { self.now.next < length self.now.calls.items }
        ensures { result ≡ (if ends answer then length self.now.calls.items else suc self.now.next) }
    {
        if ends_run(answer) {
            self.calls.len()
        } else {
            self.next + 1
        }
    }

    /// The number that the next node has which the guest makes.
    pub(crate) fn next_node(&self) -> u64
        ensures { result ≡ next_of (tree_of self.now) }
    {
        self.tree().next()
    }

    /// One node more that it made has this number for all.
    pub(crate) fn note(&mut self, joint: u64) -> Result<(), AllocError>
        ensures same { self.new ≡ record self.old { joint = self.new.joint } }
        ensures noted { OnOk result (self.new.joint.items ≡ self.old.joint.items ++ joint ∷ []) }
    {
        self.joint.push(joint)?;
        Ok(())
    }

    /// The number that a node of the guest has for all, where the tree had so many nodes at the start.
    fn joint_number(&self, start: u64, node: u64) -> u64
        ensures { result ≡ joint_in start self.now.joint.items node }
    {
        if node < start {
            return node;
        }
        match self.joint.get((node - start) as usize) {
            Some(joint) => *joint,
            None => node,
        }
    }

    /// A node of the guest, with the numbers that nodes have for all.
    pub(crate) fn joint_node(
        &self,
        alloc: Global,
        start: u64,
        node: u64,
    ) -> Result<NewNode, AllocError>
        requires { node < next_of (tree_of self.now) }
        ensures joint { IfOk result (λ joint. node_data joint ≡ joint_node_data start self.now node) }
        ensures rises { IfOk result (λ joint. HasRisingNames (node_data joint)) }
    {
        let NewNode {
            content,
            bits,
            atime,
            mtime,
            btime,
        } = self.tree().new_node(alloc, node)?;
        Ok(NewNode {
            content: self.joint_content(alloc, start, content)?,
            bits,
            atime,
            mtime,
            btime,
        })
    }

    /// What a node is, with the numbers that nodes have for all.
    fn joint_content(
        &self,
        alloc: Global,
        start: u64,
        content: NewContent,
    ) -> Result<NewContent, AllocError>
        ensures { IfOk result (λ joint. content_data joint
            ≡ content_renumbered (joint_in start self.now.joint.items) (content_data content)) }
    {
        match content {
            NewContent::File(bytes) => Ok(NewContent::File(bytes)),
            NewContent::Dir(entries) => {
                Ok(NewContent::Dir(self.joint_entries(alloc, start, entries)?))
            }
            NewContent::Link(text) => Ok(NewContent::Link(text)),
        }
    }

    /// The entries of a directory, with the numbers that nodes have for all.
    fn joint_entries(
        &self,
        alloc: Global,
        start: u64,
        entries: Vec<NewEntry>,
    ) -> Result<Vec<NewEntry>, AllocError>
        ensures { IfOk result (λ joint. map pair_of joint.items
            ≡ map (λ e. (e.0, joint_in start self.now.joint.items e.1)) (map pair_of entries.items)) }
    {
        let mut joint = Vec::new(alloc);
        for NewEntry { name, node } in entries {
            let node = self.joint_number(start, node);
            joint.push(NewEntry { name, node })?;
        }
        Ok(joint)
    }

    /// What the guest came to.
    pub(crate) fn into_end(self) -> GuestEnd
        ensures { ended result ≡ end_of self.entry }
    {
        let outputs = self.context.into_parts().holdings.into_outputs();
        GuestEnd {
            answers: self.answers,
            memory: self.memory,
            stdout: outputs.stdout,
            stderr: outputs.stderr,
        }
    }
}

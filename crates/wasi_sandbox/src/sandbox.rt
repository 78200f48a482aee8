//! A context over a tree, whose guest's memory is lent for each call.
ghost use Rattle.std.specs.Prelude.{◌≡◌, true, None, All, IfOk};
ghost use Rattle.std.specs.FinSet.{contains, from_list};
ghost use Rattle.std.specs.List.Sorted.{IsStrictlySortedBy};
ghost use Rattle.std.specs.Ordering.{nat_cmp};
ghost use Rattle.wasi_sandbox.specs.Calling.{answered_after, Called, CalledInto, Calls};
ghost use Rattle.wasi_sandbox.specs.Ending.{end_of};
ghost use Rattle.wasi_sandbox.specs.Telling.{Tells};
ghost use Rattle.wasi_overlay.specs.Overlay.{IsFreshOn};
ghost use Rattle.wasi_p1_types.specs.Quotas.{IsWithinQuota};

use crate::guest_end::GuestEnd;
use crate::result_layout::ResultLayout;
use crate::tree::SandboxTree;
use std::alloc::{AllocError, Global};
use wasi_guest::{Answers, QuotaUsed};
use wasi_host::Host;
use wasi_host_faults::FailAt;
use wasi_overlay::Overlay;
use wasi_p1::{Call, P1Error, P1State, TrapKind, Value, WasiP1Ctx, call};
use wasi_report::Outcome;
use wasi_tree::MemTree;

/// The calls of one guest over a tree: one in memory, which is the sandbox's own, or an overlay over a tree that stays.
/// The guest's memory is its engine's, which lends it for each call; it may be another one each time, and of another
/// length.
#[derive(Drop)]
pub struct Sandbox<T: Host> {
    pub context: WasiP1Ctx<FailAt<T>>,
    /// The fuel that each call has.
    pub fuel: u64,
    /// How many calls were answered, refusals and traps among them; 2^64 - 1 where they are more.
    pub answered: u64,
    /// How the guest's run ended, once it has. No call is made from then on.
    pub ended: Option<GuestEnd>,
}

fn count_answer(answered: u64, outcome: Result<Value, P1Error>) -> u64
    ensures { result ≡ answered_after answered outcome }
{
    match outcome {
        Err(P1Error::Memory) => answered,
        _ => answered.saturating_add(1),
    }
}

impl<T: SandboxTree> Sandbox<T> {
    /// A sandbox of a guest's state in which nothing was called yet.
    pub(crate) fn of_state(state: P1State<FailAt<T>>, fuel: u64) -> Sandbox<T>
        ensures { result ≡ record { context = state; fuel = fuel; answered = 0; ended = None } }
    {
        Sandbox {
            context: WasiP1Ctx::of(state),
            fuel,
            answered: 0,
            ended: None,
        }
    }

    /// One call on the memory that is lent, by the specification of its name: the arguments are raw numbers, in the
    /// order of `wasi_snapshot_preview1`, and `docs/calls.md` says what each call refuses and answers. A refusal or a
    /// trap leaves what is the guest's own. After a trap, and after `proc_exit`, each call answers the same again, and
    /// nothing changes.
    pub fn call(&mut self, memory: &mut [u8], request: Call) -> Result<Value, P1Error>
        ensures called { Calls T.seen self.old self.new memory.old memory.new request result }
    {
        if let Some(end) = self.ended {
            return Err(end.error());
        }
        self.make(memory, request)
    }

    /// Makes a call of a guest whose run hasn't ended.
    fn make(&mut self, memory: &mut [u8], request: Call) -> Result<Value, P1Error>
        requires running { self.old.ended ≡ None }
        ensures called { Called T.seen self.old self.new memory.old memory.new request result }
    {
        self.context.set_hostcall_fuel(self.fuel);
        let outcome = call(&mut self.context, memory, request);
        self.answered = count_answer(self.answered, outcome);
        self.note_end(outcome);
        outcome
    }

    /// Keeps how the guest's run ended, where the call that was answered so ended it.
    fn note_end(&mut self, outcome: Result<Value, P1Error>)
        requires running { self.old.ended ≡ None }
        ensures noted { self.new ≡ record self.old { ended = end_of outcome } }
    {
        if let Err(error) = outcome {
            self.ended = GuestEnd::of(error);
        }
    }

    /// The same, and then what was answered is put in the memory at the addresses of its results, as preview1 lays it
    /// out. Where one of these isn't aligned or a result would leave the memory, the call traps before it is made: the
    /// guest's run ends, all else is as before, and no answer is counted.
    pub fn call_into(
        &mut self,
        memory: &mut [u8],
        request: Call,
        to: ResultLayout,
    ) -> Result<Value, P1Error>
        ensures called { CalledInto T.seen self.old self.new memory.old memory.new request to result }
    {
        if let Some(end) = self.ended {
            return Err(end.error());
        }
        if !to.has_room(memory) {
            self.ended = Some(GuestEnd::Trap(TrapKind::Pointer));
            return Err(P1Error::Trap(TrapKind::Pointer));
        }
        let value = self.make(memory, request)?;
        to.put(memory, value);
        Ok(value)
    }

    /// How much of its quotas the guest has used so far; never more than them. A count without a bound stays 0.
    pub fn quota_used(&self) -> QuotaUsed
        ensures used { result ≡ self.now.context.holdings.used }
        ensures within { IsWithinQuota self.now.context.holdings.quota result }
    {
        self.context.quota_used()
    }

    /// The tree as it stands. Sandboxes may be begun over one in memory, as long as no call changes it.
    pub fn tree(&self) -> &T
        ensures tree { result.now ≡ self.now.context.host.inner }
    {
        self.context.host().inner()
    }

    /// The report of the sandbox as it stands: what was written out, the nodes that were touched, and the tree. No
    /// answers are kept, and no memory: the report lists none of either.
    pub fn report(&self, alloc: Global) -> Result<Vec<u8>, AllocError>
        ensures tells { IfOk result (λ text. Tells T.seen self.now text.items) }
    {
        let outcome = Outcome {
            answers: Answers::with_room(alloc, 0)?,
            shown: Vec::new(alloc),
            stdout: self.context.stdout().to_vec(alloc)?,
            stderr: self.context.stderr().to_vec(alloc)?,
            touched: self.tree().touched_nodes(alloc)?,
        };
        self.tree().report(alloc, &outcome)
    }

    /// The tree as it stands, in memory of its own, as a tree on which no step has worked. It has no live handle, no
    /// node is touched, and there is no lookup. The sandbox stays, and so does the tree that it may stand over.
    pub fn commit(&self, alloc: Global) -> Result<MemTree, AllocError>
        ensures { IfOk result (IsFreshOn (T.seen self.now.context.host.inner).tree) }
    {
        self.tree().commit(alloc)
    }
}

impl<'a> Sandbox<Overlay<'a>> {
    /// The numbers of the nodes that steps have worked on, rising. Each of them was touched.
    pub fn kept(&self, alloc: Global) -> Result<Vec<u64>, AllocError>
        ensures nodes { IfOk result (λ nodes. from_list nodes.items ≡ self.now.context.host.inner.tree.worked) }
        ensures touched { IfOk result (λ nodes. All (λ n. contains self.now.context.host.inner.touched n ≡ true) nodes.items) }
        ensures rising { IfOk result (λ nodes. IsStrictlySortedBy nat_cmp nodes.items) }
    {
        self.tree().kept(alloc)
    }
}

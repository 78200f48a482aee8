//! A script whose calls were made.
ghost use Rattle.std.specs.Prelude.{◌≡◌, true, List, [], length, IfOk, IsTrue};
ghost use Rattle.std.specs.FinSet.{empty};
ghost use Rattle.std.specs.List.{list_all};
ghost use Rattle.wasi_host_faults.specs.Faults.{numbers_rise};
ghost use Rattle.wasi_form.specs.Plan.{plan, planned};
ghost use Rattle.wasi_form.specs.Within.{is_shown_within};
ghost use Rattle.wasi_guest.specs.Quotas.{IsQuota};
ghost use Rattle.wasi_host.specs.declared.limits.Limits.{Limits};
ghost use Rattle.wasi_script.specs.HasRun.{IsRanOf, IsToldOf};
ghost use Rattle.wasi_setup.specs.Start.{CanRun, IsWithinOn};
ghost use Rattle.wasi_tree.specs.NodeData.{NodeData, tree_of};
ghost use Rattle.wasi_tree.specs.MemState.{live_of};

use std::alloc::{AllocError, Global};
use wasi_form::{Script, Session, Shown};
use wasi_guest::{Answers, Call, GuestMemory};
use wasi_host::Host;
use wasi_host_faults::FailAt;
use wasi_p1::{WasiP1Ctx, run_calls};
use wasi_report::Outcome;
use wasi_setup::{ScriptTree, begin_over, shown};
use wasi_tree::MemTree;

/// A script whose calls were made: what they were answered, the memory and the context after them, the ranges of the
/// memory that are to be shown, and the calls.
#[derive(Drop)]
pub struct Ran<T: Host> {
    pub answers: Answers,
    pub memory: GuestMemory,
    pub context: WasiP1Ctx<FailAt<T>>,
    pub show: Vec<Shown>,
    pub calls: Vec<Call>,
}

/// What came of a script: what is told of it, and the host as the calls left it.
#[derive(Drop)]
pub struct RunEnd<T: Host> {
    pub outcome: Outcome,
    pub host: FailAt<T>,
}

/// Makes the calls of a script over a tree that is as its nodes say, whose calls fail as the script says.
pub fn run_over<T: ScriptTree>(
    alloc: Global,
    tree: T,
    session: Session,
) -> Result<Ran<T>, AllocError>
    requires within { IsWithinOn (T.seen tree).tree session }
    requires none { live_of (T.seen tree).handles ≡ empty }
    requires untouched { (T.seen tree).touched ≡ empty }
    requires unasked { (T.seen tree).lookups ≡ [] }
    requires rising { IsTrue (numbers_rise session.faults.items) }
    requires quota { IsQuota session.quota }
    ensures { IfOk result (λ ran. (nodes : List NodeData) (limits : Limits) → (T.seen tree).tree ≡ tree_of nodes limits
        → IsRanOf (planned nodes limits session) T.seen ran) }
{
    let mut begun = begin_over(alloc, tree, session)?;
    let mut context = WasiP1Ctx::of(begun.context);
    let bytes = begun.memory.bytes_mut();
    let ran = run_calls(alloc, &mut context, bytes, begun.fuel, &begun.calls);
    let Ok(answers) = ran else {
        return Err(AllocError);
    };
    Ok(Ran {
        answers,
        memory: begun.memory,
        context,
        show: begun.show,
        calls: begun.calls,
    })
}

/// Makes the calls of a script, over a tree in memory whose calls fail as the script says.
pub fn run(alloc: Global, script: Script) -> Result<Ran<MemTree>, AllocError>
    requires { CanRun script }
    ensures { IfOk result (IsRanOf (plan script) (λ m. m)) }
{
    let Script { nodes, session } = script;
    let tree = MemTree::of(alloc, nodes)?;
    run_over(alloc, tree, session)
}

/// What is told of a script whose calls were made.
pub fn end_of<T: ScriptTree>(alloc: Global, ran: Ran<T>) -> Result<RunEnd<T>, AllocError>
    requires { list_all (is_shown_within (length ran.memory)) ran.show.items ≡ true }
    ensures { IfOk result (IsToldOf T.seen ran) }
{
    let shown = shown(alloc, ran.memory.bytes(), ran.show.as_slice())?;
    let touched = ran.context.host().inner().touched_nodes(alloc)?;
    let ended = ran.context.into_parts();
    let outputs = ended.holdings.into_outputs();
    let outcome = Outcome {
        answers: ran.answers,
        shown,
        stdout: outputs.stdout,
        stderr: outputs.stderr,
        touched,
    };
    Ok(RunEnd {
        outcome,
        host: ended.host,
    })
}

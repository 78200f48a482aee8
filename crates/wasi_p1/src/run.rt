//! A list of calls, one after another.
ghost use Rattle.std.specs.Prelude.{◌≡◌, ◌≤◌, length, map, Err, All, IsTrue, IfOk, IfErr, IfSome};
ghost use Rattle.wasi_p1_types.specs.ErrorNumbers.{MayCome};
ghost use Rattle.wasi_p1_types.specs.Front.{with_fuel};
ghost use Rattle.wasi_fs.specs.declared.perms.FsPerms.TheVariants.{AppendOnly};
ghost use Rattle.wasi_p1_model.specs.AppendOnly.{Adds, AppendsAtEnd};
ghost use Rattle.wasi_p1_model.specs.CallTransition.{IsAnswered, IsValidCall, NamesUnder, OthersStay, Transitions};
ghost use Rattle.wasi_p1_model.specs.Method.{KeepsHostLaws, MeetsSpec};
ghost use Rattle.wasi_host.specs.HostLaws.{Rose};
ghost use Rattle.wasi_p1_types.specs.Guest.{State, guest_of, state_of};
ghost use Rattle.wasi_p1_model.specs.Calls.{may_run_out_of_memory};
ghost use Rattle.wasi_p1_model.specs.Trace.{AnswersEach, answer_of, ends, ios, Allows, answered_in, OutOfMemoryAt, RefinesTrace, StoodAt};
ghost use Rattle.wasi_p1_types.specs.declared.error.P1Error.TheVariants.{Memory};
ghost use Rattle.wasi_p1_model.specs.Owners.{RunTraced, SlotsOfCall};
ghost use Rattle.wasi_p1_model.specs.Reach.{Confined, StaysTouched};
ghost use Rattle.wasi_p1_model.specs.InTurn.{DoesCall, DoCalls, DoCallsUntil, SlotsOfRun};
ghost use Rattle.wasi_p1_model.specs.StatesAgree.{Noninterferes};
ghost use Rattle.wasi_p1_model.specs.Unchanged.{LeavesAll};
ghost use Rattle.wasi_p1_model.specs.QuotaLaws.{WritesAsOpened};
ghost use Rattle.wasi_p1.specs.RunQuotas.{KeepsToQuotas, KeptToQuotas};
ghost use Rattle.wasi_p1_model.specs.Validity.{IsValidState};

use crate::ctx::WasiP1Ctx;
use crate::naming::by_name;
use std::alloc::Global;
use wasi_guest::{Answer, Answers, Call, Value};
use wasi_host::Host;
use wasi_p1_types::{P1Error, RunError};

/// The answer of a call; out of memory is none.
pub fn answer_of(outcome: Result<Value, P1Error>) -> Option<Answer>
    ensures { result ≡ answer_of outcome }
{
    match outcome {
        Ok(value) => Some(Answer::Ok(value)),
        Err(P1Error::Errno(errno)) => Some(Answer::Errno(errno)),
        Err(P1Error::Trap(kind)) => Some(Answer::Trap(kind)),
        Err(P1Error::Exit(status)) => Some(Answer::Exit(status)),
        Err(P1Error::Memory) => None,
    }
}

/// Whether a run ends with an answer: a trap, or the guest's own exit.
pub fn ends_run(answer: Answer) -> bool
    ensures { result ≡ ends answer }
{
    matches!(answer, Answer::Trap(_) | Answer::Exit(_))
}

/// One call of the context, by the method of its name, with its arguments in the order of `wasi_snapshot_preview1`.
/// Where it is valid, so that its specification answers it, it is answered, unless memory ran out or the host
/// failed. No error number is answered that `may_be_answered` doesn't list. A trap, out of memory and every error
/// number but `io` leave all as before: the descriptors, the guest's memory, its outputs, what it has left of its
/// input, the clocks, the place in the random bytes, and the tree of a host that tells it.
///
/// A call that names a descriptor under append-only permissions takes no step but one that adds, whatever it answers.
/// It is so of a guest whose files under such permissions are in append mode, as those of a new context are, which has
/// none, and as they are after each call.
///
/// Files that are written as they were opened, as those of a new context are, which has none, still are after each
/// call.
#[tactic(auto, using(wasi_p1_model::proofs::Completing::turn_completes))]
pub fn call<H: Host>(
    context: &mut WasiP1Ctx<H>,
    memory: &mut [u8],
    call: Call,
) -> Result<Value, P1Error>
    ensures host_laws { KeepsHostLaws H.Host context.old context.new memory.old call result }
    ensures spec { MeetsSpec H.Host context.old context.new memory.old memory.new call result }
    ensures complete { IsTrue H.modelled → (Rose (H.faults context.old.host) (H.faults context.new.host) → ⊥)
        → IsValidCall (state_of H.model context.old memory.old) (with_fuel context.old.fuel call)
        → IsAnswered call result }
    ensures errnos { IsTrue H.modelled → IfSome (answer_of result) MayCome }
    ensures unchanged { LeavesAll H.modelled H.model context.old context.new memory.old memory.new result }
    ensures adds { IsTrue H.modelled → AppendsAtEnd (guest_of H.model context.old memory.old)
        → NamesUnder AppendOnly (guest_of H.model context.old memory.old) call
        → Adds (H.model context.old.host).tree (H.model context.new.host).tree }
    ensures appends { IsTrue H.modelled → AppendsAtEnd (guest_of H.model context.old memory.old)
        → AppendsAtEnd (guest_of H.model context.new memory.new) }
    ensures writes { IsTrue H.modelled → WritesAsOpened (guest_of H.model context.old memory.old)
        → WritesAsOpened (guest_of H.model context.new memory.new) }
{
    by_name(context, memory, call)
}

/// One call of the context with this fuel.
fn call_with<H: Host>(
    context: &mut WasiP1Ctx<H>,
    memory: &mut [u8],
    fuel: u64,
    one: Call,
) -> Result<Value, P1Error>
    ensures size { length memory.new ≡ length memory.old }
    ensures host_laws { KeepsHostLaws H.Host context.old context.new memory.old one result }
    ensures slots { SlotsOfCall context.old.slots context.new.slots memory.old one }
    ensures wants { result ≡ Err Memory → IsTrue (may_run_out_of_memory one) }
    ensures spec { IsTrue H.modelled → Transitions H.model (Rose (H.faults context.old.host) (H.faults context.new.host))
        context.old context.new memory.old memory.new (with_fuel fuel one) result }
    ensures does { DoesCall H.Host fuel context.old context.new memory.old memory.new one result }
{
    context.set_hostcall_fuel(fuel);
    call(context, memory, one)
}

/// The calls in order, up to and including the first whose answer is a trap or an exit, each with the same fuel. Room
/// for all answers is taken first. No answer is an error number that `may_be_answered` doesn't list, and each call that
/// is valid in the state before it is answered Ok, unless the host failed in it. Memory where room is wanted, and then
/// nothing changed, or where the next call wants it, which is one of those that take some: all stands as after the
/// calls that were answered.
///
/// The nodes that a run makes, and the bytes by which it makes files longer, are at most what the quota leaves at its
/// start, however often the host fails; and each call counts its use. It is so of a guest whose files are written as
/// they were opened, as those of a new context are, which has none, and as they are after each run.
///
/// Where the host didn't fail, what a guest is answered, has in its memory and writes out rests on what is in its reach
/// alone: from each state that differs from the one before only where the guest can't come to, the same calls are
/// answered the same, and leave the same guest, and the same nodes where it could come to and of what it made.
pub fn run_calls<H: Host>(
    alloc: Global,
    context: &mut WasiP1Ctx<H>,
    memory: &mut [u8],
    fuel: u64,
    calls: &Vec<Call>,
) -> Result<Answers, RunError>
    ensures size { length memory.new ≡ length memory.old }
    ensures count { (H.faults context.old.host).count ≤ (H.faults context.new.host).count }
    ensures most { (H.faults context.new.host).most ≡ (H.faults context.old.host).most }
    ensures answers { IfOk result (λ a. AnswersEach (map (with_fuel fuel) calls.now.items) a.answers) }
    ensures answered { IfErr result (λ e. answered_in e ≤ length calls.now.items) }
    ensures wanted { IfErr result (λ e. OutOfMemoryAt context.old context.new memory.old memory.new calls.now.items
        (answered_in e)) }
    ensures errnos { IsTrue H.modelled → IfOk result (λ a. All MayCome a.answers) }
    ensures ios { IfOk result (λ a. Allows (H.faults context.old.host) (H.faults context.new.host) (ios a.answers)) }
    ensures handles { OthersStay H.live context.old context.new }
    ensures slots { SlotsOfRun H.Host fuel context.old memory.old calls.now.items context.new.slots }
    ensures provenance { RunTraced context.old.slots context.new.slots
        (H.lookups context.old.host) (H.lookups context.new.host) }
    ensures run { IsTrue H.modelled → IfOk result (λ a. RefinesTrace (H.faults context.old.host) (H.faults context.new.host)
        (state_of H.model context.old memory.old) (map (with_fuel fuel) calls.now.items) a.answers
        (state_of H.model context.new memory.new) (H.model context.new.host).touched) }
    ensures memory { IsTrue H.modelled → IfErr result (λ e. StoodAt (H.faults context.old.host) (H.faults context.new.host)
        (state_of H.model context.old memory.old) (map (with_fuel fuel) calls.now.items) (answered_in e)
        (state_of H.model context.new memory.new) (H.model context.new.host).touched) }
    ensures quotas { IsTrue H.modelled → WritesAsOpened (guest_of H.model context.old memory.old)
        → IfOk result (λ a. KeepsToQuotas (state_of H.model context.old memory.old)
        (map (with_fuel fuel) calls.now.items) a.answers (state_of H.model context.new memory.new)) }
    ensures quotas_so_far { IsTrue H.modelled → WritesAsOpened (guest_of H.model context.old memory.old)
        → IfErr result (λ e. KeptToQuotas (state_of H.model context.old memory.old)
        (map (with_fuel fuel) calls.now.items) (answered_in e) (state_of H.model context.new memory.new)) }
    ensures touched { IsTrue H.modelled
        → StaysTouched (H.model context.old.host).touched (H.model context.new.host).touched }
    ensures confined { IsTrue H.modelled → (start : State)
        → Confined start (state_of H.model context.old memory.old) (H.model context.old.host).touched
        → Confined start (state_of H.model context.new memory.new) (H.model context.new.host).touched }
    ensures valid { IsTrue H.modelled → IsValidState (state_of H.model context.old memory.old)
        → IsValidState (state_of H.model context.new memory.new) }
    ensures in_turn { IfOk result (λ a. DoCalls H.Host fuel context.old memory.old calls.now.items a.answers
        context.new memory.new) }
    ensures until { IfErr result (λ e. DoCallsUntil H.Host fuel context.old memory.old calls.now.items (answered_in e)
        context.new memory.new) }
    ensures agree { IsTrue H.modelled → (Rose (H.faults context.old.host) (H.faults context.new.host) → ⊥)
        → IfOk result (λ a. Noninterferes (state_of H.model context.old memory.old)
        (map (with_fuel fuel) calls.now.items) a.answers (state_of H.model context.new memory.new)) }
{
    let Ok(mut answers) = Answers::with_room(alloc, calls.len()) else {
        return Err(RunError::Memory { answered: 0 });
    };
    for one in calls {
        let outcome = call_with(context, memory, fuel, *one);
        let answer = match answer_of(outcome) {
            Some(answer) => answer,
            None => {
                return Err(RunError::Memory {
                    answered: answers.len(),
                });
            }
        };
        answers.push(answer);
        if ends_run(answer) {
            return Ok(answers);
        }
    }
    Ok(answers)
}

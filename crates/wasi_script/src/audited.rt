//! A script whose calls were made one by one, and whose touched nodes were noted by the directories that they were come
//! to through.
ghost use Rattle.std.specs.Prelude.{◌≡◌, ◌<◌, ◌^◌, ◌↔◌, ℕ, length, map, Contains, IfOk};
ghost use Rattle.std.specs.List.Sorted.{IsStrictlyIncreasing};
ghost use Rattle.std.specs.String.{string_bytes};
ghost use Rattle.wasi_host_faults.specs.Faults.{counted};
ghost use Rattle.wasi_form.specs.Plan.{plan, planned_preopen};
ghost use Rattle.wasi_host.specs.HostLaws.{never_fails};
ghost use Rattle.wasi_report.specs.Audit.{audited_preopen};
ghost use Rattle.wasi_script.specs.Audited.{Audits, IsAuditOf, listed_preopens};
ghost use Rattle.wasi_script.specs.AuditedRun.{AuditedTurn, AuditedRun, NumbersAreShort, StartsAudit};
ghost use Rattle.wasi_script.specs.Through.{IsListed, IsShort, effect_of};
ghost use Rattle.wasi_setup.specs.Start.{model_behind, CanRun};
ghost use Rattle.wasi_p1_types.specs.Front.{with_fuel};
ghost use Rattle.wasi_p1_types.specs.Guest.{guest_of, state_of};

use std::alloc::{AllocError, Global};
use wasi_audit::{Audit, AuditEffect};
use wasi_form::{Script, ScriptPreopen};
use wasi_guest::{Answer, Call, GuestMemory, Value};
use wasi_host_faults::FailAt;
use wasi_p1::{WasiP1Ctx, answer_of, call, ends_run, named};
use wasi_report::{PreopenNodes, audit_in};
use wasi_setup::{Setup, begin};
use wasi_tree::MemTree;

/// The audit of a script whose calls were made, and the names of the preopens, in order.
#[derive(Drop)]
pub struct ScriptAudit {
    pub names: Vec<String>,
    pub audit: Audit,
}

// The names of directories.
fn names_of(alloc: Global, preopens: &[ScriptPreopen]) -> Result<Vec<String>, AllocError>
    ensures { IfOk result (λ names. map string_bytes names.items
        ≡ map (λ preopen. preopen.name) (map planned_preopen preopens.now)) }
{
    let mut names = Vec::new(alloc);
    for preopen in preopens {
        names.push(preopen.name.clone()?)?;
    }
    Ok(names)
}

// What an answer changes in what the numbers stem from.
fn effect_of(call: Call, answer: Answer) -> AuditEffect
    requires short { IsShort call answer }
    ensures { result ≡ effect_of call answer }
{
    match (call, answer) {
        (Call::PathOpen { fd, .. }, Answer::Ok(Value::Number(new))) => AuditEffect::Opened {
            from: fd,
            to: new as u32,
        },
        (Call::FdClose { fd }, Answer::Ok(_)) => AuditEffect::Closed(fd),
        (Call::FdRenumber { from, to }, Answer::Ok(_)) => AuditEffect::Renumbered { from, to },
        _ => AuditEffect::Nothing,
    }
}

// Makes a call, and notes what it touched. No answer if memory ran out.
fn audited_call(
    alloc: Global,
    context: &mut WasiP1Ctx<FailAt<MemTree>>,
    memory: &mut GuestMemory,
    fuel: u64,
    one: Call,
    audit: &mut Audit,
) -> Result<Answer, AllocError>
    requires short { NumbersAreShort (guest_of model_behind context.old memory.old) }
    ensures { IfOk result (AuditedTurn (counted never_fails context.old.host.calls)
        (counted never_fails context.new.host.calls) (model_behind context.old.host) (model_behind context.new.host)
        (guest_of model_behind context.old memory.old) (guest_of model_behind context.new memory.new)
        (with_fuel fuel one) audit.old audit.new) }
{
    let named = named(alloc, &one, memory)?;
    context.forget_touched();
    context.set_hostcall_fuel(fuel);
    let Some(answer) = answer_of(call(context, memory.bytes_mut(), one)) else {
        return Err(AllocError);
    };
    let touched = context.host().inner().touched(alloc)?;
    audit.note(named.as_slice(), touched.as_slice(), effect_of(one, answer))?;
    Ok(answer)
}

// Makes calls one after another, up to the first whose answer ends the run, and notes what each touched.
fn audit_calls(
    alloc: Global,
    context: &mut WasiP1Ctx<FailAt<MemTree>>,
    memory: &mut GuestMemory,
    fuel: u64,
    calls: &Vec<Call>,
    audit: &mut Audit,
) -> Result<(), AllocError>
    requires starts { StartsAudit (guest_of model_behind context.old memory.old) audit.old }
    ensures most { IfOk result (λ _. (counted never_fails context.new.host.calls).most
        ≡ (counted never_fails context.old.host.calls).most) }
    ensures count { IfOk result (λ _. length audit.new.lists ≡ length audit.old.lists) }
    ensures ran { IfOk result (λ _. AuditedRun (counted never_fails context.old.host.calls)
        (counted never_fails context.new.host.calls) (state_of model_behind context.old memory.old)
        (map (with_fuel fuel) calls.now.items) audit.old.stems audit.new.lists) }
{
    for one in calls {
        let answer = audited_call(alloc, context, memory, fuel, *one, audit)?;
        if ends_run(answer) {
            return Ok(());
        }
    }
    Ok(())
}

/// Makes the calls of a script one by one, over a tree in memory whose calls fail as the script says, and notes of each
/// what it touched.
fn audit(alloc: Global, script: Script) -> Result<ScriptAudit, AllocError>
    requires { CanRun script }
    ensures { IfOk result (IsAuditOf (plan script)) }
{
    let names = names_of(alloc, script.session.preopens.as_slice())?;
    let mut audit = Audit::new(alloc, names.len() as u32)?;
    let Setup {
        mut memory,
        context,
        fuel,
        calls,
        ..
    } = begin(alloc, script)?;
    let mut context = WasiP1Ctx::of(context);
    audit_calls(alloc, &mut context, &mut memory, fuel, &calls, &mut audit)?;
    Ok(ScriptAudit { names, audit })
}

// The nodes of all lists, rising, each once.
fn all_listed(alloc: Global, audit: &Audit, preopens: u32) -> Result<Vec<u64>, AllocError>
    requires count { length audit.now.lists ≡ preopens }
    ensures rising { IfOk result (λ nodes. IsStrictlyIncreasing nodes.items) }
    ensures joined { IfOk result (λ nodes. (n : ℕ) → Contains nodes.items n ↔ IsListed audit.now.lists n) }
{
    let mut nodes = Vec::new(alloc);
    for preopen in 0..preopens {
        let Some(list) = audit.list(preopen) else {
            unreachable!()
        };
        nodes.extend_from_slice(list)?;
    }
    nodes.sort()?;
    nodes.dedup();
    Ok(nodes)
}

// Each name beside its list.
fn named_lists<'a>(
    alloc: Global,
    names: &'a [String],
    audit: &'a Audit,
) -> Result<Vec<PreopenNodes<'a>>, AllocError>
    requires count { length audit.now.lists ≡ length names.now }
    requires short { length names.now < 2 ^ 32 }
    ensures { IfOk result (λ preopens. map audited_preopen preopens.items
        ≡ listed_preopens (map string_bytes names.now) audit.now.lists) }
{
    let mut preopens = Vec::new(alloc);
    for place in 0..names.len() {
        let Some(nodes) = audit.list(place as u32) else {
            unreachable!()
        };
        let name = names[place].as_str();
        preopens.push(PreopenNodes { name, nodes })?;
    }
    Ok(preopens)
}

/// The audit of a script, in the memory of a buffer.
pub fn audit_of(alloc: Global, script: Script, buffer: Vec<u8>) -> Result<Vec<u8>, AllocError>
    requires { CanRun script }
    ensures { IfOk result (λ text. Audits (plan script) text.items) }
{
    let audited = audit(alloc, script)?;
    let touched = all_listed(alloc, &audited.audit, audited.names.len() as u32)?;
    let preopens = named_lists(alloc, audited.names.as_slice(), &audited.audit)?;
    audit_in(alloc, buffer, preopens.as_slice(), touched.as_slice())
}

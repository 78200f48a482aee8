//! How a sandbox is begun, told of, committed and ended.
ghost use Rattle.std.specs.Prelude.{◌≡◌, ◌≢◌, None, IsSome};
ghost use Rattle.wasi_c.specs.Told.{TellsAnswered, TellsCommit, TellsKept, TellsReport, TellsStart, TellsStartOver, TellsUsed};

use crate::base::BaseHandle;
use crate::codes::{ALONE, NO_MEMORY, SHORT, start_code};
use crate::handle::SandboxHandle;
use std::alloc::Global;
use wasi_sandbox::{AnySandbox, Base, start, start_over};

/// Begins a sandbox by the text of a script, in place of an empty one. 0; or NO_MEMORY (260); or why the script is
/// refused, one of the REFUSED_ numbers (270 to 275). Where it isn't 0 the handle stays as it was.
#[unsafe(no_mangle)]
pub extern "C" fn wasi_c_start(alloc: Global, sandbox: &mut SandboxHandle, script: &[u8]) -> u32
    requires { sandbox.old.value ≡ None }
    ensures told { TellsStart script.now sandbox.new.value result }
    ensures left { result ≢ 0 → sandbox.new ≡ sandbox.old }
{
    let begun = match start(alloc, script) {
        Ok(begun) => begun,
        Err(error) => return start_code(error),
    };
    let Ok(held) = Box::new(alloc, AnySandbox::Alone(begun)) else {
        return NO_MEMORY;
    };
    sandbox.put(held);
    0
}

/// Begins a sandbox over a base by the text of a script that has no nodes and no limits of its own, in place of an empty one.
/// The base's tree stays as it is: any number of sandboxes may stand over it, and none sees what another changes. (No clause
/// says that it isn't copied: the code doesn't.) 0; or NO_MEMORY (260); or why the script is refused, one of the REFUSED_ numbers (270 to 276, never 273). Where
/// it isn't 0 the handle stays as it was.
#[unsafe(no_mangle)]
pub extern "C" fn wasi_c_start_over(
    alloc: Global,
    base: BaseHandle,
    sandbox: &mut SandboxHandle,
    script: &[u8],
) -> u32
    requires base { IsSome base.value }
    requires sandbox { sandbox.old.value ≡ None }
    ensures told { TellsStartOver script.now base.value sandbox.new.value result }
    ensures left { result ≢ 0 → sandbox.new ≡ sandbox.old }
{
    let begun = match start_over(alloc, &base.base().tree, script) {
        Ok(begun) => begun,
        Err(error) => return start_code(error),
    };
    let Ok(held) = Box::new(alloc, AnySandbox::Over(begun)) else {
        return NO_MEMORY;
    };
    sandbox.put(held);
    0
}

/// Makes a base of a sandbox's tree as it stands, in memory of its own, in place of an empty one. The sandbox stays, and so
/// does the base that it may stand over. The new base stays for as long as the program runs. 0; or NO_MEMORY (260), and then
/// the base stays empty.
#[unsafe(no_mangle)]
pub extern "C" fn wasi_c_commit(
    alloc: Global,
    sandbox: &mut SandboxHandle,
    empty: SandboxHandle,
    base: &mut BaseHandle,
) -> u32
    requires held { IsSome sandbox.old.value }
    requires empty { empty.value ≡ None }
    requires base { base.old.value ≡ None }
    ensures same { sandbox.new.value ≡ sandbox.old.value }
    ensures told { TellsCommit sandbox.old.value base.new.value result }
{
    let held = sandbox.take(empty);
    let committed = held.commit(alloc);
    sandbox.put(held);
    let Ok(tree) = committed else {
        return NO_MEMORY;
    };
    let Ok(kept) = Box::new(alloc, Base { tree }) else {
        return NO_MEMORY;
    };
    *base = BaseHandle::of(Box::leak(kept));
    0
}

/// Writes the numbers of the nodes that calls have worked on, rising, of a sandbox over a base: to the front of the numbers
/// that are lent, and to `len` how many they are. 0; or SHORT (262), and then only `len` is written; or NO_MEMORY (260), or
/// ALONE (277), where the sandbox stands over no base, and then nothing is.
#[unsafe(no_mangle)]
pub extern "C" fn wasi_c_kept(
    alloc: Global,
    sandbox: &mut SandboxHandle,
    empty: SandboxHandle,
    numbers: &mut [u64],
    len: &mut usize,
) -> u32
    requires held { IsSome sandbox.old.value }
    requires empty { empty.value ≡ None }
    ensures same { sandbox.new.value ≡ sandbox.old.value }
    ensures told { TellsKept sandbox.old.value numbers.old numbers.new len.old len.new result }
{
    let held = sandbox.take(empty);
    let kept = held.kept(alloc);
    sandbox.put(held);
    match kept {
        Ok(Some(kept)) => {
            *len = kept.len();
            if kept.len() > numbers.len() {
                return SHORT;
            }
            numbers[..kept.len()].copy_from_slice(kept.as_slice());
            0
        }
        Ok(None) => ALONE,
        Err(_) => NO_MEMORY,
    }
}

/// How many calls were answered, refusals, traps and the guest's end among them; 2^64 - 1 where they are more. A call
/// that wanted memory isn't counted, and neither is one that wasn't made since a result had no room.
#[unsafe(no_mangle)]
pub extern "C" fn wasi_c_answered(
    alloc: Global,
    sandbox: &mut SandboxHandle,
    empty: SandboxHandle,
) -> u64
    requires held { IsSome sandbox.old.value }
    requires empty { empty.value ≡ None }
    ensures same { sandbox.new.value ≡ sandbox.old.value }
    ensures count { TellsAnswered sandbox.old.value result }
{
    let held = sandbox.take(empty);
    let answered = held.answered();
    sandbox.put(held);
    answered
}

/// Writes how much of its quotas the guest has used: to `nodes` how many makings were counted, and to `bytes` how many
/// grown bytes were. A count without a bound is 0.
#[unsafe(no_mangle)]
pub extern "C" fn wasi_c_quota_used(
    alloc: Global,
    sandbox: &mut SandboxHandle,
    empty: SandboxHandle,
    nodes: &mut u64,
    bytes: &mut u64,
)
    requires held { IsSome sandbox.old.value }
    requires empty { empty.value ≡ None }
    ensures same { sandbox.new.value ≡ sandbox.old.value }
    ensures told { TellsUsed sandbox.old.value nodes.new bytes.new }
{
    let held = sandbox.take(empty);
    let used = held.quota_used();
    sandbox.put(held);
    *nodes = used.nodes;
    *bytes = used.bytes;
}

/// Writes the report of the sandbox as it stands to the front of the bytes that are lent, and to `len` how many bytes
/// it has. 0; or SHORT (262), and then only `len` is written; or NO_MEMORY (260), and then nothing is.
#[unsafe(no_mangle)]
pub extern "C" fn wasi_c_report(
    alloc: Global,
    sandbox: &mut SandboxHandle,
    empty: SandboxHandle,
    text: &mut [u8],
    len: &mut usize,
) -> u32
    requires held { IsSome sandbox.old.value }
    requires empty { empty.value ≡ None }
    ensures same { sandbox.new.value ≡ sandbox.old.value }
    ensures told { TellsReport sandbox.old.value text.old text.new len.old len.new result }
{
    let held = sandbox.take(empty);
    let report = held.report(alloc);
    sandbox.put(held);
    let Ok(report) = report else {
        return NO_MEMORY;
    };
    *len = report.len();
    if report.len() > text.len() {
        return SHORT;
    }
    text[..report.len()].copy_from_slice(report.as_slice());
    0
}

/// Ends the sandbox, and leaves the empty one that is handed in.
#[unsafe(no_mangle)]
pub extern "C" fn wasi_c_end(alloc: Global, sandbox: &mut SandboxHandle, empty: SandboxHandle)
    requires held { IsSome sandbox.old.value }
    requires empty { empty.value ≡ None }
    ensures left { sandbox.new ≡ empty }
    ensures empty { sandbox.new.value ≡ None }
{
    drop(sandbox.take(empty));
}

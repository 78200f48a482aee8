//! A call of the sandbox that a handle holds.
ghost use Rattle.std.specs.Prelude.{◌≡◌, None, IsSome};
ghost use Rattle.wasi_c.specs.Told.{TellsCall};

use crate::codes::code_of;
use crate::handle::SandboxHandle;
use wasi_sandbox::{Call, ResultLayout};

/// One call on the memory that is lent, and the number of its answer.
pub fn call_in(
    sandbox: &mut SandboxHandle,
    empty: SandboxHandle,
    memory: &mut [u8],
    request: Call,
    to: ResultLayout,
) -> u32
    requires held { IsSome sandbox.old.value }
    requires empty { empty.value ≡ None }
    ensures { TellsCall sandbox.old.value sandbox.new.value memory.old memory.new request to result }
{
    let mut held = sandbox.take(empty);
    let outcome = held.call_into(memory, request, to);
    sandbox.put(held);
    code_of(outcome)
}

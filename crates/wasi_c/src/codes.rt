//! The numbers that C is given: 0 where a call was answered Ok, preview1's error numbers, and from 256 on what no error
//! number says. `embed/zurgwenad/wasi.h` has these names with `WASI_` before them, and of its own 261 and 263, which no function
//! here answers.
ghost use Rattle.std.specs.Prelude.{◌≡◌};
ghost use Rattle.wasi_c.specs.Codes.{code_of, refusal_code, start_code};

use wasi_form::Refusal;
use wasi_sandbox::{P1Error, StartError, TrapKind, Value};

/// The guest gave an address outside its memory, or one that isn't aligned.
const TRAP_POINTER: u32 = 256;

/// There would be more descriptors than the script's table has room for.
const TRAP_TABLE: u32 = 257;

/// The guest ended with a status of 126 or more.
const TRAP_EXIT: u32 = 258;

/// The guest ended, with the status that it gave `proc_exit`.
const EXIT: u32 = 259;

/// Memory ran out.
pub const NO_MEMORY: u32 = 260;

/// The report is longer than the bytes that are lent for it.
pub const SHORT: u32 = 262;

/// The script has more than 16,777,216 bytes.
const REFUSED_LONG: u32 = 270;

/// The script isn't JSON.
const REFUSED_JSON: u32 = 271;

/// The script is JSON, and isn't of a script's shape.
const REFUSED_SHAPE: u32 = 272;

/// The nodes are no tree, be they the script's or given.
const REFUSED_TREE: u32 = 273;

/// The script passes a limit.
const REFUSED_LIMIT: u32 = 274;

/// The script has calls, a memory, or ranges of it to be shown.
const REFUSED_GUEST: u32 = 275;

/// The script of a sandbox over a tree that stays has nodes or limits of its own.
const REFUSED_OWN_TREE: u32 = 276;

/// The sandbox stands alone, over no tree that stays.
pub const ALONE: u32 = 277;

/// No call has the number, or there are fewer words than the call of the number wants.
pub const NO_CALL: u32 = 278;

/// No node has the number, or a directory holds none under the name.
pub const NO_NODE: u32 = 279;

/// The node is a directory, which has no bytes.
pub const DIRECTORY: u32 = 280;

/// The number of a call's answer.
pub fn code_of(outcome: Result<Value, P1Error>) -> u32
    ensures { result ≡ code_of outcome }
{
    match outcome {
        Ok(_) => 0,
        Err(P1Error::Errno(errno)) => errno.number() as u32,
        Err(P1Error::Trap(TrapKind::Pointer)) => TRAP_POINTER,
        Err(P1Error::Trap(TrapKind::TableFull)) => TRAP_TABLE,
        Err(P1Error::Trap(TrapKind::ExitStatus)) => TRAP_EXIT,
        Err(P1Error::Exit(_)) => EXIT,
        Err(P1Error::Memory) => NO_MEMORY,
    }
}

/// The number of why a script is refused.
fn refusal_code(refusal: Refusal) -> u32
    ensures { result ≡ refusal_code refusal }
{
    match refusal {
        Refusal::Long => REFUSED_LONG,
        Refusal::Json => REFUSED_JSON,
        Refusal::Shape => REFUSED_SHAPE,
        Refusal::Tree => REFUSED_TREE,
        Refusal::Limit => REFUSED_LIMIT,
    }
}

/// The number of why no sandbox was begun.
pub fn start_code(error: StartError) -> u32
    ensures { result ≡ start_code error }
{
    match error {
        StartError::Refused(refusal) => refusal_code(refusal),
        StartError::Guest => REFUSED_GUEST,
        StartError::OwnTree => REFUSED_OWN_TREE,
        StartError::Nodes(_) => REFUSED_TREE,
        StartError::Memory => NO_MEMORY,
    }
}

//! The calls of a guest that ask nothing of the tree.
ghost use Rattle.wasi_guest.specs.declared.call.Call.TheVariants.{ArgsGet, ArgsSizesGet, ClockResGet, ClockTimeGet, EnvironGet, EnvironSizesGet, ProcExit, ProcRaise, RandomGet, SchedYield, SockAccept, SockRecv, SockSend, SockShutdown};
ghost use Rattle.wasi_p1_model.specs.Method.{KeepsHostLaws, MeetsSpec};

use wasi_guest::{Errno, FdFlags, RiFlags, SdFlags, Value};
use wasi_host::Host;
use wasi_p1_state::P1State;
use wasi_p1_state::lookups::live_at;
use wasi_p1_types::{INVALID, P1Error, bytes_at, exit_with, known_signal};

/// Writes the arguments from `argv_buf` on, a zero after each, and their addresses, of 4 bytes each, from `argv` on.
/// Nothing is written if there are none. Refusals: docs/calls.md.
#[tactic(auto, using(wasi_p1_model::proofs::Taking::refusals, wasi_p1_model::proofs::Taking::answered_at_once), unfolding(wasi_p1_model::specs::Calls::Services::args_get))]
pub fn args_get<H: Host>(
    context: &mut P1State<H>,
    memory: &mut [u8],
    argv: u32,
    argv_buf: u32,
) -> Result<Value, P1Error>
    ensures host_laws { KeepsHostLaws H.Host context.old context.new memory.old (ArgsGet argv argv_buf) result }
    ensures spec { MeetsSpec H.Host context.old context.new memory.old memory.new (ArgsGet argv argv_buf) result }
{
    context.holdings.args_into(memory, argv, argv_buf)?;
    Ok(Value::Unit)
}

/// Answers how many arguments there are, and how many bytes they have with a zero after each. Refusals: docs/calls.md.
#[tactic(auto, using(wasi_p1_model::proofs::Taking::refusals, wasi_p1_model::proofs::Taking::answered_at_once), unfolding(wasi_p1_model::specs::Calls::Services::args_sizes_get))]
pub fn args_sizes_get<H: Host>(
    context: &mut P1State<H>,
    memory: &mut [u8],
) -> Result<Value, P1Error>
    ensures host_laws { KeepsHostLaws H.Host context.old context.new memory.old ArgsSizesGet result }
    ensures spec { MeetsSpec H.Host context.old context.new memory.old memory.new ArgsSizesGet result }
{
    Ok(context.holdings.args_sizes()?)
}

/// Writes the variables of the environment as `args_get` writes arguments. Each is a text `KEY=VALUE`. Refusals:
/// docs/calls.md.
#[tactic(auto, using(wasi_p1_model::proofs::Taking::refusals, wasi_p1_model::proofs::Taking::answered_at_once), unfolding(wasi_p1_model::specs::Calls::Services::environ_get))]
pub fn environ_get<H: Host>(
    context: &mut P1State<H>,
    memory: &mut [u8],
    environ: u32,
    environ_buf: u32,
) -> Result<Value, P1Error>
    ensures host_laws { KeepsHostLaws H.Host context.old context.new memory.old (EnvironGet environ environ_buf) result }
    ensures spec { MeetsSpec H.Host context.old context.new memory.old memory.new
        (EnvironGet environ environ_buf) result }
{
    context.holdings.environ_into(memory, environ, environ_buf)?;
    Ok(Value::Unit)
}

/// Answers how many variables the environment has, and how many bytes their texts have with a zero after each.
/// Refusals: docs/calls.md.
#[tactic(auto, using(wasi_p1_model::proofs::Taking::refusals, wasi_p1_model::proofs::Taking::answered_at_once), unfolding(wasi_p1_model::specs::Calls::Services::environ_sizes_get))]
pub fn environ_sizes_get<H: Host>(
    context: &mut P1State<H>,
    memory: &mut [u8],
) -> Result<Value, P1Error>
    ensures host_laws { KeepsHostLaws H.Host context.old context.new memory.old EnvironSizesGet result }
    ensures spec { MeetsSpec H.Host context.old context.new memory.old memory.new EnvironSizesGet result }
{
    Ok(context.holdings.environ_sizes()?)
}

/// Answers the resolution of a clock, in nanoseconds: 0 is the wall clock, 1 the monotonic clock. Refusals:
/// docs/calls.md.
#[tactic(auto, using(wasi_p1_model::proofs::Taking::refusals, wasi_p1_model::proofs::Taking::answered_at_once), unfolding(wasi_p1_model::specs::Calls::Services::clock_res_get))]
pub fn clock_res_get<H: Host>(
    context: &mut P1State<H>,
    memory: &mut [u8],
    id: u32,
) -> Result<Value, P1Error>
    ensures host_laws { KeepsHostLaws H.Host context.old context.new memory.old (ClockResGet id) result }
    ensures spec { MeetsSpec H.Host context.old context.new memory.old memory.new (ClockResGet id) result }
{
    Ok(Value::Number(context.holdings.clock_res(id)?))
}

/// Answers the time of a clock, in nanoseconds: of the wall clock since the epoch. The precision isn't used. Refusals:
/// docs/calls.md.
#[tactic(auto, using(wasi_p1_model::proofs::Taking::refusals, wasi_p1_model::proofs::Taking::answered_at_once), unfolding(wasi_p1_model::specs::Calls::Services::clock_time_get))]
pub fn clock_time_get<H: Host>(
    context: &mut P1State<H>,
    memory: &mut [u8],
    id: u32,
    precision: u64,
) -> Result<Value, P1Error>
    ensures host_laws { KeepsHostLaws H.Host context.old context.new memory.old (ClockTimeGet id precision) result }
    ensures spec { MeetsSpec H.Host context.old context.new memory.old memory.new (ClockTimeGet id precision) result }
{
    Ok(Value::Number(context.holdings.clock_time(id)?))
}

/// Ends the guest with a status below 126. As in the crate's `p1.rs`, another status is a trap. Refusals:
/// docs/calls.md.
#[tactic(auto, using(wasi_p1_model::proofs::Taking::refusals, wasi_p1_model::proofs::Taking::answered_at_once), unfolding(wasi_p1_model::specs::Calls::Services::proc_exit))]
pub fn proc_exit<H: Host>(
    context: &mut P1State<H>,
    memory: &mut [u8],
    status: u32,
) -> Result<Value, P1Error>
    ensures host_laws { KeepsHostLaws H.Host context.old context.new memory.old (ProcExit status) result }
    ensures spec { MeetsSpec H.Host context.old context.new memory.old memory.new (ProcExit status) result }
{
    Err(exit_with(status))
}

/// Is always refused, as in the crate's `p1.rs`: no signal is raised. Refusals: docs/calls.md.
#[tactic(auto, using(wasi_p1_model::proofs::Taking::refusals, wasi_p1_model::proofs::Taking::answered_at_once), unfolding(wasi_p1_model::specs::Calls::Services::proc_raise))]
pub fn proc_raise<H: Host>(
    context: &mut P1State<H>,
    memory: &mut [u8],
    signal: u32,
) -> Result<Value, P1Error>
    ensures host_laws { KeepsHostLaws H.Host context.old context.new memory.old (ProcRaise signal) result }
    ensures spec { MeetsSpec H.Host context.old context.new memory.old memory.new (ProcRaise signal) result }
{
    known_signal(signal)?;
    Err(P1Error::Errno(Errno::Notsup))
}

/// Writes the next random bytes into a buffer. Refusals: docs/calls.md.
#[tactic(auto, using(wasi_p1_model::proofs::Taking::refusals, wasi_p1_model::proofs::Taking::answered_at_once), unfolding(wasi_p1_model::specs::Calls::Services::random_get))]
pub fn random_get<H: Host>(
    context: &mut P1State<H>,
    memory: &mut [u8],
    buf: u32,
    buf_len: u32,
) -> Result<Value, P1Error>
    ensures host_laws { KeepsHostLaws H.Host context.old context.new memory.old (RandomGet buf buf_len) result }
    ensures spec { MeetsSpec H.Host context.old context.new memory.old memory.new (RandomGet buf buf_len) result }
{
    bytes_at(memory, buf, buf_len)?;
    context.holdings.random_into(memory, buf, buf_len);
    Ok(Value::Unit)
}

/// Does nothing, as no other thread runs: POSIX's `sched_yield`.
#[tactic(auto, using(wasi_p1_model::proofs::Taking::refusals, wasi_p1_model::proofs::Taking::answered_at_once), unfolding(wasi_p1_model::specs::Calls::Services::sched_yield))]
pub fn sched_yield<H: Host>(context: &mut P1State<H>, memory: &mut [u8]) -> Result<Value, P1Error>
    ensures host_laws { KeepsHostLaws H.Host context.old context.new memory.old SchedYield result }
    ensures spec { MeetsSpec H.Host context.old context.new memory.old memory.new SchedYield result }
{
    Ok(Value::Unit)
}

/// Is always refused: no descriptor is a socket. Refusals: docs/calls.md.
#[tactic(auto, using(wasi_p1_model::proofs::Taking::refusals, wasi_p1_model::proofs::Taking::answered_at_once), unfolding(wasi_p1_model::specs::Calls::Services::sock_accept))]
pub fn sock_accept<H: Host>(
    context: &mut P1State<H>,
    memory: &mut [u8],
    fd: u32,
    flags: u32,
) -> Result<Value, P1Error>
    ensures host_laws { KeepsHostLaws H.Host context.old context.new memory.old (SockAccept fd flags) result }
    ensures spec { MeetsSpec H.Host context.old context.new memory.old memory.new (SockAccept fd flags) result }
{
    FdFlags::from_bits(flags).ok_or(INVALID)?;
    live_at(&context.fs.host, &context.descriptors, fd)?;
    Err(P1Error::Errno(Errno::Notsock))
}

/// Is always refused: no descriptor is a socket. No buffer is read or written. Refusals: docs/calls.md.
#[tactic(auto, using(wasi_p1_model::proofs::Taking::refusals, wasi_p1_model::proofs::Taking::answered_at_once), unfolding(wasi_p1_model::specs::Calls::Services::sock_recv))]
pub fn sock_recv<H: Host>(
    context: &mut P1State<H>,
    memory: &mut [u8],
    fd: u32,
    iovs: u32,
    iovs_len: u32,
    ri_flags: u32,
) -> Result<Value, P1Error>
    ensures host_laws { KeepsHostLaws H.Host context.old context.new memory.old (SockRecv fd iovs iovs_len ri_flags) result }
    ensures spec { MeetsSpec H.Host context.old context.new memory.old memory.new
        (SockRecv fd iovs iovs_len ri_flags) result }
{
    RiFlags::from_bits(ri_flags).ok_or(INVALID)?;
    live_at(&context.fs.host, &context.descriptors, fd)?;
    Err(P1Error::Errno(Errno::Notsock))
}

/// Is always refused: no descriptor is a socket. No buffer is read, and any `si_flags` are taken. Refusals:
/// docs/calls.md.
#[tactic(auto, using(wasi_p1_model::proofs::Taking::refusals, wasi_p1_model::proofs::Taking::answered_at_once), unfolding(wasi_p1_model::specs::Calls::Services::sock_send))]
pub fn sock_send<H: Host>(
    context: &mut P1State<H>,
    memory: &mut [u8],
    fd: u32,
    iovs: u32,
    iovs_len: u32,
    si_flags: u32,
) -> Result<Value, P1Error>
    ensures host_laws { KeepsHostLaws H.Host context.old context.new memory.old (SockSend fd iovs iovs_len si_flags) result }
    ensures spec { MeetsSpec H.Host context.old context.new memory.old memory.new
        (SockSend fd iovs iovs_len si_flags) result }
{
    live_at(&context.fs.host, &context.descriptors, fd)?;
    Err(P1Error::Errno(Errno::Notsock))
}

/// Is always refused: no descriptor is a socket. Refusals: docs/calls.md.
#[tactic(auto, using(wasi_p1_model::proofs::Taking::refusals, wasi_p1_model::proofs::Taking::answered_at_once), unfolding(wasi_p1_model::specs::Calls::Services::sock_shutdown))]
pub fn sock_shutdown<H: Host>(
    context: &mut P1State<H>,
    memory: &mut [u8],
    fd: u32,
    how: u32,
) -> Result<Value, P1Error>
    ensures host_laws { KeepsHostLaws H.Host context.old context.new memory.old (SockShutdown fd how) result }
    ensures spec { MeetsSpec H.Host context.old context.new memory.old memory.new (SockShutdown fd how) result }
{
    SdFlags::from_bits(how).ok_or(INVALID)?;
    live_at(&context.fs.host, &context.descriptors, fd)?;
    Err(P1Error::Errno(Errno::Notsock))
}

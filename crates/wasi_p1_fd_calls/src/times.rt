//! The calls that set times.
ghost use Rattle.wasi_guest.specs.declared.call.Call.TheVariants.{FdFilestatSetTimes};
ghost use Rattle.wasi_p1_model.specs.Method.{KeepsHostLaws, MeetsSpec};

use crate::node_calls::SetTimesOf;
use wasi_guest::Value;
use wasi_host::Host;
use wasi_p1_state::P1State;
use wasi_p1_state::lookups::descriptor_at;
use wasi_p1_state::views::about;
use wasi_p1_types::{NewTimes, P1Error};

/// Sets the times of the node that a descriptor refers to, as `path_filestat_set_times` does. No host refuses it, where
/// POSIX's `futimens` may. It takes no memory. Refusals: docs/calls.md.
#[tactic(auto, using(wasi_p1_model::proofs::Taking::refusals), unfolding(wasi_p1_model::specs::Calls::Times::fd_filestat_set_times))]
pub fn fd_filestat_set_times<H: Host>(
    context: &mut P1State<H>,
    memory: &mut [u8],
    fd: u32,
    atim: u64,
    mtim: u64,
    fst_flags: u32,
) -> Result<Value, P1Error>
    ensures host_laws { KeepsHostLaws H.Host context.old context.new memory.old
        (FdFilestatSetTimes fd atim mtim fst_flags) result }
    ensures spec { MeetsSpec H.Host context.old context.new memory.old memory.new
        (FdFilestatSetTimes fd atim mtim fst_flags) result }
{
    let times = NewTimes::of(context.holdings.wall(), atim, mtim, fst_flags)?;
    let descriptor = descriptor_at(&context.fs.host, &context.descriptors, fd)?;
    about(
        &mut context.fs,
        &mut context.descriptors,
        fd,
        &descriptor,
        SetTimesOf { times },
    )?;
    Ok(Value::Unit)
}

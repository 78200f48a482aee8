//! The calls that set times.
ghost use Rattle.wasi_guest.specs.declared.call.Call.TheVariants.{PathFilestatSetTimes};
ghost use Rattle.wasi_p1_model.specs.Method.{KeepsHostLaws, MeetsSpec};

use crate::entry_ops::SetTimesAt;
use wasi_guest::{Errno, Value};
use wasi_host::Host;
use wasi_p1_state::P1State;
use wasi_p1_state::lookups::directory_at;
use wasi_p1_state::views::below;
use wasi_p1_types::open_with::path_flags_of;
use wasi_p1_types::{NewTimes, P1Error, text_at};

/// Sets the times of the last read and the last change of the node at the path in a range of memory, from the directory
/// of a descriptor, as POSIX's `utimensat`. The `fstflags` of the preview1 specification set each to the given
/// nanoseconds since the epoch or to the wall clock, or leave it. The flag `symlink_follow` follows a link under the
/// last name; without it a link gets the times itself. Refusals: docs/calls.md.
#[tactic(auto, using(wasi_p1_model::proofs::Taking::refusals, wasi_p1_model::proofs::CallTracing::traced_below), unfolding(wasi_p1_model::specs::Calls::Times::path_filestat_set_times))]
pub fn path_filestat_set_times<H: Host>(
    context: &mut P1State<H>,
    memory: &mut [u8],
    fd: u32,
    flags: u32,
    path: u32,
    path_len: u32,
    atim: u64,
    mtim: u64,
    fst_flags: u32,
) -> Result<Value, P1Error>
    ensures host_laws { KeepsHostLaws H.Host context.old context.new memory.old
        (PathFilestatSetTimes fd flags path path_len atim mtim fst_flags) result }
    ensures spec { MeetsSpec H.Host context.old context.new memory.old memory.new
        (PathFilestatSetTimes fd flags path path_len atim mtim fst_flags) result }
{
    let flags = path_flags_of(flags)?;
    let times = NewTimes::of(context.holdings.wall(), atim, mtim, fst_flags)?;
    let dir = directory_at(&context.fs.host, &context.descriptors, fd, Errno::Badf)?;
    let text = text_at(memory, &mut context.fuel, path, path_len)?;
    below(
        &mut context.fs,
        &mut context.descriptors,
        fd,
        &dir,
        SetTimesAt {
            flags,
            path: text,
            times,
        },
    )?;
    Ok(Value::Unit)
}

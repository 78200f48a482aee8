//! The call that opens a path.
ghost use Rattle.wasi_guest.specs.declared.call.Call.TheVariants.{PathOpen};
ghost use Rattle.wasi_p1_model.specs.Method.{KeepsHostLaws, MeetsSpec};

use crate::creations::check_open;
use crate::opens::open_into;
use wasi_guest::{Errno, Value};
use wasi_host::Host;
use wasi_p1_state::P1State;
use wasi_p1_state::lookups::{directory_at, room_at};
use wasi_p1_types::open_with::OpenWith;
use wasi_p1_types::{P1Error, text_at};

/// Opens the path in a range of memory from the directory of a descriptor, and answers the number of the new
/// descriptor, as POSIX's `openat`. It has that directory's permissions, and a file's position is 0.
///
/// The walk never leaves its start directory. `.` stays, and `..` goes back to the directory before. The parts of a
/// link's text are walked in its place, at most 40 links. A link under the last name is followed if `dirflags` ask for
/// it, or if a slash comes after it.
///
/// `oflags` and `fdflags` are those of the preview1 specification. Of the rights, `fd_read` and `fd_write` open a file
/// for reading and writing, as in the crate's `p1.rs`; the others do nothing. With `creat`, an answer counts as a
/// creation in the quota, whether or not the file was there, and a failure of the host may. Refusals: docs/calls.md.
#[tactic(auto, using(wasi_p1_model::proofs::Taking::refusals, wasi_p1_model::proofs::CallTracing::traced_from), unfolding(wasi_p1_model::specs::Calls::Opening::path_open))]
pub fn path_open<H: Host>(
    context: &mut P1State<H>,
    memory: &mut [u8],
    fd: u32,
    dirflags: u32,
    path: u32,
    path_len: u32,
    oflags: u32,
    base: u64,
    inheriting: u64,
    fdflags: u32,
) -> Result<Value, P1Error>
    ensures host_laws { KeepsHostLaws H.Host context.old context.new memory.old
        (PathOpen fd dirflags path path_len oflags base inheriting fdflags) result }
    ensures spec { MeetsSpec H.Host context.old context.new memory.old memory.new
        (PathOpen fd dirflags path path_len oflags base inheriting fdflags) result }
{
    let with = OpenWith::of(dirflags, oflags, base, inheriting, fdflags)?;
    let text = text_at(memory, &mut context.fuel, path, path_len)?;
    let dir = directory_at(&context.fs.host, &context.descriptors, fd, Errno::Notdir)?;
    room_at(&context.fs.host, &context.descriptors, 1)?;
    check_open(&context.holdings, dir.perms, with)?;
    let below = with.under(dir.perms);
    let number = open_into(
        &mut context.fs,
        &mut context.descriptors,
        fd,
        dir,
        text,
        below,
    );
    context.holdings.count_opening(with.creates(), &number);
    Ok(Value::Number(number?))
}

//! The call that lists a directory.
ghost use Rattle.wasi_guest.specs.declared.call.Call.TheVariants.{FdReaddir};
ghost use Rattle.wasi_p1_model.specs.Method.{KeepsHostLaws, MeetsSpec};

use crate::pages::{listing_of, write_page};
use wasi_guest::{Errno, Value};
use wasi_host::Host;
use wasi_p1_state::P1State;
use wasi_p1_state::lookups::{directory_at, room_at};
use wasi_p1_types::P1Error;

/// Writes records of a directory's entries into a buffer, from the record `cookie` on, and answers how many bytes it
/// wrote. First come `.` and `..`, both with the directory's own number. Then come its names in byte order, each with
/// the number and the type of its node; for a link, its own.
///
/// A record is the `dirent` of the preview1 specification, and the name after it. Its `d_next` is the cookie of the
/// next record. The buffer's length may cut the last record. Fewer bytes than the buffer has mean that no entry is
/// left.
///
/// The directory is opened again, listed and closed for each call. A call costs a stat of each name, and memory by the
/// listing's length. No modelled host refuses the listing, or the stat of a name, once the directory is open. Refusals:
/// docs/calls.md.
#[tactic(auto, using(wasi_p1_model::proofs::Taking::refusals, wasi_p1_model::proofs::CallTracing::traced_below), unfolding(wasi_p1_model::specs::Calls::Listing::fd_readdir))]
pub fn fd_readdir<H: Host>(
    context: &mut P1State<H>,
    memory: &mut [u8],
    fd: u32,
    buf: u32,
    buf_len: u32,
    cookie: u64,
) -> Result<Value, P1Error>
    ensures host_laws { KeepsHostLaws H.Host context.old context.new memory.old (FdReaddir fd buf buf_len cookie) result }
    ensures spec { MeetsSpec H.Host context.old context.new memory.old memory.new (FdReaddir fd buf buf_len cookie)
        result }
{
    let dir = directory_at(&context.fs.host, &context.descriptors, fd, Errno::Badf)?;
    room_at(&context.fs.host, &context.descriptors, 1)?;
    let entries = listing_of(context.fs.alloc, &mut context.fs.host, &dir)?;
    let count = write_page(memory, buf, buf_len, cookie, entries.as_slice())?;
    Ok(Value::Number(count as u64))
}

//! The calls that read and write by a descriptor.
ghost use Rattle.std.specs.Prelude.{IsTrue, IfOk};
ghost use Rattle.wasi_guest.specs.declared.call.Call.TheVariants.{FdPread, FdPwrite, FdRead, FdWrite};
ghost use Rattle.wasi_p1_model.specs.Method.{KeepsHostLaws, MeetsSpec};
ghost use Rattle.wasi_p1_types.specs.Guest.{state_of};
ghost use Rattle.wasi_p1_model.specs.Writing.{WritesWhole};

use crate::file_pieces::{check_growth, put_end, put_next, put_piece, read_place};
use crate::transfer::read_into;
use wasi_guest::{Iovec, Value};
use wasi_host::Host;
use wasi_p1_state::P1State;
use wasi_p1_state::lookups::{file_at, put_back, read_target_at, write_target_at};
use wasi_p1_types::{
    FileSlot, FileUse, P1Error, Put, ReadTarget, WriteTarget, buffer_at, bytes_at, check_write,
};

/// How many bytes a read at an offset fills at most.
const MOST_READ: u32 = 65_536;

/// Reads the bytes of a file from `offset` on into the first of the buffers that isn't empty, and answers how many, as
/// POSIX's `pread`. At or past the end it is 0. The file's position stays. `iovs` is the address of the list of
/// buffers, `iovs_len` its length in records of 8 bytes. One call reads at most 65,536 bytes, and needs room in the
/// table for a stream, as in the crate's `p1.rs`. It takes no memory. Refusals: docs/calls.md.
#[tactic(auto, using(wasi_p1_model::proofs::Taking::refusals), unfolding(wasi_p1_model::specs::Calls::ReadingAndWriting::fd_pread))]
pub fn fd_pread<H: Host>(
    context: &mut P1State<H>,
    memory: &mut [u8],
    fd: u32,
    iovs: u32,
    iovs_len: u32,
    offset: u64,
) -> Result<Value, P1Error>
    ensures host_laws { KeepsHostLaws H.Host context.old context.new memory.old (FdPread fd iovs iovs_len offset) result }
    ensures spec { MeetsSpec H.Host context.old context.new memory.old memory.new (FdPread fd iovs iovs_len offset)
        result }
{
    let buffer = buffer_at(memory, &mut context.fuel, iovs, iovs_len)?;
    let slot = read_place(&context.fs.host, &context.descriptors, fd)?;
    bytes_at(memory, buffer.buf, buffer.buf_len)?;
    let part = Iovec {
        buf: buffer.buf,
        buf_len: buffer.buf_len.min(MOST_READ),
    };
    let count = read_into(&mut context.fs.host, memory, slot.file.file, offset, part)?;
    Ok(Value::Number(count as u64))
}

/// Writes the first of the buffers that isn't empty into a file from `offset` on, and answers how many bytes it took,
/// as POSIX's `pwrite`. In append mode the bytes go to the file's end, wherever `offset` is. The file's position stays.
///
/// With a quota of grown bytes, the host is first asked for the file's size. An answer counts the bytes that the file
/// grew, and a failure of the host may. Refusals: docs/calls.md.
#[tactic(auto, using(wasi_p1_model::proofs::Taking::refusals), unfolding(wasi_p1_model::specs::Calls::ReadingAndWriting::fd_pwrite))]
pub fn fd_pwrite<H: Host>(
    context: &mut P1State<H>,
    memory: &mut [u8],
    fd: u32,
    iovs: u32,
    iovs_len: u32,
    offset: u64,
) -> Result<Value, P1Error>
    ensures host_laws { KeepsHostLaws H.Host context.old context.new memory.old (FdPwrite fd iovs iovs_len offset) result }
    ensures spec { MeetsSpec H.Host context.old context.new memory.old memory.new (FdPwrite fd iovs iovs_len offset)
        result }
{
    let buffer = buffer_at(memory, &mut context.fuel, iovs, iovs_len)?;
    let slot = file_at(&context.fs.host, &context.descriptors, fd, FileUse::WriteAt)?;
    let piece = bytes_at(memory, buffer.buf, buffer.buf_len)?;
    check_write(slot.file.perms)?;
    let end = put_end(slot.modes, offset, piece);
    let growth = check_growth(&mut context.fs.host, &context.holdings, &slot.file, end)?;
    let handle = slot.file.file;
    let count = put_piece(&mut context.fs.host, handle, slot.modes, offset, piece);
    context.holdings.count_growth(growth, &count);
    Ok(Value::Number(count?))
}

/// Reads the bytes of a file at its position, or the next ones of standard input, into the first of the buffers that
/// isn't empty, and answers how many, as POSIX's `read`. At or past the end it is 0. The position moves past the bytes.
/// Refusals: docs/calls.md.
#[tactic(auto, using(wasi_p1_model::proofs::Taking::refusals), unfolding(wasi_p1_model::specs::Calls::ReadingAndWriting::fd_read))]
pub fn fd_read<H: Host>(
    context: &mut P1State<H>,
    memory: &mut [u8],
    fd: u32,
    iovs: u32,
    iovs_len: u32,
) -> Result<Value, P1Error>
    ensures host_laws { KeepsHostLaws H.Host context.old context.new memory.old (FdRead fd iovs iovs_len) result }
    ensures spec { MeetsSpec H.Host context.old context.new memory.old memory.new (FdRead fd iovs iovs_len) result }
{
    let buffer = buffer_at(memory, &mut context.fuel, iovs, iovs_len)?;
    let source = read_target_at(&context.fs.host, &context.descriptors, fd)?;
    bytes_at(memory, buffer.buf, buffer.buf_len)?;
    let FileSlot {
        file,
        position,
        modes,
    } = match source {
        ReadTarget::Input => {
            let read = context.holdings.read_input(memory, buffer)?;
            return Ok(Value::Number(read as u64));
        }
        ReadTarget::File(slot) => slot,
    };
    let handle = file.file;
    let count = read_into(&mut context.fs.host, memory, handle, position, buffer)?;
    let position = position + count as u64;
    put_back(&mut context.descriptors, fd, file, position, modes);
    Ok(Value::Number(count as u64))
}

/// Writes the first of the buffers that isn't empty into a file at its position, or to an output, and answers how many
/// bytes it took, as POSIX's `write`. The position moves past the bytes. In append mode they go to the file's end, and
/// the position is then its size. An output takes all of the bytes, and so does a modelled host.
///
/// With a quota of grown bytes, the host is first asked for the file's size. An answer counts the bytes that the file
/// grew, and a failure of the host may. Refusals: docs/calls.md.
#[tactic(auto, using(wasi_p1_model::proofs::Taking::refusals), unfolding(wasi_p1_model::specs::Calls::ReadingAndWriting::fd_write))]
pub fn fd_write<H: Host>(
    context: &mut P1State<H>,
    memory: &mut [u8],
    fd: u32,
    iovs: u32,
    iovs_len: u32,
) -> Result<Value, P1Error>
    ensures host_laws { KeepsHostLaws H.Host context.old context.new memory.old (FdWrite fd iovs iovs_len) result }
    ensures spec { MeetsSpec H.Host context.old context.new memory.old memory.new (FdWrite fd iovs iovs_len) result }
    ensures whole { IsTrue H.modelled → IfOk result (WritesWhole (state_of H.model context.old memory.old)
        (state_of H.model context.new memory.new) fd iovs iovs_len) }
{
    let buffer = buffer_at(memory, &mut context.fuel, iovs, iovs_len)?;
    let sink = write_target_at(&context.fs.host, &context.descriptors, fd)?;
    let piece = bytes_at(memory, buffer.buf, buffer.buf_len)?;
    let FileSlot {
        file,
        position,
        modes,
    } = match sink {
        WriteTarget::Output(output) => {
            context.holdings.write(output, piece)?;
            return Ok(Value::Number(piece.len() as u64));
        }
        WriteTarget::File(slot) => slot,
    };
    check_write(file.perms)?;
    let end = put_end(modes, position, piece);
    let growth = check_growth(&mut context.fs.host, &context.holdings, &file, end)?;
    let put = put_next(&mut context.fs.host, file.file, modes, position, piece);
    context.holdings.count_growth(growth, &put);
    let Put { count, position } = put?;
    put_back(&mut context.descriptors, fd, file, position, modes);
    Ok(Value::Number(count))
}

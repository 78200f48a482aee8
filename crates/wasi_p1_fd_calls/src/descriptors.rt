//! The calls on a descriptor itself.
ghost use Rattle.wasi_guest.specs.declared.call.Call.TheVariants.{FdClose, FdFdstatGet, FdFdstatSetFlags, FdFdstatSetRights, FdFilestatGet, FdPrestatDirName, FdPrestatGet, FdRenumber};
ghost use Rattle.wasi_p1_model.specs.Method.{KeepsHostLaws, MeetsSpec};

use crate::fdflags::{keeps_append, not_synchronized};
use crate::preopens::{preopen_at, put_name};
use crate::slots::{close_slot, renumber_slot};
use crate::stat::{dir_fdstat, node_filestat, open_file_fdstat};
use wasi_fs::Descriptor;
use wasi_guest::{Errno, Value};
use wasi_host::Host;
use wasi_p1_state::P1State;
use wasi_p1_state::lookups::{descriptor_at, file_at, live_at, put_back};
use wasi_p1_types::open_with::file_modes;
use wasi_p1_types::{
    DirectorySlot, FileSlot, FileUse, P1Error, Slot, fdflags_of, preopen_fdstat, rights_of,
    stream_fdstat, stream_filestat,
};

/// Closes a descriptor, and the handle that it refers to, as POSIX's `close`. Its number may be used again. It takes no
/// memory. Refusals: docs/calls.md.
#[tactic(auto, using(wasi_p1_model::proofs::Taking::refusals, wasi_p1_model::proofs::CallTracing::traced_free), unfolding(wasi_p1_model::specs::Calls::Descriptors::fd_close))]
pub fn fd_close<H: Host>(
    context: &mut P1State<H>,
    memory: &mut [u8],
    fd: u32,
) -> Result<Value, P1Error>
    ensures host_laws { KeepsHostLaws H.Host context.old context.new memory.old (FdClose fd) result }
    ensures spec { MeetsSpec H.Host context.old context.new memory.old memory.new (FdClose fd) result }
{
    let slot = live_at(&context.fs.host, &context.descriptors, fd)?;
    close_slot(&mut context.fs, &mut context.descriptors, fd, slot);
    Ok(Value::Unit)
}

/// Answers the type, flags and rights of a descriptor, and the rights of what is opened below it. The rights are those
/// that the crate's `p1.rs` reports: preopens have their own, and every other directory has others. A file has all
/// rights but those to read or to write that its opening lacks. A standard stream has an unknown type. No host refuses
/// it. It takes no memory. Refusals: docs/calls.md.
#[tactic(auto, using(wasi_p1_model::proofs::Taking::refusals, wasi_p1_model::proofs::Taking::answered_at_once), unfolding(wasi_p1_model::specs::Calls::Descriptors::fd_fdstat_get))]
pub fn fd_fdstat_get<H: Host>(
    context: &mut P1State<H>,
    memory: &mut [u8],
    fd: u32,
) -> Result<Value, P1Error>
    ensures host_laws { KeepsHostLaws H.Host context.old context.new memory.old (FdFdstatGet fd) result }
    ensures spec { MeetsSpec H.Host context.old context.new memory.old memory.new (FdFdstatGet fd) result }
{
    let slot = live_at(&context.fs.host, &context.descriptors, fd)?;
    match slot {
        Slot::Stream(stream) => Ok(Value::Fdstat(stream_fdstat(stream))),
        Slot::Directory(DirectorySlot { dir, preopen }) => {
            if preopen.is_some() {
                return Ok(Value::Fdstat(preopen_fdstat()));
            }
            let fdstat = dir_fdstat(&mut context.fs, &mut context.descriptors, fd, dir)?;
            Ok(Value::Fdstat(fdstat))
        }
        Slot::File(file) => {
            let fdstat = open_file_fdstat(&mut context.fs, &mut context.descriptors, fd, file)?;
            Ok(Value::Fdstat(fdstat))
        }
        Slot::Closed => Err(P1Error::Errno(Errno::Badf)),
    }
}

/// Sets the flags of an open file: `append`, by which each write goes to the file's end, and `nonblock`, which changes
/// nothing. It takes no memory. Refusals: docs/calls.md.
#[tactic(auto, using(wasi_p1_model::proofs::Taking::refusals), unfolding(wasi_p1_model::specs::Calls::Descriptors::fd_fdstat_set_flags))]
pub fn fd_fdstat_set_flags<H: Host>(
    context: &mut P1State<H>,
    memory: &mut [u8],
    fd: u32,
    flags: u32,
) -> Result<Value, P1Error>
    ensures host_laws { KeepsHostLaws H.Host context.old context.new memory.old (FdFdstatSetFlags fd flags) result }
    ensures spec { MeetsSpec H.Host context.old context.new memory.old memory.new (FdFdstatSetFlags fd flags) result }
{
    let fdflags = fdflags_of(flags)?;
    let FileSlot { file, position, .. } = file_at(
        &context.fs.host,
        &context.descriptors,
        fd,
        FileUse::Itself,
    )?;
    not_synchronized(fdflags)?;
    let modes = file_modes(fdflags);
    keeps_append(file.perms, modes)?;
    put_back(&mut context.descriptors, fd, file, position, modes);
    Ok(Value::Unit)
}

/// Is always refused, as in the crate's `p1.rs`: a descriptor's rights stay. It takes no memory. Refusals:
/// docs/calls.md.
#[tactic(auto, using(wasi_p1_model::proofs::Taking::refusals), unfolding(wasi_p1_model::specs::Calls::Descriptors::fd_fdstat_set_rights))]
pub fn fd_fdstat_set_rights<H: Host>(
    context: &mut P1State<H>,
    memory: &mut [u8],
    fd: u32,
    base: u64,
    inheriting: u64,
) -> Result<Value, P1Error>
    ensures host_laws { KeepsHostLaws H.Host context.old context.new memory.old (FdFdstatSetRights fd base inheriting) result }
    ensures spec { MeetsSpec H.Host context.old context.new memory.old memory.new (FdFdstatSetRights fd base inheriting)
        result }
{
    rights_of(base)?;
    rights_of(inheriting)?;
    descriptor_at(&context.fs.host, &context.descriptors, fd)?;
    Err(P1Error::Errno(Errno::Notsup))
}

/// Answers the metadata of the node that a descriptor refers to; zeros for a standard stream. Times are in nanoseconds
/// since the epoch. No host refuses it, where POSIX's `fstat` may. It takes no memory. Refusals: docs/calls.md.
#[tactic(auto, using(wasi_p1_model::proofs::Taking::refusals, wasi_p1_model::proofs::Taking::answered_at_once), unfolding(wasi_p1_model::specs::Calls::Descriptors::fd_filestat_get))]
pub fn fd_filestat_get<H: Host>(
    context: &mut P1State<H>,
    memory: &mut [u8],
    fd: u32,
) -> Result<Value, P1Error>
    ensures host_laws { KeepsHostLaws H.Host context.old context.new memory.old (FdFilestatGet fd) result }
    ensures spec { MeetsSpec H.Host context.old context.new memory.old memory.new (FdFilestatGet fd) result }
{
    let slot = live_at(&context.fs.host, &context.descriptors, fd)?;
    match slot {
        Slot::Stream(_) => Ok(Value::Filestat(stream_filestat())),
        Slot::Directory(DirectorySlot { dir, .. }) => {
            let dir = Descriptor::Dir(dir);
            let filestat = node_filestat(&mut context.fs, &mut context.descriptors, fd, &dir)?;
            Ok(Value::Filestat(filestat))
        }
        Slot::File(FileSlot { file, .. }) => {
            let file = Descriptor::File(file);
            let filestat = node_filestat(&mut context.fs, &mut context.descriptors, fd, &file)?;
            Ok(Value::Filestat(filestat))
        }
        Slot::Closed => Err(P1Error::Errno(Errno::Badf)),
    }
}

/// Answers how many bytes the name of a preopen has. It takes no memory. Refusals: docs/calls.md.
#[tactic(auto, using(wasi_p1_model::proofs::Taking::refusals), unfolding(wasi_p1_model::specs::Calls::Descriptors::fd_prestat_get))]
pub fn fd_prestat_get<H: Host>(
    context: &mut P1State<H>,
    memory: &mut [u8],
    fd: u32,
) -> Result<Value, P1Error>
    ensures host_laws { KeepsHostLaws H.Host context.old context.new memory.old (FdPrestatGet fd) result }
    ensures spec { MeetsSpec H.Host context.old context.new memory.old memory.new (FdPrestatGet fd) result }
{
    let name = preopen_at(
        &context.fs.host,
        &context.descriptors,
        &context.holdings,
        fd,
        Errno::Badf,
    )?;
    Ok(Value::Number(name.len() as u64))
}

/// Writes the name of a preopen, without a final zero, into a range of memory. The range may be longer than the name.
/// Refusals: docs/calls.md.
#[tactic(auto, using(wasi_p1_model::proofs::Taking::refusals), unfolding(wasi_p1_model::specs::Calls::Descriptors::fd_prestat_dir_name))]
pub fn fd_prestat_dir_name<H: Host>(
    context: &mut P1State<H>,
    memory: &mut [u8],
    fd: u32,
    path: u32,
    path_len: u32,
) -> Result<Value, P1Error>
    ensures host_laws { KeepsHostLaws H.Host context.old context.new memory.old (FdPrestatDirName fd path path_len) result }
    ensures spec { MeetsSpec H.Host context.old context.new memory.old memory.new (FdPrestatDirName fd path path_len)
        result }
{
    live_at(&context.fs.host, &context.descriptors, fd)?;
    let name = preopen_at(
        &context.fs.host,
        &context.descriptors,
        &context.holdings,
        fd,
        Errno::Notdir,
    )?;
    put_name(memory, path, path_len, name)?;
    Ok(Value::Unit)
}

/// Closes what `to` refers to, moves the descriptor `from` to that number, and closes `from`. If both are one number,
/// nothing changes. The rule is the preview1 specification's; POSIX's `dup2` leaves `from` open. It takes no memory.
/// Refusals: docs/calls.md.
#[tactic(auto, using(wasi_p1_model::proofs::Taking::refusals, wasi_p1_model::proofs::CallTracing::traced_free), unfolding(wasi_p1_model::specs::Calls::Descriptors::fd_renumber))]
pub fn fd_renumber<H: Host>(
    context: &mut P1State<H>,
    memory: &mut [u8],
    from: u32,
    to: u32,
) -> Result<Value, P1Error>
    ensures host_laws { KeepsHostLaws H.Host context.old context.new memory.old (FdRenumber from to) result }
    ensures spec { MeetsSpec H.Host context.old context.new memory.old memory.new (FdRenumber from to) result }
{
    live_at(&context.fs.host, &context.descriptors, from)?;
    let slot = live_at(&context.fs.host, &context.descriptors, to)?;
    renumber_slot(&mut context.fs, &mut context.descriptors, from, to, slot);
    Ok(Value::Unit)
}

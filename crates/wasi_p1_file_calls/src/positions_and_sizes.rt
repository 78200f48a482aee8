//! The calls on a file's position, on its size, and on how it is stored.
ghost use Rattle.wasi_guest.specs.declared.call.Call.TheVariants.{FdAdvise, FdAllocate, FdDatasync, FdFilestatSetSize, FdSeek, FdSync, FdTell};
ghost use Rattle.wasi_p1_model.specs.Method.{KeepsHostLaws, MeetsSpec};

use crate::file_ops::{AdviseOf, SyncDataOf, SyncOf, set_size};
use crate::file_pieces::{check_alter, check_growth, position_sought, view_advice};
use wasi_guest::{Errno, Value};
use wasi_host::Host;
use wasi_p1_state::P1State;
use wasi_p1_state::lookups::{file_at, put_back};
use wasi_p1_state::views::files::about_file;
use wasi_p1_types::{FileEnd, FileSlot, FileUse, P1Error, advice_of, whence_of};

/// Tells the host how `len` bytes of a file from `offset` on will be used. Nothing changes. No host refuses it, where
/// POSIX's `posix_fadvise` may. It takes no memory. Refusals: docs/calls.md.
#[tactic(auto, using(wasi_p1_model::proofs::Taking::refusals), unfolding(wasi_p1_model::specs::Calls::PositionsAndSizes::fd_advise))]
pub fn fd_advise<H: Host>(
    context: &mut P1State<H>,
    memory: &mut [u8],
    fd: u32,
    offset: u64,
    len: u64,
    advice: u32,
) -> Result<Value, P1Error>
    ensures host_laws { KeepsHostLaws H.Host context.old context.new memory.old (FdAdvise fd offset len advice) result }
    ensures spec { MeetsSpec H.Host context.old context.new memory.old memory.new (FdAdvise fd offset len advice) result }
{
    let how = advice_of(advice)?;
    let slot = file_at(&context.fs.host, &context.descriptors, fd, FileUse::Itself)?;
    about_file(
        &mut context.fs,
        &mut context.descriptors,
        fd,
        &slot.file,
        AdviseOf {
            offset,
            len,
            advice: view_advice(how),
        },
    )?;
    Ok(Value::Unit)
}

/// Is always refused, as in the crate's `p1.rs`: no space is reserved. Refusals: docs/calls.md.
#[tactic(auto, using(wasi_p1_model::proofs::Taking::refusals), unfolding(wasi_p1_model::specs::Calls::PositionsAndSizes::fd_allocate))]
pub fn fd_allocate<H: Host>(
    context: &mut P1State<H>,
    memory: &mut [u8],
    fd: u32,
    offset: u64,
    len: u64,
) -> Result<Value, P1Error>
    ensures host_laws { KeepsHostLaws H.Host context.old context.new memory.old (FdAllocate fd offset len) result }
    ensures spec { MeetsSpec H.Host context.old context.new memory.old memory.new (FdAllocate fd offset len) result }
{
    file_at(&context.fs.host, &context.descriptors, fd, FileUse::Itself)?;
    Err(P1Error::Errno(Errno::Notsup))
}

/// Waits until the bytes of a file are stored. No host refuses it, where POSIX's `fdatasync` may. It takes no memory.
/// Refusals: docs/calls.md.
#[tactic(auto, using(wasi_p1_model::proofs::Taking::refusals), unfolding(wasi_p1_model::specs::Calls::PositionsAndSizes::fd_datasync))]
pub fn fd_datasync<H: Host>(
    context: &mut P1State<H>,
    memory: &mut [u8],
    fd: u32,
) -> Result<Value, P1Error>
    ensures host_laws { KeepsHostLaws H.Host context.old context.new memory.old (FdDatasync fd) result }
    ensures spec { MeetsSpec H.Host context.old context.new memory.old memory.new (FdDatasync fd) result }
{
    let slot = file_at(&context.fs.host, &context.descriptors, fd, FileUse::Itself)?;
    about_file(
        &mut context.fs,
        &mut context.descriptors,
        fd,
        &slot.file,
        SyncDataOf,
    )?;
    Ok(Value::Unit)
}

/// Waits until the bytes and the metadata of a file are stored. No host refuses it, where POSIX's `fsync` may. It takes
/// no memory. Refusals: docs/calls.md.
#[tactic(auto, using(wasi_p1_model::proofs::Taking::refusals), unfolding(wasi_p1_model::specs::Calls::PositionsAndSizes::fd_sync))]
pub fn fd_sync<H: Host>(
    context: &mut P1State<H>,
    memory: &mut [u8],
    fd: u32,
) -> Result<Value, P1Error>
    ensures host_laws { KeepsHostLaws H.Host context.old context.new memory.old (FdSync fd) result }
    ensures spec { MeetsSpec H.Host context.old context.new memory.old memory.new (FdSync fd) result }
{
    let slot = file_at(&context.fs.host, &context.descriptors, fd, FileUse::Itself)?;
    about_file(
        &mut context.fs,
        &mut context.descriptors,
        fd,
        &slot.file,
        SyncOf,
    )?;
    Ok(Value::Unit)
}

/// Cuts a file to `size` bytes, or adds zeros up to them, as POSIX's `ftruncate`. Its position stays.
///
/// With a quota of grown bytes, the host is first asked for the file's size. An answer counts the bytes that the file
/// grew, and a failure of the host may. A smaller size gives none back. It takes no memory. Refusals: docs/calls.md.
#[tactic(auto, using(wasi_p1_model::proofs::Taking::refusals), unfolding(wasi_p1_model::specs::Calls::PositionsAndSizes::fd_filestat_set_size))]
pub fn fd_filestat_set_size<H: Host>(
    context: &mut P1State<H>,
    memory: &mut [u8],
    fd: u32,
    size: u64,
) -> Result<Value, P1Error>
    ensures host_laws { KeepsHostLaws H.Host context.old context.new memory.old (FdFilestatSetSize fd size) result }
    ensures spec { MeetsSpec H.Host context.old context.new memory.old memory.new (FdFilestatSetSize fd size) result }
{
    let slot = file_at(&context.fs.host, &context.descriptors, fd, FileUse::Itself)?;
    check_alter(slot.file.perms)?;
    let end = FileEnd::At(size as u128);
    let growth = check_growth(&mut context.fs.host, &context.holdings, &slot.file, end)?;
    let set = set_size(
        &mut context.fs,
        &mut context.descriptors,
        fd,
        &slot.file,
        size,
    );
    context.holdings.count_growth(growth, &set);
    set?;
    Ok(Value::Unit)
}

/// Sets the position of a file to `offset` bytes from its start, its position or its end, as `whence` says, and answers
/// it, as POSIX's `lseek`. It may be past the end. It takes no memory. Refusals: docs/calls.md.
#[tactic(auto, using(wasi_p1_model::proofs::Taking::refusals), unfolding(wasi_p1_model::specs::Calls::PositionsAndSizes::fd_seek))]
pub fn fd_seek<H: Host>(
    context: &mut P1State<H>,
    memory: &mut [u8],
    fd: u32,
    offset: i64,
    whence: u32,
) -> Result<Value, P1Error>
    ensures host_laws { KeepsHostLaws H.Host context.old context.new memory.old (FdSeek fd offset whence) result }
    ensures spec { MeetsSpec H.Host context.old context.new memory.old memory.new (FdSeek fd offset whence) result }
{
    let place = whence_of(whence)?;
    let FileSlot {
        file,
        position,
        modes,
    } = file_at(
        &context.fs.host,
        &context.descriptors,
        fd,
        FileUse::Position,
    )?;
    let position = position_sought(&mut context.fs.host, file.file, position, place, offset)?;
    put_back(&mut context.descriptors, fd, file, position, modes);
    Ok(Value::Number(position))
}

/// Answers the position of a file, in bytes from its start. It takes no memory. Refusals: docs/calls.md.
#[tactic(auto, using(wasi_p1_model::proofs::Taking::refusals), unfolding(wasi_p1_model::specs::Calls::PositionsAndSizes::fd_tell))]
pub fn fd_tell<H: Host>(
    context: &mut P1State<H>,
    memory: &mut [u8],
    fd: u32,
) -> Result<Value, P1Error>
    ensures host_laws { KeepsHostLaws H.Host context.old context.new memory.old (FdTell fd) result }
    ensures spec { MeetsSpec H.Host context.old context.new memory.old memory.new (FdTell fd) result }
{
    let slot = file_at(
        &context.fs.host,
        &context.descriptors,
        fd,
        FileUse::Position,
    )?;
    Ok(Value::Number(slot.position))
}

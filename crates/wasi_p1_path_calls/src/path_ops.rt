//! The calls at the place that a path names.
ghost use Rattle.wasi_guest.specs.declared.call.Call.TheVariants.{PathCreateDirectory, PathFilestatGet, PathReadlink, PathRemoveDirectory, PathSymlink, PathUnlinkFile};
ghost use Rattle.wasi_p1_model.specs.Method.{KeepsHostLaws, MeetsSpec};

use crate::creations::{check_link, check_make, make_below};
use crate::entry_ops::{CreateDirectoryAt, ReadlinkAt, RemoveDirectoryAt, SymlinkAt, UnlinkFileAt};
use crate::stat::stat_both;
use wasi_guest::{Errno, Value};
use wasi_host::Host;
use wasi_p1_state::P1State;
use wasi_p1_state::lookups::directory_at;
use wasi_p1_state::views::below;
use wasi_p1_types::open_with::path_flags_of;
use wasi_p1_types::{P1Error, text_at, write_front};

/// Makes an empty directory at the path in a range of memory, from the directory of a descriptor, as POSIX's `mkdirat`.
/// Slashes at the path's end are removed first. An answer counts as a creation in the quota, and a failure of the host
/// may. Refusals: docs/calls.md.
#[tactic(auto, using(wasi_p1_model::proofs::Taking::refusals, wasi_p1_model::proofs::CallTracing::traced_below), unfolding(wasi_p1_model::specs::Calls::PathOps::path_create_directory))]
pub fn path_create_directory<H: Host>(
    context: &mut P1State<H>,
    memory: &mut [u8],
    fd: u32,
    path: u32,
    path_len: u32,
) -> Result<Value, P1Error>
    ensures host_laws { KeepsHostLaws H.Host context.old context.new memory.old
        (PathCreateDirectory fd path path_len) result }
    ensures spec { MeetsSpec H.Host context.old context.new memory.old memory.new
        (PathCreateDirectory fd path path_len) result }
{
    let dir = directory_at(&context.fs.host, &context.descriptors, fd, Errno::Badf)?;
    let text = text_at(memory, &mut context.fuel, path, path_len)?;
    check_make(&context.holdings, dir.perms)?;
    make_below(
        &mut context.fs,
        &mut context.descriptors,
        &mut context.holdings,
        fd,
        &dir,
        CreateDirectoryAt { path: text },
    )?;
    Ok(Value::Unit)
}

/// Removes the empty directory at the path in a range of memory, from the directory of a descriptor, as POSIX's
/// `unlinkat` with `AT_REMOVEDIR`. Descriptors of it stay open, but nothing can be made in it. Refusals: docs/calls.md.
#[tactic(auto, using(wasi_p1_model::proofs::Taking::refusals, wasi_p1_model::proofs::CallTracing::traced_below), unfolding(wasi_p1_model::specs::Calls::PathOps::path_remove_directory))]
pub fn path_remove_directory<H: Host>(
    context: &mut P1State<H>,
    memory: &mut [u8],
    fd: u32,
    path: u32,
    path_len: u32,
) -> Result<Value, P1Error>
    ensures host_laws { KeepsHostLaws H.Host context.old context.new memory.old
        (PathRemoveDirectory fd path path_len) result }
    ensures spec { MeetsSpec H.Host context.old context.new memory.old memory.new
        (PathRemoveDirectory fd path path_len) result }
{
    let dir = directory_at(&context.fs.host, &context.descriptors, fd, Errno::Badf)?;
    let text = text_at(memory, &mut context.fuel, path, path_len)?;
    let call = RemoveDirectoryAt { path: text };
    below(&mut context.fs, &mut context.descriptors, fd, &dir, call)?;
    Ok(Value::Unit)
}

/// Removes the name of a file or link at the path in a range of memory, from the directory of a descriptor, as POSIX's
/// `unlinkat`. A link isn't followed. Descriptors of the file stay open. Refusals: docs/calls.md.
#[tactic(auto, using(wasi_p1_model::proofs::Taking::refusals, wasi_p1_model::proofs::CallTracing::traced_below), unfolding(wasi_p1_model::specs::Calls::PathOps::path_unlink_file))]
pub fn path_unlink_file<H: Host>(
    context: &mut P1State<H>,
    memory: &mut [u8],
    fd: u32,
    path: u32,
    path_len: u32,
) -> Result<Value, P1Error>
    ensures host_laws { KeepsHostLaws H.Host context.old context.new memory.old (PathUnlinkFile fd path path_len) result }
    ensures spec { MeetsSpec H.Host context.old context.new memory.old memory.new
        (PathUnlinkFile fd path path_len) result }
{
    let dir = directory_at(&context.fs.host, &context.descriptors, fd, Errno::Badf)?;
    let text = text_at(memory, &mut context.fuel, path, path_len)?;
    let call = UnlinkFileAt { path: text };
    below(&mut context.fs, &mut context.descriptors, fd, &dir, call)?;
    Ok(Value::Unit)
}

/// Makes a link with the text in one range of memory at the path in another, from the directory of a descriptor, as
/// POSIX's `symlinkat`. The text need not lead anywhere. An answer counts as a creation in the quota, and a failure of
/// the host may. Refusals: docs/calls.md.
#[tactic(auto, using(wasi_p1_model::proofs::Taking::refusals, wasi_p1_model::proofs::CallTracing::traced_below), unfolding(wasi_p1_model::specs::Calls::PathOps::path_symlink))]
pub fn path_symlink<H: Host>(
    context: &mut P1State<H>,
    memory: &mut [u8],
    old_path: u32,
    old_path_len: u32,
    fd: u32,
    new_path: u32,
    new_path_len: u32,
) -> Result<Value, P1Error>
    ensures host_laws { KeepsHostLaws H.Host context.old context.new memory.old
        (PathSymlink old_path old_path_len fd new_path new_path_len) result }
    ensures spec { MeetsSpec H.Host context.old context.new memory.old memory.new
        (PathSymlink old_path old_path_len fd new_path new_path_len) result }
{
    let dir = directory_at(&context.fs.host, &context.descriptors, fd, Errno::Badf)?;
    let target = text_at(memory, &mut context.fuel, old_path, old_path_len)?;
    let text = text_at(memory, &mut context.fuel, new_path, new_path_len)?;
    check_link(&context.holdings, dir.perms, target)?;
    make_below(
        &mut context.fs,
        &mut context.descriptors,
        &mut context.holdings,
        fd,
        &dir,
        SymlinkAt { target, path: text },
    )?;
    Ok(Value::Unit)
}

/// Writes the text of the link at the path in a range of memory into a buffer, as far as it fits, and answers how many
/// bytes it wrote, as POSIX's `readlinkat`. Refusals: docs/calls.md.
#[tactic(auto, using(wasi_p1_model::proofs::Taking::refusals, wasi_p1_model::proofs::CallTracing::traced_below), unfolding(wasi_p1_model::specs::Calls::PathOps::path_readlink))]
pub fn path_readlink<H: Host>(
    context: &mut P1State<H>,
    memory: &mut [u8],
    fd: u32,
    path: u32,
    path_len: u32,
    buf: u32,
    buf_len: u32,
) -> Result<Value, P1Error>
    ensures host_laws { KeepsHostLaws H.Host context.old context.new memory.old
        (PathReadlink fd path path_len buf buf_len) result }
    ensures spec { MeetsSpec H.Host context.old context.new memory.old memory.new
        (PathReadlink fd path path_len buf buf_len) result }
{
    let dir = directory_at(&context.fs.host, &context.descriptors, fd, Errno::Badf)?;
    let text = text_at(memory, &mut context.fuel, path, path_len)?;
    let call = ReadlinkAt { path: text };
    let link = below(&mut context.fs, &mut context.descriptors, fd, &dir, call)?;
    let count = write_front(memory, buf, buf_len, link.as_bytes())?;
    Ok(Value::Number(count as u64))
}

/// Answers the metadata of the node at the path in a range of memory, from the directory of a descriptor, as POSIX's
/// `fstatat`. The flag `symlink_follow` follows a link under the last name. Times are in nanoseconds since the epoch.
/// Refusals: docs/calls.md.
#[tactic(auto, using(wasi_p1_model::proofs::Taking::refusals, wasi_p1_model::proofs::CallTracing::traced_below), unfolding(wasi_p1_model::specs::Calls::PathOps::path_filestat_get))]
pub fn path_filestat_get<H: Host>(
    context: &mut P1State<H>,
    memory: &mut [u8],
    fd: u32,
    flags: u32,
    path: u32,
    path_len: u32,
) -> Result<Value, P1Error>
    ensures host_laws { KeepsHostLaws H.Host context.old context.new memory.old
        (PathFilestatGet fd flags path path_len) result }
    ensures spec { MeetsSpec H.Host context.old context.new memory.old memory.new
        (PathFilestatGet fd flags path path_len) result }
{
    let flags = path_flags_of(flags)?;
    let dir = directory_at(&context.fs.host, &context.descriptors, fd, Errno::Badf)?;
    let text = text_at(memory, &mut context.fuel, path, path_len)?;
    let both = stat_both(
        &mut context.fs,
        &mut context.descriptors,
        fd,
        &dir,
        flags,
        text,
    )?;
    Ok(Value::Filestat(both.filestat()?))
}

//! What a call names: the method that makes it, and descriptors.
ghost use Rattle.std.specs.Prelude.{[], ◌∷◌, ◌≡◌, IfOk};
ghost use Rattle.std.specs.Option.{option_to_list};
ghost use Rattle.wasi_guest.specs.Subscription.{subscription_in};
ghost use Rattle.wasi_p1_model.specs.Calls.{descriptors_named};
ghost use Rattle.wasi_p1_model.specs.Method.{KeepsHostLaws, MeetsSpec};
ghost use Rattle.wasi_p1_model.specs.Subscriptions.{named_in, waited_for};

use crate::ctx::WasiP1Ctx;
use std::alloc::{AllocError, Global};
use wasi_guest::{Call, GuestMemory, Subscription, SubscriptionKind, Value};
use wasi_host::Host;
use wasi_p1_types::P1Error;

/// The method of a call's name.
pub fn by_name<H: Host>(
    context: &mut WasiP1Ctx<H>,
    memory: &mut [u8],
    call: Call,
) -> Result<Value, P1Error>
    ensures host_laws { KeepsHostLaws H.Host context.old context.new memory.old call result }
    ensures spec { MeetsSpec H.Host context.old context.new memory.old memory.new call result }
{
    match call {
        Call::ArgsGet { argv, argv_buf } => context.args_get(memory, argv, argv_buf),
        Call::ArgsSizesGet => context.args_sizes_get(memory),
        Call::EnvironGet {
            environ,
            environ_buf,
        } => context.environ_get(memory, environ, environ_buf),
        Call::EnvironSizesGet => context.environ_sizes_get(memory),
        Call::ClockResGet { id } => context.clock_res_get(memory, id),
        Call::ClockTimeGet { id, precision } => context.clock_time_get(memory, id, precision),
        Call::FdAdvise {
            fd,
            offset,
            len,
            advice,
        } => context.fd_advise(memory, fd, offset, len, advice),
        Call::FdAllocate { fd, offset, len } => context.fd_allocate(memory, fd, offset, len),
        Call::FdClose { fd } => context.fd_close(memory, fd),
        Call::FdDatasync { fd } => context.fd_datasync(memory, fd),
        Call::FdSync { fd } => context.fd_sync(memory, fd),
        Call::FdFdstatGet { fd } => context.fd_fdstat_get(memory, fd),
        Call::FdFdstatSetFlags { fd, flags } => context.fd_fdstat_set_flags(memory, fd, flags),
        Call::FdFdstatSetRights {
            fd,
            base,
            inheriting,
        } => context.fd_fdstat_set_rights(memory, fd, base, inheriting),
        Call::FdFilestatGet { fd } => context.fd_filestat_get(memory, fd),
        Call::FdFilestatSetSize { fd, size } => context.fd_filestat_set_size(memory, fd, size),
        Call::FdFilestatSetTimes {
            fd,
            atim,
            mtim,
            fst_flags,
        } => context.fd_filestat_set_times(memory, fd, atim, mtim, fst_flags),
        Call::FdPread {
            fd,
            iovs,
            iovs_len,
            offset,
        } => context.fd_pread(memory, fd, iovs, iovs_len, offset),
        Call::FdPrestatGet { fd } => context.fd_prestat_get(memory, fd),
        Call::FdPrestatDirName { fd, path, path_len } => {
            context.fd_prestat_dir_name(memory, fd, path, path_len)
        }
        Call::FdPwrite {
            fd,
            iovs,
            iovs_len,
            offset,
        } => context.fd_pwrite(memory, fd, iovs, iovs_len, offset),
        Call::FdRead { fd, iovs, iovs_len } => context.fd_read(memory, fd, iovs, iovs_len),
        Call::FdReaddir {
            fd,
            buf,
            buf_len,
            cookie,
        } => context.fd_readdir(memory, fd, buf, buf_len, cookie),
        Call::FdRenumber { from, to } => context.fd_renumber(memory, from, to),
        Call::FdSeek { fd, offset, whence } => context.fd_seek(memory, fd, offset, whence),
        Call::FdTell { fd } => context.fd_tell(memory, fd),
        Call::FdWrite { fd, iovs, iovs_len } => context.fd_write(memory, fd, iovs, iovs_len),
        Call::PathCreateDirectory { fd, path, path_len } => {
            context.path_create_directory(memory, fd, path, path_len)
        }
        Call::PathFilestatGet {
            fd,
            flags,
            path,
            path_len,
        } => context.path_filestat_get(memory, fd, flags, path, path_len),
        Call::PathFilestatSetTimes {
            fd,
            flags,
            path,
            path_len,
            atim,
            mtim,
            fst_flags,
        } => context.path_filestat_set_times(
            memory, fd, flags, path, path_len, atim, mtim, fst_flags,
        ),
        Call::PathLink {
            old_fd,
            old_flags,
            old_path,
            old_path_len,
            new_fd,
            new_path,
            new_path_len,
        } => context.path_link(
            memory,
            old_fd,
            old_flags,
            old_path,
            old_path_len,
            new_fd,
            new_path,
            new_path_len,
        ),
        Call::PathOpen {
            fd,
            dirflags,
            path,
            path_len,
            oflags,
            base,
            inheriting,
            fdflags,
        } => context.path_open(
            memory, fd, dirflags, path, path_len, oflags, base, inheriting, fdflags,
        ),
        Call::PathReadlink {
            fd,
            path,
            path_len,
            buf,
            buf_len,
        } => context.path_readlink(memory, fd, path, path_len, buf, buf_len),
        Call::PathRemoveDirectory { fd, path, path_len } => {
            context.path_remove_directory(memory, fd, path, path_len)
        }
        Call::PathUnlinkFile { fd, path, path_len } => {
            context.path_unlink_file(memory, fd, path, path_len)
        }
        Call::PathRename {
            old_fd,
            old_path,
            old_path_len,
            new_fd,
            new_path,
            new_path_len,
        } => context.path_rename(
            memory,
            old_fd,
            old_path,
            old_path_len,
            new_fd,
            new_path,
            new_path_len,
        ),
        Call::PathSymlink {
            old_path,
            old_path_len,
            fd,
            new_path,
            new_path_len,
        } => context.path_symlink(memory, old_path, old_path_len, fd, new_path, new_path_len),
        Call::PollOneoff {
            subscriptions,
            events,
            count,
        } => context.poll_oneoff(memory, subscriptions, events, count),
        Call::ProcExit { status } => context.proc_exit(memory, status),
        Call::ProcRaise { signal } => context.proc_raise(memory, signal),
        Call::RandomGet { buf, buf_len } => context.random_get(memory, buf, buf_len),
        Call::SchedYield => context.sched_yield(memory),
        Call::SockAccept { fd, flags } => context.sock_accept(memory, fd, flags),
        Call::SockRecv {
            fd,
            iovs,
            iovs_len,
            ri_flags,
        } => context.sock_recv(memory, fd, iovs, iovs_len, ri_flags),
        Call::SockSend {
            fd,
            iovs,
            iovs_len,
            si_flags,
        } => context.sock_send(memory, fd, iovs, iovs_len, si_flags),
        Call::SockShutdown { fd, how } => context.sock_shutdown(memory, fd, how),
    }
}

/// How many bytes a subscription has in memory.
const SUBSCRIPTION: u32 = Subscription::SIZE as u32;

/// The numbers of the descriptors that a call names, in the order of its arguments. A number may come twice, and no
/// descriptor need be open under it. For `poll_oneoff` they are those of its subscriptions that wait to read or to
/// write, in the order of guest memory; a subscription that can't be read there names none. Calls on arguments, clocks,
/// random bytes and the process name none. AllocError where memory for these numbers is wanted.
pub fn named(alloc: Global, call: &Call, memory: &GuestMemory) -> Result<Vec<u32>, AllocError>
    ensures numbers { IfOk result (λ numbers. numbers.items ≡ descriptors_named memory.now call.now) }
{
    match *call {
        // One number: calls on a file's bytes,
        Call::FdAdvise { fd, .. }
        | Call::FdAllocate { fd, .. }
        | Call::FdDatasync { fd }
        | Call::FdSync { fd }
        | Call::FdPread { fd, .. }
        | Call::FdPwrite { fd, .. }
        | Call::FdRead { fd, .. }
        | Call::FdWrite { fd, .. }
        | Call::FdSeek { fd, .. }
        | Call::FdTell { fd } => one(alloc, fd),

        // on a descriptor and what it refers to,
        Call::FdClose { fd }
        | Call::FdFdstatGet { fd }
        | Call::FdFdstatSetFlags { fd, .. }
        | Call::FdFdstatSetRights { fd, .. }
        | Call::FdFilestatGet { fd }
        | Call::FdFilestatSetSize { fd, .. }
        | Call::FdFilestatSetTimes { fd, .. }
        | Call::FdPrestatGet { fd }
        | Call::FdPrestatDirName { fd, .. }
        | Call::FdReaddir { fd, .. } => one(alloc, fd),

        // on a path from a directory,
        Call::PathCreateDirectory { fd, .. }
        | Call::PathFilestatGet { fd, .. }
        | Call::PathFilestatSetTimes { fd, .. }
        | Call::PathOpen { fd, .. }
        | Call::PathReadlink { fd, .. }
        | Call::PathRemoveDirectory { fd, .. }
        | Call::PathUnlinkFile { fd, .. }
        | Call::PathSymlink { fd, .. } => one(alloc, fd),

        // and on a socket.
        Call::SockAccept { fd, .. }
        | Call::SockRecv { fd, .. }
        | Call::SockSend { fd, .. }
        | Call::SockShutdown { fd, .. } => one(alloc, fd),

        // Two numbers.
        Call::FdRenumber { from, to } => two(alloc, from, to),
        Call::PathLink { old_fd, new_fd, .. } | Call::PathRename { old_fd, new_fd, .. } => {
            two(alloc, old_fd, new_fd)
        }

        // Those that stand in guest memory.
        Call::PollOneoff {
            subscriptions,
            count,
            ..
        } => waited_for(alloc, memory, subscriptions, count),

        // None: calls on arguments, clocks, random bytes and the process.
        _ => Ok(Vec::new(alloc)),
    }
}

/// A list of one number.
fn one(alloc: Global, fd: u32) -> Result<Vec<u32>, AllocError>
    ensures { IfOk result (λ numbers. numbers.items ≡ fd ∷ []) }
{
    Ok(vec![in alloc; fd]?)
}

/// A list of two.
fn two(alloc: Global, first: u32, second: u32) -> Result<Vec<u32>, AllocError>
    ensures { IfOk result (λ numbers. numbers.items ≡ first ∷ second ∷ []) }
{
    Ok(vec![in alloc; first, second]?)
}

/// The numbers of the descriptors that are waited for by so many subscriptions at an address. It reads those alone that
/// lie in memory, however large the count is.
fn waited_for(
    alloc: Global,
    memory: &GuestMemory,
    at: u32,
    count: u32,
) -> Result<Vec<u32>, AllocError>
    ensures { IfOk result (λ numbers. numbers.items ≡ waited_for memory.now at count) }
{
    let within = memory.len().saturating_sub(at) / SUBSCRIPTION;
    let mut numbers = Vec::new(alloc);
    for i in 0..count.min(within) {
        if let Some(fd) = awaited_at(memory, at + SUBSCRIPTION * i) {
            numbers.push(fd)?;
        }
    }
    Ok(numbers)
}

/// The number of the descriptor that the subscription at an address waits for.
fn awaited_at(memory: &GuestMemory, at: u32) -> Option<u32>
    ensures { option_to_list result ≡ named_in (subscription_in memory.now at) }
{
    match memory.read_subscription(at).ok()?.what {
        SubscriptionKind::Clock { .. } => None,
        SubscriptionKind::FdRead { fd } | SubscriptionKind::FdWrite { fd } => Some(fd),
    }
}

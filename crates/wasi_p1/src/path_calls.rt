//! The calls on paths below a directory.
ghost use Rattle.wasi_guest.specs.declared.call.Call.TheVariants.{PathCreateDirectory, PathFilestatGet, PathFilestatSetTimes, PathLink, PathOpen, PathReadlink, PathRemoveDirectory, PathRename, PathSymlink, PathUnlinkFile};
ghost use Rattle.wasi_p1_model.specs.Method.{KeepsHostLaws, MeetsSpec};

use crate::ctx::WasiP1Ctx;
use wasi_guest::Value;
use wasi_host::Host;
use wasi_p1_path_calls::opening::path_open;
use wasi_p1_path_calls::path_ops::{
    path_create_directory, path_filestat_get, path_readlink, path_remove_directory, path_symlink,
    path_unlink_file,
};
use wasi_p1_path_calls::times::path_filestat_set_times;
use wasi_p1_path_calls::two_paths::{path_link, path_rename};
use wasi_p1_types::P1Error;

impl<H: Host> WasiP1Ctx<H> {
    /// Opens the path in a range of memory from the directory of a descriptor, and answers the number of the new
    /// descriptor, as POSIX's `openat`. The permissions are that directory's, and a file's position is 0. Refusals:
    /// docs/calls.md.
    pub fn path_open(
        &mut self,
        memory: &mut [u8],
        fd: u32,
        dirflags: u32,
        path: u32,
        path_len: u32,
        oflags: u32,
        base: u64,
        inheriting: u64,
        fdflags: u32,
    ) -> Result<Value, P1Error>
        ensures host_laws { KeepsHostLaws H.Host self.old self.new memory.old
            (PathOpen fd dirflags path path_len oflags base inheriting fdflags) result }
        ensures spec { MeetsSpec H.Host self.old self.new memory.old memory.new
            (PathOpen fd dirflags path path_len oflags base inheriting fdflags) result }
    {
        path_open(
            &mut self.state,
            memory,
            fd,
            dirflags,
            path,
            path_len,
            oflags,
            base,
            inheriting,
            fdflags,
        )
    }

    /// Makes an empty directory at the path in a range of memory, from the directory of a descriptor, as POSIX's
    /// `mkdirat`. Refusals: docs/calls.md.
    pub fn path_create_directory(
        &mut self,
        memory: &mut [u8],
        fd: u32,
        path: u32,
        path_len: u32,
    ) -> Result<Value, P1Error>
        ensures host_laws { KeepsHostLaws H.Host self.old self.new memory.old
            (PathCreateDirectory fd path path_len) result }
        ensures spec { MeetsSpec H.Host self.old self.new memory.old memory.new
            (PathCreateDirectory fd path path_len) result }
    {
        path_create_directory(&mut self.state, memory, fd, path, path_len)
    }

    /// Removes the empty directory at the path in a range of memory, from the directory of a descriptor, as POSIX's
    /// `unlinkat` with `AT_REMOVEDIR`. Refusals: docs/calls.md.
    pub fn path_remove_directory(
        &mut self,
        memory: &mut [u8],
        fd: u32,
        path: u32,
        path_len: u32,
    ) -> Result<Value, P1Error>
        ensures host_laws { KeepsHostLaws H.Host self.old self.new memory.old
            (PathRemoveDirectory fd path path_len) result }
        ensures spec { MeetsSpec H.Host self.old self.new memory.old memory.new
            (PathRemoveDirectory fd path path_len) result }
    {
        path_remove_directory(&mut self.state, memory, fd, path, path_len)
    }

    /// Removes the name of a file or link at the path in a range of memory, from the directory of a descriptor, as
    /// POSIX's `unlinkat`. A link isn't followed. Refusals: docs/calls.md.
    pub fn path_unlink_file(
        &mut self,
        memory: &mut [u8],
        fd: u32,
        path: u32,
        path_len: u32,
    ) -> Result<Value, P1Error>
        ensures host_laws { KeepsHostLaws H.Host self.old self.new memory.old (PathUnlinkFile fd path path_len) result }
        ensures spec { MeetsSpec H.Host self.old self.new memory.old memory.new
            (PathUnlinkFile fd path path_len) result }
    {
        path_unlink_file(&mut self.state, memory, fd, path, path_len)
    }

    /// Makes a link with the text in one range of memory at the path in another, from the directory of a descriptor, as
    /// POSIX's `symlinkat`. Refusals: docs/calls.md.
    pub fn path_symlink(
        &mut self,
        memory: &mut [u8],
        old_path: u32,
        old_path_len: u32,
        fd: u32,
        new_path: u32,
        new_path_len: u32,
    ) -> Result<Value, P1Error>
        ensures host_laws { KeepsHostLaws H.Host self.old self.new memory.old
            (PathSymlink old_path old_path_len fd new_path new_path_len) result }
        ensures spec { MeetsSpec H.Host self.old self.new memory.old memory.new
            (PathSymlink old_path old_path_len fd new_path new_path_len) result }
    {
        path_symlink(
            &mut self.state,
            memory,
            old_path,
            old_path_len,
            fd,
            new_path,
            new_path_len,
        )
    }

    /// Writes the text of the link at the path in a range of memory into a buffer, as far as it fits, and answers how
    /// many bytes were written, as POSIX's `readlinkat`. Refusals: docs/calls.md.
    pub fn path_readlink(
        &mut self,
        memory: &mut [u8],
        fd: u32,
        path: u32,
        path_len: u32,
        buf: u32,
        buf_len: u32,
    ) -> Result<Value, P1Error>
        ensures host_laws { KeepsHostLaws H.Host self.old self.new memory.old
            (PathReadlink fd path path_len buf buf_len) result }
        ensures spec { MeetsSpec H.Host self.old self.new memory.old memory.new
            (PathReadlink fd path path_len buf buf_len) result }
    {
        path_readlink(&mut self.state, memory, fd, path, path_len, buf, buf_len)
    }

    /// Answers the metadata of the node that the path in a range of memory names, from the directory of a descriptor,
    /// as POSIX's `fstatat`. Refusals: docs/calls.md.
    pub fn path_filestat_get(
        &mut self,
        memory: &mut [u8],
        fd: u32,
        flags: u32,
        path: u32,
        path_len: u32,
    ) -> Result<Value, P1Error>
        ensures host_laws { KeepsHostLaws H.Host self.old self.new memory.old
            (PathFilestatGet fd flags path path_len) result }
        ensures spec { MeetsSpec H.Host self.old self.new memory.old memory.new
            (PathFilestatGet fd flags path path_len) result }
    {
        path_filestat_get(&mut self.state, memory, fd, flags, path, path_len)
    }

    /// Sets the times of the last read and the last change of the node that the path in a range of memory names, in
    /// nanoseconds since the epoch, as POSIX's `utimensat`. Refusals: docs/calls.md.
    pub fn path_filestat_set_times(
        &mut self,
        memory: &mut [u8],
        fd: u32,
        flags: u32,
        path: u32,
        path_len: u32,
        atim: u64,
        mtim: u64,
        fst_flags: u32,
    ) -> Result<Value, P1Error>
        ensures host_laws { KeepsHostLaws H.Host self.old self.new memory.old
            (PathFilestatSetTimes fd flags path path_len atim mtim fst_flags) result }
        ensures spec { MeetsSpec H.Host self.old self.new memory.old memory.new
            (PathFilestatSetTimes fd flags path path_len atim mtim fst_flags) result }
    {
        path_filestat_set_times(
            &mut self.state,
            memory,
            fd,
            flags,
            path,
            path_len,
            atim,
            mtim,
            fst_flags,
        )
    }

    /// Gives the file or link under the path in one range of memory a further name, the path in another, as POSIX's
    /// `linkat`. Each path begins at the directory of a descriptor of its own. Refusals: docs/calls.md.
    pub fn path_link(
        &mut self,
        memory: &mut [u8],
        old_fd: u32,
        old_flags: u32,
        old_path: u32,
        old_path_len: u32,
        new_fd: u32,
        new_path: u32,
        new_path_len: u32,
    ) -> Result<Value, P1Error>
        ensures host_laws { KeepsHostLaws H.Host self.old self.new memory.old
            (PathLink old_fd old_flags old_path old_path_len new_fd new_path new_path_len) result }
        ensures spec { MeetsSpec H.Host self.old self.new memory.old memory.new
            (PathLink old_fd old_flags old_path old_path_len new_fd new_path new_path_len) result }
    {
        path_link(
            &mut self.state,
            memory,
            old_fd,
            old_flags,
            old_path,
            old_path_len,
            new_fd,
            new_path,
            new_path_len,
        )
    }

    /// Moves what is under the path in one range of memory to the path in another, as POSIX's `renameat`. Each path
    /// begins at the directory of a descriptor of its own. Refusals: docs/calls.md.
    pub fn path_rename(
        &mut self,
        memory: &mut [u8],
        old_fd: u32,
        old_path: u32,
        old_path_len: u32,
        new_fd: u32,
        new_path: u32,
        new_path_len: u32,
    ) -> Result<Value, P1Error>
        ensures host_laws { KeepsHostLaws H.Host self.old self.new memory.old
            (PathRename old_fd old_path old_path_len new_fd new_path new_path_len) result }
        ensures spec { MeetsSpec H.Host self.old self.new memory.old memory.new
            (PathRename old_fd old_path old_path_len new_fd new_path new_path_len) result }
    {
        path_rename(
            &mut self.state,
            memory,
            old_fd,
            old_path,
            old_path_len,
            new_fd,
            new_path,
            new_path_len,
        )
    }
}

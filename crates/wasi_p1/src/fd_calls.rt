//! The calls on descriptors, and on what they refer to.
ghost use Rattle.wasi_guest.specs.declared.call.Call.TheVariants.{FdClose, FdFdstatGet, FdFdstatSetFlags, FdFdstatSetRights, FdFilestatGet, FdFilestatSetTimes, FdPrestatDirName, FdPrestatGet, FdReaddir, FdRenumber};
ghost use Rattle.wasi_p1_model.specs.Method.{KeepsHostLaws, MeetsSpec};

use crate::ctx::WasiP1Ctx;
use wasi_guest::Value;
use wasi_host::Host;
use wasi_p1_fd_calls::descriptors::{
    fd_close, fd_fdstat_get, fd_fdstat_set_flags, fd_fdstat_set_rights, fd_filestat_get,
    fd_prestat_dir_name, fd_prestat_get, fd_renumber,
};
use wasi_p1_fd_calls::listing::fd_readdir;
use wasi_p1_fd_calls::times::fd_filestat_set_times;
use wasi_p1_types::P1Error;

impl<H: Host> WasiP1Ctx<H> {
    /// Closes a descriptor. Its number may be used again. Refusals: docs/calls.md.
    pub fn fd_close(&mut self, memory: &mut [u8], fd: u32) -> Result<Value, P1Error>
        ensures host_laws { KeepsHostLaws H.Host self.old self.new memory.old (FdClose fd) result }
        ensures spec { MeetsSpec H.Host self.old self.new memory.old memory.new (FdClose fd) result }
    {
        fd_close(&mut self.state, memory, fd)
    }

    /// Answers a descriptor's type, its flags and its rights. Refusals: docs/calls.md.
    pub fn fd_fdstat_get(&mut self, memory: &mut [u8], fd: u32) -> Result<Value, P1Error>
        ensures host_laws { KeepsHostLaws H.Host self.old self.new memory.old (FdFdstatGet fd) result }
        ensures spec { MeetsSpec H.Host self.old self.new memory.old memory.new (FdFdstatGet fd) result }
    {
        fd_fdstat_get(&mut self.state, memory, fd)
    }

    /// Sets the flags of a file's descriptor: append mode, and nonblock, which changes nothing. Refusals:
    /// docs/calls.md.
    pub fn fd_fdstat_set_flags(
        &mut self,
        memory: &mut [u8],
        fd: u32,
        flags: u32,
    ) -> Result<Value, P1Error>
        ensures host_laws { KeepsHostLaws H.Host self.old self.new memory.old (FdFdstatSetFlags fd flags) result }
        ensures spec { MeetsSpec H.Host self.old self.new memory.old memory.new (FdFdstatSetFlags fd flags) result }
    {
        fd_fdstat_set_flags(&mut self.state, memory, fd, flags)
    }

    /// Is refused, as the crate refuses it: a descriptor's rights stay. Refusals: docs/calls.md.
    pub fn fd_fdstat_set_rights(
        &mut self,
        memory: &mut [u8],
        fd: u32,
        base: u64,
        inheriting: u64,
    ) -> Result<Value, P1Error>
        ensures host_laws { KeepsHostLaws H.Host self.old self.new memory.old
            (FdFdstatSetRights fd base inheriting) result }
        ensures spec { MeetsSpec H.Host self.old self.new memory.old memory.new
            (FdFdstatSetRights fd base inheriting) result }
    {
        fd_fdstat_set_rights(&mut self.state, memory, fd, base, inheriting)
    }

    /// Answers the metadata of what a descriptor refers to, as POSIX's `fstat`; zeros for a standard stream. Refusals:
    /// docs/calls.md.
    pub fn fd_filestat_get(&mut self, memory: &mut [u8], fd: u32) -> Result<Value, P1Error>
        ensures host_laws { KeepsHostLaws H.Host self.old self.new memory.old (FdFilestatGet fd) result }
        ensures spec { MeetsSpec H.Host self.old self.new memory.old memory.new (FdFilestatGet fd) result }
    {
        fd_filestat_get(&mut self.state, memory, fd)
    }

    /// Answers how many bytes a preopen's name has. Refusals: docs/calls.md.
    pub fn fd_prestat_get(&mut self, memory: &mut [u8], fd: u32) -> Result<Value, P1Error>
        ensures host_laws { KeepsHostLaws H.Host self.old self.new memory.old (FdPrestatGet fd) result }
        ensures spec { MeetsSpec H.Host self.old self.new memory.old memory.new (FdPrestatGet fd) result }
    {
        fd_prestat_get(&mut self.state, memory, fd)
    }

    /// Writes a preopen's name into a range of memory. Refusals: docs/calls.md.
    pub fn fd_prestat_dir_name(
        &mut self,
        memory: &mut [u8],
        fd: u32,
        path: u32,
        path_len: u32,
    ) -> Result<Value, P1Error>
        ensures host_laws { KeepsHostLaws H.Host self.old self.new memory.old (FdPrestatDirName fd path path_len) result }
        ensures spec { MeetsSpec H.Host self.old self.new memory.old memory.new
            (FdPrestatDirName fd path path_len) result }
    {
        fd_prestat_dir_name(&mut self.state, memory, fd, path, path_len)
    }

    /// Closes what `to` refers to, and gives the descriptor `from` its number, as POSIX's `dup2` and a close of `from`.
    /// Refusals: docs/calls.md.
    pub fn fd_renumber(&mut self, memory: &mut [u8], from: u32, to: u32) -> Result<Value, P1Error>
        ensures host_laws { KeepsHostLaws H.Host self.old self.new memory.old (FdRenumber from to) result }
        ensures spec { MeetsSpec H.Host self.old self.new memory.old memory.new (FdRenumber from to) result }
    {
        fd_renumber(&mut self.state, memory, from, to)
    }

    /// Writes the records of a directory's entries, in byte order of their names, from a cookie on into a buffer, as
    /// far as they fit, and answers how many bytes it wrote. Fewer than the buffer has say that none are left.
    /// Refusals: docs/calls.md.
    pub fn fd_readdir(
        &mut self,
        memory: &mut [u8],
        fd: u32,
        buf: u32,
        buf_len: u32,
        cookie: u64,
    ) -> Result<Value, P1Error>
        ensures host_laws { KeepsHostLaws H.Host self.old self.new memory.old (FdReaddir fd buf buf_len cookie) result }
        ensures spec { MeetsSpec H.Host self.old self.new memory.old memory.new
            (FdReaddir fd buf buf_len cookie) result }
    {
        fd_readdir(&mut self.state, memory, fd, buf, buf_len, cookie)
    }

    /// Sets the times of the last read and the last change of what a descriptor refers to, in nanoseconds since the
    /// epoch, as POSIX's `futimens`. Refusals: docs/calls.md.
    pub fn fd_filestat_set_times(
        &mut self,
        memory: &mut [u8],
        fd: u32,
        atim: u64,
        mtim: u64,
        fst_flags: u32,
    ) -> Result<Value, P1Error>
        ensures host_laws { KeepsHostLaws H.Host self.old self.new memory.old
            (FdFilestatSetTimes fd atim mtim fst_flags) result }
        ensures spec { MeetsSpec H.Host self.old self.new memory.old memory.new
            (FdFilestatSetTimes fd atim mtim fst_flags) result }
    {
        fd_filestat_set_times(&mut self.state, memory, fd, atim, mtim, fst_flags)
    }
}

//! The calls on the bytes, the position, the size and the storing of an open file.
ghost use Rattle.wasi_guest.specs.declared.call.Call.TheVariants.{FdAdvise, FdAllocate, FdDatasync, FdFilestatSetSize, FdPread, FdPwrite, FdRead, FdSeek, FdSync, FdTell, FdWrite};
ghost use Rattle.wasi_p1_model.specs.Method.{KeepsHostLaws, MeetsSpec};

use crate::ctx::WasiP1Ctx;
use wasi_guest::Value;
use wasi_host::Host;
use wasi_p1_file_calls::positions_and_sizes::{
    fd_advise, fd_allocate, fd_datasync, fd_filestat_set_size, fd_seek, fd_sync, fd_tell,
};
use wasi_p1_file_calls::reading_and_writing::{fd_pread, fd_pwrite, fd_read, fd_write};
use wasi_p1_types::P1Error;

impl<H: Host> WasiP1Ctx<H> {
    /// Tells the host how `len` bytes of a file from `offset` on will be used, as POSIX's `posix_fadvise`. Nothing
    /// changes. Refusals: docs/calls.md.
    pub fn fd_advise(
        &mut self,
        memory: &mut [u8],
        fd: u32,
        offset: u64,
        len: u64,
        advice: u32,
    ) -> Result<Value, P1Error>
        ensures host_laws { KeepsHostLaws H.Host self.old self.new memory.old (FdAdvise fd offset len advice) result }
        ensures spec { MeetsSpec H.Host self.old self.new memory.old memory.new
            (FdAdvise fd offset len advice) result }
    {
        fd_advise(&mut self.state, memory, fd, offset, len, advice)
    }

    /// Is refused, as the crate refuses it: no room is made for a file beforehand. Refusals: docs/calls.md.
    pub fn fd_allocate(
        &mut self,
        memory: &mut [u8],
        fd: u32,
        offset: u64,
        len: u64,
    ) -> Result<Value, P1Error>
        ensures host_laws { KeepsHostLaws H.Host self.old self.new memory.old (FdAllocate fd offset len) result }
        ensures spec { MeetsSpec H.Host self.old self.new memory.old memory.new (FdAllocate fd offset len) result }
    {
        fd_allocate(&mut self.state, memory, fd, offset, len)
    }

    /// Waits until a file's bytes are stored, as POSIX's `fdatasync`. Refusals: docs/calls.md.
    pub fn fd_datasync(&mut self, memory: &mut [u8], fd: u32) -> Result<Value, P1Error>
        ensures host_laws { KeepsHostLaws H.Host self.old self.new memory.old (FdDatasync fd) result }
        ensures spec { MeetsSpec H.Host self.old self.new memory.old memory.new (FdDatasync fd) result }
    {
        fd_datasync(&mut self.state, memory, fd)
    }

    /// Waits until a file's bytes and its metadata are stored, as POSIX's `fsync`. Refusals: docs/calls.md.
    pub fn fd_sync(&mut self, memory: &mut [u8], fd: u32) -> Result<Value, P1Error>
        ensures host_laws { KeepsHostLaws H.Host self.old self.new memory.old (FdSync fd) result }
        ensures spec { MeetsSpec H.Host self.old self.new memory.old memory.new (FdSync fd) result }
    {
        fd_sync(&mut self.state, memory, fd)
    }

    /// Cuts a file to `size` bytes, or fills it up to them with zeros, as POSIX's `ftruncate`. Its position stays.
    /// Refusals: docs/calls.md.
    pub fn fd_filestat_set_size(
        &mut self,
        memory: &mut [u8],
        fd: u32,
        size: u64,
    ) -> Result<Value, P1Error>
        ensures host_laws { KeepsHostLaws H.Host self.old self.new memory.old (FdFilestatSetSize fd size) result }
        ensures spec { MeetsSpec H.Host self.old self.new memory.old memory.new (FdFilestatSetSize fd size) result }
    {
        fd_filestat_set_size(&mut self.state, memory, fd, size)
    }

    /// Sets a file's position to `offset` bytes from what `whence` names, and answers it, as POSIX's `lseek`. It may be
    /// past the end. Refusals: docs/calls.md.
    pub fn fd_seek(
        &mut self,
        memory: &mut [u8],
        fd: u32,
        offset: i64,
        whence: u32,
    ) -> Result<Value, P1Error>
        ensures host_laws { KeepsHostLaws H.Host self.old self.new memory.old (FdSeek fd offset whence) result }
        ensures spec { MeetsSpec H.Host self.old self.new memory.old memory.new (FdSeek fd offset whence) result }
    {
        fd_seek(&mut self.state, memory, fd, offset, whence)
    }

    /// Answers a file's position. Refusals: docs/calls.md.
    pub fn fd_tell(&mut self, memory: &mut [u8], fd: u32) -> Result<Value, P1Error>
        ensures host_laws { KeepsHostLaws H.Host self.old self.new memory.old (FdTell fd) result }
        ensures spec { MeetsSpec H.Host self.old self.new memory.old memory.new (FdTell fd) result }
    {
        fd_tell(&mut self.state, memory, fd)
    }

    /// Reads a file's bytes from `offset` on into the first buffer of a list that isn't empty, and answers how many, at
    /// most 65,536, as POSIX's `pread`. The position stays. Refusals: docs/calls.md.
    pub fn fd_pread(
        &mut self,
        memory: &mut [u8],
        fd: u32,
        iovs: u32,
        iovs_len: u32,
        offset: u64,
    ) -> Result<Value, P1Error>
        ensures host_laws { KeepsHostLaws H.Host self.old self.new memory.old (FdPread fd iovs iovs_len offset) result }
        ensures spec { MeetsSpec H.Host self.old self.new memory.old memory.new
            (FdPread fd iovs iovs_len offset) result }
    {
        fd_pread(&mut self.state, memory, fd, iovs, iovs_len, offset)
    }

    /// Writes the first buffer of a list that isn't empty into a file from `offset` on, in append mode at its end, and
    /// answers how many bytes it took, as POSIX's `pwrite`. The position stays. Refusals: docs/calls.md.
    pub fn fd_pwrite(
        &mut self,
        memory: &mut [u8],
        fd: u32,
        iovs: u32,
        iovs_len: u32,
        offset: u64,
    ) -> Result<Value, P1Error>
        ensures host_laws { KeepsHostLaws H.Host self.old self.new memory.old (FdPwrite fd iovs iovs_len offset) result }
        ensures spec { MeetsSpec H.Host self.old self.new memory.old memory.new
            (FdPwrite fd iovs iovs_len offset) result }
    {
        fd_pwrite(&mut self.state, memory, fd, iovs, iovs_len, offset)
    }

    /// Reads a file's bytes at its position, or the next ones of standard input, into the first buffer of a list that
    /// isn't empty, and answers how many, as POSIX's `read`. Refusals: docs/calls.md.
    pub fn fd_read(
        &mut self,
        memory: &mut [u8],
        fd: u32,
        iovs: u32,
        iovs_len: u32,
    ) -> Result<Value, P1Error>
        ensures host_laws { KeepsHostLaws H.Host self.old self.new memory.old (FdRead fd iovs iovs_len) result }
        ensures spec { MeetsSpec H.Host self.old self.new memory.old memory.new (FdRead fd iovs iovs_len) result }
    {
        fd_read(&mut self.state, memory, fd, iovs, iovs_len)
    }

    /// Writes the first buffer of a list that isn't empty into a file at its position, in append mode at its end, or to
    /// a standard output, and answers how many bytes it took, as POSIX's `write`. Refusals: docs/calls.md.
    pub fn fd_write(
        &mut self,
        memory: &mut [u8],
        fd: u32,
        iovs: u32,
        iovs_len: u32,
    ) -> Result<Value, P1Error>
        ensures host_laws { KeepsHostLaws H.Host self.old self.new memory.old (FdWrite fd iovs iovs_len) result }
        ensures spec { MeetsSpec H.Host self.old self.new memory.old memory.new (FdWrite fd iovs iovs_len) result }
    {
        fd_write(&mut self.state, memory, fd, iovs, iovs_len)
    }
}

//! The calls of a view that read and write a file's bytes.
ghost use Rattle.std.specs.Prelude.{◌≡◌, true, IfOk, OnErr};
ghost use Rattle.std.specs.FinSet.{contains};
ghost use Rattle.std.specs.Result.{result_map_both};
ghost use Rattle.wasi_streams.specs.Reading.{host_seen, HasRead};
ghost use Rattle.wasi_p2_calls.specs.FileBytes.{is_none_left, ReadsFile, WritesFile};
ghost use Rattle.wasi_p2_calls.specs.Views.{FilesOwned, files_of};

use crate::lookup::{file_at, writable_at};
use crate::types::ErrorCode;
use crate::{FsError, FsResult, ReadResult, WasiFilesystemCtxView};
use std::alloc::{AllocError, Global};
use wasi_fs::Act;
use wasi_host::{Handle, Host};
use wasi_streams::{MAX_READ_SIZE_ALLOC, Resource};

/// One read of at most `len` and at most 65,536 bytes of a file from `offset` on. Memory is taken before the host is
/// asked.
fn read_bytes<H: Host>(
    alloc: Global,
    host: &mut H,
    file: Handle,
    len: u64,
    offset: u64,
) -> Result<Result<Vec<u8>, wasi_host::ErrorCode>, AllocError>
    requires live { contains (H.live host.old) file ≡ true }
    ensures same { OnErr result (host.new ≡ host.old) }
    ensures reads { IfOk result (λ reply. HasRead H.modelled
        (host_seen H.faults H.live H.lookups H.model host.old)
        (host_seen H.faults H.live H.lookups H.model host.new)
        file offset len (result_map_both (λ bytes. bytes.items) (λ code. code) reply)) }
{
    let mut bytes = vec![in alloc; 0; len.min(MAX_READ_SIZE_ALLOC as u64) as usize]?;
    let count = match host.pread(file, &mut bytes, offset) {
        Ok(count) => count,
        Err(code) => return Ok(Err(code)),
    };
    bytes.truncate(count);
    Ok(Ok(bytes))
}

/// Bytes that were read, and whether they are none.
fn with_end(bytes: Vec<u8>) -> ReadResult
    ensures bytes { result.bytes.items ≡ bytes.items }
    ensures end { result.end ≡ is_none_left bytes.items }
{
    let end = bytes.is_empty();
    ReadResult { bytes, end }
}

/// Each call makes one call of the host, of a file. Refusals: a trap where the resource is missing or no descriptor,
/// BadDescriptor of a directory; then those of that call.
impl<'a, H: Host> WasiFilesystemCtxView<'a, H> {
    /// The bytes of a file from `offset` on that one `pread` of at most `len` and at most 65,536 bytes gives, and
    /// whether it gave none. Memory for them is taken first.
    #[tactic(auto, using(crate::proofs::Owning::has_lives))]
    pub fn read(&mut self, fd: Resource, len: u64, offset: u64) -> FsResult<ReadResult>
        requires owned { FilesOwned H.Host (files_of self.old.ctx.now self.old.table.now) }
        ensures same_ctx { self.new.ctx.ghost_name ≡ self.old.ctx.ghost_name }
        ensures same_table { self.new.table.ghost_name ≡ self.old.table.ghost_name }
        ensures call { ReadsFile H.Host (files_of self.old.ctx.now self.old.table.now)
            (files_of self.new.ctx.now self.new.table.now) fd.number len offset result }
    {
        let file = file_at(self.table, fd)?;
        let reply = read_bytes(self.ctx.alloc, &mut self.ctx.host, file.file, len, offset)?;
        let bytes = reply?;
        Ok(with_end(bytes))
    }

    /// Puts bytes into a file from `offset` on by one `pwrite` of all of them, and answers how many it took. Refusals
    /// besides: NotPermitted unless its permissions are read-write, of which no host is asked; Io where that took nothing
    /// of some bytes.
    #[tactic(auto, using(crate::proofs::Owning::has_lives))]
    pub fn write(&mut self, fd: Resource, buf: &[u8], offset: u64) -> FsResult<u64>
        requires owned { FilesOwned H.Host (files_of self.old.ctx.now self.old.table.now) }
        ensures same_ctx { self.new.ctx.ghost_name ≡ self.old.ctx.ghost_name }
        ensures same_table { self.new.table.ghost_name ≡ self.old.table.ghost_name }
        ensures call { WritesFile H.Host (files_of self.old.ctx.now self.old.table.now)
            (files_of self.new.ctx.now self.new.table.now) fd.number buf.now offset result }
    {
        let file = writable_at(self.table, fd, Act::Alter)?;
        let count = self.ctx.host.pwrite(file.file, buf, offset)?;
        if count == 0 && !buf.is_empty() {
            return Err(FsError::Code(ErrorCode::Io));
        }
        Ok(count as u64)
    }
}

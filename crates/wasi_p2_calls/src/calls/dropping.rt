//! The calls of a view that take an entry out of its table, or read on in one.
ghost use Rattle.std.specs.Prelude.{◌≡◌};
ghost use Rattle.wasi_p2_calls.specs.Drops.{DropsDescriptor, DropsStream, ReadsNext};
ghost use Rattle.wasi_p2_calls.specs.Views.{FilesOwned, files_of};

use crate::entries::{close_entry, read_next, stream_at, take};
use crate::lookup::descriptor_at;
use crate::types::DirectoryEntry;
use crate::{FsResult, WasiFilesystemCtxView};
use wasi_host::Host;
use wasi_streams::Resource;

/// None of these calls takes memory.
impl<'a, H: Host> WasiFilesystemCtxView<'a, H> {
    /// Takes a descriptor out of the table, and closes its handle. Refusals: a trap where the resource is missing or no
    /// descriptor.
    pub fn drop(&mut self, fd: Resource) -> FsResult<()>
        requires owned { FilesOwned H.Host (files_of self.old.ctx.now self.old.table.now) }
        ensures same_ctx { self.new.ctx.ghost_name ≡ self.old.ctx.ghost_name }
        ensures same_table { self.new.table.ghost_name ≡ self.old.table.ghost_name }
        ensures call { DropsDescriptor H.Host (files_of self.old.ctx.now self.old.table.now)
            (files_of self.new.ctx.now self.new.table.now) fd.number result }
    {
        descriptor_at(self.table, fd)?;
        let entry = take(self.table, fd);
        close_entry(&mut self.ctx.host, entry);
        Ok(())
    }

    /// Takes a stream or a listing out of the table, and closes the stream's handle. Refusals: a trap where the
    /// resource is missing, or is neither.
    pub fn drop_stream(&mut self, stream: Resource) -> FsResult<()>
        requires owned { FilesOwned H.Host (files_of self.old.ctx.now self.old.table.now) }
        ensures same_ctx { self.new.ctx.ghost_name ≡ self.old.ctx.ghost_name }
        ensures same_table { self.new.table.ghost_name ≡ self.old.table.ghost_name }
        ensures call { DropsStream H.Host (files_of self.old.ctx.now self.old.table.now)
            (files_of self.new.ctx.now self.new.table.now) stream.number result }
    {
        stream_at(self.table, stream)?;
        let entry = take(self.table, stream);
        close_entry(&mut self.ctx.host, entry);
        Ok(())
    }

    /// The next entry of a listing, `None` exactly where none is left. Refusals: a trap where the resource is missing
    /// or no listing.
    pub fn read_directory_entry(&mut self, stream: Resource) -> FsResult<Option<DirectoryEntry>>
        requires owned { FilesOwned H.Host (files_of self.old.ctx.now self.old.table.now) }
        ensures same_ctx { self.new.ctx.ghost_name ≡ self.old.ctx.ghost_name }
        ensures same_table { self.new.table.ghost_name ≡ self.old.table.ghost_name }
        ensures call { ReadsNext H.Host (files_of self.old.ctx.now self.old.table.now)
            (files_of self.new.ctx.now self.new.table.now) stream.number result }
    {
        read_next(self.table, stream)
    }
}

//! The calls of a view that put something new into its table.
ghost use Rattle.std.specs.Prelude.{◌≡◌, true, IsTrue, None, IfOk};
ghost use Rattle.std.specs.FinSet.{contains};
ghost use Rattle.wasi_host.specs.Provenance.{HasProvenance, Only, Nothing};
ghost use Rattle.wasi_host.specs.HostLaws.{HasCause};
ghost use Rattle.wasi_resolve.specs.PathRequest.{meant_by};
ghost use Rattle.wasi_resolve.specs.Resolved.{Resolved};
ghost use Rattle.wasi_fs.specs.Calls.{opened_of, open_mode_of, perms_of, opens, GotOpened, IsAsked, LiveOpened, Refuses};
ghost use Rattle.wasi_fs.specs.OpenHow.{may_open, mode_of};
ghost use Rattle.wasi_p2_types.specs.FlagNames.{how_named};
ghost use Rattle.wasi_p2_calls.specs.Opens.{OpensAt, StreamsFrom, StreamsTo, StreamsToOffset, StreamsToEnd, ListsIt, act_of};
ghost use Rattle.wasi_p2_calls.specs.Views.{FilesOwned, files_of};

use crate::entries::{list_names, make_room, put};
use crate::lookup::{directory_at, file_or, writable_at};
use crate::types::{DescriptorFlags, ErrorCode, OpenFlags, PathFlags};
use crate::{FsResult, WasiFilesystemCtxView};
use std::alloc::Global;
use wasi_fs::{Act, Descriptor, Dir};
use wasi_host::{Host, HostError};
use wasi_streams::{Entry, FileInputStream, FileOutputMode, FileOutputStream, Resource};

/// The open of `wasi_fs` below a directory, by preview2's flags.
fn open_below<H: Host>(
    alloc: Global,
    host: &mut H,
    dir: &Dir,
    path_flags: PathFlags,
    path: &str,
    oflags: OpenFlags,
    flags: DescriptorFlags,
) -> Result<Descriptor, HostError>
    requires live { contains (H.live host.old) dir.now.dir ≡ true }
    ensures cause { HasCause (H.faults host.old) (H.faults host.new) result }
    ensures live { LiveOpened (H.live host.old) result (H.live host.new) }
    ensures provenance { HasProvenance (Only dir.now.dir) Nothing (GotOpened result) (H.lookups host.old) (H.lookups host.new) }
    ensures perms { IfOk result (λ d. perms_of d ≡ dir.now.perms) }
    ensures mode { IfOk result (λ d. open_mode_of d ≡ mode_of (how_named path_flags oflags flags)) }
    ensures kind { IfOk result (IsAsked (how_named path_flags oflags flags).directory) }
    ensures permit { Refuses (may_open (how_named path_flags oflags flags) dir.now.perms) result host.old host.new }
    ensures modelled { IsTrue H.modelled → may_open (how_named path_flags oflags flags) dir.now.perms ≡ None
        → Resolved (H.live host.old) (H.model host.old) (H.model host.new) (meant_by (H.model host.old).tree
        (opens ((H.model host.old).held dir.now.dir).node path.now (how_named path_flags oflags flags)))
        (opened_of (H.model host.new).held) result }
{
    let path_flags = wasi_fs::PathFlags::from(path_flags);
    let oflags = wasi_fs::OpenFlags::from(oflags);
    let flags = wasi_fs::DescriptorFlags::from(flags);
    dir.open_at(alloc, host, path_flags, path, oflags, flags)
}

/// Each call makes sure of room for its entry before it asks the host: a trap where the table is full stands after the
/// refusals of its resource, and before those of the lower call. A refusal leaves entries and handles as they were.
impl<'a, H: Host> WasiFilesystemCtxView<'a, H> {
    /// Opens a path below the directory of a resource, as `wasi_fs::Dir::open_at` does. Refusals: a trap where the
    /// resource is missing or no descriptor, NotDirectory of a file; the full table; then those of that call.
    #[tactic(auto, using(crate::proofs::Owning::has_lives))]
    pub fn open_at(
        &mut self,
        fd: Resource,
        path_flags: PathFlags,
        path: &str,
        oflags: OpenFlags,
        flags: DescriptorFlags,
    ) -> FsResult<Resource>
        requires owned { FilesOwned H.Host (files_of self.old.ctx.now self.old.table.now) }
        ensures same_ctx { self.new.ctx.ghost_name ≡ self.old.ctx.ghost_name }
        ensures same_table { self.new.table.ghost_name ≡ self.old.table.ghost_name }
        ensures call { OpensAt H.Host (files_of self.old.ctx.now self.old.table.now)
            (files_of self.new.ctx.now self.new.table.now) fd.number path_flags path.now oflags flags result }
    {
        let dir = directory_at(self.table, fd)?;
        make_room(self.table)?;
        let alloc = self.ctx.alloc;
        let host = &mut self.ctx.host;
        let opened = open_below(alloc, host, &dir, path_flags, path, oflags, flags)?;
        Ok(put(self.table, Entry::Descriptor(opened)))
    }

    /// A stream of a file's bytes from `offset` on. Refusals: a trap where the resource is missing or no descriptor,
    /// IsDirectory of a directory; the full table; then those of a host's `dup`.
    #[tactic(auto, using(crate::proofs::Owning::has_lives))]
    pub fn read_via_stream(&mut self, fd: Resource, offset: u64) -> FsResult<Resource>
        requires owned { FilesOwned H.Host (files_of self.old.ctx.now self.old.table.now) }
        ensures same_ctx { self.new.ctx.ghost_name ≡ self.old.ctx.ghost_name }
        ensures same_table { self.new.table.ghost_name ≡ self.old.table.ghost_name }
        ensures call { StreamsFrom H.Host (files_of self.old.ctx.now self.old.table.now)
            (files_of self.new.ctx.now self.new.table.now) fd.number offset result }
    {
        let file = file_or(self.table, fd, ErrorCode::IsDirectory)?;
        make_room(self.table)?;
        let alloc = self.ctx.alloc;
        let stream = FileInputStream::new(alloc, &mut self.ctx.host, &file, offset)?;
        Ok(put(self.table, Entry::Input(stream)))
    }

    /// A stream of bytes into a file from `offset` on. Refusals: a trap where the resource is missing or no descriptor,
    /// BadDescriptor of a directory, NotPermitted where altering isn't permitted; the full table; then those of a
    /// host's `dup`.
    pub fn write_via_stream(&mut self, fd: Resource, offset: u64) -> FsResult<Resource>
        requires owned { FilesOwned H.Host (files_of self.old.ctx.now self.old.table.now) }
        ensures same_ctx { self.new.ctx.ghost_name ≡ self.old.ctx.ghost_name }
        ensures same_table { self.new.table.ghost_name ≡ self.old.table.ghost_name }
        ensures call { StreamsToOffset H.Host (files_of self.old.ctx.now self.old.table.now)
            (files_of self.new.ctx.now self.new.table.now) fd.number offset result }
    {
        self.stream_to(fd, FileOutputMode::Position(offset))
    }

    /// A stream of bytes after a file's last one. Refusals: those of `write_via_stream`, but NotPermitted where
    /// appending isn't permitted.
    pub fn append_via_stream(&mut self, fd: Resource) -> FsResult<Resource>
        requires owned { FilesOwned H.Host (files_of self.old.ctx.now self.old.table.now) }
        ensures same_ctx { self.new.ctx.ghost_name ≡ self.old.ctx.ghost_name }
        ensures same_table { self.new.table.ghost_name ≡ self.old.table.ghost_name }
        ensures call { StreamsToEnd H.Host (files_of self.old.ctx.now self.old.table.now)
            (files_of self.new.ctx.now self.new.table.now) fd.number result }
    {
        self.stream_to(fd, FileOutputMode::Append)
    }

    /// A stream of bytes into a file by a mode, for `write_via_stream` and `append_via_stream`.
    #[tactic(auto, using(crate::proofs::Owning::has_lives))]
    fn stream_to(&mut self, fd: Resource, mode: FileOutputMode) -> FsResult<Resource>
        requires owned { FilesOwned H.Host (files_of self.old.ctx.now self.old.table.now) }
        ensures same_ctx { self.new.ctx.ghost_name ≡ self.old.ctx.ghost_name }
        ensures same_table { self.new.table.ghost_name ≡ self.old.table.ghost_name }
        ensures call { StreamsTo H.Host (files_of self.old.ctx.now self.old.table.now)
            (files_of self.new.ctx.now self.new.table.now) fd.number mode result }
    {
        let file = writable_at(self.table, fd, act_of(mode))?;
        make_room(self.table)?;
        let stream = FileOutputStream::over(&mut self.ctx.host, &file, mode)?;
        Ok(put(self.table, Entry::Output(stream)))
    }

    /// The names of a directory, to be read one by one. Refusals: a trap where the resource is missing or no
    /// descriptor, NotDirectory of a file; the full table; then those of the resolver's `read_dir`.
    #[tactic(auto, using(crate::proofs::Owning::has_lives))]
    pub fn read_directory(&mut self, fd: Resource) -> FsResult<Resource>
        requires owned { FilesOwned H.Host (files_of self.old.ctx.now self.old.table.now) }
        ensures same_ctx { self.new.ctx.ghost_name ≡ self.old.ctx.ghost_name }
        ensures same_table { self.new.table.ghost_name ≡ self.old.table.ghost_name }
        ensures call { ListsIt H.Host (files_of self.old.ctx.now self.old.table.now)
            (files_of self.new.ctx.now self.new.table.now) fd.number result }
    {
        let dir = directory_at(self.table, fd)?;
        make_room(self.table)?;
        let alloc = self.ctx.alloc;
        let entries = list_names(alloc, &mut self.ctx.host, dir.dir)?;
        Ok(put(self.table, Entry::Readdir(entries)))
    }
}

/// What a stream into a file does to it.
fn act_of(mode: FileOutputMode) -> Act
    ensures { result ≡ act_of mode }
{
    match mode {
        FileOutputMode::Position(_) => Act::Alter,
        FileOutputMode::Append => Act::Append,
    }
}

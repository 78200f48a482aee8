//! The calls of a named view that put entries into its table, take them out, or read on in one.
ghost use Rattle.std.specs.Prelude.{◌≡◌, ◌<◌, length};
ghost use Rattle.std.specs.Result.{result_map_both};
ghost use Rattle.wasi_p2_calls.specs.Directories.{GivesDirectories};
ghost use Rattle.wasi_p2_calls.specs.Drops.{DropsDescriptor, DropsStream, ReadsNext};
ghost use Rattle.wasi_p2_calls.specs.Opens.{OpensAt, StreamsFrom, StreamsToOffset, StreamsToEnd, ListsIt};
ghost use Rattle.wasi_p2.specs.Named.{AtOne, OneDoes};
ghost use Rattle.wasi_p2_calls.specs.Views.{FilesOwned, files_of};

use crate::{NamedId, WasiCtxNamedView, WasiFilesystemNamedView};
use wasi_host::Host;
use wasi_p2_calls::types::{DescriptorFlags, DirectoryEntry, OpenFlags, PathFlags};
use wasi_p2_calls::{FsResult, PreopenEntry, WasiFilesystemCtxView};
use wasi_streams::Resource;

/// Each call is that of the same name of the view at a place, which is to be there; every other pair stays as it is.
impl<'a, T> WasiCtxNamedView<'a, T> {
    /// `get_directories` of the view at a place.
    pub fn get_directories<H: Host>(&mut self, id: NamedId) -> FsResult<Vec<PreopenEntry>>
    where
        T: WasiFilesystemNamedView<H>,
        requires named { id.0 < length (T.all self.old.0.now) }
        requires owned { AtOne (T.all self.old.0.now) id.0 (FilesOwned H.Host) }
        ensures same { self.new.0.ghost_name ≡ self.old.0.ghost_name }
        ensures call { OneDoes (T.all self.old.0.now) (T.all self.new.0.now) id.0
            (λ old new. GivesDirectories H.Host old new (result_map_both (λ made. made.items) (λ e. e) result)) }
    {
        self.0.with_filesystem(
            id,
            |ctx, table|
                requires owned { FilesOwned H.Host (files_of ctx.old table.old) }
            {
                let mut view = WasiFilesystemCtxView { ctx, table };
                view.get_directories()
            },
        )
    }

    /// `open_at` of the view at a place.
    pub fn open_at<H: Host>(
        &mut self,
        id: NamedId,
        fd: Resource,
        path_flags: PathFlags,
        path: &str,
        oflags: OpenFlags,
        flags: DescriptorFlags,
    ) -> FsResult<Resource>
    where
        T: WasiFilesystemNamedView<H>,
        requires named { id.0 < length (T.all self.old.0.now) }
        requires owned { AtOne (T.all self.old.0.now) id.0 (FilesOwned H.Host) }
        ensures same { self.new.0.ghost_name ≡ self.old.0.ghost_name }
        ensures call { OneDoes (T.all self.old.0.now) (T.all self.new.0.now) id.0
            (λ old new. OpensAt H.Host old new fd.number path_flags path.now oflags flags result) }
    {
        self.0.with_filesystem(
            id,
            |ctx, table|
                requires owned { FilesOwned H.Host (files_of ctx.old table.old) }
            {
                let mut view = WasiFilesystemCtxView { ctx, table };
                view.open_at(fd, path_flags, path, oflags, flags)
            },
        )
    }

    /// `read_via_stream` of the view at a place.
    pub fn read_via_stream<H: Host>(
        &mut self,
        id: NamedId,
        fd: Resource,
        offset: u64,
    ) -> FsResult<Resource>
    where
        T: WasiFilesystemNamedView<H>,
        requires named { id.0 < length (T.all self.old.0.now) }
        requires owned { AtOne (T.all self.old.0.now) id.0 (FilesOwned H.Host) }
        ensures same { self.new.0.ghost_name ≡ self.old.0.ghost_name }
        ensures call { OneDoes (T.all self.old.0.now) (T.all self.new.0.now) id.0
            (λ old new. StreamsFrom H.Host old new fd.number offset result) }
    {
        self.0.with_filesystem(
            id,
            |ctx, table|
                requires owned { FilesOwned H.Host (files_of ctx.old table.old) }
            {
                let mut view = WasiFilesystemCtxView { ctx, table };
                view.read_via_stream(fd, offset)
            },
        )
    }

    /// `write_via_stream` of the view at a place.
    pub fn write_via_stream<H: Host>(
        &mut self,
        id: NamedId,
        fd: Resource,
        offset: u64,
    ) -> FsResult<Resource>
    where
        T: WasiFilesystemNamedView<H>,
        requires named { id.0 < length (T.all self.old.0.now) }
        requires owned { AtOne (T.all self.old.0.now) id.0 (FilesOwned H.Host) }
        ensures same { self.new.0.ghost_name ≡ self.old.0.ghost_name }
        ensures call { OneDoes (T.all self.old.0.now) (T.all self.new.0.now) id.0
            (λ old new. StreamsToOffset H.Host old new fd.number offset result) }
    {
        self.0.with_filesystem(
            id,
            |ctx, table|
                requires owned { FilesOwned H.Host (files_of ctx.old table.old) }
            {
                let mut view = WasiFilesystemCtxView { ctx, table };
                view.write_via_stream(fd, offset)
            },
        )
    }

    /// `append_via_stream` of the view at a place.
    pub fn append_via_stream<H: Host>(&mut self, id: NamedId, fd: Resource) -> FsResult<Resource>
    where
        T: WasiFilesystemNamedView<H>,
        requires named { id.0 < length (T.all self.old.0.now) }
        requires owned { AtOne (T.all self.old.0.now) id.0 (FilesOwned H.Host) }
        ensures same { self.new.0.ghost_name ≡ self.old.0.ghost_name }
        ensures call { OneDoes (T.all self.old.0.now) (T.all self.new.0.now) id.0
            (λ old new. StreamsToEnd H.Host old new fd.number result) }
    {
        self.0.with_filesystem(
            id,
            |ctx, table|
                requires owned { FilesOwned H.Host (files_of ctx.old table.old) }
            {
                let mut view = WasiFilesystemCtxView { ctx, table };
                view.append_via_stream(fd)
            },
        )
    }

    /// `read_directory` of the view at a place.
    pub fn read_directory<H: Host>(&mut self, id: NamedId, fd: Resource) -> FsResult<Resource>
    where
        T: WasiFilesystemNamedView<H>,
        requires named { id.0 < length (T.all self.old.0.now) }
        requires owned { AtOne (T.all self.old.0.now) id.0 (FilesOwned H.Host) }
        ensures same { self.new.0.ghost_name ≡ self.old.0.ghost_name }
        ensures call { OneDoes (T.all self.old.0.now) (T.all self.new.0.now) id.0
            (λ old new. ListsIt H.Host old new fd.number result) }
    {
        self.0.with_filesystem(
            id,
            |ctx, table|
                requires owned { FilesOwned H.Host (files_of ctx.old table.old) }
            {
                let mut view = WasiFilesystemCtxView { ctx, table };
                view.read_directory(fd)
            },
        )
    }

    /// `drop` of the view at a place.
    pub fn drop<H: Host>(&mut self, id: NamedId, fd: Resource) -> FsResult<()>
    where
        T: WasiFilesystemNamedView<H>,
        requires named { id.0 < length (T.all self.old.0.now) }
        requires owned { AtOne (T.all self.old.0.now) id.0 (FilesOwned H.Host) }
        ensures same { self.new.0.ghost_name ≡ self.old.0.ghost_name }
        ensures call { OneDoes (T.all self.old.0.now) (T.all self.new.0.now) id.0
            (λ old new. DropsDescriptor H.Host old new fd.number result) }
    {
        self.0.with_filesystem(
            id,
            |ctx, table|
                requires owned { FilesOwned H.Host (files_of ctx.old table.old) }
            {
                let mut view = WasiFilesystemCtxView { ctx, table };
                view.drop(fd)
            },
        )
    }

    /// `drop_stream` of the view at a place.
    pub fn drop_stream<H: Host>(&mut self, id: NamedId, stream: Resource) -> FsResult<()>
    where
        T: WasiFilesystemNamedView<H>,
        requires named { id.0 < length (T.all self.old.0.now) }
        requires owned { AtOne (T.all self.old.0.now) id.0 (FilesOwned H.Host) }
        ensures same { self.new.0.ghost_name ≡ self.old.0.ghost_name }
        ensures call { OneDoes (T.all self.old.0.now) (T.all self.new.0.now) id.0
            (λ old new. DropsStream H.Host old new stream.number result) }
    {
        self.0.with_filesystem(
            id,
            |ctx, table|
                requires owned { FilesOwned H.Host (files_of ctx.old table.old) }
            {
                let mut view = WasiFilesystemCtxView { ctx, table };
                view.drop_stream(stream)
            },
        )
    }

    /// `read_directory_entry` of the view at a place.
    pub fn read_directory_entry<H: Host>(
        &mut self,
        id: NamedId,
        stream: Resource,
    ) -> FsResult<Option<DirectoryEntry>>
    where
        T: WasiFilesystemNamedView<H>,
        requires named { id.0 < length (T.all self.old.0.now) }
        requires owned { AtOne (T.all self.old.0.now) id.0 (FilesOwned H.Host) }
        ensures same { self.new.0.ghost_name ≡ self.old.0.ghost_name }
        ensures call { OneDoes (T.all self.old.0.now) (T.all self.new.0.now) id.0
            (λ old new. ReadsNext H.Host old new stream.number result) }
    {
        self.0.with_filesystem(
            id,
            |ctx, table|
                requires owned { FilesOwned H.Host (files_of ctx.old table.old) }
            {
                let mut view = WasiFilesystemCtxView { ctx, table };
                view.read_directory_entry(stream)
            },
        )
    }
}

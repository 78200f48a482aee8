//! The calls of a named view about what a descriptor refers to, and of a file's bytes.
ghost use Rattle.std.specs.Prelude.{◌≡◌, ◌<◌, length};
ghost use Rattle.wasi_p2_calls.specs.FileBytes.{ReadsFile, WritesFile};
ghost use Rattle.wasi_p2_calls.specs.Nodes.{Advises, SetsSize, SyncsIt, TellsFlags, TellsType, TellsStat, TellsHash, SetsTimes, ComparesBoth};
ghost use Rattle.wasi_p2.specs.Named.{AtOne, OneDoes};
ghost use Rattle.wasi_p2_calls.specs.Views.{FilesOwned, files_of};

use crate::{NamedId, WasiCtxNamedView, WasiFilesystemNamedView};
use wasi_host::Host;
use wasi_p2_calls::types::{
    Advice, DescriptorFlags, DescriptorStat, DescriptorType, MetadataHashValue, NewTimestamp,
};
use wasi_p2_calls::{FsResult, ReadResult, WasiFilesystemCtxView};
use wasi_streams::Resource;

/// Each call is that of the same name of the view at a place, which is to be there; every other pair stays as it is.
impl<'a, T> WasiCtxNamedView<'a, T> {
    /// `advise` of the view at a place.
    pub fn advise<H: Host>(
        &mut self,
        id: NamedId,
        fd: Resource,
        offset: u64,
        len: u64,
        advice: Advice,
    ) -> FsResult<()>
    where
        T: WasiFilesystemNamedView<H>,
        requires named { id.0 < length (T.all self.old.0.now) }
        requires owned { AtOne (T.all self.old.0.now) id.0 (FilesOwned H.Host) }
        ensures same { self.new.0.ghost_name ≡ self.old.0.ghost_name }
        ensures call { OneDoes (T.all self.old.0.now) (T.all self.new.0.now) id.0
            (λ old new. Advises H.Host old new fd.number offset len advice result) }
    {
        self.0.with_filesystem(
            id,
            |ctx, table|
                requires owned { FilesOwned H.Host (files_of ctx.old table.old) }
            {
                let mut view = WasiFilesystemCtxView { ctx, table };
                view.advise(fd, offset, len, advice)
            },
        )
    }

    /// `set_size` of the view at a place.
    pub fn set_size<H: Host>(&mut self, id: NamedId, fd: Resource, size: u64) -> FsResult<()>
    where
        T: WasiFilesystemNamedView<H>,
        requires named { id.0 < length (T.all self.old.0.now) }
        requires owned { AtOne (T.all self.old.0.now) id.0 (FilesOwned H.Host) }
        ensures same { self.new.0.ghost_name ≡ self.old.0.ghost_name }
        ensures call { OneDoes (T.all self.old.0.now) (T.all self.new.0.now) id.0
            (λ old new. SetsSize H.Host old new fd.number size result) }
    {
        self.0.with_filesystem(
            id,
            |ctx, table|
                requires owned { FilesOwned H.Host (files_of ctx.old table.old) }
            {
                let mut view = WasiFilesystemCtxView { ctx, table };
                view.set_size(fd, size)
            },
        )
    }

    /// `sync_data` of the view at a place.
    pub fn sync_data<H: Host>(&mut self, id: NamedId, fd: Resource) -> FsResult<()>
    where
        T: WasiFilesystemNamedView<H>,
        requires named { id.0 < length (T.all self.old.0.now) }
        requires owned { AtOne (T.all self.old.0.now) id.0 (FilesOwned H.Host) }
        ensures same { self.new.0.ghost_name ≡ self.old.0.ghost_name }
        ensures call { OneDoes (T.all self.old.0.now) (T.all self.new.0.now) id.0
            (λ old new. SyncsIt H.Host old new fd.number result) }
    {
        self.0.with_filesystem(
            id,
            |ctx, table|
                requires owned { FilesOwned H.Host (files_of ctx.old table.old) }
            {
                let mut view = WasiFilesystemCtxView { ctx, table };
                view.sync_data(fd)
            },
        )
    }

    /// `sync` of the view at a place.
    pub fn sync<H: Host>(&mut self, id: NamedId, fd: Resource) -> FsResult<()>
    where
        T: WasiFilesystemNamedView<H>,
        requires named { id.0 < length (T.all self.old.0.now) }
        requires owned { AtOne (T.all self.old.0.now) id.0 (FilesOwned H.Host) }
        ensures same { self.new.0.ghost_name ≡ self.old.0.ghost_name }
        ensures call { OneDoes (T.all self.old.0.now) (T.all self.new.0.now) id.0
            (λ old new. SyncsIt H.Host old new fd.number result) }
    {
        self.0.with_filesystem(
            id,
            |ctx, table|
                requires owned { FilesOwned H.Host (files_of ctx.old table.old) }
            {
                let mut view = WasiFilesystemCtxView { ctx, table };
                view.sync(fd)
            },
        )
    }

    /// `get_flags` of the view at a place.
    pub fn get_flags<H: Host>(&mut self, id: NamedId, fd: Resource) -> FsResult<DescriptorFlags>
    where
        T: WasiFilesystemNamedView<H>,
        requires named { id.0 < length (T.all self.old.0.now) }
        requires owned { AtOne (T.all self.old.0.now) id.0 (FilesOwned H.Host) }
        ensures same { self.new.0.ghost_name ≡ self.old.0.ghost_name }
        ensures call { OneDoes (T.all self.old.0.now) (T.all self.new.0.now) id.0
            (λ old new. TellsFlags H.Host old new fd.number result) }
    {
        self.0.with_filesystem(
            id,
            |ctx, table|
                requires owned { FilesOwned H.Host (files_of ctx.old table.old) }
            {
                let mut view = WasiFilesystemCtxView { ctx, table };
                view.get_flags(fd)
            },
        )
    }

    /// `get_type` of the view at a place.
    pub fn get_type<H: Host>(&mut self, id: NamedId, fd: Resource) -> FsResult<DescriptorType>
    where
        T: WasiFilesystemNamedView<H>,
        requires named { id.0 < length (T.all self.old.0.now) }
        requires owned { AtOne (T.all self.old.0.now) id.0 (FilesOwned H.Host) }
        ensures same { self.new.0.ghost_name ≡ self.old.0.ghost_name }
        ensures call { OneDoes (T.all self.old.0.now) (T.all self.new.0.now) id.0
            (λ old new. TellsType H.Host old new fd.number result) }
    {
        self.0.with_filesystem(
            id,
            |ctx, table|
                requires owned { FilesOwned H.Host (files_of ctx.old table.old) }
            {
                let mut view = WasiFilesystemCtxView { ctx, table };
                view.get_type(fd)
            },
        )
    }

    /// `stat` of the view at a place.
    pub fn stat<H: Host>(&mut self, id: NamedId, fd: Resource) -> FsResult<DescriptorStat>
    where
        T: WasiFilesystemNamedView<H>,
        requires named { id.0 < length (T.all self.old.0.now) }
        requires owned { AtOne (T.all self.old.0.now) id.0 (FilesOwned H.Host) }
        ensures same { self.new.0.ghost_name ≡ self.old.0.ghost_name }
        ensures call { OneDoes (T.all self.old.0.now) (T.all self.new.0.now) id.0
            (λ old new. TellsStat H.Host old new fd.number result) }
    {
        self.0.with_filesystem(
            id,
            |ctx, table|
                requires owned { FilesOwned H.Host (files_of ctx.old table.old) }
            {
                let mut view = WasiFilesystemCtxView { ctx, table };
                view.stat(fd)
            },
        )
    }

    /// `metadata_hash` of the view at a place.
    pub fn metadata_hash<H: Host>(
        &mut self,
        id: NamedId,
        fd: Resource,
    ) -> FsResult<MetadataHashValue>
    where
        T: WasiFilesystemNamedView<H>,
        requires named { id.0 < length (T.all self.old.0.now) }
        requires owned { AtOne (T.all self.old.0.now) id.0 (FilesOwned H.Host) }
        ensures same { self.new.0.ghost_name ≡ self.old.0.ghost_name }
        ensures call { OneDoes (T.all self.old.0.now) (T.all self.new.0.now) id.0
            (λ old new. TellsHash H.Host old new fd.number result) }
    {
        self.0.with_filesystem(
            id,
            |ctx, table|
                requires owned { FilesOwned H.Host (files_of ctx.old table.old) }
            {
                let mut view = WasiFilesystemCtxView { ctx, table };
                view.metadata_hash(fd)
            },
        )
    }

    /// `set_times` of the view at a place.
    pub fn set_times<H: Host>(
        &mut self,
        id: NamedId,
        fd: Resource,
        atim: NewTimestamp,
        mtim: NewTimestamp,
    ) -> FsResult<()>
    where
        T: WasiFilesystemNamedView<H>,
        requires named { id.0 < length (T.all self.old.0.now) }
        requires owned { AtOne (T.all self.old.0.now) id.0 (FilesOwned H.Host) }
        ensures same { self.new.0.ghost_name ≡ self.old.0.ghost_name }
        ensures call { OneDoes (T.all self.old.0.now) (T.all self.new.0.now) id.0
            (λ old new. SetsTimes H.Host old new fd.number atim mtim result) }
    {
        self.0.with_filesystem(
            id,
            |ctx, table|
                requires owned { FilesOwned H.Host (files_of ctx.old table.old) }
            {
                let mut view = WasiFilesystemCtxView { ctx, table };
                view.set_times(fd, atim, mtim)
            },
        )
    }

    /// `is_same_object` of the view at a place.
    pub fn is_same_object<H: Host>(
        &mut self,
        id: NamedId,
        a: Resource,
        b: Resource,
    ) -> FsResult<bool>
    where
        T: WasiFilesystemNamedView<H>,
        requires named { id.0 < length (T.all self.old.0.now) }
        requires owned { AtOne (T.all self.old.0.now) id.0 (FilesOwned H.Host) }
        ensures same { self.new.0.ghost_name ≡ self.old.0.ghost_name }
        ensures call { OneDoes (T.all self.old.0.now) (T.all self.new.0.now) id.0
            (λ old new. ComparesBoth H.Host old new a.number b.number result) }
    {
        self.0.with_filesystem(
            id,
            |ctx, table|
                requires owned { FilesOwned H.Host (files_of ctx.old table.old) }
            {
                let mut view = WasiFilesystemCtxView { ctx, table };
                view.is_same_object(a, b)
            },
        )
    }

    /// `read` of the view at a place.
    pub fn read<H: Host>(
        &mut self,
        id: NamedId,
        fd: Resource,
        len: u64,
        offset: u64,
    ) -> FsResult<ReadResult>
    where
        T: WasiFilesystemNamedView<H>,
        requires named { id.0 < length (T.all self.old.0.now) }
        requires owned { AtOne (T.all self.old.0.now) id.0 (FilesOwned H.Host) }
        ensures same { self.new.0.ghost_name ≡ self.old.0.ghost_name }
        ensures call { OneDoes (T.all self.old.0.now) (T.all self.new.0.now) id.0
            (λ old new. ReadsFile H.Host old new fd.number len offset result) }
    {
        self.0.with_filesystem(
            id,
            |ctx, table|
                requires owned { FilesOwned H.Host (files_of ctx.old table.old) }
            {
                let mut view = WasiFilesystemCtxView { ctx, table };
                view.read(fd, len, offset)
            },
        )
    }

    /// `write` of the view at a place.
    pub fn write<H: Host>(
        &mut self,
        id: NamedId,
        fd: Resource,
        buf: &[u8],
        offset: u64,
    ) -> FsResult<u64>
    where
        T: WasiFilesystemNamedView<H>,
        requires named { id.0 < length (T.all self.old.0.now) }
        requires owned { AtOne (T.all self.old.0.now) id.0 (FilesOwned H.Host) }
        ensures same { self.new.0.ghost_name ≡ self.old.0.ghost_name }
        ensures call { OneDoes (T.all self.old.0.now) (T.all self.new.0.now) id.0
            (λ old new. WritesFile H.Host old new fd.number buf.now offset result) }
    {
        self.0.with_filesystem(
            id,
            |ctx, table|
                requires owned { FilesOwned H.Host (files_of ctx.old table.old) }
            {
                let mut view = WasiFilesystemCtxView { ctx, table };
                view.write(fd, buf, offset)
            },
        )
    }
}

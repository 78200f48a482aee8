//! The calls of a named view at paths.
ghost use Rattle.std.specs.Prelude.{◌≡◌, ◌<◌, length};
ghost use Rattle.wasi_p2_calls.specs.PathOps.{CreatesDirectory, RemovesDirectory, UnlinksFile, MakesLink, TellsLink, StatsAt, HashesAt, SetsTimesAt, LinksAt, RenamesAt};
ghost use Rattle.wasi_p2.specs.Named.{AtOne, OneDoes};
ghost use Rattle.wasi_p2_calls.specs.Views.{FilesOwned, files_of};

use crate::{NamedId, WasiCtxNamedView, WasiFilesystemNamedView};
use wasi_host::Host;
use wasi_p2_calls::types::{DescriptorStat, MetadataHashValue, NewTimestamp, PathFlags};
use wasi_p2_calls::{FsResult, WasiFilesystemCtxView};
use wasi_streams::Resource;

/// Each call is that of the same name of the view at a place, which is to be there; every other pair stays as it is.
impl<'a, T> WasiCtxNamedView<'a, T> {
    /// `create_directory_at` of the view at a place.
    pub fn create_directory_at<H: Host>(
        &mut self,
        id: NamedId,
        fd: Resource,
        path: &str,
    ) -> FsResult<()>
    where
        T: WasiFilesystemNamedView<H>,
        requires named { id.0 < length (T.all self.old.0.now) }
        requires owned { AtOne (T.all self.old.0.now) id.0 (FilesOwned H.Host) }
        ensures same { self.new.0.ghost_name ≡ self.old.0.ghost_name }
        ensures call { OneDoes (T.all self.old.0.now) (T.all self.new.0.now) id.0
            (λ old new. CreatesDirectory H.Host old new fd.number path.now result) }
    {
        self.0.with_filesystem(
            id,
            |ctx, table|
                requires owned { FilesOwned H.Host (files_of ctx.old table.old) }
            {
                let mut view = WasiFilesystemCtxView { ctx, table };
                view.create_directory_at(fd, path)
            },
        )
    }

    /// `remove_directory_at` of the view at a place.
    pub fn remove_directory_at<H: Host>(
        &mut self,
        id: NamedId,
        fd: Resource,
        path: &str,
    ) -> FsResult<()>
    where
        T: WasiFilesystemNamedView<H>,
        requires named { id.0 < length (T.all self.old.0.now) }
        requires owned { AtOne (T.all self.old.0.now) id.0 (FilesOwned H.Host) }
        ensures same { self.new.0.ghost_name ≡ self.old.0.ghost_name }
        ensures call { OneDoes (T.all self.old.0.now) (T.all self.new.0.now) id.0
            (λ old new. RemovesDirectory H.Host old new fd.number path.now result) }
    {
        self.0.with_filesystem(
            id,
            |ctx, table|
                requires owned { FilesOwned H.Host (files_of ctx.old table.old) }
            {
                let mut view = WasiFilesystemCtxView { ctx, table };
                view.remove_directory_at(fd, path)
            },
        )
    }

    /// `unlink_file_at` of the view at a place.
    pub fn unlink_file_at<H: Host>(&mut self, id: NamedId, fd: Resource, path: &str) -> FsResult<()>
    where
        T: WasiFilesystemNamedView<H>,
        requires named { id.0 < length (T.all self.old.0.now) }
        requires owned { AtOne (T.all self.old.0.now) id.0 (FilesOwned H.Host) }
        ensures same { self.new.0.ghost_name ≡ self.old.0.ghost_name }
        ensures call { OneDoes (T.all self.old.0.now) (T.all self.new.0.now) id.0
            (λ old new. UnlinksFile H.Host old new fd.number path.now result) }
    {
        self.0.with_filesystem(
            id,
            |ctx, table|
                requires owned { FilesOwned H.Host (files_of ctx.old table.old) }
            {
                let mut view = WasiFilesystemCtxView { ctx, table };
                view.unlink_file_at(fd, path)
            },
        )
    }

    /// `symlink_at` of the view at a place.
    pub fn symlink_at<H: Host>(
        &mut self,
        id: NamedId,
        fd: Resource,
        src_path: &str,
        dest_path: &str,
    ) -> FsResult<()>
    where
        T: WasiFilesystemNamedView<H>,
        requires named { id.0 < length (T.all self.old.0.now) }
        requires owned { AtOne (T.all self.old.0.now) id.0 (FilesOwned H.Host) }
        ensures same { self.new.0.ghost_name ≡ self.old.0.ghost_name }
        ensures call { OneDoes (T.all self.old.0.now) (T.all self.new.0.now) id.0
            (λ old new. MakesLink H.Host old new fd.number dest_path.now src_path.now result) }
    {
        self.0.with_filesystem(
            id,
            |ctx, table|
                requires owned { FilesOwned H.Host (files_of ctx.old table.old) }
            {
                let mut view = WasiFilesystemCtxView { ctx, table };
                view.symlink_at(fd, src_path, dest_path)
            },
        )
    }

    /// `readlink_at` of the view at a place.
    pub fn readlink_at<H: Host>(
        &mut self,
        id: NamedId,
        fd: Resource,
        path: &str,
    ) -> FsResult<String>
    where
        T: WasiFilesystemNamedView<H>,
        requires named { id.0 < length (T.all self.old.0.now) }
        requires owned { AtOne (T.all self.old.0.now) id.0 (FilesOwned H.Host) }
        ensures same { self.new.0.ghost_name ≡ self.old.0.ghost_name }
        ensures call { OneDoes (T.all self.old.0.now) (T.all self.new.0.now) id.0
            (λ old new. TellsLink H.Host old new fd.number path.now result) }
    {
        self.0.with_filesystem(
            id,
            |ctx, table|
                requires owned { FilesOwned H.Host (files_of ctx.old table.old) }
            {
                let mut view = WasiFilesystemCtxView { ctx, table };
                view.readlink_at(fd, path)
            },
        )
    }

    /// `stat_at` of the view at a place.
    pub fn stat_at<H: Host>(
        &mut self,
        id: NamedId,
        fd: Resource,
        path_flags: PathFlags,
        path: &str,
    ) -> FsResult<DescriptorStat>
    where
        T: WasiFilesystemNamedView<H>,
        requires named { id.0 < length (T.all self.old.0.now) }
        requires owned { AtOne (T.all self.old.0.now) id.0 (FilesOwned H.Host) }
        ensures same { self.new.0.ghost_name ≡ self.old.0.ghost_name }
        ensures call { OneDoes (T.all self.old.0.now) (T.all self.new.0.now) id.0
            (λ old new. StatsAt H.Host old new fd.number path_flags path.now result) }
    {
        self.0.with_filesystem(
            id,
            |ctx, table|
                requires owned { FilesOwned H.Host (files_of ctx.old table.old) }
            {
                let mut view = WasiFilesystemCtxView { ctx, table };
                view.stat_at(fd, path_flags, path)
            },
        )
    }

    /// `metadata_hash_at` of the view at a place.
    pub fn metadata_hash_at<H: Host>(
        &mut self,
        id: NamedId,
        fd: Resource,
        path_flags: PathFlags,
        path: &str,
    ) -> FsResult<MetadataHashValue>
    where
        T: WasiFilesystemNamedView<H>,
        requires named { id.0 < length (T.all self.old.0.now) }
        requires owned { AtOne (T.all self.old.0.now) id.0 (FilesOwned H.Host) }
        ensures same { self.new.0.ghost_name ≡ self.old.0.ghost_name }
        ensures call { OneDoes (T.all self.old.0.now) (T.all self.new.0.now) id.0
            (λ old new. HashesAt H.Host old new fd.number path_flags path.now result) }
    {
        self.0.with_filesystem(
            id,
            |ctx, table|
                requires owned { FilesOwned H.Host (files_of ctx.old table.old) }
            {
                let mut view = WasiFilesystemCtxView { ctx, table };
                view.metadata_hash_at(fd, path_flags, path)
            },
        )
    }

    /// `set_times_at` of the view at a place.
    pub fn set_times_at<H: Host>(
        &mut self,
        id: NamedId,
        fd: Resource,
        path_flags: PathFlags,
        path: &str,
        atim: NewTimestamp,
        mtim: NewTimestamp,
    ) -> FsResult<()>
    where
        T: WasiFilesystemNamedView<H>,
        requires named { id.0 < length (T.all self.old.0.now) }
        requires owned { AtOne (T.all self.old.0.now) id.0 (FilesOwned H.Host) }
        ensures same { self.new.0.ghost_name ≡ self.old.0.ghost_name }
        ensures call { OneDoes (T.all self.old.0.now) (T.all self.new.0.now) id.0
            (λ old new. SetsTimesAt H.Host old new fd.number path_flags path.now atim mtim result) }
    {
        self.0.with_filesystem(
            id,
            |ctx, table|
                requires owned { FilesOwned H.Host (files_of ctx.old table.old) }
            {
                let mut view = WasiFilesystemCtxView { ctx, table };
                view.set_times_at(fd, path_flags, path, atim, mtim)
            },
        )
    }

    /// `link_at` of the view at a place.
    pub fn link_at<H: Host>(
        &mut self,
        id: NamedId,
        fd: Resource,
        old_path_flags: PathFlags,
        old_path: &str,
        new_fd: Resource,
        new_path: &str,
    ) -> FsResult<()>
    where
        T: WasiFilesystemNamedView<H>,
        requires named { id.0 < length (T.all self.old.0.now) }
        requires owned { AtOne (T.all self.old.0.now) id.0 (FilesOwned H.Host) }
        ensures same { self.new.0.ghost_name ≡ self.old.0.ghost_name }
        ensures call { OneDoes (T.all self.old.0.now) (T.all self.new.0.now) id.0
            (λ old new. LinksAt H.Host old new fd.number old_path_flags old_path.now new_fd.number new_path.now result) }
    {
        self.0.with_filesystem(
            id,
            |ctx, table|
                requires owned { FilesOwned H.Host (files_of ctx.old table.old) }
            {
                let mut view = WasiFilesystemCtxView { ctx, table };
                view.link_at(fd, old_path_flags, old_path, new_fd, new_path)
            },
        )
    }

    /// `rename_at` of the view at a place.
    pub fn rename_at<H: Host>(
        &mut self,
        id: NamedId,
        fd: Resource,
        old_path: &str,
        new_fd: Resource,
        new_path: &str,
    ) -> FsResult<()>
    where
        T: WasiFilesystemNamedView<H>,
        requires named { id.0 < length (T.all self.old.0.now) }
        requires owned { AtOne (T.all self.old.0.now) id.0 (FilesOwned H.Host) }
        ensures same { self.new.0.ghost_name ≡ self.old.0.ghost_name }
        ensures call { OneDoes (T.all self.old.0.now) (T.all self.new.0.now) id.0
            (λ old new. RenamesAt H.Host old new fd.number old_path.now new_fd.number new_path.now result) }
    {
        self.0.with_filesystem(
            id,
            |ctx, table|
                requires owned { FilesOwned H.Host (files_of ctx.old table.old) }
            {
                let mut view = WasiFilesystemCtxView { ctx, table };
                view.rename_at(fd, old_path, new_fd, new_path)
            },
        )
    }
}

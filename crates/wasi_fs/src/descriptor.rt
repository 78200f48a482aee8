//! Open files and directories.
ghost use Rattle.std.specs.Prelude.{◌≡◌};
ghost use Rattle.std.specs.Result.{result_map_both};
ghost use Rattle.wasi_fs.specs.Calls.{handle_of};
ghost use Rattle.wasi_fs.specs.Descriptor.{file_of, dir_of};

use crate::{FsPerms, OpenMode};
use wasi_host::{ErrorCode, Handle};

/// An open file: the crate's `File`.
#[derive(Drop)]
pub struct File {
    /// The host's handle of it.
    pub file: Handle,
    /// The permissions of the directory below which it was opened.
    pub perms: FsPerms,
    /// What it was opened for.
    pub open_mode: OpenMode,
}

impl File {
    pub fn new(file: Handle, perms: FsPerms, open_mode: OpenMode) -> File
        ensures file { result.file ≡ file }
        ensures perms { result.perms ≡ perms }
        ensures mode { result.open_mode ≡ open_mode }
    {
        File {
            file,
            perms,
            open_mode,
        }
    }
}

/// An open directory: the crate's `Dir`.
#[derive(Drop)]
pub struct Dir {
    /// The host's handle of it.
    pub dir: Handle,
    /// What may be done below it.
    pub perms: FsPerms,
    /// What it was opened for.
    pub open_mode: OpenMode,
}

impl Dir {
    pub fn new(dir: Handle, perms: FsPerms, open_mode: OpenMode) -> Dir
        ensures dir { result.dir ≡ dir }
        ensures perms { result.perms ≡ perms }
        ensures mode { result.open_mode ≡ open_mode }
    {
        Dir {
            dir,
            perms,
            open_mode,
        }
    }
}

/// An open file or directory: the crate's `Descriptor`.
#[derive(Drop)]
pub enum Descriptor {
    File(File),
    Dir(Dir),
}

impl Descriptor {
    /// The host's handle.
    pub(crate) fn handle(&self) -> Handle
        ensures handle { result ≡ handle_of self.now }
    {
        match self {
            Descriptor::File(file) => file.file,
            Descriptor::Dir(dir) => dir.dir,
        }
    }

    /// The file; of a directory the refusal BadDescriptor.
    pub fn file(&self) -> Result<&File, ErrorCode>
        ensures file { result_map_both (λ file. file.now) (λ code. code) result ≡ file_of self.now }
    {
        match self {
            Descriptor::File(file) => Ok(file),
            Descriptor::Dir(_) => Err(ErrorCode::BadDescriptor),
        }
    }

    /// The directory; of a file the refusal NotDirectory.
    pub fn dir(&self) -> Result<&Dir, ErrorCode>
        ensures dir { result_map_both (λ dir. dir.now) (λ code. code) result ≡ dir_of self.now }
    {
        match self {
            Descriptor::Dir(dir) => Ok(dir),
            Descriptor::File(_) => Err(ErrorCode::NotDirectory),
        }
    }
}

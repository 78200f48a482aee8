//! What a descriptor number refers to.
ghost use Rattle.std.specs.Prelude.{◌≡◌};
ghost use Rattle.wasi_p1_types.specs.Slots.{preopen_directory};

use bitflags::Flags;
use wasi_fs::{Dir, File, FsPerms, OpenMode};
use wasi_host::Handle;

/// The three standard streams: descriptors 0, 1 and 2, as POSIX numbers them.
#[derive(Clone, Copy, Debug, PartialEq, Eq)]
pub enum Stream {
    Input,
    Output,
    Error,
}

/// How a file's descriptor is used, by preview1's `fdflags`: whether all that it writes goes after the file's last
/// byte, and whether its calls wait. No call waits here, so the latter is only kept.
#[derive(Clone, Copy, Debug, PartialEq, Eq)]
pub struct FileModes {
    pub append: bool,
    pub nonblock: bool,
}

/// A directory's descriptor, and its place among the preopens, if it is one.
#[derive(Drop)]
pub struct DirectorySlot {
    pub dir: Dir,
    pub preopen: Option<usize>,
}

/// A file's descriptor: the file, where in bytes its next read or write begins, and how it is used.
#[derive(Drop)]
pub struct FileSlot {
    pub file: File,
    pub position: u64,
    pub modes: FileModes,
}

/// What a descriptor number refers to: the crate's `Descriptor` of `p1.rs`.
#[derive(Drop)]
pub enum Slot {
    Closed,
    Stream(Stream),
    Directory(DirectorySlot),
    File(FileSlot),
}

/// A directory that a guest is given: a handle of it, what may be done below it, and the name by which the guest knows
/// it.
#[derive(Debug, Drop)]
pub struct P1Preopen {
    pub handle: Handle,
    pub perms: FsPerms,
    pub name: String,
}

impl P1Preopen {
    /// The directory, which may be read, and written unless it is read-only.
    pub fn directory(&self) -> Dir
        ensures directory { result ≡ preopen_directory self.now }
    {
        let mut mode = OpenMode::READ;
        mode.set(OpenMode::WRITE, !self.perms.write_not_permitted());
        Dir::new(self.handle, self.perms, mode)
    }
}

//! The record `fdstat`: the type, flags and rights of a descriptor.
ghost use Rattle.std.specs.Prelude.{◌≡◌};
ghost use Rattle.wasi_guest.specs.FiletypeNumber.{filetype_number};
ghost use Rattle.wasi_p1_types.specs.Fdstats.{directory_fdstat, file_rights, modes_bits, preopen_fdstat, stream_fdstat};

use crate::slots::{FileModes, Stream};
use bitflags::Flags;
use wasi_fs::OpenMode;
use wasi_guest::{FdFlags, Fdstat, Filetype, Rights};

/// Those of a preopen: of the calls on directories and at paths, FD_READDIR, FD_FILESTAT_GET
/// and FD_FILESTAT_SET_TIMES among them, but for PATH_FILESTAT_SET_SIZE.
const PREOPEN_RIGHTS: u64 = 129_498_624;

/// Those for what is opened below it: all but PATH_FILESTAT_SET_SIZE, SOCK_SHUTDOWN and SOCK_ACCEPT.
const PREOPEN_INHERITING: u64 = 267_911_167;

/// Those of another directory: all but FD_SEEK, FD_WRITE, PATH_FILESTAT_SET_SIZE and FD_FILESTAT_SET_SIZE.
const DIRECTORY_RIGHTS: u64 = 1_069_023_163;

/// All that there are.
const ALL_RIGHTS: u64 = 1_073_741_823;

/// FD_READ and FD_READDIR.
const READING_RIGHTS: u64 = 16_386;

/// The `fdstat` of a descriptor of this type, without flags.
fn fdstat(filetype: Filetype, base: u64, inheriting: u64) -> Fdstat
    ensures value { result ≡ record { filetype = filetype_number filetype; flags = 0; base = base; inheriting = inheriting } }
{
    Fdstat {
        filetype: filetype.number(),
        flags: 0,
        base,
        inheriting,
    }
}

/// The `fdstat` of a standard stream: it can be read, or written.
pub fn stream_fdstat(stream: Stream) -> Fdstat
    ensures { result ≡ stream_fdstat stream }
{
    let rights: u64 = match stream {
        Stream::Input => Rights::FD_READ.bits(),
        Stream::Output | Stream::Error => Rights::FD_WRITE.bits(),
    };
    fdstat(Filetype::Unknown, rights, rights)
}

/// The `fdstat` of a preopen.
pub fn preopen_fdstat() -> Fdstat
    ensures { result ≡ preopen_fdstat }
{
    fdstat(Filetype::Directory, PREOPEN_RIGHTS, PREOPEN_INHERITING)
}

/// The `fdstat` of another directory.
pub fn directory_fdstat() -> Fdstat
    ensures { result ≡ directory_fdstat }
{
    fdstat(Filetype::Directory, DIRECTORY_RIGHTS, DIRECTORY_RIGHTS)
}

/// The flags of a file's descriptor, as bits of `FdFlags`.
fn modes_bits(modes: FileModes) -> u16
    ensures { result ≡ modes_bits modes }
{
    let append: u16 = if modes.append {
        FdFlags::APPEND.bits() as u16
    } else {
        0
    };
    let nonblock: u16 = if modes.nonblock {
        FdFlags::NONBLOCK.bits() as u16
    } else {
        0
    };
    append + nonblock
}

/// The rights of a file's descriptor, as bits of `Rights`: all but those to read where it wasn't opened for reading,
/// and those to write where it wasn't for writing.
fn file_rights(mode: OpenMode) -> u64
    ensures { result ≡ file_rights mode }
{
    let unread: u64 = if mode.contains(OpenMode::READ) {
        0
    } else {
        READING_RIGHTS
    };
    let unwritten: u64 = if mode.contains(OpenMode::WRITE) {
        0
    } else {
        Rights::FD_WRITE.bits()
    };
    ALL_RIGHTS - unread - unwritten
}

/// The `fdstat` of a file of this type, that was opened and is used so.
pub fn file_fdstat(mode: OpenMode, modes: FileModes, filetype: Filetype) -> Fdstat
    ensures { result ≡ record {
      filetype = filetype_number filetype;
      flags = modes_bits modes;
      base = file_rights mode;
      inheriting = file_rights mode;
    } }
{
    let rights = file_rights(mode);
    Fdstat {
        filetype: filetype.number(),
        flags: modes_bits(modes),
        base: rights,
        inheriting: rights,
    }
}

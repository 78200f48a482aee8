//! Why a call isn't answered Ok, why no context is made, and why a run wasn't finished.
ghost use Rattle.std.specs.Prelude.{◌≡◌};
ghost use Rattle.wasi_p1_types.specs.Errnos.{errno_of, error_of};
ghost use Rattle.wasi_p1_types.specs.SpecParts.{guest_fault};
ghost use Rattle.wasi_p1_types.specs.ViewErrors.{errno_named, table_error_of, view_error_of};
ghost use Rattle.wasi_p1_types.specs.declared.error.CtxError.TheVariants as causes;
ghost use Rattle.wasi_p1_types.specs.declared.error.P1Error.TheVariants as errors;

use std::alloc::AllocError;
use wasi_guest::{Errno, GuestError, TrapKind};
use wasi_host::{ErrorCode, HostError};
use wasi_p2_types as types;
use wasi_p2_types::FsError;
use wasi_streams::TableError;

/// Why a call didn't succeed.
#[derive(Clone, Copy, Debug, PartialEq, Eq)]
pub enum P1Error {
    Errno(Errno),
    Trap(TrapKind),
    /// The guest ended with this status.
    Exit(u32),
    /// Memory ran out. All stands as before the call.
    Memory,
}

/// Why no context is made.
#[derive(Clone, Copy, Debug, PartialEq, Eq)]
pub enum CtxError {
    /// The resource table is to have fewer entries than the three standard streams and the directories are.
    Full,
    /// Memory ran out.
    Memory,
}

/// Why a run wasn't finished.
#[derive(Clone, Copy, Debug, PartialEq, Eq)]
pub enum RunError {
    /// Memory ran out, for the answers or by the call after the first `answered`. All stands as after these.
    Memory { answered: usize },
}

impl From<AllocError> for CtxError {
    ghost from_gives = { λ _ error. error ≡ causes.Memory };

    fn from(_: AllocError) -> Self {
        CtxError::Memory
    }
}

impl From<ErrorCode> for P1Error {
    ghost from_gives = { λ code error. error ≡ errors.Errno (errno_of code) };

    fn from(code: ErrorCode) -> Self {
        P1Error::Errno(errno_of(code))
    }
}

impl From<HostError> for P1Error {
    ghost from_gives = { λ error given. given ≡ error_of error };

    fn from(error: HostError) -> Self {
        match error {
            HostError::Memory => P1Error::Memory,
            HostError::Code(code) => P1Error::from(code),
        }
    }
}

impl From<AllocError> for P1Error {
    ghost from_gives = { λ _ error. error ≡ errors.Memory };

    fn from(_: AllocError) -> Self {
        P1Error::Memory
    }
}

impl From<GuestError> for P1Error {
    ghost from_gives = { λ error given. given ≡ guest_fault error };

    fn from(error: GuestError) -> Self {
        match error {
            GuestError::PtrOverflow => P1Error::Trap(TrapKind::Pointer),
            GuestError::PtrOutOfBounds => P1Error::Trap(TrapKind::Pointer),
            GuestError::PtrNotAligned => P1Error::Trap(TrapKind::Pointer),
            GuestError::InvalidUtf8 => P1Error::Errno(Errno::Ilseq),
            GuestError::InvalidFlagValue => P1Error::Errno(Errno::Inval),
            GuestError::InvalidEnumValue => P1Error::Errno(Errno::Inval),
        }
    }
}

impl From<TableError> for P1Error {
    ghost from_gives = { λ refused given. given ≡ table_error_of refused };

    fn from(refused: TableError) -> Self {
        match refused {
            TableError::Full => P1Error::Trap(TrapKind::TableFull),
            TableError::NotPresent => P1Error::Errno(Errno::Badf),
            TableError::WrongKind => P1Error::Errno(Errno::Badf),
            TableError::Memory => P1Error::Memory,
        }
    }
}

impl From<FsError> for P1Error {
    ghost from_gives = { λ refused given. given ≡ view_error_of refused };

    fn from(refused: FsError) -> Self {
        match refused {
            FsError::Code(code) => P1Error::Errno(errno_named(code)),
            FsError::Trap(refused) => P1Error::from(refused),
            FsError::Memory => P1Error::Memory,
        }
    }
}

/// The error number of the same name.
pub fn errno_of(code: ErrorCode) -> Errno
    ensures { result ≡ errno_of code }
{
    match code {
        ErrorCode::Access => Errno::Acces,
        ErrorCode::Already => Errno::Already,
        ErrorCode::BadDescriptor => Errno::Badf,
        ErrorCode::Busy => Errno::Busy,
        ErrorCode::Exist => Errno::Exist,
        ErrorCode::FileTooLarge => Errno::Fbig,
        ErrorCode::IllegalByteSequence => Errno::Ilseq,
        ErrorCode::InProgress => Errno::Inprogress,
        ErrorCode::Interrupted => Errno::Intr,
        ErrorCode::Invalid => Errno::Inval,
        ErrorCode::Io => Errno::Io,
        ErrorCode::IsDirectory => Errno::Isdir,
        ErrorCode::Loop => Errno::Loop,
        ErrorCode::TooManyLinks => Errno::Mlink,
        ErrorCode::NameTooLong => Errno::Nametoolong,
        ErrorCode::NoEntry => Errno::Noent,
        ErrorCode::InsufficientMemory => Errno::Nomem,
        ErrorCode::InsufficientSpace => Errno::Nospc,
        ErrorCode::NotDirectory => Errno::Notdir,
        ErrorCode::NotEmpty => Errno::Notempty,
        ErrorCode::Unsupported => Errno::Notsup,
        ErrorCode::Overflow => Errno::Overflow,
        ErrorCode::NotPermitted => Errno::Perm,
        ErrorCode::Pipe => Errno::Pipe,
        ErrorCode::InvalidSeek => Errno::Spipe,
    }
}

/// The error number of the same name as a code of preview2, of which preview1 has each.
fn errno_named(code: types::ErrorCode) -> Errno
    ensures { result ≡ errno_named code }
{
    match code {
        types::ErrorCode::Access => Errno::Acces,
        types::ErrorCode::WouldBlock => Errno::Again,
        types::ErrorCode::Already => Errno::Already,
        types::ErrorCode::BadDescriptor => Errno::Badf,
        types::ErrorCode::Busy => Errno::Busy,
        types::ErrorCode::Deadlock => Errno::Deadlk,
        types::ErrorCode::Quota => Errno::Dquot,
        types::ErrorCode::Exist => Errno::Exist,
        types::ErrorCode::FileTooLarge => Errno::Fbig,
        types::ErrorCode::IllegalByteSequence => Errno::Ilseq,
        types::ErrorCode::InProgress => Errno::Inprogress,
        types::ErrorCode::Interrupted => Errno::Intr,
        types::ErrorCode::Invalid => Errno::Inval,
        types::ErrorCode::Io => Errno::Io,
        types::ErrorCode::IsDirectory => Errno::Isdir,
        types::ErrorCode::Loop => Errno::Loop,
        types::ErrorCode::TooManyLinks => Errno::Mlink,
        types::ErrorCode::MessageSize => Errno::Msgsize,
        types::ErrorCode::NameTooLong => Errno::Nametoolong,
        types::ErrorCode::NoDevice => Errno::Nodev,
        types::ErrorCode::NoEntry => Errno::Noent,
        types::ErrorCode::NoLock => Errno::Nolck,
        types::ErrorCode::InsufficientMemory => Errno::Nomem,
        types::ErrorCode::InsufficientSpace => Errno::Nospc,
        types::ErrorCode::NotDirectory => Errno::Notdir,
        types::ErrorCode::NotEmpty => Errno::Notempty,
        types::ErrorCode::NotRecoverable => Errno::Notrecoverable,
        types::ErrorCode::Unsupported => Errno::Notsup,
        types::ErrorCode::NoTty => Errno::Notty,
        types::ErrorCode::NoSuchDevice => Errno::Nxio,
        types::ErrorCode::Overflow => Errno::Overflow,
        types::ErrorCode::NotPermitted => Errno::Perm,
        types::ErrorCode::Pipe => Errno::Pipe,
        types::ErrorCode::ReadOnly => Errno::Rofs,
        types::ErrorCode::InvalidSeek => Errno::Spipe,
        types::ErrorCode::TextFileBusy => Errno::Txtbsy,
        types::ErrorCode::CrossDevice => Errno::Xdev,
    }
}

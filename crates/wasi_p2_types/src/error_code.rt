//! The codes of preview2.
ghost use Rattle.std.specs.Prelude.{◌≡◌};
ghost use Rattle.wasi_p2_types.specs.ErrorCodes.{code_named};
ghost use Rattle.wasi_p2_types.specs.declared.error_code.ErrorCode.TheVariants.{Overflow};

use crate::DatetimeError;
use std::num::TryFromIntError;

/// Why a call is refused: preview2's `error-code`. The 25 of them that the crates below know stand for POSIX's error
/// numbers; no call here answers another.
#[derive(Clone, Copy, Debug, PartialEq, Eq)]
pub enum ErrorCode {
    Access,
    WouldBlock,
    Already,
    BadDescriptor,
    Busy,
    Deadlock,
    Quota,
    Exist,
    FileTooLarge,
    IllegalByteSequence,
    InProgress,
    Interrupted,
    Invalid,
    Io,
    IsDirectory,
    Loop,
    TooManyLinks,
    MessageSize,
    NameTooLong,
    NoDevice,
    NoEntry,
    NoLock,
    InsufficientMemory,
    InsufficientSpace,
    NotDirectory,
    NotEmpty,
    NotRecoverable,
    Unsupported,
    NoTty,
    NoSuchDevice,
    Overflow,
    NotPermitted,
    Pipe,
    ReadOnly,
    InvalidSeek,
    TextFileBusy,
    CrossDevice,
}

/// The code of the same name.
impl From<wasi_host::ErrorCode> for ErrorCode {
    ghost from_gives = { λ code named. named ≡ code_named code };

    fn from(code: wasi_host::ErrorCode) -> Self {
        match code {
            wasi_host::ErrorCode::Access => ErrorCode::Access,
            wasi_host::ErrorCode::Already => ErrorCode::Already,
            wasi_host::ErrorCode::BadDescriptor => ErrorCode::BadDescriptor,
            wasi_host::ErrorCode::Busy => ErrorCode::Busy,
            wasi_host::ErrorCode::Exist => ErrorCode::Exist,
            wasi_host::ErrorCode::FileTooLarge => ErrorCode::FileTooLarge,
            wasi_host::ErrorCode::IllegalByteSequence => ErrorCode::IllegalByteSequence,
            wasi_host::ErrorCode::InProgress => ErrorCode::InProgress,
            wasi_host::ErrorCode::Interrupted => ErrorCode::Interrupted,
            wasi_host::ErrorCode::Invalid => ErrorCode::Invalid,
            wasi_host::ErrorCode::Io => ErrorCode::Io,
            wasi_host::ErrorCode::IsDirectory => ErrorCode::IsDirectory,
            wasi_host::ErrorCode::Loop => ErrorCode::Loop,
            wasi_host::ErrorCode::TooManyLinks => ErrorCode::TooManyLinks,
            wasi_host::ErrorCode::NameTooLong => ErrorCode::NameTooLong,
            wasi_host::ErrorCode::NoEntry => ErrorCode::NoEntry,
            wasi_host::ErrorCode::InsufficientMemory => ErrorCode::InsufficientMemory,
            wasi_host::ErrorCode::InsufficientSpace => ErrorCode::InsufficientSpace,
            wasi_host::ErrorCode::NotDirectory => ErrorCode::NotDirectory,
            wasi_host::ErrorCode::NotEmpty => ErrorCode::NotEmpty,
            wasi_host::ErrorCode::Unsupported => ErrorCode::Unsupported,
            wasi_host::ErrorCode::Overflow => ErrorCode::Overflow,
            wasi_host::ErrorCode::NotPermitted => ErrorCode::NotPermitted,
            wasi_host::ErrorCode::Pipe => ErrorCode::Pipe,
            wasi_host::ErrorCode::InvalidSeek => ErrorCode::InvalidSeek,
        }
    }
}

/// A number that its type doesn't hold is refused Overflow.
impl From<TryFromIntError> for ErrorCode {
    ghost from_gives = { λ _ code. code ≡ Overflow };

    fn from(_: TryFromIntError) -> Self {
        ErrorCode::Overflow
    }
}

/// A moment that its type doesn't hold is refused Overflow.
impl From<DatetimeError> for ErrorCode {
    ghost from_gives = { λ _ code. code ≡ Overflow };

    fn from(_: DatetimeError) -> Self {
        ErrorCode::Overflow
    }
}

//! Why a call of a view isn't answered Ok.
ghost use Rattle.std.specs.Prelude.{◌≡◌};
ghost use Rattle.wasi_p2_types.specs.ErrorCodes.{code_named};
ghost use Rattle.wasi_p2_types.specs.FsErrors.{code_of_error, fs_error, table_error};
ghost use Rattle.wasi_p2_types.specs.declared.error.FsError.TheVariants.{Code, Memory};

use crate::error_code::ErrorCode;
use std::alloc::AllocError;
use wasi_host::HostError;
use wasi_streams::TableError;

/// Why a call didn't succeed: the crate's `FsError`, a code or a trap, and or out of memory.
#[derive(Clone, Copy, Debug, PartialEq, Eq)]
pub enum FsError {
    /// The call is refused with this code.
    Code(ErrorCode),
    /// The table refuses the call: a resource is missing or of another kind, or there would be too many. Of
    /// `TableError`'s values it never carries `Memory`.
    Trap(TableError),
    /// Memory ran out.
    Memory,
}

impl FsError {
    /// The code of a refusal, or the refusal where it has none: the crate's `downcast`.
    pub fn downcast(self) -> Result<ErrorCode, FsError>
        ensures code { result ≡ code_of_error self }
    {
        match self {
            FsError::Code(code) => Ok(code),
            FsError::Trap(refused) => Err(FsError::Trap(refused)),
            FsError::Memory => Err(FsError::Memory),
        }
    }
}

/// What a call that may be refused so answers: the crate's `FsResult`.
pub type FsResult<T> = Result<T, FsError>;

impl From<ErrorCode> for FsError {
    ghost from_gives = { λ code error. error ≡ Code code };

    fn from(code: ErrorCode) -> Self {
        FsError::Code(code)
    }
}

impl From<wasi_host::ErrorCode> for FsError {
    ghost from_gives = { λ code error. error ≡ Code (code_named code) };

    fn from(code: wasi_host::ErrorCode) -> Self {
        FsError::Code(ErrorCode::from(code))
    }
}

impl From<HostError> for FsError {
    ghost from_gives = { λ refused error. error ≡ fs_error refused };

    fn from(refused: HostError) -> Self {
        match refused {
            HostError::Code(code) => FsError::Code(ErrorCode::from(code)),
            HostError::Memory => FsError::Memory,
        }
    }
}

impl From<TableError> for FsError {
    ghost from_gives = { λ refused error. error ≡ table_error refused };

    fn from(refused: TableError) -> Self {
        match refused {
            TableError::Full => FsError::Trap(TableError::Full),
            TableError::NotPresent => FsError::Trap(TableError::NotPresent),
            TableError::WrongKind => FsError::Trap(TableError::WrongKind),
            TableError::Memory => FsError::Memory,
        }
    }
}

impl From<AllocError> for FsError {
    ghost from_gives = { λ _ error. error ≡ Memory };

    fn from(_: AllocError) -> Self {
        FsError::Memory
    }
}

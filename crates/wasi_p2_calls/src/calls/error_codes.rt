//! The calls of a view that tell the codes of errors.
ghost use Rattle.std.specs.Prelude.{◌≡◌};
ghost use Rattle.wasi_p2_types.specs.FsErrors.{code_of_error, stream_code};

use crate::types::ErrorCode;
use crate::{FsError, WasiFilesystemCtxView};
use wasi_host::Host;
use wasi_streams::StreamError;

/// Each call leaves the context and the table as they were.
impl<'a, H: Host> WasiFilesystemCtxView<'a, H> {
    /// The code of a refusal; a trap and out of memory have none, and are given back.
    pub fn convert_error_code(&mut self, err: FsError) -> Result<ErrorCode, FsError>
        ensures same_ctx { self.new.ctx.ghost_name ≡ self.old.ctx.ghost_name }
        ensures same_table { self.new.table.ghost_name ≡ self.old.table.ghost_name }
        ensures ctx { self.new.ctx.now ≡ self.old.ctx.now }
        ensures table { self.new.table.now ≡ self.old.table.now }
        ensures code { result ≡ code_of_error err }
    {
        err.downcast()
    }

    /// The code that a stream's read or write was refused with, `None` exactly of another error of a stream.
    pub fn filesystem_error_code(&mut self, err: &StreamError) -> Option<ErrorCode>
        ensures same_ctx { self.new.ctx.ghost_name ≡ self.old.ctx.ghost_name }
        ensures same_table { self.new.table.ghost_name ≡ self.old.table.ghost_name }
        ensures ctx { self.new.ctx.now ≡ self.old.ctx.now }
        ensures table { self.new.table.now ≡ self.old.table.now }
        ensures code { result ≡ stream_code err.now }
    {
        match err {
            StreamError::LastOperationFailed(code) => Some(ErrorCode::from(*code)),
            StreamError::Closed => None,
            StreamError::Trap(_) => None,
            StreamError::Memory => None,
        }
    }
}

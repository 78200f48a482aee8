//! The calls of a named view that tell the codes of errors.
ghost use Rattle.std.specs.Prelude.{◌≡◌, ◌<◌, length};
ghost use Rattle.wasi_p2_types.specs.FsErrors.{code_of_error, stream_code};
ghost use Rattle.wasi_p2.specs.Named.{OneDoes};

use crate::{NamedId, WasiCtxNamedView, WasiFilesystemNamedView};
use wasi_host::Host;
use wasi_p2_calls::types::ErrorCode;
use wasi_p2_calls::{FsError, WasiFilesystemCtxView};
use wasi_streams::StreamError;

impl<'a, T> WasiCtxNamedView<'a, T> {
    /// The code of a refusal; a trap and out of memory have none, and are given back. It is that of no view: what has
    /// them stays as it is.
    pub fn convert_error_code(&mut self, err: FsError) -> Result<ErrorCode, FsError>
        ensures same { self.new.0 ≡ self.old.0 }
        ensures code { result ≡ code_of_error err }
    {
        err.downcast()
    }

    /// `filesystem_error_code` of the view at a place.
    pub fn filesystem_error_code<H: Host>(
        &mut self,
        id: NamedId,
        err: &StreamError,
    ) -> Option<ErrorCode>
    where
        T: WasiFilesystemNamedView<H>,
        requires named { id.0 < length (T.all self.old.0.now) }
        ensures same { self.new.0.ghost_name ≡ self.old.0.ghost_name }
        ensures stays { OneDoes (T.all self.old.0.now) (T.all self.new.0.now) id.0
            (λ old new. (new.ctx ≡ old.ctx) × (new.table ≡ old.table)) }
        ensures code { result ≡ stream_code err.now }
    {
        self.0.with_filesystem(id, |ctx, table| {
            let mut view = WasiFilesystemCtxView { ctx, table };
            view.filesystem_error_code(err)
        })
    }
}

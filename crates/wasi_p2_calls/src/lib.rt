//! Preview2's calls on a guest's files: each is a call of what its resource refers to.
#![tactic(auto)]

mod calls;
mod context;
mod entries;
mod lookup;
mod preopens;
mod read_result;
pub mod types;

pub use context::{Preopen, WasiFilesystemCtx, WasiFilesystemCtxView};
pub use preopens::PreopenEntry;
pub use read_result::ReadResult;
pub use wasi_p2_types::{FsError, FsResult};

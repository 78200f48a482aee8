//! Those that lend a view of a guest's files, one or one of several, and preview2's calls on a view among several: each is
//! the call of that view.
#![tactic(auto)]

mod named;
mod views;

pub use views::{
    FilesystemPair, NamedId, WasiCtxNamedView, WasiFilesystemNamedView, WasiFilesystemView,
};

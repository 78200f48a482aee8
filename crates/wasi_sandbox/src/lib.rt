//! A guest's calls inside another program, as an engine of WebAssembly: a sandbox is begun by the text of a script that
//! has no calls, each call works on the memory that the program lends it, and the report tells how the sandbox stands. Many
//! sandboxes may stand over one tree, each with its own changes.
#![tactic(auto)]

mod any;
mod base;
mod error;
mod guest_end;
mod records;
mod result_layout;
mod sandbox;
mod starting;
mod tree;
mod tree_builder;

pub use any::AnySandbox;
pub use base::Base;
pub use error::StartError;
pub use guest_end::GuestEnd;
pub use records::{fdstat_bytes, filestat_bytes, prestat_bytes};
pub use result_layout::ResultLayout;
pub use sandbox::Sandbox;
pub use starting::{start, start_on, start_over};
pub use tree::SandboxTree;
pub use tree_builder::{BuildError, TreeBuilder};
pub use wasi_call_table::Shape;
pub use wasi_form::DEFAULT_LIMITS;
pub use wasi_guest::QuotaUsed;
pub use wasi_host::Limits;
pub use wasi_overlay::Overlay;
pub use wasi_p1::{Call, Errno, P1Error, TrapKind, Value};
pub use wasi_tree::{ContentView, MemTree, NewContent, NewEntry, NewNode, NodeView};

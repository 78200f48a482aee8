//! The calls of a sandbox for C, and for each program that calls C's functions. `embed/zurgwenad/wasi.h` declares them, and
//! `docs/embedding.md` says what a caller owes.
//!
//! Each of these functions takes a `Global`, by which an export of the kit says that C's `malloc` and `free` may be
//! called: it has no bytes, and C hands in nothing for it. The functions that begin, tell and commit use theirs; in the
//! others what the sandbox holds has its own.
#![tactic(auto)]

mod answer;
mod base;
mod boxed;
mod calls;
mod codes;
mod handle;
mod life;
mod results;

pub use base::BaseHandle;
pub use handle::SandboxHandle;
pub use results::{NodeRecord, TimeRecord};

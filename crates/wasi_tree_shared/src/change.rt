//! A change that others make.
use wasi_tree::TreeChange;

/// A change that others make to a tree before the host's call of a number. Calls are numbered from 1 on, and `dup` and
/// `close` have none; so a change before call 0 is never made.
#[derive(Debug, Drop)]
pub struct Change {
    pub before: u64,
    pub what: TreeChange,
}

//! What a walk takes with it.

use crate::parts_left::PartLeft;
use wasi_host::Handle;

/// Where a walk stands.
#[derive(Debug, Drop)]
pub(crate) struct Way<'p> {
    /// The handles of the directories that it went down into, the last one on top.
    pub(crate) stack: Vec<Handle>,
    /// The parts that it has still to take. The next one stands last.
    pub(crate) left: Vec<PartLeft<'p>>,
}

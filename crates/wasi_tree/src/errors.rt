//! Why a tree in memory gives nothing.
ghost use Rattle.std.specs.Prelude.{◌≡◌};
ghost use Rattle.wasi_tree.specs.declared.errors.TreeError.TheVariants as tree;
ghost use Rattle.wasi_tree.specs.declared.errors.HandleError.TheVariants as handle;

use std::alloc::AllocError;

/// Why no tree is made of a list of nodes.
#[derive(Clone, Copy, Debug, PartialEq, Eq)]
pub enum TreeError {
    /// This number breaks the rules of `MemTree::new`, and none below it does.
    Invalid(u64),
    /// Memory ran out.
    Memory,
}

impl From<AllocError> for TreeError {
    ghost from_gives = { λ _ e. e ≡ tree.Memory };

    fn from(_: AllocError) -> Self {
        TreeError::Memory
    }
}

/// Why a handle isn't given for a node.
#[derive(Clone, Copy, Debug, PartialEq, Eq)]
pub enum HandleError {
    /// The number is no directory's.
    NotDirectory,
    /// Memory ran out.
    Memory,
}

impl From<AllocError> for HandleError {
    ghost from_gives = { λ _ e. e ≡ handle.Memory };

    fn from(_: AllocError) -> Self {
        HandleError::Memory
    }
}

//! Why no sandbox is begun.
ghost use Rattle.std.specs.Prelude.{◌≡◌};
ghost use Rattle.wasi_sandbox.specs.Starting.{start_error, tree_start_error};
ghost use Rattle.wasi_sandbox.specs.declared.error.StartError.TheVariants as errors;

use std::alloc::AllocError;
use thiserror::Error;
use wasi_form::{Refusal, ScriptError};
use wasi_tree::TreeError;

/// Why no sandbox is begun.
#[derive(Debug, Drop, Error)]
pub enum StartError {
    /// The text isn't a script; or it isn't within the limits over the tree that stays, of which each preopen has to be
    /// a directory.
    #[error("script refused")]
    Refused(Refusal),
    /// The script has calls, a memory or ranges of it to be shown. A sandbox's guest makes its own calls, and its
    /// engine has its memory.
    #[error("the script has calls, a memory or ranges of it to be shown")]
    Guest,
    /// The script of a sandbox over a tree that stays has nodes, or limits other than those of a script that doesn't
    /// say them. Such a sandbox has the nodes and the limits of its tree.
    #[error("the script has nodes or limits of its own")]
    OwnTree,
    /// The nodes that were given are no tree: this number breaks the rules of `MemTree::new`, and none below it does.
    #[error("the nodes are no tree, by node {0}")]
    Nodes(u64),
    /// Memory ran out.
    #[error("out of memory")]
    Memory,
}

impl From<AllocError> for StartError {
    ghost from_gives = { λ _ error. error ≡ errors.Memory };

    fn from(_: AllocError) -> Self {
        StartError::Memory
    }
}

impl From<ScriptError> for StartError {
    ghost from_gives = { λ error given. given ≡ start_error error };

    fn from(error: ScriptError) -> Self {
        match error {
            ScriptError::Refused(refusal) => StartError::Refused(refusal),
            ScriptError::Memory => StartError::Memory,
        }
    }
}

impl From<TreeError> for StartError {
    ghost from_gives = { λ error given. given ≡ tree_start_error error };

    fn from(error: TreeError) -> Self {
        match error {
            TreeError::Invalid(number) => StartError::Nodes(number),
            TreeError::Memory => StartError::Memory,
        }
    }
}

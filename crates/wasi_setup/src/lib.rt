//! How a script begins: the context and the memory in which its calls are made, and what of the memory is shown after
//! them.
#![tactic(auto)]

mod script_tree;
mod setup;

pub use script_tree::ScriptTree;
pub use setup::{Setup, begin, begin_over, first_context, first_memory, shown};

//! The script of the words `gen N`: a tree of N directories, N files and N links, and four calls at each of the links.
#![tactic(auto)]

mod calls;
mod nodes;
mod script;

pub use script::gen_script;

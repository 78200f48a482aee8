//! The program `test_tree_shared`: it tries tables of paths that are opened in trees which others change meanwhile. Its
//! standard input is the tables, which say what their lines are.
#![tactic(auto)]

mod changes;
mod trees;
mod walks;

use std::process::ExitCode;
use test_support::try_table;
use walks::WalkRows;

fn main(rt: HostRuntime) -> ExitCode {
    try_table(rt.alloc(), rt.stdin(), rt.stdout(), &mut WalkRows)
}

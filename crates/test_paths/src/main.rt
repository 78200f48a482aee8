//! The program `test_paths`: it tries tables of calls on paths over a tree in memory, of the resolver and of
//! directories. Its standard input is the tables, which say what their lines are.
#![tactic(auto)]

mod descriptors;
mod dirs;
mod paths;
mod trees;

use std::process::ExitCode;
use test_support::try_table;
use trees::PathRows;

fn main(rt: HostRuntime) -> ExitCode {
    let Ok(mut rows) = PathRows::new(rt.alloc()) else {
        return ExitCode::FAILURE;
    };
    try_table(rt.alloc(), rt.stdin(), rt.stdout(), &mut rows)
}

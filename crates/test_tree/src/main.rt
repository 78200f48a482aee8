//! The program `test_tree`: it tries tables of calls of a tree in memory. Its standard input is the tables, which say
//! what their lines are.
#![tactic(auto)]

mod calls;
mod listed;
mod opened;
mod overlays;
mod readers;
mod reports;
mod trees;

use std::process::ExitCode;
use test_support::try_table;
use trees::TreeRows;

fn main(rt: HostRuntime) -> ExitCode {
    let Ok(mut rows) = TreeRows::new(rt.alloc()) else {
        return ExitCode::FAILURE;
    };
    try_table(rt.alloc(), rt.stdin(), rt.stdout(), &mut rows)
}

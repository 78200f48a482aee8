//! The program `test_p2`: it tries tables of preview2's calls over trees in memory, on a view and on one of
//! several. Its standard input is the tables, which say what their lines are.
#![tactic(auto)]

mod answers;
mod calls;
mod guests;
mod lines;
mod trees;

use lines::ViewRows;
use std::process::ExitCode;
use test_support::try_table;

fn main(rt: HostRuntime) -> ExitCode {
    try_table(rt.alloc(), rt.stdin(), rt.stdout(), &mut ViewRows)
}

//! The program `test_streams`: it tries tables of calls on streams over a file in memory, and on the table of
//! resources. Its standard input is the tables, which say what their lines are.
#![tactic(auto)]

mod along;
mod amounts;
mod files;
mod inputs;
mod outputs;
mod tables;

use files::StreamRows;
use std::process::ExitCode;
use test_support::try_table;

fn main(rt: HostRuntime) -> ExitCode {
    try_table(rt.alloc(), rt.stdin(), rt.stdout(), &mut StreamRows)
}

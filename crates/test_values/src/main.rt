//! The program `test_values`: it tries tables of what functions of the crates give for plain values. Its standard input
//! is the table, which says what the lines are.
#![tactic(auto)]

mod ends;
mod flags;
mod guest;
mod host;
mod nodes;
mod numbers;
mod paths;
mod records;

use std::process::ExitCode;
use test_support::{Answering, Asked, Rendered, try_table, unknown, word};

/// What answers the lines.
#[derive(Drop)]
struct Values;

impl Answering for Values {
    fn answer(&mut self, asked: &Asked<'_>) -> Rendered {
        let alloc = asked.alloc;
        let (what, rest) = word(asked.rest);
        match asked.what {
            "path" => paths::answer(alloc, what, rest),
            "name" => paths::name_answer(alloc, what, rest),
            "host" => host::answer(alloc, what, rest),
            "options" => host::options_answer(alloc, what, rest),
            "node" => nodes::answer(alloc, what, rest),
            "flags" => flags::answer(alloc, what, rest),
            "guest" => guest::answer(alloc, what, rest),
            "record" => records::answer(alloc, what, rest),
            "number" => numbers::answer(alloc, what, rest),
            "ends" => ends::answer(alloc, what, rest),
            _ => unknown(alloc),
        }
    }
}

fn main(rt: HostRuntime) -> ExitCode {
    try_table(rt.alloc(), rt.stdin(), rt.stdout(), &mut Values)
}

//! The program `test_run_calls`: reports of scripts, by `run_script` and by the calls that it stands on.
//!
//! Called with no words, it reads scripts from its standard input, a line each, and runs each with every one of its
//! first twelve host calls failing in turn, before it is made and after: where `FAULTS` stands in a script, the fault
//! is put. The report that `run_script` writes has to be the one that `report` gives of what `run_calls` comes to over
//! a tree in memory whose calls fail so.
//!
//! Called with the word `refused`, by a tool that refuses a request for memory, it runs each script by `run_calls`;
//! where memory ran out it makes the calls again that weren't answered, and holds what comes of it against a run in
//! which nothing was refused. It ends with status 3 if memory ran out elsewhere.
//!
//! Called with the word `made`, by the same tool, it reads nothing, and makes the script of `gen 100`, of which nothing
//! is run: so the requests for memory of that alone can be counted. It ends with status 3 if memory ran out.
//!
//! Empty lines and those that begin with `#` are nothing.
#![tactic(auto)]

mod by_calls;
mod by_script;
mod faults;
mod refused;
mod setup;

use faults::try_faults;
use refused::try_refused;
use std::process::ExitCode;
use std::{env, io};
use test_support::{Tally, input_text};
use wasi_script_gen::gen_script;

const WANTED_ELSEWHERE: u8 = 3;

// The number of the script that is made.
const MADE: u64 = 100;

/// What the program is called for.
#[derive(Clone, Copy, PartialEq, Eq)]
enum Way {
    Faults,
    Refused,
    Made,
}

// What the first word after the program's name asks for.
fn way_asked(rt: &HostRuntime) -> io::Result<Way> {
    let mut words = env::args(rt)?;
    let _program = words.next();
    let Some(word) = words.next() else {
        return Ok(Way::Faults);
    };
    Ok(match word.as_str() {
        "refused" => Way::Refused,
        "made" => Way::Made,
        _ => Way::Faults,
    })
}

// Makes the script of a number.
fn make(rt: &HostRuntime) -> io::Result<ExitCode> {
    let script = gen_script(rt.alloc(), MADE)?;
    println!(rt; "{} calls", script.session.calls.len())?;
    Ok(ExitCode::SUCCESS)
}

// Tries each line that is a script.
fn try_all(rt: &HostRuntime, text: &str, way: Way) -> io::Result<Tally> {
    let mut tally = Tally::new();
    for line in text.lines() {
        if line.is_empty() || line.starts_with('#') {
            continue;
        }
        tally = if way == Way::Refused {
            try_refused(rt, tally, line)?
        } else {
            try_faults(rt, tally, line)?
        };
    }
    Ok(tally)
}

fn run(rt: &HostRuntime) -> io::Result<ExitCode> {
    let way = way_asked(rt)?;
    if way == Way::Made {
        return make(rt);
    }
    let Some(text) = input_text(rt, rt.stdin(), "test_run_calls")? else {
        return Ok(ExitCode::FAILURE);
    };
    try_all(rt, text.as_str(), way)?.end(rt, "reports")
}

fn main(rt: HostRuntime) -> ExitCode {
    match run(&rt) {
        Ok(code) => code,
        Err(_) => ExitCode::from(WANTED_ELSEWHERE),
    }
}

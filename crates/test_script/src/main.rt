//! The program `test_script`: it runs the scripts of the rows that its standard input has, and prints each row of which
//! the run ended otherwise than the row says, and then how many rows agree.
//!
//! A row is two lines, `WORD SCRIPT` and `EXIT TEXT`. The file `line.rt` says what they are.
#![tactic(auto)]

mod line;
mod repeats;
mod row;

use line::{Asked, Line};
use std::io;
use std::process::ExitCode;
use test_support::{Tally, input_text};

// A row's first line, and its number.
#[derive(Clone, Copy)]
struct Open<'a> {
    number: usize,
    asked: Asked<'a>,
}

const NO_SECOND: &str = "its line `EXIT TEXT` isn't there";

const NO_FIRST: &str = "the line `WORD SCRIPT` before it isn't there";

// Counts a row that doesn't agree, and prints why, with the number of its line.
fn broken(rt: &HostRuntime, tally: &mut Tally, number: usize, why: &str) -> io::Result<()> {
    *tally = tally.with(false);
    println!(rt; "line {number}: {why}")
}

// Counts a row, and prints in what the run of its script differs from it.
fn count(
    rt: &HostRuntime,
    tally: &mut Tally,
    number: usize,
    difference: Option<String>,
) -> io::Result<()> {
    match difference {
        None => {
            *tally = tally.with(true);
            Ok(())
        }
        Some(difference) => broken(rt, tally, number, difference.as_str()),
    }
}

// Takes a line after those before it, of which a row may be open: the row that is open then.
fn next_line<'a>(
    rt: &HostRuntime,
    tally: &mut Tally,
    open: Option<Open<'a>>,
    number: usize,
    line: Line<'a>,
) -> io::Result<Option<Open<'a>>> {
    match (open, line) {
        (Some(Open { number, asked }), Line::Wanted(wanted)) => {
            let difference = row::difference(rt.alloc(), asked, wanted)?;
            count(rt, tally, number, difference)?;
            Ok(None)
        }
        (None, Line::Wanted(_)) => {
            broken(rt, tally, number, NO_FIRST)?;
            Ok(None)
        }
        (open, line) => {
            if let Some(Open { number, .. }) = open {
                broken(rt, tally, number, NO_SECOND)?;
            }
            Ok(line.asked().map(|asked| Open { number, asked }))
        }
    }
}

fn run_rows(rt: &HostRuntime, text: &str) -> io::Result<Tally> {
    let mut tally = Tally::new();
    let mut open = None;
    let mut number: usize = 0;
    for line in text.lines() {
        number = number.saturating_add(1);
        open = next_line(rt, &mut tally, open, number, Line::of(line))?;
    }
    let _ = next_line(rt, &mut tally, open, number, Line::Nothing)?;
    Ok(tally)
}

fn main(rt: HostRuntime) -> io::Result<ExitCode> {
    let Some(text) = input_text(&rt, rt.stdin(), "test_script")? else {
        return Ok(ExitCode::FAILURE);
    };
    run_rows(&rt, text.as_str())?.end(&rt, "rows")
}

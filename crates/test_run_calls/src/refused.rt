//! Scripts in which memory may be refused.
use crate::setup::Begun;
use std::alloc::{AllocError, Global};
use std::io;
use test_support::Tally;
use wasi_p1::RunError;

/// What came of a script in which memory may have been refused.
#[derive(Clone, Copy)]
enum Tried {
    /// It is no script.
    NoScript,
    /// All its calls were answered.
    Answered,
    /// Memory ran out after so many answers. Whether it went on from there as a run in which nothing was refused.
    Wanted { answered: usize, went_on: bool },
}

// Makes the calls that weren't answered, and says whether all is as in a run in which nothing was refused.
fn goes_on(
    alloc: Global,
    script: &[u8],
    run: &mut Begun,
    answered: usize,
) -> Result<bool, AllocError> {
    run.skip(answered)?;
    let one = run.end()?;
    match Begun::of(alloc, script)? {
        Some(mut other) => Ok(one.agrees(&other.end()?, answered)),
        None => Ok(false),
    }
}

// Runs a script, and goes on if memory ran out.
fn try_script(alloc: Global, script: &[u8]) -> Result<Tried, AllocError> {
    let Some(mut run) = Begun::of(alloc, script)? else {
        return Ok(Tried::NoScript);
    };
    match run.run() {
        Ok(_) => Ok(Tried::Answered),
        Err(RunError::Memory { answered }) => {
            let went_on = goes_on(alloc, script, &mut run, answered)?;
            Ok(Tried::Wanted { answered, went_on })
        }
    }
}

/// Tries a script.
pub fn try_refused(rt: &HostRuntime, tally: Tally, line: &str) -> io::Result<Tally> {
    match try_script(rt.alloc(), line.as_bytes())? {
        Tried::NoScript => {
            println!(rt; "a line is no script")?;
            Ok(tally.with(false))
        }
        Tried::Answered => Ok(tally.with(true)),
        Tried::Wanted { answered, went_on } => {
            println!(rt; "memory was wanted behind {answered} answers")?;
            Ok(tally.with(went_on))
        }
    }
}

//! Scripts with a fault.
use crate::by_calls::report_by_calls;
use crate::by_script::report_by_script;
use std::alloc::{AllocError, Global};
use std::io;
use test_support::Tally;

// How many host calls of a script are to fail, each in turn.
const CALLS: u64 = 12;

// The script in which this host call fails, where `FAULTS` stands in the text.
fn with_fault(
    alloc: Global,
    text: &str,
    number: u64,
    when: &str,
) -> Result<Option<String>, AllocError> {
    let Some((front, end)) = text.split_once("FAULTS") else {
        return Ok(None);
    };
    Ok(Some(format!(in alloc; "{front}[[{number},\"{when}\"]]{end}")?))
}

// Whether both ways to a report of a script come to the same bytes.
fn agrees(alloc: Global, script: &[u8]) -> Result<bool, AllocError> {
    let by_script = report_by_script(alloc, script)?;
    let by_calls = report_by_calls(alloc, script)?;
    Ok(match (by_script, by_calls) {
        (Some(one), Some(other)) => one.as_slice() == other.as_slice(),
        _ => false,
    })
}

// Tries a script with one of its host calls failing.
fn try_fault(
    rt: &HostRuntime,
    tally: Tally,
    line: &str,
    number: u64,
    when: &str,
) -> io::Result<Tally> {
    let Some(script) = with_fault(rt.alloc(), line, number, when)? else {
        println!(rt; "no FAULTS stands in a script")?;
        return Ok(tally.with(false));
    };
    let agrees = agrees(rt.alloc(), script.as_bytes())?;
    if !agrees {
        println!(rt; "host call {number}, failing {when}: the reports differ")?;
    }
    Ok(tally.with(agrees))
}

/// Tries a script with each of its first host calls failing.
pub fn try_faults(rt: &HostRuntime, tally: Tally, line: &str) -> io::Result<Tally> {
    let mut tally = tally;
    for number in 1..=CALLS {
        tally = try_fault(rt, tally, line, number, "before")?;
        tally = try_fault(rt, tally, line, number, "after")?;
    }
    Ok(tally)
}

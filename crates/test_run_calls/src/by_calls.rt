//! The report by the calls that the program stands on.
use crate::setup::Begun;
use std::alloc::{AllocError, Global};

/// The report of a script's calls, made over a tree in memory whose calls fail as it says, if it can be run.
pub fn report_by_calls(alloc: Global, script: &[u8]) -> Result<Option<Vec<u8>>, AllocError> {
    match Begun::of(alloc, script)? {
        Some(mut begun) => Ok(Some(begun.report()?)),
        None => Ok(None),
    }
}

//! How times are asked for, and how a host's answers are told.
use crate::line::{Rendered, number, rendered};
use std::alloc::{AllocError, Global};
use std::fmt::Debug;
use wasi_host::{ErrorCode, HostError, Metadata, SystemTime, system_time_from_rustix};

/// `SECONDS`, or `SECONDS+NANOSECONDS`. None where it is no number.
pub fn time_of(word: &str) -> Option<SystemTime> {
    let (seconds, nanoseconds) = word.split_once('+').unwrap_or((word, "0"));
    match seconds.parse::<i64>() {
        Ok(seconds) => system_time_from_rustix(seconds, number(nanoseconds)),
        Err(_) => None,
    }
}

/// The code of a refusal.
pub fn refused(alloc: Global, error: HostError) -> Rendered {
    match error {
        HostError::Code(code) => rendered(alloc, &code),
        HostError::Memory => Err(AllocError),
    }
}

/// `ok`, or the code of the refusal.
pub fn done(alloc: Global, answer: Result<(), HostError>) -> Rendered {
    match answer {
        Ok(()) => String::from_str(alloc, "ok"),
        Err(error) => refused(alloc, error),
    }
}

/// What is answered, or the code of the refusal.
pub fn answered<T: Debug + Drop>(alloc: Global, answer: Result<T, HostError>) -> Rendered {
    match answer {
        Ok(value) => rendered(alloc, &value),
        Err(error) => refused(alloc, error),
    }
}

/// The node's number, its kind, its size, and its count of links; or the code of the refusal.
pub fn rendered_node(alloc: Global, answer: Result<Metadata, HostError>) -> Rendered {
    match answer {
        Ok(is) => rendered(alloc, &(is.ino(), is.file_type(), is.len(), is.nlink())),
        Err(error) => refused(alloc, error),
    }
}

/// The node's times of last read, last change and creation; or the code of the refusal.
pub fn rendered_times(alloc: Global, answer: Result<Metadata, HostError>) -> Rendered {
    match answer {
        Ok(is) => rendered(alloc, &(is.accessed(), is.modified(), is.created())),
        Err(error) => refused(alloc, error),
    }
}

/// The answer of a call that takes no memory, its code as a `HostError`.
pub fn coded<T>(answer: Result<T, ErrorCode>) -> Result<T, HostError> {
    match answer {
        Ok(value) => Ok(value),
        Err(code) => Err(HostError::Code(code)),
    }
}

//! Records as they stand in a guest's memory.
use std::alloc::{AllocError, Global};
use test_support::{number, rendered, unknown, word};
use wasi_guest::{Dirent, Event};

pub fn answer(alloc: Global, what: &str, rest: &str) -> Result<String, AllocError> {
    match what {
        "event" => rendered(alloc, &event_of(rest).to_bytes()),
        "dirent" => rendered(alloc, &dirent_of(rest).to_bytes()),
        _ => unknown(alloc),
    }
}

// `USERDATA ERROR KIND NBYTES FLAGS`.
fn event_of(text: &str) -> Event {
    let (userdata, rest) = word(text);
    let (error, rest) = word(rest);
    let (kind, rest) = word(rest);
    let (nbytes, flags) = word(rest);
    Event {
        userdata: number(userdata),
        error: error.parse::<u16>().unwrap_or(0),
        kind: kind.parse::<u8>().unwrap_or(0),
        nbytes: number(nbytes),
        flags: flags.parse::<u16>().unwrap_or(0),
    }
}

// `NEXT NODE LENGTH TYPE`.
fn dirent_of(text: &str) -> Dirent {
    let (next, rest) = word(text);
    let (node, rest) = word(rest);
    let (length, kind) = word(rest);
    Dirent {
        d_next: number(next),
        d_ino: number(node),
        d_namlen: length.parse::<u32>().unwrap_or(0),
        d_type: kind.parse::<u8>().unwrap_or(0),
    }
}

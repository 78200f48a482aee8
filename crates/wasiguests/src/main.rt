//! The program `wasiguests`: it reads a script of several guests over one tree of files, runs
//! them in turns, and writes what they come to.
#![tactic(auto)]

use std::env;
use std::io::ErrorKind;
use std::process::ExitCode;
use wasi_guests::{GuestStatus, run_guest_script};
use wasi_io::{StdinSource, StdoutSink, words_after_name};

// The words after the program's name; none where one of them isn't a text.
fn command_line(rt: &HostRuntime) -> Option<Vec<String>> {
    match env::args(rt) {
        Ok(args) => words_after_name(rt.alloc(), args).ok(),
        Err(error) if error.kind() == ErrorKind::InvalidData => Some(Vec::new(rt.alloc())),
        Err(_) => None,
    }
}

// Says for a person what happened, where nothing that the guests came to was written.
#[cold]
#[inline(never)]
fn tell(rt: &HostRuntime, status: GuestStatus) {
    if let Some(message) = status.message() {
        let _ = eprintln!(rt; "{message}");
    }
}

fn main(rt: HostRuntime) -> ExitCode {
    let status = match command_line(&rt) {
        Some(words) => {
            let mut source = StdinSource::new(rt.stdin());
            let mut sink = StdoutSink::new(rt.stdout());
            run_guest_script(rt.alloc(), &words, &mut source, &mut sink)
        }
        None => GuestStatus::NoMemory,
    };
    if status != GuestStatus::Done {
        tell(&rt, status);
    }
    ExitCode::from(status.exit_code())
}

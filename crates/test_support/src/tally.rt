//! How many things agree with what is wanted of them.
use std::io;
use std::process::ExitCode;

/// How many agree, and how many don't.
#[derive(Clone, Copy)]
pub struct Tally {
    pub agree: u64,
    pub others: u64,
}

impl Tally {
    /// Of none yet.
    pub fn new() -> Tally {
        Tally {
            agree: 0,
            others: 0,
        }
    }

    /// With one more.
    pub fn with(self, agrees: bool) -> Tally {
        if agrees {
            Tally {
                agree: self.agree.saturating_add(1),
                ..self
            }
        } else {
            Tally {
                others: self.others.saturating_add(1),
                ..self
            }
        }
    }

    /// Prints how many of these things agree, and how many don't, where there are any. The exit status is 0 where all do.
    pub fn end(self, rt: &impl Print, things: &str) -> io::Result<ExitCode> {
        let Tally { agree, others } = self;
        println!(rt; "{agree} {things} agree")?;
        if others == 0 {
            return Ok(ExitCode::SUCCESS);
        }
        println!(rt; "{others} {things} don't")?;
        Ok(ExitCode::FAILURE)
    }
}

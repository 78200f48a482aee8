//! How the program ends.
ghost use Rattle.std.specs.Prelude.{◌≡◌, ◌↔◌, ◌⊎◌, option_map, IsNone};
ghost use Rattle.wasi_script.specs.Exit.{exit_code, message_of, why_refused, unfinished_status, script_status};

use wasi_form::{Refusal, ScriptError};
use wasi_io::Unfinished;

/// How the program ended.
#[derive(Clone, Copy, Debug, PartialEq, Eq)]
pub enum Status {
    /// The report, the audit or the trial was taken whole, or the line of a script that was made.
    Done,
    /// The words are none of `run`, `audit`, `trial` and `gen N`, and the line that says so was taken.
    Usage,
    /// The bytes aren't a script that can be run, and the line that says why was taken.
    Refused(Refusal),
    /// The source failed, and nothing was written.
    ReadFault,
    /// The sink failed, or took nothing of a piece. It took a front of what was to be written.
    WriteFault,
    /// Memory ran out, and nothing was written.
    NoMemory,
}

impl Status {
    /// The exit status of the process: 0 for a report, an audit, a trial or a line, and a number of its own for each
    /// other end. They are the program's own; 1 is left to a process that is stopped.
    pub fn exit_code(self) -> u8
        ensures code { result ≡ exit_code self }
    {
        match self {
            Status::Done => 0,
            Status::Usage => 2,
            Status::Refused(_) => 3,
            Status::ReadFault => 4,
            Status::WriteFault => 5,
            Status::NoMemory => 6,
        }
    }

    /// One line for a person, without its end: what happened, and of a script that can't be run where to read more.
    /// `None` where a report, an audit, a trial, a line or the usage line was written.
    pub fn message(self) -> Option<&'static str>
        ensures text { option_map (λ text. text.now) result ≡ message_of self }
        ensures silent { IsNone result ↔ ((self ≡ Status.Done) ⊎ (self ≡ Status.Usage)) }
    {
        match self {
            Status::Done => None,
            Status::Usage => None,
            Status::Refused(refusal) => Some(why_refused(refusal)),
            Status::ReadFault => Some(
                "wasirun: standard input couldn't be read to its end, and nothing was written",
            ),
            Status::WriteFault => Some(
                "wasirun: standard output didn't take all of what was to be written",
            ),
            Status::NoMemory => Some("wasirun: out of memory, and nothing was written"),
        }
    }
}

fn why_refused(refusal: Refusal) -> &'static str
    ensures { result.now ≡ why_refused refusal }
{
    match refusal {
        Refusal::Long => {
            "wasirun: the script has more than 16,777,216 bytes; docs/scripts.md says what a script is"
        }
        Refusal::Json => "wasirun: the script isn't JSON; docs/scripts.md says what a script is",
        Refusal::Shape => {
            "wasirun: the script is JSON, and isn't of a script's shape; docs/scripts.md says what a script is"
        }
        Refusal::Tree => {
            "wasirun: the nodes of the script are no tree; docs/scripts.md says what a tree is"
        }
        Refusal::Limit =>
            "wasirun: the script passes a limit; docs/scripts.md says which there are",
    }
}

impl From<Unfinished> for Status {
    ghost from_gives = { λ error status. status ≡ unfinished_status error };

    fn from(error: Unfinished) -> Self {
        match error {
            Unfinished::Long => Status::Refused(Refusal::Long),
            Unfinished::Fault => Status::ReadFault,
            Unfinished::Memory => Status::NoMemory,
        }
    }
}

impl From<ScriptError> for Status {
    ghost from_gives = { λ error status. status ≡ script_status error };

    fn from(error: ScriptError) -> Self {
        match error {
            ScriptError::Refused(refusal) => Status::Refused(refusal),
            ScriptError::Memory => Status::NoMemory,
        }
    }
}

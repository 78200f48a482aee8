//! How the program ends.
ghost use Rattle.std.specs.Prelude.{◌≡◌, ◌↔◌, ◌⊎◌, option_map, IsNone};
ghost use Rattle.wasi_guests.specs.GuestsDue.{refusal_line};
ghost use Rattle.wasi_guests.specs.Status.{exit_code, guests_status, message_of, refusal_of, script_status, unfinished_status, why_refused};

use crate::plan::GuestsError;
use wasi_form::{Refusal, ScriptError};
use wasi_io::Unfinished;

/// Why the guests of a script aren't run. The first that holds is the refusal.
#[derive(Clone, Copy, Debug, PartialEq, Eq)]
pub enum GuestRefusal {
    /// The bytes are more than 16,777,216.
    Long,
    /// No value of JSON is read from them.
    Json,
    /// Their value isn't of the shape of a script of guests.
    Shape,
    /// Its nodes are no tree.
    Tree,
    /// A guest is past the limits of a script, or all guests together have more memory, or show more of it, than one
    /// may.
    Limit,
    /// A node lies inside two guests.
    Overlap,
    /// The nodes of the tree and one for each turn are more than the tree may have.
    Room,
}

/// How the program ended.
#[derive(Clone, Copy, Debug, PartialEq, Eq)]
pub enum GuestStatus {
    /// The text of what the guests came to was taken whole.
    Done,
    /// The words aren't the one word `run`, and the line that says so was taken.
    Usage,
    /// The bytes aren't a script of guests that can be run, and the line that says why was taken.
    Refused(GuestRefusal),
    /// The source failed, and nothing was written.
    ReadFault,
    /// The sink failed, or took nothing of a piece. It took a front of what was to be written.
    WriteFault,
    /// Memory ran out, and nothing was written.
    NoMemory,
}

impl GuestStatus {
    /// The exit status of the process: 0 where the guests were run, and a number of its own for each other end. They
    /// are those of the program that runs one guest; 1 is left to a process that is stopped.
    pub fn exit_code(self) -> u8
        ensures code { result ≡ exit_code self }
    {
        match self {
            GuestStatus::Done => 0,
            GuestStatus::Usage => 2,
            GuestStatus::Refused(_) => 3,
            GuestStatus::ReadFault => 4,
            GuestStatus::WriteFault => 5,
            GuestStatus::NoMemory => 6,
        }
    }

    /// One line for a person, without its end: what happened, and of a script that can't be run where to read more.
    /// `None` where the text of the outcome or the usage line was written.
    pub fn message(self) -> Option<&'static str>
        ensures text { option_map (λ text. text.now) result ≡ message_of self }
        ensures silent { IsNone result ↔ ((self ≡ GuestStatus.Done) ⊎ (self ≡ GuestStatus.Usage)) }
    {
        match self {
            GuestStatus::Done => None,
            GuestStatus::Usage => None,
            GuestStatus::Refused(refusal) => Some(why_refused(refusal)),
            GuestStatus::ReadFault => Some(
                "wasiguests: standard input couldn't be read to its end, and nothing was written",
            ),
            GuestStatus::WriteFault => Some(
                "wasiguests: standard output didn't take all of what was to be written",
            ),
            GuestStatus::NoMemory => Some("wasiguests: out of memory, and nothing was written"),
        }
    }
}

fn why_refused(refusal: GuestRefusal) -> &'static str
    ensures { result.now ≡ why_refused refusal }
{
    match refusal {
        GuestRefusal::Long => {
            "wasiguests: the script has more than 16,777,216 bytes; docs/scripts.md says what a script is"
        }
        GuestRefusal::Json => {
            "wasiguests: the script isn't JSON; docs/scripts.md says what a script is"
        }
        GuestRefusal::Shape => {
            "wasiguests: the script is JSON, and isn't of the shape of a script of guests; docs/scripts.md says what one is"
        }
        GuestRefusal::Tree => {
            "wasiguests: the nodes of the script are no tree; docs/scripts.md says what a tree is"
        }
        GuestRefusal::Limit => {
            "wasiguests: the script passes a limit; docs/scripts.md says which there are"
        }
        GuestRefusal::Overlap => {
            "wasiguests: a node lies inside two guests; docs/scripts.md says what lies inside a guest"
        }
        GuestRefusal::Room => {
            "wasiguests: the turns may make more nodes than the tree has room for; docs/scripts.md says what limits are"
        }
    }
}

/// The line that is written of a refusal.
pub(crate) fn refusal_line(refusal: GuestRefusal) -> &'static str
    ensures { result.now ≡ refusal_line refusal }
{
    match refusal {
        GuestRefusal::Long => "refused: long\n",
        GuestRefusal::Json => "refused: json\n",
        GuestRefusal::Shape => "refused: shape\n",
        GuestRefusal::Tree => "refused: tree\n",
        GuestRefusal::Limit => "refused: limit\n",
        GuestRefusal::Overlap => "refused: overlap\n",
        GuestRefusal::Room => "refused: room\n",
    }
}

impl From<Refusal> for GuestRefusal {
    ghost from_gives = { λ refusal r. r ≡ refusal_of refusal };

    fn from(refusal: Refusal) -> Self {
        match refusal {
            Refusal::Long => GuestRefusal::Long,
            Refusal::Json => GuestRefusal::Json,
            Refusal::Shape => GuestRefusal::Shape,
            Refusal::Tree => GuestRefusal::Tree,
            Refusal::Limit => GuestRefusal::Limit,
        }
    }
}

impl From<Unfinished> for GuestStatus {
    ghost from_gives = { λ error status. status ≡ unfinished_status error };

    fn from(error: Unfinished) -> Self {
        match error {
            Unfinished::Long => GuestStatus::Refused(GuestRefusal::Long),
            Unfinished::Fault => GuestStatus::ReadFault,
            Unfinished::Memory => GuestStatus::NoMemory,
        }
    }
}

impl From<ScriptError> for GuestStatus {
    ghost from_gives = { λ error status. status ≡ script_status error };

    fn from(error: ScriptError) -> Self {
        match error {
            ScriptError::Refused(refusal) => GuestStatus::Refused(GuestRefusal::from(refusal)),
            ScriptError::Memory => GuestStatus::NoMemory,
        }
    }
}

impl From<GuestsError> for GuestStatus {
    ghost from_gives = { λ error status. status ≡ guests_status error };

    fn from(error: GuestsError) -> Self {
        match error {
            GuestsError::Overlap(_) => GuestStatus::Refused(GuestRefusal::Overlap),
            GuestsError::Room => GuestStatus::Refused(GuestRefusal::Room),
            GuestsError::Memory => GuestStatus::NoMemory,
        }
    }
}

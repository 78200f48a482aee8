//! The form of scripts: which bytes are scripts, and what each of them is.
#![tactic(auto)]

mod arguments;
mod atoms;
mod calls;
mod faults;
mod guests;
mod limits;
mod lists;
mod memory;
mod nodes;
mod objects;
mod preopens;
mod quota;
mod script;
mod script_members;
mod script_reader;
mod services;
mod shapes;
mod texts;
mod tokens;
mod within;

pub use limits::DEFAULT_LIMITS;
pub use script::{Draft, GuestScript, Piece, PieceBytes, Script, ScriptPreopen, Session, Shown};
pub use script_members::{DEFAULT_FUEL, DEFAULT_TABLE};
pub use script_reader::{
    Refusal, ScriptError, guest_verdicts_are_one, read_draft, read_guest_script, read_script,
    verdicts_are_one,
};
pub use within::is_session_within;

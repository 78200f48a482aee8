//! Several guests in turns over one tree in memory, each below directories of its own; and a run of them from bytes to bytes,
//! on which the program `wasiguests` stands.
#![tactic(auto)]

mod guest_run;
mod guest_script;
mod holders;
mod insides;
mod laws;
mod plan;
mod program;
mod run;
mod status;
mod turns;
mod walk;

pub use insides::lowest_shared;
pub use laws::schedules_agree;
pub use plan::{GuestEnd, GuestPlan, GuestPreopen, GuestsError, GuestsOutcome};
pub use program::run_guest_script;
pub use run::run_guests;
pub use status::{GuestRefusal, GuestStatus};

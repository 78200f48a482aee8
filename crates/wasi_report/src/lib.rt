//! The outcome of a run, and the texts of a report, an audit, a trial and a run of several guests.
#![tactic(auto)]

mod audit;
mod encode;
mod encode_answers;
mod encode_nodes;
mod guests;
mod laws;
mod outcome;
mod trial;

pub use audit::{PreopenNodes, audit_in};
pub use guests::{GuestOutcome, guests_in};
pub use laws::{
    audits_are_determined, guests_are_determined, reports_are_determined, trials_are_determined,
};
pub use outcome::{Outcome, report, report_in};
pub use trial::trial_in;

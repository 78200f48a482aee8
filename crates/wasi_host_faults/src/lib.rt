//! A host over another one that fails at listed calls.
#![tactic(auto)]

mod fail_at;
mod fault;
mod laws;
mod schedule;

pub use fail_at::FailAt;
pub use fault::Fault;
pub use laws::faults_are_few;

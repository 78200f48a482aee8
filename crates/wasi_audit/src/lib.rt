//! The audit of a run: through which preopened directory each touched node was reached.
#![tactic(auto)]

mod audit;
mod effect;
mod lists;
mod nodes;
mod stems;
#[cfg(test)]
mod tests;

pub use audit::Audit;
pub use effect::AuditEffect;

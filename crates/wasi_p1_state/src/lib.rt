//! The state of one guest: its descriptors beside the resource table, over a host, and its environment; what stands under a
//! descriptor's number; and the calls of preview2's views on it. Two or more families of calls use what is here.
#![tactic(auto)]

mod context;
pub mod descriptors;
pub mod filestats;
pub mod lookups;
pub mod views;

pub use context::{CtxRefused, Ended, FUEL, P1State};

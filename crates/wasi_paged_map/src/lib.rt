//! Things by number.
#![tactic(auto)]

mod pages;
mod places;

pub use pages::Pages;

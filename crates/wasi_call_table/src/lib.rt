//! The table of preview1's calls: of each its number, its name, the kinds of its
//! arguments and the shape of its results. What takes calls by their
//! names or numbers, as scripts and engines do, reads them by it.
#![tactic(auto)]

mod call_table;
mod shape;

pub use call_table::{Kind, call_kinds, call_number, call_of_words, call_shape};
pub use shape::Shape;

//! The calls of a named view, by family.

mod entries;
mod error_codes;
mod nodes;
mod path_ops;

//! The calls of a view, by family.

mod descriptor_ops;
mod directories;
mod dropping;
mod error_codes;
mod opening;
mod path_ops;
mod reading_and_writing;
mod two_path_ops;

//! Texts of paths: what a path is made of, and one name of it, the only text that a host is ever asked to look up.
//!
//! A path is a text in UTF-8, where the crate has `Path` and `OsStr`. No function here takes memory, and none refuses.
#![tactic(auto)]

mod components;
mod dir_utils;
mod laws;
mod name;
mod part;
mod path;
mod split;

pub use components::Parts;
pub use dir_utils::{
    path_has_trailing_dot, path_has_trailing_slash, path_requires_dir, strip_dir_suffix,
};
pub use laws::{names_are_plain, parts_are_components, texts_end_by_bytes, texts_have_one_split};
pub use name::Name;
pub use part::Part;
pub use path::{ends_with_parent, has_root, parts};
pub use split::split_parent;

/// The bytes of the longest name in a directory, POSIX's `NAME_MAX`.
pub const NAME_MAX: usize = 255;

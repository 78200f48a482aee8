//! The names of all directories of a tree, as entries that are sorted by directory and then by the bytes of the name.
#![tactic(auto)]

mod blocks;
mod entries;
mod hint;
mod key;
mod name_index;
mod over_entries;
mod over_index;
mod shift;
mod sought;

pub use entries::EntryCursor;
pub use hint::SearchHint;
pub use key::DirEntryKey;
pub use name_index::{NameIndex, directories_are_apart, names_are_apart};
pub use over_entries::OverEntryCursor;
pub use over_index::{OverNameIndex, names_lie_over};

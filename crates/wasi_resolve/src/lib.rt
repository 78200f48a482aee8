//! The walk along the parts of a path, which never leaves the directory that it starts from.
#![tactic(auto)]

mod entry_ops;
mod found;
mod laws;
mod listing;
mod name_left;
mod name_lookup;
mod parent;
mod parts_left;
mod resolver;
mod stack;
mod times;
mod two_path_ops;
mod walk;
mod walk_state;

pub use entry_ops::{create_dir, read_link, remove_dir, remove_file, set_times_nofollow, symlink};
pub use laws::{paths_agree, paths_stay_in_reach, walks_have_one_end, walks_read_few_links};
pub use listing::read_dir;
pub use parent::{MaybeOwned, Parent, open_parent};
pub use resolver::{open, open_dir, stat};
pub use times::set_times;
pub use two_path_ops::{hard_link, rename};

/// How many links one walk reads at most: the crate's constant of that name.
pub const MAX_SYMLINK_EXPANSIONS: u8 = 40;

//! A change of a tree that no call of its host makes.

/// What another than the caller of a host does to a tree, between two calls. Directories are given by their node
/// numbers.
#[derive(Debug, Drop)]
pub enum TreeChange {
    /// Drops a name of a directory: as `remove_dir_at` does where a directory has it, and as `unlink_at` does elsewhere.
    Drop {
        dir: u64,
        name: String,
    },
    /// Moves a name of a directory to a name of another, which may be the same, as `rename_at` does where it asks for no
    /// directory.
    Move {
        old: u64,
        old_name: String,
        new: u64,
        new_name: String,
    },
}

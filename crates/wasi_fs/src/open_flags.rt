//! The flag sets of an open, by the names and bits of the crate's `filesystem.rs`. Contracts see a set as the number of
//! its bits.
ghost use Rattle.std.specs.Prelude.{⊤, [], ◌∷◌, codes};
ghost use Rattle.wasi_fs.specs.OpenFlags.{path_flag_bits, open_flag_bits, descriptor_flag_bits};

use bitflags::{Flag, Flags, bitflag_items};

/// How a path is resolved. Contracts see the number of its bits as `path_flag_bits`.
#[derive(Clone, Copy, Debug, PartialEq, Eq)]
pub struct PathFlags(usize);

bitflag_items! {
    impl PathFlags: usize {
        /// A link under the last name is followed.
        const SYMLINK_FOLLOW = 1;
    }
}

impl Flags for PathFlags {
    type Bits = usize;

    ghost exact = { ⊤ };

    ghost table = { (codes "SYMLINK_FOLLOW", 1) ∷ [] };

    ghost set_of = { path_flag_bits };

    fn flags<'a>() -> &'a [Flag<PathFlags>] {
        PathFlags::FLAGS
    }

    fn bits(&self) -> usize {
        self.0
    }

    fn from_bits_retain(bits: usize) -> PathFlags {
        PathFlags(bits)
    }
}

/// What is made, asked or cut by an open. Contracts see the number of its bits as `open_flag_bits`.
#[derive(Clone, Copy, Debug, PartialEq, Eq)]
pub struct OpenFlags(usize);

bitflag_items! {
    impl OpenFlags: usize {
        /// A missing file is made (POSIX's `O_CREAT`).
        const CREATE = 1;
        /// What isn't a directory is refused (`O_DIRECTORY`).
        const DIRECTORY = 2;
        /// Beside CREATE, a name that is there is refused (`O_EXCL`).
        const EXCLUSIVE = 4;
        /// A file is cut to no bytes (`O_TRUNC`).
        const TRUNCATE = 8;
    }
}

impl Flags for OpenFlags {
    type Bits = usize;

    ghost exact = { ⊤ };

    ghost table = { (codes "CREATE", 1) ∷
        (codes "DIRECTORY", 2) ∷
        (codes "EXCLUSIVE", 4) ∷
        (codes "TRUNCATE", 8) ∷
        [] };

    ghost set_of = { open_flag_bits };

    fn flags<'a>() -> &'a [Flag<OpenFlags>] {
        OpenFlags::FLAGS
    }

    fn bits(&self) -> usize {
        self.0
    }

    fn from_bits_retain(bits: usize) -> OpenFlags {
        OpenFlags(bits)
    }
}

/// What a descriptor is for. Contracts see the number of its bits as `descriptor_flag_bits`.
#[derive(Clone, Copy, Debug, PartialEq, Eq)]
pub struct DescriptorFlags(usize);

bitflag_items! {
    impl DescriptorFlags: usize {
        /// Bytes may be read.
        const READ = 1;
        /// Bytes may be written.
        const WRITE = 2;
        /// Writes wait for the integrity of the file (POSIX's `O_SYNC`). No open takes it.
        const FILE_INTEGRITY_SYNC = 4;
        /// Writes wait for the integrity of data (`O_DSYNC`). No open takes it.
        const DATA_INTEGRITY_SYNC = 8;
        /// Reads wait as writes do (`O_RSYNC`). No open takes it.
        const REQUESTED_WRITE_SYNC = 16;
        /// What is in a directory may be changed.
        const MUTATE_DIRECTORY = 32;
    }
}

impl Flags for DescriptorFlags {
    type Bits = usize;

    ghost exact = { ⊤ };

    ghost table = { (codes "READ", 1) ∷
        (codes "WRITE", 2) ∷
        (codes "FILE_INTEGRITY_SYNC", 4) ∷
        (codes "DATA_INTEGRITY_SYNC", 8) ∷
        (codes "REQUESTED_WRITE_SYNC", 16) ∷
        (codes "MUTATE_DIRECTORY", 32) ∷
        [] };

    ghost set_of = { descriptor_flag_bits };

    fn flags<'a>() -> &'a [Flag<DescriptorFlags>] {
        DescriptorFlags::FLAGS
    }

    fn bits(&self) -> usize {
        self.0
    }

    fn from_bits_retain(bits: usize) -> DescriptorFlags {
        DescriptorFlags(bits)
    }
}

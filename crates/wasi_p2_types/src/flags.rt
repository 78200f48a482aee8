//! The flag sets of preview2. In a set each flag is one bit.
ghost use Rattle.std.specs.Prelude.{◌≡◌, ⊤, [], ◌∷◌, codes};
ghost use Rattle.wasi_p2_types.specs.FlagNames.{path_flags_named, open_flags_named, descriptor_flags_named, descriptor_flags_told};

use bitflags::{Flag, Flags, bitflag_items};

/// How a path is resolved: preview2's `path-flags`.
#[derive(Clone, Copy, Debug, PartialEq, Eq)]
pub struct PathFlags(usize);

bitflag_items! {
    impl PathFlags: usize {
        /// A link under the last name is followed.
        const SYMLINK_FOLLOW = 1;
    }
}

impl Flags for PathFlags {
    type Bits = usize;

    ghost exact = { ⊤ };

    ghost table = { (codes "SYMLINK_FOLLOW", 1) ∷ [] };

    ghost set_of = { λ set. set.0 };

    fn flags<'a>() -> &'a [Flag<PathFlags>] {
        PathFlags::FLAGS
    }

    fn bits(&self) -> usize {
        self.0
    }

    fn from_bits_retain(bits: usize) -> PathFlags {
        PathFlags(bits)
    }
}

/// What is made, asked or cut by an open: preview2's `open-flags`.
#[derive(Clone, Copy, Debug, PartialEq, Eq)]
pub struct OpenFlags(usize);

bitflag_items! {
    impl OpenFlags: usize {
        /// A missing file is made.
        const CREATE = 1;
        /// What isn't a directory is refused.
        const DIRECTORY = 2;
        /// Beside CREATE, a name that is there is refused.
        const EXCLUSIVE = 4;
        /// A file is cut to no bytes.
        const TRUNCATE = 8;
    }
}

impl Flags for OpenFlags {
    type Bits = usize;

    ghost exact = { ⊤ };

    ghost table = { (codes "CREATE", 1) ∷
        (codes "DIRECTORY", 2) ∷
        (codes "EXCLUSIVE", 4) ∷
        (codes "TRUNCATE", 8) ∷
        [] };

    ghost set_of = { λ set. set.0 };

    fn flags<'a>() -> &'a [Flag<OpenFlags>] {
        OpenFlags::FLAGS
    }

    fn bits(&self) -> usize {
        self.0
    }

    fn from_bits_retain(bits: usize) -> OpenFlags {
        OpenFlags(bits)
    }
}

/// What a descriptor is for: preview2's `descriptor-flags`.
#[derive(Clone, Copy, Debug, PartialEq, Eq)]
pub struct DescriptorFlags(usize);

bitflag_items! {
    impl DescriptorFlags: usize {
        /// Bytes may be read.
        const READ = 1;
        /// Bytes may be written.
        const WRITE = 2;
        /// Writes wait for the integrity of the file. No open takes it.
        const FILE_INTEGRITY_SYNC = 4;
        /// Writes wait for the integrity of data. No open takes it.
        const DATA_INTEGRITY_SYNC = 8;
        /// Reads wait as writes do. No open takes it.
        const REQUESTED_WRITE_SYNC = 16;
        /// What is in a directory may be changed.
        const MUTATE_DIRECTORY = 32;
    }
}

impl Flags for DescriptorFlags {
    type Bits = usize;

    ghost exact = { ⊤ };

    ghost table = { (codes "READ", 1) ∷
        (codes "WRITE", 2) ∷
        (codes "FILE_INTEGRITY_SYNC", 4) ∷
        (codes "DATA_INTEGRITY_SYNC", 8) ∷
        (codes "REQUESTED_WRITE_SYNC", 16) ∷
        (codes "MUTATE_DIRECTORY", 32) ∷
        [] };

    ghost set_of = { λ set. set.0 };

    fn flags<'a>() -> &'a [Flag<DescriptorFlags>] {
        DescriptorFlags::FLAGS
    }

    fn bits(&self) -> usize {
        self.0
    }

    fn from_bits_retain(bits: usize) -> DescriptorFlags {
        DescriptorFlags(bits)
    }
}

/// The flags of the same names.
impl From<PathFlags> for wasi_fs::PathFlags {
    ghost from_gives = { λ set named. named ≡ path_flags_named set };

    fn from(set: PathFlags) -> Self {
        let mut named = wasi_fs::PathFlags::empty();
        named.set(
            wasi_fs::PathFlags::SYMLINK_FOLLOW,
            set.contains(PathFlags::SYMLINK_FOLLOW),
        );
        named
    }
}

/// The flags of the same names.
impl From<OpenFlags> for wasi_fs::OpenFlags {
    ghost from_gives = { λ set named. named ≡ open_flags_named set };

    fn from(set: OpenFlags) -> Self {
        let mut named = wasi_fs::OpenFlags::empty();
        named.set(wasi_fs::OpenFlags::CREATE, set.contains(OpenFlags::CREATE));
        named.set(
            wasi_fs::OpenFlags::DIRECTORY,
            set.contains(OpenFlags::DIRECTORY),
        );
        named.set(
            wasi_fs::OpenFlags::EXCLUSIVE,
            set.contains(OpenFlags::EXCLUSIVE),
        );
        named.set(
            wasi_fs::OpenFlags::TRUNCATE,
            set.contains(OpenFlags::TRUNCATE),
        );
        named
    }
}

/// The flags of the same names.
impl From<DescriptorFlags> for wasi_fs::DescriptorFlags {
    ghost from_gives = { λ set named. named ≡ descriptor_flags_named set };

    fn from(set: DescriptorFlags) -> Self {
        let mut named = wasi_fs::DescriptorFlags::empty();
        named.set(
            wasi_fs::DescriptorFlags::READ,
            set.contains(DescriptorFlags::READ),
        );
        named.set(
            wasi_fs::DescriptorFlags::WRITE,
            set.contains(DescriptorFlags::WRITE),
        );
        named.set(
            wasi_fs::DescriptorFlags::FILE_INTEGRITY_SYNC,
            set.contains(DescriptorFlags::FILE_INTEGRITY_SYNC),
        );
        named.set(
            wasi_fs::DescriptorFlags::DATA_INTEGRITY_SYNC,
            set.contains(DescriptorFlags::DATA_INTEGRITY_SYNC),
        );
        named.set(
            wasi_fs::DescriptorFlags::REQUESTED_WRITE_SYNC,
            set.contains(DescriptorFlags::REQUESTED_WRITE_SYNC),
        );
        named.set(
            wasi_fs::DescriptorFlags::MUTATE_DIRECTORY,
            set.contains(DescriptorFlags::MUTATE_DIRECTORY),
        );
        named
    }
}

/// The flags of the same names.
impl From<wasi_fs::DescriptorFlags> for DescriptorFlags {
    ghost from_gives = { λ set named. named ≡ descriptor_flags_told set };

    fn from(set: wasi_fs::DescriptorFlags) -> Self {
        let mut named = DescriptorFlags::empty();
        named.set(
            DescriptorFlags::READ,
            set.contains(wasi_fs::DescriptorFlags::READ),
        );
        named.set(
            DescriptorFlags::WRITE,
            set.contains(wasi_fs::DescriptorFlags::WRITE),
        );
        named.set(
            DescriptorFlags::FILE_INTEGRITY_SYNC,
            set.contains(wasi_fs::DescriptorFlags::FILE_INTEGRITY_SYNC),
        );
        named.set(
            DescriptorFlags::DATA_INTEGRITY_SYNC,
            set.contains(wasi_fs::DescriptorFlags::DATA_INTEGRITY_SYNC),
        );
        named.set(
            DescriptorFlags::REQUESTED_WRITE_SYNC,
            set.contains(wasi_fs::DescriptorFlags::REQUESTED_WRITE_SYNC),
        );
        named.set(
            DescriptorFlags::MUTATE_DIRECTORY,
            set.contains(wasi_fs::DescriptorFlags::MUTATE_DIRECTORY),
        );
        named
    }
}

//! What an open file or directory may be used for.
ghost use Rattle.std.specs.Prelude.{⊤, [], ◌∷◌, codes};
ghost use Rattle.wasi_fs.specs.OpenMode.{mode_bits};

use bitflags::{Flag, Flags, bitflag_items};

/// What a file or a directory was opened for: the crate's `OpenMode` of `filesystem.rs`. It is a set of flags;
/// contracts see the number of its bits as `mode_bits`.
#[derive(Clone, Copy, Debug, PartialEq, Eq)]
pub struct OpenMode(usize);

bitflag_items! {
    impl OpenMode: usize {
        /// Bytes may be read.
        const READ = 1;
        /// Bytes may be written.
        const WRITE = 2;
    }
}

impl Flags for OpenMode {
    type Bits = usize;

    ghost exact = { ⊤ };

    ghost table = { (codes "READ", 1) ∷ (codes "WRITE", 2) ∷ [] };

    ghost set_of = { mode_bits };

    fn flags<'a>() -> &'a [Flag<OpenMode>] {
        OpenMode::FLAGS
    }

    fn bits(&self) -> usize {
        self.0
    }

    fn from_bits_retain(bits: usize) -> OpenMode {
        OpenMode(bits)
    }
}

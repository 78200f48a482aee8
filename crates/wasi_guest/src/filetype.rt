//! Types of nodes.
ghost use Rattle.std.specs.Prelude.{◌≡◌};
ghost use Rattle.wasi_guest.specs.FiletypeNumber.{filetype_number};

/// The type of what a descriptor or a name holds: preview1's `filetype`, without its two types of sockets.
#[derive(Clone, Copy, Debug, PartialEq, Eq)]
pub enum Filetype {
    Unknown,
    BlockDevice,
    CharacterDevice,
    Directory,
    RegularFile,
    SymbolicLink,
}

impl Filetype {
    /// Preview1's number: 0 to 4 in the order of the variants, and 7 for a link.
    pub fn number(self) -> u8
        ensures number { result ≡ filetype_number self }
    {
        match self {
            Filetype::Unknown => 0,
            Filetype::BlockDevice => 1,
            Filetype::CharacterDevice => 2,
            Filetype::Directory => 3,
            Filetype::RegularFile => 4,
            Filetype::SymbolicLink => 7,
        }
    }
}

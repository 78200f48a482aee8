//! The record of an entry of a directory.
ghost use Rattle.std.specs.Prelude.{◌≡◌};
ghost use Rattle.wasi_guest.specs.Dirent.{dirent_bytes};

/// An entry of a listing, without its name, whose bytes follow: preview1's `dirent`.
#[derive(Clone, Copy, Debug, PartialEq, Eq)]
pub struct Dirent {
    /// The cookie of the next entry.
    pub d_next: u64,
    /// The node's number.
    pub d_ino: u64,
    /// How many bytes the name has.
    pub d_namlen: u32,
    /// The number of its type, as `Filetype::number` gives it.
    pub d_type: u8,
}

impl Dirent {
    /// How many bytes the record has. It isn't aligned.
    pub const SIZE: usize = 24;

    /// The record as it stands in memory, in little-endian order.
    pub fn to_bytes(&self) -> [u8; Dirent::SIZE]
        ensures layout { result ≡ dirent_bytes self.now }
    {
        let mut bytes = [0; Dirent::SIZE];
        bytes[0..8].copy_from_slice(&self.d_next.to_le_bytes());
        bytes[8..16].copy_from_slice(&self.d_ino.to_le_bytes());
        bytes[16..20].copy_from_slice(&self.d_namlen.to_le_bytes());
        bytes[20] = self.d_type;
        bytes
    }
}

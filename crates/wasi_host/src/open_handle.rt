//! What a live handle refers to.
ghost use Rattle.std.specs.Prelude.{◌≡◌};
ghost use Rattle.wasi_host.specs.Refusal.{can_read, can_write};

/// What a live handle was opened for.
#[derive(Clone, Copy, Debug, PartialEq, Eq)]
pub enum AccessMode {
    Read,
    Write,
    ReadWrite,
    /// For what is done with names in a directory, for metadata and for times: neither bytes nor a listing.
    PathOnly,
}

impl AccessMode {
    /// Whether bytes may be read.
    pub fn can_read(self) -> bool
        ensures test { result ≡ can_read self }
    {
        match self {
            AccessMode::Read | AccessMode::ReadWrite => true,
            AccessMode::Write | AccessMode::PathOnly => false,
        }
    }

    /// Whether bytes may be written.
    pub fn can_write(self) -> bool
        ensures test { result ≡ can_write self }
    {
        match self {
            AccessMode::Write | AccessMode::ReadWrite => true,
            AccessMode::Read | AccessMode::PathOnly => false,
        }
    }
}

/// What a live handle refers to: a node, by its number, and what it was opened for.
#[derive(Clone, Copy, Debug, PartialEq, Eq)]
pub struct OpenHandle {
    pub node: u64,
    pub mode: AccessMode,
}

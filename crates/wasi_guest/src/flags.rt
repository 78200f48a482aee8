//! The flag sets of preview1. In a set each flag is one bit.
ghost use Rattle.std.specs.Prelude.{◌≡◌, ⊤, [], ◌∷◌, codes, option_map};
ghost use Rattle.wasi_guest.specs.Flags.{flags_in, known_lookupflags, known_oflags, known_fdflags, known_fstflags, known_subclockflags, known_eventrwflags, known_riflags, known_sdflags, known_rights};
ghost use Rattle.wasi_guest.specs.Flags as flag;
ghost use Rattle.wasi_guest.specs.FlagSets.{lookupflag_bits, oflag_bits, fdflag_bits, fstflag_bits, subclockflag_bits, eventrwflag_bits, riflag_bits, sdflag_bits, right_bits};

use bitflags::{Flag, Flags, bitflag_items};

/// How a path is looked up: preview1's `lookupflags`. Contracts see the number of its bits as `lookupflag_bits`.
#[derive(Clone, Copy, Debug, PartialEq, Eq)]
pub struct LookupFlags(u32);

bitflag_items! {
    impl LookupFlags: u32 {
        /// A link under the last name is followed.
        const SYMLINK_FOLLOW = 1 << 0;
    }
}

impl Flags for LookupFlags {
    type Bits = u32;

    ghost exact = { ⊤ };

    ghost table = { (codes "SYMLINK_FOLLOW", flag.symlink_follow) ∷ [] };

    ghost set_of = { lookupflag_bits };

    fn flags<'a>() -> &'a [Flag<LookupFlags>] {
        LookupFlags::FLAGS
    }

    fn bits(&self) -> u32 {
        self.0
    }

    fn from_bits_retain(bits: u32) -> LookupFlags {
        LookupFlags(bits)
    }
}

impl LookupFlags {
    /// The set of these bits, `None` exactly where one of them is no flag.
    #[tactic(auto, using(crate::proofs::FlagSets::set_of_known), unfolding(bitflags::specs::Sets::known_from))]
    pub fn from_bits(bits: u32) -> Option<LookupFlags>
        ensures set { option_map lookupflag_bits result ≡ flags_in known_lookupflags bits }
    {
        <LookupFlags as Flags>::from_bits(bits)
    }
}

/// How a path is opened: preview1's `oflags`. Contracts see the number of its bits as `oflag_bits`.
#[derive(Clone, Copy, Debug, PartialEq, Eq)]
pub struct OFlags(u32);

bitflag_items! {
    impl OFlags: u32 {
        /// A missing file is made.
        const CREAT = 1 << 0;
        /// What isn't a directory is refused.
        const DIRECTORY = 1 << 1;
        /// A name that is there is refused.
        const EXCL = 1 << 2;
        /// A file is cut to no bytes.
        const TRUNC = 1 << 3;
    }
}

impl Flags for OFlags {
    type Bits = u32;

    ghost exact = { ⊤ };

    ghost table = { (codes "CREAT", flag.creat) ∷
        (codes "DIRECTORY", flag.directory) ∷
        (codes "EXCL", flag.excl) ∷
        (codes "TRUNC", flag.trunc) ∷
        [] };

    ghost set_of = { oflag_bits };

    fn flags<'a>() -> &'a [Flag<OFlags>] {
        OFlags::FLAGS
    }

    fn bits(&self) -> u32 {
        self.0
    }

    fn from_bits_retain(bits: u32) -> OFlags {
        OFlags(bits)
    }
}

impl OFlags {
    /// The set of these bits, `None` exactly where one of them is no flag.
    #[tactic(auto, using(crate::proofs::FlagSets::set_of_known), unfolding(bitflags::specs::Sets::known_from))]
    pub fn from_bits(bits: u32) -> Option<OFlags>
        ensures set { option_map oflag_bits result ≡ flags_in known_oflags bits }
    {
        <OFlags as Flags>::from_bits(bits)
    }
}

/// How a descriptor reads and writes: preview1's `fdflags`. Contracts see the number of its bits as `fdflag_bits`.
#[derive(Clone, Copy, Debug, PartialEq, Eq)]
pub struct FdFlags(u32);

bitflag_items! {
    impl FdFlags: u32 {
        /// Writes go to the end.
        const APPEND = 1 << 0;
        /// Writes wait for the integrity of data.
        const DSYNC = 1 << 1;
        /// No call waits.
        const NONBLOCK = 1 << 2;
        /// Reads wait as writes do.
        const RSYNC = 1 << 3;
        /// Writes wait for the integrity of the file.
        const SYNC = 1 << 4;
    }
}

impl Flags for FdFlags {
    type Bits = u32;

    ghost exact = { ⊤ };

    ghost table = { (codes "APPEND", flag.append) ∷
        (codes "DSYNC", flag.dsync) ∷
        (codes "NONBLOCK", flag.nonblock) ∷
        (codes "RSYNC", flag.rsync) ∷
        (codes "SYNC", flag.sync) ∷
        [] };

    ghost set_of = { fdflag_bits };

    fn flags<'a>() -> &'a [Flag<FdFlags>] {
        FdFlags::FLAGS
    }

    fn bits(&self) -> u32 {
        self.0
    }

    fn from_bits_retain(bits: u32) -> FdFlags {
        FdFlags(bits)
    }
}

impl FdFlags {
    /// The set of these bits, `None` exactly where one of them is no flag.
    #[tactic(auto, using(crate::proofs::FlagSets::set_of_known), unfolding(bitflags::specs::Sets::known_from))]
    pub fn from_bits(bits: u32) -> Option<FdFlags>
        ensures set { option_map fdflag_bits result ≡ flags_in known_fdflags bits }
    {
        <FdFlags as Flags>::from_bits(bits)
    }
}

/// Which times a call that sets them gives, and which are the time of the call: preview1's `fstflags`. Contracts see the
/// number of its bits as `fstflag_bits`.
#[derive(Clone, Copy, Debug, PartialEq, Eq)]
pub struct FstFlags(u32);

bitflag_items! {
    impl FstFlags: u32 {
        /// The time of the last access is the given one.
        const ATIM = 1 << 0;
        /// The time of the last access is now.
        const ATIM_NOW = 1 << 1;
        /// The time of the last write is the given one.
        const MTIM = 1 << 2;
        /// The time of the last write is now.
        const MTIM_NOW = 1 << 3;
    }
}

impl Flags for FstFlags {
    type Bits = u32;

    ghost exact = { ⊤ };

    ghost table = { (codes "ATIM", flag.atim) ∷
        (codes "ATIM_NOW", flag.atim_now) ∷
        (codes "MTIM", flag.mtim) ∷
        (codes "MTIM_NOW", flag.mtim_now) ∷
        [] };

    ghost set_of = { fstflag_bits };

    fn flags<'a>() -> &'a [Flag<FstFlags>] {
        FstFlags::FLAGS
    }

    fn bits(&self) -> u32 {
        self.0
    }

    fn from_bits_retain(bits: u32) -> FstFlags {
        FstFlags(bits)
    }
}

impl FstFlags {
    /// The set of these bits, `None` exactly where one of them is no flag.
    #[tactic(auto, using(crate::proofs::FlagSets::set_of_known), unfolding(bitflags::specs::Sets::known_from))]
    pub fn from_bits(bits: u32) -> Option<FstFlags>
        ensures set { option_map fstflag_bits result ≡ flags_in known_fstflags bits }
    {
        <FstFlags as Flags>::from_bits(bits)
    }
}

/// How the timeout of a clock is meant: preview1's `subclockflags`. Contracts see the number of its bits as
/// `subclockflag_bits`.
#[derive(Clone, Copy, Debug, PartialEq, Eq)]
pub struct SubclockFlags(u16);

bitflag_items! {
    impl SubclockFlags: u16 {
        /// It is a moment of the clock, and not a time from now on.
        const SUBSCRIPTION_CLOCK_ABSTIME = 1 << 0;
    }
}

impl Flags for SubclockFlags {
    type Bits = u16;

    ghost exact = { ⊤ };

    ghost table = { (codes "SUBSCRIPTION_CLOCK_ABSTIME", flag.subscription_clock_abstime) ∷ [] };

    ghost set_of = { subclockflag_bits };

    fn flags<'a>() -> &'a [Flag<SubclockFlags>] {
        SubclockFlags::FLAGS
    }

    fn bits(&self) -> u16 {
        self.0
    }

    fn from_bits_retain(bits: u16) -> SubclockFlags {
        SubclockFlags(bits)
    }
}

impl SubclockFlags {
    /// The set of these bits, `None` exactly where one of them is no flag.
    #[tactic(auto, using(crate::proofs::FlagSets::set_of_known), unfolding(bitflags::specs::Sets::known_from))]
    pub fn from_bits(bits: u16) -> Option<SubclockFlags>
        ensures set { option_map subclockflag_bits result ≡ flags_in known_subclockflags bits }
    {
        <SubclockFlags as Flags>::from_bits(bits)
    }
}

/// What is told of a read or write that is waited for: preview1's `eventrwflags`. Contracts see the number of its bits as
/// `eventrwflag_bits`.
#[derive(Clone, Copy, Debug, PartialEq, Eq)]
pub struct EventRwFlags(u16);

bitflag_items! {
    impl EventRwFlags: u16 {
        /// The other end is closed, or a file is at its end.
        const FD_READWRITE_HANGUP = 1 << 0;
    }
}

impl Flags for EventRwFlags {
    type Bits = u16;

    ghost exact = { ⊤ };

    ghost table = { (codes "FD_READWRITE_HANGUP", flag.fd_readwrite_hangup) ∷ [] };

    ghost set_of = { eventrwflag_bits };

    fn flags<'a>() -> &'a [Flag<EventRwFlags>] {
        EventRwFlags::FLAGS
    }

    fn bits(&self) -> u16 {
        self.0
    }

    fn from_bits_retain(bits: u16) -> EventRwFlags {
        EventRwFlags(bits)
    }
}

impl EventRwFlags {
    /// The set of these bits, `None` exactly where one of them is no flag.
    #[tactic(auto, using(crate::proofs::FlagSets::set_of_known), unfolding(bitflags::specs::Sets::known_from))]
    pub fn from_bits(bits: u16) -> Option<EventRwFlags>
        ensures set { option_map eventrwflag_bits result ≡ flags_in known_eventrwflags bits }
    {
        <EventRwFlags as Flags>::from_bits(bits)
    }
}

/// How a socket is read: preview1's `riflags`. Contracts see the number of its bits as
/// `riflag_bits`.
#[derive(Clone, Copy, Debug, PartialEq, Eq)]
pub struct RiFlags(u32);

bitflag_items! {
    impl RiFlags: u32 {
        /// What is read stays.
        const RECV_PEEK = 1 << 0;
        /// All that is asked for is waited for.
        const RECV_WAITALL = 1 << 1;
    }
}

impl Flags for RiFlags {
    type Bits = u32;

    ghost exact = { ⊤ };

    ghost table = { (codes "RECV_PEEK", flag.recv_peek) ∷
        (codes "RECV_WAITALL", flag.recv_waitall) ∷
        [] };

    ghost set_of = { riflag_bits };

    fn flags<'a>() -> &'a [Flag<RiFlags>] {
        RiFlags::FLAGS
    }

    fn bits(&self) -> u32 {
        self.0
    }

    fn from_bits_retain(bits: u32) -> RiFlags {
        RiFlags(bits)
    }
}

impl RiFlags {
    /// The set of these bits, `None` exactly where one of them is no flag.
    #[tactic(auto, using(crate::proofs::FlagSets::set_of_known), unfolding(bitflags::specs::Sets::known_from))]
    pub fn from_bits(bits: u32) -> Option<RiFlags>
        ensures set { option_map riflag_bits result ≡ flags_in known_riflags bits }
    {
        <RiFlags as Flags>::from_bits(bits)
    }
}

/// Which ends of a socket are closed: preview1's `sdflags`. Contracts see the number of its bits as
/// `sdflag_bits`.
#[derive(Clone, Copy, Debug, PartialEq, Eq)]
pub struct SdFlags(u32);

bitflag_items! {
    impl SdFlags: u32 {
        /// The one that is read.
        const RD = 1 << 0;
        /// The one that is written.
        const WR = 1 << 1;
    }
}

impl Flags for SdFlags {
    type Bits = u32;

    ghost exact = { ⊤ };

    ghost table = { (codes "RD", flag.rd) ∷
        (codes "WR", flag.wr) ∷
        [] };

    ghost set_of = { sdflag_bits };

    fn flags<'a>() -> &'a [Flag<SdFlags>] {
        SdFlags::FLAGS
    }

    fn bits(&self) -> u32 {
        self.0
    }

    fn from_bits_retain(bits: u32) -> SdFlags {
        SdFlags(bits)
    }
}

impl SdFlags {
    /// The set of these bits, `None` exactly where one of them is no flag.
    #[tactic(auto, using(crate::proofs::FlagSets::set_of_known), unfolding(bitflags::specs::Sets::known_from))]
    pub fn from_bits(bits: u32) -> Option<SdFlags>
        ensures set { option_map sdflag_bits result ≡ flags_in known_sdflags bits }
    {
        <SdFlags as Flags>::from_bits(bits)
    }
}

/// What a descriptor may be used for: preview1's `rights`, each for the call of its name. Contracts see the number of
/// its bits as `right_bits`.
#[derive(Clone, Copy, Debug, PartialEq, Eq)]
pub struct Rights(u64);

bitflag_items! {
    impl Rights: u64 {
        const FD_DATASYNC = 1 << 0;
        const FD_READ = 1 << 1;
        const FD_SEEK = 1 << 2;
        const FD_FDSTAT_SET_FLAGS = 1 << 3;
        const FD_SYNC = 1 << 4;
        const FD_TELL = 1 << 5;
        const FD_WRITE = 1 << 6;
        const FD_ADVISE = 1 << 7;
        const FD_ALLOCATE = 1 << 8;
        const PATH_CREATE_DIRECTORY = 1 << 9;
        const PATH_CREATE_FILE = 1 << 10;
        const PATH_LINK_SOURCE = 1 << 11;
        const PATH_LINK_TARGET = 1 << 12;
        const PATH_OPEN = 1 << 13;
        const FD_READDIR = 1 << 14;
        const PATH_READLINK = 1 << 15;
        const PATH_RENAME_SOURCE = 1 << 16;
        const PATH_RENAME_TARGET = 1 << 17;
        const PATH_FILESTAT_GET = 1 << 18;
        const PATH_FILESTAT_SET_SIZE = 1 << 19;
        const PATH_FILESTAT_SET_TIMES = 1 << 20;
        const FD_FILESTAT_GET = 1 << 21;
        const FD_FILESTAT_SET_SIZE = 1 << 22;
        const FD_FILESTAT_SET_TIMES = 1 << 23;
        const PATH_SYMLINK = 1 << 24;
        const PATH_REMOVE_DIRECTORY = 1 << 25;
        const PATH_UNLINK_FILE = 1 << 26;
        const POLL_FD_READWRITE = 1 << 27;
        const SOCK_SHUTDOWN = 1 << 28;
        const SOCK_ACCEPT = 1 << 29;
    }
}

impl Flags for Rights {
    type Bits = u64;

    ghost exact = { ⊤ };

    ghost table = { (codes "FD_DATASYNC", flag.fd_datasync) ∷
        (codes "FD_READ", flag.fd_read) ∷
        (codes "FD_SEEK", flag.fd_seek) ∷
        (codes "FD_FDSTAT_SET_FLAGS", flag.fd_fdstat_set_flags) ∷
        (codes "FD_SYNC", flag.fd_sync) ∷
        (codes "FD_TELL", flag.fd_tell) ∷
        (codes "FD_WRITE", flag.fd_write) ∷
        (codes "FD_ADVISE", flag.fd_advise) ∷
        (codes "FD_ALLOCATE", flag.fd_allocate) ∷
        (codes "PATH_CREATE_DIRECTORY", flag.path_create_directory) ∷
        (codes "PATH_CREATE_FILE", flag.path_create_file) ∷
        (codes "PATH_LINK_SOURCE", flag.path_link_source) ∷
        (codes "PATH_LINK_TARGET", flag.path_link_target) ∷
        (codes "PATH_OPEN", flag.path_open) ∷
        (codes "FD_READDIR", flag.fd_readdir) ∷
        (codes "PATH_READLINK", flag.path_readlink) ∷
        (codes "PATH_RENAME_SOURCE", flag.path_rename_source) ∷
        (codes "PATH_RENAME_TARGET", flag.path_rename_target) ∷
        (codes "PATH_FILESTAT_GET", flag.path_filestat_get) ∷
        (codes "PATH_FILESTAT_SET_SIZE", flag.path_filestat_set_size) ∷
        (codes "PATH_FILESTAT_SET_TIMES", flag.path_filestat_set_times) ∷
        (codes "FD_FILESTAT_GET", flag.fd_filestat_get) ∷
        (codes "FD_FILESTAT_SET_SIZE", flag.fd_filestat_set_size) ∷
        (codes "FD_FILESTAT_SET_TIMES", flag.fd_filestat_set_times) ∷
        (codes "PATH_SYMLINK", flag.path_symlink) ∷
        (codes "PATH_REMOVE_DIRECTORY", flag.path_remove_directory) ∷
        (codes "PATH_UNLINK_FILE", flag.path_unlink_file) ∷
        (codes "POLL_FD_READWRITE", flag.poll_fd_readwrite) ∷
        (codes "SOCK_SHUTDOWN", flag.sock_shutdown) ∷
        (codes "SOCK_ACCEPT", flag.sock_accept) ∷
        [] };

    ghost set_of = { right_bits };

    fn flags<'a>() -> &'a [Flag<Rights>] {
        Rights::FLAGS
    }

    fn bits(&self) -> u64 {
        self.0
    }

    fn from_bits_retain(bits: u64) -> Rights {
        Rights(bits)
    }
}

impl Rights {
    /// The set of these bits, `None` exactly where one of them is no flag.
    #[tactic(auto, using(crate::proofs::FlagSets::set_of_known), unfolding(bitflags::specs::Sets::known_from))]
    pub fn from_bits(bits: u64) -> Option<Rights>
        ensures set { option_map right_bits result ≡ flags_in known_rights bits }
    {
        <Rights as Flags>::from_bits(bits)
    }
}

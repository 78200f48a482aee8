//! What a poll waits for, and what it is told of it.
ghost use Rattle.std.specs.Prelude.{◌≡◌, ◌+◌, ◌^◌, ◌<◌, ◌≤◌, length, min};
ghost use Rattle.wasi_p1_types.specs.Polling.{comes_at, event_flags, event_of, files_in, nbytes_in, nodes_in, type_of};

use bitflags::Flags;
use wasi_guest::{Event, EventRwFlags, Eventtype};
use wasi_host::Handle;

/// What is waited for.
#[derive(Clone, Copy, Debug, PartialEq, Eq)]
pub enum Awaited {
    /// The monotonic clock, until it stands at this moment.
    Clock { end: u64 },
    /// The standard input, which can be read at once.
    Input,
    /// A standard output, which can be written at once.
    Output,
    /// A file that is written.
    FileToWrite,
    /// A file that is read, at this position.
    FileToRead { file: Handle, position: u64 },
}

/// What a subscription waits for, with the number that comes back with its event.
#[derive(Clone, Copy, Debug, PartialEq, Eq)]
pub struct Waited {
    pub userdata: u64,
    pub what: Awaited,
}

/// How many of some subscriptions name a file, and at which moment of the monotonic clock the first of them comes.
#[derive(Clone, Copy, Debug, PartialEq, Eq)]
pub struct Judged {
    pub files: u32,
    pub earliest: u64,
}

impl Awaited {
    /// From which moment of the monotonic clock on it is ready: the first one of what isn't a clock.
    pub fn comes_at(self) -> u64
        ensures { result ≡ comes_at self }
    {
        match self {
            Awaited::Clock { end } => end,
            Awaited::Input => 0,
            Awaited::Output => 0,
            Awaited::FileToWrite => 0,
            Awaited::FileToRead { .. } => 0,
        }
    }

    /// How many files it names.
    pub fn files(self) -> u32
        ensures count { result ≡ files_in self }
        ensures most { result ≤ 1 }
    {
        match self {
            Awaited::Clock { .. } => 0,
            Awaited::Input => 0,
            Awaited::Output => 0,
            Awaited::FileToWrite => 1,
            Awaited::FileToRead { .. } => 1,
        }
    }

    /// For how many files it asks for the size.
    pub fn sizes(self) -> usize
        ensures count { result ≡ length (nodes_in self) }
        ensures most { result ≤ 1 }
    {
        match self {
            Awaited::Clock { .. } => 0,
            Awaited::Input => 0,
            Awaited::Output => 0,
            Awaited::FileToWrite => 0,
            Awaited::FileToRead { .. } => 1,
        }
    }

    /// The number of its event's type, as `Eventtype` has it.
    pub fn kind(self) -> u8
        ensures { result ≡ type_of self }
    {
        match self {
            Awaited::Clock { .. } => Eventtype::Clock.number(),
            Awaited::Input => Eventtype::FdRead.number(),
            Awaited::Output => Eventtype::FdWrite.number(),
            Awaited::FileToWrite => Eventtype::FdWrite.number(),
            Awaited::FileToRead { .. } => Eventtype::FdRead.number(),
        }
    }

    /// How many bytes can be read or written, as far as that is told.
    pub fn nbytes(self) -> u64
        ensures { result ≡ nbytes_in self }
    {
        match self {
            Awaited::Clock { .. } => 0,
            Awaited::Input => 1,
            Awaited::Output => 1,
            Awaited::FileToWrite => 1,
            Awaited::FileToRead { .. } => 1,
        }
    }

    /// The bits of `EventRwFlags`: that a file of this size is read to its end.
    pub fn flags(self, size: u64) -> u16
        ensures { result ≡ event_flags self size }
    {
        match self {
            Awaited::Clock { .. } => 0,
            Awaited::Input => 0,
            Awaited::Output => 0,
            Awaited::FileToWrite => 0,
            Awaited::FileToRead { position, .. } => {
                if size <= position {
                    EventRwFlags::FD_READWRITE_HANGUP.bits()
                } else {
                    0
                }
            }
        }
    }
}

impl Waited {
    /// What is told of it, where a file that is read has this size.
    pub fn event(self, size: u64) -> Event
        ensures { result ≡ event_of self size }
    {
        Event {
            userdata: self.userdata,
            error: 0,
            kind: self.what.kind(),
            nbytes: self.what.nbytes(),
            flags: self.what.flags(size),
        }
    }
}

impl Judged {
    /// With one subscription more, which names so many files and comes at this moment.
    pub fn with(self, files: u32, comes_at: u64) -> Judged
        requires { self.files + files < 2 ^ 32 }
        ensures files { result.files ≡ self.files + files }
        ensures earliest { result.earliest ≡ min self.earliest comes_at }
    {
        Judged {
            files: self.files + files,
            earliest: self.earliest.min(comes_at),
        }
    }
}

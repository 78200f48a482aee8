//! The enumerations of preview1 that come as raw numbers.
ghost use Rattle.std.specs.Prelude.{◌≡◌};
ghost use Rattle.wasi_guest.specs.Enums.{whence_of, clockid_of, advice_of, eventtype_of, eventtype_number, is_signal};

/// From where a position is counted: preview1's `whence`.
#[derive(Clone, Copy, Debug, PartialEq, Eq)]
pub enum Whence {
    /// The start of the file.
    Set,
    /// The position.
    Cur,
    /// The end of the file.
    End,
}

impl Whence {
    /// All, in the order of their numbers, which begin with 0.
    const ALL: [Whence; 3] = [Whence::Set, Whence::Cur, Whence::End];

    /// What a raw number names, `None` exactly where it names nothing.
    pub fn from_number(number: u32) -> Option<Whence>
        ensures named { result ≡ whence_of number }
    {
        Whence::ALL.get(number as usize).copied()
    }
}

/// A clock: preview1's `clockid`.
#[derive(Clone, Copy, Debug, PartialEq, Eq)]
pub enum Clockid {
    /// The time since the epoch.
    Realtime,
    /// The time since some moment; it never goes back.
    Monotonic,
    /// The processor's time that the process took.
    ProcessCputimeId,
    /// The processor's time that the thread took.
    ThreadCputimeId,
}

impl Clockid {
    /// All, in the order of their numbers, which begin with 0.
    const ALL: [Clockid; 4] = [
        Clockid::Realtime,
        Clockid::Monotonic,
        Clockid::ProcessCputimeId,
        Clockid::ThreadCputimeId,
    ];

    /// What a raw number names, `None` exactly where it names nothing.
    pub fn from_number(number: u32) -> Option<Clockid>
        ensures named { result ≡ clockid_of number }
    {
        Clockid::ALL.get(number as usize).copied()
    }
}

/// How a file is going to be used: preview1's `advice`.
#[derive(Clone, Copy, Debug, PartialEq, Eq)]
pub enum Advice {
    Normal,
    Sequential,
    Random,
    WillNeed,
    DontNeed,
    NoReuse,
}

impl Advice {
    /// All, in the order of their numbers, which begin with 0.
    const ALL: [Advice; 6] = [
        Advice::Normal,
        Advice::Sequential,
        Advice::Random,
        Advice::WillNeed,
        Advice::DontNeed,
        Advice::NoReuse,
    ];

    /// What a raw number names, `None` exactly where it names nothing.
    pub fn from_number(number: u32) -> Option<Advice>
        ensures named { result ≡ advice_of number }
    {
        Advice::ALL.get(number as usize).copied()
    }
}

/// What is waited for: preview1's `eventtype`, the tag of a subscription.
#[derive(Clone, Copy, Debug, PartialEq, Eq)]
pub enum Eventtype {
    /// The end of a time.
    Clock,
    /// That a descriptor can be read.
    FdRead,
    /// That a descriptor can be written.
    FdWrite,
}

impl Eventtype {
    /// All, in the order of their numbers, which begin with 0.
    const ALL: [Eventtype; 3] = [Eventtype::Clock, Eventtype::FdRead, Eventtype::FdWrite];

    /// What a raw number names, `None` exactly where it names nothing.
    pub fn from_number(number: u32) -> Option<Eventtype>
        ensures named { result ≡ eventtype_of number }
    {
        Eventtype::ALL.get(number as usize).copied()
    }

    /// Preview1's number: 0 to 2 in the order of the variants.
    pub fn number(self) -> u8
        ensures number { result ≡ eventtype_number self }
    {
        match self {
            Eventtype::Clock => 0,
            Eventtype::FdRead => 1,
            Eventtype::FdWrite => 2,
        }
    }
}

/// How many signals preview1 has: they are numbered from 0 on.
const SIGNALS: u32 = 31;

/// Whether a raw number is a signal's.
pub fn is_signal(number: u32) -> bool
    ensures test { result ≡ is_signal number }
{
    number < SIGNALS
}

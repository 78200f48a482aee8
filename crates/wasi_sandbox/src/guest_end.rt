//! How a guest's run ended.
ghost use Rattle.std.specs.Prelude.{◌≡◌, Err};
ghost use Rattle.wasi_sandbox.specs.Ending.{end_of, error_of};

use wasi_p1::{P1Error, TrapKind};

/// How a guest's run ended. No call is made after it.
#[derive(Clone, Copy, Debug, PartialEq, Eq)]
pub enum GuestEnd {
    /// The guest was stopped by a trap.
    Trap(TrapKind),
    /// The guest ended itself, with the status that it gave `proc_exit`.
    Exit(u32),
}

impl GuestEnd {
    /// The end that a call made which was answered so, if it made one.
    pub fn of(error: P1Error) -> Option<GuestEnd>
        ensures { result ≡ end_of (Err error) }
    {
        match error {
            P1Error::Trap(kind) => Some(GuestEnd::Trap(kind)),
            P1Error::Exit(status) => Some(GuestEnd::Exit(status)),
            _ => None,
        }
    }

    /// What the call answered that made it, and each call after it answers.
    pub fn error(self) -> P1Error
        ensures { result ≡ error_of self }
    {
        match self {
            GuestEnd::Trap(kind) => P1Error::Trap(kind),
            GuestEnd::Exit(status) => P1Error::Exit(status),
        }
    }
}

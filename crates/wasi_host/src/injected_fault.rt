//! Failures of a host that a test asks for.

/// Whether a call of a host fails, and when.
#[derive(Clone, Copy, Debug, PartialEq, Eq)]
pub enum InjectedFault {
    /// No failure is injected: the host answers as it would.
    Passes,
    /// The call fails, and nothing happened.
    FailsBefore,
    /// The call fails, but what it does has happened: its answer is lost.
    FailsAfter,
}

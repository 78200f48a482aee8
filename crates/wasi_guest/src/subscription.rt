//! The record of what is waited for.
ghost use Rattle.std.specs.Prelude.{◌≡◌, length};
ghost use Rattle.wasi_guest.specs.Subscription.{clock_of, awaited_of};

use crate::enums::{Clockid, Eventtype};
use crate::flags::SubclockFlags;
use crate::guest_error::GuestError;
use crate::records::{u16_at, u32_at, u64_at};

/// What a guest waits for, with a number of its own: preview1's `subscription`.
#[derive(Clone, Copy, Debug, PartialEq, Eq)]
pub struct Subscription {
    /// It comes back with the event.
    pub userdata: u64,
    pub what: SubscriptionKind,
}

impl Subscription {
    /// How many bytes the record has. It is aligned to 8.
    pub const SIZE: usize = 48;
}

/// What is waited for: the end of a time, or that a descriptor can be read or written.
#[derive(Clone, Copy, Debug, PartialEq, Eq)]
pub enum SubscriptionKind {
    Clock {
        /// The number of the clock, as `Clockid` has it.
        id: u32,
        /// In nanoseconds, a moment of the clock or a time from now on.
        timeout: u64,
        /// How many nanoseconds later it may end. It isn't used.
        precision: u64,
        /// The bits of `SubclockFlags`.
        flags: u16,
    },
    FdRead {
        fd: u32,
    },
    FdWrite {
        fd: u32,
    },
}

/// The end of a time, from the bytes of its record: InvalidEnumValue of an unknown clock, then InvalidFlagValue of an
/// unknown flag.
fn clock_of(bytes: &[u8]) -> Result<SubscriptionKind, GuestError>
    requires { length bytes.now ≡ 48 }
    ensures { result ≡ clock_of bytes.now }
{
    let id = u32_at(bytes, 16);
    let flags = u16_at(bytes, 40);
    if Clockid::from_number(id).is_none() {
        return Err(GuestError::InvalidEnumValue);
    }
    if SubclockFlags::from_bits(flags).is_none() {
        return Err(GuestError::InvalidFlagValue);
    }
    Ok(SubscriptionKind::Clock {
        id,
        timeout: u64_at(bytes, 24),
        precision: u64_at(bytes, 32),
        flags,
    })
}

/// What is waited for, from the bytes of its record.
pub(crate) fn awaited_of(bytes: &[u8]) -> Result<SubscriptionKind, GuestError>
    requires { length bytes.now ≡ 48 }
    ensures { result ≡ awaited_of bytes.now }
{
    let fd = u32_at(bytes, 16);
    match Eventtype::from_number(bytes[8] as u32) {
        Some(Eventtype::Clock) => clock_of(bytes),
        Some(Eventtype::FdRead) => Ok(SubscriptionKind::FdRead { fd }),
        Some(Eventtype::FdWrite) => Ok(SubscriptionKind::FdWrite { fd }),
        None => Err(GuestError::InvalidEnumValue),
    }
}

//! The record of what came of a subscription.
ghost use Rattle.std.specs.Prelude.{◌≡◌};
ghost use Rattle.wasi_guest.specs.Event.{event_bytes};

/// What came of a subscription: preview1's `event`.
#[derive(Clone, Copy, Debug, PartialEq, Eq)]
pub struct Event {
    /// That of the subscription.
    pub userdata: u64,
    /// An error number, 0 for none.
    pub error: u16,
    /// The number of its type, as `Eventtype` has it.
    pub kind: u8,
    /// How many bytes can be read or written.
    pub nbytes: u64,
    /// The bits of `EventRwFlags`.
    pub flags: u16,
}

impl Event {
    /// How many bytes the record has. It is aligned to 8.
    pub const SIZE: usize = 32;

    /// The record as it stands in memory, in little-endian order.
    pub fn to_bytes(&self) -> [u8; Event::SIZE]
        ensures layout { result ≡ event_bytes self.now }
    {
        let mut bytes = [0; Event::SIZE];
        bytes[0..8].copy_from_slice(&self.userdata.to_le_bytes());
        bytes[8..10].copy_from_slice(&self.error.to_le_bytes());
        bytes[10] = self.kind;
        bytes[16..24].copy_from_slice(&self.nbytes.to_le_bytes());
        bytes[24..26].copy_from_slice(&self.flags.to_le_bytes());
        bytes
    }
}

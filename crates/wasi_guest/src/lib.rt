//! What a guest of `wasi_snapshot_preview1` sees: its memory, its calls as plain values, and what they answer.
#![tactic(auto)]

mod answer;
mod answers;
mod call;
mod dirent;
mod enums;
mod errno;
mod event;
mod fdstat;
mod filestat;
mod filetype;
mod flags;
mod guest_env;
mod guest_error;
mod iovec;
mod kept;
mod memory;
mod prestat;
mod quota;
mod range;
mod records;
mod subscription;

pub use answer::{Answer, TrapKind, Value};
pub use answers::Answers;
pub use bitflags::Flags;
pub use call::Call;
pub use dirent::Dirent;
pub use enums::{Advice, Clockid, Eventtype, Whence, is_signal};
pub use errno::Errno;
pub use event::Event;
pub use fdstat::Fdstat;
pub use filestat::Filestat;
pub use filetype::Filetype;
pub use flags::{
    EventRwFlags, FdFlags, FstFlags, LookupFlags, OFlags, RiFlags, Rights, SdFlags, SubclockFlags,
};
pub use guest_env::{EnvPair, Services, WallDatetime};
pub use guest_error::GuestError;
pub use iovec::Iovec;
pub use memory::GuestMemory;
pub use prestat::PrestatDir;
pub use quota::{Quota, QuotaUsed};
pub use range::{in_memory, slice_at, write_bytes};
pub use records::{first_buffer, iovec_in, subscription_in, text_in, u32_in};
pub use subscription::{Subscription, SubscriptionKind};

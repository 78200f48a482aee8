//! Raw numbers of calls: what they name, or why they are refused.
ghost use Rattle.std.specs.Prelude.{◌≡◌, false, IfErr};
ghost use Rattle.std.specs.Result.{result_map_both};
ghost use Rattle.wasi_guest.specs.Enums.{advice_of, whence_of};
ghost use Rattle.wasi_guest.specs.FlagSets.{fdflag_bits, right_bits};
ghost use Rattle.wasi_guest.specs.Flags.{flags_in, known_fdflags, known_rights};
ghost use Rattle.wasi_p1_types.specs.RawFlags.{or_inval};
ghost use Rattle.wasi_p1_types.specs.Services.{exit_with, known_signal};
ghost use Rattle.wasi_p1_types.specs.CallParts.{is_failure};

use crate::error::P1Error;
use bitflags::Flags;
use wasi_guest::{Advice, Errno, FdFlags, Rights, TrapKind, Whence, is_signal};

/// The refusal of a raw number that names nothing, or has a bit that is no flag.
pub const INVALID: P1Error = P1Error::Errno(Errno::Inval);

/// The first status with which an exit is a trap.
const FIRST_TRAPPED_STATUS: u32 = 126;

/// An exit with this status; trap ExitStatus from 126 on, as the crate.
pub fn exit_with(status: u32) -> P1Error
    ensures { result ≡ exit_with status }
{
    if FIRST_TRAPPED_STATUS <= status {
        return P1Error::Trap(TrapKind::ExitStatus);
    }
    P1Error::Exit(status)
}

/// A signal: Inval of an unknown one.
#[tactic(auto, unfolding(crate::specs::Services::known_signal))]
pub fn known_signal(signal: u32) -> Result<u32, P1Error>
    ensures specified { result ≡ known_signal signal }
    ensures refusal { IfErr result (λ e. is_failure e ≡ false) }
{
    if is_signal(signal) {
        return Ok(signal);
    }
    Err(INVALID)
}

/// From where a position is counted: Inval of an unknown number.
pub fn whence_of(whence: u32) -> Result<Whence, P1Error>
    ensures specified { result ≡ or_inval (whence_of whence) }
    ensures refusal { IfErr result (λ e. is_failure e ≡ false) }
{
    Whence::from_number(whence).ok_or(INVALID)
}

/// How a file will be used: Inval of an unknown number.
pub fn advice_of(advice: u32) -> Result<Advice, P1Error>
    ensures specified { result ≡ or_inval (advice_of advice) }
    ensures refusal { IfErr result (λ e. is_failure e ≡ false) }
{
    Advice::from_number(advice).ok_or(INVALID)
}

/// The flags of a descriptor: Inval where a bit is none of preview1's.
pub fn fdflags_of(flags: u32) -> Result<FdFlags, P1Error>
    ensures specified { result_map_both fdflag_bits (λ e. e) result ≡ or_inval (flags_in known_fdflags flags) }
    ensures refusal { IfErr result (λ e. is_failure e ≡ false) }
{
    FdFlags::from_bits(flags).ok_or(INVALID)
}

/// Rights: Inval where a bit is none of preview1's.
pub fn rights_of(rights: u64) -> Result<Rights, P1Error>
    ensures specified { result_map_both right_bits (λ e. e) result ≡ or_inval (flags_in known_rights rights) }
    ensures refusal { IfErr result (λ e. is_failure e ≡ false) }
{
    Rights::from_bits(rights).ok_or(INVALID)
}

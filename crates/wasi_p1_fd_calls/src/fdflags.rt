//! The flags that an open file may be given.
ghost use Rattle.std.specs.Prelude.{◌≡◌, false, Ok, IfErr};
ghost use Rattle.std.specs.FinSet.{contains};
ghost use Rattle.wasi_guest.specs.FlagSets.{fdflag_bits};
ghost use Rattle.wasi_p1_types.specs.CallParts.{is_failure};
ghost use Rattle.wasi_p1_types.specs.Files.{keeps_append, not_synchronized};

use bitflags::Flags;
use wasi_fs::FsPerms;
use wasi_guest::{Errno, FdFlags};
use wasi_host::Host;
use wasi_p1_types::{FileModes, INVALID, P1Error};

/// Inval of a flag of integrity.
#[tactic(auto, unfolding(wasi_p1_types::specs::Files::not_synchronized))]
pub fn not_synchronized(fdflags: FdFlags) -> Result<(), P1Error>
    ensures specified { result ≡ not_synchronized (fdflag_bits fdflags) }
    ensures refusal { IfErr result (λ e. is_failure e ≡ false) }
{
    if fdflags.contains(FdFlags::DSYNC)
        || fdflags.contains(FdFlags::RSYNC)
        || fdflags.contains(FdFlags::SYNC)
    {
        return Err(INVALID);
    }
    Ok(())
}

/// Whether a file of these permissions may be used so: Perm where only additions are permitted, and what is written
/// wouldn't go after its last byte.
#[tactic(auto, unfolding(wasi_p1_types::specs::Files::keeps_append))]
pub fn keeps_append(perms: FsPerms, modes: FileModes) -> Result<(), P1Error>
    ensures specified { result ≡ keeps_append perms modes }
    ensures refusal { IfErr result (λ e. is_failure e ≡ false) }
{
    if perms.is_append_only() && !modes.append {
        return Err(P1Error::Errno(Errno::Perm));
    }
    Ok(())
}

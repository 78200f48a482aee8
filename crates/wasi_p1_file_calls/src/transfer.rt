//! Bytes between a file and guest memory.
ghost use Rattle.std.specs.Prelude.{◌≡◌, ◌<◌, ◌+◌, ◌^◌, true, IsTrue, length, Ok, Err, IfOk, IfErr, OnErr};
ghost use Rattle.std.specs.FinSet.{contains};
ghost use Rattle.wasi_host.specs.HostCall.{Pread, Pwrite};
ghost use Rattle.wasi_host.specs.HostLaws.{Rose};
ghost use Rattle.wasi_p1_model.specs.CallTransition.{Causes};
ghost use Rattle.wasi_p1_types.specs.Request.{Direct};
ghost use Rattle.wasi_guest.specs.Range.{IsInMemory};
ghost use Rattle.wasi_p1_types.specs.CallParts.{ReadsInto, WritesPiece, filled_at, with_after, IsReplied, WantsNoMemory};
ghost use Rattle.wasi_p1_types.specs.CallResult.{give};

use wasi_guest::{Errno, Iovec};
use wasi_host::{Handle, Host};
use wasi_p1_types::P1Error;

/// Reads a file's bytes from a position on into the front of a buffer in memory, and gives how many.
#[tactic(auto, using(wasi_host::proofs::Chain::live_rules))]
pub fn read_into<H: Host>(
    host: &mut H,
    memory: &mut [u8],
    file: Handle,
    position: u64,
    buffer: Iovec,
) -> Result<u32, P1Error>
    requires live { contains (H.live host.old) file ≡ true }
    requires inside { IsInMemory memory.old buffer.buf buffer.buf_len }
    ensures size { length memory.new ≡ length memory.old }
    ensures cause { Causes (H.faults host.old) (H.faults host.new) result }
    ensures live { H.live host.new ≡ H.live host.old }
    ensures logged { H.lookups host.new ≡ H.lookups host.old }
    ensures never_wants { IfErr result WantsNoMemory }
    ensures fits { IfOk result (λ n. position + n < 2 ^ 64) }
    ensures same { OnErr result (memory.new ≡ memory.old) }

    // The specification, over every host and over a modelled one.
    ensures front { IsReplied (Direct (Pread ((H.model host.old).held file) position buffer.buf_len))
        (filled_at memory.old buffer.buf) (with_after result memory.new) }
    ensures modelled { IsTrue H.modelled → ReadsInto (Rose (H.faults host.old) (H.faults host.new)) (H.live host.old)
        (H.model host.old) (H.model host.new) ((H.model host.old).held file) position buffer.buf buffer.buf_len
        memory.old memory.new result }
{
    let at = buffer.buf as usize;
    let part = &mut memory[at..at + buffer.buf_len as usize];
    let count = host.pread(file, part, position)?;
    Ok(count as u32)
}

/// Writes a piece into a file from a position on, and gives how many bytes the file took. A host that takes nothing of
/// a piece that isn't empty has failed.
#[tactic(auto, using(wasi_host::proofs::Chain::live_rules))]
pub fn write_piece<H: Host>(
    host: &mut H,
    file: Handle,
    position: u64,
    piece: &[u8],
) -> Result<u64, P1Error>
    requires live { contains (H.live host.old) file ≡ true }
    ensures cause { Causes (H.faults host.old) (H.faults host.new) result }
    ensures live { H.live host.new ≡ H.live host.old }
    ensures logged { H.lookups host.new ≡ H.lookups host.old }
    ensures fits { IfOk result (λ n. position + n < 2 ^ 64) }

    // The specification, over every host and over a modelled one.
    ensures front { IsReplied (Direct (Pwrite ((H.model host.old).held file) position piece.now)) give result }
    ensures modelled { IsTrue H.modelled → WritesPiece (Rose (H.faults host.old) (H.faults host.new)) (H.live host.old)
        (H.model host.old) (H.model host.new) ((H.model host.old).held file) position piece.now result }
{
    let count = host.pwrite(file, piece, position)?;
    if count == 0 && !piece.is_empty() {
        return Err(P1Error::Errno(Errno::Io));
    }
    Ok(count as u64)
}

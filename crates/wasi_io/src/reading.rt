//! Reading to the end, up to a limit.
ghost use Rattle.std.specs.Prelude.{◌≤◌, ◌<◌, IsTrue, length, IfOk, IsErrOf};
ghost use Rattle.std.specs.Result.{result_map_both};
ghost use Rattle.wasi_host.specs.HostLaws.{Risen};
ghost use Rattle.wasi_io.specs.Ends.{most_bytes, ReadAll};

use crate::source_sink::{CHUNK, Source};
use std::alloc::Global;

/// How many bytes are read at most: 16,777,216, as many as the largest script has.
pub const MOST_BYTES: usize = 16_777_216;

/// Why a source wasn't read to its end.
#[derive(Clone, Copy, Debug, PartialEq, Eq)]
pub enum Unfinished {
    /// More than 16,777,216 bytes were left.
    Long,
    /// A read failed.
    Fault,
    /// Memory ran out.
    Memory,
}

/// All that is left of a source, at most 16,777,216 bytes. Of a modelled one at most one more is taken, whatever
/// the answer.
pub fn read_all<S: Source>(alloc: Global, source: &mut S) -> Result<Vec<u8>, Unfinished>
    ensures bytes { IsTrue S.modelled → ReadAll (result_map_both (λ v. v.items) (λ e. e) result) (S.left source.old) (S.left source.new) }
    ensures most { IfOk result (λ v. length v.items ≤ most_bytes) }
    ensures count { S.faults source.old ≤ S.faults source.new }
    ensures cause { IsErrOf result Unfinished.Fault → Risen (S.faults source.old) (S.faults source.new) }
{
    let Ok(mut chunk) = vec![in alloc; 0u8; CHUNK] else {
        return Err(Unfinished::Memory);
    };
    read_by(alloc, source, chunk.as_mut_slice())
}

// All that is left, read a chunk at a time. Room for all that may come is asked for at once, so that no byte is copied
// to larger room; what isn't filled of it is never touched.
fn read_by<S: Source>(
    alloc: Global,
    source: &mut S,
    chunk: &mut [u8],
) -> Result<Vec<u8>, Unfinished>
    requires { 0 < length chunk.old }
    ensures bytes { IsTrue S.modelled → ReadAll (result_map_both (λ v. v.items) (λ e. e) result) (S.left source.old) (S.left source.new) }
    ensures most { IfOk result (λ v. length v.items ≤ most_bytes) }
    ensures count { S.faults source.old ≤ S.faults source.new }
    ensures cause { IsErrOf result Unfinished.Fault → Risen (S.faults source.old) (S.faults source.new) }
{
    let Ok(mut all) = Vec::with_capacity(alloc, MOST_BYTES + 1) else {
        return Err(Unfinished::Memory);
    };
    while all.len() <= MOST_BYTES {
        let want = (MOST_BYTES + 1 - all.len()).min(chunk.len());
        let Ok(count) = source.read(&mut chunk[..want]) else {
            return Err(Unfinished::Fault);
        };
        if count == 0 {
            return Ok(all);
        }
        if all.extend_from_slice(&chunk[..count]).is_err() {
            return Err(Unfinished::Memory);
        }
    }
    Err(Unfinished::Long)
}

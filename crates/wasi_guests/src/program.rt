//! The program of several guests as a call: from the words of the command line and the bytes of a script to the text of
//! what the guests come to.
ghost use Rattle.std.specs.Prelude.{◌≡◌, ◌≢◌, ◌≤◌, ◌⊎◌, true, false, map, IsTrue, Err, IfOk, IfErr};
ghost use Rattle.std.specs.String.{string_bytes};
ghost use Rattle.wasi_io.specs.Endings.{IsStatus, Leaves, Took, TookNone};
ghost use Rattle.wasi_host.specs.HostLaws.{Risen};
ghost use Rattle.wasi_guests.specs.GuestScript.{CanRunGuests};
ghost use Rattle.wasi_guests.specs.GuestsDue.{the_usage, EndsReading, GivesSome, GivesText, IsText, OfDue, ReadsScript, ReadsSome, WritesOfSome, is_run, status_of};
ghost use Rattle.wasi_guests.specs.Status.{extent};

use crate::guest_script::text_of;
use crate::status::{GuestStatus, refusal_line};
use bumpalo::Bump;
use std::alloc::{Allocator, Global};
use wasi_form::{GuestScript, read_guest_script};
use wasi_io::{Sink, Source, read_all, write_under};

const USAGE: &str = "usage: wasiguests run\n";

// Whether the words ask for a script to be read.
fn is_run(words: &[String]) -> bool
    ensures { result ≡ is_run (map string_bytes words.now) }
{
    match words {
        [word] => word.as_str() == "run",
        _ => false,
    }
}

// The script that the source has left, whose bytes the buffer has then; or how the program ends without one. `room` is
// for what the reading needs only for a time.
fn read_from<S: Source, A: Allocator + Copy>(
    alloc: Global,
    room: A,
    source: &mut S,
    buffer: &mut Vec<u8>,
) -> Result<GuestScript, GuestStatus>
    ensures count { S.faults source.old ≤ S.faults source.new }
    ensures cause { result ≡ Err GuestStatus.ReadFault → Risen (S.faults source.old) (S.faults source.new) }
    ensures can_run { IfOk result CanRunGuests }
    ensures some { ReadsSome result }
    ensures read { IsTrue S.modelled → ReadsScript result (S.left source.old) (S.left source.new) }
{
    *buffer = read_all(alloc, source)?;
    Ok(read_guest_script(alloc, room, buffer.as_slice())?)
}

// The text of what the guests come to whose script the source has left; or how the program ends without one. It is
// written where the script's bytes stood, and digits that aren't more than they were where the reader had its room, which
// grows no more.
fn text_from<S: Source>(alloc: Global, source: &mut S) -> Result<Vec<u8>, GuestStatus>
    ensures count { S.faults source.old ≤ S.faults source.new }
    ensures cause { result ≡ Err GuestStatus.ReadFault → Risen (S.faults source.old) (S.faults source.new) }
    ensures ends { IfErr result EndsReading }
    ensures some { GivesSome result }
    ensures gives { IsTrue S.modelled → GivesText result (S.left source.old) (S.left source.new) }
{
    let room = Bump::new(alloc);
    let mut bytes = Vec::new(alloc);
    let script = read_from(alloc, &room, source, &mut bytes)?;
    room.set_allocation_limit(Some(0));
    Ok(text_of(alloc, &room, script, bytes)?)
}

// Runs the guests of a script that is read of the source, and writes what they come to, or why they don't run.
fn run_source<S: Source, K: Sink>(alloc: Global, source: &mut S, sink: &mut K) -> GuestStatus
    ensures source_count { S.faults source.old ≤ S.faults source.new }
    ensures sink_count { K.faults sink.old ≤ K.faults sink.new }
    ensures read_fault { result ≡ GuestStatus.ReadFault → Risen (S.faults source.old) (S.faults source.new) }
    ensures write_fault { result ≡ GuestStatus.WriteFault → Risen (K.faults sink.old) (K.faults sink.new) }
    ensures usage { result ≢ GuestStatus.Usage }
    ensures exact { IsTrue S.modelled
        → OfDue result true (S.left source.old) (λ due. IsStatus (extent result) result (status_of due)) }
    ensures left { IsTrue S.modelled → Leaves (extent result) (S.left source.old) (S.left source.new) }
    ensures nothing { IsTrue K.modelled → TookNone (extent result) (K.taken sink.old) (K.taken sink.new) }
    ensures some { IsTrue K.modelled → WritesOfSome result true (K.taken sink.old) (K.taken sink.new) }
    ensures writes { IsTrue S.modelled → IsTrue K.modelled → OfDue result true (S.left source.old)
        (λ due. Took (extent result) (IsText due) (K.taken sink.old) (K.taken sink.new)) }
{
    match text_from(alloc, source) {
        Ok(text) => write_under(
            sink,
            text.as_slice(),
            GuestStatus::Done,
            GuestStatus::WriteFault,
        ),
        Err(GuestStatus::Refused(refusal)) => write_under(
            sink,
            refusal_line(refusal).as_bytes(),
            GuestStatus::Refused(refusal),
            GuestStatus::WriteFault,
        ),
        Err(status) => status,
    }
}

/// Runs the program. `words` are the words of the command line after the program's name. With the one word `run` the
/// source is read to its end as a script of several guests, they run in turns over its tree, and what they come to is
/// written to the sink. With any others the usage line is written, and nothing is read. A script has at most 16,777,216
/// bytes, and at most one more is read.
///
/// What is written is due by the words and the bytes that the source has left: the usage line; the line that names the
/// refusal, as `refused: overlap`; or the text of what the guests come to, each of them what it comes to alone. Of a source
/// that isn't modelled it is what is due of some bytes. Faults come from the source and the sink alone.
pub fn run_guest_script<S: Source, K: Sink>(
    alloc: Global,
    words: &Vec<String>,
    source: &mut S,
    sink: &mut K,
) -> GuestStatus
    ensures source_count { S.faults source.old ≤ S.faults source.new }
    ensures sink_count { K.faults sink.old ≤ K.faults sink.new }
    ensures read_fault { result ≡ GuestStatus.ReadFault
        → (is_run (map string_bytes words.now.items) ≡ true) × Risen (S.faults source.old) (S.faults source.new) }
    ensures write_fault { result ≡ GuestStatus.WriteFault → Risen (K.faults sink.old) (K.faults sink.new) }
    ensures usage { result ≡ GuestStatus.Usage → is_run (map string_bytes words.now.items) ≡ false }
    ensures other_words { is_run (map string_bytes words.now.items) ≡ false
        → ((result ≡ GuestStatus.Usage) ⊎ (result ≡ GuestStatus.WriteFault)) × (source.new ≡ source.old) }
    ensures exact { IsTrue S.modelled → OfDue result (is_run (map string_bytes words.now.items)) (S.left source.old)
        (λ due. IsStatus (extent result) result (status_of due)) }
    ensures left { IsTrue S.modelled → is_run (map string_bytes words.now.items) ≡ true
        → Leaves (extent result) (S.left source.old) (S.left source.new) }
    ensures usage_line { IsTrue K.modelled → is_run (map string_bytes words.now.items) ≡ false
        → Took (extent result) (IsText the_usage) (K.taken sink.old) (K.taken sink.new) }
    ensures nothing { IsTrue K.modelled → TookNone (extent result) (K.taken sink.old) (K.taken sink.new) }
    ensures some { IsTrue K.modelled → WritesOfSome result (is_run (map string_bytes words.now.items))
        (K.taken sink.old) (K.taken sink.new) }
    ensures writes { IsTrue S.modelled → IsTrue K.modelled
        → OfDue result (is_run (map string_bytes words.now.items)) (S.left source.old)
        (λ due. Took (extent result) (IsText due) (K.taken sink.old) (K.taken sink.new)) }
{
    if is_run(words.as_slice()) {
        run_source(alloc, source, sink)
    } else {
        write_under(
            sink,
            USAGE.as_bytes(),
            GuestStatus::Usage,
            GuestStatus::WriteFault,
        )
    }
}

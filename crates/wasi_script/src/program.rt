//! The program as a call: from the words of the command line and the bytes of a script to a report.
ghost use Rattle.std.specs.Prelude.{◌≡◌, ◌≢◌, ◌<◌, ◌≤◌, ◌⊎◌, ℕ, true, map, IsTrue, Err, IfOk, IfErr};
ghost use Rattle.std.specs.String.{string_bytes};
ghost use Rattle.wasi_host_faults.specs.Faults.{numbers_rise};
ghost use Rattle.wasi_host.specs.HostLaws.{Risen};
ghost use Rattle.wasi_form.specs.Plan.{plan};
ghost use Rattle.wasi_form.specs.Within.{is_within_limits};
ghost use Rattle.wasi_guest.specs.Quotas.{IsQuota};
ghost use Rattle.wasi_script.specs.Headline.{Reports};
ghost use Rattle.wasi_script.specs.Words.{task_of};
ghost use Rattle.wasi_script.specs.Due.{the_usage, the_line, the_outcome, refusal_line, OfDue, IsDue, Writes, WritesOfSome, KeepsTree, LeavesBytes, KeepsSink, EndsReading, EndsGenerated, IsText, ReadsSome, ReadsScript, TakesScript, Written};
ghost use Rattle.wasi_setup.specs.Start.{CanRun};

use crate::audited::audit_of;
use crate::run::{end_of, run};
use crate::status::Status;
use crate::summary::summary_of;
use crate::trial::trial_of;
use crate::words::{ScriptTask, Task, task_of};
use bumpalo::Bump;
use std::alloc::{AllocError, Allocator, Global};
use wasi_form::{Refusal, Script, read_script};
use wasi_io::{Sink, Source, read_all, write_all};
use wasi_report::report_in;

const USAGE: &str = "usage: wasirun run | wasirun gen N | wasirun audit | wasirun trial\n";

fn refusal_line(refusal: Refusal) -> &'static str
    ensures { result.now ≡ refusal_line refusal }
{
    match refusal {
        Refusal::Long => "refused: long\n",
        Refusal::Json => "refused: json\n",
        Refusal::Shape => "refused: shape\n",
        Refusal::Tree => "refused: tree\n",
        Refusal::Limit => "refused: limit\n",
    }
}

// The script that the source has left, whose bytes the buffer has then; or how the program ends without one. `room` is
// for what the reading needs only for a time.
fn read_from<S: Source, A: Allocator + Copy>(
    alloc: Global,
    room: A,
    source: &mut S,
    buffer: &mut Vec<u8>,
) -> Result<Script, Status>
    ensures count { S.faults source.old ≤ S.faults source.new }
    ensures cause { result ≡ Err Status.ReadFault → Risen (S.faults source.old) (S.faults source.new) }
    ensures ends { IfErr result EndsReading }
    ensures within { IfOk result (λ script. is_within_limits (plan script) ≡ true) }
    ensures rising { IfOk result (λ script. IsTrue (numbers_rise script.session.faults.items)) }
    ensures quota { IfOk result (λ script. IsQuota script.session.quota) }
    ensures some { ReadsSome result }
    ensures read { IsTrue S.modelled → ReadsScript result (S.left source.old) (S.left source.new) }
{
    *buffer = read_all(alloc, source)?;
    Ok(read_script(alloc, room, buffer.as_slice())?)
}

// The report of a script, in the memory of a buffer. `room` is for its digits, where it has enough.
fn report_of<A: Allocator + Copy>(
    alloc: Global,
    room: A,
    script: Script,
    buffer: Vec<u8>,
) -> Result<Vec<u8>, AllocError>
    requires { CanRun script }
    ensures { IfOk result (λ text. Reports (plan script) text.items) }
{
    let ran = run(alloc, script)?;
    let end = end_of(alloc, ran)?;
    report_in(alloc, room, buffer, &end.outcome, end.host.inner())
}

fn written<K: Sink>(sink: &mut K, text: &[u8], status: Status) -> Status
    ensures count { K.faults sink.old ≤ K.faults sink.new }
    ensures written { Written (IsTrue K.modelled) (Risen (K.faults sink.old) (K.faults sink.new))
        (K.taken sink.old) (K.taken sink.new) text.now status result }
{
    if write_all(sink, text) {
        status
    } else {
        Status::WriteFault
    }
}

// What is written of a script, in the memory of a buffer.
fn text_of<A: Allocator + Copy>(
    alloc: Global,
    room: A,
    task: ScriptTask,
    script: Script,
    buffer: Vec<u8>,
) -> Result<Vec<u8>, AllocError>
    requires { CanRun script }
    ensures { IfOk result (λ text. IsText (the_outcome task (plan script)) text.items) }
{
    match task {
        ScriptTask::Run => report_of(alloc, room, script, buffer),
        ScriptTask::Audit => audit_of(alloc, script, buffer),
        ScriptTask::Trial => trial_of(alloc, room, script, buffer),
    }
}

// Runs a script that is read of the source, and writes its report, its audit or its trial, or why there is none. It is
// written where the script's bytes stood, and digits that aren't more than they were where the reader had its room, which
// grows no more.
fn run_source<S: Source, K: Sink>(
    alloc: Global,
    task: ScriptTask,
    source: &mut S,
    sink: &mut K,
) -> Status
    ensures source_count { S.faults source.old ≤ S.faults source.new }
    ensures sink_count { K.faults sink.old ≤ K.faults sink.new }
    ensures read_fault { result ≡ Status.ReadFault → Risen (S.faults source.old) (S.faults source.new) }
    ensures write_fault { result ≡ Status.WriteFault → Risen (K.faults sink.old) (K.faults sink.new) }
    ensures usage { result ≢ Status.Usage }
    ensures exact { IsTrue S.modelled → OfDue result (Task.Script task) (S.left source.old) (IsDue result) }
    ensures left { IsTrue S.modelled → LeavesBytes result (S.left source.old) (S.left source.new) }
    ensures nothing { IsTrue K.modelled → KeepsSink result (K.taken sink.old) (K.taken sink.new) }
    ensures some { IsTrue K.modelled → WritesOfSome result (Task.Script task) (K.taken sink.old) (K.taken sink.new) }
    ensures writes { IsTrue S.modelled → IsTrue K.modelled → OfDue result (Task.Script task) (S.left source.old)
        (λ due. Writes result due (K.taken sink.old) (K.taken sink.new)) }
    ensures keeps { IsTrue S.modelled → IsTrue K.modelled → OfDue result (Task.Script task) (S.left source.old)
        (λ due. KeepsTree result due (K.taken sink.old) (K.taken sink.new)) }
{
    let room = Bump::new(alloc);
    let mut bytes = Vec::new(alloc);
    let script = match read_from(alloc, &room, source, &mut bytes) {
        Ok(script) => script,
        Err(Status::Refused(refusal)) => {
            return written(
                sink,
                refusal_line(refusal).as_bytes(),
                Status::Refused(refusal),
            );
        }
        Err(status) => return status,
    };
    room.set_allocation_limit(Some(0));
    match text_of(alloc, &room, task, script, bytes) {
        Ok(text) => written(sink, text.as_slice(), Status::Done),
        Err(AllocError) => Status::NoMemory,
    }
}

// Runs the script of a number, and writes its line.
fn run_generated<K: Sink>(alloc: Global, n: u64, sink: &mut K) -> Status
    requires some { 1 ≤ n }
    requires few { n < 10000 }
    ensures sink_count { K.faults sink.old ≤ K.faults sink.new }
    ensures write_fault { result ≡ Status.WriteFault → Risen (K.faults sink.old) (K.faults sink.new) }
    ensures ends { EndsGenerated result }
    ensures writes { IsTrue K.modelled → Writes result (the_line n) (K.taken sink.old) (K.taken sink.new) }
{
    let Ok(line) = summary_of(alloc, n) else {
        return Status::NoMemory;
    };
    written(sink, line.as_bytes(), Status::Done)
}

/// Runs the program. `words` are the words of the command line after the program's name. With the one word `run` the
/// source is read to its end as a script, which is run, and its report is written to the sink. With the one word `audit`
/// the script is read and run as well, and it is written which nodes were touched through which of the directories that
/// the guest was given. With the one word `trial` it is run over its tree, which stays, and it is written what that tree
/// is, which nodes were worked on, and the report. With `gen N`, N being 1 to 9999 in decimal without a leading zero,
/// nothing is read: the script that `gen_script` makes of N is run, and one line is written that says how many calls it
/// has, how many were answered Ok, how many bytes `fd_read` was answered, and how many nodes the tree has then. With any
/// others the usage line is written. A script has at most 16,777,216 bytes, and at most one more is read. What is written
/// is due by the words and the bytes that the source has left: the usage line; the line of `gen N`; the line that names
/// the refusal, as `refused: json`; the report's text; the audit's; or the trial's. Of a source that isn't modelled it
/// is what is due of some bytes. Faults come from the source and the sink alone.
pub fn run_script<S: Source, K: Sink>(
    alloc: Global,
    words: &Vec<String>,
    source: &mut S,
    sink: &mut K,
) -> Status
    ensures source_count { S.faults source.old ≤ S.faults source.new }
    ensures sink_count { K.faults sink.old ≤ K.faults sink.new }
    ensures read_fault { result ≡ Status.ReadFault
        → TakesScript (task_of (map string_bytes words.now.items)) × Risen (S.faults source.old) (S.faults source.new) }
    ensures write_fault { result ≡ Status.WriteFault → Risen (K.faults sink.old) (K.faults sink.new) }
    ensures usage { result ≡ Status.Usage → task_of (map string_bytes words.now.items) ≡ Task.Usage }
    ensures other_words { task_of (map string_bytes words.now.items) ≡ Task.Usage
        → ((result ≡ Status.Usage) ⊎ (result ≡ Status.WriteFault)) × (source.new ≡ source.old) }
    ensures generates { (n : ℕ) → task_of (map string_bytes words.now.items) ≡ Task.Generate n
        → EndsGenerated result × (source.new ≡ source.old) }
    ensures exact { IsTrue S.modelled
        → OfDue result (task_of (map string_bytes words.now.items)) (S.left source.old) (IsDue result) }
    ensures left { IsTrue S.modelled → TakesScript (task_of (map string_bytes words.now.items))
        → LeavesBytes result (S.left source.old) (S.left source.new) }
    ensures usage_line { IsTrue K.modelled → task_of (map string_bytes words.now.items) ≡ Task.Usage
        → Writes result the_usage (K.taken sink.old) (K.taken sink.new) }
    ensures line { IsTrue K.modelled → (n : ℕ) → task_of (map string_bytes words.now.items) ≡ Task.Generate n
        → Writes result (the_line n) (K.taken sink.old) (K.taken sink.new) }
    ensures nothing { IsTrue K.modelled → KeepsSink result (K.taken sink.old) (K.taken sink.new) }
    ensures some { IsTrue K.modelled
        → WritesOfSome result (task_of (map string_bytes words.now.items)) (K.taken sink.old) (K.taken sink.new) }
    ensures writes { IsTrue S.modelled → IsTrue K.modelled
        → OfDue result (task_of (map string_bytes words.now.items)) (S.left source.old)
        (λ due. Writes result due (K.taken sink.old) (K.taken sink.new)) }
    ensures keeps { IsTrue S.modelled → IsTrue K.modelled
        → OfDue result (task_of (map string_bytes words.now.items)) (S.left source.old)
        (λ due. KeepsTree result due (K.taken sink.old) (K.taken sink.new)) }
{
    match task_of(words.as_slice()) {
        Task::Script(task) => run_source(alloc, task, source, sink),
        Task::Generate(n) => run_generated(alloc, n, sink),
        Task::Usage => written(sink, USAGE.as_bytes(), Status::Usage),
    }
}

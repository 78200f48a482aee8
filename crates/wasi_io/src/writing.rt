//! Writing all of a text.
ghost use Rattle.std.specs.Prelude.{◌≡◌, ◌≤◌, ◌++◌, IsTrue};
ghost use Rattle.std.specs.Bool.{OnTrue, OnFalse};
ghost use Rattle.wasi_host.specs.HostLaws.{Risen};
ghost use Rattle.wasi_io.specs.Ends.{TookFront};
ghost use Rattle.wasi_io.specs.Endings.{Written};

use crate::source_sink::Sink;

/// Writes a text, piece after piece. It answers whether all of it was taken.
#[tactic(auto, using(crate::proofs::Fronts::grown))]
pub fn write_all<K: Sink>(sink: &mut K, text: &[u8]) -> bool
    ensures all { IsTrue K.modelled → OnTrue result (K.taken sink.new ≡ K.taken sink.old ++ text.now) }
    ensures front { IsTrue K.modelled → OnFalse result (TookFront (K.taken sink.old) (K.taken sink.new) text.now) }
    ensures count { K.faults sink.old ≤ K.faults sink.new }
    ensures cause { OnFalse result (Risen (K.faults sink.old) (K.faults sink.new)) }
{
    let mut done = 0;
    while done < text.len() {
        match sink.write(&text[done..]) {
            Ok(count) if count > 0 => done += count,
            _ => return false,
        }
    }
    true
}

/// Writes a text that is due under a status, piece after piece: that status where all of it was taken, else that of a fault.
pub fn write_under<K: Sink, T: Copy>(sink: &mut K, text: &[u8], status: T, fault: T) -> T
    ensures count { K.faults sink.old ≤ K.faults sink.new }
    ensures written { Written fault (IsTrue K.modelled) (Risen (K.faults sink.old) (K.faults sink.new)) (K.taken sink.old)
        (K.taken sink.new) text.now status result }
{
    if write_all(sink, text) { status } else { fault }
}

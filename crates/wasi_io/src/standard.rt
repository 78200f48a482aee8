//! Readers and writers of the system as ends: the program's standard input and output.
ghost use Rattle.std.specs.Prelude.{◌≡◌, ◌≤◌, ◌<◌, ◌&&◌, if◌then◌else◌, nat_eq, nat_lt, false, [], length, drop, IfOk, OnOk, OnErr};
ghost use Rattle.std.specs.Io.KnownBytes.{ReadConsumes, WriteAppends};
ghost use Rattle.wasi_host.specs.HostLaws.{Risen};
ghost use Rattle.wasi_io.specs.Ends.{KnownLeft, KnownTaken, one_more};

use crate::source_sink::{CHUNK, Failed, Sink, Source};
use std::io::{Read, Stdin, Stdout, Write};
use std::marker::Model;

/// The standard input, made of `rt.stdin()`: each read is one call of the system, and a call that is interrupted failed.
pub type StdinSource = ReaderSource<Stdin>;

/// The standard output, made of `rt.stdout()`: each write is one call of the system, and a call that is interrupted
/// failed.
pub type StdoutSink = WriterSink<Stdout>;

/// A reader as a source, which gives what the reader gives. It isn't modelled, as it isn't known of the reader's type
/// whether that does; contracts see what is known of those that the reader has left. Each read is one of the reader.
#[derive(Drop)]
pub struct ReaderSource<R: Read> {
    reader: R,
    faults: u64,
}

impl<R: Read> Model for ReaderSource<R> {
    ghost use Rattle.wasi_io.specs.Ends.{KnownLeft};

    ghost Value = { KnownLeft };

    ghost view = { λ s. record { left = R.remaining s.reader; faults = s.faults } };
}

impl<R: Read> ReaderSource<R> {
    /// No read of it failed yet.
    pub fn new(reader: R) -> ReaderSource<R>
        ensures { result ≡ record { left = R.remaining reader; faults = 0 } }
    {
        ReaderSource { reader, faults: 0 }
    }
}

impl<R: Read> Source for ReaderSource<R> {
    ghost modelled = { false };

    ghost left = { λ _. [] };

    ghost faults = { λ s. s.faults };

    fn read(&mut self, buf: &mut [u8]) -> Result<usize, Failed>
        ensures fits { IfOk result (λ n. n ≤ length buf.old) }
        ensures rest { IfOk result (λ n. drop n buf.new ≡ drop n buf.old) }
        ensures kept { OnErr result (buf.new ≡ buf.old) }
        ensures count { self.old.faults ≤ self.new.faults }
        ensures cause { OnErr result (Risen self.old.faults self.new.faults) }
        ensures read { OnOk result (self.new.faults ≡ self.old.faults) }
        ensures failed { OnErr result (self.new.faults ≡ one_more self.old.faults) }
        ensures gives { ReadConsumes self.old.left self.new.left result buf.new }
    {
        // What the system leaves in a buffer after a failure isn't known.
        let mut chunk = [0u8; CHUNK];
        let want = buf.len().min(CHUNK);
        match self.reader.read(&mut chunk[..want]) {
            Ok(count) => {
                buf[..count].copy_from_slice(&chunk[..count]);
                Ok(count)
            }
            Err(_) => {
                self.faults = self.faults.saturating_add(1);
                Err(Failed)
            }
        }
    }
}

/// A writer as a sink, whose bytes go to the writer. It isn't modelled, as it isn't known of the writer's type whether
/// that does; contracts see what is known of those that the writer holds. Each write is one of the writer.
#[derive(Drop)]
pub struct WriterSink<W: Write> {
    writer: W,
    faults: u64,
}

impl<W: Write> Model for WriterSink<W> {
    ghost use Rattle.wasi_io.specs.Ends.{KnownTaken};

    ghost Value = { KnownTaken };

    ghost view = { λ s. record { taken = W.contents s.writer; faults = s.faults } };
}

impl<W: Write> WriterSink<W> {
    /// No write to it failed yet.
    pub fn new(writer: W) -> WriterSink<W>
        ensures { result ≡ record { taken = W.contents writer; faults = 0 } }
    {
        WriterSink { writer, faults: 0 }
    }
}

impl<W: Write> Sink for WriterSink<W> {
    ghost modelled = { false };

    ghost taken = { λ _. [] };

    ghost faults = { λ s. s.faults };

    fn write(&mut self, piece: &[u8]) -> Result<usize, Failed>
        ensures fits { IfOk result (λ n. n ≤ length piece.now) }
        ensures count { self.old.faults ≤ self.new.faults }
        ensures cause { OnErr result (Risen self.old.faults self.new.faults) }
        ensures stuck { IfOk result (λ n. n ≡ 0 → 0 < length piece.now → Risen self.old.faults self.new.faults) }
        ensures wrote { IfOk result (λ n. self.new.faults ≡ (if nat_eq n 0 && nat_lt 0 (length piece.now)
            then one_more self.old.faults else self.old.faults)) }
        ensures failed { OnErr result (self.new.faults ≡ one_more self.old.faults) }
        ensures takes { WriteAppends self.old.taken self.new.taken result piece.now }
    {
        match self.writer.write(piece) {
            Ok(count) => {
                if count == 0 && !piece.is_empty() {
                    self.faults = self.faults.saturating_add(1);
                }
                Ok(count)
            }
            Err(_) => {
                self.faults = self.faults.saturating_add(1);
                Err(Failed)
            }
        }
    }
}

//! Sources and sinks in memory.
use std::alloc::{AllocError, Global};
use test_support::{list_of, number, rendered, unknown, word};
use wasi_io::{BytesSink, BytesSource, Sink, Source};

pub fn answer(alloc: Global, what: &str, rest: &str) -> Result<String, AllocError> {
    let (first, rest) = word(rest);
    let (failing, rest) = word(rest);
    let failing = list_of::<u64>(alloc, failing)?;
    match what {
        "reads" => reads(alloc, list_of::<u8>(alloc, first)?, failing, number(rest)),
        "writes" => writes(alloc, number(first) as usize, failing, rest),
        _ => unknown(alloc),
    }
}

// What so many reads into a buffer of two bytes answer, each with the buffer after it.
fn reads(
    alloc: Global,
    bytes: Vec<u8>,
    failing: Vec<u64>,
    times: u64,
) -> Result<String, AllocError> {
    let mut source = BytesSource::new(bytes, failing);
    let mut buf = [0u8; 2];
    let mut answers = Vec::new(alloc);
    for _ in 0..times {
        let answer = source.read(&mut buf);
        answers.push((answer, buf))?;
    }
    rendered(alloc, &answers)
}

// What the writes of pieces answer, between which commas stand, and what the sink took.
fn writes(
    alloc: Global,
    room: usize,
    failing: Vec<u64>,
    pieces: &str,
) -> Result<String, AllocError> {
    let mut sink = BytesSink::new(alloc, room, failing)?;
    let mut answers = Vec::new(alloc);
    for piece in pieces.split(',') {
        answers.push(sink.write(piece.as_bytes()))?;
    }
    rendered(alloc, &(answers, str::from_utf8(sink.taken())))
}

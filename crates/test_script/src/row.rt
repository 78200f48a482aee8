//! One row: its script is run, and what comes is held against what the row says.
use crate::line::{Asked, Program, Wanted};
use crate::repeats::expanded;
use std::alloc::{AllocError, Global};
use wasi_form::{Refusal, ScriptError};
use wasi_guests::run_guest_script;
use wasi_io::{BytesSink, BytesSource, write_all};
use wasi_script::run_script;

// The sink takes so many bytes; the longest report has a few more than 33,554,432.
const ROOM: usize = 40_000_000;

// How many bytes are shown of what was taken.
const SHOWN: usize = 240;

// What stands in a text for anything.
const ANYTHING: &str = " .. ";

// The words before the number of the read, or of the write, that is to fail.
const FAILING_SOURCE: &str = "failing_source";

const FAILING_SINK: &str = "failing_sink";

// The number of the call that is to fail, where the word is `END,NUMBER`.
fn failing_call(word: &str, end: &str) -> Option<u64> {
    let (failing, number) = word.split_once(',')?;
    if failing == end {
        number.parse().ok()
    } else {
        None
    }
}

// The numbers of the calls of such an end that are to fail.
fn failing_calls(alloc: Global, word: &str, end: &str) -> Result<Vec<u64>, AllocError> {
    let mut failing = Vec::new(alloc);
    if let Some(number) = failing_call(word, end) {
        failing.push(number)?;
    }
    Ok(failing)
}

// Whether a read or a write is to fail.
fn is_failing(word: &str) -> bool {
    failing_call(word, FAILING_SOURCE).is_some() || failing_call(word, FAILING_SINK).is_some()
}

// The words with which the program is called.
fn words_of(alloc: Global, word: &str) -> Result<Vec<String>, AllocError> {
    let mut words = Vec::new(alloc);
    if word == "none" {
        return Ok(words);
    }
    let called = if is_failing(word) { "run" } else { word };
    for word in called.split(',') {
        words.push(String::from_str(alloc, word)?)?;
    }
    Ok(words)
}

// The exit status of a run.
fn ended(
    alloc: Global,
    program: Program,
    words: &Vec<String>,
    source: &mut BytesSource,
    sink: &mut BytesSink,
) -> u8 {
    match program {
        Program::Wasirun => run_script(alloc, words, source, sink).exit_code(),
        Program::Wasiguests => run_guest_script(alloc, words, source, sink).exit_code(),
    }
}

fn source_of(alloc: Global, asked: Asked<'_>) -> Result<BytesSource, AllocError> {
    let script = expanded(alloc, asked.script)?;
    let failing = failing_calls(alloc, asked.word, FAILING_SOURCE)?;
    Ok(BytesSource::new(script.into_bytes(), failing))
}

fn sink_of(alloc: Global, word: &str) -> Result<BytesSink, AllocError> {
    let failing = failing_calls(alloc, word, FAILING_SINK)?;
    BytesSink::new(alloc, ROOM, failing)
}

// Runs a row's script into a sink: the exit status.
fn run_into(alloc: Global, asked: Asked<'_>, sink: &mut BytesSink) -> Result<u8, AllocError> {
    let words = words_of(alloc, asked.word)?;
    let mut source = source_of(alloc, asked)?;
    Ok(ended(alloc, asked.program, &words, &mut source, sink))
}

// Writes the text of the error of this name into a sink, as a line: the exit status, 0 where it was taken.
fn tell_error(alloc: Global, name: &str, sink: &mut BytesSink) -> Result<u8, AllocError> {
    let error = if name == "memory" {
        ScriptError::Memory
    } else {
        ScriptError::Refused(Refusal::Json)
    };
    let line = format!(in alloc; "{error}\n")?;
    let taken = write_all(sink, line.as_bytes());
    Ok(if taken { 0 } else { 1 })
}

// Does what a row asks for: the exit status, and the sink with what it took.
fn ran(alloc: Global, asked: Asked<'_>) -> Result<(u8, BytesSink), AllocError> {
    let mut sink = sink_of(alloc, asked.word)?;
    let exit = if asked.word == "error" {
        tell_error(alloc, asked.script, &mut sink)?
    } else {
        run_into(alloc, asked, &mut sink)?
    };
    Ok((exit, sink))
}

// Whether a text was taken.
fn is_taken(taken: &[u8], text: &str) -> bool {
    let Some((front, end)) = text.split_once(ANYTHING) else {
        return taken == text.as_bytes();
    };
    taken
        .strip_prefix(front.as_bytes())
        .is_some_and(|rest| rest.ends_with(end.as_bytes()))
}

// The text that is to be taken: a line, or nothing.
fn wanted_text(alloc: Global, text: &str) -> Result<String, AllocError> {
    let mut whole = expanded(alloc, text)?;
    if !whole.is_empty() {
        whole.push('\n')?;
    }
    Ok(whole)
}

// Whether a run ended as a row says.
fn agrees(alloc: Global, exit: u8, taken: &[u8], wanted: Wanted<'_>) -> Result<bool, AllocError> {
    let text = wanted_text(alloc, wanted.text)?;
    Ok(exit == wanted.exit && is_taken(taken, text.as_str()))
}

// How a run ended, with the beginning of what was taken.
fn rendered(alloc: Global, exit: u8, taken: &[u8]) -> Result<String, AllocError> {
    let beginning = String::from_utf8_lossy(alloc, taken.get(..SHOWN).unwrap_or(taken))?;
    let shown = beginning.as_str().trim_end();
    format!(in alloc; "ended with {exit}, and wrote {shown}")
}

// How the run of a script ended, if otherwise than the row says.
fn difference_of(
    alloc: Global,
    asked: Asked<'_>,
    wanted: Wanted<'_>,
) -> Result<Option<String>, AllocError> {
    let (exit, sink) = ran(alloc, asked)?;
    if agrees(alloc, exit, sink.taken(), wanted)? {
        return Ok(None);
    }
    Ok(Some(rendered(alloc, exit, sink.taken())?))
}

// How the first run ended otherwise than the row says, of each text that a script begins with, and that is shorter.
fn cut_difference(
    alloc: Global,
    asked: Asked<'_>,
    wanted: Wanted<'_>,
) -> Result<Option<String>, AllocError> {
    let script = asked.script;
    for (end, _) in script.char_indices() {
        let cut = Asked {
            program: asked.program,
            word: "run",
            script: script.get(..end).unwrap_or(script),
        };
        let difference = difference_of(alloc, cut, wanted)?;
        if difference.is_some() {
            return Ok(difference);
        }
    }
    Ok(None)
}

/// How a run of a row ended, if otherwise than the row says.
pub fn difference(
    alloc: Global,
    asked: Asked<'_>,
    wanted: Wanted<'_>,
) -> Result<Option<String>, AllocError> {
    if asked.word == "cut" {
        cut_difference(alloc, asked, wanted)
    } else {
        difference_of(alloc, asked, wanted)
    }
}

//! Trying a table.
use crate::line::{Asked, Rendered};
use crate::tally::Tally;
use std::alloc::{AllocError, Global};
use std::io::{Stdin, Stdout};
use std::process::ExitCode;
use wasi_io::{Sink, Source, StdinSource, StdoutSink, read_all, write_all};

/// What answers the lines of a table, one after another.
pub trait Answering {
    fn answer(&mut self, asked: &Asked<'_>) -> Rendered;
}

/// What a table came to.
#[derive(Clone, Copy)]
enum Tried {
    /// Each line is so.
    Agrees,
    /// Some lines aren't so.
    Differs,
    /// The table wasn't read or is no text, its outcome wasn't written, or memory ran out.
    Unfinished,
}

impl Tried {
    /// The exit status of a program: 0 where each line is so, 1 where some aren't, and else 2.
    fn exit_code(self) -> u8 {
        match self {
            Tried::Agrees => 0,
            Tried::Differs => 1,
            Tried::Unfinished => 2,
        }
    }
}

/// Tries the table on a program's standard input. Of each line that isn't so what came goes to its standard output,
/// with the line and its number, and then how many are so.
pub fn try_table<A: Answering>(
    alloc: Global,
    stdin: Stdin,
    stdout: Stdout,
    answers: &mut A,
) -> ExitCode {
    let mut source = StdinSource::new(stdin);
    let mut sink = StdoutSink::new(stdout);
    let tried = try_source(alloc, &mut source, &mut sink, answers);
    ExitCode::from(tried.exit_code())
}

// The same of the table that a source gives.
fn try_source<A: Answering, S: Source, K: Sink>(
    alloc: Global,
    source: &mut S,
    sink: &mut K,
    answers: &mut A,
) -> Tried {
    let Ok(bytes) = read_all(alloc, source) else {
        return Tried::Unfinished;
    };
    let table = str::from_utf8(bytes.as_slice()).unwrap_or("the table is no text");
    let mut text = String::new(alloc);
    let Ok(tried) = try_lines(alloc, answers, table, &mut text) else {
        return Tried::Unfinished;
    };
    if write_all(sink, text.as_bytes()) {
        tried
    } else {
        Tried::Unfinished
    }
}

// What a table comes to, which the text says in its end.
fn try_lines<A: Answering>(
    alloc: Global,
    answers: &mut A,
    table: &str,
    text: &mut String,
) -> Result<Tried, AllocError> {
    let mut tally = Tally::new();
    for (before, line) in table.lines().enumerate() {
        if line.is_empty() || line.starts_with('#') {
            continue;
        }
        tally = tally.with(try_line(alloc, answers, before, line, text)?);
    }
    let Tally { agree, others } = tally;
    if others == 0 {
        write!(text, "{agree} lines agree\n")?;
        return Ok(Tried::Agrees);
    }
    write!(text, "{agree} lines agree, and {others} don't\n")?;
    Ok(Tried::Differs)
}

// Whether a line is so.
fn try_line<A: Answering>(
    alloc: Global,
    answers: &mut A,
    before: usize,
    line: &str,
    text: &mut String,
) -> Result<bool, AllocError> {
    let (asked, wanted) = line.split_once(" = ").unwrap_or((line, ""));
    let mut spelled = String::new(alloc);
    spell_out(asked, &mut spelled)?;
    let is_so = is_answered(alloc, answers, spelled.as_str(), wanted, text)?;
    if !is_so {
        let number = before.saturating_add(1);
        write!(text, ", in line {number}: {line}\n")?;
    }
    Ok(is_so)
}

// Whether what is asked is answered so; where it isn't, the text says what came.
fn is_answered<A: Answering>(
    alloc: Global,
    answers: &mut A,
    asked: &str,
    wanted: &str,
    text: &mut String,
) -> Result<bool, AllocError> {
    let answer = answers.answer(&Asked::of(alloc, asked))?;
    if answer.as_str() == wanted {
        return Ok(true);
    }
    text.push_str(answer.as_str())?;
    Ok(false)
}

// Adds a text with so many letters in place of each `x{N}`, and with a NUL in place of each `\0`.
fn spell_out(text: &str, row: &mut String) -> Result<(), AllocError> {
    for part in text.split("x{") {
        let (count, rest) = counted(part);
        for _ in 0..count {
            row.push('x')?;
        }
        push_text(rest, row)?;
    }
    Ok(())
}

// Adds a text with a NUL in place of each `\0`.
fn push_text(text: &str, row: &mut String) -> Result<(), AllocError> {
    for (before, part) in text.split("\\0").enumerate() {
        if before > 0 {
            row.push('\0')?;
        }
        row.push_str(part)?;
    }
    Ok(())
}

// The number up to a brace, and the text after it; of any other text, 0 and the text.
fn counted(part: &str) -> (u16, &str) {
    let Some((digits, rest)) = part.split_once('}') else {
        return (0, part);
    };
    match digits.parse::<u16>() {
        Ok(count) => (count, rest),
        Err(_) => (0, part),
    }
}

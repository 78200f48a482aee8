//! Reports of outcomes.
use std::alloc::{AllocError, Global};
use test_support::{Rendered, list_of, number, word};
use wasi_guest::{Answer, Answers, Errno, Filestat, TrapKind, Value};
use wasi_report::{Outcome, report};
use wasi_tree::MemTree;

/// `ANSWERS SHOWN STDOUT STDERR TOUCHED`, or nothing: the report of this outcome with the tree, without the newline at its
/// end. Where nothing is given, the outcome is of no calls.
pub fn rendered_report(alloc: Global, tree: &MemTree, rest: &str) -> Rendered {
    let mut outcome = outcome_of(alloc)?;
    if !rest.is_empty() {
        fill(alloc, &mut outcome, rest)?;
    }
    let text = report(alloc, &outcome, tree)?;
    let text = str::from_utf8(text.as_slice()).unwrap_or("no text");
    String::from_str(alloc, text.strip_suffix('\n').unwrap_or("no line end"))
}

fn outcome_of(alloc: Global) -> Result<Outcome, AllocError> {
    Ok(Outcome {
        answers: Answers::with_room(alloc, 0)?,
        shown: Vec::new(alloc),
        stdout: Vec::new(alloc),
        stderr: Vec::new(alloc),
        touched: Vec::new(alloc),
    })
}

fn fill(alloc: Global, outcome: &mut Outcome, rest: &str) -> Result<(), AllocError> {
    let (answers, rest) = word(rest);
    let (shown, rest) = word(rest);
    let (stdout, rest) = word(rest);
    let (stderr, touched) = word(rest);
    outcome.answers = answers_of(alloc, answers)?;
    outcome.shown.push(list_of::<u8>(alloc, shown)?)?;
    outcome.stdout = list_of::<u8>(alloc, stdout)?;
    outcome.stderr = list_of::<u8>(alloc, stderr)?;
    outcome.touched = list_of::<u64>(alloc, touched)?;
    Ok(())
}

/// Five answers, between which commas stand.
fn answers_of(alloc: Global, text: &str) -> Result<Answers, AllocError> {
    let mut answers = Answers::with_room(alloc, 5)?;
    let (first, rest) = text.split_once(',').unwrap_or((text, ""));
    let (second, rest) = rest.split_once(',').unwrap_or((rest, ""));
    let (third, rest) = rest.split_once(',').unwrap_or((rest, ""));
    let (fourth, fifth) = rest.split_once(',').unwrap_or((rest, ""));
    answers.push(answer_of(first));
    answers.push(answer_of(second));
    answers.push(answer_of(third));
    answers.push(answer_of(fourth));
    answers.push(answer_of(fifth));
    Ok(answers)
}

fn answer_of(word: &str) -> Answer {
    match word {
        "unit" => Answer::Ok(Value::Unit),
        "noent" => Answer::Errno(Errno::Noent),
        "pointer" => Answer::Trap(TrapKind::Pointer),
        "table" => Answer::Trap(TrapKind::TableFull),
        _ => Answer::Ok(match filestat_of(word) {
            Some(stat) => Value::Filestat(stat),
            None => Value::Number(number(word)),
        }),
    }
}

/// The eight numbers of a filestat, between which slashes stand; none where the third is no type.
fn filestat_of(text: &str) -> Option<Filestat> {
    let (dev, rest) = before_slash(text);
    let (ino, rest) = before_slash(rest);
    let (filetype, rest) = before_slash(rest);
    let (nlink, rest) = before_slash(rest);
    let (size, rest) = before_slash(rest);
    let (atim, rest) = before_slash(rest);
    let (mtim, ctim) = before_slash(rest);
    match filetype.parse::<u8>() {
        Ok(filetype) => Some(Filestat {
            dev: number(dev),
            ino: number(ino),
            filetype,
            nlink: number(nlink),
            size: number(size),
            atim: number(atim),
            mtim: number(mtim),
            ctim: number(ctim),
        }),
        Err(_) => None,
    }
}

fn before_slash(text: &str) -> (&str, &str) {
    text.split_once('/').unwrap_or((text, ""))
}

//! How answers are reported.
ghost use Rattle.std.specs.Prelude.{◌≡◌, ◌++◌, OnOk, All, codes};
ghost use Rattle.serde_json.specs.Data.{string};
ghost use Rattle.wasi_report.specs.ReadBack.{FitsAnswer, FitsFdstat, FitsFilestat, FitsValue};
ghost use Rattle.wasi_report.specs.Report.{only, list_value, number_value, fdstat_value, filestat_value, success_value, trap_name, answer_value};
ghost use Rattle.wasi_report.specs.Encoded.{tokens_of};

use crate::encode::{DigitRoom, EncodeJson, encode_list};
use json::Writer;
use std::alloc::{AllocError, Allocator};
use wasi_guest::{Answer, Answers, Fdstat, Filestat, TrapKind, Value};

impl EncodeJson for Answer {
    ghost value = { answer_value };

    ghost fits = { FitsAnswer };

    fn encode_json<A: Allocator + Copy>(
        &self,
        digits: DigitRoom<A>,
        out: &mut Writer,
    ) -> Result<(), AllocError> {
        match *self {
            Answer::Ok(value) => encode_success(digits, value, out),
            Answer::Errno(errno) => encode_text("errno", errno.name(), out),
            Answer::Trap(kind) => encode_text("trap", trap_name(kind), out),
            Answer::Exit(status) => encode_exit(status, out),
        }
    }
}

impl EncodeJson for Value {
    ghost value = { success_value };

    ghost fits = { FitsValue };

    fn encode_json<A: Allocator + Copy>(
        &self,
        digits: DigitRoom<A>,
        out: &mut Writer,
    ) -> Result<(), AllocError> {
        match *self {
            Value::Unit => out.null(),
            Value::Number(n) => out.u64(n),
            Value::Pair(first, second) => encode_list(digits, &[first as u64, second as u64], out),
            Value::Fdstat(stat) => stat.encode_json(digits, out),
            Value::Filestat(stat) => stat.encode_json(digits, out),
        }
    }
}

/// A list of the fields, in preview1's order.
impl EncodeJson for Fdstat {
    ghost value = { fdstat_value };

    ghost fits = { FitsFdstat };

    fn encode_json<A: Allocator + Copy>(
        &self,
        digits: DigitRoom<A>,
        out: &mut Writer,
    ) -> Result<(), AllocError> {
        let numbers = [
            self.filetype as u64,
            self.flags as u64,
            self.base,
            self.inheriting,
        ];
        encode_list(digits, &numbers, out)
    }
}

/// A list of the fields, in preview1's order.
impl EncodeJson for Filestat {
    ghost value = { filestat_value };

    ghost fits = { FitsFilestat };

    fn encode_json<A: Allocator + Copy>(
        &self,
        digits: DigitRoom<A>,
        out: &mut Writer,
    ) -> Result<(), AllocError> {
        let numbers = [
            self.dev,
            self.ino,
            self.filetype as u64,
            self.nlink,
            self.size,
            self.atim,
            self.mtim,
            self.ctim,
        ];
        encode_list(digits, &numbers, out)
    }
}

/// The answers, in order.
pub fn encode_answer_list<A: Allocator + Copy>(
    digits: DigitRoom<A>,
    answers: &Answers,
    out: &mut Writer,
) -> Result<(), AllocError>
    ensures before { out.new.before ≡ out.old.before }
    ensures tokens { OnOk result (out.new.tokens
        ≡ out.old.tokens ++ tokens_of (list_value answer_value answers.now.answers)) }
    ensures fits { OnOk result (All FitsAnswer answers.now.answers) }
{
    out.begin_array()?;
    for i in 0..answers.len() {
        answers.at(i).encode_json(digits, out)?;
    }
    out.end_array()
}

fn trap_name(kind: TrapKind) -> &'static str
    ensures { result.now ≡ trap_name kind }
{
    match kind {
        TrapKind::Pointer => "pointer",
        TrapKind::TableFull => "table",
        TrapKind::ExitStatus => "exit",
    }
}

fn encode_success<A: Allocator + Copy>(
    digits: DigitRoom<A>,
    value: Value,
    out: &mut Writer,
) -> Result<(), AllocError>
    ensures before { out.new.before ≡ out.old.before }
    ensures tokens { OnOk result (out.new.tokens ≡ out.old.tokens ++ tokens_of (only (codes "ok") (success_value value))) }
    ensures fits { OnOk result (FitsValue value) }
{
    out.begin_object()?;
    out.key("ok")?;
    value.encode_json(digits, out)?;
    out.end_object()
}

fn encode_exit(status: u32, out: &mut Writer) -> Result<(), AllocError>
    ensures before { out.new.before ≡ out.old.before }
    ensures tokens { OnOk result (out.new.tokens ≡ out.old.tokens ++ tokens_of (only (codes "exit") (number_value status))) }
{
    out.begin_object()?;
    out.key("exit")?;
    out.u64(status as u64)?;
    out.end_object()
}

// An object with one text.
fn encode_text(name: &str, text: &str, out: &mut Writer) -> Result<(), AllocError>
    ensures before { out.new.before ≡ out.old.before }
    ensures tokens { OnOk result (out.new.tokens ≡ out.old.tokens ++ tokens_of (only name.now (string text.now))) }
{
    out.begin_object()?;
    out.key(name)?;
    out.string(text)?;
    out.end_object()
}

//! The line that is written of the script of a number.
ghost use Rattle.std.specs.Prelude.{◌≡◌, ◌<◌, ◌≤◌, count_by, IfOk};
ghost use Rattle.std.specs.String.{string_bytes};
ghost use Rattle.wasi_p1_model.specs.Trace.{is_success};
ghost use Rattle.wasi_script.specs.Summary as specs;

use crate::run::run;
use std::alloc::{AllocError, Global};
use wasi_guest::{Answer, Answers, Call, Value};
use wasi_script_gen::gen_script;

fn is_success(answer: Answer) -> bool
    ensures { result ≡ is_success answer }
{
    matches!(answer, Answer::Ok(_))
}

// How many of the answers are Ok.
fn successes(answers: &Answers) -> usize
    ensures { result ≡ count_by is_success answers.now.answers }
{
    let mut count = 0;
    for i in 0..answers.len() {
        if is_success(answers.at(i)) {
            count += 1;
        }
    }
    count
}

fn is_read(call: Call) -> bool
    ensures { result ≡ specs.is_read call }
{
    matches!(call, Call::FdRead { .. })
}

// The number of an answer; 0 where it has none.
fn number_answered(answer: Answer) -> u64
    ensures { result ≡ specs.number_answered answer }
{
    match answer {
        Answer::Ok(Value::Number(count)) => count,
        _ => 0,
    }
}

// How many bytes a call that was answered so has read, if it is `fd_read`.
fn bytes_in_answer(call: Call, answer: Answer) -> u64
    ensures { result ≡ specs.bytes_in_answer call answer }
{
    if is_read(call) {
        number_answered(answer)
    } else {
        0
    }
}

// The sum of the numbers that `fd_read` was answered, of calls and the answers of the first of them.
fn bytes_answered(calls: &[Call], answers: &Answers) -> u128
    ensures { result ≡ specs.bytes_answered calls.now answers.now.answers }
{
    let answered = calls.len().min(answers.len());
    let mut sum = 0;
    for i in 0..answered {
        sum += bytes_in_answer(calls[i], answers.at(i)) as u128;
    }
    sum
}

// The line of these numbers.
fn line_of(
    alloc: Global,
    n: u64,
    calls: usize,
    ok: usize,
    bytes: u128,
    nodes: u64,
) -> Result<String, AllocError>
    ensures { IfOk result (λ line. string_bytes line ≡ specs.summary_line n calls ok bytes nodes) }
{
    format!(in alloc; "gen {n}: {calls} calls, {ok} ok, {bytes} bytes, {nodes} nodes\n")
}

/// The line `gen N: C calls, K ok, B bytes, M nodes` of the run of the script of `gen N`, with a newline.
pub fn summary_of(alloc: Global, n: u64) -> Result<String, AllocError>
    requires some { 1 ≤ n }
    requires few { n < 10000 }
    ensures { IfOk result (λ line. specs.Summarizes n (string_bytes line)) }
{
    let ran = run(alloc, gen_script(alloc, n)?)?;
    let calls = ran.calls.as_slice();
    let ok = successes(&ran.answers);
    let bytes = bytes_answered(calls, &ran.answers);
    let nodes = ran.context.host().inner().next();
    line_of(alloc, n, calls.len(), ok, bytes, nodes)
}

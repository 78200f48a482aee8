//! The calls of a guest: one function for all 46, which takes a call's number and its words.
ghost use Rattle.std.specs.Prelude.{◌≡◌, ◌≤◌, ◌+◌, ◌%◌, ◌^◌, length, None, IsSome};
ghost use Rattle.wasi_call_table.specs.CallTable.{call_of_words};
ghost use Rattle.wasi_c.specs.Numbered.{laid_out, requested, result_count, TellsNumbered};

use crate::answer::call_in;
use crate::codes::NO_CALL;
use crate::handle::SandboxHandle;
use std::alloc::Global;
use wasi_call_table::{Shape, call_kinds, call_of_words, call_shape};
use wasi_sandbox::{Call, ResultLayout};

/// A call, and where its results go.
struct Request {
    call: Call,
    to: ResultLayout,
}

/// How many results a call has, each at an address of its own.
fn result_count(shape: Shape) -> usize
    ensures { result ≡ result_count shape }
{
    match shape {
        Shape::Nothing => 0,
        Shape::TwoU32 | Shape::U32AndU16 => 2,
        _ => 1,
    }
}

/// The address that a word is: its low 32 bits.
fn address(word: u64) -> u32
    ensures { result ≡ word % 2 ^ 32 }
{
    (word % 4_294_967_296) as u32
}

/// The results of a call, at the addresses that the words from a place on are.
fn laid_out(words: &[u64], place: usize, shape: Shape) -> ResultLayout
    requires { place + result_count shape ≤ length words.now }
    ensures { result ≡ laid_out words.now place shape }
{
    let (first, second) = match shape {
        Shape::Nothing => (0, 0),
        Shape::TwoU32 | Shape::U32AndU16 => (address(words[place]), address(words[place + 1])),
        _ => (address(words[place]), 0),
    };
    ResultLayout {
        shape,
        first,
        second,
    }
}

/// The call of a number with these words as its arguments, of which those that are missing are zeros.
fn call_by(number: usize, words: &[u64]) -> Option<Call>
    ensures { result ≡ call_of_words number words.now }
{
    if let Some(eight) = words.first_chunk::<8>() {
        return call_of_words(number, eight);
    }
    let mut eight = [0; 8];
    eight[..words.len()].copy_from_slice(words);
    call_of_words(number, &eight)
}

/// What a number and its words ask for; `None` where no call has the number, or the words are fewer than it wants.
fn requested(number: usize, words: &[u64]) -> Option<Request>
    ensures { result ≡ requested number words.now }
{
    let arguments = call_kinds(number)?.len();
    let shape = call_shape(number)?;
    let call = call_by(number, words)?;
    if words.len() < arguments + result_count(shape) {
        return None;
    }
    let to = laid_out(words, arguments, shape);
    Some(Request { call, to })
}

/// One call of preview1, by its number and its words: its arguments, and after them the addresses of its results. Of a
/// word for 32 bits the low 32 count, and the words after the last address count nothing. NO_CALL (278) where no call
/// has the number, or there are fewer words than it wants, and then nothing changes.
#[unsafe(no_mangle)]
pub extern "C" fn wasi_c_call(
    alloc: Global,
    sandbox: &mut SandboxHandle,
    empty: SandboxHandle,
    memory: &mut [u8],
    number: u32,
    words: &[u64],
) -> u32
    requires held { IsSome sandbox.old.value }
    requires empty { empty.value ≡ None }
    ensures { TellsNumbered sandbox.old.value sandbox.new.value memory.old memory.new number words.now result }
{
    match requested(number as usize, words) {
        Some(Request { call, to }) => call_in(sandbox, empty, memory, call, to),
        None => {
            empty.let_go();
            NO_CALL
        }
    }
}

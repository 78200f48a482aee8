//! How an answer is kept among many.
ghost use Rattle.std.specs.Prelude.{◌≡◌, ◌-◌, ◌+◌, ◌<◌, ◌≤◌, length, vec_len, vec_capacity};
ghost use Rattle.wasi_guest.specs.Kept.{answer_kept, apart_for, Stay};

use crate::answer::{Answer, TrapKind, Value};
use crate::errno::Errno;

/// An answer as it is kept, in 16 bytes. One with a record stands apart, at this place.
#[derive(Clone, Copy, Debug, PartialEq, Eq)]
pub(crate) enum Kept {
    Unit,
    Number(u64),
    Pair(u32, u32),
    Errno(Errno),
    Trap(TrapKind),
    Exit(u32),
    Apart(usize),
}

/// The answer that is kept so, of those that stand apart.
pub(crate) fn answer_kept(apart: &[Answer], kept: Kept) -> Answer
    requires { apart_for kept ≤ length apart.now }
    ensures { result ≡ answer_kept apart.now kept }
{
    match kept {
        Kept::Unit => Answer::Ok(Value::Unit),
        Kept::Number(n) => Answer::Ok(Value::Number(n)),
        Kept::Pair(first, second) => Answer::Ok(Value::Pair(first, second)),
        Kept::Errno(errno) => Answer::Errno(errno),
        Kept::Trap(kind) => Answer::Trap(kind),
        Kept::Exit(status) => Answer::Exit(status),
        Kept::Apart(place) => apart[place],
    }
}

/// How an answer is kept. One with a record is put after those that stand apart, where there is room.
pub(crate) fn keep(apart: &mut Vec<Answer>, answer: Answer) -> Kept
    requires { vec_len apart.old < vec_capacity apart.old }
    ensures kept { answer_kept apart.new.items result ≡ answer }
    ensures place { apart_for result ≤ length apart.new.items }
    ensures stay { Stay apart.old.items apart.new.items }
    ensures spare { vec_capacity apart.old - vec_len apart.old ≤ vec_capacity apart.new - vec_len apart.new + 1 }
{
    match answer {
        Answer::Ok(Value::Unit) => Kept::Unit,
        Answer::Ok(Value::Number(n)) => Kept::Number(n),
        Answer::Ok(Value::Pair(first, second)) => Kept::Pair(first, second),
        Answer::Ok(Value::Fdstat(_)) | Answer::Ok(Value::Filestat(_)) => {
            let place = apart.len();
            apart.push_reserved(answer);
            Kept::Apart(place)
        }
        Answer::Errno(errno) => Kept::Errno(errno),
        Answer::Trap(kind) => Kept::Trap(kind),
        Answer::Exit(status) => Kept::Exit(status),
    }
}

//! The answers of a run.
ghost use Rattle.std.specs.Prelude.{◌≡◌, ◌+◌, ◌-◌, ◌<◌, ◌≤◌, [], ◌∷◌, ◌++◌, All, length, slice_get, vec_len, vec_capacity, Some, IfOk};
ghost use Rattle.wasi_guest.specs.Kept.{apart_for};

use crate::answer::Answer;
use crate::kept::{Kept, answer_kept, keep};
use std::alloc::{AllocError, Global};
use std::marker::Model;

/// Answers in order, with room for more. Contracts see the list and for how many more there is room. An answer takes 16
/// bytes; one with a record takes as much more as that has.
#[derive(Drop)]
pub struct Answers {
    kept: Vec<Kept>,
    // those with a record
    apart: Vec<Answer>,
    ghost placed: { All (λ one. apart_for one ≤ length apart.items) kept.items },
    ghost room: { vec_capacity kept - vec_len kept ≤ vec_capacity apart - vec_len apart },
}

impl Model for Answers {
    ghost use Rattle.std.specs.Prelude.{◌-◌, map, vec_len, vec_capacity};
    ghost use Rattle.wasi_guest.specs.Kept.{answer_kept};
    ghost use Rattle.wasi_guest.specs.Room.{Room};

    ghost Value = { Room };

    ghost view = { λ a. record {
      answers = map (answer_kept a.apart.items) a.kept.items;
      spare = vec_capacity a.kept - vec_len a.kept;
    } };
}

impl Answers {
    /// None yet, with room for at least `n`.
    pub fn with_room(alloc: Global, n: usize) -> Result<Answers, AllocError>
        ensures empty { IfOk result (λ a. a.answers ≡ []) }
        ensures room { IfOk result (λ a. n ≤ a.spare) }
    {
        let kept = Vec::with_capacity(alloc, n)?;
        let apart = Vec::with_capacity(alloc, kept.capacity())?;
        Ok(Answers { kept, apart })
    }

    /// Adds an answer at the end, where there is room. It takes no memory.
    pub fn push(&mut self, answer: Answer)
        requires { 0 < self.old.spare }
        ensures answers { self.new.answers ≡ self.old.answers ++ answer ∷ [] }
        ensures spare { self.old.spare ≤ self.new.spare + 1 }
    {
        let kept = keep(&mut self.apart, answer);
        self.kept.push_reserved(kept);
    }

    pub fn len(&self) -> usize
        ensures count { result ≡ length self.now.answers }
    {
        self.kept.len()
    }

    /// The answer at a place.
    pub fn at(&self, i: usize) -> Answer
        requires { i < length self.now.answers }
        ensures item { slice_get self.now.answers i ≡ Some result }
    {
        answer_kept(self.apart.as_slice(), self.kept[i])
    }

    /// The answer at a place, `None` exactly past the end.
    pub fn get(&self, i: usize) -> Option<Answer>
        ensures item { result ≡ slice_get self.now.answers i }
    {
        if i < self.len() {
            Some(self.at(i))
        } else {
            None
        }
    }
}

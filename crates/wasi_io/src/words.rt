//! The words of the command line.
ghost use Rattle.std.specs.Prelude.{◌≡◌, drop, IfOk};
ghost use Rattle.std.specs.Vec.Iter.{into_iter_items};

use std::alloc::{AllocError, Global};
use std::env::Args;

/// The words after the program's name, in order.
pub fn words_after_name(alloc: Global, args: Args) -> Result<Vec<String>, AllocError>
    ensures words { IfOk result (λ words. words.items ≡ drop 1 (into_iter_items args)) }
{
    let mut left = args;
    let mut words = Vec::new(alloc);
    if left.next().is_none() {
        return Ok(words);
    }
    while let Some(word) = left.next() {
        words.push(word)?;
    }
    Ok(words)
}

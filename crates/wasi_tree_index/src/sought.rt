//! What is looked for.
ghost use Rattle.std.specs.Prelude.{◌≡◌, ◌<◌, slice_index_or};
ghost use Rattle.std.specs.Ordering.{nat_cmp};
ghost use Rattle.std.specs.Cmp.Lexicographic.{slice_cmp};
ghost use Rattle.wasi_tree_index.specs.Heads.{head_of};

use std::cmp::Ordering;
use std::marker::Model;

/// A name in a directory that is looked for, and what the name begins with. Contracts see the directory and the name.
#[derive(Drop)]
pub struct Sought<'a> {
    pub directory: u64,
    pub name: &'a str,
    pub head: u64,
}

impl<'a> Model for Sought<'a> {
    ghost use Rattle.std.specs.Prelude.{◌≡◌, ℕ, List};
    ghost use Rattle.wasi_tree_index.specs.Heads.{head_of};

    ghost Value = { ℕ × List ℕ };

    ghost view = { λ s. (s.directory, s.name.now) };

    ghost invariant = { λ s. s.head ≡ head_of s.name.now };
}

impl<'a> Sought<'a> {
    /// A name in a directory.
    pub fn new(directory: u64, name: &'a str) -> Sought<'a>
        ensures directory { result.0 ≡ directory }
        ensures name { result.1 ≡ name.now }
    {
        Sought {
            directory,
            name,
            head: head_of(name),
        }
    }
}

/// The number that a text's first eight bytes make, the first the highest. Where a text has fewer, zeros stand after
/// it.
pub fn head_of(text: &str) -> u64
    ensures { result ≡ head_of text.now }
{
    let bytes = text.as_bytes();
    let mut head: u64 = 0;
    let mut at = 0;
    while at < 8 {
        head = head * 256 + byte_at(bytes, at) as u64;
        at += 1;
    }
    head
}

/// How a name stands to another: by what they begin with, and where this is the same, by their texts.
pub fn compare_names(name: &str, head: u64, other: &str, other_head: u64) -> Ordering
    requires head { head ≡ head_of name.now }
    requires other { other_head ≡ head_of other.now }
    ensures { result ≡ slice_cmp nat_cmp name.now other.now }
{
    match head.cmp(&other_head) {
        Ordering::Less => Ordering::Less,
        Ordering::Equal => name.cmp(other),
        Ordering::Greater => Ordering::Greater,
    }
}

/// The byte at a place, and zero past the end.
fn byte_at(bytes: &[u8], at: usize) -> u8
    ensures { result ≡ slice_index_or bytes.now at 0 }
{
    bytes.get(at).copied().unwrap_or(0)
}

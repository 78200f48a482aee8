//! The names of one directory.
ghost use Rattle.std.specs.Prelude.{◌≡◌, [], ◌∷◌, map, MatchOption};
ghost use Rattle.std.specs.List.{slice_get};
ghost use Rattle.std.specs.Option.{option_map};
ghost use Rattle.std.specs.List.Sorted.{IsStrictlySortedBy};
ghost use Rattle.std.specs.Cmp.Lexicographic.{slice_cmp};
ghost use Rattle.std.specs.Ordering.{nat_cmp};
ghost use Rattle.wasi_tree_index.specs.DirEntryKeys.{row_entry};
ghost use Rattle.wasi_tree_index.specs.EntryCursors.{entries_from};

use crate::blocks::settled;
use crate::key::DirEntryKey;
use std::marker::Model;

/// The names of a directory that are still to come, in byte order, each with the node that it holds. Contracts see them
/// as a list.
#[derive(Drop)]
pub struct EntryCursor<'a> {
    pub(crate) here: &'a [DirEntryKey],
    pub(crate) rest: &'a [Vec<DirEntryKey>],
    pub(crate) directory: u64,
}

impl<'a> Model for EntryCursor<'a> {
    ghost use Rattle.std.specs.Prelude.{ℕ, List};
    ghost use Rattle.wasi_tree_index.specs.DirEntryKeys.{run_of};
    ghost use Rattle.wasi_tree_index.specs.EntryCursors.{entries_from, IsRun};

    ghost Value = { List (List ℕ × ℕ) };

    ghost view = { λ a. run_of a.directory (entries_from a.here.now a.rest.now) };

    ghost invariant = { λ a. IsRun a.directory a.here.now a.rest.now };
}

impl<'a> EntryCursor<'a> {
    /// No names.
    pub fn none() -> EntryCursor<'a>
        ensures none { result ≡ [] }
    {
        EntryCursor {
            here: &[],
            rest: &[],
            directory: 0,
        }
    }

    /// The same names once more. They stand in byte order, each once.
    pub fn again(&self) -> EntryCursor<'a>
        ensures same { result ≡ self.now }
        ensures rising { IsStrictlySortedBy (slice_cmp nat_cmp) (map (λ e. e.0) self.now) }
    {
        EntryCursor {
            here: self.here,
            rest: self.rest,
            directory: self.directory,
        }
    }

    /// The next name with its node. Behind the last one there is none, however often it is asked.
    pub fn next(&mut self) -> Option<(&'a str, u64)>
        ensures { MatchOption result ((self.old ≡ []) × (self.new ≡ []))
            (λ found. self.old ≡ (found.0.now, found.1) ∷ self.new) }
    {
        let Some((row, here)) = self.here.split_first() else {
            return None;
        };
        if row.directory != self.directory {
            return None;
        }
        let (here, rest) = settled(here, self.rest);
        self.here = here;
        self.rest = rest;
        Some((row.name.as_str(), row.node))
    }

    /// The name at a place, counted from the next one, with its node. It goes over whole blocks of names.
    pub fn at(&self, place: u64) -> Option<(&'a str, u64)>
        ensures { option_map (λ e. (e.0.now, e.1)) result ≡ slice_get self.now place }
    {
        let Some(row) = row_at(self.here, self.rest, place) else {
            return None;
        };
        if row.directory != self.directory {
            return None;
        }
        Some((row.name.as_str(), row.node))
    }
}

/// The entry at a place of some entries and of the blocks after them.
fn row_at<'a>(
    here: &'a [DirEntryKey],
    rest: &'a [Vec<DirEntryKey>],
    place: u64,
) -> Option<&'a DirEntryKey>
    ensures { option_map (λ row. row_entry row.now) result ≡ slice_get (entries_from here.now rest.now) place }
{
    let mut rows = here;
    let mut behind = rest;
    let mut left = place;
    while left >= rows.len() as u64 {
        left -= rows.len() as u64;
        let Some((block, blocks)) = behind.split_first() else {
            return None;
        };
        rows = block.as_slice();
        behind = blocks;
    }
    rows.get(left as usize)
}

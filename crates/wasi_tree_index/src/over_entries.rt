//! The names of one directory, where some were put or taken.
ghost use Rattle.std.specs.Prelude.{◌≡◌, [], ◌∷◌, map, MatchOption};
ghost use Rattle.std.specs.List.Sorted.{IsStrictlySortedBy};
ghost use Rattle.std.specs.Cmp.Lexicographic.{slice_cmp};
ghost use Rattle.std.specs.Ordering.{nat_cmp};
ghost use Rattle.wasi_tree_index.specs.OverNames.{with_changes, starts_below, passed};

use crate::entries::EntryCursor;
use crate::over_index::TAKEN;
use std::marker::Model;

/// The names of a directory that are still to come, in byte order, each with the node that it holds. They are those of
/// entries that stay, but for the names that were put or taken since. Contracts see them as a list.
#[derive(Drop)]
pub struct OverEntryCursor<'a> {
    pub(crate) base: EntryCursor<'a>,
    pub(crate) changed: EntryCursor<'a>,
}

impl<'a> Model for OverEntryCursor<'a> {
    ghost use Rattle.std.specs.Prelude.{ℕ, List};
    ghost use Rattle.std.specs.Cmp.Lexicographic.{slice_cmp};
    ghost use Rattle.std.specs.Ordering.{nat_cmp};
    ghost use Rattle.wasi_tree_index.specs.OverNames.{with_changes};

    ghost Value = { List (List ℕ × ℕ) };

    ghost view = { λ a. with_changes (slice_cmp nat_cmp) a.base a.changed };
}

impl<'a> OverEntryCursor<'a> {
    /// The next name with its node. Behind the last one there is none, however often it is asked.
    pub fn next(&mut self) -> Option<(&'a str, u64)>
        ensures { MatchOption result ((self.old ≡ []) × (self.new ≡ []))
            (λ found. self.old ≡ (found.0.now, found.1) ∷ self.new) }
    {
        next_of(&mut self.base, &mut self.changed)
    }
}

/// The next name of two runs. Where both have it, it is the changed one that counts.
fn next_of<'a>(base: &mut EntryCursor<'a>, changed: &mut EntryCursor<'a>) -> Option<(&'a str, u64)>
    ensures { MatchOption result ((with_changes (slice_cmp nat_cmp) base.old changed.old ≡ [])
        × (with_changes (slice_cmp nat_cmp) base.new changed.new ≡ []))
        (λ found. with_changes (slice_cmp nat_cmp) base.old changed.old
        ≡ (found.0.now, found.1) ∷ with_changes (slice_cmp nat_cmp) base.new changed.new) }
{
    loop {
        let mut later = changed.again();
        let Some((name, node)) = later.next() else {
            return base.next();
        };
        if is_below(base, name) {
            return base.next();
        }
        pass(base, name);
        *changed = later;
        if node != TAKEN {
            return Some((name, node));
        }
    }
}

/// Whether the first name of a run comes before a name.
fn is_below(run: &EntryCursor<'_>, name: &str) -> bool
    ensures below { result ≡ starts_below (slice_cmp nat_cmp) name.now run.now }
    ensures rising { IsStrictlySortedBy (slice_cmp nat_cmp) (map (λ e. e.0) run.now) }
{
    let mut run = run.again();
    match run.next() {
        Some((first, _)) => first.cmp(name).is_lt(),
        None => false,
    }
}

/// Goes past the first name of a run, if it is this one.
fn pass(run: &mut EntryCursor<'_>, name: &str)
    ensures { run.new ≡ passed (slice_cmp nat_cmp) name.now run.old }
{
    let mut later = run.again();
    let Some((first, _)) = later.next() else {
        return;
    };
    if first.cmp(name).is_eq() {
        *run = later;
    }
}

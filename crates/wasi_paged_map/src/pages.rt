//! Things by number.
ghost use Rattle.std.specs.Prelude.{◌≡◌, ◌<◌, ◌-◌, ◌^◌, true, IfSome, Some, None, OnOk, OnErr, option_copied, is_some};
ghost use Rattle.std.specs.Borrow.{sem};
ghost use Rattle.std.specs.FinMap as maps;
ghost use Rattle.std.specs.Option.{option_copied_mut};
ghost use Rattle.wasi_paged_map.specs.Places.{IsFirstFrom};

use crate::places::{find, first_from, reach, set};
use std::alloc::{AllocError, Global};
use std::marker::Model;

/// Things by number. Contracts see a finite map. A number's thing is found in constant time, by its place in the page of the
/// number; a page with no things takes no memory of its own.
#[derive(Debug, Drop)]
pub struct Pages<T> {
    /// Of each number, 1 more than where its thing is, or 0 where it has none.
    pages: Vec<Vec<u32>>,
    /// The number of each thing.
    numbers: Vec<u64>,
    /// The things, in the order in which they were put.
    things: Vec<T>,
}

impl<T> Model for Pages<T> {
    ghost use Rattle.std.specs.Prelude.{length};
    ghost use Rattle.std.specs.Coded.{coded_ℕ};
    ghost use Rattle.std.specs.FinMap as maps;
    ghost use Rattle.std.specs.List.{zip};
    ghost use Rattle.std.specs.Ordering.{nat_cmp};
    ghost use Rattle.wasi_paged_map.specs.Places.{ArePlaced};

    ghost Value = { maps.FinMap nat_cmp T };

    ghost coded = { maps.code coded_ℕ T.code };

    ghost view = { λ a. maps.from_entries (zip a.numbers.items a.things.items) };

    ghost invariant = { λ a. ArePlaced a.pages.items a.numbers.items (length a.things.items) };
}

impl<T> Pages<T> {
    ghost use Rattle.wasi_paged_map.specs.Lends.{lends_value, lends_get};

    /// No things.
    pub fn new(alloc: Global) -> Pages<T>
        ensures { result ≡ maps.empty }
    {
        Pages {
            pages: Vec::new(alloc),
            numbers: Vec::new(alloc),
            things: Vec::new(alloc),
        }
    }

    /// The thing of a number.
    #[inline(always)]
    pub fn get(&self, n: u64) -> Option<&T>
        ensures { option_copied result ≡ maps.get self.now n }
    {
        let place = find(self.pages.as_slice(), n)?;
        Some(&self.things[place])
    }

    /// Whether a number has a thing.
    #[inline(always)]
    pub fn has(&self, n: u64) -> bool
        ensures { result ≡ is_some (maps.get self.now n) }
    {
        self.get(n).is_some()
    }

    /// The thing of a number for writing.
    #[inline(always)]
    pub fn get_mut(&mut self, n: u64) -> Option<&mut T>
        ensures* writes_back { sem 𝓛 (lends_get T.row self.entry n result) }
        ensures value { option_copied_mut result ≡ maps.get self.old n }
    {
        if self.has(n) {
            Some(self.value_mut(n))
        } else {
            None
        }
    }

    #[inline(always)]
    fn value_mut(&mut self, n: u64) -> &mut T
        requires { is_some (maps.get self.old n) ≡ true }
        ensures* writes_back { sem 𝓛 (lends_value T.row self.entry n result) }
        ensures value { maps.get self.old n ≡ Some result.now }
    {
        let Some(place) = find(self.pages.as_slice(), n) else {
            unreachable!()
        };
        &mut self.things[place]
    }

    /// Puts the thing of a number that has none. Where memory is wanted, all is as it was. A number of 2^56 or more has no
    /// place, which fails in the same way, and so does one thing more than 2^32 - 1.
    pub fn insert(&mut self, n: u64, thing: T) -> Result<(), AllocError>
    where
        T: Drop,
        requires { maps.get self.old n ≡ None }
        ensures put { OnOk result (self.new ≡ maps.insert self.old n thing) }
        ensures kept { OnErr result (self.new ≡ self.old) }
    {
        if self.things.len() >= u32::MAX as usize {
            return Err(AllocError);
        }
        reach(&mut self.pages, n)?;
        self.numbers.reserve(more(&self.numbers))?;
        self.things.reserve(more(&self.things))?;
        self.numbers.push_reserved(n);
        self.things.push_reserved(thing);
        set(&mut self.pages, n, self.things.len() as u32);
        Ok(())
    }

    /// The first number from this one on that has a thing. It is never the last of all numbers.
    pub fn first_from(&self, from: u64) -> Option<u64>
        ensures first { IsFirstFrom (maps.get self.now) from result }
        ensures below { IfSome result (λ n. n < 2 ^ 64 - 1) }
    {
        first_from(self.pages.as_slice(), from)
    }
}

/// How much room is made for one element more: where there is none left, for three times as many again, so that few are
/// moved.
fn more<X>(list: &Vec<X>) -> usize
    ensures { 0 < result }
{
    if list.len() < list.capacity() {
        1
    } else {
        list.len().saturating_mul(3).saturating_add(1)
    }
}

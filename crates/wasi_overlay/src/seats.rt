//! The seats of an overlay.
ghost use Rattle.std.specs.Prelude.{◌≡◌, ℕ, ◌+◌, ◌-◌, ◌<◌, ◌≤◌, true, is_some, List, IfOk, OnOk, OnErr, length, slice_index_or, Some, None, option_copied, option_map};
ghost use Rattle.std.specs.FinMap as maps;
ghost use Rattle.std.specs.FinSet.{from_list};
ghost use Rattle.std.specs.List.Sorted.{IsStrictlySortedBy};
ghost use Rattle.std.specs.Ordering.{nat_cmp};
ghost use Rattle.wasi_host.specs.Answer.{metadata_from};
ghost use Rattle.wasi_host.specs.Numbers.{largest_file};
ghost use Rattle.wasi_host.specs.Step.{with_piece, with_size};
ghost use Rattle.wasi_host.specs.Tree.{Node, is_gone, stray};
ghost use Rattle.wasi_overlay.specs.OverSeats.{SeatMap, begun, bytes_over, has_mark, in_round, kept_at, kept_changed, links_put, name_less, numbers_with, own_at, own_put, passes, seat_added, seat_changed, times_put, worked_on};
ghost use Rattle.wasi_overlay.specs.declared.seat.Seat.{Seat};

use crate::grown::Grown;
use crate::kept::Kept;
use crate::seat::{Mark, Seat};
use std::alloc::{AllocError, Global};
use std::marker::Model;
use wasi_host::{Metadata, SystemTime};
use wasi_paged_map::Pages;

/// The seats of nodes, by their numbers. Contracts see a finite map.
#[derive(Debug, Drop)]
pub struct Seats {
    by_number: Pages<Seat>,
}

impl Model for Seats {
    ghost use Rattle.wasi_overlay.specs.OverSeats.{SeatMap, seats_code};

    ghost Value = { SeatMap };

    ghost coded = { seats_code };

    ghost view = { λ a. a.by_number };
}

impl Seats {
    /// No seats.
    pub fn new(alloc: Global) -> Seats
        ensures { result ≡ maps.empty }
    {
        Seats {
            by_number: Pages::new(alloc),
        }
    }

    /// What is kept of the node of a number, if something is.
    #[inline(always)]
    pub fn kept(&self, n: u64) -> Option<&Kept>
        ensures { option_copied result ≡ kept_at self.now n }
    {
        match self.by_number.get(n) {
            Some(seat) => seat.kept.as_ref(),
            None => None,
        }
    }

    /// Whether a number has a seat.
    #[inline(always)]
    pub fn has(&self, n: u64) -> bool
        ensures { result ≡ is_some (maps.get self.now n) }
    {
        self.by_number.has(n)
    }

    /// Whether the file of a number has bytes of its own.
    pub fn has_bytes(&self, n: u64) -> bool
        ensures { result ≡ is_some (own_at self.now n) }
    {
        match self.by_number.get(n) {
            Some(seat) => seat.has_bytes(),
            None => false,
        }
    }

    /// Gives a number a seat that says nothing, unless it has one. If memory runs out, all is as it was.
    #[inline(always)]
    pub fn hold(&mut self, n: u64) -> Result<(), AllocError>
        ensures held { OnOk result (self.new ≡ seat_added self.old n) }
        ensures kept { OnErr result (self.new ≡ self.old) }
    {
        if self.has(n) {
            return Ok(());
        }
        self.by_number.insert(n, Seat::blank())?;
        Ok(())
    }

    /// Begins the seat of a number again, for a node of this metadata that is made in a round.
    pub fn begin(&mut self, n: u64, round: u32, made: Metadata, gone: bool)
        ensures { (node : Node) → made ≡ metadata_from n node → gone ≡ is_gone node.content
            → self.new ≡ seat_changed self.old n (λ _. begun round node) }
    {
        if let Some(seat) = self.by_number.get_mut(n) {
            seat.begin(round, made, gone);
        }
    }

    /// Touches the seat of a number in a round.
    #[inline(always)]
    pub fn touch(&mut self, n: u64, round: u32)
        ensures { self.new ≡ seat_changed self.old n (in_round round) }
    {
        if let Some(seat) = self.by_number.get_mut(n) {
            seat.touch(round);
        }
    }

    /// Works on the node of a number, which is among those below.
    pub fn work(&mut self, below: &Grown<'_>, n: u64)
        requires { n < length below.now.nodes }
        ensures { self.new ≡ seat_changed self.old n (worked_on (slice_index_or below.now.nodes n stray)) }
    {
        if let Some(seat) = self.by_number.get_mut(n) {
            seat.work(below, n);
        }
    }

    /// Sets the given times in the seat of a number.
    pub fn set_times(&mut self, n: u64, atime: Option<SystemTime>, mtime: Option<SystemTime>)
        ensures { self.new ≡ seat_changed self.old n (kept_changed (times_put atime mtime)) }
    {
        if let Some(seat) = self.by_number.get_mut(n) {
            seat.set_times(atime, mtime);
        }
    }

    /// Takes a name from the seat of a number.
    pub fn lose_name(&mut self, n: u64)
        ensures { self.new ≡ seat_changed self.old n (kept_changed name_less) }
    {
        if let Some(seat) = self.by_number.get_mut(n) {
            seat.lose_name();
        }
    }

    /// Says in the seat of a number how many names it has.
    pub fn set_links(&mut self, n: u64, links: u64)
        ensures { self.new ≡ seat_changed self.old n (kept_changed (links_put links)) }
    {
        if let Some(seat) = self.by_number.get_mut(n) {
            seat.set_links(links);
        }
    }

    /// Gives the file of a number these bytes of its own.
    pub fn set_bytes(&mut self, n: u64, bytes: Vec<u8>)
        ensures { self.new ≡ seat_changed self.old n (kept_changed (own_put (Some bytes))) }
    {
        if let Some(seat) = self.by_number.get_mut(n) {
            seat.set_bytes(bytes);
        }
    }

    /// Puts a piece into the bytes that the file of a number has of its own.
    pub fn put_bytes(&mut self, n: u64, offset: usize, piece: &[u8]) -> Result<(), AllocError>
        requires { offset + length piece.now ≤ largest_file }
        ensures put { self.new ≡ seat_changed self.old n (kept_changed (own_put (own_at self.new n))) }
        ensures bytes { OnOk result (is_some (own_at self.old n) ≡ true → (below : List ℕ)
            → bytes_over (own_at self.new n) below ≡ with_piece (bytes_over (own_at self.old n) below) offset piece.now) }
        ensures same { OnErr result ((below : List ℕ)
            → bytes_over (own_at self.new n) below ≡ bytes_over (own_at self.old n) below) }
    {
        match self.by_number.get_mut(n) {
            Some(seat) => seat.put(offset, piece),
            None => Ok(()),
        }
    }

    /// Gives the bytes that the file of a number has of its own a size.
    pub fn resize(&mut self, n: u64, size: usize) -> Result<(), AllocError>
        ensures put { self.new ≡ seat_changed self.old n (kept_changed (own_put (own_at self.new n))) }
        ensures bytes { OnOk result (is_some (own_at self.old n) ≡ true → (below : List ℕ)
            → bytes_over (own_at self.new n) below ≡ with_size size (bytes_over (own_at self.old n) below)) }
        ensures same { OnErr result ((below : List ℕ)
            → bytes_over (own_at self.new n) below ≡ bytes_over (own_at self.old n) below) }
    {
        match self.by_number.get_mut(n) {
            Some(seat) => seat.resize(size),
            None => Ok(()),
        }
    }

    /// The numbers whose seat has a mark, rising.
    pub fn list(&self, alloc: Global, mark: Mark) -> Result<Vec<u64>, AllocError>
        ensures numbers { IfOk result (λ numbers. from_list numbers.items ≡ numbers_with (has_mark mark) self.now) }
        ensures rising { IfOk result (λ numbers. IsStrictlySortedBy nat_cmp numbers.items) }
    {
        list_marked(alloc, &self.by_number, mark)
    }

    /// Begins the round after this one, and says which that is. No seat was touched in it yet. It takes a constant
    /// time, but for once in 2^32 - 1 times, when it goes over all.
    pub fn begin_round(&mut self, round: u32) -> u32
        requires { (n : ℕ) (seat : Seat) → maps.get self.old n ≡ Some seat → seat.round ≤ round }
        ensures begun { 0 < result }
        ensures past { (n : ℕ) (seat : Seat) → maps.get self.new n ≡ Some seat → seat.round < result }
        ensures same { (n : ℕ) → option_map (in_round 0) (maps.get self.new n) ≡ option_map (in_round 0) (maps.get self.old n) }
    {
        match round.checked_add(1) {
            Some(next) => next,
            None => {
                self.forget();
                1
            }
        }
    }

    /// Says of each seat that it was never touched.
    #[tactic(auto, using(crate::proofs::ForgotLemmas::forgot_rules))]
    fn forget(&mut self)
        ensures { (n : ℕ) → maps.get self.new n ≡ option_map (in_round 0) (maps.get self.old n) }
    {
        let mut from = 0;
        while let Some(n) = self.by_number.first_from(from) {
            self.touch(n, 0);
            from = n + 1;
        }
    }
}

/// The numbers of the seats that have a mark, rising.
#[tactic(auto, using(crate::proofs::ListLemmas::listed_rules))]
fn list_marked(alloc: Global, seats: &Pages<Seat>, mark: Mark) -> Result<Vec<u64>, AllocError>
    ensures numbers { IfOk result (λ numbers. from_list numbers.items ≡ numbers_with (has_mark mark) seats.now) }
    ensures rising { IfOk result (λ numbers. IsStrictlySortedBy nat_cmp numbers.items) }
{
    let mut numbers = Vec::new(alloc);
    let mut from = 0;
    while let Some(n) = seats.first_from(from) {
        if is_marked(seats, n, mark) {
            numbers.push(n)?;
        }
        from = n + 1;
    }
    Ok(numbers)
}

/// Whether the seat of a number has a mark.
fn is_marked(seats: &Pages<Seat>, n: u64, mark: Mark) -> bool
    ensures { result ≡ passes (has_mark mark) (maps.get seats.now n) }
{
    match seats.get(n) {
        Some(seat) => seat.has(mark),
        None => false,
    }
}

//! The seat that an overlay gives a node.
ghost use Rattle.std.specs.Prelude.{◌≡◌, ◌+◌, ◌<◌, ◌≤◌, true, ℕ, is_some, List, OnOk, OnErr, Some, length, slice_index_or};
ghost use Rattle.wasi_host.specs.Answer.{metadata_from};
ghost use Rattle.wasi_host.specs.Numbers.{largest_file};
ghost use Rattle.wasi_host.specs.Step.{with_piece, with_size};
ghost use Rattle.wasi_host.specs.Tree.{Node, is_gone, stray};
ghost use Rattle.wasi_overlay.specs.OverSeats.{begun, blank, bytes_over, has_mark, in_round, kept_changed, links_put, name_less, own_of, own_put, times_put, worked_on};

use crate::grown::Grown;
use crate::kept::Kept;
use std::alloc::AllocError;
use wasi_host::{Metadata, SystemTime};
use wasi_tree::{put_piece, resize_bytes};

/// The seat of a node. A node that is only touched is as the node below, so that its seat says nothing of it.
#[derive(Debug, Drop)]
pub struct Seat {
    /// The round in which the node was touched last, 0 where it never was.
    pub round: u32,
    /// What is kept of the node, once a step has worked on it.
    pub kept: Option<Kept>,
}

/// What a seat may be marked for: that a step has worked on its node, or that this was touched last in a round.
#[derive(Clone, Copy, Debug)]
pub enum Mark {
    Worked,
    Touched(u32),
}

impl Seat {
    /// A seat that says nothing.
    #[inline(always)]
    pub fn blank() -> Seat
        ensures { result ≡ blank }
    {
        Seat {
            round: 0,
            kept: None,
        }
    }

    /// Gives its place to the seat of a node of this metadata, which is made in a round.
    pub fn begin(&mut self, round: u32, made: Metadata, gone: bool)
        ensures { (n : ℕ) (node : Node) → made ≡ metadata_from n node → gone ≡ is_gone node.content → self.new ≡ begun round node }
    {
        *self = Seat {
            round,
            kept: Some(Kept::new(made, gone)),
        };
    }

    /// Whether it has a mark.
    pub fn has(&self, mark: Mark) -> bool
        ensures { result ≡ has_mark mark self.now }
    {
        match mark {
            Mark::Worked => self.kept.is_some(),
            Mark::Touched(round) => self.round == round,
        }
    }

    /// Whether a file has bytes of its own.
    pub fn has_bytes(&self) -> bool
        ensures { result ≡ is_some (own_of self.now.kept) }
    {
        match &self.kept {
            Some(kept) => kept.bytes.is_some(),
            None => false,
        }
    }

    /// Touches the node in a round.
    #[inline(always)]
    pub fn touch(&mut self, round: u32)
        ensures { self.new ≡ in_round round self.old }
    {
        self.round = round;
    }

    /// Works on the node, which has this number below. What is kept of it begins with what it is there.
    pub fn work(&mut self, below: &Grown<'_>, n: u64)
        requires { n < length below.now.nodes }
        ensures { self.new ≡ worked_on (slice_index_or below.now.nodes n stray) self.old }
    {
        if self.kept.is_none() {
            self.kept = Some(Kept::new(below.metadata(n), below.is_gone(n)));
        }
    }

    /// Sets the given times; one that isn't given stays.
    pub fn set_times(&mut self, atime: Option<SystemTime>, mtime: Option<SystemTime>)
        ensures { self.new ≡ kept_changed (times_put atime mtime) self.old }
    {
        if let Some(kept) = &mut self.kept {
            kept.atime = atime.unwrap_or(kept.atime);
            kept.mtime = mtime.unwrap_or(kept.mtime);
        }
    }

    /// Takes a name: a file or link has one fewer, and a directory is gone.
    pub fn lose_name(&mut self)
        ensures { self.new ≡ kept_changed name_less self.old }
    {
        if let Some(kept) = &mut self.kept {
            kept.links = kept.links.saturating_sub(1);
            kept.gone = true;
        }
    }

    /// Says how many names a file or link has.
    pub fn set_links(&mut self, links: u64)
        ensures { self.new ≡ kept_changed (links_put links) self.old }
    {
        if let Some(kept) = &mut self.kept {
            kept.links = links;
        }
    }

    /// Gives a file these bytes of its own. Those that it had are given back.
    pub fn set_bytes(&mut self, bytes: Vec<u8>)
        ensures { self.new ≡ kept_changed (own_put (Some bytes)) self.old }
    {
        if let Some(kept) = &mut self.kept {
            kept.bytes = Some(bytes);
        }
    }

    /// Puts a piece into a file's own bytes from an offset on, with zeros in a gap before it. If memory runs out, the
    /// bytes are as they were.
    pub fn put(&mut self, offset: usize, piece: &[u8]) -> Result<(), AllocError>
        requires { offset + length piece.now ≤ largest_file }
        ensures put { self.new ≡ kept_changed (own_put (own_of self.new.kept)) self.old }
        ensures bytes { OnOk result (is_some (own_of self.old.kept) ≡ true → (below : List ℕ)
            → bytes_over (own_of self.new.kept) below ≡ with_piece (bytes_over (own_of self.old.kept) below) offset piece.now) }
        ensures same { OnErr result ((below : List ℕ)
            → bytes_over (own_of self.new.kept) below ≡ bytes_over (own_of self.old.kept) below) }
    {
        if let Some(kept) = &mut self.kept {
            if let Some(own) = &mut kept.bytes {
                return put_piece(own, offset, piece);
            }
        }
        Ok(())
    }

    /// Cuts a file's own bytes to a size, or fills them up with zeros. If memory runs out, the bytes are as
    /// they were.
    pub fn resize(&mut self, size: usize) -> Result<(), AllocError>
        ensures put { self.new ≡ kept_changed (own_put (own_of self.new.kept)) self.old }
        ensures bytes { OnOk result (is_some (own_of self.old.kept) ≡ true → (below : List ℕ)
            → bytes_over (own_of self.new.kept) below ≡ with_size size (bytes_over (own_of self.old.kept) below)) }
        ensures same { OnErr result ((below : List ℕ)
            → bytes_over (own_of self.new.kept) below ≡ bytes_over (own_of self.old.kept) below) }
    {
        if let Some(kept) = &mut self.kept {
            if let Some(own) = &mut kept.bytes {
                return resize_bytes(own, size);
            }
        }
        Ok(())
    }
}

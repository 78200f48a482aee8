//! What each live handle refers to.
ghost use Rattle.std.specs.Prelude.{◌≡◌, ◌<◌, ℕ, true, false, OnOk};
ghost use Rattle.std.specs.FinSet.{contains, empty, insert, remove};
ghost use Rattle.wasi_tree.specs.MemState.{live_of, held_in};

use slab::Slab;
use std::alloc::{AllocError, Global};
use std::marker::Model;
use wasi_host::{Handle, OpenHandle};

/// What each live handle refers to, by its number. Contracts see the live handles, and for how many more there is room.
#[derive(Debug, Drop)]
pub struct Slots {
    slab: Slab<OpenHandle>,
}

impl Model for Slots {
    ghost use Rattle.std.specs.Prelude.{◌-◌};
    ghost use Rattle.slab.specs.Slab.{slab_len};
    ghost use Rattle.wasi_tree.specs.LiveSlots.{LiveSlots, slots_code, handles_in};

    ghost Value = { LiveSlots };

    ghost coded = { slots_code };

    ghost view = { λ a. record { handles = handles_in a.slab.slots; room = a.slab.capacity - slab_len a.slab } };
}

#[tactic(auto, using(crate::proofs::SlotLemmas::slot_rules))]
impl Slots {
    /// No handle is live.
    pub fn new(alloc: Global) -> Self
        ensures { live_of result.handles ≡ empty }
    {
        Slots {
            slab: Slab::new(alloc),
        }
    }

    /// Makes room for one more handle.
    pub fn reserve(&mut self) -> Result<(), AllocError>
        ensures same { self.new.handles ≡ self.old.handles }
        ensures room { OnOk result (0 < self.new.room) }
    {
        self.slab.reserve(1)
    }

    /// What a live handle refers to.
    pub fn held(&self, handle: Handle) -> OpenHandle
        requires { contains (live_of self.now.handles) handle ≡ true }
        ensures { result ≡ held_in self.now.handles handle }
    {
        match self.slab.get(handle.number() as usize) {
            Some(held) => *held,
            None => unreachable!(),
        }
    }

    /// Gives a handle for this.
    pub fn give(&mut self, held: OpenHandle) -> Handle
        requires { 0 < self.old.room }
        ensures fresh { contains (live_of self.old.handles) result ≡ false }
        ensures live { live_of self.new.handles ≡ insert (live_of self.old.handles) result }
        ensures held { held_in self.new.handles result ≡ held }
        ensures others { (h : ℕ) → contains (live_of self.old.handles) h ≡ true
            → held_in self.new.handles h ≡ held_in self.old.handles h }
    {
        Handle::from_number(self.slab.insert_reserved(held) as u64)
    }

    /// Takes a live handle back.
    pub fn release(&mut self, handle: Handle)
        requires { contains (live_of self.old.handles) handle ≡ true }
        ensures live { live_of self.new.handles ≡ remove (live_of self.old.handles) handle }
        ensures others { (h : ℕ) → contains (live_of self.new.handles) h ≡ true
            → held_in self.new.handles h ≡ held_in self.old.handles h }
    {
        self.slab.remove(handle.number() as usize);
    }
}

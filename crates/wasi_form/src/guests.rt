//! Several guests that run in turns over one tree, read one after another.
ghost use Rattle.std.specs.Prelude.{◌≡◌, option_map};
ghost use Rattle.wasi_form.specs.FoundGuests.{guests_found_of};
ghost use Rattle.wasi_form.specs.GuestsForm as specs;
ghost use Rattle.wasi_form.specs.Lists.{names, same};
ghost use Rattle.wasi_form.specs.Plan.{guests_drafted};
ghost use Rattle.wasi_form.specs.ScriptForm.{whole_members};
ghost use Rattle.wasi_form.specs.Shapes.{has_key};

use crate::atoms::next_u32;
use crate::limits::{DEFAULT_LIMITS, limits};
use crate::lists::{Item, list};
use crate::objects::{Fields, object};
use crate::script::Session;
use crate::script_members::Parts;
use crate::shapes::Reading;
use crate::tokens::pass;
use json::Reader;
use std::alloc::Global;
use wasi_host::Limits;
use wasi_tree::NewNode;

// Whether all keys are those of a guest, and what stands at them, as in a script.
#[derive(Drop)]
struct GuestParts {
    parts: Parts,
}

// Whether a key of a script is one of its tree or the tree's faults, which are no part of a guest.
fn is_of_whole(key: &str) -> bool
    ensures { result ≡ has_key (names whole_members) key.now }
{
    key == "nodes" || key == "limits" || key == "faults"
}

impl Fields for GuestParts {
    ghost use Rattle.wasi_form.specs.FoundGuests.{guest_found_of, with_guest_member};
    ghost use Rattle.wasi_form.specs.GuestsForm.{guest_in};
    ghost use Rattle.wasi_form.specs.ScriptForm.{ScriptFound};

    ghost Seen = { ScriptFound };

    ghost see = { guest_found_of };

    ghost of = { guest_in };

    ghost with = { with_guest_member };

    fn none(alloc: Global) -> GuestParts {
        GuestParts {
            parts: Parts::none(alloc),
        }
    }

    #[tactic(auto, unfolding(crate::specs::FoundGuests::with_guest_member))]
    fn with_member(self, key: &str, reader: &mut Reader<'_>, depth: usize) -> Reading<Self> {
        if is_of_whole(key) {
            let parts = self.parts.with_unknown(reader, depth)?;
            return Ok(GuestParts { parts });
        }
        let parts = self.parts.with_member(key, reader, depth)?;
        Ok(GuestParts { parts })
    }
}

/// A guest.
impl Item for Session {
    ghost use Rattle.std.specs.Prelude.{[]};
    ghost use Rattle.wasi_form.specs.LimitsForm.{default_limits};
    ghost use Rattle.wasi_form.specs.Plan.{Plan, planned};

    ghost Seen = { Plan };

    ghost see = { planned [] default_limits };

    ghost of = { specs.guest_of };

    fn next(alloc: Global, reader: &mut Reader<'_>, depth: usize) -> Reading<Option<Session>> {
        let guest: Option<GuestParts> = object(alloc, reader, depth)?;
        match guest {
            Some(guest) => Ok(guest.parts.guest()),
            None => Ok(None),
        }
    }
}

/// The guest of a turn.
impl Item for u32 {
    ghost use Rattle.std.specs.Prelude.{ℕ};
    ghost use Rattle.wasi_form.specs.Shapes.{u32_of};

    ghost Seen = { ℕ };

    ghost see = { same };

    ghost of = { u32_of };

    fn next(_alloc: Global, reader: &mut Reader<'_>, depth: usize) -> Reading<Option<u32>> {
        next_u32(reader, depth)
    }
}

// Whether all keys are those of several guests, and what stands at them, or counts where nothing does.
#[derive(Drop)]
struct GuestsParts {
    alloc: Global,
    known: bool,
    nodes: Option<Vec<NewNode>>,
    limits: Option<Limits>,
    guests: Option<Vec<Session>>,
    schedule: Option<Vec<u32>>,
}

impl Fields for GuestsParts {
    ghost use Rattle.wasi_form.specs.FoundGuests.{guests_found_of, with_guests_member};
    ghost use Rattle.wasi_form.specs.GuestsForm.{GuestsFound, guests_in};

    ghost Seen = { GuestsFound };

    ghost see = { guests_found_of };

    ghost of = { guests_in };

    ghost with = { with_guests_member };

    fn none(alloc: Global) -> GuestsParts {
        GuestsParts {
            alloc,
            known: true,
            nodes: None,
            limits: Some(DEFAULT_LIMITS),
            guests: None,
            schedule: None,
        }
    }

    #[tactic(auto, unfolding(crate::specs::FoundGuests::with_guests_member))]
    fn with_member(mut self, key: &str, reader: &mut Reader<'_>, depth: usize) -> Reading<Self> {
        match key {
            "nodes" => {
                self.nodes = list(self.alloc, reader, depth)?;
                Ok(self)
            }
            "limits" => {
                self.limits = limits(self.alloc, reader, depth)?;
                Ok(self)
            }
            "guests" => {
                self.guests = list(self.alloc, reader, depth)?;
                Ok(self)
            }
            "schedule" => {
                self.schedule = list(self.alloc, reader, depth)?;
                Ok(self)
            }
            _ => {
                pass(reader, depth)?;
                self.known = false;
                Ok(self)
            }
        }
    }
}

/// Several guests whose nodes weren't tested yet.
#[derive(Drop)]
pub struct GuestDraft {
    pub nodes: Vec<NewNode>,
    pub limits: Limits,
    pub guests: Vec<Session>,
    pub schedule: Vec<u32>,
}

// Whether each number of a schedule is that of one of so many guests.
fn names_guests(count: usize, schedule: &[u32]) -> bool
    ensures { result ≡ specs.names_guests count schedule.now }
{
    schedule.iter().all(|guest| (*guest as usize) < count)
}

impl GuestsParts {
    // The guests of these parts. `None` where one of them is of another shape.
    #[tactic(auto, using(crate::proofs::Items::map_same), unfolding(crate::specs::GuestsForm::guests_found))]
    fn draft(self) -> Option<GuestDraft>
        ensures { option_map guests_drafted result ≡ specs.guests_found (guests_found_of self) }
    {
        if !self.known {
            return None;
        }
        let nodes = self.nodes?;
        let limits = self.limits?;
        let guests = self.guests?;
        let schedule = self.schedule?;
        if !names_guests(guests.len(), schedule.as_slice()) {
            return None;
        }
        Some(GuestDraft {
            nodes,
            limits,
            guests,
            schedule,
        })
    }
}

/// Several guests.
impl Item for GuestDraft {
    ghost use Rattle.wasi_form.specs.GuestsForm.{guests_of};
    ghost use Rattle.wasi_form.specs.Plan.{GuestsPlan, guests_drafted};

    ghost Seen = { GuestsPlan };

    ghost see = { guests_drafted };

    ghost of = { guests_of };

    fn next(alloc: Global, reader: &mut Reader<'_>, depth: usize) -> Reading<Option<GuestDraft>> {
        let parts: Option<GuestsParts> = object(alloc, reader, depth)?;
        match parts {
            Some(parts) => Ok(parts.draft()),
            None => Ok(None),
        }
    }
}

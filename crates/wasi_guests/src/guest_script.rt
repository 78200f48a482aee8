//! A script of several guests, from what was read to the text of what they come to.
ghost use Rattle.std.specs.Prelude.{◌≡◌, length, map, true, All, IfOk};
ghost use Rattle.std.specs.List.{list_all};
ghost use Rattle.wasi_form.specs.Plan.{guests_plan, planned_piece};
ghost use Rattle.wasi_form.specs.Within.{is_piece_within, is_shown_within};
ghost use Rattle.wasi_report.specs.Guests.{guest_reported};
ghost use Rattle.wasi_guests.specs.Alone.{ended};
ghost use Rattle.wasi_guests.specs.GuestScript.{AreShownWithin, CanRunGuests, ComesTo, end_told, ends_told, guest_of};

use crate::plan::{GuestEnd, GuestPlan, GuestsError};
use crate::run::run_guests;
use std::alloc::{AllocError, Allocator, Global};
use wasi_form::{GuestScript, Session, Shown};
use wasi_report::{GuestOutcome, guests_in};
use wasi_setup::{first_memory, shown};
use wasi_tree::MemTree;

/// The guests of a script as they are run, and of each the ranges of its memory that are shown afterwards.
#[derive(Drop)]
struct Drawn {
    guests: Vec<GuestPlan>,
    shows: Vec<Vec<Shown>>,
}

// A guest of a script as it is run. What is shown of its memory is no part of it.
fn guest_of(alloc: Global, session: Session) -> Result<(GuestPlan, Vec<Shown>), AllocError>
    requires { list_all (is_piece_within session.size) (map planned_piece session.pieces.items) ≡ true }
    ensures guest { IfOk result (λ drawn. drawn.0 ≡ guest_of session) }
    ensures show { IfOk result (λ drawn. drawn.1 ≡ session.show) }
    ensures size { IfOk result (λ drawn. length drawn.0.memory ≡ session.size) }
{
    let memory = first_memory(alloc, session.size, session.pieces.as_slice())?;
    let guest = GuestPlan {
        preopens: session.preopens,
        services: session.services,
        memory,
        fuel: session.fuel,
        table: session.table,
        quota: session.quota,
        calls: session.calls,
    };
    Ok((guest, session.show))
}

// The guests of a script in their order.
fn draw_all(alloc: Global, sessions: Vec<Session>) -> Result<Drawn, AllocError>
    requires { All (λ s. list_all (is_piece_within s.size) (map planned_piece s.pieces.items) ≡ true) sessions.items }
    ensures guests { IfOk result (λ all. all.guests.items ≡ map guest_of sessions.items) }
    ensures shows { IfOk result (λ all. all.shows.items ≡ map (λ s. s.show) sessions.items) }
    ensures sizes { IfOk result (λ all. map (λ guest. length guest.memory) all.guests.items
        ≡ map (λ s. s.size) sessions.items) }
{
    let mut guests = Vec::new(alloc);
    let mut shows = Vec::new(alloc);
    for session in sessions {
        let (guest, show) = guest_of(alloc, session)?;
        guests.push(guest)?;
        shows.push(show)?;
    }
    Ok(Drawn { guests, shows })
}

// What is told of a guest.
fn outcome_of(alloc: Global, end: GuestEnd, show: &[Shown]) -> Result<GuestOutcome, AllocError>
    requires { list_all (is_shown_within (length end.memory)) show.now ≡ true }
    ensures { IfOk result (λ told. guest_reported told ≡ end_told show.now (ended end)) }
{
    let shown = shown(alloc, end.memory.bytes(), show)?;
    Ok(GuestOutcome {
        answers: end.answers,
        shown,
        stdout: end.stdout,
        stderr: end.stderr,
    })
}

// What is told of each guest.
fn outcomes_of(
    alloc: Global,
    ends: Vec<GuestEnd>,
    shows: &Vec<Vec<Shown>>,
) -> Result<Vec<GuestOutcome>, AllocError>
    requires { AreShownWithin shows.now.items ends.items }
    ensures { IfOk result (λ all. map guest_reported all.items
        ≡ ends_told (map (λ show. show.items) shows.now.items) (map ended ends.items)) }
{
    let mut outcomes = Vec::new(alloc);
    for end in ends {
        let show = &shows[outcomes.len()];
        outcomes.push(outcome_of(alloc, end, show.as_slice())?)?;
    }
    Ok(outcomes)
}

/// The text of what the guests of a script come to, in the memory of a buffer, or why they don't run. `room` is for its
/// digits, where it has enough.
pub(crate) fn text_of<A: Allocator + Copy>(
    alloc: Global,
    room: A,
    script: GuestScript,
    buffer: Vec<u8>,
) -> Result<Vec<u8>, GuestsError>
    requires { CanRunGuests script }
    ensures { ComesTo (guests_plan script) result }
{
    let GuestScript {
        nodes,
        guests,
        schedule,
    } = script;
    let tree = MemTree::of(alloc, nodes)?;
    let Drawn { guests, shows } = draw_all(alloc, guests)?;
    let outcome = run_guests(alloc, tree, guests, &schedule)?;
    let told = outcomes_of(alloc, outcome.guests, &shows)?;
    let nodes = outcome.nodes;
    Ok(guests_in(alloc, room, buffer, told.as_slice(), nodes.as_slice())?)
}

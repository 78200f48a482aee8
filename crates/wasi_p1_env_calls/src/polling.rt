//! The call that waits.
ghost use Rattle.wasi_guest.specs.declared.call.Call.TheVariants.{PollOneoff};
ghost use Rattle.wasi_p1_model.specs.Method.{KeepsHostLaws, MeetsSpec};

use crate::subscriptions::{
    all_waited, judged_at, lists_within, reads_files, sizes_of, some_asked, tell_events,
};
use wasi_guest::{Event, Subscription, Value};
use wasi_host::Host;
use wasi_p1_state::P1State;
use wasi_p1_state::lookups::room_at;
use wasi_p1_types::{P1Error, charge};

/// Waits for the first of the `count` subscriptions at `subscriptions`, and writes an event for each that has come, in
/// order, from `events` on. The answer is how many. A subscription has 48 bytes, an event 32. The fields are those of
/// the preview1 specification.
///
/// Streams and files are ready at once. If only clocks are awaited, and no time has come, the monotonic clock moves to
/// the earliest one, and the wall clock as far: no time passes in truth. The flag of a file's read event says whether
/// the position is at the end or past it. All subscriptions are read before an event is written, so the two lists may
/// overlap. The table must have room for the entries that the crate's `p1.rs` makes during a poll. Refusals:
/// docs/calls.md.
#[tactic(auto, using(wasi_p1_model::proofs::Taking::refusals), unfolding(wasi_p1_model::specs::Calls::Polling::poll_oneoff))]
pub fn poll_oneoff<H: Host>(
    context: &mut P1State<H>,
    memory: &mut [u8],
    subscriptions: u32,
    events: u32,
    count: u32,
) -> Result<Value, P1Error>
    ensures host_laws { KeepsHostLaws H.Host context.old context.new memory.old (PollOneoff subscriptions events count)
        result }
    ensures spec { MeetsSpec H.Host context.old context.new memory.old memory.new (PollOneoff subscriptions events count)
        result }
{
    some_asked(count)?;
    charge(&mut context.fuel, Subscription::SIZE as u64 * count as u64)?;
    charge(&mut context.fuel, Event::SIZE as u64 * count as u64)?;
    lists_within(memory, subscriptions, events, count)?;
    let judged = judged_at(
        &context.fs.host,
        &context.descriptors,
        &context.holdings,
        memory,
        subscriptions,
        count,
    )?;
    room_at(&context.fs.host, &context.descriptors, count + judged.files)?;
    let clocks = context.holdings.clocks_at(judged.earliest)?;
    let waited = all_waited(
        context.fs.alloc,
        &context.fs.host,
        &context.descriptors,
        &context.holdings,
        memory,
        subscriptions,
        count,
    )?;
    if !reads_files(&waited) {
        return Ok(tell_events(&mut context.holdings, memory, events, &waited, &[], clocks));
    }
    let sizes = sizes_of(&mut context.fs.host, context.fs.alloc, &waited)?;
    Ok(tell_events(
        &mut context.holdings,
        memory,
        events,
        &waited,
        &sizes,
        clocks,
    ))
}

//! What a poll waits for, and what it is told, a part at a time.
ghost use Rattle.std.specs.Prelude.{[], ◌∷◌, ◌≡◌, ◌⊎◌, ◌+◌, ◌-◌, ◌++◌, ◌*◌, ◌^◌, ◌<◌, ◌==◌, not, nat_le, true, false, IsTrue, All, drop, length, map, if◌then◌else◌, Ok, Err, IfOk, IfErr, OnOk};
ghost use Rattle.std.specs.FinSet.{contains};
ghost use Rattle.std.specs.Result.{result_map_both};
ghost use Rattle.std.specs.Option.{option_to_list};
ghost use Rattle.wasi_guest.specs.Event.{event_bytes};
ghost use Rattle.wasi_guest.specs.Range.{IsInMemory, with_bytes};
ghost use Rattle.wasi_host.specs.HostLaws.{Rose};
ghost use Rattle.wasi_p1_types.specs.CallParts.{IsFromHost, IsReplied, Makes, is_failure, read_target_of, write_target_of, OfReadTarget};
ghost use Rattle.wasi_p1_model.specs.CallTransition.{Causes};
ghost use Rattle.wasi_p1_types.specs.Guest.{guest_slots};
ghost use Rattle.wasi_p1_model.specs.Owners.{handles, Owned};
ghost use Rattle.wasi_p1_types.specs.Polling.{OfReading, all_waited, awaited_by, comes_at, event_of, events, first_size, judged_in, lists_within, nodes_in, nodes_read, some_asked, waited_at, waited_by, waiting_for, waiting_to_read, waiting_to_write, with_clocks, with_events};
ghost use Rattle.wasi_p1_types.specs.Request.{Sizes};
ghost use Rattle.wasi_p1_types.specs.CallResult.{give};
ghost use Rattle.wasi_guest.specs.declared.answer.Value.TheVariants.{Number};
ghost use Rattle.wasi_p1_types.specs.declared.error.P1Error.TheVariants.{Memory};

use std::alloc::{AllocError, Global};
use wasi_guest::{
    Errno, Event, Subscription, SubscriptionKind, TrapKind, Value, subscription_in, write_bytes,
};
use wasi_host::Host;
use wasi_p1_state::descriptors::Descriptors;
use wasi_p1_state::lookups::{read_target_at, write_target_at};
use wasi_p1_types::{
    Awaited, Clocks, GuestEnv, INVALID, Judged, P1Error, ReadTarget, Waited, WriteTarget,
};

/// How many bytes a subscription has in memory.
const SUBSCRIPTION: u32 = Subscription::SIZE as u32;

/// Inval of a poll of nothing.
#[tactic(auto, unfolding(wasi_p1_types::specs::Polling::some_asked))]
pub fn some_asked(count: u32) -> Result<(), P1Error>
    ensures specified { result ≡ some_asked count }
    ensures refusal { IfErr result (λ e. is_failure e ≡ false) }
{
    if count == 0 {
        return Err(INVALID);
    }
    Ok(())
}

/// Trap Pointer where so many subscriptions, or as many events, aren't at a multiple of 8, or leave the memory.
#[tactic(auto, unfolding(wasi_p1_types::specs::Polling::lists_within))]
pub fn lists_within(
    memory: &[u8],
    subscriptions: u32,
    events: u32,
    count: u32,
) -> Result<(), P1Error>
    ensures specified { result ≡ lists_within memory.now subscriptions events count }
    ensures refusal { IfErr result (λ e. is_failure e ≡ false) }
    ensures inside { OnOk result (IsInMemory memory.now events (32 * count)) }
{
    let size = memory.len() as u64;
    let subscriptions_end = subscriptions as u64 + Subscription::SIZE as u64 * count as u64;
    let events_end = events as u64 + Event::SIZE as u64 * count as u64;
    let aligned = subscriptions % 8 == 0 && events % 8 == 0;
    if aligned && subscriptions_end <= size && events_end <= size {
        return Ok(());
    }
    Err(P1Error::Trap(TrapKind::Pointer))
}

/// What is waited for of what is read by a number.
fn to_read<H: Host>(host: &H, source: ReadTarget) -> Awaited
    requires live { OfReadTarget (λ file. contains (H.live host.now) file.file.file ≡ true) source }
    ensures live { OfReading (λ file. contains (H.live host.now) file ≡ true) result }
    ensures specified { awaited_by (H.model host.now).held result
        ≡ waiting_to_read (read_target_of (H.model host.now).held source) }
{
    match source {
        ReadTarget::Input => Awaited::Input,
        ReadTarget::File(slot) => Awaited::FileToRead {
            file: slot.file.file,
            position: slot.position,
        },
    }
}

/// What is waited for of what is written by a number: Perm of a file under read-only permissions.
fn to_write<H: Host>(host: &H, sink: WriteTarget) -> Result<Awaited, P1Error>
    ensures live { IfOk result (OfReading (λ file. contains (H.live host.now) file ≡ true)) }
    ensures refusal { IfErr result (λ e. is_failure e ≡ false) }
    ensures specified { result_map_both (awaited_by (H.model host.now).held) (λ e. e) result
        ≡ waiting_to_write (write_target_of (H.model host.now).held sink) }
{
    match sink {
        WriteTarget::Output(_) => Ok(Awaited::Output),
        WriteTarget::File(slot) => {
            if slot.file.perms.write_not_permitted() {
                return Err(P1Error::Errno(Errno::Perm));
            }
            Ok(Awaited::FileToWrite)
        }
    }
}

/// What a subscription asks for: its clock's end, or the stream or file of its number. Refusals: those of `clock_end`;
/// Badf where the number is neither a file's nor such a stream's; Perm of a file that is written under read-only
/// permissions.
fn waiting_for<H: Host>(
    host: &H,
    descriptors: &Descriptors,
    holdings: &GuestEnv,
    what: SubscriptionKind,
) -> Result<Awaited, P1Error>
    requires owned { Owned (H.live host.now) (handles descriptors.now.slots) }
    ensures live { IfOk result (OfReading (λ file. contains (H.live host.now) file ≡ true)) }
    ensures refusal { IfErr result (λ e. is_failure e ≡ false) }
    ensures specified { result_map_both (awaited_by (H.model host.now).held) (λ e. e) result
        ≡ waiting_for holdings.now (guest_slots (H.model host.now).held descriptors.now.slots) what }
{
    match what {
        SubscriptionKind::Clock {
            id,
            timeout,
            flags,
            ..
        } => {
            let end = holdings.clock_end(id, timeout, flags)?;
            Ok(Awaited::Clock { end })
        }
        SubscriptionKind::FdRead { fd } => {
            let source = read_target_at(host, descriptors, fd)?;
            Ok(to_read(host, source))
        }
        SubscriptionKind::FdWrite { fd } => to_write(host, write_target_at(host, descriptors, fd)?),
    }
}

/// The subscription at an address: as it can't be read, then as what it asks for is refused.
#[tactic(auto, using(wasi_p1_types::proofs::Wanting::fault_never), unfolding(wasi_p1_types::specs::Polling::waited_at))]
fn waited_at<H: Host>(
    host: &H,
    descriptors: &Descriptors,
    holdings: &GuestEnv,
    memory: &[u8],
    at: u32,
) -> Result<Waited, P1Error>
    requires owned { Owned (H.live host.now) (handles descriptors.now.slots) }
    ensures live { IfOk result (λ w. OfReading (λ file. contains (H.live host.now) file ≡ true) w.what) }
    ensures refusal { IfErr result (λ e. is_failure e ≡ false) }
    ensures next { OnOk result (at + 48 < 2 ^ 32) }
    ensures specified { result_map_both (waited_by (H.model host.now).held) (λ e. e) result
        ≡ waited_at holdings.now (guest_slots (H.model host.now).held descriptors.now.slots) memory.now at }
{
    let asked = subscription_in(memory, at)?;
    let what = waiting_for(host, descriptors, holdings, asked.what)?;
    Ok(Waited {
        userdata: asked.userdata,
        what,
    })
}

/// How many of so many subscriptions from an address on name a file, and when the first of them comes: refused as the
/// first that is refused. It takes no memory.
pub fn judged_at<H: Host>(
    host: &H,
    descriptors: &Descriptors,
    holdings: &GuestEnv,
    memory: &[u8],
    subscriptions: u32,
    count: u32,
) -> Result<Judged, P1Error>
    requires owned { Owned (H.live host.now) (handles descriptors.now.slots) }
    ensures refusal { IfErr result (λ e. is_failure e ≡ false) }
    ensures specified { result ≡ judged_in holdings.now (guest_slots (H.model host.now).held descriptors.now.slots)
        memory.now subscriptions count }
    ensures few { IfOk result (λ judged. count + judged.files < 2 ^ 32) }
{
    let mut judged = Judged {
        files: 0,
        earliest: u64::MAX,
    };
    for i in 0..count {
        let at = subscriptions + SUBSCRIPTION * i;
        let waited = waited_at(host, descriptors, holdings, memory, at)?;
        judged = judged.with(waited.what.files(), waited.what.comes_at());
    }
    Ok(judged)
}

/// Puts one more after those that are waited for.
fn push_waited(all: &mut Vec<Waited>, userdata: u64, what: Awaited) -> Result<(), AllocError>
    ensures { OnOk result (all.new.items ≡ all.old.items ++ record { userdata = userdata; what = what } ∷ []) }
{
    Ok(all.push(Waited { userdata, what })?)
}

/// What so many subscriptions from an address on wait for, in order: refused as the first that is refused.
pub fn all_waited<H: Host>(
    alloc: Global,
    host: &H,
    descriptors: &Descriptors,
    holdings: &GuestEnv,
    memory: &[u8],
    subscriptions: u32,
    count: u32,
) -> Result<Vec<Waited>, P1Error>
    requires owned { Owned (H.live host.now) (handles descriptors.now.slots) }
    ensures live { IfOk result (λ all. All (λ w. OfReading (λ file. contains (H.live host.now) file ≡ true) w.what)
        all.items) }
    ensures count { IfOk result (λ all. length all.items ≡ count) }
    ensures specified { IfOk result (λ all. all_waited holdings.now
        (guest_slots (H.model host.now).held descriptors.now.slots) memory.now subscriptions count
        ≡ Ok (map (waited_by (H.model host.now).held) all.items)) }
    ensures wants { IfErr result (λ e. (e ≡ Memory) ⊎ (Err e ≡ all_waited holdings.now
        (guest_slots (H.model host.now).held descriptors.now.slots) memory.now subscriptions count)) }
{
    let mut all = Vec::with_capacity(alloc, count as usize)?;
    for i in 0..count {
        let at = subscriptions + SUBSCRIPTION * i;
        let waited = waited_at(host, descriptors, holdings, memory, at)?;
        push_waited(&mut all, waited.userdata, waited.what)?;
    }
    Ok(all)
}

/// The size of the file that is read, if there is one.
fn size_of<H: Host>(host: &mut H, what: Awaited) -> Result<Option<u64>, P1Error>
    requires live { OfReading (λ file. contains (H.live host.old) file ≡ true) what }
    ensures cause { Causes (H.faults host.old) (H.faults host.new) result }
    ensures live { H.live host.new ≡ H.live host.old }
    ensures logged { H.lookups host.new ≡ H.lookups host.old }
    ensures from { IfErr result IsFromHost }
    ensures modelled { IsTrue H.modelled → Makes (Rose (H.faults host.old) (H.faults host.new)) (H.live host.old)
        (H.model host.old) (H.model host.new) (Sizes (nodes_in (awaited_by (H.model host.old).held what))) give
        (result_map_both option_to_list (λ e. e) result) }
{
    match what {
        Awaited::Clock { .. } => Ok(None),
        Awaited::Input => Ok(None),
        Awaited::Output => Ok(None),
        Awaited::FileToWrite => Ok(None),
        Awaited::FileToRead { file, .. } => {
            let metadata = host.stat(file)?;
            Ok(Some(metadata.size))
        }
    }
}

/// Puts a size after others, if there is one.
fn push_size(sizes: &mut Vec<u64>, size: Option<u64>) -> Result<(), AllocError>
    ensures { OnOk result (sizes.new.items ≡ sizes.old.items ++ option_to_list size) }
{
    match size {
        Some(size) => Ok(sizes.push(size)?),
        None => Ok(()),
    }
}

/// The sizes of the files that are read, in order: the memory for them is taken first.
pub fn sizes_of<H: Host>(
    host: &mut H,
    alloc: Global,
    waited: &[Waited],
) -> Result<Vec<u64>, P1Error>
    requires live { All (λ w. OfReading (λ file. contains (H.live host.old) file ≡ true) w.what) waited.now }
    ensures cause { Causes (H.faults host.old) (H.faults host.new) result }
    ensures live { H.live host.new ≡ H.live host.old }
    ensures logged { H.lookups host.new ≡ H.lookups host.old }

    // The specification, over every host and over a modelled one.
    ensures front { IsReplied (Sizes (nodes_read (map (waited_by (H.model host.old).held) waited.now))) give
        (result_map_both (λ sizes. sizes.items) (λ e. e) result) }
    ensures modelled { IsTrue H.modelled → Makes (Rose (H.faults host.old) (H.faults host.new)) (H.live host.old)
        (H.model host.old) (H.model host.new)
        (Sizes (nodes_read (map (waited_by (H.model host.old).held) waited.now))) give
        (result_map_both (λ sizes. sizes.items) (λ e. e) result) }
{
    let mut sizes = Vec::with_capacity(alloc, waited.len())?;
    for item in waited {
        let size = size_of(host, item.what)?;
        push_size(&mut sizes, size)?;
    }
    Ok(sizes)
}

/// For how many files the size is asked for.
fn sizes_asked(waited: &[Waited]) -> usize
    ensures count { result ≡ length (nodes_read waited.now) }
{
    let mut count = 0;
    for item in waited {
        count += item.what.sizes();
    }
    count
}

/// Whether a file is read.
pub fn reads_files(waited: &[Waited]) -> bool
    ensures { result ≡ not (length (nodes_read waited.now) == 0) }
{
    sizes_asked(waited) != 0
}

/// The size at a place, or 0 past the last.
#[tactic(auto, using(wasi_p1_model::proofs::Telling::size_there, wasi_p1_model::proofs::Telling::size_past))]
fn size_at(sizes: &[u64], place: usize) -> u64
    ensures { result ≡ first_size (drop place sizes.now) }
{
    if place < sizes.len() {
        return sizes[place];
    }
    0
}

/// Writes the event of a subscription that has come by a moment, where there is one, and gives the place after it.
fn put_event(memory: &mut [u8], at: usize, waited: Waited, size: u64, moment: u64) -> usize
    requires inside { IsInMemory memory.old at 32 }
    ensures next { result ≡ (if nat_le (comes_at waited.what) moment then at + 32 else at) }
    ensures written { memory.new ≡ (if nat_le (comes_at waited.what) moment
        then with_bytes memory.old at (event_bytes (event_of waited size)) else memory.old) }
{
    if waited.what.comes_at() > moment {
        return at;
    }
    write_bytes(memory, at, &waited.event(size).to_bytes());
    at + Event::SIZE
}

/// Writes an event of each subscription that has come by a moment, in order, from an address on, and gives how many
/// there are. The sizes are those of the files that are read.
fn put_events(memory: &mut [u8], at: u32, waited: &[Waited], sizes: &[u64], moment: u64) -> u64
    requires inside { IsInMemory memory.old at (32 * length waited.now) }
    ensures size { length memory.new ≡ length memory.old }
    ensures count { result ≡ length (events moment waited.now sizes.now) }
    ensures written { memory.new ≡ with_events memory.old at (events moment waited.now sizes.now) }
{
    let mut place = at as usize;
    let mut read = 0;
    for item in waited {
        let size = size_at(sizes, read);
        place = put_event(memory, place, *item, size, moment);
        read += item.what.sizes();
    }
    (place - at as usize) as u64 / Event::SIZE as u64
}

/// Sets the clocks, and tells what has come by the monotonic one, as `put_events` does. The answer is how many events
/// there are.
pub fn tell_events(
    holdings: &mut GuestEnv,
    memory: &mut [u8],
    at: u32,
    waited: &[Waited],
    sizes: &[u64],
    clocks: Clocks,
) -> Value
    requires inside { IsInMemory memory.old at (32 * length waited.now) }
    ensures size { length memory.new ≡ length memory.old }
    ensures clocks { holdings.new ≡ with_clocks holdings.old clocks }
    ensures count { result ≡ Number (length (events clocks.monotonic waited.now sizes.now)) }
    ensures written { memory.new ≡ with_events memory.old at (events clocks.monotonic waited.now sizes.now) }
{
    holdings.set_clocks(clocks);
    Value::Number(put_events(memory, at, waited, sizes, clocks.monotonic))
}

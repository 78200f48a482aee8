//! Descriptors that are closed, or given another number.
ghost use Rattle.std.specs.Prelude.{◌≡◌, ◌<◌, false, IsTrue, length, slice_get, slice_set, Some};
ghost use Rattle.wasi_host.specs.Provenance.{Nothing};
ghost use Rattle.wasi_p1_state.specs.Held.{HoldsHandles};
ghost use Rattle.wasi_p1_model.specs.Owners.{handles, Owns, SlotsTraced};
ghost use Rattle.wasi_p1_types.specs.Numbering.{passes_at, renumbered};
ghost use Rattle.wasi_p1_types.specs.Slots.{is_closed_slot};
ghost use Rattle.wasi_p1_types.specs.CallParts.{Stays};

use wasi_host::Host;
use wasi_p1_state::descriptors::Descriptors;
use wasi_p1_types::Slot;
use wasi_p2_calls::WasiFilesystemCtx;

/// Closes a number, and its handle. It can't fail, and takes no memory. `slot` is named by the clauses alone.
pub fn close_slot<H: Host>(
    fs: &mut WasiFilesystemCtx<H>,
    descriptors: &mut Descriptors,
    fd: u32,
    slot: Slot,
)
    requires is { slice_get descriptors.old.slots fd ≡ Some slot }
    requires in_use { is_closed_slot slot ≡ false }
    requires holds { HoldsHandles (H.live fs.old.host) (handles descriptors.old.slots) fs.old.preopens.items }
    ensures ctx { fs.new ≡ record fs.old { host = fs.new.host } }
    ensures faults { H.faults fs.new.host ≡ H.faults fs.old.host }
    ensures logged { H.lookups fs.new.host ≡ H.lookups fs.old.host }
    ensures slots { descriptors.new.slots ≡ slice_set descriptors.old.slots fd Slot.Closed }
    ensures max { descriptors.new.max ≡ descriptors.old.max }
    ensures owns { Owns (H.live fs.old.host) (H.live fs.new.host)
        (handles descriptors.old.slots) (handles descriptors.new.slots) }
    ensures provenance { SlotsTraced Nothing descriptors.old.slots descriptors.new.slots
        (H.lookups fs.old.host) (H.lookups fs.new.host) }
    ensures stays { IsTrue H.modelled → Stays (H.model fs.old.host) (H.model fs.new.host) descriptors.new.slots }
{
    descriptors.close(fs, fd);
}

/// Gives a descriptor the number of another, whose handle is closed. Equal numbers stay. It can't fail, and takes no
/// memory. `dropped` is named by the clauses alone.
pub fn renumber_slot<H: Host>(
    fs: &mut WasiFilesystemCtx<H>,
    descriptors: &mut Descriptors,
    from: u32,
    to: u32,
    dropped: Slot,
)
    requires from_within { from < length descriptors.old.slots }
    requires from_in_use { passes_at is_closed_slot descriptors.old.slots from ≡ false }
    requires is { slice_get descriptors.old.slots to ≡ Some dropped }
    requires in_use { is_closed_slot dropped ≡ false }
    requires holds { HoldsHandles (H.live fs.old.host) (handles descriptors.old.slots) fs.old.preopens.items }
    ensures ctx { fs.new ≡ record fs.old { host = fs.new.host } }
    ensures faults { H.faults fs.new.host ≡ H.faults fs.old.host }
    ensures logged { H.lookups fs.new.host ≡ H.lookups fs.old.host }
    ensures slots { descriptors.new.slots ≡ renumbered Slot.Closed descriptors.old.slots from to }
    ensures max { descriptors.new.max ≡ descriptors.old.max }
    ensures owns { Owns (H.live fs.old.host) (H.live fs.new.host)
        (handles descriptors.old.slots) (handles descriptors.new.slots) }
    ensures provenance { SlotsTraced Nothing descriptors.old.slots descriptors.new.slots
        (H.lookups fs.old.host) (H.lookups fs.new.host) }
    ensures stays { IsTrue H.modelled → Stays (H.model fs.old.host) (H.model fs.new.host) descriptors.new.slots }
{
    if from == to {
        return;
    }
    descriptors.renumber(fs, from, to);
}

//! What `path_open` makes: a descriptor of a node that a path names.
ghost use Rattle.std.specs.Prelude.{◌≡◌, ◌<◌, ◌≤◌, ◌+◌, IsTrue, slice_get, Ok, OnErr, Some, None};
ghost use Rattle.wasi_host.specs.HostLaws.{Rose};
ghost use Rattle.wasi_host.specs.Provenance.{Only, Nothing};
ghost use Rattle.wasi_p1_model.specs.CallTransition.{Causes};
ghost use Rattle.wasi_p1_state.specs.Held.{HoldsHandles};
ghost use Rattle.wasi_p1_model.specs.Owners.{handles, Owns, SlotsTraced, SlotsStay};
ghost use Rattle.wasi_p1_types.specs.Guest.{guest_slots};
ghost use Rattle.wasi_p1_types.specs.Request.{Path};
ghost use Rattle.wasi_fs.specs.Calls.{opens};
ghost use Rattle.wasi_fs.specs.OpenHow.{may_open, mode_of};
ghost use Rattle.wasi_p2_types.specs.FlagNames.{how_named};
ghost use Rattle.wasi_p1_types.specs.SpecParts.{opened_among};
ghost use Rattle.wasi_p1_types.specs.Numbering.{live_count};
ghost use Rattle.wasi_p1_types.specs.Slots.{is_closed_slot};
ghost use Rattle.wasi_p1_types.specs.CallParts.{open_directory_of, Refused, OpensInto, with_after, IsReplied};
ghost use Rattle.wasi_p1_state.specs.Viewed.{descriptor_under};

use wasi_fs::{Descriptor, Dir};
use wasi_host::Host;
use wasi_p1_state::descriptors::Descriptors;
use wasi_p1_types::P1Error;
use wasi_p1_types::open_with::OpenWith;
use wasi_p2_calls::WasiFilesystemCtx;

/// Opens a path into the descriptors, of which there may be one more, and gives the new one's number. The memory for it
/// is taken before the host is called.
#[tactic(auto, using(wasi_p1_model::proofs::Staying::all_stay))]
pub fn open_into<H: Host>(
    fs: &mut WasiFilesystemCtx<H>,
    descriptors: &mut Descriptors,
    fd: u32,
    dir: Dir,
    text: &str,
    with: OpenWith,
) -> Result<u64, P1Error>
    requires holds { HoldsHandles (H.live fs.old.host) (handles descriptors.old.slots) fs.old.preopens.items }
    requires stands { descriptor_under (slice_get descriptors.old.slots fd) ≡ Some (Descriptor.Dir dir) }
    requires fits { live_count is_closed_slot descriptors.old.slots + 1 ≤ descriptors.old.max }
    ensures ctx { fs.new ≡ record fs.old { host = fs.new.host } }
    ensures cause { Causes (H.faults fs.old.host) (H.faults fs.new.host) result }

    // The descriptors after it: a new one where it is answered, and else those that there were.
    ensures max { descriptors.new.max ≡ descriptors.old.max }
    ensures used { SlotsStay Nothing Nothing descriptors.old.slots descriptors.new.slots }
    ensures kept { OnErr result (descriptors.new.slots ≡ descriptors.old.slots) }
    ensures owns { Owns (H.live fs.old.host) (H.live fs.new.host)
        (handles descriptors.old.slots) (handles descriptors.new.slots) }
    ensures provenance { SlotsTraced (Only dir.dir) descriptors.old.slots descriptors.new.slots
        (H.lookups fs.old.host) (H.lookups fs.new.host) }

    // The specification, over every host and over a modelled one.
    ensures permit { Refused (may_open (how_named with.path_flags with.open_flags with.flags) dir.perms)
        (with_after result (guest_slots (H.model fs.old.host).held descriptors.new.slots)) fs.old.host fs.new.host }
    ensures front { may_open (how_named with.path_flags with.open_flags with.flags) dir.perms ≡ None → IsReplied
        (Path (opens ((H.model fs.old.host).held dir.dir).node text.now
        (how_named with.path_flags with.open_flags with.flags)))
        (opened_among (guest_slots (H.model fs.old.host).held descriptors.old.slots) dir.perms
        (mode_of (how_named with.path_flags with.open_flags with.flags)) with.modes)
        (with_after result (guest_slots (H.model fs.old.host).held descriptors.new.slots)) }
    ensures stays { IsTrue H.modelled → OnErr result
        (guest_slots (H.model fs.new.host).held descriptors.new.slots
        ≡ guest_slots (H.model fs.old.host).held descriptors.old.slots) }
    ensures modelled { IsTrue H.modelled → may_open (how_named with.path_flags with.open_flags with.flags) dir.perms ≡ None
        → OpensInto (Rose (H.faults fs.old.host) (H.faults fs.new.host))
        (H.model fs.old.host) (H.model fs.new.host)
        (open_directory_of (H.model fs.old.host).held dir) text.now
        (how_named with.path_flags with.open_flags with.flags) with.modes
        (guest_slots (H.model fs.old.host).held descriptors.old.slots)
        (guest_slots (H.model fs.new.host).held descriptors.new.slots) result }
{
    descriptors.reserve()?;
    let number = descriptors.open(fs, fd, &dir, text, with)?;
    Ok(number)
}

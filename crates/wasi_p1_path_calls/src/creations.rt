//! What the calls that make something do, a part at a time: a making is left, and it is counted.
ghost use Rattle.std.specs.Prelude.{◌≡◌, false, true, slice_get, IfErr, OnOk, Ok, Some};
ghost use Rattle.wasi_fs.specs.Calls.{may_do, may_link};
ghost use Rattle.wasi_fs.specs.OpenHow.{may_open};
ghost use Rattle.wasi_fs.specs.declared.perms.Act.TheVariants.{Make};
ghost use Rattle.wasi_host.specs.Provenance.{HasProvenance, Only, Nothing};
ghost use Rattle.wasi_p1_state.specs.Held.{HoldsHandles};
ghost use Rattle.wasi_p1_state.specs.Viewed.{descriptor_under, LoweredTo};
ghost use Rattle.wasi_p2_types.specs.FlagNames.{how_named};
ghost use Rattle.wasi_p1_types.specs.CallParts.{is_failure};
ghost use Rattle.wasi_p1_model.specs.CallTransition.{Causes};
ghost use Rattle.wasi_p1_model.specs.Owners.{handles};
ghost use Rattle.wasi_p1_types.specs.Quotas.{counted_making};
ghost use Rattle.wasi_p1_types.specs.Spending.{check_to_make, may_make, on_outcome};

use wasi_fs::{Act, Descriptor, Dir, FsPerms};
use wasi_guest::Errno;
use wasi_host::Host;
use wasi_p1_state::descriptors::Descriptors;
use wasi_p1_state::views::{EntryOp, below, raised};
use wasi_p1_types::open_with::OpenWith;
use wasi_p1_types::{GuestEnv, P1Error};
use wasi_p2_calls::WasiFilesystemCtx;
use wasi_paths::has_root;

/// Whether a directory may be made: Perm where making isn't permitted, and then Dquot where no making is left.
#[tactic(auto, unfolding(wasi_fs::specs::Calls::may_do))]
pub fn check_make(holdings: &GuestEnv, perms: FsPerms) -> Result<(), P1Error>
    ensures specified { result ≡ check_to_make true (may_do perms Make) holdings.now }
    ensures left { OnOk result (may_make holdings.now ≡ Ok tt) }
    ensures refusal { IfErr result (λ e. is_failure e ≡ false) }
{
    if !perms.permits(Act::Make) {
        return Err(P1Error::Errno(Errno::Perm));
    }
    holdings.check_making()
}

/// Whether a link of this text may be made: Perm where making isn't permitted, or the text has a root, and then Dquot
/// where no making is left.
#[tactic(auto, unfolding(wasi_fs::specs::Calls::may_link))]
pub fn check_link(holdings: &GuestEnv, perms: FsPerms, target: &str) -> Result<(), P1Error>
    ensures specified { result ≡ check_to_make true (may_link perms target.now) holdings.now }
    ensures left { OnOk result (may_make holdings.now ≡ Ok tt) }
    ensures refusal { IfErr result (λ e. is_failure e ≡ false) }
{
    if !perms.permits(Act::Make) || has_root(target) {
        return Err(P1Error::Errno(Errno::Perm));
    }
    holdings.check_making()
}

/// Whether this may be opened below a directory of these permissions: as `OpenWith::check` refuses, and then Dquot where
/// a missing file is made and no making is left.
pub fn check_open(holdings: &GuestEnv, perms: FsPerms, with: OpenWith) -> Result<(), P1Error>
    ensures specified { result ≡ check_to_make (how_named with.path_flags with.open_flags with.flags).create
        (may_open (how_named with.path_flags with.open_flags with.flags) perms) holdings.now }
    ensures refusal { IfErr result (λ e. is_failure e ≡ false) }
{
    with.check(perms)?;
    if !with.creates() {
        return Ok(());
    }
    holdings.check_making()
}

/// Makes a call that makes something below the directory of a number, as `below` does, and counts it, where a making is
/// left.
#[tactic(auto, using(wasi_p1_state::proofs::Raising::raised_causes))]
pub fn make_below<H: Host, C: EntryOp<H>>(
    fs: &mut WasiFilesystemCtx<H>,
    descriptors: &mut Descriptors,
    holdings: &mut GuestEnv,
    fd: u32,
    dir: &Dir,
    call: C,
) -> Result<C::Gives, P1Error>
    requires left { may_make holdings.old ≡ Ok tt }
    requires holds { HoldsHandles (H.live fs.old.host) (handles descriptors.old.slots) fs.old.preopens.items }
    requires stands { descriptor_under (slice_get descriptors.old.slots fd) ≡ Some (Descriptor.Dir dir.now) }
    requires fits { C.Fits call }
    ensures ctx { fs.new ≡ record fs.old { host = fs.new.host } }
    ensures same { descriptors.new ≡ descriptors.old }
    ensures counted { holdings.new ≡ on_outcome result (counted_making holdings.old) holdings.old }
    ensures cause { Causes (H.faults fs.old.host) (H.faults fs.new.host) result }
    ensures live { H.live fs.new.host ≡ H.live fs.old.host }
    ensures provenance { HasProvenance (Only dir.now.dir) Nothing Nothing (H.lookups fs.old.host) (H.lookups fs.new.host) }
    ensures did { LoweredTo C.shown (C.Did call fs.old.host fs.new.host dir.now) result }
{
    let made = raised(below(fs, descriptors, fd, dir, call));
    holdings.count_making(&made);
    made
}

//! The metadata of a node that a path names.
ghost use Rattle.std.specs.Prelude.{◌≡◌, ◌<◌, slice_get, Ok, IfOk, Some, None};
ghost use Rattle.wasi_host.specs.Provenance.{HasProvenance, Only, Nothing};
ghost use Rattle.wasi_p1_state.specs.Held.{HoldsHandles};
ghost use Rattle.wasi_p1_model.specs.Owners.{handles};
ghost use Rattle.wasi_resolve.specs.PathRequest.{meant_by};
ghost use Rattle.wasi_fs.specs.Calls.{looks, meant_as};
ghost use Rattle.wasi_p1_types.specs.Filestats.{stat_both, IsStated};
ghost use Rattle.wasi_p1_state.specs.Viewed.{descriptor_under, Lowered};
ghost use Rattle.wasi_p1_state.specs.ViewedStats.{viewed};
ghost use Rattle.wasi_p2_types.specs.FlagNames.{path_flags_named};
ghost use Rattle.wasi_p2_types.specs.FsErrors.{FsCause};
ghost use Rattle.wasi_p2_calls.specs.Views.{Performs};

use crate::entry_ops::{MetadataHashAt, StatAt};
use wasi_fs::{Descriptor, Dir};
use wasi_host::Host;
use wasi_p1_state::descriptors::Descriptors;
use wasi_p1_state::filestats::ViewedStat;
use wasi_p1_state::views::below;
use wasi_p2_calls::types::PathFlags;
use wasi_p2_calls::{FsResult, WasiFilesystemCtx};

/// The metadata of the node that a path names: the two answers of its directory, which make one record.
pub fn stat_both<H: Host>(
    fs: &mut WasiFilesystemCtx<H>,
    descriptors: &mut Descriptors,
    fd: u32,
    dir: &Dir,
    flags: PathFlags,
    text: &str,
) -> FsResult<ViewedStat>
    requires holds { HoldsHandles (H.live fs.old.host) (handles descriptors.old.slots) fs.old.preopens.items }
    requires stands { descriptor_under (slice_get descriptors.old.slots fd) ≡ Some (Descriptor.Dir dir.now) }
    ensures ctx { fs.new ≡ record fs.old { host = fs.new.host } }
    ensures same { descriptors.new ≡ descriptors.old }
    ensures cause { FsCause (H.faults fs.old.host) (H.faults fs.new.host) result }
    ensures live { H.live fs.new.host ≡ H.live fs.old.host }
    ensures provenance { HasProvenance (Only dir.now.dir) Nothing Nothing (H.lookups fs.old.host) (H.lookups fs.new.host) }
    ensures did { Lowered viewed (λ answer. IfOk answer IsStated × Performs H.Host fs.old.host fs.new.host None
        (meant_as stat_both (meant_by (H.model fs.old.host).tree
        (looks ((H.model fs.old.host).held dir.now.dir).node text.now (path_flags_named flags))))
        (λ both. both) answer) result }
{
    let stat = below(fs, descriptors, fd, dir, StatAt { flags, path: text })?;
    let hash = below(
        fs,
        descriptors,
        fd,
        dir,
        MetadataHashAt { flags, path: text },
    )?;
    Ok(ViewedStat { stat, hash })
}

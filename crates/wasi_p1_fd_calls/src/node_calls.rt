//! The calls of views about what a number refers to.
ghost use Rattle.std.specs.Prelude.{IsTrue, None, IfOk, IfErr};
ghost use Rattle.wasi_fs.specs.Calls.{handle_of, may_do, meant_as, perms_of, sets, stats, tells_flags, AnswersKnown, IsFlags, IsTyped, NotMemory};
ghost use Rattle.wasi_fs.specs.DescriptorStat.{descriptor_stat, IsStat};
ghost use Rattle.wasi_fs.specs.MetadataHash.{metadata_hash, IsHash};
ghost use Rattle.wasi_fs.specs.OpenFlags.{descriptor_flag_bits};
ghost use Rattle.wasi_fs.specs.declared.perms.Act.TheVariants.{Alter};
ghost use Rattle.wasi_p1_types.specs.SinceEpoch.{AreSinceEpoch};
ghost use Rattle.wasi_p2_types.specs.FlagNames.{descriptor_flags_told};
ghost use Rattle.wasi_p2_types.specs.Stats.{hash_named, stat_named, type_named};
ghost use Rattle.wasi_p2_calls.specs.Views.{Performs};

use wasi_host::Host;
use wasi_p1_state::views::NodeCall;
use wasi_p1_types::NewTimes;
use wasi_p1_types::wall_times::timestamp_of;
use wasi_p2_calls::types::{DescriptorFlags, DescriptorStat, DescriptorType, MetadataHashValue};
use wasi_p2_calls::{FsResult, WasiFilesystemCtxView};
use wasi_streams::Resource;

/// Sets the times of a node, of which none may be before the epoch.
#[derive(Clone, Copy)]
pub struct SetTimesOf {
    pub times: NewTimes,
}

impl<H: Host> NodeCall<H> for SetTimesOf {
    type Gives = ();

    type Lower = ();

    ghost shown = { λ unit. unit };

    ghost Did = { λ call old new d answer. IfErr answer NotMemory × Performs H.Host old new (may_do (perms_of d) Alter)
        (sets (H.model old).tree ((H.model old).held (handle_of d)).node call.times.atime call.times.mtime)
        (λ unit. unit) answer };

    ghost Fits = { λ call. AreSinceEpoch call.times };

    fn made(self, view: &mut WasiFilesystemCtxView<'_, H>, fd: Resource) -> FsResult<()> {
        let atim = timestamp_of(self.times.atime);
        let mtim = timestamp_of(self.times.mtime);
        view.set_times(fd, atim, mtim)
    }
}

/// The metadata of a node.
#[derive(Clone, Copy)]
pub struct StatOf;

impl<H: Host> NodeCall<H> for StatOf {
    type Gives = DescriptorStat;

    type Lower = wasi_fs::DescriptorStat;

    ghost shown = { stat_named };

    ghost Did = { λ _ old new d answer. IfErr answer NotMemory × IfOk answer IsStat × Performs H.Host old new None
        (meant_as descriptor_stat (stats (H.model old).tree ((H.model old).held (handle_of d)).node))
        (λ stat. stat) answer };

    fn made(
        self,
        view: &mut WasiFilesystemCtxView<'_, H>,
        fd: Resource,
    ) -> FsResult<DescriptorStat> {
        view.stat(fd)
    }
}

/// The hash of a node.
#[derive(Clone, Copy)]
pub struct MetadataHashOf;

impl<H: Host> NodeCall<H> for MetadataHashOf {
    type Gives = MetadataHashValue;

    type Lower = wasi_fs::MetadataHashValue;

    ghost shown = { hash_named };

    ghost Did = { λ _ old new d answer. IfErr answer NotMemory × IfOk answer IsHash × Performs H.Host old new None
        (meant_as metadata_hash (stats (H.model old).tree ((H.model old).held (handle_of d)).node))
        (λ hash. hash) answer };

    fn made(
        self,
        view: &mut WasiFilesystemCtxView<'_, H>,
        fd: Resource,
    ) -> FsResult<MetadataHashValue> {
        view.metadata_hash(fd)
    }
}

/// What a descriptor is for.
#[derive(Clone, Copy)]
pub struct FlagsOf;

impl<H: Host> NodeCall<H> for FlagsOf {
    type Gives = DescriptorFlags;

    type Lower = wasi_fs::DescriptorFlags;

    ghost shown = { descriptor_flags_told };

    ghost Did = { λ _ old new d answer. IfErr answer NotMemory × IfOk answer (IsFlags d) × Performs H.Host old new None
        (tells_flags (H.model old).tree ((H.model old).held (handle_of d)).node d) descriptor_flag_bits answer };

    fn made(
        self,
        view: &mut WasiFilesystemCtxView<'_, H>,
        fd: Resource,
    ) -> FsResult<DescriptorFlags> {
        view.get_flags(fd)
    }
}

/// What kind of node a descriptor refers to.
#[derive(Clone, Copy)]
pub struct TypeOf;

impl<H: Host> NodeCall<H> for TypeOf {
    type Gives = DescriptorType;

    type Lower = wasi_fs::DescriptorType;

    ghost shown = { type_named };

    ghost Did = { λ _ old new d answer. IfErr answer NotMemory × AnswersKnown d answer old new
        × (IsTrue H.modelled → IsTyped (H.live old) (H.model old) (H.model new) d answer) };

    fn made(
        self,
        view: &mut WasiFilesystemCtxView<'_, H>,
        fd: Resource,
    ) -> FsResult<DescriptorType> {
        view.get_type(fd)
    }
}

//! The calls of a descriptor that look at its node.
ghost use Rattle.std.specs.Prelude.{◌≡◌, true, IsTrue, Ok, IfOk, IfErr};
ghost use Rattle.std.specs.FinSet.{contains};
ghost use Rattle.wasi_host.specs.HostCall as calls;
ghost use Rattle.wasi_host.specs.HostLaws.{HasCause};
ghost use Rattle.wasi_resolve.specs.Resolved.{Resolved};
ghost use Rattle.wasi_fs.specs.Calls.{asks_at, change_bit, flags_of, handle_of, meant_as, open_mode_of, stats, tells_flags, AnswersKnown, Compares, IsFlags, IsTyped, NotMemory};
ghost use Rattle.wasi_fs.specs.DescriptorStat.{descriptor_stat, IsStat};
ghost use Rattle.wasi_fs.specs.MetadataHash.{metadata_hash, IsHash};
ghost use Rattle.wasi_fs.specs.OpenFlags.{descriptor_flag_bits};

use crate::{
    Descriptor, DescriptorFlags, DescriptorStat, DescriptorType, MetadataHashValue, OpenMode,
};
use bitflags::Flags;
use wasi_host::{Host, HostError, Metadata, SyncFlags};

/// Each call looks at what the descriptor's handle refers to, which is to be live, and makes no lookup of a name. It
/// takes no memory.
impl Descriptor {
    /// The metadata of the node: the crate's `stat`.
    pub fn stat<H: Host>(&self, host: &mut H) -> Result<DescriptorStat, HostError>
        requires live { contains (H.live host.old) (handle_of self.now) ≡ true }
        ensures cause { HasCause (H.faults host.old) (H.faults host.new) result }
        ensures no_memory { IfErr result NotMemory }
        ensures live { H.live host.new ≡ H.live host.old }
        ensures logged { H.lookups host.new ≡ H.lookups host.old }
        ensures of { IfOk result IsStat }
        ensures modelled { IsTrue H.modelled → Resolved (H.live host.old) (H.model host.old) (H.model host.new)
            (meant_as descriptor_stat
            (stats (H.model host.old).tree ((H.model host.old).held (handle_of self.now)).node))
            (λ stat. stat) result }
    {
        let metadata = self.metadata(host)?;
        Ok(DescriptorStat::new(&metadata))
    }

    /// What kind of node it is: the crate's `get_type`. A directory's is known without the host.
    pub fn get_type<H: Host>(&self, host: &mut H) -> Result<DescriptorType, HostError>
        requires live { contains (H.live host.old) (handle_of self.now) ≡ true }
        ensures cause { HasCause (H.faults host.old) (H.faults host.new) result }
        ensures no_memory { IfErr result NotMemory }
        ensures live { H.live host.new ≡ H.live host.old }
        ensures logged { H.lookups host.new ≡ H.lookups host.old }
        ensures known { AnswersKnown self.now result host.old host.new }
        ensures modelled { IsTrue H.modelled → IsTyped (H.live host.old) (H.model host.old) (H.model host.new) self.now
            result }
    {
        if let Descriptor::Dir(_) = self {
            return Ok(DescriptorType::Directory);
        }
        let metadata = self.metadata(host)?;
        Ok(DescriptorType::from(metadata.file_type()))
    }

    /// The hash of the node: the crate's `metadata_hash`.
    pub fn metadata_hash<H: Host>(&self, host: &mut H) -> Result<MetadataHashValue, HostError>
        requires live { contains (H.live host.old) (handle_of self.now) ≡ true }
        ensures cause { HasCause (H.faults host.old) (H.faults host.new) result }
        ensures no_memory { IfErr result NotMemory }
        ensures live { H.live host.new ≡ H.live host.old }
        ensures logged { H.lookups host.new ≡ H.lookups host.old }
        ensures of { IfOk result IsHash }
        ensures modelled { IsTrue H.modelled → Resolved (H.live host.old) (H.model host.old) (H.model host.new)
            (meant_as metadata_hash
            (stats (H.model host.old).tree ((H.model host.old).held (handle_of self.now)).node))
            (λ hash. hash) result }
    {
        let metadata = self.metadata(host)?;
        Ok(MetadataHashValue::new(&metadata))
    }

    /// Whether two descriptors refer to one node: the crate's `is_same_object`, which compares device and inode.
    pub fn is_same_object<H: Host>(
        &self,
        host: &mut H,
        other: &Descriptor,
    ) -> Result<bool, HostError>
        requires live { contains (H.live host.old) (handle_of self.now) ≡ true }
        requires other_live { contains (H.live host.old) (handle_of other.now) ≡ true }
        ensures cause { HasCause (H.faults host.old) (H.faults host.new) result }
        ensures no_memory { IfErr result NotMemory }
        ensures live { H.live host.new ≡ H.live host.old }
        ensures logged { H.lookups host.new ≡ H.lookups host.old }
        ensures modelled { IsTrue H.modelled → Compares (H.live host.old) (H.model host.old) (H.model host.new)
            ((H.model host.old).held (handle_of self.now)).node
            ((H.model host.old).held (handle_of other.now)).node result }
    {
        let here = self.metadata(host)?;
        let there = other.metadata(host)?;
        Ok(here.ino() == there.ino())
    }

    /// What the descriptor is for: READ where it was opened for reading; where for writing, WRITE of a file, and
    /// MUTATE_DIRECTORY of a directory; and the integrity for which its handle waits, as the host tells it. The crate's
    /// `get_flags`, which tells the last two of these for one another.
    pub fn get_flags<H: Host>(&self, host: &mut H) -> Result<DescriptorFlags, HostError>
        requires live { contains (H.live host.old) (handle_of self.now) ≡ true }
        ensures cause { HasCause (H.faults host.old) (H.faults host.new) result }
        ensures no_memory { IfErr result NotMemory }
        ensures live { H.live host.new ≡ H.live host.old }
        ensures logged { H.lookups host.new ≡ H.lookups host.old }
        ensures of { IfOk result (IsFlags self.now) }
        ensures modelled { IsTrue H.modelled → Resolved (H.live host.old) (H.model host.old) (H.model host.new)
            (tells_flags (H.model host.old).tree ((H.model host.old).held (handle_of self.now)).node self.now)
            descriptor_flag_bits result }
    {
        let modes = self.modes(host)?;
        Ok(self.flags_with(modes))
    }

    /// The flags of a descriptor whose handle has these modes.
    fn flags_with(&self, modes: SyncFlags) -> DescriptorFlags
        ensures bits { descriptor_flag_bits result ≡ flags_of self.now modes }
    {
        let mut flags = DescriptorFlags::empty();
        flags.set(
            DescriptorFlags::READ,
            self.open_mode().contains(OpenMode::READ),
        );
        flags.set(
            self.change_flag(),
            self.open_mode().contains(OpenMode::WRITE),
        );
        flags.set(DescriptorFlags::FILE_INTEGRITY_SYNC, modes.sync);
        flags.set(DescriptorFlags::DATA_INTEGRITY_SYNC, modes.dsync);
        flags.set(DescriptorFlags::REQUESTED_WRITE_SYNC, modes.rsync);
        flags
    }

    /// The flag of what may be changed.
    fn change_flag(&self) -> DescriptorFlags
        ensures bit { descriptor_flag_bits result ≡ change_bit self.now }
    {
        match self {
            Descriptor::File(_) => DescriptorFlags::WRITE,
            Descriptor::Dir(_) => DescriptorFlags::MUTATE_DIRECTORY,
        }
    }

    fn open_mode(&self) -> OpenMode
        ensures { result ≡ open_mode_of self.now }
    {
        match self {
            Descriptor::File(file) => file.open_mode,
            Descriptor::Dir(dir) => dir.open_mode,
        }
    }

    /// The synchronized modes of the handle.
    fn modes<H: Host>(&self, host: &mut H) -> Result<SyncFlags, HostError>
        requires live { contains (H.live host.old) (handle_of self.now) ≡ true }
        ensures cause { HasCause (H.faults host.old) (H.faults host.new) result }
        ensures no_memory { IfErr result NotMemory }
        ensures live { H.live host.new ≡ H.live host.old }
        ensures logged { H.lookups host.new ≡ H.lookups host.old }
        ensures modelled { IsTrue H.modelled → Resolved (H.live host.old) (H.model host.old) (H.model host.new)
            (asks_at (H.model host.old).tree (calls.Flags ((H.model host.old).held (handle_of self.now)).node)
            ((H.model host.old).held (handle_of self.now)).node) (λ modes. modes) result }
    {
        Ok(host.flags(self.handle())?)
    }

    /// What the host says of the node.
    fn metadata<H: Host>(&self, host: &mut H) -> Result<Metadata, HostError>
        requires live { contains (H.live host.old) (handle_of self.now) ≡ true }
        ensures cause { HasCause (H.faults host.old) (H.faults host.new) result }
        ensures no_memory { IfErr result NotMemory }
        ensures live { H.live host.new ≡ H.live host.old }
        ensures logged { H.lookups host.new ≡ H.lookups host.old }
        ensures modelled { IsTrue H.modelled → Resolved (H.live host.old) (H.model host.old) (H.model host.new)
            (stats (H.model host.old).tree ((H.model host.old).held (handle_of self.now)).node)
            (λ metadata. metadata) result }
    {
        Ok(host.stat(self.handle())?)
    }
}

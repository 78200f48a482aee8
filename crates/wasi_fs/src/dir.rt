//! The calls of an open directory: what its permissions permit, then what the resolver does.
ghost use Rattle.std.specs.Prelude.{◌≡◌, ◌≤◌, ◌<◌, ℕ, true, false, IsTrue, IfOk, IfErr, None, length};
ghost use Rattle.std.specs.Result.{result_map_both};
ghost use Rattle.std.specs.FinSet.{contains};
ghost use Rattle.std.specs.String.{string_bytes};
ghost use Rattle.wasi_paths.specs.Parts.{has_root};
ghost use Rattle.wasi_host.specs.HostLaws.{HasCause};
ghost use Rattle.wasi_host.specs.Provenance.{HasProvenance, Only, Nothing};
ghost use Rattle.wasi_host.specs.Numbers.{longest_link};
ghost use Rattle.wasi_host.specs.declared.errors.ErrorCode.TheVariants as codes;
ghost use Rattle.wasi_host.specs.declared.open_handle.OpenHandle.{OpenHandle};
ghost use Rattle.wasi_resolve.specs.EntryOps.{CreateDir, RemoveFile, RemoveDir, Symlink, ReadLink};
ghost use Rattle.wasi_resolve.specs.Finding.{is_directory_kind};
ghost use Rattle.wasi_resolve.specs.PathRequest.{AtEntry, as_asked, meant_by};
ghost use Rattle.wasi_resolve.specs.Resolved.{Resolved};
ghost use Rattle.wasi_fs.specs.Calls.{may_do, may_link, Refuses, handle_of, perms_of, open_mode_of, opened_of, IsAsked, LiveOpened, GotOpened, opens, looks, meant_as};
ghost use Rattle.wasi_fs.specs.DescriptorStat.{descriptor_stat, IsStat};
ghost use Rattle.wasi_fs.specs.MetadataHash.{metadata_hash, IsHash};
ghost use Rattle.wasi_fs.specs.OpenHow.{how_of, may_open, mode_of};
ghost use Rattle.wasi_fs.specs.declared.perms.Act.TheVariants.{Make, Alter};

use crate::open_how::{OpenHow, follow_symlinks};
use crate::{
    Act, Descriptor, DescriptorFlags, DescriptorStat, Dir, File, MetadataHashValue, OpenFlags,
    PathFlags,
};
use bitflags::Flags;
use std::alloc::Global;
use wasi_host::{ErrorCode, FileType, Handle, Host, HostError, Metadata};

/// Each call begins from this directory's handle, which is to be live, and leaves what is live but for the handle that
/// it answers. A call that isn't permitted asks the host nothing. Memory is taken as the walk takes it; where it is
/// wanted, the tree is as it was.
impl Dir {
    /// Opens a path below this directory: the crate's `open_at`. The new descriptor has this directory's permissions,
    /// and as its mode the reading and writing that the flags ask for. CREATE makes a missing file, and with EXCLUSIVE
    /// refuses a name that is there; TRUNCATE cuts a file to no bytes; both open for writing. READ and WRITE open for
    /// reading and writing, and without WRITE for reading too. EXCLUSIVE alone and MUTATE_DIRECTORY ask for nothing.
    /// Refusals, in this order: Unsupported of a sync flag; Invalid of DIRECTORY beside another of its flags;
    /// NotPermitted of CREATE, WRITE and TRUNCATE under read-only permissions, and of TRUNCATE under append-only ones;
    /// those of the resolver's `open`; NotDirectory where DIRECTORY is asked for and none was opened. Where the look at
    /// the new handle fails it is closed.
    pub fn open_at<H: Host>(
        &self,
        alloc: Global,
        host: &mut H,
        path_flags: PathFlags,
        path: &str,
        oflags: OpenFlags,
        flags: DescriptorFlags,
    ) -> Result<Descriptor, HostError>
        requires live { contains (H.live host.old) self.now.dir ≡ true }
        ensures cause { HasCause (H.faults host.old) (H.faults host.new) result }
        ensures live { LiveOpened (H.live host.old) result (H.live host.new) }
        ensures provenance { HasProvenance (Only self.now.dir) Nothing (GotOpened result) (H.lookups host.old) (H.lookups host.new) }
        ensures perms { IfOk result (λ descriptor. perms_of descriptor ≡ self.now.perms) }
        ensures mode { IfOk result (λ descriptor. open_mode_of descriptor ≡ mode_of (how_of path_flags oflags flags)) }
        ensures kind { IfOk result (IsAsked (how_of path_flags oflags flags).directory) }
        ensures permit { Refuses (may_open (how_of path_flags oflags flags) self.now.perms) result host.old host.new }
        ensures modelled { IsTrue H.modelled → may_open (how_of path_flags oflags flags) self.now.perms ≡ None
            → Resolved (H.live host.old) (H.model host.old) (H.model host.new)
            (meant_by (H.model host.old).tree
            (opens ((H.model host.old).held self.now.dir).node path.now (how_of path_flags oflags flags)))
            (opened_of (H.model host.new).held) result }
    {
        let how = OpenHow::of(path_flags, oflags, flags);
        how.check(self.perms)?;
        self.open_by(alloc, host, path, how)
    }

    /// Makes an empty directory: the crate's `create_directory_at`. Refusals: NotPermitted under read-only permissions,
    /// then those of the resolver's `create_dir`.
    pub fn create_directory_at<H: Host>(
        &self,
        alloc: Global,
        host: &mut H,
        path: &str,
    ) -> Result<(), HostError>
        requires live { contains (H.live host.old) self.now.dir ≡ true }
        ensures cause { HasCause (H.faults host.old) (H.faults host.new) result }
        ensures live { H.live host.new ≡ H.live host.old }
        ensures provenance { HasProvenance (Only self.now.dir) Nothing Nothing (H.lookups host.old) (H.lookups host.new) }
        ensures permit { Refuses (may_do self.now.perms Make) result host.old host.new }
        ensures modelled { IsTrue H.modelled → may_do self.now.perms Make ≡ None
            → Resolved (H.live host.old) (H.model host.old) (H.model host.new)
            (meant_by (H.model host.old).tree (AtEntry ((H.model host.old).held self.now.dir).node path.now CreateDir))
            (λ unit. unit) result }
    {
        self.perms.check(Act::Make)?;
        wasi_resolve::create_dir(alloc, host, self.dir, path)
    }

    /// Drops an empty directory: the crate's `remove_directory_at`. Refusals: NotPermitted unless the permissions are
    /// read-write, then those of the resolver's `remove_dir`.
    pub fn remove_directory_at<H: Host>(
        &self,
        alloc: Global,
        host: &mut H,
        path: &str,
    ) -> Result<(), HostError>
        requires live { contains (H.live host.old) self.now.dir ≡ true }
        ensures cause { HasCause (H.faults host.old) (H.faults host.new) result }
        ensures live { H.live host.new ≡ H.live host.old }
        ensures provenance { HasProvenance (Only self.now.dir) Nothing Nothing (H.lookups host.old) (H.lookups host.new) }
        ensures permit { Refuses (may_do self.now.perms Alter) result host.old host.new }
        ensures modelled { IsTrue H.modelled → may_do self.now.perms Alter ≡ None
            → Resolved (H.live host.old) (H.model host.old) (H.model host.new)
            (meant_by (H.model host.old).tree (AtEntry ((H.model host.old).held self.now.dir).node path.now RemoveDir))
            (λ unit. unit) result }
    {
        self.perms.check(Act::Alter)?;
        wasi_resolve::remove_dir(alloc, host, self.dir, path)
    }

    /// Drops the name of a file or link: the crate's `unlink_file_at`. Refusals: NotPermitted unless the permissions
    /// are read-write, then those of the resolver's `remove_file`.
    pub fn unlink_file_at<H: Host>(
        &self,
        alloc: Global,
        host: &mut H,
        path: &str,
    ) -> Result<(), HostError>
        requires live { contains (H.live host.old) self.now.dir ≡ true }
        ensures cause { HasCause (H.faults host.old) (H.faults host.new) result }
        ensures live { H.live host.new ≡ H.live host.old }
        ensures provenance { HasProvenance (Only self.now.dir) Nothing Nothing (H.lookups host.old) (H.lookups host.new) }
        ensures permit { Refuses (may_do self.now.perms Alter) result host.old host.new }
        ensures modelled { IsTrue H.modelled → may_do self.now.perms Alter ≡ None
            → Resolved (H.live host.old) (H.model host.old) (H.model host.new)
            (meant_by (H.model host.old).tree (AtEntry ((H.model host.old).held self.now.dir).node path.now RemoveFile))
            (λ unit. unit) result }
    {
        self.perms.check(Act::Alter)?;
        wasi_resolve::remove_file(alloc, host, self.dir, path)
    }

    /// Makes a link of the text `src_path` under `dest_path`: the crate's `symlink_at`. Refusals: NotPermitted under
    /// read-only permissions, and of a text with a root; then those of the resolver's `symlink`.
    #[tactic(auto, unfolding(crate::specs::Calls::may_do, crate::specs::Calls::may_link))]
    pub fn symlink_at<H: Host>(
        &self,
        alloc: Global,
        host: &mut H,
        src_path: &str,
        dest_path: &str,
    ) -> Result<(), HostError>
        requires live { contains (H.live host.old) self.now.dir ≡ true }
        ensures cause { HasCause (H.faults host.old) (H.faults host.new) result }
        ensures live { H.live host.new ≡ H.live host.old }
        ensures provenance { HasProvenance (Only self.now.dir) Nothing Nothing (H.lookups host.old) (H.lookups host.new) }
        ensures permit { Refuses (may_link self.now.perms src_path.now) result host.old host.new }
        ensures modelled { IsTrue H.modelled → may_link self.now.perms src_path.now ≡ None
            → Resolved (H.live host.old) (H.model host.old) (H.model host.new)
            (meant_by (H.model host.old).tree
            (AtEntry ((H.model host.old).held self.now.dir).node dest_path.now (Symlink src_path.now)))
            (λ unit. unit) result }
    {
        self.perms.check(Act::Make)?;
        wasi_resolve::symlink(alloc, host, src_path, self.dir, dest_path)
    }

    /// The text of a link: the crate's `readlink_at`. Refusals: those of the resolver's `read_link`, NotPermitted of a
    /// text with a root among them.
    pub fn readlink_at<H: Host>(
        &self,
        alloc: Global,
        host: &mut H,
        path: &str,
    ) -> Result<String, HostError>
        requires live { contains (H.live host.old) self.now.dir ≡ true }
        ensures cause { HasCause (H.faults host.old) (H.faults host.new) result }
        ensures live { H.live host.new ≡ H.live host.old }
        ensures provenance { HasProvenance (Only self.now.dir) Nothing Nothing (H.lookups host.old) (H.lookups host.new) }
        ensures some { IfOk result (λ text. 0 < length (string_bytes text)) }
        ensures most { IfOk result (λ text. length (string_bytes text) ≤ longest_link) }
        ensures unrooted { IfOk result (λ text. has_root (string_bytes text) ≡ false) }
        ensures modelled { IsTrue H.modelled → Resolved (H.live host.old) (H.model host.old) (H.model host.new)
            (meant_by (H.model host.old).tree (AtEntry ((H.model host.old).held self.now.dir).node path.now ReadLink))
            (λ text. string_bytes text) result }
    {
        wasi_resolve::read_link(alloc, host, self.dir, path)
    }

    /// The metadata of the node that a path names, where SYMLINK_FOLLOW follows a link under its last name: the crate's
    /// `stat_at`. Refusals: those of the resolver's `stat`.
    pub fn stat_at<H: Host>(
        &self,
        alloc: Global,
        host: &mut H,
        path_flags: PathFlags,
        path: &str,
    ) -> Result<DescriptorStat, HostError>
        requires live { contains (H.live host.old) self.now.dir ≡ true }
        ensures cause { HasCause (H.faults host.old) (H.faults host.new) result }
        ensures live { H.live host.new ≡ H.live host.old }
        ensures provenance { HasProvenance (Only self.now.dir) Nothing Nothing (H.lookups host.old) (H.lookups host.new) }
        ensures of { IfOk result IsStat }
        ensures modelled { IsTrue H.modelled → Resolved (H.live host.old) (H.model host.old) (H.model host.new)
            (meant_as descriptor_stat (meant_by (H.model host.old).tree
            (looks ((H.model host.old).held self.now.dir).node path.now path_flags)))
            (λ stat. stat) result }
    {
        let metadata = self.look_at(alloc, host, path_flags, path)?;
        Ok(DescriptorStat::new(&metadata))
    }

    /// The hash of the node that a path names, found as in `stat_at`: the crate's `metadata_hash_at`. Refusals: those
    /// of the resolver's `stat`.
    pub fn metadata_hash_at<H: Host>(
        &self,
        alloc: Global,
        host: &mut H,
        path_flags: PathFlags,
        path: &str,
    ) -> Result<MetadataHashValue, HostError>
        requires live { contains (H.live host.old) self.now.dir ≡ true }
        ensures cause { HasCause (H.faults host.old) (H.faults host.new) result }
        ensures live { H.live host.new ≡ H.live host.old }
        ensures provenance { HasProvenance (Only self.now.dir) Nothing Nothing (H.lookups host.old) (H.lookups host.new) }
        ensures of { IfOk result IsHash }
        ensures modelled { IsTrue H.modelled → Resolved (H.live host.old) (H.model host.old) (H.model host.new)
            (meant_as metadata_hash (meant_by (H.model host.old).tree
            (looks ((H.model host.old).held self.now.dir).node path.now path_flags)))
            (λ hash. hash) result }
    {
        let metadata = self.look_at(alloc, host, path_flags, path)?;
        Ok(MetadataHashValue::new(&metadata))
    }

    /// The metadata of the node that a path names, where SYMLINK_FOLLOW follows a link under its last name.
    fn look_at<H: Host>(
        &self,
        alloc: Global,
        host: &mut H,
        path_flags: PathFlags,
        path: &str,
    ) -> Result<Metadata, HostError>
        requires live { contains (H.live host.old) self.now.dir ≡ true }
        ensures cause { HasCause (H.faults host.old) (H.faults host.new) result }
        ensures live { H.live host.new ≡ H.live host.old }
        ensures provenance { HasProvenance (Only self.now.dir) Nothing Nothing (H.lookups host.old) (H.lookups host.new) }
        ensures modelled { IsTrue H.modelled → Resolved (H.live host.old) (H.model host.old) (H.model host.new)
            (meant_by (H.model host.old).tree
            (looks ((H.model host.old).held self.now.dir).node path.now path_flags))
            (λ metadata. metadata) result }
    {
        let follow = follow_symlinks(path_flags.contains(PathFlags::SYMLINK_FOLLOW));
        wasi_resolve::stat(alloc, host, self.dir, path, follow)
    }

    /// Opens a path by an open that is permitted. Where the host fails at the new handle's metadata, or the handle is
    /// no directory's and should be, it is closed again.
    #[tactic(auto, using(wasi_host::proofs::Chain::live_rules))]
    fn open_by<H: Host>(
        &self,
        alloc: Global,
        host: &mut H,
        path: &str,
        how: OpenHow,
    ) -> Result<Descriptor, HostError>
        requires live { contains (H.live host.old) self.now.dir ≡ true }
        requires may { may_open how self.now.perms ≡ None }
        ensures cause { HasCause (H.faults host.old) (H.faults host.new) result }
        ensures live { LiveOpened (H.live host.old) result (H.live host.new) }
        ensures provenance { HasProvenance (Only self.now.dir) Nothing (GotOpened result) (H.lookups host.old) (H.lookups host.new) }
        ensures perms { IfOk result (λ descriptor. perms_of descriptor ≡ self.now.perms) }
        ensures mode { IfOk result (λ descriptor. open_mode_of descriptor ≡ mode_of how) }
        ensures kind { IfOk result (IsAsked how.directory) }
        ensures modelled { IsTrue H.modelled → Resolved (H.live host.old) (H.model host.old) (H.model host.new)
            (meant_by (H.model host.old).tree (opens ((H.model host.old).held self.now.dir).node path.now how))
            (opened_of (H.model host.new).held) result }
    {
        let handle = wasi_resolve::open(alloc, host, self.dir, path, &how.options())?;
        let metadata = match host.stat(handle) {
            Ok(metadata) => metadata,
            Err(code) => {
                host.close(handle);
                return Err(HostError::Code(code));
            }
        };
        match self.descriptor_for(handle, metadata.kind, how) {
            Ok(descriptor) => Ok(descriptor),
            Err(code) => {
                host.close(handle);
                Err(HostError::Code(code))
            }
        }
    }

    /// The descriptor of what was opened below this directory; NotDirectory where a directory is asked for and it is
    /// none.
    fn descriptor_for(
        &self,
        handle: Handle,
        kind: FileType,
        how: OpenHow,
    ) -> Result<Descriptor, ErrorCode>
        ensures handle { IfOk result (λ descriptor. handle_of descriptor ≡ handle) }
        ensures perms { IfOk result (λ descriptor. perms_of descriptor ≡ self.now.perms) }
        ensures mode { IfOk result (λ descriptor. open_mode_of descriptor ≡ mode_of how) }
        ensures kind { IfOk result (IsAsked how.directory) }
        ensures refusal { IfErr result (λ code. code ≡ codes.NotDirectory) }
        ensures asked { (held : ℕ → OpenHandle) → result_map_both (opened_of held) (λ code. code) result
            ≡ as_asked how.directory (record { held = held handle; is_dir = is_directory_kind kind }) }
    {
        if kind == FileType::Directory {
            return Ok(Descriptor::Dir(Dir::new(handle, self.perms, how.mode())));
        }
        if how.directory() {
            return Err(ErrorCode::NotDirectory);
        }
        Ok(Descriptor::File(File::new(handle, self.perms, how.mode())))
    }
}

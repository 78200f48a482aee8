//! How a path is opened or looked at.
ghost use Rattle.std.specs.Prelude.{◌≡◌, false, not, ◌&&◌, ◌||◌, IfOk, IfErr};
ghost use Rattle.std.specs.Result.{result_map_both};
ghost use Rattle.wasi_fs.specs.OpenHow.{is_followed, may_open};
ghost use Rattle.wasi_fs.specs.Perms.{permits};
ghost use Rattle.wasi_fs.specs.declared.perms.Act.TheVariants.{Make, Append, Alter};
ghost use Rattle.wasi_fs.specs.OpenFlags.{includes};
ghost use Rattle.wasi_guest.specs.FlagSets.{lookupflag_bits, oflag_bits, fdflag_bits, right_bits};
ghost use Rattle.wasi_guest.specs.Flags as flag;
ghost use Rattle.wasi_guest.specs.Flags.{has};
ghost use Rattle.wasi_p1_types.specs.RawFlags.{modes_in, modes_under, open_how, follow_asked};
ghost use Rattle.wasi_p1_types.specs.CallParts.{is_failure};
ghost use Rattle.wasi_p1_types.specs.SpecParts.{permit};
ghost use Rattle.wasi_p2_types.specs.FlagBits.{path_set, open_set, descriptor_set};
ghost use Rattle.wasi_p2_types.specs.FlagNames.{path_flags_named};
ghost use Rattle.wasi_p2_types.specs.FlagNames.{how_named};

use crate::{FileModes, INVALID, P1Error};
use bitflags::Flags;
use wasi_fs::{Act, FsPerms};
use wasi_guest::{Errno, FdFlags, LookupFlags, OFlags, Rights};
use wasi_p2_types::{DescriptorFlags, OpenFlags, PathFlags};

/// What the flags and rights of `path_open` ask for, as the flags of an open below a directory.
#[derive(Clone, Copy, Debug, PartialEq, Eq)]
pub struct OpenWith {
    pub path_flags: PathFlags,
    pub open_flags: OpenFlags,
    pub flags: DescriptorFlags,
    pub modes: FileModes,
}

impl OpenWith {
    /// What these raw numbers ask for. Refusal: Inval where one of them has a bit that preview1 doesn't know. The other
    /// rights ask for nothing; append and nonblock are the modes of a file.
    #[tactic(auto, unfolding(crate::specs::RawFlags::open_how))]
    pub fn of(
        dirflags: u32,
        oflags: u32,
        base: u64,
        inheriting: u64,
        fdflags: u32,
    ) -> Result<OpenWith, P1Error>
        ensures specified { result_map_both (λ with. how_named with.path_flags with.open_flags with.flags) (λ e. e) result
            ≡ open_how dirflags oflags base inheriting fdflags }
        ensures modes { IfOk result (λ with. with.modes ≡ modes_in fdflags) }
        ensures refusal { IfErr result (λ e. is_failure e ≡ false) }
    {
        let lookups = LookupFlags::from_bits(dirflags).ok_or(INVALID)?;
        let oflags = OFlags::from_bits(oflags).ok_or(INVALID)?;
        let rights = Rights::from_bits(base).ok_or(INVALID)?;
        Rights::from_bits(inheriting).ok_or(INVALID)?;
        let fdflags = FdFlags::from_bits(fdflags).ok_or(INVALID)?;
        Ok(OpenWith {
            path_flags: path_flags(lookups),
            open_flags: open_flags(oflags),
            flags: descriptor_flags(rights, fdflags),
            modes: file_modes(fdflags),
        })
    }

    /// The same below a directory of these permissions: a file is always appended to where only additions are permitted.
    pub fn under(self, perms: FsPerms) -> OpenWith
        ensures { result ≡ record self { modes = modes_under perms self.modes } }
    {
        OpenWith {
            modes: FileModes {
                append: self.modes.append || perms.is_append_only(),
                nonblock: self.modes.nonblock,
            },
            ..self
        }
    }

    /// Whether a missing file is made.
    pub fn creates(self) -> bool
        ensures { result ≡ (how_named self.path_flags self.open_flags self.flags).create }
    {
        self.open_flags.contains(OpenFlags::CREATE)
    }

    /// Whether this may be asked of a directory of these permissions, as `wasi_fs` decides it. Refusals, in this order:
    /// Notsup of a flag of integrity; Inval of DIRECTORY beside another of its flags; Perm of creat, trunc and FD_WRITE
    /// under read-only permissions, and of trunc under append-only ones.
    #[tactic(auto, unfolding(wasi_fs::specs::OpenHow::may_open))]
    pub fn check(self, perms: FsPerms) -> Result<(), P1Error>
        ensures specified { result ≡ permit (may_open (how_named self.path_flags self.open_flags self.flags) perms) }
        ensures refusal { IfErr result (λ e. is_failure e ≡ false) }
    {
        if self.is_synchronized() {
            return Err(P1Error::Errno(Errno::Notsup));
        }
        if self.is_mixed() {
            return Err(INVALID);
        }
        if self.is_unpermitted(perms) {
            return Err(P1Error::Errno(Errno::Perm));
        }
        Ok(())
    }

    /// Whether a flag of integrity is asked for.
    fn is_synchronized(self) -> bool
        ensures { result ≡ (includes (descriptor_set self.flags) 4 || includes (descriptor_set self.flags) 8
            || includes (descriptor_set self.flags) 16) }
    {
        self.flags.contains(DescriptorFlags::FILE_INTEGRITY_SYNC)
            || self.flags.contains(DescriptorFlags::DATA_INTEGRITY_SYNC)
            || self.flags.contains(DescriptorFlags::REQUESTED_WRITE_SYNC)
    }

    /// Whether a directory is asked for, and beside it a flag that makes or cuts a file.
    fn is_mixed(self) -> bool
        ensures { result ≡ (includes (open_set self.open_flags) 2 && (includes (open_set self.open_flags) 1
            || includes (open_set self.open_flags) 4 || includes (open_set self.open_flags) 8)) }
    {
        self.open_flags.contains(OpenFlags::DIRECTORY)
            && (self.open_flags.contains(OpenFlags::CREATE)
                || self.open_flags.contains(OpenFlags::EXCLUSIVE)
                || self.open_flags.contains(OpenFlags::TRUNCATE))
    }

    /// Whether it creates, writes or cuts where that isn't permitted.
    fn is_unpermitted(self, perms: FsPerms) -> bool
        ensures { result ≡ (includes (open_set self.open_flags) 1 && not (permits perms Make))
            || (includes (descriptor_set self.flags) 2 && not (permits perms Append))
            || (includes (open_set self.open_flags) 8 && not (permits perms Alter)) }
    {
        (self.open_flags.contains(OpenFlags::CREATE) && !perms.permits(Act::Make))
            || (self.flags.contains(DescriptorFlags::WRITE) && !perms.permits(Act::Append))
            || (self.open_flags.contains(OpenFlags::TRUNCATE) && !perms.permits(Act::Alter))
    }
}

/// How a path is looked up by a raw number. Refusal: Inval where it has a bit that preview1 doesn't know.
#[tactic(auto, unfolding(crate::specs::RawFlags::follow_asked))]
pub fn path_flags_of(flags: u32) -> Result<PathFlags, P1Error>
    ensures specified { result_map_both (λ flags. is_followed (path_flags_named flags)) (λ e. e) result ≡ follow_asked flags }
    ensures refusal { IfErr result (λ e. is_failure e ≡ false) }
{
    let lookups = LookupFlags::from_bits(flags).ok_or(INVALID)?;
    Ok(path_flags(lookups))
}

/// The modes of the same names.
pub fn file_modes(fdflags: FdFlags) -> FileModes
    ensures modes { result ≡ modes_in (fdflag_bits fdflags) }
{
    FileModes {
        append: fdflags.contains(FdFlags::APPEND),
        nonblock: fdflags.contains(FdFlags::NONBLOCK),
    }
}

/// The flag of the same name.
fn path_flags(lookups: LookupFlags) -> PathFlags
    ensures bit { includes (path_set result) 1 ≡ has (lookupflag_bits lookups) flag.symlink_follow }
    ensures follow { is_followed (path_flags_named result) ≡ has (lookupflag_bits lookups) flag.symlink_follow }
{
    let mut flags = PathFlags::empty();
    flags.set(
        PathFlags::SYMLINK_FOLLOW,
        lookups.contains(LookupFlags::SYMLINK_FOLLOW),
    );
    flags
}

/// The flags of the same names.
fn open_flags(oflags: OFlags) -> OpenFlags
    ensures create { includes (open_set result) 1 ≡ has (oflag_bits oflags) flag.creat }
    ensures directory { includes (open_set result) 2
        ≡ has (oflag_bits oflags) flag.directory }
    ensures exclusive { includes (open_set result) 4
        ≡ has (oflag_bits oflags) flag.excl }
    ensures truncate { includes (open_set result) 8
        ≡ has (oflag_bits oflags) flag.trunc }
{
    let mut flags = OpenFlags::empty();
    flags.set(OpenFlags::CREATE, oflags.contains(OFlags::CREAT));
    flags.set(OpenFlags::DIRECTORY, oflags.contains(OFlags::DIRECTORY));
    flags.set(OpenFlags::EXCLUSIVE, oflags.contains(OFlags::EXCL));
    flags.set(OpenFlags::TRUNCATE, oflags.contains(OFlags::TRUNC));
    flags
}

/// The flags that the rights to read and write, and the flags of integrity, ask for.
fn descriptor_flags(rights: Rights, fdflags: FdFlags) -> DescriptorFlags
    ensures read { includes (descriptor_set result) 1
        ≡ has (right_bits rights) flag.fd_read }
    ensures write { includes (descriptor_set result) 2
        ≡ has (right_bits rights) flag.fd_write }
    ensures sync { includes (descriptor_set result) 4
        ≡ has (fdflag_bits fdflags) flag.sync }
    ensures dsync { includes (descriptor_set result) 8
        ≡ has (fdflag_bits fdflags) flag.dsync }
    ensures rsync { includes (descriptor_set result) 16
        ≡ has (fdflag_bits fdflags) flag.rsync }
{
    let mut flags = DescriptorFlags::empty();
    flags.set(DescriptorFlags::READ, rights.contains(Rights::FD_READ));
    flags.set(DescriptorFlags::WRITE, rights.contains(Rights::FD_WRITE));
    flags.set(
        DescriptorFlags::FILE_INTEGRITY_SYNC,
        fdflags.contains(FdFlags::SYNC),
    );
    flags.set(
        DescriptorFlags::DATA_INTEGRITY_SYNC,
        fdflags.contains(FdFlags::DSYNC),
    );
    flags.set(
        DescriptorFlags::REQUESTED_WRITE_SYNC,
        fdflags.contains(FdFlags::RSYNC),
    );
    flags
}

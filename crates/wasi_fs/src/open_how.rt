//! How a path is opened.
ghost use Rattle.std.specs.Prelude.{◌≡◌, false, IfErr};
ghost use Rattle.std.specs.Result.{result_err};
ghost use Rattle.wasi_fs.specs.OpenHow.{how_of, may_open, is_unpermitted, is_io, follow_of, reads, writes, options_of, mode_of};

use crate::{Act, DescriptorFlags, FsPerms, OpenFlags, OpenMode, PathFlags};
use bitflags::Flags;
use std::marker::Model;
use wasi_host::{ErrorCode, FollowSymlinks, OpenOptions};

/// What the three flag sets of an open ask for, by the names of their flags; `sync` is any of the three flags of
/// integrity. MUTATE_DIRECTORY asks for nothing. Contracts see the record of what is asked for.
#[derive(Clone, Copy)]
pub(crate) struct OpenHow {
    follow: bool,
    create: bool,
    directory: bool,
    exclusive: bool,
    truncate: bool,
    read: bool,
    write: bool,
    sync: bool,
}

impl Model for OpenHow {
    ghost use Rattle.wasi_fs.specs.OpenHow.{OpenHow};

    ghost Value = { OpenHow };

    ghost view = { λ a. record {
      follow = a.follow;
      create = a.create;
      directory = a.directory;
      exclusive = a.exclusive;
      truncate = a.truncate;
      read = a.read;
      write = a.write;
      sync = a.sync;
    } };

    ghost inverse = { λ how. record {
      follow = how.follow;
      create = how.create;
      directory = how.directory;
      exclusive = how.exclusive;
      truncate = how.truncate;
      read = how.read;
      write = how.write;
      sync = how.sync;
    } };
}

/// Whether a link under the last name is followed, as a host's option.
pub(crate) fn follow_symlinks(follow: bool) -> FollowSymlinks
    ensures follow { result ≡ follow_of follow }
{
    if follow {
        FollowSymlinks::Yes
    } else {
        FollowSymlinks::No
    }
}

impl OpenHow {
    /// What these sets ask for.
    pub(crate) fn of(
        path_flags: PathFlags,
        open_flags: OpenFlags,
        flags: DescriptorFlags,
    ) -> OpenHow
        ensures how { result ≡ how_of path_flags open_flags flags }
    {
        OpenHow {
            follow: path_flags.contains(PathFlags::SYMLINK_FOLLOW),
            create: open_flags.contains(OpenFlags::CREATE),
            directory: open_flags.contains(OpenFlags::DIRECTORY),
            exclusive: open_flags.contains(OpenFlags::EXCLUSIVE),
            truncate: open_flags.contains(OpenFlags::TRUNCATE),
            read: flags.contains(DescriptorFlags::READ),
            write: flags.contains(DescriptorFlags::WRITE),
            sync: flags.contains(DescriptorFlags::FILE_INTEGRITY_SYNC)
                || flags.contains(DescriptorFlags::DATA_INTEGRITY_SYNC)
                || flags.contains(DescriptorFlags::REQUESTED_WRITE_SYNC),
        }
    }

    /// Whether this may be asked of a directory of these permissions. Refusals, in this order: Unsupported of a sync
    /// flag; Invalid of DIRECTORY beside another of its flags; NotPermitted of CREATE, WRITE and TRUNCATE where only
    /// reading is permitted, and of TRUNCATE where only adding is.
    #[tactic(auto, unfolding(crate::specs::OpenHow::may_open))]
    pub(crate) fn check(&self, perms: FsPerms) -> Result<(), ErrorCode>
        ensures specified { result_err result ≡ may_open self.now perms }
        ensures code { IfErr result (λ code. is_io code ≡ false) }
    {
        if self.sync {
            return Err(ErrorCode::Unsupported);
        }
        if self.directory && (self.create || self.exclusive || self.truncate) {
            return Err(ErrorCode::Invalid);
        }
        if self.is_unpermitted(perms) {
            return Err(ErrorCode::NotPermitted);
        }
        Ok(())
    }

    /// Whether it creates, writes or truncates where that isn't permitted.
    fn is_unpermitted(&self, perms: FsPerms) -> bool
        ensures { result ≡ is_unpermitted self.now perms }
    {
        (self.create && !perms.permits(Act::Make))
            || (self.write && !perms.permits(Act::Append))
            || (self.truncate && !perms.permits(Act::Alter))
    }

    /// Whether only a directory is to be opened.
    pub(crate) fn directory(&self) -> bool
        ensures test { result ≡ self.now.directory }
    {
        self.directory
    }

    /// Whether it is opened for reading: as asked, and where WRITE isn't.
    fn reads(&self) -> bool
        ensures test { result ≡ reads self.now }
    {
        self.read || !self.write
    }

    /// Whether it is opened for writing: as asked, and where a file is made or cut.
    fn writes(&self) -> bool
        ensures test { result ≡ writes self.now }
    {
        self.write || self.create || self.truncate
    }

    /// The options of the path's open. That a directory is asked for is none of them: it is looked at after the open.
    pub(crate) fn options(&self) -> OpenOptions
        ensures options { result ≡ options_of self.now }
    {
        let mut options = OpenOptions::new();
        options
            .read(self.reads())
            .write(self.writes())
            .truncate(self.truncate)
            .create(self.create && !self.exclusive)
            .create_new(self.create && self.exclusive)
            .follow(follow_symlinks(self.follow));
        options
    }

    /// What the new descriptor may be used for: the reading and writing that its options ask for.
    pub(crate) fn mode(&self) -> OpenMode
        ensures mode { result ≡ mode_of self.now }
    {
        let mut mode = OpenMode::empty();
        mode.set(OpenMode::READ, self.reads());
        mode.set(OpenMode::WRITE, self.writes());
        mode
    }
}

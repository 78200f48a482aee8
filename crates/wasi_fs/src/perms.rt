//! Permissions of a directory that a guest is given, and of all that is opened below it.
ghost use Rattle.std.specs.Prelude.{◌≡◌, ◌⊎◌, IfErr};
ghost use Rattle.std.specs.Result.{result_err};
ghost use Rattle.wasi_host.specs.declared.errors.ErrorCode.TheVariants as codes;
ghost use Rattle.wasi_fs.specs.Calls.{may_do, may_add_name, may_rename};
ghost use Rattle.wasi_fs.specs.Perms.{permits, is_read_only, is_append_only, differ};

use wasi_host::ErrorCode;

/// What may be done below a directory: the crate's `FsPerms` of `filesystem.rs`, and one more.
#[derive(Clone, Copy, Debug, PartialEq, Eq)]
pub enum FsPerms {
    /// Nothing that changes the tree.
    ReadOnly,
    ReadWrite,
    /// Only what adds to the tree: whatever is called, what was there stays. The crate has no such permissions.
    AppendOnly,
}

/// What a call does to the tree.
#[derive(Clone, Copy, Debug, PartialEq, Eq)]
pub enum Act {
    /// A file, a directory or a link is made, or a file or link gets a further name.
    Make,
    /// Bytes are put at a file's end.
    Append,
    /// Anything else: a name moves or goes, bytes are overwritten or cut, times are set.
    Alter,
}

impl FsPerms {
    /// Whether all changes are refused.
    pub fn write_not_permitted(&self) -> bool
        ensures test { result ≡ is_read_only self.now }
    {
        matches!(self, FsPerms::ReadOnly)
    }

    /// Whether only additions are permitted.
    pub fn is_append_only(&self) -> bool
        ensures test { result ≡ is_append_only self.now }
    {
        matches!(self, FsPerms::AppendOnly)
    }

    /// Whether an act is permitted: under `ReadWrite` each, under `ReadOnly` none, and under `AppendOnly` those that add.
    pub fn permits(&self, act: Act) -> bool
        ensures test { result ≡ permits self.now act }
    {
        match (self, act) {
            (FsPerms::ReadOnly, _) => false,
            (FsPerms::ReadWrite, _) => true,
            (FsPerms::AppendOnly, Act::Make) => true,
            (FsPerms::AppendOnly, Act::Append) => true,
            (FsPerms::AppendOnly, Act::Alter) => false,
        }
    }

    /// NotPermitted of an act that isn't permitted.
    #[tactic(auto, unfolding(crate::specs::Calls::may_do))]
    pub(crate) fn check(self, act: Act) -> Result<(), ErrorCode>
        ensures specified { result_err result ≡ may_do self act }
        ensures code { IfErr result (λ code. code ≡ codes.NotPermitted) }
    {
        if !self.permits(act) {
            return Err(ErrorCode::NotPermitted);
        }
        Ok(())
    }

    /// Whether a node in a directory of these permissions may get a name in one of those: NotPermitted where making isn't
    /// permitted in either, Invalid where a link is to be followed, and then NotPermitted where the two differ.
    #[tactic(auto, unfolding(crate::specs::Calls::may_do, crate::specs::Calls::may_add_name))]
    pub(crate) fn check_add_name(self, new: FsPerms, follow: bool) -> Result<(), ErrorCode>
        ensures specified { result_err result ≡ may_add_name self new follow }
        ensures code { IfErr result (λ code. (code ≡ codes.NotPermitted) ⊎ (code ≡ codes.Invalid)) }
    {
        self.check(Act::Make)?;
        new.check(Act::Make)?;
        if follow {
            return Err(ErrorCode::Invalid);
        }
        if self.differs_from(new) {
            return Err(ErrorCode::NotPermitted);
        }
        Ok(())
    }

    /// Whether a name in a directory of these permissions may move to one of those: NotPermitted where altering isn't
    /// permitted in either, and where the two differ.
    #[tactic(auto, unfolding(crate::specs::Calls::may_do, crate::specs::Calls::may_rename))]
    pub(crate) fn check_rename(self, new: FsPerms) -> Result<(), ErrorCode>
        ensures specified { result_err result ≡ may_rename self new }
        ensures code { IfErr result (λ code. code ≡ codes.NotPermitted) }
    {
        self.check(Act::Alter)?;
        new.check(Act::Alter)?;
        if self.differs_from(new) {
            return Err(ErrorCode::NotPermitted);
        }
        Ok(())
    }

    fn differs_from(self, other: FsPerms) -> bool
        ensures { result ≡ differ self other }
    {
        match (self, other) {
            (FsPerms::ReadOnly, FsPerms::ReadOnly) => false,
            (FsPerms::AppendOnly, FsPerms::AppendOnly) => false,
            (FsPerms::ReadWrite, FsPerms::ReadWrite) => false,
            _ => true,
        }
    }
}

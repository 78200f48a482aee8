//! The trait of hosts, with its laws.
ghost use Rattle.std.specs.Prelude.{◌≡◌, ◌≤◌, ◌<◌, ◌^◌, ◌-◌, ℕ, Bool, true, IsTrue, Ok, IfOk, OnOk, OnErr, List, All, length, map, take, drop};
ghost use Rattle.std.specs.Ordering.{nat_cmp};
ghost use Rattle.std.specs.String.{string_bytes};
ghost use Rattle.std.specs.FinSet.{FinSet, contains, remove};
ghost use Rattle.wasi_paths.specs.Name.{name_bytes};
ghost use Rattle.wasi_paths.specs.Text.{is_entry_name};
ghost use Rattle.wasi_host.specs.HostCall.{OpenAt, StatAt, ReadLinkAt, MakeDirAt, SymlinkAt, LinkAt, RenameAt, UnlinkAt, RemoveDirAt, TimesAt, Access, Stat, SetTimes, Pread, Pwrite, Append, SetSize, Sync, Advise, Flags, ListDir, Dup, Close};
ghost use Rattle.wasi_host.specs.Answer.{entry_of};
ghost use Rattle.wasi_host.specs.HostLaws.{HostModel, AllHeld, FaultCount, HasCause, Rose, LiveGot, RefinesCall, Logged, LoggedGot, one_looked, both_looked, hosted, answered};
ghost use Rattle.wasi_host.specs.FurtherLaws.{FollowsPlan, Fates, Finds, Follow, Others, Leaves, TakesEffect, MayTakeEffect};
ghost use Rattle.wasi_host.specs.Numbers.{longest_link};
ghost use Rattle.wasi_host.specs.Tree.{Tree};
ghost use Rattle.wasi_host.specs.declared.lookup.Lookup.{Lookup};
ghost use Rattle.wasi_host.specs.Time.{HasTimes};

use crate::{
    Advice, DirEntry, ErrorCode, Handle, HostError, LookKind, Metadata, OpenOptions, SyncFlags,
    SystemTime,
};
use std::alloc::Global;
use wasi_paths::Name;

/// A tree of files behind handles, which is all that the crates above ever see of one.
///
/// Each method has laws that hold for every host (`cause`, `live`, `logged` and what is said of the answer alone) and,
/// where the host is modelled, the law `modelled`: every code but `Io` comes exactly by the first rule of the host's
/// table that holds, Ok has exactly the rule's answer and makes the rule's one step, a refused call leaves the tree,
/// and the call touches the nodes that it accesses and no others. `Io` comes only where the count of faults rose, and
/// may hide a step.
///
/// The condition of every method is that its handles are live.
///
/// Each method that takes a name refuses NotDirectory before all else where its handle is no directory's, of two the
/// old one first; no caller in this workspace asks so. The rules for a name, first in each of these methods but where
/// it says so: Invalid of a NUL in the name, NameTooLong of more than 255 bytes, Access where the directory may not be
/// searched. The rules and their order are this project's own, in the manner of Linux, and claim nothing of a kernel.
pub trait Host {
    /// How often the host has failed by itself, which never falls and stands still at 2^64 - 1, and how often it fails
    /// at most, which no call changes.
    ghost faults: { Self → FaultCount };

    /// The live handles.
    ghost live: { Self → FinSet nat_cmp };

    /// The lookups so far. The methods that take a name add to them, one for each name, and `list` and `dup` one each;
    /// no others do. A call that answers `Io` or out of memory adds as many or none, and of one that would have got a
    /// handle the lookup may have that handle, which wasn't live before.
    ghost lookups: { Self → List Lookup };

    /// Whether the host is modelled: contracts know its tree.
    ghost modelled: { Bool };

    /// The tree, what each live handle refers to, and the touched nodes. It says nothing where the host isn't
    /// modelled.
    ghost model: { Self → HostModel };

    /// Whether the model says which of the host's calls fail by themselves.
    ghost fails_modelled: { Bool };

    /// What becomes of the calls to come but `dup` and `close`, of the next one at 0. Where it is modelled, a call
    /// answers `Io` exactly where it fails. Where what calls find is modelled too, one that isn't made leaves all as it
    /// was, and of one that is made and its answer lost, that very call is made: it does what its rule says, unless it
    /// takes memory and memory ran out.
    ghost fails: { Self → Fates };

    /// Whether the model says what the host's calls find and leave, be it that others change its tree between them.
    ghost found_modelled: { Bool };

    /// What others do to the tree before the calls to come but `dup` and `close`, before the next one at 0. Where it is
    /// modelled, each such call goes on by one, whatever it answers, and `dup` and `close` by none.
    ghost others: { Self → Others };

    /// The tree that the next call but `dup` and `close` finds: what was left, once others have done what they do
    /// before it.
    ghost found: { Self → Tree };

    /// The tree as the last call left it, what each live handle refers to, and the touched nodes. Where it is modelled,
    /// a call does to `found` and `left` what it does to the model of a modelled host, unless it fails before
    /// it is made; `dup` and `close` find what is left, and leave `found`.
    ghost left: { Self → HostModel };

    /// Opens a name in a directory. A link is never followed. The handle has the read and write of the options, or is
    /// for the path alone. A missing name is made where the options ask to create, and a file is cut to no bytes where
    /// they ask to truncate it. Refusals: the rules of `open_at` in the host's table.
    fn open_at(
        &mut self,
        start: Handle,
        name: Name<'_>,
        options: &OpenOptions,
    ) -> Result<Handle, HostError>
        requires { contains (live self.old) start ≡ true }
        ensures cause { HasCause (faults self.old) (faults self.new) result }
        ensures live { LiveGot (live self.old) result (live self.new) }
        ensures logged { LoggedGot (live self.old) (lookups self.old) LookKind.Open start result (lookups self.new) }
        ensures modelled { IsTrue modelled → RefinesCall (live self.old) (live self.new) (model self.old) (model self.new)
            (OpenAt ((model self.old).held start).node (name_bytes name.entry) options.now)
            (model self.new).held result }
        ensures fails { IsTrue fails_modelled → FollowsPlan (fails self.old) (fails self.new) result }
        ensures others { IsTrue found_modelled → Follow (others self.old) (others self.new) }
        ensures found { IsTrue found_modelled → Finds (live self.old) (live self.new) (left self.old) (found self.old) (left self.new)
            (OpenAt ((left self.old).held start).node (name_bytes name.entry) options.now)
            (left self.new).held result }
        ensures made { IsTrue fails_modelled → IsTrue found_modelled → Leaves (fails self.old 0) (left self.old) (found self.old)
            (left self.new) (MayTakeEffect (OpenAt ((left self.old).held start).node (name_bytes name.entry) options.now)) };

    /// The metadata of the node under a name in a directory. A link is not followed: the metadata are its own.
    /// Refusals: the rules for a name; NoEntry where it is missing.
    fn stat_at(&mut self, start: Handle, name: Name<'_>) -> Result<Metadata, HostError>
        requires { contains (live self.old) start ≡ true }
        ensures cause { HasCause (faults self.old) (faults self.new) result }
        ensures live { live self.new ≡ live self.old }
        ensures logged { Logged (lookups self.old) (one_looked LookKind.Stat start) result (lookups self.new) }
        ensures times { IfOk result HasTimes }
        ensures modelled { IsTrue modelled → RefinesCall (live self.old) (live self.new) (model self.old) (model self.new)
            (StatAt ((model self.old).held start).node (name_bytes name.entry))
            (λ metadata. metadata) result }
        ensures fails { IsTrue fails_modelled → FollowsPlan (fails self.old) (fails self.new) result }
        ensures others { IsTrue found_modelled → Follow (others self.old) (others self.new) }
        ensures found { IsTrue found_modelled → Finds (live self.old) (live self.new) (left self.old) (found self.old) (left self.new)
            (StatAt ((left self.old).held start).node (name_bytes name.entry))
            (λ metadata. metadata) result }
        ensures made { IsTrue fails_modelled → IsTrue found_modelled → Leaves (fails self.old 0) (left self.old) (found self.old)
            (left self.new) (MayTakeEffect (StatAt ((left self.old).held start).node (name_bytes name.entry))) };

    /// The text of the link under a name in a directory, which has 1 to 4,095 bytes. Refusals: the rules for a name;
    /// NoEntry where it is missing; Invalid where it is no link.
    fn read_link_at(
        &mut self,
        alloc: Global,
        start: Handle,
        name: Name<'_>,
    ) -> Result<String, HostError>
        requires { contains (live self.old) start ≡ true }
        ensures cause { HasCause (faults self.old) (faults self.new) result }
        ensures live { live self.new ≡ live self.old }
        ensures logged { Logged (lookups self.old) (one_looked LookKind.ReadLink start) result (lookups self.new) }
        ensures some { IfOk result (λ text. 0 < length (string_bytes text)) }
        ensures most { IfOk result (λ text. length (string_bytes text) ≤ longest_link) }
        ensures modelled { IsTrue modelled → RefinesCall (live self.old) (live self.new) (model self.old) (model self.new)
            (ReadLinkAt ((model self.old).held start).node (name_bytes name.entry))
            (λ text. string_bytes text) result }
        ensures fails { IsTrue fails_modelled → FollowsPlan (fails self.old) (fails self.new) result }
        ensures others { IsTrue found_modelled → Follow (others self.old) (others self.new) }
        ensures found { IsTrue found_modelled → Finds (live self.old) (live self.new) (left self.old) (found self.old) (left self.new)
            (ReadLinkAt ((left self.old).held start).node (name_bytes name.entry))
            (λ text. string_bytes text) result }
        ensures made { IsTrue fails_modelled → IsTrue found_modelled → Leaves (fails self.old 0) (left self.old) (found self.old)
            (left self.new) (MayTakeEffect (ReadLinkAt ((left self.old).held start).node (name_bytes name.entry))) };

    /// Makes an empty directory under a name in a directory. It may be read, written and searched, and has zero times.
    /// Refusals: the rules for a name; Exist where the name is there, `.` among them; NoEntry where the directory is
    /// removed; Access where it may not be written; InsufficientSpace where the tree has as many nodes as it may.
    fn make_dir_at(&mut self, start: Handle, name: Name<'_>) -> Result<(), HostError>
        requires { contains (live self.old) start ≡ true }
        ensures cause { HasCause (faults self.old) (faults self.new) result }
        ensures live { live self.new ≡ live self.old }
        ensures logged { Logged (lookups self.old) (one_looked LookKind.Make start) result (lookups self.new) }
        ensures modelled { IsTrue modelled → RefinesCall (live self.old) (live self.new) (model self.old) (model self.new)
            (MakeDirAt ((model self.old).held start).node (name_bytes name.entry))
            (λ unit. unit) result }
        ensures fails { IsTrue fails_modelled → FollowsPlan (fails self.old) (fails self.new) result }
        ensures others { IsTrue found_modelled → Follow (others self.old) (others self.new) }
        ensures found { IsTrue found_modelled → Finds (live self.old) (live self.new) (left self.old) (found self.old) (left self.new)
            (MakeDirAt ((left self.old).held start).node (name_bytes name.entry))
            (λ unit. unit) result }
        ensures made { IsTrue fails_modelled → IsTrue found_modelled → Leaves (fails self.old 0) (left self.old) (found self.old)
            (left self.new) (MayTakeEffect (MakeDirAt ((left self.old).held start).node (name_bytes name.entry))) };

    /// Makes a link of this text under a name in a directory; nothing need be where the text leads. Refusals, before
    /// the rules for a name: NoEntry where the text is empty, Invalid where it has a NUL, NameTooLong where it has more
    /// than 4,095 bytes; then those of `make_dir_at`.
    fn symlink_at(&mut self, target: &str, start: Handle, name: Name<'_>) -> Result<(), HostError>
        requires { contains (live self.old) start ≡ true }
        ensures cause { HasCause (faults self.old) (faults self.new) result }
        ensures live { live self.new ≡ live self.old }
        ensures logged { Logged (lookups self.old) (one_looked LookKind.MakeLink start) result (lookups self.new) }
        ensures modelled { IsTrue modelled → RefinesCall (live self.old) (live self.new) (model self.old) (model self.new)
            (SymlinkAt target.now ((model self.old).held start).node (name_bytes name.entry))
            (λ unit. unit) result }
        ensures fails { IsTrue fails_modelled → FollowsPlan (fails self.old) (fails self.new) result }
        ensures others { IsTrue found_modelled → Follow (others self.old) (others self.new) }
        ensures found { IsTrue found_modelled → Finds (live self.old) (live self.new) (left self.old) (found self.old) (left self.new)
            (SymlinkAt target.now ((left self.old).held start).node (name_bytes name.entry))
            (λ unit. unit) result }
        ensures made { IsTrue fails_modelled → IsTrue found_modelled → Leaves (fails self.old 0) (left self.old) (found self.old)
            (left self.new) (MayTakeEffect (SymlinkAt target.now ((left self.old).held start).node (name_bytes name.entry))) };

    /// Gives the file or link under the old name in a directory a new name in another, which may be the same; a link is
    /// not followed, as with POSIX's `linkat` without its flag. Refusals: the rules of `link_at` in the host's table,
    /// those for the two names first, the old one before the new one.
    fn link_at(
        &mut self,
        old: Handle,
        old_name: Name<'_>,
        new: Handle,
        new_name: Name<'_>,
    ) -> Result<(), HostError>
        requires old { contains (live self.old) old ≡ true }
        requires new { contains (live self.old) new ≡ true }
        ensures cause { HasCause (faults self.old) (faults self.new) result }
        ensures live { live self.new ≡ live self.old }
        ensures logged { Logged (lookups self.old) (both_looked LookKind.Link old new) result (lookups self.new) }
        ensures modelled { IsTrue modelled → RefinesCall (live self.old) (live self.new) (model self.old) (model self.new)
            (LinkAt ((model self.old).held old).node (name_bytes old_name.entry)
            ((model self.old).held new).node (name_bytes new_name.entry))
            (λ unit. unit) result }
        ensures fails { IsTrue fails_modelled → FollowsPlan (fails self.old) (fails self.new) result }
        ensures others { IsTrue found_modelled → Follow (others self.old) (others self.new) }
        ensures found { IsTrue found_modelled → Finds (live self.old) (live self.new) (left self.old) (found self.old) (left self.new)
            (LinkAt ((left self.old).held old).node (name_bytes old_name.entry)
            ((left self.old).held new).node (name_bytes new_name.entry))
            (λ unit. unit) result }
        ensures made { IsTrue fails_modelled → IsTrue found_modelled → Leaves (fails self.old 0) (left self.old) (found self.old)
            (left self.new) (MayTakeEffect (LinkAt ((left self.old).held old).node (name_bytes old_name.entry)
            ((left self.old).held new).node (name_bytes new_name.entry))) };

    /// Moves what the old name in a directory holds to the new name in another, which may be the same; a link is not
    /// followed. What the new name held loses it: a file or link has one name fewer, and stays with none too; a
    /// directory is removed. Where both names hold one node, both stay, as with POSIX's `rename`. `requires_dir` asks
    /// for a directory, as a slash at the end of a path does. Refusals: the rules of `rename_at` in the host's table,
    /// those for its names first, then those for what would come below itself or in place of a directory above it.
    /// Where both names hold one node there are no others; else those of a move follow.
    fn rename_at(
        &mut self,
        old: Handle,
        old_name: Name<'_>,
        new: Handle,
        new_name: Name<'_>,
        requires_dir: bool,
    ) -> Result<(), HostError>
        requires old { contains (live self.old) old ≡ true }
        requires new { contains (live self.old) new ≡ true }
        ensures cause { HasCause (faults self.old) (faults self.new) result }
        ensures live { live self.new ≡ live self.old }
        ensures logged { Logged (lookups self.old) (both_looked LookKind.Rename old new) result (lookups self.new) }
        ensures modelled { IsTrue modelled → RefinesCall (live self.old) (live self.new) (model self.old) (model self.new)
            (RenameAt ((model self.old).held old).node (name_bytes old_name.entry)
            ((model self.old).held new).node (name_bytes new_name.entry) requires_dir)
            (λ unit. unit) result }
        ensures fails { IsTrue fails_modelled → FollowsPlan (fails self.old) (fails self.new) result }
        ensures others { IsTrue found_modelled → Follow (others self.old) (others self.new) }
        ensures found { IsTrue found_modelled → Finds (live self.old) (live self.new) (left self.old) (found self.old) (left self.new)
            (RenameAt ((left self.old).held old).node (name_bytes old_name.entry)
            ((left self.old).held new).node (name_bytes new_name.entry) requires_dir)
            (λ unit. unit) result }
        ensures made { IsTrue fails_modelled → IsTrue found_modelled → Leaves (fails self.old 0) (left self.old) (found self.old)
            (left self.new) (MayTakeEffect (RenameAt ((left self.old).held old).node (name_bytes old_name.entry)
            ((left self.old).held new).node (name_bytes new_name.entry) requires_dir)) };

    /// Drops a name of a file or link, which has one name fewer, and stays with none too. Refusals: the rules for a
    /// name; IsDirectory of `.`; NoEntry where the name is missing; Access where the directory may not be written;
    /// IsDirectory where the name holds a directory.
    fn unlink_at(&mut self, start: Handle, name: Name<'_>) -> Result<(), HostError>
        requires { contains (live self.old) start ≡ true }
        ensures cause { HasCause (faults self.old) (faults self.new) result }
        ensures live { live self.new ≡ live self.old }
        ensures logged { Logged (lookups self.old) (one_looked LookKind.Unlink start) result (lookups self.new) }
        ensures modelled { IsTrue modelled → RefinesCall (live self.old) (live self.new) (model self.old) (model self.new)
            (UnlinkAt ((model self.old).held start).node (name_bytes name.entry))
            (λ unit. unit) result }
        ensures fails { IsTrue fails_modelled → FollowsPlan (fails self.old) (fails self.new) result }
        ensures others { IsTrue found_modelled → Follow (others self.old) (others self.new) }
        ensures found { IsTrue found_modelled → Finds (live self.old) (live self.new) (left self.old) (found self.old) (left self.new)
            (UnlinkAt ((left self.old).held start).node (name_bytes name.entry))
            (λ unit. unit) result }
        ensures made { IsTrue fails_modelled → IsTrue found_modelled → Leaves (fails self.old 0) (left self.old) (found self.old)
            (left self.new) (MayTakeEffect (UnlinkAt ((left self.old).held start).node (name_bytes name.entry))) };

    /// Drops the name of an empty directory, which is removed from then on: a handle may still refer to it, but it
    /// takes no name. Refusals: the rules for a name; Invalid of `.`; NoEntry where the name is missing; Access where
    /// the directory that has the name may not be written; NotDirectory where it holds no directory; NotEmpty where
    /// that has names.
    fn remove_dir_at(&mut self, start: Handle, name: Name<'_>) -> Result<(), HostError>
        requires { contains (live self.old) start ≡ true }
        ensures cause { HasCause (faults self.old) (faults self.new) result }
        ensures live { live self.new ≡ live self.old }
        ensures logged { Logged (lookups self.old) (one_looked LookKind.RemoveDir start) result (lookups self.new) }
        ensures modelled { IsTrue modelled → RefinesCall (live self.old) (live self.new) (model self.old) (model self.new)
            (RemoveDirAt ((model self.old).held start).node (name_bytes name.entry))
            (λ unit. unit) result }
        ensures fails { IsTrue fails_modelled → FollowsPlan (fails self.old) (fails self.new) result }
        ensures others { IsTrue found_modelled → Follow (others self.old) (others self.new) }
        ensures found { IsTrue found_modelled → Finds (live self.old) (live self.new) (left self.old) (found self.old) (left self.new)
            (RemoveDirAt ((left self.old).held start).node (name_bytes name.entry))
            (λ unit. unit) result }
        ensures made { IsTrue fails_modelled → IsTrue found_modelled → Leaves (fails self.old 0) (left self.old) (found self.old)
            (left self.new) (MayTakeEffect (RemoveDirAt ((left self.old).held start).node (name_bytes name.entry))) };

    /// Sets the given times of the node under a name in a directory, that of its last read and that of its last change;
    /// one that isn't given stays, as with `UTIME_OMIT` of POSIX's `utimensat`. A link is not followed: the times are
    /// its own. Refusals: the rules for a name; NoEntry where it is missing.
    fn times_at(
        &mut self,
        start: Handle,
        name: Name<'_>,
        atime: Option<SystemTime>,
        mtime: Option<SystemTime>,
    ) -> Result<(), HostError>
        requires { contains (live self.old) start ≡ true }
        ensures cause { HasCause (faults self.old) (faults self.new) result }
        ensures live { live self.new ≡ live self.old }
        ensures logged { Logged (lookups self.old) (one_looked LookKind.Times start) result (lookups self.new) }
        ensures modelled { IsTrue modelled → RefinesCall (live self.old) (live self.new) (model self.old) (model self.new)
            (TimesAt ((model self.old).held start).node (name_bytes name.entry) atime mtime)
            (λ unit. unit) result }
        ensures fails { IsTrue fails_modelled → FollowsPlan (fails self.old) (fails self.new) result }
        ensures others { IsTrue found_modelled → Follow (others self.old) (others self.new) }
        ensures found { IsTrue found_modelled → Finds (live self.old) (live self.new) (left self.old) (found self.old) (left self.new)
            (TimesAt ((left self.old).held start).node (name_bytes name.entry) atime mtime)
            (λ unit. unit) result }
        ensures made { IsTrue fails_modelled → IsTrue found_modelled → Leaves (fails self.old 0) (left self.old) (found self.old)
            (left self.new) (MayTakeEffect (TimesAt ((left self.old).held start).node (name_bytes name.entry) atime mtime)) };

    /// All names of a directory but `.` and `..`, in byte order, each with the kind of the node that it holds, a link's
    /// own. Every host gives names that a directory may hold: not empty, of at most 255 bytes, without a slash and
    /// without NUL. Refusals: NotDirectory where the handle is no directory's; BadDescriptor where it wasn't opened for
    /// reading.
    fn list(&mut self, alloc: Global, directory: Handle) -> Result<Vec<DirEntry>, HostError>
        requires { contains (live self.old) directory ≡ true }
        ensures cause { HasCause (faults self.old) (faults self.new) result }
        ensures live { live self.new ≡ live self.old }
        ensures logged { Logged (lookups self.old) (one_looked LookKind.List directory) result (lookups self.new) }
        ensures names { IfOk result (λ entries. All (λ entry. IsTrue (is_entry_name entry.0)) (map entry_of entries.items)) }
        ensures modelled { IsTrue modelled → RefinesCall (live self.old) (live self.new) (model self.old) (model self.new)
            (ListDir ((model self.old).held directory))
            (λ entries. map entry_of entries.items) result }
        ensures fails { IsTrue fails_modelled → FollowsPlan (fails self.old) (fails self.new) result }
        ensures others { IsTrue found_modelled → Follow (others self.old) (others self.new) }
        ensures found { IsTrue found_modelled → Finds (live self.old) (live self.new) (left self.old) (found self.old) (left self.new)
            (ListDir ((left self.old).held directory))
            (λ entries. map entry_of entries.items) result }
        ensures made { IsTrue fails_modelled → IsTrue found_modelled → Leaves (fails self.old 0) (left self.old) (found self.old)
            (left self.new) (MayTakeEffect (ListDir ((left self.old).held directory))) };

    /// Another live handle of the same node and access.
    fn dup(&mut self, handle: Handle) -> Result<Handle, HostError>
        requires { contains (live self.old) handle ≡ true }
        ensures cause { HasCause (faults self.old) (faults self.new) result }
        ensures live { LiveGot (live self.old) result (live self.new) }
        ensures logged { LoggedGot (live self.old) (lookups self.old) LookKind.Dup handle result (lookups self.new) }
        ensures modelled { IsTrue modelled → RefinesCall (live self.old) (live self.new) (model self.old) (model self.new)
            (Dup ((model self.old).held handle)) (model self.new).held result }
        ensures fails { IsTrue fails_modelled → (n : ℕ) → fails self.new n ≡ fails self.old n }
        ensures others { IsTrue found_modelled → (n : ℕ) (t : Tree) → others self.new n t ≡ others self.old n t }
        ensures found { IsTrue found_modelled → found self.new ≡ found self.old }
        ensures left { IsTrue found_modelled → RefinesCall (live self.old) (live self.new) (left self.old) (left self.new)
            (Dup ((left self.old).held handle)) (left self.new).held result };

    /// Whether names may be looked up in a directory: `Access` where its search bit is missing. It takes no memory.
    fn access(&mut self, directory: Handle) -> Result<(), ErrorCode>
        requires { contains (live self.old) directory ≡ true }
        ensures cause { HasCause (faults self.old) (faults self.new) (hosted result) }
        ensures live { live self.new ≡ live self.old }
        ensures logged { lookups self.new ≡ lookups self.old }
        ensures modelled { IsTrue modelled → RefinesCall (live self.old) (live self.new) (model self.old) (model self.new)
            (Access ((model self.old).held directory).node)
            (λ unit. unit) (hosted result) }
        ensures fails { IsTrue fails_modelled → FollowsPlan (fails self.old) (fails self.new) (hosted result) }
        ensures others { IsTrue found_modelled → Follow (others self.old) (others self.new) }
        ensures found { IsTrue found_modelled → Finds (live self.old) (live self.new) (left self.old) (found self.old) (left self.new)
            (Access ((left self.old).held directory).node)
            (λ unit. unit) (hosted result) }
        ensures made { IsTrue fails_modelled → IsTrue found_modelled → Leaves (fails self.old 0) (left self.old) (found self.old)
            (left self.new) (TakesEffect (Access ((left self.old).held directory).node)) };

    /// The metadata of what a handle refers to. It takes no memory.
    fn stat(&mut self, handle: Handle) -> Result<Metadata, ErrorCode>
        requires { contains (live self.old) handle ≡ true }
        ensures cause { HasCause (faults self.old) (faults self.new) (hosted result) }
        ensures live { live self.new ≡ live self.old }
        ensures logged { lookups self.new ≡ lookups self.old }
        ensures times { IfOk result HasTimes }
        ensures modelled { IsTrue modelled → RefinesCall (live self.old) (live self.new) (model self.old) (model self.new)
            (Stat ((model self.old).held handle).node)
            (λ metadata. metadata) (hosted result) }
        ensures fails { IsTrue fails_modelled → FollowsPlan (fails self.old) (fails self.new) (hosted result) }
        ensures others { IsTrue found_modelled → Follow (others self.old) (others self.new) }
        ensures found { IsTrue found_modelled → Finds (live self.old) (live self.new) (left self.old) (found self.old) (left self.new)
            (Stat ((left self.old).held handle).node)
            (λ metadata. metadata) (hosted result) }
        ensures made { IsTrue fails_modelled → IsTrue found_modelled → Leaves (fails self.old 0) (left self.old) (found self.old)
            (left self.new) (TakesEffect (Stat ((left self.old).held handle).node)) };

    /// Sets the given times of what a handle refers to, as `times_at` does. It takes no memory, and no rule refuses
    /// it.
    fn set_times(
        &mut self,
        handle: Handle,
        atime: Option<SystemTime>,
        mtime: Option<SystemTime>,
    ) -> Result<(), ErrorCode>
        requires { contains (live self.old) handle ≡ true }
        ensures cause { HasCause (faults self.old) (faults self.new) (hosted result) }
        ensures live { live self.new ≡ live self.old }
        ensures logged { lookups self.new ≡ lookups self.old }
        ensures modelled { IsTrue modelled → RefinesCall (live self.old) (live self.new) (model self.old) (model self.new)
            (SetTimes ((model self.old).held handle).node atime mtime)
            (λ unit. unit) (hosted result) }
        ensures fails { IsTrue fails_modelled → FollowsPlan (fails self.old) (fails self.new) (hosted result) }
        ensures others { IsTrue found_modelled → Follow (others self.old) (others self.new) }
        ensures found { IsTrue found_modelled → Finds (live self.old) (live self.new) (left self.old) (found self.old) (left self.new)
            (SetTimes ((left self.old).held handle).node atime mtime)
            (λ unit. unit) (hosted result) }
        ensures made { IsTrue fails_modelled → IsTrue found_modelled → Leaves (fails self.old 0) (left self.old) (found self.old)
            (left self.new) (TakesEffect (SetTimes ((left self.old).held handle).node atime mtime)) };

    /// Reads a file's bytes from an offset on into the front of `buf`, and answers how many: where the host is modelled
    /// as many as there are and `buf` takes, 0 at or past the end. The rest of `buf` stays. It takes no memory.
    /// Refusals: BadDescriptor without read access or where it is no file; Invalid for an offset of 2^63 or more.
    fn pread(&mut self, file: Handle, buf: &mut [u8], offset: u64) -> Result<usize, ErrorCode>
        requires { contains (live self.old) file ≡ true }
        ensures cause { HasCause (faults self.old) (faults self.new) (hosted result) }
        ensures live { live self.new ≡ live self.old }
        ensures logged { lookups self.new ≡ lookups self.old }
        ensures fits { IfOk result (λ n. n ≤ length buf.old) }
        ensures offset { OnOk result (offset < 2 ^ 63) }
        ensures rest { IfOk result (λ n. drop n buf.new ≡ drop n buf.old) }
        ensures kept { OnErr result (buf.new ≡ buf.old) }
        ensures modelled { IsTrue modelled → RefinesCall (live self.old) (live self.new) (model self.old) (model self.new)
            (Pread ((model self.old).held file) offset (length buf.old))
            (λ n. take n buf.new) (hosted result) }
        ensures fails { IsTrue fails_modelled → FollowsPlan (fails self.old) (fails self.new) (hosted result) }
        ensures others { IsTrue found_modelled → Follow (others self.old) (others self.new) }
        ensures found { IsTrue found_modelled → Finds (live self.old) (live self.new) (left self.old) (found self.old) (left self.new)
            (Pread ((left self.old).held file) offset (length buf.old))
            (λ n. take n buf.new) (hosted result) }
        ensures made { IsTrue fails_modelled → IsTrue found_modelled → Leaves (fails self.old 0) (left self.old) (found self.old)
            (left self.new) (TakesEffect (Pread ((left self.old).held file) offset (length buf.old))) };

    /// Puts a piece of bytes into a file from an offset on, with zeros in a gap before it, and answers how many it
    /// took, which is all where the host is modelled. No bytes change nothing. A call that takes nothing of a piece
    /// that isn't empty has failed, and the count of faults rose. Refusals: BadDescriptor without write access; Invalid
    /// for an offset of 2^63 or more; FileTooLarge where the file would have more than 2^30 bytes.
    fn pwrite(&mut self, file: Handle, piece: &[u8], offset: u64) -> Result<usize, HostError>
        requires { contains (live self.old) file ≡ true }
        ensures cause { HasCause (faults self.old) (faults self.new) result }
        ensures live { live self.new ≡ live self.old }
        ensures logged { lookups self.new ≡ lookups self.old }
        ensures fits { IfOk result (λ n. n ≤ length piece.now) }
        ensures takes { result ≡ Ok 0 → 0 < length piece.now → Rose (faults self.old) (faults self.new) }
        ensures offset { OnOk result (offset < 2 ^ 63) }
        ensures modelled { IsTrue modelled → RefinesCall (live self.old) (live self.new) (model self.old) (model self.new)
            (Pwrite ((model self.old).held file) offset piece.now)
            (λ n. n) result }
        ensures fails { IsTrue fails_modelled → FollowsPlan (fails self.old) (fails self.new) result }
        ensures others { IsTrue found_modelled → Follow (others self.old) (others self.new) }
        ensures found { IsTrue found_modelled → Finds (live self.old) (live self.new) (left self.old) (found self.old) (left self.new)
            (Pwrite ((left self.old).held file) offset piece.now)
            (λ n. n) result }
        ensures made { IsTrue fails_modelled → IsTrue found_modelled → Leaves (fails self.old 0) (left self.old) (found self.old)
            (left self.new) (MayTakeEffect (Pwrite ((left self.old).held file) offset piece.now)) };

    /// Puts a piece of bytes after a file's last one, and answers how many it took, which is all where the host is
    /// modelled. No bytes change nothing. A call that takes nothing of a piece that isn't empty has failed, and the
    /// count of faults rose. Refusals: BadDescriptor without write access; FileTooLarge where the file would have more
    /// than 2^30 bytes.
    fn append(&mut self, file: Handle, piece: &[u8]) -> Result<usize, HostError>
        requires { contains (live self.old) file ≡ true }
        ensures cause { HasCause (faults self.old) (faults self.new) result }
        ensures live { live self.new ≡ live self.old }
        ensures logged { lookups self.new ≡ lookups self.old }
        ensures fits { IfOk result (λ n. n ≤ length piece.now) }
        ensures takes { result ≡ Ok 0 → 0 < length piece.now → Rose (faults self.old) (faults self.new) }
        ensures modelled { IsTrue modelled → RefinesCall (live self.old) (live self.new) (model self.old) (model self.new)
            (Append ((model self.old).held file) piece.now)
            (λ n. n) result }
        ensures fails { IsTrue fails_modelled → FollowsPlan (fails self.old) (fails self.new) result }
        ensures others { IsTrue found_modelled → Follow (others self.old) (others self.new) }
        ensures found { IsTrue found_modelled → Finds (live self.old) (live self.new) (left self.old) (found self.old) (left self.new)
            (Append ((left self.old).held file) piece.now)
            (λ n. n) result }
        ensures made { IsTrue fails_modelled → IsTrue found_modelled → Leaves (fails self.old 0) (left self.old) (found self.old)
            (left self.new) (MayTakeEffect (Append ((left self.old).held file) piece.now)) };

    /// Cuts a file to a size, or fills it up with zeros, as POSIX's `ftruncate` does. Refusals: Invalid
    /// without write access, and for a size of 2^63 or more; FileTooLarge for more than 2^30 bytes.
    fn set_size(&mut self, file: Handle, size: u64) -> Result<(), HostError>
        requires { contains (live self.old) file ≡ true }
        ensures cause { HasCause (faults self.old) (faults self.new) result }
        ensures live { live self.new ≡ live self.old }
        ensures logged { lookups self.new ≡ lookups self.old }
        ensures modelled { IsTrue modelled → RefinesCall (live self.old) (live self.new) (model self.old) (model self.new)
            (SetSize ((model self.old).held file) size)
            (λ unit. unit) result }
        ensures fails { IsTrue fails_modelled → FollowsPlan (fails self.old) (fails self.new) result }
        ensures others { IsTrue found_modelled → Follow (others self.old) (others self.new) }
        ensures found { IsTrue found_modelled → Finds (live self.old) (live self.new) (left self.old) (found self.old) (left self.new)
            (SetSize ((left self.old).held file) size)
            (λ unit. unit) result }
        ensures made { IsTrue fails_modelled → IsTrue found_modelled → Leaves (fails self.old 0) (left self.old) (found self.old)
            (left self.new) (MayTakeEffect (SetSize ((left self.old).held file) size)) };

    /// Waits until what a handle refers to is stored, as POSIX's `fsync` does. It takes no memory, and no rule refuses
    /// it.
    fn sync(&mut self, handle: Handle) -> Result<(), ErrorCode>
        requires { contains (live self.old) handle ≡ true }
        ensures cause { HasCause (faults self.old) (faults self.new) (hosted result) }
        ensures live { live self.new ≡ live self.old }
        ensures logged { lookups self.new ≡ lookups self.old }
        ensures modelled { IsTrue modelled → RefinesCall (live self.old) (live self.new) (model self.old) (model self.new)
            (Sync ((model self.old).held handle).node)
            (λ unit. unit) (hosted result) }
        ensures fails { IsTrue fails_modelled → FollowsPlan (fails self.old) (fails self.new) (hosted result) }
        ensures others { IsTrue found_modelled → Follow (others self.old) (others self.new) }
        ensures found { IsTrue found_modelled → Finds (live self.old) (live self.new) (left self.old) (found self.old) (left self.new)
            (Sync ((left self.old).held handle).node)
            (λ unit. unit) (hosted result) }
        ensures made { IsTrue fails_modelled → IsTrue found_modelled → Leaves (fails self.old 0) (left self.old) (found self.old)
            (left self.new) (TakesEffect (Sync ((left self.old).held handle).node)) };

    /// Tells how the bytes from an offset on will be used, as POSIX's `posix_fadvise` does. Nothing changes. It takes
    /// no memory, and no rule refuses it.
    fn advise(
        &mut self,
        file: Handle,
        offset: u64,
        len: u64,
        advice: Advice,
    ) -> Result<(), ErrorCode>
        requires { contains (live self.old) file ≡ true }
        ensures cause { HasCause (faults self.old) (faults self.new) (hosted result) }
        ensures live { live self.new ≡ live self.old }
        ensures logged { lookups self.new ≡ lookups self.old }
        ensures modelled { IsTrue modelled → RefinesCall (live self.old) (live self.new) (model self.old) (model self.new)
            (Advise ((model self.old).held file).node offset len advice)
            (λ unit. unit) (hosted result) }
        ensures fails { IsTrue fails_modelled → FollowsPlan (fails self.old) (fails self.new) (hosted result) }
        ensures others { IsTrue found_modelled → Follow (others self.old) (others self.new) }
        ensures found { IsTrue found_modelled → Finds (live self.old) (live self.new) (left self.old) (found self.old) (left self.new)
            (Advise ((left self.old).held file).node offset len advice)
            (λ unit. unit) (hosted result) }
        ensures made { IsTrue fails_modelled → IsTrue found_modelled → Leaves (fails self.old 0) (left self.old) (found self.old)
            (left self.new) (TakesEffect (Advise ((left self.old).held file).node offset len advice)) };

    /// The synchronized modes of a handle: none, where the host is modelled. It takes no memory, and no rule refuses
    /// it.
    fn flags(&mut self, handle: Handle) -> Result<SyncFlags, ErrorCode>
        requires { contains (live self.old) handle ≡ true }
        ensures cause { HasCause (faults self.old) (faults self.new) (hosted result) }
        ensures live { live self.new ≡ live self.old }
        ensures logged { lookups self.new ≡ lookups self.old }
        ensures modelled { IsTrue modelled → RefinesCall (live self.old) (live self.new) (model self.old) (model self.new)
            (Flags ((model self.old).held handle).node)
            (λ flags. flags) (hosted result) }
        ensures fails { IsTrue fails_modelled → FollowsPlan (fails self.old) (fails self.new) (hosted result) }
        ensures others { IsTrue found_modelled → Follow (others self.old) (others self.new) }
        ensures found { IsTrue found_modelled → Finds (live self.old) (live self.new) (left self.old) (found self.old) (left self.new)
            (Flags ((left self.old).held handle).node)
            (λ flags. flags) (hosted result) }
        ensures made { IsTrue fails_modelled → IsTrue found_modelled → Leaves (fails self.old 0) (left self.old) (found self.old)
            (left self.new) (TakesEffect (Flags ((left self.old).held handle).node)) };

    /// The handle isn't live any more. It can't fail, and takes no memory.
    fn close(&mut self, handle: Handle)
        requires { contains (live self.old) handle ≡ true }
        ensures faults { faults self.new ≡ faults self.old }
        ensures live { live self.new ≡ remove (live self.old) handle }
        ensures logged { lookups self.new ≡ lookups self.old }
        ensures modelled { IsTrue modelled → RefinesCall (live self.old) (live self.new) (model self.old) (model self.new)
            Close (λ unit. unit) answered }
        ensures fails { IsTrue fails_modelled → (n : ℕ) → fails self.new n ≡ fails self.old n }
        ensures others { IsTrue found_modelled → (n : ℕ) (t : Tree) → others self.new n t ≡ others self.old n t }
        ensures found { IsTrue found_modelled → found self.new ≡ found self.old }
        ensures left { IsTrue found_modelled → RefinesCall (live self.old) (live self.new) (left self.old) (left self.new)
            Close (λ unit. unit) answered };

    /// What holds of every host at any time, modelled or not: its count of faults is a number of 64 bits, and where it
    /// is modelled, each live handle's node is a node of the tree, and a file where the handle was opened for writing,
    /// nobody else changes the tree, and the next call finds that model, as the last one left it. Where what its calls
    /// find is modelled, the next one finds what was left with what others do before it. It does nothing: its clauses
    /// are laws, for a caller that needs one of them.
    fn laws(&self)
        ensures faults { (faults self.now).count ≤ 2 ^ 64 - 1 }
        ensures most { (faults self.now).count ≤ (faults self.now).most }
        ensures held { IsTrue modelled → AllHeld (live self.now) (model self.now) }
        ensures found { IsTrue modelled → IsTrue found_modelled × (found self.now ≡ (model self.now).tree) × (left self.now ≡ model self.now) }
        ensures others { IsTrue found_modelled → found self.now ≡ others self.now 0 (left self.now).tree }
        ensures alone { IsTrue modelled → (n : ℕ) (t : Tree) → others self.now n t ≡ t };
}

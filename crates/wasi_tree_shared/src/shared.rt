//! A tree that others change.
ghost use Rattle.std.specs.Prelude.{◌≡◌, ℕ, ◌+◌, ◌-◌, ◌^◌, ◌<◌, ◌≤◌, min, true, false, All};
ghost use Rattle.wasi_host.specs.FurtherLaws.{Follow};
ghost use Rattle.wasi_host.specs.HostLaws.{never_fails};
ghost use Rattle.wasi_host.specs.declared.injected_fault.InjectedFault.TheVariants.{Passes};
ghost use Rattle.wasi_tree.specs.MemState.{live_of, model_of};
ghost use Rattle.wasi_tree_shared.specs.declared.change.Change.{Change};
ghost use Rattle.wasi_tree_shared.specs.Changes.{AreRising, all_made, found_next, due_before, made_by_others};

use crate::change::Change;
use crate::order::{next_due, put_in_order};
use std::alloc::Global;
use std::collections::VecDeque;
use std::marker::Model;
use wasi_host::{
    Advice, DirEntry, ErrorCode, Forget, Handle, Host, HostError, Metadata, OpenOptions, SyncFlags,
    SystemTime,
};
use wasi_paths::Name;
use wasi_tree::MemTree;

/// A tree in memory that others change: each change of a list is made before the host's call of its number, and those
/// of one number in the list's order; `MemTree::change` says what a change does, and which are skipped. A change takes
/// no memory, touches no node, and adds no lookup. No call fails by itself. It isn't modelled, but what each call finds
/// and leaves. Contracts see the tree in memory, the changes to come, and how many calls came.
#[derive(Debug, Drop)]
pub struct Shared {
    tree: MemTree,
    changes: VecDeque<Change>,
    calls: u64,
}

impl Model for Shared {
    ghost use Rattle.std.specs.Prelude.{◌<◌, All};
    ghost use Rattle.wasi_tree_shared.specs.declared.change.Change.{Change};
    ghost use Rattle.wasi_tree_shared.specs.Changes.{AreRising, Outside, outside_code};

    ghost Value = { Outside };

    ghost coded = { outside_code };

    ghost view = { λ s. record { inner = s.tree; changes = s.changes.items; calls = s.calls } };

    ghost invariant = { λ s. AreRising s.changes.items × All (λ (c : Change). s.calls < c.before) s.changes.items };
}

impl Shared {
    /// A tree that others change so; no call came yet. The list may come in any order; changes of one number are made
    /// in theirs. A list whose numbers don't rise is put in order first, in at most the square of its length. It takes
    /// no memory.
    pub fn new(tree: MemTree, mut changes: Vec<Change>) -> Shared
        ensures inner { result.inner ≡ tree }
        ensures calls { result.calls ≡ 0 }
        ensures changes { (n : ℕ) → 0 < n → due_before n result.changes ≡ due_before n changes.items }
    {
        put_in_order(&mut changes);
        let mut changes = VecDeque::from(changes);
        drop_due(&mut changes, 0);
        Shared {
            tree,
            changes,
            calls: 0,
        }
    }

    /// The tree, as the last call left it.
    pub fn inner(&self) -> &MemTree
        ensures inner { result.now ≡ self.now.inner }
    {
        &self.tree
    }

    /// Counts a call, and makes the changes before it.
    fn begin(&mut self)
        ensures inner { self.new.inner ≡ record self.old.inner { tree = found_next self.old } }
        ensures calls { self.new.calls ≡ min (self.old.calls + 1) (2 ^ 64 - 1) }
        ensures others { Follow (made_by_others self.old.calls self.old.changes)
            (made_by_others self.new.calls self.new.changes) }
    {
        let Some(number) = self.calls.checked_add(1) else {
            return;
        };
        self.calls = number;
        make_due(&mut self.tree, &mut self.changes, number);
    }
}

/// Makes the changes before the call of a number, where none before an earlier one is left.
fn make_due(tree: &mut MemTree, changes: &mut VecDeque<Change>, number: u64)
    requires rising { AreRising changes.old.items }
    requires from { All (λ (c : Change). number ≤ c.before) changes.old.items }
    ensures made { tree.new ≡ record tree.old { tree = all_made tree.old.tree (due_before number changes.old.items) } }
    ensures rising { AreRising changes.new.items }
    ensures behind { All (λ (c : Change). number < c.before) changes.new.items }
    ensures later { (n : ℕ) → number < n → due_before n changes.new.items ≡ due_before n changes.old.items }
{
    while let Some(change) = next_due(changes, number) {
        tree.change(change);
    }
}

/// Drops the changes before the call of a number, where none before an earlier one is left.
fn drop_due(changes: &mut VecDeque<Change>, number: u64)
    requires rising { AreRising changes.old.items }
    requires from { All (λ (c : Change). number ≤ c.before) changes.old.items }
    ensures rising { AreRising changes.new.items }
    ensures behind { All (λ (c : Change). number < c.before) changes.new.items }
    ensures later { (n : ℕ) → number < n → due_before n changes.new.items ≡ due_before n changes.old.items }
{
    while next_due(changes, number).is_some() {}
}

#[tactic(auto, using(crate::proofs::Finding::shared_rules))]
impl Host for Shared {
    ghost faults = { λ _. never_fails };

    ghost live = { λ s. live_of s.inner.handles };

    ghost lookups = { λ s. s.inner.lookups };

    ghost modelled = { false };

    ghost model = { λ s. model_of s.inner };

    ghost fails_modelled = { true };

    ghost fails = { λ _ _. Passes };

    ghost found_modelled = { true };

    ghost others = { λ s. made_by_others s.calls s.changes };

    ghost found = { found_next };

    ghost left = { λ s. model_of s.inner };

    fn open_at(
        &mut self,
        start: Handle,
        name: Name<'_>,
        options: &OpenOptions,
    ) -> Result<Handle, HostError> {
        self.begin();
        self.tree.open_at(start, name, options)
    }

    fn stat_at(&mut self, start: Handle, name: Name<'_>) -> Result<Metadata, HostError> {
        self.begin();
        self.tree.stat_at(start, name)
    }

    fn read_link_at(
        &mut self,
        alloc: Global,
        start: Handle,
        name: Name<'_>,
    ) -> Result<String, HostError> {
        self.begin();
        self.tree.read_link_at(alloc, start, name)
    }

    fn make_dir_at(&mut self, start: Handle, name: Name<'_>) -> Result<(), HostError> {
        self.begin();
        self.tree.make_dir_at(start, name)
    }

    fn symlink_at(&mut self, target: &str, start: Handle, name: Name<'_>) -> Result<(), HostError> {
        self.begin();
        self.tree.symlink_at(target, start, name)
    }

    fn link_at(
        &mut self,
        old: Handle,
        old_name: Name<'_>,
        new: Handle,
        new_name: Name<'_>,
    ) -> Result<(), HostError> {
        self.begin();
        self.tree.link_at(old, old_name, new, new_name)
    }

    fn rename_at(
        &mut self,
        old: Handle,
        old_name: Name<'_>,
        new: Handle,
        new_name: Name<'_>,
        requires_dir: bool,
    ) -> Result<(), HostError> {
        self.begin();
        self.tree
            .rename_at(old, old_name, new, new_name, requires_dir)
    }

    fn unlink_at(&mut self, start: Handle, name: Name<'_>) -> Result<(), HostError> {
        self.begin();
        self.tree.unlink_at(start, name)
    }

    fn remove_dir_at(&mut self, start: Handle, name: Name<'_>) -> Result<(), HostError> {
        self.begin();
        self.tree.remove_dir_at(start, name)
    }

    fn times_at(
        &mut self,
        start: Handle,
        name: Name<'_>,
        atime: Option<SystemTime>,
        mtime: Option<SystemTime>,
    ) -> Result<(), HostError> {
        self.begin();
        self.tree.times_at(start, name, atime, mtime)
    }

    fn list(&mut self, alloc: Global, directory: Handle) -> Result<Vec<DirEntry>, HostError> {
        self.begin();
        self.tree.list(alloc, directory)
    }

    fn dup(&mut self, handle: Handle) -> Result<Handle, HostError> {
        self.tree.dup(handle)
    }

    fn access(&mut self, directory: Handle) -> Result<(), ErrorCode> {
        self.begin();
        self.tree.access(directory)
    }

    fn stat(&mut self, handle: Handle) -> Result<Metadata, ErrorCode> {
        self.begin();
        self.tree.stat(handle)
    }

    fn set_times(
        &mut self,
        handle: Handle,
        atime: Option<SystemTime>,
        mtime: Option<SystemTime>,
    ) -> Result<(), ErrorCode> {
        self.begin();
        self.tree.set_times(handle, atime, mtime)
    }

    fn pread(&mut self, file: Handle, buf: &mut [u8], offset: u64) -> Result<usize, ErrorCode> {
        self.begin();
        self.tree.pread(file, buf, offset)
    }

    fn pwrite(&mut self, file: Handle, piece: &[u8], offset: u64) -> Result<usize, HostError> {
        self.begin();
        self.tree.pwrite(file, piece, offset)
    }

    fn append(&mut self, file: Handle, piece: &[u8]) -> Result<usize, HostError> {
        self.begin();
        self.tree.append(file, piece)
    }

    fn set_size(&mut self, file: Handle, size: u64) -> Result<(), HostError> {
        self.begin();
        self.tree.set_size(file, size)
    }

    fn sync(&mut self, handle: Handle) -> Result<(), ErrorCode> {
        self.begin();
        self.tree.sync(handle)
    }

    fn advise(
        &mut self,
        file: Handle,
        offset: u64,
        len: u64,
        advice: Advice,
    ) -> Result<(), ErrorCode> {
        self.begin();
        self.tree.advise(file, offset, len, advice)
    }

    fn flags(&mut self, handle: Handle) -> Result<SyncFlags, ErrorCode> {
        self.begin();
        self.tree.flags(handle)
    }

    fn close(&mut self, handle: Handle) {
        self.tree.close(handle);
    }

    fn laws(&self) {}
}

#[tactic(auto, using(crate::proofs::Finding::shared_rules))]
impl Forget for Shared {
    fn forget(&mut self) {
        self.tree.forget();
    }
}

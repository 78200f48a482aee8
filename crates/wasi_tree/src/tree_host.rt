//! A tree as a host, in whatever way its nodes are kept.
ghost use Rattle.std.specs.Prelude.{◌≡◌, ◌↔◌, ◌++◌, ℕ, true, false, [], Err, IfOk, OnErr, map};
ghost use Rattle.std.specs.Ordering.{nat_cmp};
ghost use Rattle.std.specs.List.Sorted.{IsStrictlySortedBy};
ghost use Rattle.std.specs.FinSet.{contains, insert, empty, from_list};
ghost use Rattle.wasi_host.specs.Tree.{node_at, is_directory};
ghost use Rattle.wasi_tree.specs.NodeData.{node_data, data_of_node};
ghost use Rattle.wasi_host.specs.declared.injected_fault.InjectedFault.TheVariants.{Passes};
ghost use Rattle.wasi_host.specs.HostLaws.{both_looked, one_looked, never_fails};
ghost use Rattle.wasi_tree.specs.MemState.{live_of, held_in, model_of};

use crate::calls;
use crate::errors::HandleError;
use crate::node::NewNode;
use crate::node_store::NodeStore;
use crate::slots::Slots;
use std::alloc::{AllocError, Global};
use std::marker::Model;
use wasi_host::{
    AccessMode, Advice, DirEntry, ErrorCode, Forget, Handle, Host, HostError, LookKind, Lookup,
    LookupLog, Metadata, OpenHandle, OpenOptions, SyncFlags, SystemTime,
};
use wasi_paths::Name;

/// A tree of files as a host: its nodes as a store keeps them, with its live handles, the nodes that calls have touched
/// since they were forgotten last, and the lookups so far. Those are for contracts alone, and take no memory.
#[derive(Debug, Drop)]
pub struct TreeHost<S: NodeStore> {
    pub(crate) store: S,
    slots: Slots,
    log: LookupLog,
}

impl<S: NodeStore> Model for TreeHost<S> {
    ghost use Rattle.wasi_tree.specs.MemState.{MemState, state_code};
    ghost use Rattle.wasi_tree.specs.Sound.{HoldsNodes};

    ghost Value = { MemState };

    ghost coded = { state_code };

    ghost view = { λ a. record {
      tree = (S.seen a.store).tree;
      handles = a.slots.handles;
      touched = (S.seen a.store).touched;
      lookups = a.log.items;
    } };

    ghost invariant = { λ a. HoldsNodes (S.seen a.store).tree (S.HasRoom a.store) a.slots.handles };
}

#[tactic(auto, using(crate::proofs::MemLemmas::mem_rules))]
impl<S: NodeStore> TreeHost<S> {
    /// The tree of a store. It has no live handle, and there is no lookup.
    pub fn over(alloc: Global, store: S) -> TreeHost<S>
        ensures tree { result.tree ≡ (S.seen store).tree }
        ensures touched { result.touched ≡ (S.seen store).touched }
        ensures live { live_of result.handles ≡ empty }
        ensures lookups { result.lookups ≡ [] }
    {
        TreeHost {
            store,
            slots: Slots::new(alloc),
            log: LookupLog::new(),
        }
    }

    /// The nodes as they are kept.
    pub fn store(&self) -> &S
        ensures tree { (S.seen result.now).tree ≡ self.now.tree }
        ensures touched { (S.seen result.now).touched ≡ self.now.touched }
    {
        &self.store
    }

    /// The tree as it is, as a list of nodes in memory of its own. The entries of each directory stand in byte order.
    pub fn nodes(&self, alloc: Global) -> Result<Vec<NewNode>, AllocError>
        ensures nodes { IfOk result (λ nodes. map node_data nodes.items ≡ map data_of_node self.now.tree.nodes) }
    {
        self.store.to_new(alloc)
    }

    /// A handle of a directory, for its path alone.
    pub fn handle(&mut self, node: u64) -> Result<Handle, HandleError>
        ensures not_directory { (result ≡ Err HandleError.NotDirectory) ↔ (is_directory (node_at self.old.tree node).content ≡ false) }
        ensures fresh { IfOk result (λ h. contains (live_of self.old.handles) h ≡ false) }
        ensures live { IfOk result (λ h. live_of self.new.handles ≡ insert (live_of self.old.handles) h) }
        ensures held { IfOk result (λ h. held_in self.new.handles h ≡ record { node = node; mode = AccessMode.PathOnly }) }
        ensures others { (h : ℕ) → contains (live_of self.old.handles) h ≡ true
            → held_in self.new.handles h ≡ held_in self.old.handles h }
        ensures tree { self.new.tree ≡ self.old.tree }
        ensures touched { self.new.touched ≡ self.old.touched }
        ensures lookups { self.new.lookups ≡ self.old.lookups }
        ensures err { OnErr result (self.new ≡ self.old) }
    {
        if !self.store.is_directory(node) {
            return Err(HandleError::NotDirectory);
        }
        self.store.make_room(node)?;
        self.slots.reserve()?;
        let mode = AccessMode::PathOnly;
        Ok(self.slots.give(OpenHandle { node, mode }))
    }

    /// The numbers of the touched nodes, rising: of each call's handles, of the nodes under its names, and of those
    /// made, since the last `forget`.
    pub fn touched(&self, alloc: Global) -> Result<Vec<u64>, AllocError>
        ensures nodes { IfOk result (λ nodes. from_list nodes.items ≡ self.now.touched) }
        ensures rising { IfOk result (λ nodes. IsStrictlySortedBy nat_cmp nodes.items) }
    {
        self.store.list_touched(alloc)
    }
}

/// Makes a call of the tree, given what a handle refers to, and logs the lookup from that handle.
macro_rules! logged {
    ($host:ident, $kind:ident from $start:ident, |$at:ident| $call:ident($($argument:expr),*)) => {{
        let $at = $host.slots.held($start);
        let answer = calls::$call(&mut $host.store, $($argument),*);
        log_look(&mut $host.log, LookKind::$kind, $start);
        answer
    }};
}

#[tactic(auto, using(crate::proofs::MemLemmas::mem_rules))]
impl<S: NodeStore> Host for TreeHost<S> {
    ghost faults = { λ _. never_fails };

    ghost live = { λ m. live_of m.handles };

    ghost lookups = { λ m. m.lookups };

    ghost modelled = { true };

    ghost model = { model_of };

    ghost fails_modelled = { true };

    ghost fails = { λ _ _. Passes };

    ghost found_modelled = { true };

    ghost others = { λ _ _ t. t };

    ghost found = { λ m. m.tree };

    ghost left = { model_of };

    fn open_at(
        &mut self,
        start: Handle,
        name: Name<'_>,
        options: &OpenOptions,
    ) -> Result<Handle, HostError> {
        self.slots.reserve()?;
        let directory = self.slots.held(start).node;
        match calls::open_at(&mut self.store, directory, name, options) {
            Ok(held) => {
                let handle = self.slots.give(held);
                self.log = self.log.and(&Lookup {
                    kind: LookKind::Open,
                    from: start,
                    got: Some(handle),
                });
                Ok(handle)
            }
            Err(HostError::Code(code)) => {
                log_look(&mut self.log, LookKind::Open, start);
                Err(HostError::Code(code))
            }
            Err(HostError::Memory) => Err(HostError::Memory),
        }
    }

    fn stat_at(&mut self, start: Handle, name: Name<'_>) -> Result<Metadata, HostError> {
        logged!(self, Stat from start, |at| stat_at(at.node, name))
    }

    fn read_link_at(
        &mut self,
        alloc: Global,
        start: Handle,
        name: Name<'_>,
    ) -> Result<String, HostError> {
        logged!(self, ReadLink from start, |at| read_link_at(alloc, at.node, name))
    }

    fn make_dir_at(&mut self, start: Handle, name: Name<'_>) -> Result<(), HostError> {
        logged!(self, Make from start, |at| make_dir_at(at.node, name))
    }

    fn symlink_at(&mut self, target: &str, start: Handle, name: Name<'_>) -> Result<(), HostError> {
        logged!(self, MakeLink from start, |at| symlink_at(target, at.node, name))
    }

    fn link_at(
        &mut self,
        old: Handle,
        old_name: Name<'_>,
        new: Handle,
        new_name: Name<'_>,
    ) -> Result<(), HostError> {
        let from = self.slots.held(old).node;
        let to = self.slots.held(new).node;
        let answer = calls::link_at(&mut self.store, from, old_name, to, new_name);
        log_both(&mut self.log, LookKind::Link, old, new);
        answer
    }

    fn rename_at(
        &mut self,
        old: Handle,
        old_name: Name<'_>,
        new: Handle,
        new_name: Name<'_>,
        requires_dir: bool,
    ) -> Result<(), HostError> {
        let from = self.slots.held(old).node;
        let to = self.slots.held(new).node;
        let answer = calls::rename_at(&mut self.store, from, old_name, to, new_name, requires_dir);
        log_both(&mut self.log, LookKind::Rename, old, new);
        answer
    }

    fn unlink_at(&mut self, start: Handle, name: Name<'_>) -> Result<(), HostError> {
        logged!(self, Unlink from start, |at| unlink_at(at.node, name))
    }

    fn remove_dir_at(&mut self, start: Handle, name: Name<'_>) -> Result<(), HostError> {
        logged!(self, RemoveDir from start, |at| remove_dir_at(at.node, name))
    }

    fn times_at(
        &mut self,
        start: Handle,
        name: Name<'_>,
        atime: Option<SystemTime>,
        mtime: Option<SystemTime>,
    ) -> Result<(), HostError> {
        logged!(self, Times from start, |at| times_at(at.node, name, atime, mtime))
    }

    fn access(&mut self, directory: Handle) -> Result<(), ErrorCode> {
        let node = self.slots.held(directory).node;
        calls::access(&mut self.store, node)
    }

    fn list(&mut self, alloc: Global, directory: Handle) -> Result<Vec<DirEntry>, HostError> {
        logged!(self, List from directory, |at| list(alloc, at))
    }

    fn dup(&mut self, handle: Handle) -> Result<Handle, HostError> {
        self.slots.reserve()?;
        let held = self.slots.held(handle);
        let copy = self.slots.give(held);
        self.log = self.log.and(&Lookup {
            kind: LookKind::Dup,
            from: handle,
            got: Some(copy),
        });
        Ok(copy)
    }

    fn stat(&mut self, handle: Handle) -> Result<Metadata, ErrorCode> {
        let node = self.slots.held(handle).node;
        Ok(calls::stat(&mut self.store, node))
    }

    fn set_times(
        &mut self,
        handle: Handle,
        atime: Option<SystemTime>,
        mtime: Option<SystemTime>,
    ) -> Result<(), ErrorCode> {
        let node = self.slots.held(handle).node;
        calls::set_times(&mut self.store, node, atime, mtime);
        Ok(())
    }

    fn pread(&mut self, file: Handle, buf: &mut [u8], offset: u64) -> Result<usize, ErrorCode> {
        let held = self.slots.held(file);
        calls::read_at(&mut self.store, held, buf, offset)
    }

    fn pwrite(&mut self, file: Handle, piece: &[u8], offset: u64) -> Result<usize, HostError> {
        let held = self.slots.held(file);
        calls::write_at(&mut self.store, held, piece, offset)
    }

    fn append(&mut self, file: Handle, piece: &[u8]) -> Result<usize, HostError> {
        let held = self.slots.held(file);
        calls::append(&mut self.store, held, piece)
    }

    fn set_size(&mut self, file: Handle, size: u64) -> Result<(), HostError> {
        let held = self.slots.held(file);
        calls::set_size(&mut self.store, held, size)
    }

    fn sync(&mut self, handle: Handle) -> Result<(), ErrorCode> {
        let node = self.slots.held(handle).node;
        calls::sync(&mut self.store, node);
        Ok(())
    }

    fn advise(
        &mut self,
        file: Handle,
        offset: u64,
        len: u64,
        advice: Advice,
    ) -> Result<(), ErrorCode> {
        let node = self.slots.held(file).node;
        calls::advise(&mut self.store, node, offset, len, advice);
        Ok(())
    }

    fn flags(&mut self, handle: Handle) -> Result<SyncFlags, ErrorCode> {
        let node = self.slots.held(handle).node;
        Ok(calls::flags(&mut self.store, node))
    }

    fn close(&mut self, handle: Handle) {
        self.slots.release(handle);
    }

    fn laws(&self) {
        let _slots = &self.slots;
    }
}

#[tactic(auto, using(crate::proofs::MemLemmas::mem_rules))]
impl<S: NodeStore> Forget for TreeHost<S> {
    /// It takes a constant time, but for once in 2^32 - 1 times, when it goes over all nodes.
    fn forget(&mut self) {
        self.store.forget();
    }
}

/// Logs the two lookups of a call with two names, which made no handle.
fn log_both(log: &mut LookupLog, kind: LookKind, old: Handle, new: Handle)
    ensures { log.new.items ≡ log.old.items ++ both_looked kind old new }
{
    log_look(log, kind, old);
    log_look(log, kind, new);
}

/// Logs a lookup that made no handle.
fn log_look(log: &mut LookupLog, kind: LookKind, from: Handle)
    ensures { log.new.items ≡ log.old.items ++ one_looked kind from }
{
    *log = log.and(&Lookup {
        kind,
        from,
        got: None,
    });
}

//! A sandbox of either kind.
ghost use Rattle.std.specs.Prelude.{◌≡◌, ◌≤◌, ◌↔◌, None, IfSome, IfOk, map};
ghost use Rattle.std.specs.FinMap as maps;
ghost use Rattle.wasi_host.specs.Tree.{next_of, node_at, names_of};
ghost use Rattle.wasi_tree.specs.NodeData.{pair_of};
ghost use Rattle.wasi_tree.specs.Viewed.{Views};
ghost use Rattle.wasi_sandbox.specs.Any.{one_of, Becomes, Keeps};
ghost use Rattle.wasi_sandbox.specs.Calling.{CalledInto};
ghost use Rattle.wasi_sandbox.specs.Telling.{Tells};
ghost use Rattle.wasi_overlay.specs.Overlay.{IsFreshOn};
ghost use Rattle.wasi_p1_types.specs.Quotas.{IsWithinQuota};

use crate::result_layout::ResultLayout;
use crate::sandbox::Sandbox;
use crate::tree::SandboxTree;
use std::alloc::{AllocError, Global};
use wasi_guest::QuotaUsed;
use wasi_overlay::Overlay;
use wasi_p1::{Call, P1Error, Value};
use wasi_tree::{MemTree, NewEntry, NodeView};

/// A sandbox that stands alone, over a tree of its own, or over a tree that stays for as long as the program runs: for
/// a program that holds both kinds alike.
#[derive(Drop)]
pub enum AnySandbox {
    /// Over a tree of its own.
    Alone(Sandbox<MemTree>),
    /// Over a tree that stays, with its own changes.
    Over(Sandbox<Overlay<'static>>),
}

impl AnySandbox {
    /// One call, and its answer at the addresses of its results, as `Sandbox::call_into`.
    pub fn call_into(
        &mut self,
        memory: &mut [u8],
        request: Call,
        to: ResultLayout,
    ) -> Result<Value, P1Error>
        ensures called { Becomes self.old self.new (λ o w. CalledInto (λ m. m) o w memory.old memory.new request to result) }
    {
        match self {
            AnySandbox::Alone(sandbox) => sandbox.call_into(memory, request, to),
            AnySandbox::Over(sandbox) => sandbox.call_into(memory, request, to),
        }
    }

    /// How many calls were answered, as `Sandbox::answered`.
    pub fn answered(&self) -> u64
        ensures count { result ≡ (one_of self.now).answered }
    {
        match self {
            AnySandbox::Alone(sandbox) => sandbox.answered,
            AnySandbox::Over(sandbox) => sandbox.answered,
        }
    }

    /// How much of its quotas the guest has used so far, as `Sandbox::quota_used`.
    pub fn quota_used(&self) -> QuotaUsed
        ensures used { result ≡ (one_of self.now).context.holdings.used }
        ensures within { IsWithinQuota (one_of self.now).context.holdings.quota result }
    {
        match self {
            AnySandbox::Alone(sandbox) => sandbox.quota_used(),
            AnySandbox::Over(sandbox) => sandbox.quota_used(),
        }
    }

    /// The report of the sandbox as it stands, as `Sandbox::report`. The only `Err` is out of memory.
    pub fn report(&self, alloc: Global) -> Result<Vec<u8>, AllocError>
        ensures tells { IfOk result (λ text. Tells (λ m. m) (one_of self.now) text.items) }
    {
        match self {
            AnySandbox::Alone(sandbox) => sandbox.report(alloc),
            AnySandbox::Over(sandbox) => sandbox.report(alloc),
        }
    }

    /// The tree as it stands, in memory of its own, as `Sandbox::commit`. The only `Err` is out of memory.
    pub fn commit(&self, alloc: Global) -> Result<MemTree, AllocError>
        ensures { IfOk result (IsFreshOn (one_of self.now).context.host.inner.tree) }
    {
        match self {
            AnySandbox::Alone(sandbox) => sandbox.commit(alloc),
            AnySandbox::Over(sandbox) => sandbox.commit(alloc),
        }
    }

    /// The numbers of the nodes that steps have worked on, rising, of a sandbox over a tree that stays, as
    /// `Sandbox::kept`. None where it stands alone. The only `Err` is out of memory.
    pub fn kept(&self, alloc: Global) -> Result<Option<Vec<u64>>, AllocError>
        ensures kept { IfOk result (Keeps self.now) }
    {
        match self {
            AnySandbox::Alone(_) => Ok(None),
            AnySandbox::Over(sandbox) => Ok(Some(sandbox.kept(alloc)?)),
        }
    }

    /// The node of a number as it stands, lent without a copy, as `SandboxTree::node`.
    pub fn node(&self, number: u64) -> Option<NodeView<'_>>
        ensures none { (result ≡ None) ↔ (next_of (one_of self.now).context.host.inner.tree ≤ number) }
        ensures node { IfSome result (Views (node_at (one_of self.now).context.host.inner.tree number)) }
    {
        match self {
            AnySandbox::Alone(sandbox) => sandbox.tree().node(number),
            AnySandbox::Over(sandbox) => sandbox.tree().node(number),
        }
    }

    /// The node that a directory holds under a text, as `SandboxTree::entry`.
    pub fn entry(&self, dir: u64, name: &str) -> Option<u64>
        ensures entry { result ≡ maps.get (names_of (node_at (one_of self.now).context.host.inner.tree dir).content) name.now }
    {
        match self {
            AnySandbox::Alone(sandbox) => sandbox.tree().entry(dir, name),
            AnySandbox::Over(sandbox) => sandbox.tree().entry(dir, name),
        }
    }

    /// The entries of a directory in byte order, as `SandboxTree::entries`. The only `Err` is out of memory.
    pub fn entries(&self, alloc: Global, dir: u64) -> Result<Vec<NewEntry>, AllocError>
        ensures entries { IfOk result (λ entries. map pair_of entries.items
            ≡ maps.entries (names_of (node_at (one_of self.now).context.host.inner.tree dir).content)) }
    {
        match self {
            AnySandbox::Alone(sandbox) => sandbox.tree().entries(alloc, dir),
            AnySandbox::Over(sandbox) => sandbox.tree().entries(alloc, dir),
        }
    }

    /// What the guest wrote to the standard output so far.
    pub fn stdout(&self) -> &[u8]
        ensures bytes { result.now ≡ (one_of self.now).context.holdings.stdout }
    {
        match self {
            AnySandbox::Alone(sandbox) => sandbox.context.stdout(),
            AnySandbox::Over(sandbox) => sandbox.context.stdout(),
        }
    }

    /// What the guest wrote to the standard error so far.
    pub fn stderr(&self) -> &[u8]
        ensures bytes { result.now ≡ (one_of self.now).context.holdings.stderr }
    {
        match self {
            AnySandbox::Alone(sandbox) => sandbox.context.stderr(),
            AnySandbox::Over(sandbox) => sandbox.context.stderr(),
        }
    }
}

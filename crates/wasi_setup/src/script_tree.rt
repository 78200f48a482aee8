//! The trees that a script may be run over.
ghost use Rattle.std.specs.Prelude.{◌≡◌, ◌↔◌, ℕ, true, false, refl, Err, IfOk, OnErr, IsTrue};
ghost use Rattle.std.specs.FinSet.{contains, insert, from_list};
ghost use Rattle.std.specs.List.Sorted.{IsStrictlySortedBy};
ghost use Rattle.std.specs.Ordering.{nat_cmp};
ghost use Rattle.wasi_host.specs.Tree.{node_at, is_directory};
ghost use Rattle.wasi_host.specs.HostLaws.{never_fails};
ghost use Rattle.wasi_tree.specs.MemState.{MemState, live_of, held_in, model_of};

use std::alloc::{AllocError, Global};
use wasi_host::{AccessMode, Handle, Host};
use wasi_overlay::Overlay;
use wasi_tree::{HandleError, MemTree};

/// A tree of files that a script may be run over: a host that gives handles of its directories and lists what was
/// touched.
pub trait ScriptTree: Host + Drop {
    /// What contracts see of it: its tree, its handles, the touched nodes and the lookups.
    ghost seen: { Self → MemState };

    /// A handle of a directory, for its path alone. `NotDirectory` where the node isn't one; `Memory` where memory was
    /// wanted.
    fn directory_handle(&mut self, node: u64) -> Result<Handle, HandleError>
        ensures not_directory { (result ≡ Err HandleError.NotDirectory)
            ↔ (is_directory (node_at (seen self.old).tree node).content ≡ false) }
        ensures fresh { IfOk result (λ h. contains (live_of (seen self.old).handles) h ≡ false) }
        ensures live { IfOk result (λ h. live_of (seen self.new).handles ≡ insert (live_of (seen self.old).handles) h) }
        ensures held { IfOk result (λ h. held_in (seen self.new).handles h
            ≡ record { node = node; mode = AccessMode.PathOnly }) }
        ensures others { (h : ℕ) → contains (live_of (seen self.old).handles) h ≡ true
            → held_in (seen self.new).handles h ≡ held_in (seen self.old).handles h }
        ensures tree { (seen self.new).tree ≡ (seen self.old).tree }
        ensures touched { (seen self.new).touched ≡ (seen self.old).touched }
        ensures lookups { (seen self.new).lookups ≡ (seen self.old).lookups }
        ensures err { OnErr result (seen self.new ≡ seen self.old) };

    /// The numbers of the touched nodes, rising. The only `Err` is out of memory.
    fn touched_nodes(&self, alloc: Global) -> Result<Vec<u64>, AllocError>
        ensures nodes { IfOk result (λ nodes. from_list nodes.items ≡ (seen self.now).touched) }
        ensures rising { IfOk result (λ nodes. IsStrictlySortedBy nat_cmp nodes.items) };

    /// It is modelled.
    ghost is_told: { IsTrue Self.modelled };

    /// Its model is what is seen of it.
    ghost same_model: { (t : Self) → Self.model t ≡ model_of (seen t) };

    ghost same_live: { (t : Self) → Self.live t ≡ live_of (seen t).handles };

    ghost same_lookups: { (t : Self) → Self.lookups t ≡ (seen t).lookups };

    /// It never fails by itself.
    ghost no_faults: { (t : Self) → Self.faults t ≡ never_fails };
}

impl ScriptTree for MemTree {
    ghost seen = { λ m. m };

    ghost is_told = { refl };

    ghost same_model = { λ _. refl };

    ghost same_live = { λ _. refl };

    ghost same_lookups = { λ _. refl };

    ghost no_faults = { λ _. refl };

    fn directory_handle(&mut self, node: u64) -> Result<Handle, HandleError> {
        self.handle(node)
    }

    fn touched_nodes(&self, alloc: Global) -> Result<Vec<u64>, AllocError> {
        self.touched(alloc)
    }
}

impl<'a> ScriptTree for Overlay<'a> {
    ghost seen = { λ m. m };

    ghost is_told = { refl };

    ghost same_model = { λ _. refl };

    ghost same_live = { λ _. refl };

    ghost same_lookups = { λ _. refl };

    ghost no_faults = { λ _. refl };

    fn directory_handle(&mut self, node: u64) -> Result<Handle, HandleError> {
        self.handle(node)
    }

    fn touched_nodes(&self, alloc: Global) -> Result<Vec<u64>, AllocError> {
        self.touched(alloc)
    }
}

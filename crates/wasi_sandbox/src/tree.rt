//! The trees that a sandbox may stand over.
ghost use Rattle.std.specs.Prelude.{◌≡◌, ◌≤◌, ◌↔◌, None, IfSome, IfOk, OnOk, map};
ghost use Rattle.std.specs.FinMap as maps;
ghost use Rattle.wasi_host.specs.Tree.{next_of, node_at, names_of};
ghost use Rattle.wasi_tree.specs.NodeData.{pair_of};
ghost use Rattle.wasi_tree.specs.Viewed.{Views};
ghost use Rattle.wasi_report.specs.ReadBack.{IsOrdered};
ghost use Rattle.wasi_report.specs.Report.{reported, report_text};
ghost use Rattle.wasi_overlay.specs.Overlay.{IsFreshOn};

use std::alloc::{AllocError, Global};
use wasi_overlay::Overlay;
use wasi_report::{Outcome, report};
use wasi_setup::ScriptTree;
use wasi_tree::{MemTree, NewEntry, NodeView};

/// A tree that a sandbox may stand over: a report tells it, its nodes and names are read, and it is made a tree in memory
/// of its own.
pub trait SandboxTree: ScriptTree {
    /// The text of a report with this tree, as that of a tree in memory.
    fn report(&self, alloc: Global, outcome: &Outcome) -> Result<Vec<u8>, AllocError>
        ensures text { IfOk result (λ text. text.items ≡ report_text (reported outcome.now (Self.seen self.now).tree.nodes)) }
        ensures ordered { OnOk result (IsOrdered (reported outcome.now (Self.seen self.now).tree.nodes)) };

    /// The tree as it is, in memory of its own, as a tree on which no step has worked. It has no live handle, no node
    /// is touched, and there is no lookup.
    fn commit(&self, alloc: Global) -> Result<MemTree, AllocError>
        ensures { IfOk result (IsFreshOn (Self.seen self.now).tree) };

    /// The node of a number as it is, lent without a copy. A directory's names are asked for by `entry` and `entries`.
    /// None where there is no such node.
    fn node(&self, number: u64) -> Option<NodeView<'_>>
        ensures none { (result ≡ None) ↔ (next_of (Self.seen self.now).tree ≤ number) }
        ensures node { IfSome result (Views (node_at (Self.seen self.now).tree number)) };

    /// The node that a directory holds under a text, be the text a plain name or not. None where it holds none, and of
    /// what is no directory.
    fn entry(&self, dir: u64, name: &str) -> Option<u64>
        ensures entry { result ≡ maps.get (names_of (node_at (Self.seen self.now).tree dir).content) name.now };

    /// The entries of a directory in byte order, in memory of their own. What is no directory has none. The only `Err`
    /// is out of memory.
    fn entries(&self, alloc: Global, dir: u64) -> Result<Vec<NewEntry>, AllocError>
        ensures entries { IfOk result (λ entries. map pair_of entries.items
            ≡ maps.entries (names_of (node_at (Self.seen self.now).tree dir).content)) };
}

impl SandboxTree for MemTree {
    fn report(&self, alloc: Global, outcome: &Outcome) -> Result<Vec<u8>, AllocError> {
        report(alloc, outcome, self)
    }

    fn commit(&self, alloc: Global) -> Result<MemTree, AllocError> {
        Overlay::new(alloc, self).commit(alloc)
    }

    fn node(&self, number: u64) -> Option<NodeView<'_>> {
        self.node(number)
    }

    fn entry(&self, dir: u64, name: &str) -> Option<u64> {
        self.entry(dir, name)
    }

    fn entries(&self, alloc: Global, dir: u64) -> Result<Vec<NewEntry>, AllocError> {
        Overlay::new(alloc, self).entries(alloc, dir)
    }
}

impl<'a> SandboxTree for Overlay<'a> {
    fn report(&self, alloc: Global, outcome: &Outcome) -> Result<Vec<u8>, AllocError> {
        let tree = self.commit(alloc)?;
        report(alloc, outcome, &tree)
    }

    fn commit(&self, alloc: Global) -> Result<MemTree, AllocError> {
        self.commit(alloc)
    }

    fn node(&self, number: u64) -> Option<NodeView<'_>> {
        self.node(number)
    }

    fn entry(&self, dir: u64, name: &str) -> Option<u64> {
        self.entry(dir, name)
    }

    fn entries(&self, alloc: Global, dir: u64) -> Result<Vec<NewEntry>, AllocError> {
        self.entries(alloc, dir)
    }
}

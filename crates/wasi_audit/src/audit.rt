//! What an auditor knows of a run.
ghost use Rattle.std.specs.Prelude.{◌≡◌, IfOk, IfSome, OnOk, OnErr, option_map, slice_get};
ghost use Rattle.std.specs.List.Sorted.{IsStrictlyIncreasing};
ghost use Rattle.wasi_audit.specs.Audits.{started, noted};

use crate::effect::AuditEffect;
use crate::lists::{add_touched, make_room};
use crate::nodes::Nodes;
use crate::stems::Stems;
use std::alloc::{AllocError, Global};
use std::marker::Model;

/// From which preopened directory each descriptor number stems, and which nodes were touched through each of them.
///
/// Preopens are counted from 0, and the one at `i` has number `3 + i` at the start, as WASI preview1 numbers them; 0 to
/// 2 are the standard streams, which stem from none. What is opened through a number stems from what that number stems
/// from.
#[derive(Drop)]
pub struct Audit {
    alloc: Global,
    stems: Stems,
    lists: Vec<Nodes>,
}

impl Model for Audit {
    ghost use Rattle.std.specs.Prelude.{map};
    ghost use Rattle.wasi_audit.specs.Audits.{Audited, audited_code};

    ghost Value = { Audited };

    ghost coded = { audited_code };

    ghost use Rattle.wasi_audit.specs.NodeLists.{nodes_of};

    ghost view = { λ a. record { stems = a.stems; lists = map nodes_of a.lists.items } };
}

impl Audit {
    /// The audit at the start of a run with so many preopens, when no node was touched. It is refused where memory is
    /// wanted.
    pub fn new(alloc: Global, preopens: u32) -> Result<Audit, AllocError>
        ensures { IfOk result (λ a. a ≡ started preopens) }
    {
        let stems = Stems::new(alloc, preopens)?;
        let mut lists = Vec::with_capacity(alloc, preopens as usize)?;
        for _ in 0..preopens {
            lists.push_reserved(Nodes::new(alloc));
        }
        Ok(Audit {
            alloc,
            stems,
            lists,
        })
    }

    /// Notes a call that named these descriptor numbers and touched these nodes: they come to the list of each preopen
    /// from which a named number stems, and then the call's effect on the numbers is applied. Both lists may be in any
    /// order.
    ///
    /// It is refused if memory runs out, and then all is as before. A node that is there already costs a binary
    /// search; a new one moves those after it.
    pub fn note(
        &mut self,
        named: &[u32],
        touched: &[u64],
        effect: AuditEffect,
    ) -> Result<(), AllocError>
        ensures ok { OnOk result (self.new ≡ noted named.now touched.now effect self.old) }
        ensures err { OnErr result (self.new ≡ self.old) }
    {
        let preopens = self.stems.of_all(self.alloc, named)?;
        make_room(&mut self.lists, preopens.as_slice(), touched.len())?;
        self.stems.follow(effect)?;
        add_touched(&mut self.lists, preopens.as_slice(), touched);
        Ok(())
    }

    /// The nodes that were touched through a preopen, each once and rising; `None` exactly where there is no such
    /// preopen.
    pub fn list(&self, preopen: u32) -> Option<&[u64]>
        ensures listed { option_map (λ l. l.now) result ≡ slice_get self.now.lists preopen }
        ensures rising { IfSome result (λ l. IsStrictlyIncreasing l.now) }
    {
        let nodes = self.lists.get(preopen as usize)?;
        Some(nodes.as_slice())
    }
}

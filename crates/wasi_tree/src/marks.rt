//! Marks of nodes.
ghost use Rattle.std.specs.Prelude.{◌≡◌, ◌+◌, ◌<◌, ◌∷◌, IfOk, OnOk, IfSome, option_to_list};
ghost use Rattle.std.specs.Ordering.{nat_cmp};
ghost use Rattle.std.specs.List.Sorted.{IsStrictlySortedBy};
ghost use Rattle.std.specs.FinSet.{empty, insert, from_list};
ghost use Rattle.wasi_host.specs.Step.{with_nodes};

use std::alloc::{AllocError, Global};
use std::marker::Model;

/// Some of a tree's nodes, as those that were touched. Contracts see the count of nodes, the set of the marked ones,
/// and for how many more nodes there is room. The marks are set and cleared in rounds: a node is marked where it was
/// marked in the round of now.
#[derive(Debug, Drop)]
pub struct Marks {
    /// Of each node the round in which it was marked last, 0 where it never was.
    rounds: Vec<u32>,
    round: u32,
}

impl Model for Marks {
    ghost use Rattle.std.specs.Prelude.{◌-◌, length, vec_len, vec_capacity};
    ghost use Rattle.wasi_tree.specs.Marks.{AreRounds, Marked, marked_code, marked, marks_in};

    ghost Value = { Marked };

    ghost coded = { marked_code };

    ghost view = { λ a. record {
      count = length a.rounds.items;
      nodes = marked (marks_in a.round a.rounds.items);
      room = vec_capacity a.rounds - vec_len a.rounds;
    } };

    ghost invariant = { λ a. AreRounds a.round a.rounds.items };
}

#[tactic(auto, using(crate::proofs::MarkLemmas::mark_rules))]
impl Marks {
    /// So many nodes, none of which is marked.
    pub fn new(alloc: Global, count: usize) -> Result<Marks, AllocError>
        ensures count { IfOk result (λ marks. marks.count ≡ count) }
        ensures nodes { IfOk result (λ marks. marks.nodes ≡ empty) }
    {
        Ok(Marks {
            rounds: vec![in alloc; 0; count]?,
            round: 1,
        })
    }

    /// Makes room for one more node.
    pub fn reserve(&mut self) -> Result<(), AllocError>
        ensures count { self.new.count ≡ self.old.count }
        ensures nodes { self.new.nodes ≡ self.old.nodes }
        ensures room { OnOk result (0 < self.new.room) }
    {
        self.rounds.reserve(1)
    }

    /// One node more, which is marked.
    pub fn push(&mut self)
        requires { 0 < self.old.room }
        ensures count { self.new.count ≡ self.old.count + 1 }
        ensures nodes { self.new.nodes ≡ insert self.old.nodes self.old.count }
    {
        self.rounds.push_reserved(self.round);
    }

    /// Marks a node.
    pub fn mark(&mut self, node: u64)
        requires { node < self.old.count }
        ensures count { self.new.count ≡ self.old.count }
        ensures nodes { self.new.nodes ≡ insert self.old.nodes node }
        ensures room { self.new.room ≡ self.old.room }
    {
        self.rounds[node as usize] = self.round;
    }

    /// Marks the directory of a lookup, and the node that it found.
    pub fn mark_found(&mut self, directory: u64, found: Option<u64>)
        requires directory { directory < self.old.count }
        requires found { IfSome found (λ n. n < self.old.count) }
        ensures count { self.new.count ≡ self.old.count }
        ensures nodes { self.new.nodes ≡ with_nodes self.old.nodes (directory ∷ option_to_list found) }
    {
        self.mark(directory);
        if let Some(node) = found {
            self.mark(node);
        }
    }

    /// No node is marked from here on. It takes a constant time, but for once in 2^32 - 1 times, when it goes over all.
    pub fn clear(&mut self)
        ensures count { self.new.count ≡ self.old.count }
        ensures nodes { self.new.nodes ≡ empty }
        ensures room { self.new.room ≡ self.old.room }
    {
        match self.round.checked_add(1) {
            Some(next) => self.round = next,
            None => {
                self.rounds.fill(0);
                self.round = 1;
            }
        }
    }

    /// The marked nodes, rising.
    pub fn list(&self, alloc: Global) -> Result<Vec<u64>, AllocError>
        ensures nodes { IfOk result (λ nodes. from_list nodes.items ≡ self.now.nodes) }
        ensures rising { IfOk result (λ nodes. IsStrictlySortedBy nat_cmp nodes.items) }
    {
        let round = self.round;
        let mut nodes = Vec::new(alloc);
        for (node, &last) in self.rounds.iter().enumerate() {
            if last == round {
                nodes.push(node as u64)?;
            }
        }
        Ok(nodes)
    }
}

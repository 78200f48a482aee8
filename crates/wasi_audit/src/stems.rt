//! From which preopen each descriptor number stems.
ghost use Rattle.std.specs.Prelude.{◌≡◌, ℕ, OnOk, OnErr, IfOk};
ghost use Rattle.std.specs.FinMap.{get, remove};
ghost use Rattle.wasi_audit.specs.Audits.{first_stems, stems_after, with_stem, is_named_from};
ghost use Rattle.wasi_audit.specs.NodeLists.{is_among};

use crate::effect::AuditEffect;
use std::alloc::{AllocError, Global};
use std::collections::BTreeMap;
use std::marker::Model;

/// The preopen from which each descriptor number stems; a number without an entry stems from none.
#[derive(Drop)]
pub struct Stems {
    // wider than descriptor numbers, since the last preopens may be beyond these
    by_number: BTreeMap<u64, usize>,
}

impl Model for Stems {
    ghost use Rattle.std.specs.FinMap.{FinMap, code, from_entries};
    ghost use Rattle.std.specs.Ordering.{nat_cmp};
    ghost use Rattle.std.specs.Coded.{coded_ℕ};
    ghost use Rattle.std.specs.Prelude.{ℕ};

    ghost Value = { FinMap nat_cmp ℕ };

    ghost coded = { code coded_ℕ coded_ℕ };

    ghost view = { λ a. from_entries a.by_number.entries };
}

impl Stems {
    /// Those at the start of so many preopens.
    pub fn new(alloc: Global, preopens: u32) -> Result<Stems, AllocError>
        ensures { IfOk result (λ s. s ≡ first_stems preopens) }
    {
        let mut by_number = BTreeMap::new(alloc);
        for preopen in 0..preopens {
            by_number.insert(3 + u64::from(preopen), preopen as usize)?;
        }
        Ok(Stems { by_number })
    }

    /// The preopen from which a number stems, if it does from any.
    fn of(&self, number: u32) -> Option<usize>
        ensures { result ≡ get self.now number }
    {
        self.by_number.get(&u64::from(number)).copied()
    }

    /// The preopens from which these numbers stem.
    pub fn of_all(&self, alloc: Global, named: &[u32]) -> Result<Vec<usize>, AllocError>
        ensures { IfOk result (λ v. (i : ℕ) → is_among v.items i ≡ is_named_from self.now named.now i) }
    {
        let mut preopens = Vec::with_capacity(alloc, named.len())?;
        for number in named {
            if let Some(preopen) = self.of(*number) {
                preopens.push(preopen)?;
            }
        }
        Ok(preopens)
    }

    /// Applies an effect; if memory runs out all stays as it is.
    pub fn follow(&mut self, effect: AuditEffect) -> Result<(), AllocError>
        ensures ok { OnOk result (self.new ≡ stems_after effect self.old) }
        ensures err { OnErr result (self.new ≡ self.old) }
    {
        match effect {
            AuditEffect::Nothing => {}
            AuditEffect::Opened { from, to } => self.put(to, self.of(from))?,
            AuditEffect::Closed(number) => self.take(number),
            AuditEffect::Renumbered { from, to } => {
                if from != to {
                    self.put(to, self.of(from))?;
                    self.take(from);
                }
            }
        }
        Ok(())
    }

    fn put(&mut self, number: u32, stem: Option<usize>) -> Result<(), AllocError>
        ensures ok { OnOk result (self.new ≡ with_stem number stem self.old) }
        ensures err { OnErr result (self.new ≡ self.old) }
    {
        match stem {
            Some(preopen) => {
                self.by_number.insert(u64::from(number), preopen)?;
            }
            None => self.take(number),
        }
        Ok(())
    }

    fn take(&mut self, number: u32)
        ensures { self.new ≡ remove self.old number }
    {
        self.by_number.remove(&u64::from(number));
    }
}

//! A log of lookups that takes no memory.
ghost use Rattle.std.specs.Prelude.{◌≡◌, List, ◌++◌, [], ◌∷◌};
ghost use base.Fml.{ftrue};
ghost use Rattle.wasi_host.specs.declared.lookup.Lookup.{Lookup};

use crate::Lookup;
use std::marker::Model;

/// The lookups that a host made, for contracts alone: it takes no bytes, whatever their number, and nothing reads it
/// at run time. A host holds one and notes each lookup by [`LookupLog::and`].
#[derive(Debug, Drop)]
pub struct LookupLog {
    pub ghost items: { List Lookup },
}

impl Model for LookupLog {
    ghost also_owns = { λ _. ftrue };
}

impl LookupLog {
    /// A log of no lookups.
    pub fn new() -> LookupLog
        ensures none { result.items ≡ [] }
    {
        LookupLog {}
    }

    /// The log with this lookup after its others.
    #[inline(always)]
    pub fn and(&self, _lookup: &Lookup) -> LookupLog
        ensures added { result.items ≡ self.now.items ++ _lookup.now ∷ [] }
    {
        LookupLog {}
    }
}

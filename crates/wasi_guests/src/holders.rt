//! Which guests are known to hold a node.
ghost use Rattle.std.specs.Prelude.{◌≡◌, ◌<◌, ◌↔◌, IsTrue, MatchOption};
ghost use Rattle.wasi_guests.specs.Holders.{both, TellsOf, unknown};
ghost use Rattle.wasi_guests.specs.declared.holders.Holders.TheVariants.{Several};

/// The guests that are known to hold a node, which lies inside them: none so far, one, or more than one.
#[derive(Clone, Copy, Drop)]
pub(crate) enum Holders {
    Nobody,
    One(usize),
    Several,
}

impl Holders {
    /// These and the others together; none where all others are among these.
    pub(crate) fn more(self, other: Holders) -> Option<Holders>
        ensures { MatchOption result (TellsOf self other) (λ all. (all ≡ both self other) × (unknown all < unknown self)) }
    {
        match (self, other) {
            (_, Holders::Nobody) | (Holders::Several, _) => None,
            (Holders::Nobody, _) => Some(other),
            (Holders::One(guest), Holders::One(second)) if guest == second => None,
            _ => Some(Holders::Several),
        }
    }

    /// Whether more than one guest is known to hold the node.
    pub(crate) fn are_several(&self) -> bool
        ensures { IsTrue result ↔ (self.now ≡ Several) }
    {
        matches!(self, Holders::Several)
    }
}

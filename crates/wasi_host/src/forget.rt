//! Forgetting what was touched.
ghost use Rattle.std.specs.Prelude.{◌≡◌, ℕ, IsTrue};
ghost use Rattle.wasi_host.specs.HostLaws.{forgotten};
ghost use Rattle.wasi_host.specs.Tree.{Tree};

use crate::Host;

/// A host that can forget which nodes were touched, so that what the next calls touch is known by itself.
pub trait Forget: Host {
    /// No node is touched from here on, and all other meanings stay. It takes no memory.
    fn forget(&mut self)
        ensures faults { Self.faults self.new ≡ Self.faults self.old }
        ensures live { Self.live self.new ≡ Self.live self.old }
        ensures logged { Self.lookups self.new ≡ Self.lookups self.old }
        ensures model { IsTrue Self.modelled → Self.model self.new ≡ forgotten (Self.model self.old) }
        ensures fails { IsTrue Self.fails_modelled → (n : ℕ) → Self.fails self.new n ≡ Self.fails self.old n }
        ensures others { IsTrue Self.found_modelled → (n : ℕ) (t : Tree) → Self.others self.new n t ≡ Self.others self.old n t }
        ensures found { IsTrue Self.found_modelled → Self.found self.new ≡ Self.found self.old }
        ensures left { IsTrue Self.found_modelled → Self.left self.new ≡ forgotten (Self.left self.old) };
}

//! Where bytes come from, and where they go.
ghost use Rattle.std.specs.Prelude.{◌≡◌, ◌≤◌, ◌<◌, ◌++◌, List, ℕ, Bool, IsTrue, length, take, drop, IfOk, OnErr};
ghost use Rattle.wasi_host.specs.HostLaws.{Risen};
ghost use Rattle.wasi_io.specs.Ends.{Gave};

// How many bytes are read at once.
pub(crate) const CHUNK: usize = 65_536;

/// A read or a write failed.
#[derive(Clone, Copy, Debug, PartialEq, Eq)]
pub struct Failed;

/// Where bytes come from.
pub trait Source {
    /// Whether it is modelled: contracts know the bytes that are left.
    ghost modelled: { Bool };

    /// The bytes that are left, where it is modelled.
    ghost left: { Self → List ℕ };

    /// How often it failed. The count stands still at 2^64 - 1.
    ghost faults: { Self → ℕ };

    /// Puts the next bytes into the front of the buffer, and answers how many: where it is modelled, 0 for a buffer
    /// that isn't empty exactly where none is left. The rest of the buffer stays as it was, and after a failure all of
    /// it, and none of its bytes is lost then.
    fn read(&mut self, buf: &mut [u8]) -> Result<usize, Failed>
        ensures fits { IfOk result (λ n. n ≤ length buf.old) }
        ensures bytes { IsTrue modelled → IfOk result (λ n. Gave (left self.old) (left self.new) buf.new n) }
        ensures none { IsTrue modelled → OnErr result (left self.new ≡ left self.old) }
        ensures rest { IfOk result (λ n. drop n buf.new ≡ drop n buf.old) }
        ensures kept { OnErr result (buf.new ≡ buf.old) }
        ensures count { faults self.old ≤ faults self.new }
        ensures cause { OnErr result (Risen (faults self.old) (faults self.new)) };
}

/// Where bytes go.
pub trait Sink {
    /// Whether it is modelled: contracts know the bytes that it took.
    ghost modelled: { Bool };

    /// The bytes that it took, where it is modelled.
    ghost taken: { Self → List ℕ };

    /// How often it failed, or took nothing of a piece that isn't empty. The count stands still at 2^64 - 1.
    ghost faults: { Self → ℕ };

    /// Takes a front of the piece, and answers how many bytes it has.
    fn write(&mut self, piece: &[u8]) -> Result<usize, Failed>
        ensures fits { IfOk result (λ n. n ≤ length piece.now) }
        ensures bytes { IsTrue modelled → IfOk result (λ n. taken self.new ≡ taken self.old ++ take n piece.now) }
        ensures none { IsTrue modelled → OnErr result (taken self.new ≡ taken self.old) }
        ensures count { faults self.old ≤ faults self.new }
        ensures cause { OnErr result (Risen (faults self.old) (faults self.new)) }
        ensures stuck { IfOk result (λ n. n ≡ 0 → 0 < length piece.now → Risen (faults self.old) (faults self.new)) };
}

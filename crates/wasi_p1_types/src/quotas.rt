//! What a quota leaves, and where a file ends.
ghost use Rattle.std.specs.Prelude.{◌≡◌, ◌+◌, ◌≤◌, false, IfOk, IfErr};
ghost use Rattle.wasi_p1_types.specs.CallParts.{WantsNoMemory, is_failure};
ghost use Rattle.wasi_p1_types.specs.Quotas.{end_of_piece, growth_within};
ghost use Rattle.wasi_p1_types.specs.Spending.{growth_from};

use crate::error::P1Error;
use wasi_guest::Errno;

/// What a bound on grown bytes leaves to a descriptor.
#[derive(Clone, Copy, Debug, PartialEq, Eq)]
pub struct Allowance {
    /// The bound.
    pub most: u64,
    /// How many bytes of it are used.
    pub used: u64,
    /// Whether the descriptor was opened for writing. Of another one nothing is reckoned: its host refuses it.
    pub may_grow: bool,
}

/// Where a file ends after a write or a new size.
#[derive(Clone, Copy, Debug, PartialEq, Eq)]
pub enum FileEnd {
    /// So many bytes after its last one.
    Behind(u64),
    /// At this place, if it isn't longer already. It may be past 64 bits, as an offset and a piece's length may be.
    At(u128),
}

impl FileEnd {
    /// Where a piece ends that is put from an offset on. An empty one moves no end.
    pub fn of_piece(offset: u64, piece: &[u8]) -> FileEnd
        ensures { result ≡ end_of_piece offset piece.now }
    {
        if piece.is_empty() {
            return FileEnd::Behind(0);
        }
        FileEnd::At(offset as u128 + piece.len() as u128)
    }
}

impl Allowance {
    /// The growth that is reckoned of a file of this size. Refusal: Dquot where the bound would be passed with it.
    #[tactic(auto, unfolding(crate::specs::Spending::growth_from))]
    pub fn growth_from(self, end: FileEnd, size: u64) -> Result<u64, P1Error>
        ensures specified { result ≡ growth_from self end size }
        ensures fits { IfOk result (λ growth. self.used + growth ≤ self.most) }
        ensures refusal { IfErr result (λ e. is_failure e ≡ false) }
        ensures never_wants { IfErr result WantsNoMemory }
    {
        let growth = self.growth_within(end, size);
        let used = (self.used as u128).saturating_add(growth);
        if used > self.most as u128 {
            return Err(P1Error::Errno(Errno::Dquot));
        }
        Ok(growth as u64)
    }

    /// The same, whatever the bound.
    fn growth_within(self, end: FileEnd, size: u64) -> u128
        ensures { result ≡ growth_within self end size }
    {
        if !self.may_grow {
            return 0;
        }
        match end {
            FileEnd::Behind(more) => more as u128,
            FileEnd::At(end) => end.saturating_sub(size as u128),
        }
    }
}

//! Laws of the table and its steps, and of the constants.
ghost use Rattle.std.specs.Prelude.{◌≡◌, ◌<◌, ℕ, None, [], ◌∷◌, Decides};
ghost use Rattle.wasi_host.specs.Below.{is_below};
ghost use Rattle.wasi_host.specs.HostCall.{HostCall, CanBeAsked};
ghost use Rattle.wasi_host.specs.Numbers.{largest_file, longest_link, second};
ghost use Rattle.wasi_host.specs.Refusal.{refusal};
ghost use Rattle.wasi_host.specs.Step.{step};
ghost use Rattle.wasi_host.specs.Time.{zero_time};
ghost use Rattle.wasi_host.specs.Tree.{Tree, next_of};
ghost use Rattle.wasi_host.specs.ValidTree.{IsValidTree, Reached};
ghost use Rattle.wasi_host.specs.declared.TheConstants.{NANOSECONDS};
ghost use Rattle.wasi_host.specs.declared.limits.TheConstants.{FILE_MAX, LINK_MAX};

use crate::SystemTime;

/// The step of a call that isn't refused keeps a valid tree valid. It does nothing: its clause is the law.
pub fn steps_keep_trees_valid()
    ensures valid { (t : Tree) (call : HostCall) → IsValidTree t → CanBeAsked call → refusal t call ≡ None
        → IsValidTree (step t call) }
{}

/// A node is below another, as the table of `rename_at` asks, exactly where it is reached from that one by names, or is
/// it. It does nothing: its clause is the law.
pub fn below_is_reached()
    ensures below { (t : Tree) (top n : ℕ) → IsValidTree t → top < next_of t
        → Decides (is_below t top n) (Reached t (top ∷ []) n) }
{}

/// The constants are the numbers of the table and of the laws: a link's text has at most 4,095 bytes, a file at most
/// 2^30, and a second 1,000,000,000 nanoseconds. It does nothing: its clauses are the laws.
pub fn constants_are()
    ensures link { LINK_MAX ≡ longest_link }
    ensures file { FILE_MAX ≡ largest_file }
    ensures nanoseconds { NANOSECONDS ≡ second }
{}

/// The epoch is 0 seconds and 0 nanoseconds. It answers the constant `EPOCH`: its clause is the law.
pub fn epoch_is() -> SystemTime
    ensures epoch { result ≡ zero_time }
{
    SystemTime::EPOCH
}

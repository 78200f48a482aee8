//! How a sandbox is begun.
ghost use Rattle.std.specs.Prelude.{◌≡◌, [], map, slice_get, IfOk, IsTrue};
ghost use Rattle.std.specs.FinSet.{empty};
ghost use Rattle.std.specs.List.{list_all};
ghost use Rattle.wasi_host_faults.specs.Faults.{numbers_rise};
ghost use Rattle.wasi_guest.specs.Quotas.{IsQuota};
ghost use Rattle.wasi_form.specs.LimitsForm.{default_limits};
ghost use Rattle.wasi_form.specs.Plan.{drafted, planned, planned_preopen};
ghost use Rattle.wasi_form.specs.Within.{is_directory_data};
ghost use Rattle.wasi_setup.specs.Start.{IsWithinOn};
ghost use Rattle.wasi_host.specs.ValidTree.{AreLimits};
ghost use Rattle.wasi_tree.specs.NodeData.{data_of_node, node_data};
ghost use Rattle.wasi_sandbox.specs.Starting.{has_no_guest, has_no_tree, JudgesOver, StartsBy, StartsOn, StartsOver};

use crate::error::StartError;
use crate::sandbox::Sandbox;
use std::alloc::Global;
use wasi_form::{
    DEFAULT_LIMITS, Draft, Refusal, ScriptPreopen, Session, is_session_within, read_draft,
    read_script,
};
use wasi_host::Limits;
use wasi_overlay::Overlay;
use wasi_setup::{begin, begin_over};
use wasi_tree::{ContentView, MemTree, NewNode};

fn has_no_guest(session: &Session) -> bool
    ensures { result ≡ has_no_guest (planned [] default_limits session.now) }
{
    session.calls.is_empty() && session.show.is_empty() && session.size == 0
}

/// A sandbox that stands as a script begins: over the tree of its nodes, with its preopens, all that its guest is
/// handed in, its quotas, its table and its fuel, and with its faults to come. `docs/scripts.md` says what a script is;
/// this one has no calls, no memory and nothing to be shown.
pub fn start(alloc: Global, text: &[u8]) -> Result<Sandbox<MemTree>, StartError>
    ensures starts { StartsBy (λ m. m) text.now result }
{
    let script = read_script(alloc, alloc, text)?;
    if !has_no_guest(&script.session) {
        return Err(StartError::Guest);
    }
    let begun = begin(alloc, script)?;
    Ok(Sandbox::of_state(begun.context, begun.fuel))
}

fn has_no_tree(draft: &Draft) -> bool
    ensures { result ≡ has_no_tree (drafted draft.now) }
{
    let limits = draft.limits;
    draft.nodes.is_empty()
        && limits.nodes == DEFAULT_LIMITS.nodes
        && limits.links == DEFAULT_LIMITS.links
}

fn is_directory(base: &MemTree, node: u64) -> bool
    ensures { result ≡ is_directory_data (slice_get (map data_of_node base.now.tree.nodes) node) }
{
    match base.node(node) {
        Some(view) => matches!(view.content, ContentView::Dir),
        None => false,
    }
}

fn are_directories(base: &MemTree, preopens: &[ScriptPreopen]) -> bool
    ensures { result ≡ list_all (λ preopen. is_directory_data
        (slice_get (map data_of_node base.now.tree.nodes) (planned_preopen preopen).node)) preopens.now }
{
    preopens
        .iter()
        .all(|preopen| is_directory(base, preopen.node))
}

/// What is run over a tree by a script that has no tree of its own.
fn session_over(alloc: Global, base: &MemTree, text: &[u8]) -> Result<Session, StartError>
    ensures judged { JudgesOver base.now.tree text.now result }
    ensures rising { IfOk result (λ session. IsTrue (numbers_rise session.faults.items)) }
    ensures quota { IfOk result (λ session. IsQuota session.quota) }
    ensures within { IfOk result (IsWithinOn (record base.now.tree { worked = empty })) }
{
    let draft = read_draft(alloc, alloc, text)?;
    if !has_no_tree(&draft) {
        return Err(StartError::OwnTree);
    }
    let session = draft.session;
    let directories = are_directories(base, session.preopens.as_slice());
    if !is_session_within(directories, &session) {
        return Err(StartError::Refused(Refusal::Limit));
    }
    if !has_no_guest(&session) {
        return Err(StartError::Guest);
    }
    Ok(session)
}

/// A sandbox over a tree that stays: any number of sandboxes may stand over one, and none sees what another changes. It
/// stands as `start` has one, with the nodes and the limits of the tree in place of the script's. The script has no
/// nodes, `[]`, and no limits but those of a script that doesn't say them; its preopens are directories of the tree.
/// Its `commit` is a tree of what it came to, over which sandboxes may be begun again. (No clause says that the tree
/// isn't copied: the code doesn't.)
///
/// Refusals, the first that holds: `Refused` of `Long`, `Json` or `Shape`, as of a script; `OwnTree` where the script
/// has nodes or limits; `Refused(Limit)` where the rest isn't within the limits of a script, or a preopen isn't a
/// directory of the tree; `Guest` as of `start`. `Memory` if memory ran out.
pub fn start_over<'a>(
    alloc: Global,
    base: &'a MemTree,
    text: &[u8],
) -> Result<Sandbox<Overlay<'a>>, StartError>
    ensures starts { StartsOver (λ m. m) base.now.tree text.now result }
{
    let session = session_over(alloc, base, text)?;
    let begun = begin_over(alloc, Overlay::new(alloc, base), session)?;
    Ok(Sandbox::of_state(begun.context, begun.fuel))
}

/// A sandbox over a tree of these nodes, whose numbers are their places in the list, within these limits. It stands as
/// `start` has one, with these nodes and limits in place of the script's: the script has no nodes, `[]`, and no limits
/// but those of a script that doesn't say them. So a tree needs no text, and its files' bytes aren't copied.
///
/// Refusals, the first that holds: `Nodes` where the nodes are no tree, with the lowest number that breaks the rules of
/// `MemTree::new`; then those of `start_over`. `Memory` if memory ran out.
pub fn start_on(
    alloc: Global,
    nodes: Vec<NewNode>,
    limits: Limits,
    text: &[u8],
) -> Result<Sandbox<MemTree>, StartError>
    requires limits { AreLimits limits }
    ensures starts { StartsOn (λ m. m) limits (map node_data nodes.items) text.now result }
{
    let tree = MemTree::new(alloc, nodes, limits)?;
    let session = session_over(alloc, &tree, text)?;
    let begun = begin_over(alloc, tree, session)?;
    Ok(Sandbox::of_state(begun.context, begun.fuel))
}

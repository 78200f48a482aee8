//! What a rename moves, in whatever way the nodes are kept.
ghost use Rattle.std.specs.Prelude.{◌≡◌, ◌&&◌, Some, IfOk, true};
ghost use Rattle.wasi_paths.specs.Name.{name_bytes};
ghost use Rattle.wasi_host.specs.Tree.{node_at, is_directory, hold_one};
ghost use Rattle.wasi_host.specs.Below.{is_below};
ghost use Rattle.wasi_host.specs.HostCall.{RenameAt};
ghost use Rattle.wasi_host.specs.Refusal.{first_rule, loop_rules, refusal, refused_with};
ghost use Rattle.wasi_tree.specs.NameLookup.{IsLooked};
ghost use Rattle.wasi_tree.specs.Move.{Moves};

use crate::name_lookup::NameLookup;
use crate::node_store::NodeStore;
use crate::refusals::{node_to_rename, refuse_move};
use wasi_host::ErrorCode;

/// The node that a rename moves, or nothing where both names hold it already; where a rule refuses the rename, its
/// code.
pub fn node_to_move<S: NodeStore>(
    store: &S,
    from: &NameLookup<'_>,
    to: &NameLookup<'_>,
    requires_dir: bool,
) -> Result<Option<u64>, ErrorCode>
    requires from { IsLooked (S.seen store.now).tree from.now }
    requires to { IsLooked (S.seen store.now).tree to.now }
    ensures refusal { refused_with result ≡ refusal (S.seen store.now).tree
        (RenameAt from.now.directory (name_bytes from.now.name) to.now.directory (name_bytes to.now.name) requires_dir) }
    ensures moves { IfOk result (Moves (S.seen store.now).tree from.now.directory (name_bytes from.now.name)
        to.now.directory (name_bytes to.now.name) to.now.found) }
{
    let node = node_to_rename(store, from, to, requires_dir)?;
    if let Some(code) = refuse_loop(store, from.directory, to.directory, node, to.found) {
        return Err(code);
    }
    if holds_node(to.found, node) {
        return Ok(None);
    }
    if let Some(code) = refuse_move(store, from.directory, to.directory, node, to.found) {
        return Err(code);
    }
    Ok(Some(node))
}

/// The rules for a node that would come below itself, or in place of a directory that is above it.
fn refuse_loop<S: NodeStore>(
    store: &S,
    old: u64,
    new: u64,
    node: u64,
    there: Option<u64>,
) -> Option<ErrorCode>
    requires old { is_directory (node_at (S.seen store.now).tree old).content ≡ true }
    requires new { is_directory (node_at (S.seen store.now).tree new).content ≡ true }
    ensures { result ≡ first_rule (loop_rules (S.seen store.now).tree old new (Some node) there) }
{
    if has_below(store, node, new) {
        return Some(ErrorCode::Invalid);
    }
    let Some(lost) = there else {
        return None;
    };
    if has_below(store, lost, old) {
        return Some(ErrorCode::NotEmpty);
    }
    None
}

/// Whether a node is a directory, and another directory is this one or below it.
fn has_below<S: NodeStore>(store: &S, top: u64, directory: u64) -> bool
    requires { is_directory (node_at (S.seen store.now).tree directory).content ≡ true }
    ensures { result
        ≡ (is_directory (node_at (S.seen store.now).tree top).content && is_below (S.seen store.now).tree top directory) }
{
    store.is_directory(top) && store.is_below(top, directory)
}

/// Whether a name holds this node.
fn holds_node(held: Option<u64>, node: u64) -> bool
    ensures { result ≡ hold_one (Some node) held }
{
    match held {
        Some(other) => node == other,
        None => false,
    }
}

//! What the host's table refuses, in whatever way the nodes are kept.
ghost use Rattle.std.specs.Prelude.{◌≡◌, ◌-◌, ◌<◌, ◌^◌, OnOk, Some, IfOk, MatchResult, Ok, Err, map, All, IsTrue};
ghost use Rattle.std.specs.Option.{ForSome};
ghost use Rattle.wasi_paths.specs.Name.{name_bytes};
ghost use Rattle.wasi_host.specs.Tree.{next_of, node_at, child, links_of};
ghost use Rattle.wasi_host.specs.HostCall.{OpenAt, StatAt, MakeDirAt, SymlinkAt, LinkAt, UnlinkAt, RemoveDirAt};
ghost use Rattle.wasi_host.specs.Refusal.{refusal, refused_with, first_rule, name_rules, adding_rules, growing_rules, making_rules, text_rules, missing_rules, found_rules, both_rules, links_rules, dropping_rules, naming_rules, access_rules, replacing_rules, moving_rules};
ghost use Rattle.wasi_paths.specs.Text.{is_entry_name};
ghost use Rattle.wasi_host.specs.Time.{HasTimes};
ghost use Rattle.wasi_host.specs.Answer.{stat_at_answer, link_answer, access_answer, list_answer, entry_of};
ghost use Rattle.wasi_host.specs.Step.{name_dropped, name_lost, unlink_step, remove_step};
ghost use Rattle.wasi_tree.specs.NameLookup.{IsLooked};
ghost use Rattle.wasi_tree.specs.Move.{HasName, MayGain};
ghost use Rattle.wasi_tree.specs.Sound.{IsSoundText};
ghost use Rattle.wasi_tree.specs.TouchedTree.{MeansCode};

use crate::name_lookup::NameLookup;
use crate::node_store::NodeStore;
use std::alloc::Global;
use wasi_host::{DirEntry, ErrorCode, HostError, LINK_MAX, Metadata, OpenHandle, OpenOptions};
use wasi_paths::Name;

/// What is wrong with a name in a directory.
#[tactic(auto, using(crate::proofs::StoreLemmas::store_rules), unfolding(wasi_host::specs::Refusal::refusal))]
pub fn refuse_name<S: NodeStore>(store: &S, directory: u64, name: Name<'_>) -> Option<ErrorCode>
    requires { directory < next_of (S.seen store.now).tree }
    ensures { result ≡ first_rule (name_rules (S.seen store.now).tree directory (name_bytes name.entry)) }
{
    if name.has_nul() {
        return Some(ErrorCode::Invalid);
    }
    if name.is_long() {
        return Some(ErrorCode::NameTooLong);
    }
    if !store.bits(directory).x {
        return Some(ErrorCode::Access);
    }
    None
}

/// The rules of an open that speak of a missing name.
#[tactic(auto, using(crate::proofs::StoreLemmas::store_rules))]
pub fn refuse_missing<S: NodeStore>(
    store: &S,
    directory: u64,
    options: &OpenOptions,
) -> Option<ErrorCode>
    requires { directory < next_of (S.seen store.now).tree }
    ensures { result ≡ first_rule (missing_rules (S.seen store.now).tree directory options.now) }
{
    if !options.creates() {
        return Some(ErrorCode::NoEntry);
    }
    refuse_growth(store, directory)
}

/// The rules for a directory that is to get a name.
#[tactic(auto, using(crate::proofs::StoreLemmas::store_rules))]
pub fn refuse_entry<S: NodeStore>(store: &S, directory: u64) -> Option<ErrorCode>
    requires { directory < next_of (S.seen store.now).tree }
    ensures { result ≡ first_rule (adding_rules (S.seen store.now).tree directory) }
{
    if store.is_gone(directory) {
        return Some(ErrorCode::NoEntry);
    }
    if !store.bits(directory).w {
        return Some(ErrorCode::Access);
    }
    None
}

/// The rules for a directory that is to get a new node.
#[tactic(auto, using(crate::proofs::StoreLemmas::store_rules))]
pub fn refuse_growth<S: NodeStore>(store: &S, directory: u64) -> Option<ErrorCode>
    requires { directory < next_of (S.seen store.now).tree }
    ensures { result ≡ first_rule (growing_rules (S.seen store.now).tree directory) }
{
    if let Some(code) = refuse_entry(store, directory) {
        return Some(code);
    }
    if store.limits().nodes <= store.count() {
        return Some(ErrorCode::InsufficientSpace);
    }
    None
}

/// The rules of an open that speak of the node that is there.
#[tactic(auto, using(crate::proofs::StoreLemmas::store_rules))]
pub fn refuse_found<S: NodeStore>(store: &S, node: u64, options: &OpenOptions) -> Option<ErrorCode>
    requires { node < next_of (S.seen store.now).tree }
    ensures { result ≡ first_rule (found_rules (S.seen store.now).tree options.now (Some node)) }
{
    if options.is_create_new() {
        return Some(ErrorCode::Exist);
    }
    if store.is_link(node) {
        return Some(if options.is_dir_required() {
            ErrorCode::NotDirectory
        } else {
            ErrorCode::Loop
        });
    }
    if store.is_file(node) && options.is_dir_required() {
        return Some(ErrorCode::NotDirectory);
    }
    if store.is_directory(node) && options.is_write() {
        return Some(ErrorCode::IsDirectory);
    }
    if options.is_path_only() {
        return None;
    }
    let bits = store.bits(node);
    if options.is_read() && !bits.r {
        return Some(ErrorCode::Access);
    }
    if options.is_write() && !bits.w {
        return Some(ErrorCode::Access);
    }
    None
}

/// The code of the first rule of an open that holds, where the name holds this node.
#[tactic(auto, using(crate::proofs::StoreLemmas::store_rules), unfolding(wasi_host::specs::Refusal::refusal))]
pub fn refuse_open<S: NodeStore>(
    store: &S,
    looked: &NameLookup<'_>,
    options: &OpenOptions,
) -> Option<ErrorCode>
    requires { IsLooked (S.seen store.now).tree looked.now }
    ensures { result ≡ refusal (S.seen store.now).tree (OpenAt looked.now.directory (name_bytes looked.now.name) options.now) }
{
    if !store.is_directory(looked.directory) {
        return Some(ErrorCode::NotDirectory);
    }
    if options.are_refused() {
        return Some(ErrorCode::Invalid);
    }
    if let Some(code) = refuse_name(store, looked.directory, looked.name) {
        return Some(code);
    }
    if options.creates() && options.is_dir_required() {
        return Some(ErrorCode::Invalid);
    }
    let Some(node) = looked.found else {
        return refuse_missing(store, looked.directory, options);
    };
    refuse_found(store, node, options)
}

/// The node that a name holds, where no rule of a look at its metadata refuses; else the rule's code.
#[tactic(auto, using(crate::proofs::StoreLemmas::store_rules), unfolding(wasi_host::specs::Refusal::refusal))]
pub fn node_under<S: NodeStore>(store: &S, looked: &NameLookup<'_>) -> Result<u64, ErrorCode>
    requires { IsLooked (S.seen store.now).tree looked.now }
    ensures refusal { refused_with result ≡ refusal (S.seen store.now).tree (StatAt looked.now.directory (name_bytes looked.now.name)) }
    ensures node { IfOk result (λ n. child (S.seen store.now).tree looked.now.directory (name_bytes looked.now.name) ≡ Some n) }
    ensures below { IfOk result (λ n. n < next_of (S.seen store.now).tree) }
    ensures found { IfOk result (λ n. looked.now.found ≡ Some n) }
{
    if !store.is_directory(looked.directory) {
        return Err(ErrorCode::NotDirectory);
    }
    if let Some(code) = refuse_name(store, looked.directory, looked.name) {
        return Err(code);
    }
    let Some(node) = looked.found else {
        return Err(ErrorCode::NoEntry);
    };
    Ok(node)
}

/// The rules for a name that is to hold a new node.
#[tactic(auto, using(crate::proofs::StoreLemmas::store_rules))]
pub fn refuse_new_name<S: NodeStore>(store: &S, looked: &NameLookup<'_>) -> Option<ErrorCode>
    requires { IsLooked (S.seen store.now).tree looked.now }
    ensures { result ≡ first_rule (making_rules (S.seen store.now).tree looked.now.directory (name_bytes looked.now.name)) }
{
    if let Some(code) = refuse_name(store, looked.directory, looked.name) {
        return Some(code);
    }
    if looked.found.is_some() {
        return Some(ErrorCode::Exist);
    }
    refuse_growth(store, looked.directory)
}

/// The code of the first rule that refuses to make a directory, where the name holds this node.
#[tactic(auto, using(crate::proofs::StoreLemmas::store_rules), unfolding(wasi_host::specs::Refusal::refusal))]
pub fn refuse_make_dir<S: NodeStore>(store: &S, looked: &NameLookup<'_>) -> Option<ErrorCode>
    requires { IsLooked (S.seen store.now).tree looked.now }
    ensures { result ≡ refusal (S.seen store.now).tree (MakeDirAt looked.now.directory (name_bytes looked.now.name)) }
{
    if !store.is_directory(looked.directory) {
        return Some(ErrorCode::NotDirectory);
    }
    refuse_new_name(store, looked)
}

/// The code of the first rule that refuses to make a link of this text, where the name holds this node.
#[tactic(auto, using(crate::proofs::StoreLemmas::store_rules), unfolding(wasi_host::specs::Refusal::refusal))]
pub fn refuse_symlink<S: NodeStore>(
    store: &S,
    target: &str,
    looked: &NameLookup<'_>,
) -> Option<ErrorCode>
    requires { IsLooked (S.seen store.now).tree looked.now }
    ensures { result ≡ refusal (S.seen store.now).tree (SymlinkAt target.now looked.now.directory (name_bytes looked.now.name)) }
{
    if !store.is_directory(looked.directory) {
        return Some(ErrorCode::NotDirectory);
    }
    if let Some(code) = refuse_text(target) {
        return Some(code);
    }
    refuse_new_name(store, looked)
}

/// The text of the link that a name holds.
#[tactic(auto, using(crate::proofs::StoreLemmas::store_rules))]
pub fn text_under<'s, S: NodeStore>(
    store: &'s S,
    looked: &NameLookup<'_>,
) -> Result<&'s str, ErrorCode>
    requires { IsLooked (S.seen store.now).tree looked.now }
    ensures meaning { MatchResult result
        (λ text. link_answer (S.seen store.now).tree looked.now.directory (name_bytes looked.now.name) ≡ Ok text.now)
        (λ code. link_answer (S.seen store.now).tree looked.now.directory (name_bytes looked.now.name) ≡ Err code) }
    ensures text { IfOk result (λ text. IsSoundText text.now) }
{
    let node = node_under(store, looked)?;
    if !store.is_link(node) {
        return Err(ErrorCode::Invalid);
    }
    Ok(store.text(node))
}

/// Whether a directory may be searched.
#[tactic(auto, using(crate::proofs::StoreLemmas::store_rules), unfolding(wasi_host::specs::Refusal::refusal))]
pub fn access_of<S: NodeStore>(store: &S, directory: u64) -> Result<(), ErrorCode>
    requires { directory < next_of (S.seen store.now).tree }
    ensures { access_answer (S.seen store.now).tree directory ≡ result }
{
    if store.bits(directory).x {
        return Ok(());
    }
    Err(ErrorCode::Access)
}

/// The node under a name that is to be dropped, where no rule refuses that looks at the name and at what has it; else
/// the rule's code. That of `.` is given.
#[tactic(auto, using(crate::proofs::StoreLemmas::store_rules))]
pub fn node_to_drop<S: NodeStore>(
    store: &S,
    looked: &NameLookup<'_>,
    dot: ErrorCode,
) -> Result<u64, ErrorCode>
    requires { IsLooked (S.seen store.now).tree looked.now }
    ensures refusal { refused_with result
        ≡ first_rule (dropping_rules (S.seen store.now).tree looked.now.directory (name_bytes looked.now.name) dot) }
    ensures node { IfOk result (λ n. child (S.seen store.now).tree looked.now.directory (name_bytes looked.now.name) ≡ Some n) }
    ensures below { IfOk result (λ n. n < next_of (S.seen store.now).tree) }
    ensures found { IfOk result (λ n. looked.now.found ≡ Some n) }
{
    if !store.is_directory(looked.directory) {
        return Err(ErrorCode::NotDirectory);
    }
    if let Some(code) = refuse_name(store, looked.directory, looked.name) {
        return Err(code);
    }
    if looked.name.is_dot() {
        return Err(dot);
    }
    let Some(node) = looked.found else {
        return Err(ErrorCode::NoEntry);
    };
    if !store.bits(looked.directory).w {
        return Err(ErrorCode::Access);
    }
    Ok(node)
}

/// What is wrong with two names in directories, the old one first.
#[tactic(auto, using(crate::proofs::StoreLemmas::store_rules))]
pub fn refuse_both<S: NodeStore>(
    store: &S,
    old: &NameLookup<'_>,
    new: &NameLookup<'_>,
) -> Option<ErrorCode>
    requires old { IsLooked (S.seen store.now).tree old.now }
    requires new { IsLooked (S.seen store.now).tree new.now }
    ensures { result
        ≡ first_rule (both_rules (S.seen store.now).tree old.now.directory (name_bytes old.now.name) new.now.directory (name_bytes new.now.name)) }
{
    if !store.is_directory(old.directory) || !store.is_directory(new.directory) {
        return Some(ErrorCode::NotDirectory);
    }
    if let Some(code) = refuse_name(store, old.directory, old.name) {
        return Some(code);
    }
    refuse_name(store, new.directory, new.name)
}

/// The node under the old name, where no rule refuses to give it the new one; else the rule's code.
#[tactic(auto, using(crate::proofs::StoreLemmas::store_rules), unfolding(wasi_host::specs::Refusal::refusal))]
pub fn node_to_link<S: NodeStore>(
    store: &S,
    old: &NameLookup<'_>,
    new: &NameLookup<'_>,
) -> Result<u64, ErrorCode>
    requires old { IsLooked (S.seen store.now).tree old.now }
    requires new { IsLooked (S.seen store.now).tree new.now }
    ensures refusal { refused_with result
        ≡ refusal (S.seen store.now).tree (LinkAt old.now.directory (name_bytes old.now.name) new.now.directory (name_bytes new.now.name)) }
    ensures node { IfOk result (λ n. child (S.seen store.now).tree old.now.directory (name_bytes old.now.name) ≡ Some n) }
    ensures below { IfOk result (λ n. n < next_of (S.seen store.now).tree) }
    ensures room { IfOk result (λ n. links_of (node_at (S.seen store.now).tree n).content < 2 ^ 64 - 1) }
    ensures found { IfOk result (λ n. old.now.found ≡ Some n) }
    ensures gains { IfOk result (MayGain (S.seen store.now).tree new.now.directory (name_bytes new.now.name)) }
{
    if let Some(code) = refuse_both(store, old, new) {
        return Err(code);
    }
    let Some(node) = old.found else {
        return Err(ErrorCode::NoEntry);
    };
    if new.found.is_some() {
        return Err(ErrorCode::Exist);
    }
    if let Some(code) = refuse_entry(store, new.directory) {
        return Err(code);
    }
    check_links(store, node)?;
    Ok(node)
}

/// The rules for a node that is to get a name more.
#[tactic(auto, using(crate::proofs::StoreLemmas::store_rules))]
pub fn check_links<S: NodeStore>(store: &S, node: u64) -> Result<(), ErrorCode>
    requires { node < next_of (S.seen store.now).tree }
    ensures refusal { refused_with result ≡ first_rule (links_rules (S.seen store.now).tree (Some node)) }
    ensures room { OnOk result (links_of (node_at (S.seen store.now).tree node).content < 2 ^ 64 - 1) }
{
    if store.is_directory(node) {
        return Err(ErrorCode::NotPermitted);
    }
    if store.limits().links <= store.links(node) {
        return Err(ErrorCode::TooManyLinks);
    }
    Ok(())
}

/// The node under the old name, where no rule refuses a rename that looks at the names and at this node alone; else the
/// rule's code.
#[tactic(auto, using(crate::proofs::StoreLemmas::store_rules))]
pub fn node_to_rename<S: NodeStore>(
    store: &S,
    old: &NameLookup<'_>,
    new: &NameLookup<'_>,
    requires_dir: bool,
) -> Result<u64, ErrorCode>
    requires old { IsLooked (S.seen store.now).tree old.now }
    requires new { IsLooked (S.seen store.now).tree new.now }
    ensures refusal { refused_with result ≡ first_rule
        (naming_rules (S.seen store.now).tree old.now.directory (name_bytes old.now.name) new.now.directory (name_bytes new.now.name) requires_dir) }
    ensures node { IfOk result (λ n. child (S.seen store.now).tree old.now.directory (name_bytes old.now.name) ≡ Some n) }
    ensures below { IfOk result (λ n. n < next_of (S.seen store.now).tree) }
{
    if let Some(code) = refuse_both(store, old, new) {
        return Err(code);
    }
    if old.name.is_dot() || new.name.is_dot() {
        return Err(ErrorCode::Busy);
    }
    let Some(node) = old.found else {
        return Err(ErrorCode::NoEntry);
    };
    if requires_dir && !store.is_directory(node) {
        return Err(ErrorCode::NotDirectory);
    }
    Ok(node)
}

/// What refuses to move a node from a directory to another, which may be the same, onto this node or none.
#[tactic(auto, using(crate::proofs::StoreLemmas::store_rules))]
pub fn refuse_move<S: NodeStore>(
    store: &S,
    old: u64,
    new: u64,
    node: u64,
    there: Option<u64>,
) -> Option<ErrorCode>
    requires old { old < next_of (S.seen store.now).tree }
    requires new { new < next_of (S.seen store.now).tree }
    requires node { node < next_of (S.seen store.now).tree }
    requires there { ForSome there (λ n. n < next_of (S.seen store.now).tree) }
    ensures { result ≡ first_rule (moving_rules (S.seen store.now).tree old new (Some node) there) }
{
    if let Some(code) = refuse_access(store, old, new, node) {
        return Some(code);
    }
    let Some(lost) = there else {
        return None;
    };
    refuse_replace(store, node, lost)
}

/// The rules for the directories that lose and get a name.
#[tactic(auto, using(crate::proofs::StoreLemmas::store_rules))]
pub fn refuse_access<S: NodeStore>(store: &S, old: u64, new: u64, node: u64) -> Option<ErrorCode>
    requires old { old < next_of (S.seen store.now).tree }
    requires new { new < next_of (S.seen store.now).tree }
    requires node { node < next_of (S.seen store.now).tree }
    ensures { result ≡ first_rule (access_rules (S.seen store.now).tree old new (Some node)) }
{
    if !store.bits(old).w || !store.bits(new).w {
        return Some(ErrorCode::Access);
    }
    if store.is_directory(node) && !store.bits(node).w && old != new {
        return Some(ErrorCode::Access);
    }
    if store.is_gone(new) {
        return Some(ErrorCode::NoEntry);
    }
    None
}

/// The rules for a node that comes in place of another.
#[tactic(auto, using(crate::proofs::StoreLemmas::store_rules))]
pub fn refuse_replace<S: NodeStore>(store: &S, node: u64, lost: u64) -> Option<ErrorCode>
    requires node { node < next_of (S.seen store.now).tree }
    requires lost { lost < next_of (S.seen store.now).tree }
    ensures { result ≡ first_rule (replacing_rules (S.seen store.now).tree (Some node) (Some lost)) }
{
    let is_directory = store.is_directory(node);
    let replaces_directory = store.is_directory(lost);
    if is_directory && !replaces_directory {
        return Some(ErrorCode::NotDirectory);
    }
    if !is_directory && replaces_directory {
        return Some(ErrorCode::IsDirectory);
    }
    if replaces_directory && !store.is_bare(lost) {
        return Some(ErrorCode::NotEmpty);
    }
    None
}

/// What is wrong with the text of a link that is to be made.
fn refuse_text(text: &str) -> Option<ErrorCode>
    ensures { result ≡ first_rule (text_rules text.now) }
{
    if text.is_empty() {
        return Some(ErrorCode::NoEntry);
    }
    if text.as_bytes().contains(&0) {
        return Some(ErrorCode::Invalid);
    }
    if text.len() > LINK_MAX {
        return Some(ErrorCode::NameTooLong);
    }
    None
}

/// The node under a name, where no rule refuses to drop the name of a file or link; else the rule's code.
#[tactic(auto, using(crate::proofs::StoreLemmas::store_rules))]
pub fn node_to_unlink<S: NodeStore>(store: &S, looked: &NameLookup<'_>) -> Result<u64, ErrorCode>
    requires { IsLooked (S.seen store.now).tree looked.now }
    ensures refusal { refused_with result
        ≡ refusal (S.seen store.now).tree (UnlinkAt looked.now.directory (name_bytes looked.now.name)) }
    ensures found { IfOk result (λ n. looked.now.found ≡ Some n) }
    ensures has { IfOk result (HasName (S.seen store.now).tree looked.now.directory (name_bytes looked.now.name)) }
    ensures step { IfOk result (λ n. name_dropped (S.seen store.now).tree looked.now.directory (name_bytes looked.now.name)
        name_lost n ≡ unlink_step (S.seen store.now).tree looked.now.directory (name_bytes looked.now.name)) }
{
    let node = node_to_drop(store, looked, ErrorCode::IsDirectory)?;
    if store.is_directory(node) {
        return Err(ErrorCode::IsDirectory);
    }
    Ok(node)
}

/// The node under a name, where no rule refuses to drop the name of an empty directory; else the rule's code.
#[tactic(auto, using(crate::proofs::StoreLemmas::store_rules))]
pub fn node_to_remove<S: NodeStore>(store: &S, looked: &NameLookup<'_>) -> Result<u64, ErrorCode>
    requires { IsLooked (S.seen store.now).tree looked.now }
    ensures refusal { refused_with result
        ≡ refusal (S.seen store.now).tree (RemoveDirAt looked.now.directory (name_bytes looked.now.name)) }
    ensures found { IfOk result (λ n. looked.now.found ≡ Some n) }
    ensures has { IfOk result (HasName (S.seen store.now).tree looked.now.directory (name_bytes looked.now.name)) }
    ensures step { IfOk result (λ n. name_dropped (S.seen store.now).tree looked.now.directory (name_bytes looked.now.name)
        name_lost n ≡ remove_step (S.seen store.now).tree looked.now.directory (name_bytes looked.now.name)) }
{
    let node = node_to_drop(store, looked, ErrorCode::Invalid)?;
    if !store.is_directory(node) {
        return Err(ErrorCode::NotDirectory);
    }
    if !store.is_bare(node) {
        return Err(ErrorCode::NotEmpty);
    }
    Ok(node)
}

/// All names of a directory, in byte order, each with the kind of its node.
#[tactic(auto, unfolding(wasi_host::specs::Refusal::refusal))]
pub fn list_of<S: NodeStore>(
    store: &S,
    alloc: Global,
    directory: OpenHandle,
) -> Result<Vec<DirEntry>, HostError>
    requires { directory.node < next_of (S.seen store.now).tree }
    ensures meaning { MatchResult result
        (λ entries. list_answer (S.seen store.now).tree directory ≡ Ok (map entry_of entries.items))
        (MeansCode (list_answer (S.seen store.now).tree directory)) }
    ensures names { IfOk result
        (λ entries. All (λ entry. IsTrue (is_entry_name entry.0)) (map entry_of entries.items)) }
{
    if !store.is_directory(directory.node) {
        return Err(HostError::Code(ErrorCode::NotDirectory));
    }
    if !directory.mode.can_read() {
        return Err(HostError::Code(ErrorCode::BadDescriptor));
    }
    Ok(store.list_names(alloc, directory.node)?)
}

/// The metadata of the node that a name holds, a link's own.
#[tactic(auto, using(crate::proofs::StoreLemmas::store_rules))]
pub fn stat_of<S: NodeStore>(store: &S, looked: &NameLookup<'_>) -> Result<Metadata, ErrorCode>
    requires { IsLooked (S.seen store.now).tree looked.now }
    ensures meaning { MatchResult result
        (λ metadata. stat_at_answer (S.seen store.now).tree looked.now.directory (name_bytes looked.now.name) ≡ Ok metadata)
        (λ code. stat_at_answer (S.seen store.now).tree looked.now.directory (name_bytes looked.now.name) ≡ Err code) }
    ensures times { IfOk result HasTimes }
{
    let node = node_under(store, looked)?;
    Ok(store.metadata(node))
}

//! Which lists of nodes a tree can be made of.
ghost use Rattle.std.specs.Prelude.{◌≡◌, ◌+◌, ◌<◌, ◌≤◌, ◌&&◌, not, [], ◌∷◌, List, map, length, slice_index_or, slice_set, IfOk, IfErr, OnOk, false, true};
ghost use Rattle.std.specs.FinSet.{empty};
ghost use Rattle.std.specs.List.{list_all};
ghost use Rattle.std.specs.Vec.{vec_len, vec_capacity};
ghost use Rattle.std.specs.Str.{is_utf8};
ghost use Rattle.wasi_paths.specs.Text.{is_entry_name};
ghost use Rattle.wasi_host.specs.Tree.{Tree};
ghost use Rattle.wasi_host.specs.ValidTree.{AreLimits, IsValidTree};
ghost use Rattle.wasi_host.specs.declared.limits.Limits.{Limits};
ghost use Rattle.wasi_tree.specs.NodeData.{NodeData, node_data, content_data, data_entries, data_of_node, pair_of, tree_of};
ghost use Rattle.wasi_tree.specs.NodeDataTests.{is_dir_content, are_distinct, are_rising, starts_with_directory};
ghost use Rattle.wasi_tree.specs.WellFormed.{is_fit_file, is_fit_text, is_fit_entry, entries_at, AreFit, IsTreeCause, name_counts};
ghost use Rattle.wasi_tree.specs.FitTests.{entry_numbers, AreCounted, AreMarked, TellFound, unmarked_count, has_place, is_fit};

use crate::{NewContent, NewEntry, NewNode, TreeError};
use std::alloc::{AllocError, Global};
use std::collections::BTreeSet;
use wasi_host::{FILE_MAX, LINK_MAX, Limits};
use wasi_paths::Name;

/// What is known of a number: how many entries give it, and whether it is found from node 0.
#[derive(Clone, Copy, Debug)]
struct Place {
    number: u64,
    names: u64,
    is_found: bool,
}

/// How many entries give each number of a list of nodes, where a tree can be made of the list; else why none can, as
/// `WellFormedNodes::new` says.
#[tactic(auto, using(crate::proofs::FitDecides::lowest_first))]
pub fn counted_names(
    alloc: Global,
    nodes: &[NewNode],
    limits: Limits,
) -> Result<Vec<u64>, TreeError>
    ensures fit { OnOk result (AreFit limits (map node_data nodes.now)) }
    ensures counts { IfOk result (λ counts. counts.items ≡ name_counts (map node_data nodes.now)) }
    ensures cause { IfErr result (IsTreeCause limits (map node_data nodes.now)) }
{
    if !starts_with_directory(nodes) {
        return Err(TreeError::Invalid(0));
    }
    let counts = count_names(alloc, nodes)?;
    let found = found_nodes(alloc, nodes)?;
    check_nodes(alloc, nodes, limits, &counts, &found)?;
    Ok(counts)
}

/// Whether each node keeps the rules, of nodes that start with a directory.
fn check_nodes(
    alloc: Global,
    nodes: &[NewNode],
    limits: Limits,
    counts: &[u64],
    found: &[bool],
) -> Result<(), TreeError>
    requires starts { starts_with_directory (map node_data nodes.now) ≡ true }
    requires counts { counts.now ≡ name_counts (map node_data nodes.now) }
    requires found { TellFound (map node_data nodes.now) found.now }
    ensures fit { OnOk result (AreFit limits (map node_data nodes.now)) }
    ensures cause { IfErr result (IsTreeCause limits (map node_data nodes.now)) }
{
    let count = nodes.len() as u64;
    for (i, node) in nodes.iter().enumerate() {
        let place = place_at(counts, found, i as u64);
        if !is_fit(alloc, limits, count, place, node)? {
            return Err(TreeError::Invalid(place.number));
        }
    }
    Ok(())
}

/// What counts and marks say of a number.
fn place_at(counts: &[u64], found: &[bool], number: u64) -> Place
    requires counted { number < length counts.now }
    requires marked { number < length found.now }
    ensures number { result.number ≡ number }
    ensures names { result.names ≡ slice_index_or counts.now number 0 }
    ensures found { result.is_found ≡ slice_index_or found.now number false }
{
    Place {
        number,
        names: counts[number as usize],
        is_found: found[number as usize],
    }
}

/// Whether a tree can have this node, by what is known of its number.
#[tactic(auto, using(crate::proofs::FitLemmas::entry_rules))]
fn is_fit(
    alloc: Global,
    limits: Limits,
    count: u64,
    place: Place,
    node: &NewNode,
) -> Result<bool, AllocError>
    ensures test { IfOk result (λ is. is ≡ is_fit limits count place (node_data node.now)) }
{
    if place.number >= limits.nodes {
        return Ok(false);
    }
    match &node.content {
        NewContent::File(bytes) => Ok(is_fit_file(bytes) && place.names <= limits.links),
        NewContent::Dir(entries) => {
            if !has_place(place, entries) {
                return Ok(false);
            }
            if !are_fit_entries(count, entries) {
                return Ok(false);
            }
            are_distinct(alloc, entries)
        }
        NewContent::Link(text) => Ok(is_fit_text(text) && place.names <= limits.links),
    }
}

fn has_place(place: Place, entries: &[NewEntry]) -> bool
    ensures test { result ≡ has_place place (map pair_of entries.now) }
{
    if place.number == 0 {
        return place.names == 0;
    }
    if place.names == 0 {
        return entries.is_empty();
    }
    place.names == 1 && place.is_found
}

fn starts_with_directory(nodes: &[NewNode]) -> bool
    ensures test { result ≡ starts_with_directory (map node_data nodes.now) }
{
    match nodes.first() {
        Some(node) => is_dir_content(&node.content),
        None => false,
    }
}

fn is_dir_content(content: &NewContent) -> bool
    ensures test { result ≡ is_dir_content (content_data content.now) }
{
    match content {
        NewContent::Dir(_) => true,
        NewContent::File(_) => false,
        NewContent::Link(_) => false,
    }
}

#[tactic(auto, using(crate::proofs::FitLemmas::type_rules))]
fn is_fit_file(bytes: &[u8]) -> bool
    ensures test { result ≡ is_fit_file bytes.now }
{
    bytes.len() <= FILE_MAX
}

#[tactic(auto, using(crate::proofs::FitLemmas::type_rules))]
fn is_fit_text(text: &str) -> bool
    ensures test { result ≡ is_fit_text text.now }
{
    !text.is_empty() && text.len() <= LINK_MAX && !text.as_bytes().contains(&0)
}

/// Whether a directory may hold the name.
#[tactic(auto, using(crate::proofs::FitLemmas::type_rules))]
fn is_fit_name(name: &str) -> bool
    ensures test { result ≡ (is_entry_name name.now && is_utf8 name.now) }
{
    match Name::plain(name) {
        Some(name) => name.is_entry(),
        None => false,
    }
}

fn are_fit_entries(count: u64, entries: &[NewEntry]) -> bool
    ensures test { result ≡ list_all (λ e. is_fit_entry count (pair_of e)) entries.now }
{
    entries.iter().all(|entry| is_fit_entry(count, entry))
}

fn is_fit_entry(count: u64, entry: &NewEntry) -> bool
    ensures test { result ≡ is_fit_entry count (pair_of entry.now) }
{
    is_fit_name(&entry.name) && entry.node < count
}

/// Whether no name stands twice.
#[tactic(auto, using(crate::proofs::RisingLemmas::rising_distinct))]
fn are_distinct(alloc: Global, entries: &[NewEntry]) -> Result<bool, AllocError>
    ensures test { IfOk result (λ is. is ≡ are_distinct (map (λ e. e.0) (map pair_of entries.now))) }
{
    if are_rising(entries) {
        return Ok(true);
    }
    none_is_seen_twice(alloc, entries)
}

/// Whether each name is above the one before it, in byte order.
fn are_rising(entries: &[NewEntry]) -> bool
    ensures test { result ≡ are_rising (map (λ e. e.0) (map pair_of entries.now)) }
{
    entries.is_sorted_by(|entry, next| entry.name < next.name)
}

/// Whether no name stands twice, in whatever order.
#[tactic(auto, using(crate::proofs::DistinctLemmas::seen_rules))]
fn none_is_seen_twice(alloc: Global, entries: &[NewEntry]) -> Result<bool, AllocError>
    ensures test { IfOk result (λ is. is ≡ are_distinct (map (λ e. e.0) (map pair_of entries.now))) }
{
    let mut seen = BTreeSet::new(alloc);
    for entry in entries {
        if !seen.insert(entry.name.as_str())? {
            return Ok(false);
        }
    }
    Ok(true)
}

/// The entries of a directory; a file or a link has none.
pub fn entries_of(content: &NewContent) -> &[NewEntry]
    ensures entries { map pair_of result.now ≡ data_entries (content_data content.now) }
{
    match content {
        NewContent::Dir(entries) => entries,
        NewContent::File(_) => &[],
        NewContent::Link(_) => &[],
    }
}

/// The entries of the node of a number.
#[tactic(auto, using(crate::proofs::FoundLemmas::entries_are))]
fn entries_at(nodes: &[NewNode], number: u64) -> &[NewEntry]
    requires within { number < length nodes.now }
    ensures entries { map pair_of result.now ≡ entries_at (map node_data nodes.now) number }
{
    entries_of(&nodes[number as usize].content)
}

#[tactic(auto, using(crate::proofs::CountLemmas::node_rules))]
fn count_names(alloc: Global, nodes: &[NewNode]) -> Result<Vec<u64>, AllocError>
    ensures counts { IfOk result (λ counts. counts.items ≡ name_counts (map node_data nodes.now)) }
{
    let mut counts = vec![in alloc; 0; nodes.len()]?;
    for node in nodes {
        count_entries(&mut counts, entries_of(&node.content))?;
    }
    Ok(counts)
}

#[tactic(auto, using(crate::proofs::CountLemmas::count_rules))]
fn count_entries(counts: &mut Vec<u64>, entries: &[NewEntry]) -> Result<(), AllocError>
    ensures counted { OnOk result (AreCounted (entry_numbers entries.now) counts.old.items counts.new.items) }
{
    for entry in entries {
        count_one(counts, entry.node)?;
    }
    Ok(())
}

/// Counts a number once more. A count past the largest `u64` is of more entries than memory holds.
#[tactic(auto, using(crate::proofs::CountLemmas::count_rules))]
fn count_one(counts: &mut Vec<u64>, number: u64) -> Result<(), AllocError>
    ensures counted { OnOk result (AreCounted (number ∷ []) counts.old.items counts.new.items) }
{
    if number >= counts.len() as u64 {
        return Ok(());
    }
    let i = number as usize;
    let Some(more) = counts[i].checked_add(1) else {
        return Err(AllocError);
    };
    counts[i] = more;
    Ok(())
}

/// Marks the numbers that are found from node 0.
#[tactic(auto, using(crate::proofs::FoundLemmas::search_rules))]
fn found_nodes(alloc: Global, nodes: &[NewNode]) -> Result<Vec<bool>, AllocError>
    ensures found { IfOk result (λ marks. TellFound (map node_data nodes.now) marks.items) }
{
    let mut marks = vec![in alloc; false; nodes.len()]?;
    let mut work = Vec::with_capacity(alloc, nodes.len())?;
    find(&mut marks, &mut work, 0);
    while let Some(number) = work.pop() {
        find_entries(&mut marks, &mut work, entries_at(nodes, number));
    }
    Ok(marks)
}

#[tactic(auto, using(crate::proofs::FoundLemmas::mark_rules))]
fn find_entries(marks: &mut Vec<bool>, work: &mut Vec<u64>, entries: &[NewEntry])
    requires room { vec_len work.old + unmarked_count marks.old.items ≤ vec_capacity work.old }
    ensures marked { AreMarked (entry_numbers entries.now) marks.old.items work.old.items marks.new.items work.new.items }
    ensures room { vec_capacity work.new ≡ vec_capacity work.old }
{
    for entry in entries {
        find(marks, work, entry.node);
    }
}

/// Marks a number that is in range and has no mark yet, and puts it on the work list.
#[tactic(auto, using(crate::proofs::FoundLemmas::mark_rules))]
fn find(marks: &mut Vec<bool>, work: &mut Vec<u64>, number: u64)
    requires room { vec_len work.old + unmarked_count marks.old.items ≤ vec_capacity work.old }
    ensures marked { AreMarked (number ∷ []) marks.old.items work.old.items marks.new.items work.new.items }
    ensures room { vec_capacity work.new ≡ vec_capacity work.old }
{
    if number < marks.len() as u64 && mark(marks, number) {
        work.push_reserved(number);
    }
}

/// Marks a number. Whether it had no mark before.
fn mark(marks: &mut Vec<bool>, number: u64) -> bool
    requires within { number < vec_len marks.old }
    ensures unmarked { result ≡ not (slice_index_or marks.old.items number false) }
    ensures marked { marks.new.items ≡ slice_set marks.old.items number true }
    ensures len { vec_len marks.new ≡ vec_len marks.old }
{
    let place = &mut marks[number as usize];
    let unmarked = !*place;
    *place = true;
    unmarked
}

/// The tree of a list of nodes that keep the rules is a valid tree.
pub fn fit_trees_are_valid()
    ensures valid { (limits : Limits) (nodes : List NodeData)
        → AreLimits limits → AreFit limits nodes → IsValidTree (tree_of nodes limits) }
{}

/// The nodes of a valid tree, as a list gives them, keep the rules within its limits, and the tree of that list is the
/// tree itself, where no step has worked on a node.
pub fn valid_trees_are_fit()
    ensures fit { (t : Tree) → IsValidTree t → AreFit t.limits (map data_of_node t.nodes) }
    ensures again { (t : Tree) → IsValidTree t
        → tree_of (map data_of_node t.nodes) t.limits ≡ record t { worked = empty } }
{}

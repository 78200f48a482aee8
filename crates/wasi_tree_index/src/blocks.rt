//! Entries in blocks: each has room for as many entries as a block may have, so what is put or taken moves the entries
//! of one block alone, but where a name is renamed and there is no room for a block more.
ghost use Rattle.std.specs.Prelude.{◌≡◌, ℕ, ◌+◌, ◌<◌, ◌≤◌, [], ◌∷◌, ◌++◌, is_some, Some, None, IfSome, MatchOption, true, false, map, length, take, drop, not, All, IsTrue, if◌then◌else◌};
ghost use Rattle.std.specs.List.{insert, remove};
ghost use Rattle.std.specs.Vec.{vec_len, vec_capacity};
ghost use Rattle.std.specs.Ordering.{eq_by_cmp};
ghost use Rattle.std.specs.FinMap.{is_sorted, find, put};
ghost use Rattle.std.specs.FinMap.Entries.{where_key};
ghost use Rattle.wasi_tree_index.specs.Fronts.{list_at, with_list};
ghost use Rattle.wasi_tree_index.specs.Places.{place_in, first_at, starts_by, list_place, revalued};
ghost use Rattle.wasi_tree_index.specs.DirEntryKeys.{key_cmp, row_key, row_entry};
ghost use Rattle.wasi_tree_index.specs.DirEntryKeys.{run_of};
ghost use Rattle.wasi_tree_index.specs.EntryCursors.{entries_from, IsRun};
ghost use Rattle.std.specs.String.{string_bytes};
ghost use Rattle.wasi_tree_index.specs.Blocks.{block_entries, all_entries, with_row, has_block, most_rows, IsBlock, AreBlocks, IsPlace, HasSpace};

use crate::hint::SearchHint;
use crate::key::DirEntryKey;
use crate::shift::{insert_into, insert_row, insert_through};
use crate::sought::Sought;
use std::mem;

/// How many entries a block may have.
pub const BLOCK: usize = 128;

/// How many entries stay where a full block is split.
const HALF: usize = 64;

/// How many entries are before a name in a directory.
pub fn place(rows: &[DirEntryKey], key: &Sought<'_>) -> usize
    requires { IsTrue (is_sorted key_cmp (map row_entry rows.now)) }
    ensures place { result ≡ place_in key_cmp key.now (map row_entry rows.now) }
    ensures bound { result ≤ length rows.now }
{
    rows.partition_point(|row| row.is_before(key))
}

/// The node of the first entry, if it has this name in this directory.
fn first_at(rows: &[DirEntryKey], key: &Sought<'_>) -> Option<u64>
    ensures { result ≡ first_at key_cmp key.now (map row_entry rows.now) }
{
    let Some(row) = rows.first() else {
        return None;
    };
    if !row.is_at(key) {
        return None;
    }
    Some(row.node)
}

/// The entries from a place on.
fn from(rows: &[DirEntryKey], at: usize) -> &[DirEntryKey]
    requires { at ≤ length rows.now }
    ensures { result.now ≡ drop at rows.now }
{
    &rows[at..]
}

/// Whether a block's first entry isn't after a name in a directory.
fn starts_by(block: &[DirEntryKey], key: &Sought<'_>) -> bool
    ensures { result ≡ starts_by key_cmp key.now (map row_entry block.now) }
{
    match block.first() {
        Some(row) => !row.is_after(key),
        None => true,
    }
}

/// The block in which a name in a directory stands, if any does; else the one in which it would.
pub fn block_place(blocks: &Vec<Vec<DirEntryKey>>, key: &Sought<'_>) -> usize
    requires { AreBlocks blocks.now.items }
    ensures place { result ≡ list_place key_cmp block_entries key.now blocks.now.items }
{
    place_among(blocks.as_slice(), key)
}

/// The same, of a slice.
fn place_among(blocks: &[Vec<DirEntryKey>], key: &Sought<'_>) -> usize
    requires { AreBlocks blocks.now }
    ensures place { result ≡ list_place key_cmp block_entries key.now blocks.now }
{
    let count = blocks.partition_point(|block| starts_by(block.as_slice(), key));
    count.saturating_sub(1)
}

/// The place after a place: the next one of its block, or else the next block's first.
fn behind(blocks: &Vec<Vec<DirEntryKey>>, near: SearchHint) -> SearchHint {
    let row = near.row.saturating_add(1);
    match blocks.get(near.block) {
        Some(rows) if row < rows.len() => SearchHint {
            block: near.block,
            row,
        },
        _ => SearchHint {
            block: near.block.saturating_add(1),
            row: 0,
        },
    }
}

/// The node of the entry at a place, if there is one, and it has this name in this directory.
fn node_at(blocks: &Vec<Vec<DirEntryKey>>, at: SearchHint, key: &Sought<'_>) -> Option<u64>
    requires { AreBlocks blocks.now.items }
    ensures { IfSome result (λ n. find key_cmp key.now (all_entries blocks.now.items) ≡ Some n) }
{
    if at.block >= blocks.len() {
        return None;
    }
    if at.row > rows_at(blocks, at.block).len() {
        return None;
    }
    found_at(blocks, at.block, at.row, key)
}

/// The node of a name in a directory. It is looked for after the place where one was found last, before all else.
pub fn find(blocks: &Vec<Vec<DirEntryKey>>, near: &mut SearchHint, key: &Sought<'_>) -> Option<u64>
    requires { AreBlocks blocks.now.items }
    ensures { result ≡ find key_cmp key.now (all_entries blocks.now.items) }
{
    let next = behind(blocks, *near);
    if let Some(node) = node_at(blocks, next, key) {
        *near = next;
        return Some(node);
    }
    let k = block_place(blocks, key);
    if k >= blocks.len() {
        return None;
    }
    let at = place_at(blocks, k, key);
    *near = SearchHint { block: k, row: at };
    found_at(blocks, k, at, key)
}

/// The entries of a block.
fn rows_at(blocks: &Vec<Vec<DirEntryKey>>, k: usize) -> &[DirEntryKey]
    requires { k < length blocks.now.items }
    ensures { map row_entry result.now ≡ list_at block_entries blocks.now.items k }
{
    blocks[k].as_slice()
}

/// How many entries of a block are before a name in a directory.
fn place_at(blocks: &Vec<Vec<DirEntryKey>>, k: usize, key: &Sought<'_>) -> usize
    requires kept { AreBlocks blocks.now.items }
    requires within { k < length blocks.now.items }
    ensures place { result ≡ place_in key_cmp key.now (list_at block_entries blocks.now.items k) }
    ensures bound { result ≤ length (list_at block_entries blocks.now.items k) }
{
    place(rows_at(blocks, k), key)
}

/// Whether a name in a directory comes after some entries: the last one is before it, or there is none.
fn ends_before(rows: &[DirEntryKey], key: &Sought<'_>) -> bool
    requires { IsTrue (is_sorted key_cmp (map row_entry rows.now)) }
    ensures { result ≡ true → place_in key_cmp key.now (map row_entry rows.now) ≡ length rows.now }
{
    let count = rows.len();
    count == 0 || rows[count - 1].is_before(key)
}

/// The block in which a name in a directory would stand, as `block_place` has it. The last block is tried first, since
/// names often come in their order.
fn rising_block(blocks: &Vec<Vec<DirEntryKey>>, key: &Sought<'_>) -> usize
    requires { AreBlocks blocks.now.items }
    ensures place { result ≡ list_place key_cmp block_entries key.now blocks.now.items }
{
    let count = blocks.len();
    if count > 0 && starts_by(rows_at(blocks, count - 1), key) {
        return count - 1;
    }
    block_place(blocks, key)
}

/// How many entries of a block are before a name in a directory, as `place_at` has it. The place after them all is
/// tried first.
fn rising_place(blocks: &Vec<Vec<DirEntryKey>>, k: usize, key: &Sought<'_>) -> usize
    requires kept { AreBlocks blocks.now.items }
    requires within { k < length blocks.now.items }
    ensures place { result ≡ place_in key_cmp key.now (list_at block_entries blocks.now.items k) }
    ensures bound { result ≤ length (list_at block_entries blocks.now.items k) }
{
    let rows = rows_at(blocks, k);
    if ends_before(rows, key) {
        return rows.len();
    }
    place(rows, key)
}

/// Whether a name in a directory comes after all entries, so that none has it.
pub fn is_behind(blocks: &Vec<Vec<DirEntryKey>>, key: &Sought<'_>) -> bool
    requires { AreBlocks blocks.now.items }
    ensures { result ≡ true → find key_cmp key.now (all_entries blocks.now.items) ≡ None }
{
    let count = blocks.len();
    count == 0 || ends_before(rows_at(blocks, count - 1), key)
}

/// The node of the entry at a place of a block, if it has this name in this directory.
fn found_at(blocks: &Vec<Vec<DirEntryKey>>, k: usize, at: usize, key: &Sought<'_>) -> Option<u64>
    requires within { k < length blocks.now.items }
    requires at { at ≤ length (list_at block_entries blocks.now.items k) }
    ensures { result ≡ first_at key_cmp key.now (drop at (list_at block_entries blocks.now.items k)) }
{
    first_at(from(rows_at(blocks, k), at), key)
}

/// Moves a block's entries from a place on into another block, which is empty and has room for them.
fn move_tail(block: &mut Vec<DirEntryKey>, at: usize, back: &mut Vec<DirEntryKey>)
    requires within { at ≤ length block.old.items }
    requires empty { back.old.items ≡ [] }
    requires room { length block.old.items ≤ at + vec_capacity back.old }
    ensures front { block.new.items ≡ take at block.old.items }
    ensures back { back.new.items ≡ drop at block.old.items }
    ensures capacity { vec_capacity block.new ≡ vec_capacity block.old }
    ensures room { vec_capacity back.new ≡ vec_capacity back.old }
{
    while block.len() > at {
        let row = block.take_last();
        back.push_reserved(row);
    }
    back.reverse();
}

/// Gives a block's entry at a place another node.
fn set_node(block: &mut Vec<DirEntryKey>, at: usize, node: u64)
    requires { at < length block.old.items }
    ensures rows { map row_entry block.new.items ≡ revalued node (map row_entry block.old.items) at }
    ensures len { length block.new.items ≡ length block.old.items }
    ensures capacity { vec_capacity block.new ≡ vec_capacity block.old }
{
    block[at].node = node;
}

/// Puts an entry into the first block, where there is none.
fn start(blocks: &mut Vec<Vec<DirEntryKey>>, mut block: Vec<DirEntryKey>, row: DirEntryKey)
    requires none { blocks.old.items ≡ [] }
    requires room { 0 < vec_capacity blocks.old }
    requires empty { block.items ≡ [] }
    requires block { most_rows ≤ vec_capacity block }
    ensures each { All IsBlock blocks.new.items }
    ensures rows { all_entries blocks.new.items ≡ row_entry row ∷ [] }
{
    block.push_reserved(row);
    blocks.push_reserved(block);
}

/// Puts an entry at a place of a block. Where that is full, a block that has room for an entry gets one, and the
/// entries between move on by one; if none is named, the full block is split, so that its other half is the spare
/// block.
fn insert_at(
    blocks: &mut Vec<Vec<DirEntryKey>>,
    spare: &mut Vec<DirEntryKey>,
    free: Option<usize>,
    k: usize,
    at: usize,
    row: DirEntryKey,
)
    requires place { IsPlace blocks.old.items k at }
    requires empty { spare.old.items ≡ [] }
    requires room { MatchOption free (has_block blocks.old spare.old ≡ true) (HasSpace blocks.old.items) }
    ensures each { All IsBlock blocks.new.items }
    ensures empty { spare.new.items ≡ [] }
    ensures rows { all_entries blocks.new.items ≡ with_row blocks.old.items k at row }
{
    if blocks[k].len() < BLOCK {
        insert_into(blocks, k, at, row);
        return;
    }
    if let Some(free) = free {
        insert_through(blocks, k, at, free, row);
        return;
    }
    let back = split_row(&mut blocks[k], taken(spare), at, row);
    insert_block(blocks, k + 1, back);
}

/// Puts an entry at a place of a full block, half of whose entries then stand in another block. An entry that comes
/// last stands alone there, so that entries which come in order fill their blocks.
fn split_row(
    block: &mut Vec<DirEntryKey>,
    mut back: Vec<DirEntryKey>,
    at: usize,
    row: DirEntryKey,
) -> Vec<DirEntryKey>
    requires full { length block.old.items ≡ most_rows }
    requires capacity { most_rows ≤ vec_capacity block.old }
    requires at { at ≤ most_rows }
    requires empty { back.items ≡ [] }
    requires block { most_rows ≤ vec_capacity back }
    ensures rows { block.new.items ++ result.items ≡ insert block.old.items at row }
    ensures front { IsBlock block.new }
    ensures back { IsBlock result }
{
    let cut = if at == BLOCK { BLOCK } else { HALF };
    move_tail(block, cut, &mut back);
    if at < cut {
        insert_row(block, at, row);
    } else {
        insert_row(&mut back, at - cut, row);
    }
    back
}

/// Puts a block at a place among blocks that have room for it.
fn insert_block(blocks: &mut Vec<Vec<DirEntryKey>>, k: usize, block: Vec<DirEntryKey>)
    requires within { k ≤ length blocks.old.items }
    requires room { length blocks.old.items < vec_capacity blocks.old }
    ensures { blocks.new.items ≡ insert blocks.old.items k block }
{
    let Ok(()) = blocks.insert(k, block) else {
        unreachable!();
    };
}

/// Gives the entry at a place of a block another node.
fn set_at(blocks: &mut Vec<Vec<DirEntryKey>>, k: usize, at: usize, node: u64)
    requires within { k < length blocks.old.items }
    requires at { at < length (list_at block_entries blocks.old.items k) }
    requires each { All IsBlock blocks.old.items }
    ensures each { All IsBlock blocks.new.items }
    ensures rows { all_entries blocks.new.items ≡ with_list block_entries blocks.old.items k
        (revalued node (list_at block_entries blocks.old.items k) at) }
    ensures len { vec_len blocks.new ≡ vec_len blocks.old }
    ensures capacity { vec_capacity blocks.new ≡ vec_capacity blocks.old }
{
    set_node(&mut blocks[k], at, node);
}

/// Gives a name in a directory, which has a node, another one.
pub fn set(blocks: &mut Vec<Vec<DirEntryKey>>, key: &Sought<'_>, node: u64)
    requires kept { AreBlocks blocks.old.items }
    requires held { is_some (find key_cmp key.now (all_entries blocks.old.items)) ≡ true }
    ensures kept { AreBlocks blocks.new.items }
    ensures put { all_entries blocks.new.items ≡ put key_cmp key.now node (all_entries blocks.old.items) }
    ensures len { vec_len blocks.new ≡ vec_len blocks.old }
    ensures capacity { vec_capacity blocks.new ≡ vec_capacity blocks.old }
{
    let k = block_place(blocks, key);
    let at = place_at(blocks, k, key);
    set_at(blocks, k, at, node);
}

/// Puts a node under a name in a directory, instead of any other, where a block is named that has room for an entry,
/// or there is room for a block more.
pub fn put(
    blocks: &mut Vec<Vec<DirEntryKey>>,
    spare: &mut Vec<DirEntryKey>,
    free: Option<usize>,
    row: DirEntryKey,
)
    requires kept { AreBlocks blocks.old.items }
    requires empty { spare.old.items ≡ [] }
    requires room { MatchOption free (has_block blocks.old spare.old ≡ true) (HasSpace blocks.old.items) }
    ensures kept { AreBlocks blocks.new.items }
    ensures empty { spare.new.items ≡ [] }
    ensures put { all_entries blocks.new.items ≡ put key_cmp (row_key row) row.node (all_entries blocks.old.items) }
{
    let key = row.sought();
    let k = rising_block(blocks, &key);
    if k >= blocks.len() {
        start(blocks, taken(spare), row);
        return;
    }
    let at = rising_place(blocks, k, &key);
    let found = found_at(blocks, k, at, &key);
    if found.is_some() {
        set_at(blocks, k, at, row.node);
        return;
    }
    insert_at(blocks, spare, free, k, at, row);
}

/// A block, in whose place another stands that has no room yet.
fn taken(spare: &mut Vec<DirEntryKey>) -> Vec<DirEntryKey>
    ensures taken { result ≡ spare.old }
    ensures empty { spare.new.items ≡ [] }
{
    let alloc = *spare.allocator();
    mem::replace(spare, Vec::new(alloc))
}

/// Takes a name out of a directory, and gives the node that it held. Then there is room for a block more, or the block
/// in which the name stood has room for an entry.
pub fn remove(
    blocks: &mut Vec<Vec<DirEntryKey>>,
    spare: &mut Vec<DirEntryKey>,
    key: &Sought<'_>,
) -> Option<u64>
    requires kept { AreBlocks blocks.old.items }
    requires empty { spare.old.items ≡ [] }
    ensures kept { AreBlocks blocks.new.items }
    ensures empty { spare.new.items ≡ [] }
    ensures found { result ≡ find key_cmp key.now (all_entries blocks.old.items) }
    ensures removed { all_entries blocks.new.items
        ≡ where_key key_cmp (λ k. not (eq_by_cmp key_cmp key.now k)) (all_entries blocks.old.items) }
    ensures room { is_some result ≡ true → has_block blocks.new spare.new ≡ false
        → HasSpace blocks.new.items (list_place key_cmp block_entries key.now blocks.old.items) }
{
    let k = block_place(blocks, key);
    if k >= blocks.len() {
        return None;
    }
    let at = place_at(blocks, k, key);
    let found = found_at(blocks, k, at, key);
    if found.is_some() {
        take_row(blocks, spare, k, at);
    }
    found
}

/// Takes the entry at a place of a block out. A block goes with its last entry, and is the spare one from then on.
fn take_row(blocks: &mut Vec<Vec<DirEntryKey>>, spare: &mut Vec<DirEntryKey>, k: usize, at: usize)
    requires within { k < length blocks.old.items }
    requires at { at < length (list_at block_entries blocks.old.items k) }
    requires each { All IsBlock blocks.old.items }
    requires empty { spare.old.items ≡ [] }
    ensures each { All IsBlock blocks.new.items }
    ensures empty { spare.new.items ≡ [] }
    ensures rows { all_entries blocks.new.items ≡ with_list block_entries blocks.old.items k
        (remove (list_at block_entries blocks.old.items k) at) }
    ensures room { has_block blocks.new spare.new ≡ false → HasSpace blocks.new.items k }
{
    if blocks[k].len() == 1 {
        let mut block = blocks.remove(k);
        block.clear();
        *spare = block;
        return;
    }
    blocks[k].remove(at);
}

/// The block, unless there is room for a block more.
fn unless_room(blocks: &Vec<Vec<DirEntryKey>>, spare: &Vec<DirEntryKey>, k: usize) -> Option<usize>
    ensures { result ≡ (if has_block blocks.now spare.now then None else Some k) }
{
    if blocks.len() < blocks.capacity() && spare.capacity() >= BLOCK {
        return None;
    }
    Some(k)
}

/// Takes a name out of a directory, and puts the node that it held under a name of a directory, in place of any
/// other.
pub fn rename(
    blocks: &mut Vec<Vec<DirEntryKey>>,
    spare: &mut Vec<DirEntryKey>,
    key: &Sought<'_>,
    new_directory: u64,
    new_name: String,
)
    requires kept { AreBlocks blocks.old.items }
    requires empty { spare.old.items ≡ [] }
    requires held { is_some (find key_cmp key.now (all_entries blocks.old.items)) ≡ true }
    ensures kept { AreBlocks blocks.new.items }
    ensures empty { spare.new.items ≡ [] }
    ensures renamed { (node : ℕ) → find key_cmp key.now (all_entries blocks.old.items) ≡ Some node
        → all_entries blocks.new.items ≡ put key_cmp (new_directory, string_bytes new_name) node
        (where_key key_cmp (λ k. not (eq_by_cmp key_cmp key.now k)) (all_entries blocks.old.items)) }
{
    let k = block_place(blocks, key);
    let Some(node) = remove(blocks, spare, key) else {
        unreachable!();
    };
    let free = unless_room(blocks, spare, k);
    put(
        blocks,
        spare,
        free,
        DirEntryKey::new(new_directory, new_name, node),
    );
}

/// Entries and the blocks after them, where the first entries are there if any are.
pub fn settled<'a>(
    here: &'a [DirEntryKey],
    rest: &'a [Vec<DirEntryKey>],
) -> (&'a [DirEntryKey], &'a [Vec<DirEntryKey>])
    requires { All IsBlock rest.now }
    ensures same { entries_from result.0.now result.1.now ≡ entries_from here.now rest.now }
    ensures each { All IsBlock result.1.now }
    ensures some { result.0.now ≡ [] → result.1.now ≡ [] }
{
    if !here.is_empty() {
        return (here, rest);
    }
    let Some((block, rest)) = rest.split_first() else {
        return (here, rest);
    };
    (block.as_slice(), rest)
}

/// The entries of a directory and of those after it.
pub fn rows_from(
    blocks: &Vec<Vec<DirEntryKey>>,
    directory: u64,
) -> (&[DirEntryKey], &[Vec<DirEntryKey>])
    requires { AreBlocks blocks.now.items }
    ensures run { IsRun directory result.0.now result.1.now }
    ensures same { run_of directory (entries_from result.0.now result.1.now) ≡ run_of directory (all_entries blocks.now.items) }
{
    let key = Sought::new(directory, "");
    let k = block_place(blocks, &key);
    if k >= blocks.len() {
        return (&[], &[]);
    }
    let at = place_at(blocks, k, &key);
    settled(from(rows_at(blocks, k), at), blocks_from(blocks, k + 1))
}

/// The blocks from one on.
fn blocks_from(blocks: &Vec<Vec<DirEntryKey>>, k: usize) -> &[Vec<DirEntryKey>]
    requires { k ≤ length blocks.now.items }
    ensures { result.now ≡ drop k blocks.now.items }
{
    &blocks.as_slice()[k..]
}

//! An entry put into a full block, where another block has room: the entries between the two places move on by one.
ghost use Rattle.std.specs.Prelude.{◌≡◌, ◌<◌, ◌≤◌, [], ◌∷◌, ◌++◌, length, All};
ghost use Rattle.std.specs.List.{insert};
ghost use Rattle.std.specs.Vec.{vec_capacity};
ghost use Rattle.wasi_tree_index.specs.Blocks.{all_entries, with_row, IsBlock, IsPlace, HasSpace};

use crate::key::DirEntryKey;

/// Puts an entry at a place of a block that has room for it.
pub fn insert_row(block: &mut Vec<DirEntryKey>, at: usize, row: DirEntryKey)
    requires within { at ≤ length block.old.items }
    requires room { length block.old.items < vec_capacity block.old }
    ensures items { block.new.items ≡ insert block.old.items at row }
    ensures capacity { vec_capacity block.old ≤ vec_capacity block.new }
{
    let Ok(()) = block.insert(at, row) else {
        unreachable!();
    };
}

/// Puts an entry at a place of one of the blocks, which has room for it.
pub fn insert_into(blocks: &mut Vec<Vec<DirEntryKey>>, k: usize, at: usize, row: DirEntryKey)
    requires place { IsPlace blocks.old.items k at }
    requires room { HasSpace blocks.old.items k }
    ensures each { All IsBlock blocks.new.items }
    ensures rows { all_entries blocks.new.items ≡ with_row blocks.old.items k at row }
{
    insert_row(&mut blocks[k], at, row);
}

/// Puts an entry at a place of a block, and gives the entry that is its last one then.
fn pass_on(block: &mut Vec<DirEntryKey>, at: usize, row: DirEntryKey) -> DirEntryKey
    requires at { at ≤ length block.old.items }
    requires block { IsBlock block.old }
    ensures rows { block.new.items ++ result ∷ [] ≡ insert block.old.items at row }
    ensures block { IsBlock block.new }
{
    if at == block.len() {
        return row;
    }
    let last = block.take_last();
    insert_row(block, at, row);
    last
}

/// Puts an entry at a place of a block, and gives the entry that is its first one then.
fn pass_back(block: &mut Vec<DirEntryKey>, at: usize, row: DirEntryKey) -> DirEntryKey
    requires at { at ≤ length block.old.items }
    requires block { IsBlock block.old }
    ensures rows { result ∷ block.new.items ≡ insert block.old.items at row }
    ensures block { IsBlock block.new }
{
    if at == 0 {
        return row;
    }
    let first = block.remove(0);
    insert_row(block, at - 1, row);
    first
}

/// Puts an entry at a place of a block, where this block or one after it has room for an entry.
fn move_on(
    blocks: &mut Vec<Vec<DirEntryKey>>,
    mut k: usize,
    mut at: usize,
    free: usize,
    mut row: DirEntryKey,
)
    requires order { k ≤ free }
    requires place { IsPlace blocks.old.items k at }
    requires room { HasSpace blocks.old.items free }
    ensures each { All IsBlock blocks.new.items }
    ensures rows { all_entries blocks.new.items ≡ with_row blocks.old.items k at row }
{
    while k < free {
        row = pass_on(&mut blocks[k], at, row);
        k += 1;
        at = 0;
    }
    insert_into(blocks, k, at, row);
}

/// Puts an entry at a place of a block, where this block or one before it has room for an entry.
fn move_back(
    blocks: &mut Vec<Vec<DirEntryKey>>,
    mut k: usize,
    mut at: usize,
    free: usize,
    mut row: DirEntryKey,
)
    requires order { free ≤ k }
    requires place { IsPlace blocks.old.items k at }
    requires room { HasSpace blocks.old.items free }
    ensures each { All IsBlock blocks.new.items }
    ensures rows { all_entries blocks.new.items ≡ with_row blocks.old.items k at row }
{
    while k > free {
        row = pass_back(&mut blocks[k], at, row);
        k -= 1;
        at = blocks[k].len();
    }
    insert_into(blocks, k, at, row);
}

/// Puts an entry at a place of a block, where some block has room for an entry. The entries between the two move on by
/// one.
pub fn insert_through(
    blocks: &mut Vec<Vec<DirEntryKey>>,
    k: usize,
    at: usize,
    free: usize,
    row: DirEntryKey,
)
    requires place { IsPlace blocks.old.items k at }
    requires room { HasSpace blocks.old.items free }
    ensures each { All IsBlock blocks.new.items }
    ensures rows { all_entries blocks.new.items ≡ with_row blocks.old.items k at row }
{
    if k <= free {
        move_on(blocks, k, at, free, row);
        return;
    }
    move_back(blocks, k, at, free, row);
}

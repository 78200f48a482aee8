//! Changes as texts.
use std::alloc::{AllocError, Global};
use test_support::{number, word};
use wasi_tree::TreeChange;
use wasi_tree_shared::Change;

/// The changes of a list, between which `; ` stands.
pub fn changes_of(alloc: Global, list: &str) -> Result<Vec<Change>, AllocError> {
    let mut changes = Vec::new(alloc);
    for text in list.split("; ") {
        if text != "" {
            changes.push(change_of(alloc, text)?)?;
        }
    }
    Ok(changes)
}

/// `NUMBER drop NODE NAME`, or `NUMBER move NODE NAME NODE NAME`.
fn change_of(alloc: Global, text: &str) -> Result<Change, AllocError> {
    let (before, rest) = word(text);
    let (what, rest) = word(rest);
    let (old, rest) = word(rest);
    let (old_name, rest) = word(rest);
    let (new, new_name) = word(rest);
    let name = String::from_str(alloc, old_name)?;
    let what = if what == "drop" {
        let dir = number(old);
        TreeChange::Drop { dir, name }
    } else {
        TreeChange::Move {
            old: number(old),
            old_name: name,
            new: number(new),
            new_name: String::from_str(alloc, new_name)?,
        }
    };
    Ok(Change {
        before: number(before),
        what,
    })
}

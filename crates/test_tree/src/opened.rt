//! Calls by a handle that was opened.
ghost use Rattle.std.specs.Prelude.{◌≡◌, true, IfOk};
ghost use Rattle.std.specs.FinSet.{contains};
ghost use Rattle.wasi_tree.specs.MemState.{live_of};

use crate::calls::{call, name_of, start_of};
use std::alloc::{AllocError, Global};
use test_support::{Asked, Rendered, refused, word};
use wasi_host::{ErrorCode, Handle, Host, HostError, OpenOptions};
use wasi_tree::MemTree;

/// The options that the letters of a word ask for.
fn options_of(word: &str) -> OpenOptions {
    let mut options = OpenOptions::new();
    options
        .read(word.contains('r'))
        .write(word.contains('w'))
        .truncate(word.contains('t'))
        .create(word.contains('c'))
        .create_new(word.contains('n'))
        .dir_required(word.contains('d'));
    options
}

/// `START NAME OPTIONS`.
#[tactic(auto, using(wasi_tree::proofs::SlotLemmas::slot_rules))]
fn opened(tree: &mut MemTree, it: Handle, text: &str) -> Result<Handle, HostError>
    requires { contains (live_of tree.old.handles) it ≡ true }
    ensures { IfOk result (λ h. contains (live_of tree.new.handles) h ≡ true) }
{
    let (start, rest) = word(text);
    let (name, options) = word(rest);
    let Ok(start) = start_of(tree, it, start) else {
        return Err(HostError::Code(ErrorCode::NotDirectory));
    };
    let opened = tree.open_at(start, name_of(name), &options_of(options))?;
    Ok(opened)
}

/// Another handle of what is opened, of which the first is closed.
#[tactic(auto, using(wasi_tree::proofs::SlotLemmas::slot_rules))]
fn copied(tree: &mut MemTree, it: Handle, text: &str) -> Result<Handle, HostError>
    requires { contains (live_of tree.old.handles) it ≡ true }
    ensures { IfOk result (λ h. contains (live_of tree.new.handles) h ≡ true) }
{
    let file = opened(tree, it, text)?;
    let copy = tree.dup(file)?;
    tree.close(file);
    Ok(copy)
}

fn opened_by(tree: &mut MemTree, it: Handle, what: &str, text: &str) -> Result<Handle, HostError>
    requires { contains (live_of tree.old.handles) it ≡ true }
    ensures { IfOk result (λ h. contains (live_of tree.new.handles) h ≡ true) }
{
    if what == "copy" {
        return copied(tree, it, text);
    }
    opened(tree, it, text)
}

/// `START NAME OPTIONS; CALL; CALL ..`: what is opened, or a copy of it, is `it` in the calls after.
pub fn with_opened(tree: &mut MemTree, it: Handle, asked: &Asked<'_>) -> Rendered
    requires { contains (live_of tree.old.handles) it ≡ true }
{
    let (start, calls) = asked.rest.split_once("; ").unwrap_or((asked.rest, ""));
    match opened_by(tree, it, asked.what, start) {
        Ok(it) => along(asked.alloc, tree, it, calls),
        Err(error) => refused(asked.alloc, error),
    }
}

/// The answers of calls, between which `; ` stands, after `ok`.
fn along(alloc: Global, tree: &mut MemTree, it: Handle, calls: &str) -> Rendered
    requires { contains (live_of tree.old.handles) it ≡ true }
{
    let mut text = String::from_str(alloc, "ok")?;
    if !calls.is_empty() {
        push_answers(alloc, tree, it, calls, &mut text)?;
    }
    Ok(text)
}

fn push_answers(
    alloc: Global,
    tree: &mut MemTree,
    it: Handle,
    calls: &str,
    text: &mut String,
) -> Result<(), AllocError>
    requires { contains (live_of tree.old.handles) it ≡ true }
{
    for one in calls.split("; ") {
        let answer = call(tree, it, &Asked::of(alloc, one))?;
        write!(text, "; {answer}")?;
    }
    Ok(())
}

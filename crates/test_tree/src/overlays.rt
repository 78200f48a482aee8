//! Calls of an overlay over the tree.
ghost use Rattle.std.specs.Prelude.{◌≡◌, true};
ghost use Rattle.std.specs.FinSet.{contains};
ghost use Rattle.wasi_tree.specs.MemState.{live_of};

use crate::calls::{at_two, change};
use std::alloc::{AllocError, Global};
use test_support::{Asked, Rendered, done, rendered, unknown, word};
use wasi_host::{Handle, Host};
use wasi_overlay::Overlay;
use wasi_tree::MemTree;

/// `WHAT CALL; CALL ..`: the answers of the calls, each made by a handle of node 0 of an overlay over the tree, and then
/// what is asked of the overlay.
#[tactic(auto, using(wasi_tree::proofs::SlotLemmas::slot_rules))]
pub fn over(alloc: Global, base: &MemTree, rest: &str) -> Rendered {
    let (what, calls) = word(rest);
    let mut overlay = Overlay::new(alloc, base);
    let Ok(root) = overlay.handle(0) else {
        return Err(AllocError);
    };
    let mut text = String::new(alloc);
    push_answers(alloc, &mut overlay, root, calls, &mut text)?;
    write!(text, "{}", rendered_of(alloc, &overlay, what)?)?;
    Ok(text)
}

fn push_answers(
    alloc: Global,
    overlay: &mut Overlay<'_>,
    root: Handle,
    calls: &str,
    text: &mut String,
) -> Result<(), AllocError>
    requires { contains (live_of overlay.old.handles) root ≡ true }
{
    for one in calls.split("; ") {
        let answer = by_root(overlay, root, &Asked::of(alloc, one))?;
        write!(text, "{answer}; ")?;
    }
    Ok(())
}

/// `CALL ARGUMENTS`, by a handle of the directory of all names.
fn by_root<H: Host>(host: &mut H, root: Handle, asked: &Asked<'_>) -> Rendered
    requires { contains (H.live host.old) root ≡ true }
    ensures { H.live host.new ≡ H.live host.old }
{
    if asked.what != "link" && asked.what != "rename" {
        return change(host, root, asked);
    }
    let (name, new_name) = word(asked.rest);
    let given = at_two(host, asked.what, root, name, root, new_name);
    done(asked.alloc, given)
}

fn rendered_of(alloc: Global, overlay: &Overlay<'_>, what: &str) -> Rendered {
    match what {
        "kept" => rendered(alloc, &overlay.kept(alloc)?),
        "touched" => rendered(alloc, &overlay.touched(alloc)?),
        "nodes" => rendered(alloc, &overlay.nodes(alloc)?),
        "commit" => rendered(alloc, &overlay.commit(alloc)?.nodes(alloc)?),
        "committed" => rendered(alloc, &overlay.commit(alloc)?.touched(alloc)?),
        _ => unknown(alloc),
    }
}

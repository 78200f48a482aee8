//! The stack of handles of the directories that a walk has gone down into, the last one on top.
ghost use Rattle.std.specs.Prelude.{◌≡◌, ◌∷◌, IsTrue, List};
ghost use Rattle.wasi_host.specs.HostLaws.{HasCause, HostModel};
ghost use Rattle.wasi_paths.specs.Parts.{Component, ParentDir};
ghost use Rattle.wasi_resolve.specs.Stack.{Stands, StillStands, top_handle};
ghost use Rattle.wasi_resolve.specs.WalkState.{begin, way};
ghost use Rattle.wasi_resolve.specs.Finding.{StackTraced};
ghost use Rattle.wasi_resolve.specs.WalkSteps.{ModelStays, Walked, Leaves};

use wasi_host::{ErrorCode, Handle, Host, HostError};

/// The handle on top of the stack, or the start.
pub(crate) fn top_of(start: Handle, stack: &Vec<Handle>) -> Handle
    ensures { result ≡ top_handle start stack.now.items }
{
    match stack.as_slice() {
        [] => start,
        [.., last] => *last,
    }
}

/// A `..`: the directory on top is left, which must have its search bit. `start` is named by the clauses alone.
pub(crate) fn leave<H: Host>(
    host: &mut H,
    start: Handle,
    stack: &mut Vec<Handle>,
) -> Result<(), HostError>
    requires { (first : _) × Stands first (H.live host.old) start stack.old.items }
    ensures cause { HasCause (H.faults host.old) (H.faults host.new) result }
    ensures stands { StillStands start (H.live host.old) stack.old.items (H.live host.new) stack.new.items }
    ensures provenance { StackTraced start stack.old.items stack.new.items (H.lookups host.old) (H.lookups host.new) }
    ensures logged { H.lookups host.new ≡ H.lookups host.old }
    ensures modelled { IsTrue H.modelled → (first : _) (w : HostModel) (rest : List Component)
        → Stands first (H.live host.old) start stack.old.items
        → Walked first w (H.model host.old) start stack.old.items
        → Leaves (begin first w start) (way (H.model host.old) stack.old.items (ParentDir ∷ rest))
        (way (H.model host.new) stack.new.items rest) result }
{
    let Some(here) = stack.pop() else {
        return Err(HostError::Code(ErrorCode::NotPermitted));
    };
    let allowed = host.access(here);
    host.close(here);
    match allowed {
        Ok(()) => Ok(()),
        Err(code) => Err(HostError::Code(code)),
    }
}

/// Closes the handles of a stack. `start` is named by the clauses alone.
pub(crate) fn close_all<H: Host>(host: &mut H, start: Handle, stack: &mut Vec<Handle>)
    requires { (first : _) × Stands first (H.live host.old) start stack.old.items }
    ensures faults { H.faults host.new ≡ H.faults host.old }
    ensures live { (first : _) → Stands first (H.live host.old) start stack.old.items → H.live host.new ≡ first }
    ensures logged { H.lookups host.new ≡ H.lookups host.old }
    ensures modelled { IsTrue H.modelled → (first : _) → Stands first (H.live host.old) start stack.old.items
        → ModelStays first (H.model host.old) (H.model host.new) }
{
    while let Some(handle) = stack.pop() {
        host.close(handle);
    }
}

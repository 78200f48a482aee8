//! What C keeps of a sandbox: one pointer.
ghost use Rattle.std.specs.Prelude.{◌≡◌, Some, None, IsSome};
ghost use Rattle.wasi_c.specs.Held.{Held, held_coded, owned_by};

use crate::boxed::Parts;
use std::alloc::Global;
use std::marker::Model;
use std::mem;
use wasi_sandbox::AnySandbox;

/// A sandbox on the heap; or nothing, and then the pointer is null (`owned_by`), which C writes as all zeros. It isn't
/// `Drop`, so none is let go or written over but by `let_go`, which takes an empty one.
#[repr(C)]
pub struct SandboxHandle {
    at: *mut u8,
    alloc: Global,
    pub ghost value: { Held } by { held_coded },
}

impl Model for SandboxHandle {
    ghost also_owns = { λ s. owned_by s.alloc s.at s.value };
}

impl SandboxHandle {
    fn of_parts(parts: Parts<AnySandbox, Global>) -> SandboxHandle
        ensures { result.value ≡ Some parts.value }
    {
        let Parts { ptr, alloc } = parts;
        SandboxHandle {
            at: ptr as *mut u8,
            alloc,
        }
    }

    fn into_parts(self) -> Parts<AnySandbox, Global>
        requires { IsSome self.value }
        ensures { self.value ≡ Some result.value }
    {
        let SandboxHandle { at, alloc } = self;
        Parts {
            ptr: at as *mut AnySandbox,
            alloc,
        }
    }

    /// The sandbox of a handle that isn't empty.
    fn into_box(self) -> Box<AnySandbox, Global>
        requires { IsSome self.value }
        ensures { self.value ≡ Some result.value }
    {
        self.into_parts().into_box()
    }

    /// Lets an empty handle go, which owns nothing.
    pub(crate) fn let_go(self)
        requires { self.value ≡ None }
    {
        let SandboxHandle { at: _, alloc: _ } = self;
    }

    /// Takes the sandbox, which `put` gives back, and leaves the empty handle that was handed in.
    pub(crate) fn take(&mut self, empty: SandboxHandle) -> Box<AnySandbox, Global>
        requires held { IsSome self.old.value }
        requires empty { empty.value ≡ None }
        ensures taken { self.old.value ≡ Some result.value }
        ensures left { self.new ≡ empty }
        ensures empty { self.new.value ≡ None }
    {
        mem::replace(self, empty).into_box()
    }

    /// Puts a sandbox into an empty handle.
    pub(crate) fn put(&mut self, sandbox: Box<AnySandbox, Global>)
        requires { self.old.value ≡ None }
        ensures { self.new.value ≡ Some sandbox.value }
    {
        let filled = SandboxHandle::of_parts(Parts::of(sandbox));
        mem::replace(self, filled).let_go();
    }
}

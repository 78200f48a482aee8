//! What C keeps of a tree that sandboxes stand over: one pointer.
ghost use Rattle.std.specs.Prelude.{◌≡◌, Some, IsSome};
ghost use Rattle.wasi_c.specs.Held.{HeldBase, base_coded, lent_by};

use std::marker::Model;
use wasi_sandbox::Base;

/// A tree on the heap that sandboxes stand over, and that stays for as long as the program runs (`lent_by`); or
/// nothing, and then the pointer is null, which C writes as all zeros. It only lends the tree, so it may be copied, and
/// dropped.
#[repr(C)]
#[derive(Drop)]
pub struct BaseHandle {
    at: *const u8,
    pub ghost value: { HeldBase } by { base_coded },
}

impl Model for BaseHandle {
    ghost also_owns = { λ b. lent_by b.at b.value };
}

impl BaseHandle {
    /// The handle of a tree that is never released.
    pub(crate) fn of(base: &'static Base) -> BaseHandle
        ensures { result.value ≡ Some base.now }
    {
        BaseHandle {
            at: base as *const Base as *const u8,
        }
    }

    /// The tree of a handle that isn't empty.
    pub(crate) fn base(self) -> &'static Base
        requires { IsSome self.value }
        ensures { self.value ≡ Some result.now }
    {
        let BaseHandle { at } = self;
        unsafe { &*(at as *const Base) }
    }
}

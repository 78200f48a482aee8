//! What a value of JSON is read as.
ghost use Rattle.std.specs.Prelude.{◌≡◌, option_map, IfOk};
ghost use Rattle.wasi_form.specs.IsRead.{IsRead};
ghost use Rattle.wasi_form.specs.Lists as lists;
ghost use Rattle.wasi_form.specs.Lists.{same};
ghost use Rattle.wasi_form.specs.Shapes as shapes;

use hex::FromHexError;
use json::Invalid;
use std::alloc::{AllocError, AllocFailed, Global};

/// Why a value isn't read: it is of another shape, or memory ran out.
#[derive(Clone, Copy, Debug, PartialEq, Eq)]
pub enum Unread {
    Shape,
    Memory,
}

impl From<AllocError> for Unread {
    ghost use Rattle.wasi_form.specs.declared.shapes.Unread.TheVariants.{Memory};

    ghost from_gives = { λ _ e. e ≡ Memory };

    fn from(_: AllocError) -> Self {
        Unread::Memory
    }
}

impl<T: Drop> From<AllocFailed<T>> for Unread {
    ghost use Rattle.wasi_form.specs.declared.shapes.Unread.TheVariants.{Memory};

    ghost from_gives = { λ _ e. e ≡ Memory };

    fn from(_: AllocFailed<T>) -> Self {
        Unread::Memory
    }
}

impl From<Invalid> for Unread {
    ghost use Rattle.wasi_form.specs.declared.shapes.Unread.TheVariants.{Shape};

    ghost from_gives = { λ _ e. e ≡ Shape };

    fn from(_: Invalid) -> Self {
        Unread::Shape
    }
}

/// What reading answers.
pub type Reading<T> = Result<T, Unread>;

/// Goes on where a test holds.
pub fn require(holds: bool) -> Reading<()>
    ensures { IsRead same result (lists.only_if holds) }
{
    if holds { Ok(()) } else { Err(Unread::Shape) }
}

/// The bytes of a hex text. `None` where it is none.
pub fn hex_of_text(alloc: Global, text: &str) -> Result<Option<Vec<u8>>, AllocError>
    ensures { IfOk result (λ found. option_map (λ v. v.items) found ≡ shapes.hex_in text.now) }
{
    match hex::decode(alloc, text) {
        Ok(bytes) => Ok(Some(bytes)),
        Err(FromHexError::OutOfMemory) => Err(AllocError),
        Err(_) => Ok(None),
    }
}

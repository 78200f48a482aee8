//! The guest's memory of a script, what stands in it, and what is shown of it.
ghost use Rattle.std.specs.Prelude.{◌≡◌, option_map, IfOk};
ghost use Rattle.json.specs.Json.{parse_map};
ghost use Rattle.wasi_form.specs.Atoms.{atom_data};
ghost use Rattle.wasi_form.specs.IsRead.{IsRead};
ghost use Rattle.wasi_form.specs.Lists.{same};
ghost use Rattle.wasi_form.specs.MemoryForm as specs;
ghost use Rattle.wasi_form.specs.FoundParts.{memory_found_of};
ghost use Rattle.wasi_form.specs.ListedLaws as laws;
ghost use Rattle.wasi_form.specs.Plan as plans;
ghost use Rattle.wasi_form.specs.Shapes.{hex_in};
ghost use Rattle.wasi_form.specs.Tokens.{next_value};

use crate::atoms::{Atom, next_u32};
use crate::lists::{Listed, list};
use crate::objects::{Fields, object};
use crate::script::{BYTES_IN_PLACE, Piece, PieceBytes, Shown};
use crate::shapes::{Reading, Unread, hex_of_text};
use crate::tokens::pass;
use json::Reader;
use std::alloc::{AllocError, Global};

// The bytes of a hex text. `None` where it is none.
fn bytes_of_hex(alloc: Global, text: &str) -> Result<Option<PieceBytes>, AllocError>
    ensures { IfOk result (λ found. option_map (λ v. v.items) found ≡ hex_in text.now) }
{
    let count = text.len() / 2;
    if count > BYTES_IN_PLACE {
        let Some(bytes) = hex_of_text(alloc, text)? else {
            return Ok(None);
        };
        return Ok(Some(PieceBytes::from_vec(bytes)));
    }
    let mut bytes = PieceBytes::from_elem(alloc, 0, count)?;
    match hex::decode_to_slice(text, bytes.as_mut_slice()) {
        Ok(()) => Ok(Some(bytes)),
        Err(_) => Ok(None),
    }
}

fn piece_bytes(alloc: Global, kind: Atom<'_>, text: Atom<'_>) -> Reading<PieceBytes>
    ensures { IsRead (λ v. v.items) result (specs.piece_bytes (atom_data kind.entry) (atom_data text.entry)) }
{
    let Some(text) = text.as_str() else {
        return Err(Unread::Shape);
    };
    if kind.is_text("hex") {
        bytes_of_hex(alloc, text)?.ok_or(Unread::Shape)
    } else if kind.is_text("text") {
        Ok(PieceBytes::from_slice(alloc, text.as_bytes())?)
    } else {
        Err(Unread::Shape)
    }
}

impl Listed for Piece {
    ghost use Rattle.wasi_form.specs.Plan.{PlannedPiece};

    ghost Seen = { PlannedPiece };

    ghost see = { plans.planned_piece };

    ghost of = { specs.piece_of_items };

    ghost sees = { laws.piece_sees };

    #[tactic(auto, using(crate::proofs::Lengths::short_is_no_three, crate::proofs::Lengths::long_is_no_three))]
    fn read(alloc: Global, atoms: &[Atom<'_>]) -> Reading<Piece> {
        let [offset, kind, text] = atoms else {
            return Err(Unread::Shape);
        };
        Ok(Piece {
            offset: offset.as_u32().ok_or(Unread::Shape)?,
            bytes: piece_bytes(alloc, *kind, *text)?,
        })
    }
}

/// The size of a memory, and what stands in it.
#[derive(Drop)]
pub struct ScriptMemory {
    pub size: u32,
    pub pieces: Vec<Piece>,
}

// Whether all keys are those of a memory, and what stands at them.
#[derive(Drop)]
struct MemoryParts {
    alloc: Global,
    known: bool,
    size: Option<u32>,
    pieces: Option<Vec<Piece>>,
}

impl Fields for MemoryParts {
    ghost use Rattle.wasi_form.specs.MemoryForm.{MemoryFound, memory_in};
    ghost use Rattle.wasi_form.specs.FoundParts.{memory_found_of, with_memory_member};

    ghost Seen = { MemoryFound };

    ghost see = { memory_found_of };

    ghost of = { memory_in };

    ghost with = { with_memory_member };

    fn none(alloc: Global) -> MemoryParts {
        MemoryParts {
            alloc,
            known: true,
            size: None,
            pieces: None,
        }
    }

    #[tactic(auto, unfolding(crate::specs::FoundParts::with_memory_member))]
    fn with_member(mut self, key: &str, reader: &mut Reader<'_>, depth: usize) -> Reading<Self> {
        match key {
            "size" => {
                self.size = next_u32(reader, depth)?;
                Ok(self)
            }
            "pieces" => {
                self.pieces = list(self.alloc, reader, depth)?;
                Ok(self)
            }
            _ => {
                pass(reader, depth)?;
                self.known = false;
                Ok(self)
            }
        }
    }
}

impl MemoryParts {
    #[tactic(auto, unfolding(crate::specs::MemoryForm::memory_found))]
    fn memory(self) -> Option<ScriptMemory>
        ensures { option_map plans.planned_memory result ≡ specs.memory_found (memory_found_of self) }
    {
        if !self.known {
            return None;
        }
        Some(ScriptMemory {
            size: self.size?,
            pieces: self.pieces?,
        })
    }
}

/// The next value of a text, read as a memory. `None` where it is of another shape.
pub fn memory(alloc: Global, reader: &mut Reader<'_>, depth: usize) -> Reading<Option<ScriptMemory>>
    ensures { IsRead (λ found. (option_map plans.planned_memory found, reader.new)) result
        (parse_map specs.memory_of (next_value depth reader.old)) }
{
    let parts: Option<MemoryParts> = object(alloc, reader, depth)?;
    match parts {
        Some(parts) => Ok(parts.memory()),
        None => Ok(None),
    }
}

impl Listed for Shown {
    ghost use Rattle.wasi_form.specs.declared.script.Shown.{Shown};

    ghost Seen = { Shown };

    ghost see = { same };

    ghost of = { specs.shown_of_items };

    ghost sees = { laws.shown_sees };

    #[tactic(auto, using(crate::proofs::Lengths::short_is_no_two, crate::proofs::Lengths::long_is_no_two))]
    fn read(_alloc: Global, atoms: &[Atom<'_>]) -> Reading<Shown> {
        let [ptr, len] = atoms else {
            return Err(Unread::Shape);
        };
        Ok(Shown {
            ptr: ptr.as_u32().ok_or(Unread::Shape)?,
            len: len.as_u32().ok_or(Unread::Shape)?,
        })
    }
}

/// No memory.
pub fn no_memory(alloc: Global) -> ScriptMemory
    ensures { plans.planned_memory result ≡ specs.no_memory }
{
    ScriptMemory {
        size: 0,
        pieces: Vec::new(alloc),
    }
}

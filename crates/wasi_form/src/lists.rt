//! Lists that are read item by item: no value of JSON is built of an item.
ghost use Rattle.std.specs.Prelude.{◌≡◌, ◌∷◌, Option, option_map, option_and_then, IfOk};
ghost use Rattle.json.specs.Json.{parse_map};
ghost use Rattle.json.specs.Reads.{token_of};
ghost use Rattle.serde_json.specs.Data.{Data, Items};
ghost use Rattle.serde_json.specs.Find as find;
ghost use Rattle.wasi_form.specs.Atoms.{atoms_data, atoms_if, SeesAtoms};
ghost use Rattle.wasi_form.specs.IsRead.{IsRead};
ghost use Rattle.wasi_form.specs.Lists.{items_all, list_of, list_seen, pushed};
ghost use Rattle.wasi_form.specs.Tokens.{next_value, next_items};

use crate::atoms::{Atom, list_atoms};
use crate::shapes::{Reading, Unread};
use crate::tokens::pass_after;
use json::{Reader, Token};
use smallvec::SmallVec;
use std::alloc::{AllocError, Global};

/// An item of a list of a script.
pub trait Item: Drop + Sized {
    /// What is seen of what is read.
    ghost Seen: { Type 0 };

    ghost see: { Self → Self.Seen };

    ghost of: { Data → Option Self.Seen };

    /// The next value of a text. `None` where it is of another shape.
    fn next(alloc: Global, reader: &mut Reader<'_>, depth: usize) -> Reading<Option<Self>>
        ensures { IsRead (λ found. (option_map see found, reader.new)) result
            (parse_map of (next_value depth reader.old)) };
}

/// The next value of a text, read as a list. `None` where it, or one of its items, is of another shape.
pub fn list<T: Item>(
    alloc: Global,
    reader: &mut Reader<'_>,
    depth: usize,
) -> Reading<Option<Vec<T>>>
    ensures { IsRead (λ found. (list_seen T.see found, reader.new)) result
        (parse_map (list_of T.of) (next_value depth reader.old)) }
{
    let Some(token) = reader.next() else {
        return Err(Unread::Shape);
    };
    list_after(alloc, token, reader, depth)
}

fn list_after<T: Item>(
    alloc: Global,
    token: Token<'_>,
    reader: &mut Reader<'_>,
    depth: usize,
) -> Reading<Option<Vec<T>>>
    ensures { IsRead (λ found. (list_seen T.see found, reader.new)) result
        (parse_map (list_of T.of) (next_value depth (token_of token.entry ∷ reader.old))) }
{
    match token {
        Token::BeginArray => {
            if depth == 0 {
                return Err(Unread::Shape);
            }
            items_left(alloc, reader, depth - 1)
        }
        _ => {
            pass_after(token, reader, depth)?;
            Ok(None)
        }
    }
}

fn items_left<T: Item>(
    alloc: Global,
    reader: &mut Reader<'_>,
    depth: usize,
) -> Reading<Option<Vec<T>>>
    ensures { IsRead (λ found. (list_seen T.see found, reader.new)) result
        (parse_map (items_all T.of) (next_items depth reader.old)) }
{
    let mut found = Some(Vec::new(alloc));
    'items: while !reader.take_end_array() {
        let item = T::next(alloc, reader, depth)?;
        found = with_item(found, item)?;
    }
    Ok(found)
}

// The list with an item at its end, `None` where one of them is of another shape.
fn with_item<T: Drop>(list: Option<Vec<T>>, item: Option<T>) -> Result<Option<Vec<T>>, AllocError>
    ensures { IfOk result (λ all. option_map (λ v. v.items) all ≡ pushed (option_map (λ v. v.items) list) item) }
{
    match list {
        Some(mut list) => match item {
            Some(item) => {
                list.push(item)?;
                Ok(Some(list))
            }
            None => Ok(None),
        },
        None => Ok(None),
    }
}

/// An item that is a list of numbers and texts.
pub trait Listed: Drop + Sized {
    /// What is seen of what is read.
    ghost Seen: { Type 0 };

    ghost see: { Self → Self.Seen };

    ghost of: { Items → Option Self.Seen };

    fn read(alloc: Global, atoms: &[Atom<'_>]) -> Reading<Self>
        ensures { IsRead Self.see result (of (atoms_data atoms.now)) };

    /// Of its items no more is seen than numbers and texts.
    ghost sees: { SeesAtoms of };
}

impl<T: Listed> Item for T {
    ghost Seen = { T.Seen };

    ghost see = { T.see };

    ghost of = { λ d. option_and_then T.of (find.as_array d) };

    fn next(alloc: Global, reader: &mut Reader<'_>, depth: usize) -> Reading<Option<T>> {
        let mut atoms = SmallVec::new(alloc);
        let is_list = list_atoms(reader, depth, &mut atoms)?;
        Ok(formed(alloc, is_list, atoms.as_slice())?)
    }
}

// What numbers and texts are read as, where they are those of a list.
fn formed<T: Listed>(
    alloc: Global,
    is_list: bool,
    atoms: &[Atom<'_>],
) -> Result<Option<T>, AllocError>
    ensures { IfOk result (λ found. option_map T.see found
        ≡ option_and_then T.of (atoms_if is_list atoms.now)) }
{
    if !is_list {
        return Ok(None);
    }
    match T::read(alloc, atoms) {
        Ok(found) => Ok(Some(found)),
        Err(Unread::Shape) => Ok(None),
        Err(Unread::Memory) => Err(AllocError),
    }
}

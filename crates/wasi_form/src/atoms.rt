//! Lists of numbers and texts: any other value in them is passed, and nothing of it is kept.
ghost use Rattle.std.specs.Prelude.{◌≡◌, [], ◌∷◌, option_map};
ghost use Rattle.json.specs.Json.{parse_map};
ghost use Rattle.json.specs.Reads.{token_of};
ghost use Rattle.serde_json.specs.Find as find;
ghost use Rattle.serde_json.specs.View.{number_view};
ghost use Rattle.wasi_call_table.specs.CallTable.{number_of_word};
ghost use Rattle.wasi_call_table.specs.declared.call_table.Kind.TheVariants.{U32, I64};
ghost use Rattle.wasi_form.specs.Atoms.{flat, flat_items, atom_data, atoms_data, atoms_if};
ghost use Rattle.wasi_form.specs.CallForm.{number_of};
ghost use Rattle.wasi_form.specs.IsRead.{IsRead};
ghost use Rattle.wasi_form.specs.Lists.{same};
ghost use Rattle.wasi_form.specs.Shapes as shapes;
ghost use Rattle.wasi_form.specs.Tokens.{next_value, next_items};

use crate::shapes::{Reading, Unread};
use crate::tokens::{number, pass_after};
use json::{Reader, Token};
use serde_json::Number;
use smallvec::SmallVec;
use wasi_call_table::Kind;

/// An item of a list: a number, a text, or any other value, which was passed.
#[derive(Clone, Copy, Default)]
pub enum Atom<'a> {
    Number(Number),
    Text(&'a str),
    #[default]
    Other,
}

impl<'a> Atom<'a> {
    fn as_number(self) -> Option<Number>
        ensures { option_map number_view result ≡ find.as_number (atom_data self.entry) }
    {
        match self {
            Atom::Number(number) => Some(number),
            Atom::Text(_) => None,
            Atom::Other => None,
        }
    }

    /// A whole number of 64 bits.
    pub fn as_u64(self) -> Option<u64>
        ensures { result ≡ shapes.u64_of (atom_data self.entry) }
    {
        self.as_number()?.as_u64()
    }

    /// A whole number of 64 bits with a sign.
    pub fn as_i64(self) -> Option<i64>
        ensures { result ≡ shapes.i64_of (atom_data self.entry) }
    {
        self.as_number()?.as_i64()
    }

    /// A whole number of 32 bits.
    pub fn as_u32(self) -> Option<u32>
        ensures { result ≡ shapes.u32_of (atom_data self.entry) }
    {
        u32::try_from(self.as_u64()?).ok()
    }

    fn u32_word(self) -> Option<u64>
        ensures { option_map (number_of_word U32) result ≡ shapes.u32_of (atom_data self.entry) }
    {
        let number = self.as_u32()?;
        Some(number as u64)
    }

    fn i64_word(self) -> Option<u64>
        ensures { option_map (number_of_word I64) result ≡ shapes.i64_of (atom_data self.entry) }
    {
        let number = self.as_i64()?;
        Some(number.cast_unsigned())
    }

    /// The word of a number of the kind: of one with a sign it is the two's complement.
    pub fn as_word(self, kind: Kind) -> Option<u64>
        ensures { option_map (number_of_word kind) result ≡ number_of kind (atom_data self.entry) }
    {
        match kind {
            Kind::U32 => self.u32_word(),
            Kind::U64 => self.as_u64(),
            Kind::I64 => self.i64_word(),
        }
    }

    /// A text.
    pub fn as_str(self) -> Option<&'a str>
        ensures { option_map (λ text. text.now) result ≡ find.as_str (atom_data self.entry) }
    {
        match self {
            Atom::Number(_) => None,
            Atom::Text(text) => Some(text),
            Atom::Other => None,
        }
    }

    /// Whether it is this text.
    pub fn is_text(self, text: &str) -> bool
        ensures { result ≡ shapes.is_text text.now (atom_data self.entry) }
    {
        match self {
            Atom::Number(_) => false,
            Atom::Text(found) => found == text,
            Atom::Other => false,
        }
    }
}

/// The next value of a text.
#[inline(always)]
pub fn next_atom<'a>(reader: &mut Reader<'a>, depth: usize) -> Reading<Atom<'a>>
    ensures { IsRead (λ atom. (atom_data atom, reader.new)) result (parse_map flat (next_value depth reader.old)) }
{
    match reader.next() {
        Some(token) => atom_after(token, reader, depth),
        None => Err(Unread::Shape),
    }
}

#[inline(always)]
fn atom_after<'a>(token: Token<'a>, reader: &mut Reader<'a>, depth: usize) -> Reading<Atom<'a>>
    ensures { IsRead (λ atom. (atom_data atom, reader.new)) result
        (parse_map flat (next_value depth (token_of token.entry ∷ reader.old))) }
{
    match token {
        Token::Number(text) => match number(text) {
            Some(number) => Ok(Atom::Number(number)),
            None => Err(Unread::Shape),
        },
        Token::String(text) => Ok(Atom::Text(text)),
        _ => {
            pass_after(token, reader, depth)?;
            Ok(Atom::Other)
        }
    }
}

/// The next value of a text, where it is a text itself.
pub fn next_text<'a>(reader: &mut Reader<'a>, depth: usize) -> Reading<Option<&'a str>>
    ensures { IsRead (λ found. (option_map (λ text. text.now) found, reader.new)) result
        (parse_map find.as_str (next_value depth reader.old)) }
{
    Ok(next_atom(reader, depth)?.as_str())
}

/// The next value of a text, where it is a whole number of 64 bits.
pub fn next_u64(reader: &mut Reader<'_>, depth: usize) -> Reading<Option<u64>>
    ensures { IsRead (λ found. (option_map same found, reader.new)) result
        (parse_map shapes.u64_of (next_value depth reader.old)) }
{
    Ok(next_atom(reader, depth)?.as_u64())
}

/// The next value of a text, where it is a whole number of 32 bits.
pub fn next_u32(reader: &mut Reader<'_>, depth: usize) -> Reading<Option<u32>>
    ensures { IsRead (λ found. (option_map same found, reader.new)) result
        (parse_map shapes.u32_of (next_value depth reader.old)) }
{
    Ok(next_atom(reader, depth)?.as_u32())
}

// How many items a list has at most of which a form is made. So many stand in the list itself.
const MOST_ITEMS: usize = 9;

/// The items of a list.
pub type Atoms<'a> = SmallVec<Atom<'a>, MOST_ITEMS>;

// The items that are left of a list.
fn atoms_left<'a>(reader: &mut Reader<'a>, depth: usize, atoms: &mut Atoms<'a>) -> Reading<()>
    requires { atoms.old.items ≡ [] }
    ensures { IsRead (λ _. (atoms_data atoms.new.items, reader.new)) result
        (parse_map flat_items (next_items depth reader.old)) }
{
    'items: while !reader.take_end_array() {
        let item = next_atom(reader, depth)?;
        atoms.push(item)?;
    }
    Ok(())
}

/// Whether the next value of a text is a list, whose items are put into `atoms` then.
pub fn list_atoms<'a>(reader: &mut Reader<'a>, depth: usize, atoms: &mut Atoms<'a>) -> Reading<bool>
    requires { atoms.old.items ≡ [] }
    ensures { IsRead (λ is_list. (atoms_if is_list atoms.new.items, reader.new)) result
        (parse_map (λ d. option_map flat_items (find.as_array d)) (next_value depth reader.old)) }
{
    match reader.next() {
        Some(token) => list_atoms_after(token, reader, depth, atoms),
        None => Err(Unread::Shape),
    }
}

fn list_atoms_after<'a>(
    token: Token<'a>,
    reader: &mut Reader<'a>,
    depth: usize,
    atoms: &mut Atoms<'a>,
) -> Reading<bool>
    requires { atoms.old.items ≡ [] }
    ensures { IsRead (λ is_list. (atoms_if is_list atoms.new.items, reader.new)) result
        (parse_map (λ d. option_map flat_items (find.as_array d)) (next_value depth (token_of token.entry ∷ reader.old))) }
{
    match token {
        Token::BeginArray => {
            if depth == 0 {
                return Err(Unread::Shape);
            }
            atoms_left(reader, depth - 1, atoms)?;
            Ok(true)
        }
        _ => {
            pass_after(token, reader, depth)?;
            Ok(false)
        }
    }
}

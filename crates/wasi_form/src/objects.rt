//! Objects that are read member by member: no value of JSON is built of a member. Of equal keys the last counts.
ghost use Rattle.std.specs.Prelude.{◌≡◌, ◌∷◌, ℕ, List, option_map};
ghost use Rattle.json.specs.Json.{parse_map};
ghost use Rattle.json.specs.Reads.{token_of};
ghost use Rattle.serde_json.specs.Data.{Data, Members, no_members};
ghost use Rattle.serde_json.specs.Find as find;
ghost use Rattle.wasi_form.specs.IsRead.{IsRead};
ghost use Rattle.wasi_form.specs.Tokens.{next_value, next_members, TakesMembers};

use crate::shapes::{Reading, Unread};
use crate::tokens::pass_after;
use json::{Reader, Token};
use std::alloc::Global;

/// What the members of an object are put into, one after another.
pub trait Fields: Drop + Sized {
    /// What is seen of what is read.
    ghost Seen: { Type 0 };

    ghost see: { Self → Self.Seen };

    /// What all members come to.
    ghost of: { Members → Self.Seen };

    /// What is seen with one more member.
    ghost with: { List ℕ → Data → Self.Seen → Self.Seen };

    /// No members.
    fn none(alloc: Global) -> Self
        ensures { see result ≡ of no_members };

    /// With the member of a key, whose value is next in the text.
    fn with_member(self, key: &str, reader: &mut Reader<'_>, depth: usize) -> Reading<Self>
        ensures { IsRead (λ all. (see all, reader.new)) result
            (parse_map (λ d. with key.now d (see self)) (next_value depth reader.old)) };
}

/// The next value of a text, read as an object. `None` where it is none.
pub fn object<F: Fields>(alloc: Global, reader: &mut Reader<'_>, depth: usize) -> Reading<Option<F>>
    requires { TakesMembers F.of F.with }
    ensures { IsRead (λ found. (option_map F.see found, reader.new)) result
        (parse_map (λ d. option_map F.of (find.as_object d)) (next_value depth reader.old)) }
{
    let Some(token) = reader.next() else {
        return Err(Unread::Shape);
    };
    object_after(alloc, token, reader, depth)
}

fn object_after<F: Fields>(
    alloc: Global,
    token: Token<'_>,
    reader: &mut Reader<'_>,
    depth: usize,
) -> Reading<Option<F>>
    requires { TakesMembers F.of F.with }
    ensures { IsRead (λ found. (option_map F.see found, reader.new)) result
        (parse_map (λ d. option_map F.of (find.as_object d)) (next_value depth (token_of token.entry ∷ reader.old))) }
{
    match token {
        Token::BeginObject => {
            if depth == 0 {
                return Err(Unread::Shape);
            }
            Ok(Some(members_left(alloc, reader, depth - 1)?))
        }
        _ => {
            pass_after(token, reader, depth)?;
            Ok(None)
        }
    }
}

fn members_left<F: Fields>(alloc: Global, reader: &mut Reader<'_>, depth: usize) -> Reading<F>
    requires { TakesMembers F.of F.with }
    ensures { IsRead (λ all. (F.see all, reader.new)) result
        (parse_map F.of (next_members depth no_members reader.old)) }
{
    let mut all = F::none(alloc);
    'members: while let Some(key) = reader.next_key()? {
        all = all.with_member(key, reader, depth)?;
    }
    Ok(all)
}

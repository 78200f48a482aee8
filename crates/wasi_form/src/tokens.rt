//! Values of JSON that are passed token by token, and numbers: no value of JSON is built.
ghost use Rattle.std.specs.Prelude.{◌≡◌, ◌∷◌, ◌<◌, ◌==◌, IsTrue, IfSome, Some, length, slice_index, option_map, true, false};
ghost use Rattle.json.specs.Json.{parse_map};
ghost use Rattle.json.specs.Reads.{token_of};
ghost use Rattle.serde_json.specs.Data.{unsigned, no_members};
ghost use Rattle.serde_json.specs.Read.{number_of, number_from, float_of};
ghost use Rattle.serde_json.specs.View.{number_view};
ghost use Rattle.wasi_form.specs.IsRead.{IsRead};
ghost use Rattle.wasi_form.specs.Tokens.{next_value, next_items, next_members, nothing};

use crate::shapes::{Reading, Unread};
use fast_float::Numeral;
use json::{Reader, Token};
use serde_json::Number;

/// Passes the next value of a text, of which nothing is kept. Lists and objects nest at most `depth` deep. `Shape` where
/// no value of JSON stands there.
#[cycle(values)]
pub fn pass(reader: &mut Reader<'_>, depth: usize) -> Reading<()>
    ensures { IsRead (λ kept. (kept, reader.new)) result (parse_map nothing (next_value depth reader.old)) }
{
    match reader.next() {
        Some(token) => pass_after(token, reader, depth),
        None => Err(Unread::Shape),
    }
}

/// Passes the value that begins with a token that was read.
#[cycle(values)]
pub fn pass_after(token: Token<'_>, reader: &mut Reader<'_>, depth: usize) -> Reading<()>
    ensures { IsRead (λ kept. (kept, reader.new)) result
        (parse_map nothing (next_value depth (token_of token.entry ∷ reader.old))) }
{
    match token {
        Token::Null | Token::Bool(_) | Token::String(_) => Ok(()),
        Token::Number(text) => match number(text) {
            Some(_) => Ok(()),
            None => Err(Unread::Shape),
        },
        Token::BeginArray => {
            if depth == 0 {
                return Err(Unread::Shape);
            }
            pass_items(reader, depth - 1)
        }
        Token::BeginObject => {
            if depth == 0 {
                return Err(Unread::Shape);
            }
            pass_members(reader, depth - 1)
        }
        Token::EndObject | Token::EndArray | Token::Key(_) | Token::Bad => Err(Unread::Shape),
    }
}

// Passes the items that are left of a list.
#[cycle(values)]
fn pass_items(reader: &mut Reader<'_>, depth: usize) -> Reading<()>
    ensures { IsRead (λ kept. (kept, reader.new)) result (parse_map nothing (next_items depth reader.old)) }
{
    'items: while !reader.take_end_array() {
        pass(reader, depth)?;
    }
    Ok(())
}

// Passes the members that are left of an object.
#[cycle(values)]
fn pass_members(reader: &mut Reader<'_>, depth: usize) -> Reading<()>
    ensures { IsRead (λ kept. (kept, reader.new)) result (parse_map nothing (next_members depth no_members reader.old)) }
{
    'members: while let Some(_) = reader.next_key()? {
        pass(reader, depth)?;
    }
    Ok(())
}

/// The number that a text of JSON writes, `None` where it is too large for a float.
pub fn number(text: &str) -> Option<Number>
    ensures { option_map number_view result ≡ number_of text.now }
{
    let bytes = text.as_bytes();
    match digits_alone(bytes) {
        Some(n) => Some(Number::from(n)),
        None => numeral(bytes),
    }
}

// The number that a text of digits alone writes, as most texts of numbers are: the others are for `numeral`.
fn digits_alone(bytes: &[u8]) -> Option<u64>
    ensures { IfSome result (λ n. number_of bytes.now ≡ Some (unsigned n)) }
{
    if bytes.is_empty() {
        return None;
    }
    let mut n: u64 = 0;
    for digit in bytes {
        if !digit.is_ascii_digit() {
            return None;
        }
        n = n.checked_mul(10)?.checked_add(u64::from(*digit - b'0'))?;
    }
    Some(n)
}

// The number of a text with a sign, a point or an exponent, or of many digits.
fn numeral(bytes: &[u8]) -> Option<Number>
    ensures { option_map number_view result ≡ number_of bytes.now }
{
    if has_minus(bytes) {
        below_zero(&Numeral::scan(&bytes[1..]))
    } else {
        above_zero(&Numeral::scan(bytes))
    }
}

fn has_minus(bytes: &[u8]) -> bool
    ensures test { result ≡ (slice_index bytes.now 0 == 45) }
    ensures some { IsTrue result → 0 < length bytes.now }
{
    !bytes.is_empty() && bytes[0] == b'-'
}

fn above_zero(numeral: &Numeral<'_>) -> Option<Number>
    ensures { option_map number_view result ≡ number_from false numeral.now }
{
    match numeral.to_u64() {
        Some(n) => Some(Number::from(n)),
        None => nearest(false, numeral),
    }
}

fn below_zero(numeral: &Numeral<'_>) -> Option<Number>
    ensures { option_map number_view result ≡ number_from true numeral.now }
{
    match numeral.to_i64(true) {
        Some(n) if n < 0 => Some(Number::from(n)),
        _ => nearest(true, numeral),
    }
}

fn nearest(negative: bool, numeral: &Numeral<'_>) -> Option<Number>
    ensures { option_map number_view result ≡ float_of negative numeral.now }
{
    Number::from_f64(numeral.to_float::<f64>(negative))
}

//! Values of JSON that are texts, read without a value of JSON for each.
ghost use Rattle.std.specs.Prelude.{option_map, string_bytes};
ghost use Rattle.json.specs.Json.{parse_map};
ghost use Rattle.serde_json.specs.Find as find;
ghost use Rattle.wasi_form.specs.IsRead.{IsRead};
ghost use Rattle.wasi_form.specs.Shapes as shapes;
ghost use Rattle.wasi_form.specs.Tokens.{next_value};

use crate::atoms::next_text;
use crate::shapes::{Reading, hex_of_text};
use json::Reader;
use std::alloc::Global;

/// The next value of a text, read as bytes in hex. `None` where it is of another shape.
pub fn hex(alloc: Global, reader: &mut Reader<'_>, depth: usize) -> Reading<Option<Vec<u8>>>
    ensures { IsRead (λ found. (option_map (λ v. v.items) found, reader.new)) result
        (parse_map shapes.hex_of (next_value depth reader.old)) }
{
    match next_text(reader, depth)? {
        Some(text) => Ok(hex_of_text(alloc, text)?),
        None => Ok(None),
    }
}

/// The next value of a text, where it is a text itself.
pub fn text(alloc: Global, reader: &mut Reader<'_>, depth: usize) -> Reading<Option<String>>
    ensures { IsRead (λ found. (option_map string_bytes found, reader.new)) result
        (parse_map find.as_str (next_value depth reader.old)) }
{
    match next_text(reader, depth)? {
        Some(text) => Ok(Some(String::from_str(alloc, text)?)),
        None => Ok(None),
    }
}

//! How answers are told, and how a line's words become arguments.
use bitflags::Flags;
use std::alloc::Global;
use std::fmt::Debug;
use test_support::{Rendered, number, rendered, word};
use wasi_p2_calls::types::{NewTimestamp, WallDatetime};
use wasi_p2_calls::{FsResult, PreopenEntry, ReadResult};
use wasi_streams::Resource;

/// The resource of a word: the number of those that were answered before it in the line. No such number stands for a
/// resource that isn't there.
pub fn resource(given: &[Resource], text: &str) -> Resource {
    let absent = Resource { number: u32::MAX };
    match text.parse::<usize>() {
        Ok(place) => given.get(place).copied().unwrap_or(absent),
        Err(_) => absent,
    }
}

/// The resource of the first word, and what is left.
pub fn first<'a>(given: &[Resource], text: &'a str) -> (Resource, &'a str) {
    let (place, rest) = word(text);
    (resource(given, place), rest)
}

/// The flags of a number.
pub fn flags<F: Flags<Bits = usize>>(text: &str) -> F {
    F::from_bits_retain(text.parse::<usize>().unwrap_or(0))
}

/// `keep`, `now`, or a number of seconds.
pub fn time(text: &str) -> NewTimestamp {
    match text {
        "keep" => NewTimestamp::NoChange,
        "now" => NewTimestamp::Now,
        _ => NewTimestamp::Timestamp(WallDatetime {
            seconds: number(text),
            nanoseconds: 0,
        }),
    }
}

/// What is answered, or the refusal.
pub fn shown<T: Debug + Drop>(alloc: Global, answer: FsResult<T>) -> Rendered {
    match answer {
        Ok(value) => rendered(alloc, &value),
        Err(error) => rendered(alloc, &error),
    }
}

/// The number of a resource that is answered, as later words name it.
pub fn kept(alloc: Global, given: &mut Vec<Resource>, answer: FsResult<Resource>) -> Rendered {
    match answer {
        Ok(resource) => keep(alloc, given, resource),
        Err(error) => rendered(alloc, &error),
    }
}

fn keep(alloc: Global, given: &mut Vec<Resource>, resource: Resource) -> Rendered {
    let place = given.len();
    given.push(resource)?;
    format!(in alloc; "#{place}")
}

/// The numbers and the names of directories that are answered.
pub fn all_kept(
    alloc: Global,
    given: &mut Vec<Resource>,
    answer: FsResult<Vec<PreopenEntry>>,
) -> Rendered {
    let entries = match answer {
        Ok(entries) => entries,
        Err(error) => return rendered(alloc, &error),
    };
    let mut text = String::new(alloc);
    for entry in entries.iter() {
        let number = keep(alloc, given, entry.fd)?;
        let name = entry.name.as_str();
        write!(text, "({number} {name})")?;
    }
    Ok(text)
}

/// The text of what was read, and whether that was nothing.
pub fn rendered_read(alloc: Global, answer: FsResult<ReadResult>) -> Rendered {
    match answer {
        Ok(ReadResult { bytes, end }) => {
            let text = str::from_utf8(bytes.as_slice()).unwrap_or("no text");
            rendered(alloc, &(text, end))
        }
        Err(error) => rendered(alloc, &error),
    }
}

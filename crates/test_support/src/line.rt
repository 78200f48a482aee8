//! The words of what is asked, and how answers are told.
use std::alloc::{AllocError, Global};
use std::fmt::Debug;
use std::str::FromStr;

/// What a line is answered.
pub type Rendered = Result<String, AllocError>;

/// What a text asks: its first word, what is left after it, and what an answer takes memory from.
#[derive(Clone, Copy)]
pub struct Asked<'a> {
    pub alloc: Global,
    pub what: &'a str,
    pub rest: &'a str,
}

impl<'a> Asked<'a> {
    pub fn of(alloc: Global, text: &'a str) -> Asked<'a> {
        let (what, rest) = word(text);
        Asked { alloc, what, rest }
    }
}

/// The first word of a text, and what is left. Blanks stand between words. A word in quotes may be empty or have
/// blanks, and is given without them.
pub fn word(text: &str) -> (&str, &str) {
    let Some(quoted) = text.strip_prefix('"') else {
        return text.split_once(' ').unwrap_or((text, ""));
    };
    let (word, rest) = quoted.split_once('"').unwrap_or((quoted, ""));
    (word, rest.strip_prefix(' ').unwrap_or(rest))
}

/// The number that a word is; the largest where it is none.
pub fn number(word: &str) -> u64 {
    word.parse::<u64>().unwrap_or(u64::MAX)
}

/// The numbers of a word, between which commas stand.
pub fn list_of<T: FromStr + Drop>(alloc: Global, word: &str) -> Result<Vec<T>, AllocError>
where
    T::Err: Drop,
{
    let mut list = Vec::new(alloc);
    for part in word.split(',') {
        if let Ok(item) = part.parse::<T>() {
            list.push(item)?;
        }
    }
    Ok(list)
}

/// A value as `{:?}` prints it.
pub fn rendered<T: Debug>(alloc: Global, value: &T) -> Rendered {
    format!(in alloc; "{value:?}")
}

/// The answer where a line asks what nobody answers.
pub fn unknown(alloc: Global) -> Rendered {
    String::from_str(alloc, "nobody answers this")
}

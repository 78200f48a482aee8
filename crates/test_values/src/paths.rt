//! Texts of paths, and names.
use std::alloc::{AllocError, Global};
use test_support::{rendered, unknown, word};
use wasi_paths::{
    Name, ends_with_parent, has_root, parts, path_has_trailing_dot, path_has_trailing_slash,
    path_requires_dir, split_parent, strip_dir_suffix,
};

pub fn answer(alloc: Global, what: &str, rest: &str) -> Result<String, AllocError> {
    let (text, rest) = word(rest);
    match what {
        "ends" => rendered(
            alloc,
            &(
                path_has_trailing_slash(text),
                path_has_trailing_dot(text),
                path_requires_dir(text),
            ),
        ),
        "stripped" => rendered(alloc, &strip_dir_suffix(text)),
        "parts" => taken(alloc, text, rest),
        "leads" => rendered(alloc, &(has_root(text), ends_with_parent(text))),
        "split" => rendered(alloc, &split_parent(text)),
        _ => unknown(alloc),
    }
}

// What is taken from a text's components, at the front for each `f` and at the back for any other letter.
fn taken(alloc: Global, text: &str, turns: &str) -> Result<String, AllocError> {
    let mut left = parts(text);
    let mut taken = Vec::new(alloc);
    for turn in turns.chars() {
        let part = if turn == 'f' {
            left.next()
        } else {
            left.next_back()
        };
        taken.push(part)?;
    }
    rendered(alloc, &taken)
}

pub fn name_answer(alloc: Global, what: &str, rest: &str) -> Result<String, AllocError> {
    let (text, rest) = word(rest);
    let name = name_of(text);
    match what {
        "plain" => rendered(alloc, &Name::plain(text).is_some()),
        "entry" => rendered(alloc, &name.is_entry()),
        "text" => rendered(alloc, &(name.as_str(), name.is_dot())),
        "same" => rendered(alloc, &(name == name_of(rest))),
        _ => unknown(alloc),
    }
}

// The name of a text, or `.` where that isn't plain.
fn name_of(text: &str) -> Name<'_> {
    Name::plain(text).unwrap_or(Name::dot())
}

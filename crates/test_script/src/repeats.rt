//! Texts that are written shorter.
use std::alloc::{AllocError, Global};

// What a text after `{{` stands for, if it begins with `COUNT TEXT}}`.
fn repeated(alloc: Global, text: &str) -> Result<Option<String>, AllocError> {
    let Some((counted, rest)) = text.split_once("}}") else {
        return Ok(None);
    };
    let Some((count, piece)) = counted.split_once(' ') else {
        return Ok(None);
    };
    let Ok(count) = count.parse::<usize>() else {
        return Ok(None);
    };
    let mut whole = piece.repeat(alloc, count)?;
    whole.push_str(rest)?;
    Ok(Some(whole))
}

/// The text, in which so many times TEXT stands for each `{{COUNT TEXT}}`. The first `}}` ends it.
pub fn expanded(alloc: Global, text: &str) -> Result<String, AllocError> {
    let mut whole = String::new(alloc);
    for (place, piece) in text.split("{{").enumerate() {
        if place == 0 {
            whole.push_str(piece)?;
        } else if let Some(piece) = repeated(alloc, piece)? {
            whole.push_str(piece.as_str())?;
        } else {
            whole.push_str("{{")?;
            whole.push_str(piece)?;
        }
    }
    Ok(whole)
}

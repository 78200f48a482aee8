//! The split of a path's text into a parent's and a last part.
ghost use Rattle.std.specs.Prelude.{◌≡◌, length, reverse, take};
ghost use Rattle.std.specs.Option.{option_map};
ghost use Rattle.wasi_paths.specs.Parts.{components_with_ends, end_of_first, split};
ghost use Rattle.wasi_paths.specs.Part.{component};
ghost use Rattle.wasi_paths.specs.Cut.{IsCut};

use crate::dir_utils::path_requires_dir;
use crate::part::Part;

/// The text of the parent, empty where that is the start itself, and the last part in it, which is a plain name or `.`:
/// the crate's `split_parent` in `open_parent.rs`. `None` exactly of the empty text.
///
/// Where the text requires a directory or ends in `..`, the last part is `.` in the directory that the whole text
/// names. So `foo/` is split into `foo/` and `.`, with its slash: it is this very text that a walk opens next. The
/// crate's tests compare with `std`'s `Path`, to which `foo/` and `foo` are equal.
pub fn split_parent(path: &str) -> Option<(&str, Part<'_>)>
    ensures split { option_map (λ s. (s.0.now, component s.1)) result ≡ split path.now }
{
    if path.is_empty() {
        return None;
    }
    if path_requires_dir(path) {
        return Some((path, Part::CurDir));
    }
    if path == "." {
        return Some(("", Part::CurDir));
    }
    let (front, last) = cut_last(path);
    if last == ".." {
        return Some((path, Part::CurDir));
    }
    Some((up_to_last(front), Part::Normal(last)))
}

// The text up to its last slash, that slash included, and the segment after it.
fn cut_last(path: &str) -> (&str, &str)
    ensures { IsCut path.now result.0.now result.1.now }
{
    match path.rfind('/') {
        Some(slash) => path.split_at(slash + 1),
        None => ("", path),
    }
}

// The text up to the end of its last component.
fn up_to_last(path: &str) -> &str
    ensures prefix { take (length result.now) path.now ≡ result.now }
    ensures end { end_of_first (reverse (components_with_ends path.now)) ≡ length result.now }
{
    let mut text = path;
    while text.len() > 1 && path_requires_dir(text) {
        text = &text[..text.len() - 1];
    }
    text
}

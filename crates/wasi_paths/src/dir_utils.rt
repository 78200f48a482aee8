//! The end of a path's text, which says what `std`'s paths don't keep: the crate's `unix/dir_utils.rs` but for its
//! options of an open, which are a host's.
ghost use Rattle.std.specs.Prelude.{◌≡◌};
ghost use Rattle.wasi_paths.specs.Parts.{trailing_slash, trailing_dot, requires_dir, strip_dir_suffix, without_end_slashes};

use crate::path::has_root;

/// Whether the text ends in `/` or in `/.`, so that it can name a directory alone. `.` doesn't.
pub fn path_requires_dir(path: &str) -> bool
    ensures test { result ≡ requires_dir path.now }
{
    path.ends_with("/") || path.ends_with("/.")
}

/// Whether the text ends in `/`.
pub fn path_has_trailing_slash(path: &str) -> bool
    ensures test { result ≡ trailing_slash path.now }
{
    path.ends_with("/")
}

/// Whether the text ends in a segment `.`, with any number of slashes after it.
pub fn path_has_trailing_dot(path: &str) -> bool
    ensures test { result ≡ trailing_dot path.now }
{
    let text = without_end_slashes(path);
    text == "." || text.ends_with("/.")
}

/// The text without the slashes at its end, of which one stays where there is nothing else. So `foo/` is made or moved
/// by the name `foo`, and a root stays a root.
pub fn strip_dir_suffix(path: &str) -> &str
    ensures text { result.now ≡ strip_dir_suffix path.now }
{
    let text = without_end_slashes(path);
    if text.is_empty() && has_root(path) {
        "/"
    } else {
        text
    }
}

fn without_end_slashes(path: &str) -> &str
    ensures { result.now ≡ without_end_slashes path.now }
{
    path.trim_end_matches('/')
}

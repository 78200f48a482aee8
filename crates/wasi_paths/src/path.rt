//! A path's text as a whole.
ghost use Rattle.std.specs.Prelude.{◌≡◌};
ghost use Rattle.wasi_paths.specs.Parts.{has_root, components, ends_with_parent};

use crate::components::Parts;
use crate::part::Part;

/// Whether the text begins with `/`.
pub fn has_root(path: &str) -> bool
    ensures test { result ≡ has_root path.now }
{
    path.starts_with('/')
}

/// The components of the text: a root where it begins with `/`, then the segments between slashes that are neither
/// empty nor `.`, but that a `.` which begins the text is kept, by the rule of `std`'s `Path::components` on Unix. A
/// walk takes one more `.` where the text has a trailing dot, which isn't among them.
pub fn parts(path: &str) -> Parts<'_>
    ensures components { result ≡ components path.now }
{
    Parts::new(path)
}

/// Whether the last component is `..`, also with slashes and dots after it: `Path::ends_with` of `..`, which the crate
/// asks in `manually/open.rs`.
pub fn ends_with_parent(path: &str) -> bool
    ensures test { result ≡ ends_with_parent path.now }
{
    parts(path).next_back() == Some(Part::ParentDir)
}

//! The names of directory entries, as hosts look them up.
ghost use Rattle.std.specs.Prelude.{◌≡◌, ◌↔◌, IsTrue, IsSome, IfSome, codes};
ghost use Rattle.std.specs.Str.{IsUtf8};
ghost use Rattle.wasi_paths.specs.Text.{has_slash, is_plain, is_dot_text, is_name_text, has_nul, is_long, is_entry_name};

use crate::NAME_MAX;

/// One name in a directory: `.`, or a plain text, which isn't empty, has no `/`, and is neither `.` nor `..`.
///
/// A host looks up names of this type alone, so no lookup ever names `..` or a path of several segments.
/// NUL bytes and the length are no matter of this type: a host refuses them by rules of its own.
#[derive(Clone, Copy, Debug, PartialEq, Eq)]
pub struct Name<'a> {
    text: &'a str,
    ghost is_name: { IsTrue (is_name_text text.now) },
}

impl<'a> Name<'a> {
    ghost use Rattle.wasi_paths.specs.Name.{name_bytes};

    /// The text as a name. `None` exactly where it isn't plain: where it is empty, has a `/`, or is `.` or `..`.
    pub fn plain(text: &'a str) -> Option<Name<'a>>
        ensures plain { IsSome result ↔ IsTrue (is_plain text.entry.now) }
        ensures bytes { IfSome result (λ name. name_bytes name ≡ text.entry.now) }
    {
        if !is_plain(text) {
            return None;
        }
        Some(Name { text })
    }

    /// The name `.`, the directory itself.
    pub fn dot() -> Name<'static>
        ensures bytes { name_bytes result ≡ codes "." }
    {
        Name { text: "." }
    }

    /// The bytes of the name, which are UTF-8.
    pub fn as_str(&self) -> &str
        ensures text { result.now ≡ name_bytes self.now }
        ensures name { IsTrue (is_name_text result.now) }
        ensures utf8 { IsUtf8 result.now }
    {
        self.text
    }

    /// Whether it is `.`.
    pub fn is_dot(&self) -> bool
        ensures test { result ≡ is_dot_text (name_bytes self.now) }
    {
        self.as_str() == "."
    }

    /// Whether it has a NUL byte, so that no host has it.
    pub fn has_nul(&self) -> bool
        ensures test { result ≡ has_nul (name_bytes self.now) }
    {
        self.as_str().as_bytes().contains(&0)
    }

    /// Whether it has more than `NAME_MAX` bytes, so that no directory has it.
    pub fn is_long(&self) -> bool
        ensures test { result ≡ is_long (name_bytes self.now) }
    {
        self.as_str().len() > NAME_MAX
    }

    /// Whether a directory may hold it: it isn't `.`, has no NUL, and at most `NAME_MAX` bytes.
    #[tactic(auto, using(crate::proofs::PlainNames::plain_unless_dot))]
    pub fn is_entry(&self) -> bool
        ensures test { result ≡ is_entry_name (name_bytes self.now) }
    {
        !self.is_dot() && !self.has_nul() && !self.is_long()
    }
}

fn is_plain(text: &str) -> bool
    ensures { result ≡ is_plain text.now }
{
    if text == "" {
        return false;
    }
    if text == "." {
        return false;
    }
    if text == ".." {
        return false;
    }
    !has_slash(text)
}

fn has_slash(text: &str) -> bool
    ensures { result ≡ has_slash text.now }
{
    text.as_bytes().contains(&b'/')
}

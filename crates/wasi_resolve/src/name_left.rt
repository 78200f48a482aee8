//! A name that a walk has still to take.
ghost use Rattle.std.specs.Prelude.{◌≡◌, IsTrue};
ghost use Rattle.wasi_paths.specs.Text.{is_plain};
ghost use Rattle.wasi_paths.specs.Name.{name_bytes};

use wasi_paths::Name;

/// A name that is left, which is plain. Its text stands in the path, or in the text of a link.
#[derive(Debug, Drop)]
pub(crate) struct NameLeft<'p> {
    pub(crate) text: &'p str,
    ghost plain: { IsTrue (is_plain text.now) },
}

impl<'p> NameLeft<'p> {
    /// The name, for a host.
    pub(crate) fn name(&self) -> Name<'_>
        ensures bytes { name_bytes result ≡ self.now.text.now }
        ensures plain { IsTrue (is_plain (name_bytes result)) }
    {
        match Name::plain(self.text) {
            Some(name) => name,
            None => unreachable!(),
        }
    }
}

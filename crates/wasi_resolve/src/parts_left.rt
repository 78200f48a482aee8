//! The parts of a path that a walk has still to take.
ghost use Rattle.std.specs.Prelude.{◌≡◌, ◌++◌, ◌∷◌, [], if◌then◌else◌, IfErr, OnOk};
ghost use Rattle.wasi_paths.specs.Parts.{CurDir, parts, trailing_dot};
ghost use Rattle.wasi_paths.specs.Part.{component};
ghost use Rattle.wasi_paths.specs.TextLaws.{HasPlainName};
ghost use Rattle.wasi_resolve.specs.Left.{component_left, parts_left};

use crate::name_left::NameLeft;
use wasi_host::HostError;
use wasi_paths::{Part, names_are_plain, path_has_trailing_dot};

/// A part that is left, borrowed from the path or from the text of a link. It stands for the crate's `CowComponent`,
/// which owns the parts of a link's text.
#[derive(Debug, Drop)]
pub(crate) enum PartLeft<'p> {
    Root,
    CurDir,
    ParentDir,
    Normal(NameLeft<'p>),
}

/// A part of a text, as one that is left.
fn of_text<'p>(part: Part<'p>) -> PartLeft<'p>
    requires { HasPlainName (component part) }
    ensures { component_left result ≡ component part.entry }
{
    match part {
        Part::Root => PartLeft::Root,
        Part::CurDir => PartLeft::CurDir,
        Part::ParentDir => PartLeft::ParentDir,
        Part::Normal(text) => PartLeft::Normal(NameLeft { text }),
    }
}

/// Puts a `.` before the parts that are left, where a text has a trailing one.
fn put_dot(left: &mut Vec<PartLeft<'_>>, text: &str) -> Result<(), HostError>
    ensures memory { IfErr result (λ e. e ≡ HostError.Memory) }
    ensures parts { OnOk result (parts_left left.new.items
        ≡ (if trailing_dot text.now then CurDir ∷ [] else []) ++ parts_left left.old.items) }
{
    if path_has_trailing_dot(text) {
        left.push(PartLeft::CurDir)?;
    }
    Ok(())
}

/// Puts the parts of a text before those that are left. The next part stands last.
pub(crate) fn put_parts<'p>(left: &mut Vec<PartLeft<'p>>, text: &'p str) -> Result<(), HostError>
    ensures memory { IfErr result (λ e. e ≡ HostError.Memory) }
    ensures parts { OnOk result (parts_left left.new.items ≡ parts text.entry.now ++ parts_left left.old.items) }
{
    names_are_plain();
    put_dot(left, text)?;
    let mut rest = wasi_paths::parts(text);
    while let Some(part) = rest.next_back() {
        left.push(of_text(part))?;
    }
    Ok(())
}

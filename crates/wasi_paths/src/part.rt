//! Parts of a path.

/// A part of a path: a component of its text, or the last part of a split.
///
/// It stands for `std`'s `Component` and for the crate's `CowComponent` (`manually/cow_component.rs`), as the walk
/// takes them: the top, to stay, to go up, or a name, which borrows from the text. The name is plain where the part
/// comes from `parts` or `split_parent`.
#[derive(Clone, Copy, Debug, PartialEq, Eq)]
pub enum Part<'a> {
    Root,
    CurDir,
    ParentDir,
    Normal(&'a str),
}

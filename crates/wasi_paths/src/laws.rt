//! Laws of path texts. Each is the clause of a function that does nothing.
ghost use Rattle.std.specs.Prelude.{ℕ, List};
ghost use Rattle.wasi_paths.specs.Parts.{parts};
ghost use Rattle.wasi_paths.specs.TextLaws.{EndsByBytes, ArePartsOf, HasPlainNames, HasOneSplit};

/// The end of a text, said by its segments, is what its last bytes say: so code may look at these alone.
pub fn texts_end_by_bytes()
    ensures ends { (text : List ℕ) → EndsByBytes text }
{}

/// The parts of a text, which a walk takes, are its components, and one more `.` where it has a trailing dot.
pub fn parts_are_components()
    ensures parts { (text : List ℕ) → ArePartsOf text (parts text) }
{}

/// Each name among the components of a text is plain.
pub fn names_are_plain()
    ensures plain { (text : List ℕ) → HasPlainNames text }
{}

/// A text has exactly one split, but the empty text has none: the whole text and `.` where it requires a directory or
/// ends in `..`, and else the front that has all components but the last one and nothing after them, and that one.
pub fn texts_have_one_split()
    ensures split { (text : List ℕ) → HasOneSplit text }
{}

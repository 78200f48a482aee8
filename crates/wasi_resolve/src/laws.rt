//! Laws of walks, and of what paths mean.
ghost use Rattle.wasi_resolve.specs.Laws.{WalksReadFewLinks, PathsStayInReach, PathsAgree};
ghost use Rattle.wasi_resolve.specs.WalkMoves.{WalksHaveOneEnd};

/// A walk reads at most 40 links, whatever the tree, and takes a part for each of them.
pub fn walks_read_few_links()
    ensures { WalksReadFewLinks }
{}

/// The moves along the parts of a text, one for each row of the table of a walk, lead to the walk's end, and to no
/// other: a walk has exactly one outcome.
pub fn walks_have_one_end()
    ensures { WalksHaveOneEnd }
{}

/// What a path means is found from its start alone: in whatever tree, the walk ends at a node that is reached from the
/// start by names, and so is the node that it opens (where it makes none), looks at, or that is its place's directory.
/// This is why no path escapes.
pub fn paths_stay_in_reach()
    ensures { PathsStayInReach }
{}

/// What a path means rests on what is reached from its start, and on the tree's next number and limits: in two trees
/// that are the same there, it means the same.
pub fn paths_agree()
    ensures { PathsAgree }
{}

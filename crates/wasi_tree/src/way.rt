//! The way up from a directory to the root.
ghost use Rattle.std.specs.Prelude.{◌≡◌, ℕ, List, Option, length};
ghost use Rattle.wasi_tree.specs.ParentOf.{parent_of, is_on_way};

/// What knows in which directory each node stands.
pub trait ParentLookup {
    /// The directory of each node, by its number.
    ghost known_parents: { Self → List (Option ℕ) };

    /// How many nodes there are.
    fn count(&self) -> u64
        ensures { result ≡ length (known_parents self.now) };

    /// The directory of a node; none of a number out of range.
    fn parent(&self, node: u64) -> Option<u64>
        ensures { result ≡ parent_of (known_parents self.now) node };
}

/// Whether the way up from a directory comes to a node, which may be the directory itself.
pub fn is_below<P: ParentLookup>(parents: &P, top: u64, directory: u64) -> bool
    ensures { result ≡ is_on_way (P.known_parents parents.now) (length (P.known_parents parents.now)) top directory }
{
    let mut here = directory;
    for _step in 0..parents.count() {
        if here == top {
            return true;
        }
        let Some(parent) = parents.parent(here) else {
            return false;
        };
        here = parent;
    }
    here == top
}

//! One entry of the index: a name in a directory.
ghost use Rattle.std.specs.Prelude.{◌≡◌};
ghost use Rattle.std.specs.String.{string_bytes};
ghost use Rattle.wasi_tree_index.specs.Heads.{head_of};

use crate::sought::{Sought, compare_names, head_of};
use std::cmp::Ordering;

/// A name in a directory, and the number of the node that it holds. The name's first bytes are kept in the entry
/// itself, so most names are compared without reading their texts.
#[derive(Debug, Drop)]
pub struct DirEntryKey {
    pub directory: u64,
    pub name: String,
    pub node: u64,
    head: u64,
    ghost headed: { head ≡ head_of (string_bytes name) },
}

impl DirEntryKey {
    ghost use Rattle.std.specs.Prelude.{◌≡◌};
    ghost use Rattle.std.specs.String.{string_bytes};
    ghost use Rattle.std.specs.Ordering.{is_gt, is_lt, is_eq};
    ghost use Rattle.wasi_tree_index.specs.DirEntryKeys.{key_cmp, row_key};

    /// The entry of a name in a directory that holds a node of this number.
    pub fn new(directory: u64, name: String, node: u64) -> DirEntryKey
        ensures directory { result.directory ≡ directory }
        ensures name { string_bytes result.name ≡ string_bytes name }
        ensures node { result.node ≡ node }
    {
        let head = head_of(name.as_str());
        DirEntryKey {
            directory,
            name,
            node,
            head,
        }
    }

    /// This entry's name in its directory, as a search key.
    pub(crate) fn sought(&self) -> Sought<'_>
        ensures directory { result.0 ≡ self.now.directory }
        ensures name { result.1 ≡ string_bytes self.now.name }
    {
        Sought {
            directory: self.directory,
            name: self.name.as_str(),
            head: self.head,
        }
    }

    /// The order of a search key and this entry: by directory, then by the bytes of the name.
    fn compare(&self, key: &Sought<'_>) -> Ordering
        ensures { result ≡ key_cmp key.now (row_key self.now) }
    {
        match key.directory.cmp(&self.directory) {
            Ordering::Less => Ordering::Less,
            Ordering::Equal => compare_names(key.name, key.head, self.name.as_str(), self.head),
            Ordering::Greater => Ordering::Greater,
        }
    }

    /// Whether this entry is before a search key.
    pub(crate) fn is_before(&self, key: &Sought<'_>) -> bool
        ensures { result ≡ is_gt (key_cmp key.now (row_key self.now)) }
    {
        self.compare(key).is_gt()
    }

    /// Whether this entry is after a search key.
    pub(crate) fn is_after(&self, key: &Sought<'_>) -> bool
        ensures { result ≡ is_lt (key_cmp key.now (row_key self.now)) }
    {
        self.compare(key).is_lt()
    }

    /// Whether this entry is the one of a search key.
    pub(crate) fn is_at(&self, key: &Sought<'_>) -> bool
        ensures { result ≡ is_eq (key_cmp key.now (row_key self.now)) }
    {
        self.compare(key).is_eq()
    }
}

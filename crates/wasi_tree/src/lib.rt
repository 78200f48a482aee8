//! `MemTree`, the tree of files in memory: a modelled host, of which contracts know the tree, the handles and the touched nodes.
#![tactic(auto)]

mod bytes;
mod calls;
mod change;
mod errors;
mod inode;
mod marks;
mod mem_store;
mod mem_tree;
mod moves;
mod name_lookup;
mod node;
mod node_store;
mod outside_changes;
mod parents;
mod refusals;
mod slots;
mod store;
mod store_entries;
mod tree_host;
mod way;
mod well_formed;
mod well_formed_nodes;

pub use change::TreeChange;
pub use errors::{HandleError, TreeError};
pub use inode::{Inode, InodeContent, add_entries, put_piece, resize_bytes};
pub use mem_store::MemStore;
pub use mem_tree::MemTree;
pub use name_lookup::NameLookup;
pub use node::{ContentView, EntryView, NewContent, NewEntry, NewNode, NodeView};
pub use node_store::NodeStore;
pub use tree_host::TreeHost;
pub use wasi_host::{Bits, Limits};
pub use way::{ParentLookup, is_below};
pub use well_formed::{fit_trees_are_valid, valid_trees_are_fit};
pub use well_formed_nodes::WellFormedNodes;

//! Changes of a tree in memory that no call of its host makes. They touch nothing, and take no memory.
ghost use Rattle.std.specs.Prelude.{◌≡◌, IfSome, is_some};
ghost use Rattle.std.specs.String.{string_bytes};
ghost use Rattle.wasi_paths.specs.Name.{name_bytes};
ghost use Rattle.wasi_host.specs.Refusal.{finds_directory};
ghost use Rattle.wasi_host.specs.Step.{name_dropped, name_lost};
ghost use Rattle.wasi_tree.specs.Changed.{after_drop, after_move, changed, may_look};
ghost use Rattle.wasi_tree.specs.NameLookup.{IsLooked};
ghost use Rattle.wasi_tree.specs.Move.{HasName};
ghost use Rattle.wasi_tree.specs.Sound.{NodesStay};

use crate::change::TreeChange;
use crate::mem_store::MemStore;
use crate::moves::node_to_move;
use crate::name_lookup::NameLookup;
use crate::node_store::NodeStore;
use crate::refusals::{node_to_remove, node_to_unlink};
use wasi_paths::Name;

#[tactic(auto, using(crate::proofs::TouchedLemmas::touched_rules))]
impl MemStore {
    /// Makes a change, unless the host's table refuses it, a name isn't plain, or a number isn't a directory's.
    #[tactic(auto, unfolding(crate::specs::Changed::changed))]
    pub fn change(&mut self, change: TreeChange)
        ensures tree { self.new.tree ≡ changed self.old.tree change }
        ensures touched { self.new.touched ≡ self.old.touched }
        ensures stays { NodesStay self.old.tree self.new.tree }
    {
        match change {
            TreeChange::Drop { dir, name } => self.drop_plain(dir, name.as_str()),
            TreeChange::Move {
                old,
                old_name,
                new,
                new_name,
            } => self.move_plain(old, old_name.as_str(), new, new_name),
        }
    }

    /// Looks up a name, where it is plain, in a directory, where it is one.
    fn look_plain<'n>(&self, directory: u64, name: &'n str) -> Option<NameLookup<'n>>
        ensures may { is_some result ≡ may_look self.now.tree directory name.entry.now }
        ensures looked { IfSome result (λ looked. IsLooked self.now.tree looked) }
        ensures directory { IfSome result (λ looked. looked.directory ≡ directory) }
        ensures name { IfSome result (λ looked. name_bytes looked.name ≡ name.entry.now) }
    {
        if !self.store.is_directory(directory) {
            return None;
        }
        let name = Name::plain(name)?;
        let mut near = self.near;
        let found = self.store.child(&mut near, directory, name);
        Some(NameLookup {
            directory,
            name,
            found,
        })
    }

    /// Drops a name of a directory.
    fn drop_plain(&mut self, directory: u64, name: &str)
        ensures tree { self.new.tree ≡ after_drop self.old.tree directory name.now }
        ensures touched { self.new.touched ≡ self.old.touched }
        ensures stays { NodesStay self.old.tree self.new.tree }
    {
        let Some(looked) = self.look_plain(directory, name) else {
            return;
        };
        let to_drop = if self.finds_directory(looked.found) {
            node_to_remove(&*self, &looked)
        } else {
            node_to_unlink(&*self, &looked)
        };
        if let Ok(node) = to_drop {
            self.lose_name(directory, looked.name, node);
        }
    }

    /// Drops a name of a directory, which another node has.
    pub fn lose_name(&mut self, directory: u64, name: Name<'_>, node: u64)
        requires { HasName self.old.tree directory (name_bytes name) node }
        ensures dropped { self.new.tree ≡ name_dropped self.old.tree directory (name_bytes name.entry) name_lost node }
        ensures touched { self.new.touched ≡ self.old.touched }
        ensures stays { NodesStay self.old.tree self.new.tree }
    {
        self.store.drop_name(directory, name, node);
        self.parents.set(node, None);
    }

    /// Whether a name holds a directory.
    fn finds_directory(&self, found: Option<u64>) -> bool
        ensures { result ≡ finds_directory self.now.tree found }
    {
        match found {
            Some(node) => self.store.is_directory(node),
            None => false,
        }
    }

    /// Moves a name of a directory to a name of another.
    fn move_plain(&mut self, old: u64, old_name: &str, new: u64, new_name: String)
        ensures tree { self.new.tree ≡ after_move self.old.tree old old_name.now new (string_bytes new_name) }
        ensures touched { self.new.touched ≡ self.old.touched }
        ensures stays { NodesStay self.old.tree self.new.tree }
    {
        let Some(from) = self.look_plain(old, old_name) else {
            return;
        };
        let Some(to) = self.look_plain(new, new_name.as_str()) else {
            return;
        };
        let Ok(Some(node)) = node_to_move(&*self, &from, &to, false) else {
            return;
        };
        let there = to.found;
        self.store
            .rename(old, from.name, new, new_name, node, there);
        self.parents.replace(there, node, new);
    }
}

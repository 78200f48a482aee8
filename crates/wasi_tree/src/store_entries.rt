//! What is done to the names of directories.
ghost use Rattle.std.specs.Prelude.{◌≡◌, ◌-◌, ◌<◌, ◌^◌, OnOk, Some, OnErr, true, false, nat_eq, IsTrue};
ghost use Rattle.std.specs.Option.{ForSome};
ghost use Rattle.std.specs.String.{string_bytes};
ghost use Rattle.wasi_paths.specs.Name.{name_bytes};
ghost use Rattle.wasi_paths.specs.Text.{is_entry_name};
ghost use Rattle.wasi_host.specs.Tree.{next_of, node_at, is_directory, links_of};
ghost use Rattle.wasi_host.specs.Step.{with_entry, without_entry, content_changed, one_name_more, name_lost, name_dropped, name_added, name_moved_onto};
ghost use Rattle.wasi_tree.specs.Sound.{NodesStay};
ghost use Rattle.wasi_tree.specs.Move.{IsExchange, IsMove, found_lost};

use crate::store::InodeStore;
use std::alloc::AllocError;
use wasi_paths::Name;

#[tactic(auto, using(crate::proofs::StoreLemmas::store_rules))]
impl InodeStore {
    /// Gives a file or link a name in a directory. If memory runs out, nothing has changed.
    pub fn add_link(&mut self, directory: u64, name: Name<'_>, node: u64) -> Result<(), AllocError>
        requires directory { is_directory (node_at self.old directory).content ≡ true }
        requires named { IsTrue (is_entry_name (name_bytes name)) }
        requires within { node < next_of self.old }
        requires apart { nat_eq node directory ≡ false }
        requires room { links_of (node_at self.old node).content < 2 ^ 64 - 1 }
        ensures added { OnOk result (self.new ≡ name_added self.old directory (name_bytes name.entry) node) }
        ensures kept { OnErr result (self.new ≡ self.old) }
        ensures stays { NodesStay self.old self.new }
        ensures count { next_of self.new ≡ next_of self.old }
    {
        self.put_name(directory, name, node)?;
        self.gain_name(node);
        Ok(())
    }

    /// Puts a name into a directory, which another node gets. If memory runs out, nothing has changed.
    fn put_name(&mut self, directory: u64, name: Name<'_>, node: u64) -> Result<(), AllocError>
        requires directory { is_directory (node_at self.old directory).content ≡ true }
        requires named { IsTrue (is_entry_name (name_bytes name)) }
        requires within { node < next_of self.old }
        requires apart { nat_eq node directory ≡ false }
        ensures put { OnOk result (self.new
            ≡ content_changed self.old directory (with_entry (name_bytes name.entry) node)) }
        ensures other { OnOk result (node_at self.new node ≡ node_at self.old node) }
        ensures kept { OnErr result (self.new ≡ self.old) }
        ensures stays { NodesStay self.old self.new }
        ensures count { next_of self.new ≡ next_of self.old }
    {
        let text = String::from_str(self.allocator(), name.as_str())?;
        self.names.reserve()?;
        self.names.insert(directory, text, node);
        self.worked.mark(directory);
        Ok(())
    }

    /// Gives a file or link a name more.
    fn gain_name(&mut self, node: u64)
        requires within { node < next_of self.old }
        requires room { links_of (node_at self.old node).content < 2 ^ 64 - 1 }
        ensures gained { self.new ≡ content_changed self.old node one_name_more }
        ensures stays { NodesStay self.old self.new }
        ensures count { next_of self.new ≡ next_of self.old }
    {
        self.inodes[node as usize].content.gain_name();
        self.worked.mark(node);
    }

    /// Moves a name of a directory, which this node has, to a name of another, which may be the same. What the new name
    /// held loses it. The new name is put first, so that nothing has changed if memory runs out.
    pub fn move_name(
        &mut self,
        old: u64,
        old_name: Name<'_>,
        new: u64,
        new_name: Name<'_>,
        node: u64,
        there: Option<u64>,
    ) -> Result<(), AllocError>
        requires { IsMove self.old old (name_bytes old_name) new (name_bytes new_name) node there }
        ensures moved { OnOk result (self.new ≡ name_moved_onto self.old old (name_bytes old_name.entry)
            new (name_bytes new_name.entry) node there) }
        ensures kept { OnErr result (self.new ≡ self.old) }
        ensures stays { NodesStay self.old self.new }
        ensures count { next_of self.new ≡ next_of self.old }
    {
        self.put_name(new, new_name, node)?;
        self.lose_found(there);
        self.take_name(old, old_name);
        Ok(())
    }

    /// Moves a name as `move_name` does, to a name whose text is given over. It takes no memory.
    pub fn rename(
        &mut self,
        old: u64,
        old_name: Name<'_>,
        new: u64,
        new_name: String,
        node: u64,
        there: Option<u64>,
    )
        requires { IsMove self.old old (name_bytes old_name) new (string_bytes new_name) node there }
        ensures moved { self.new ≡ name_moved_onto self.old old (name_bytes old_name.entry)
            new (string_bytes new_name) node there }
        ensures stays { NodesStay self.old self.new }
        ensures count { next_of self.new ≡ next_of self.old }
    {
        self.exchange(old, old_name, new, new_name, node);
        self.lose_found(there);
    }

    /// Puts a name into a directory, which this node gets, and takes another name of it out of a directory.
    fn exchange(&mut self, old: u64, old_name: Name<'_>, new: u64, new_name: String, node: u64)
        requires { IsExchange self.old old (name_bytes old_name) new (string_bytes new_name) node }
        ensures exchanged { self.new ≡ content_changed
            (content_changed self.old new (with_entry (string_bytes new_name) node))
            old (without_entry (name_bytes old_name.entry)) }
        ensures stays { NodesStay self.old self.new }
        ensures count { next_of self.new ≡ next_of self.old }
    {
        self.names.rename(old, old_name.as_str(), new, new_name);
        self.worked.mark(new);
        self.worked.mark(old);
    }

    /// Takes a name from the node that has it, if there is one.
    fn lose_found(&mut self, found: Option<u64>)
        requires { ForSome found (λ n. n < next_of self.old) }
        ensures lost { self.new ≡ found_lost self.old found }
        ensures stays { NodesStay self.old self.new }
        ensures count { next_of self.new ≡ next_of self.old }
    {
        if let Some(lost) = found {
            self.lose_name(lost);
        }
    }

    /// Drops a name of a directory, which another node has.
    pub fn drop_name(&mut self, directory: u64, name: Name<'_>, node: u64)
        requires directory { is_directory (node_at self.old directory).content ≡ true }
        requires within { node < next_of self.old }
        requires apart { nat_eq node directory ≡ false }
        ensures dropped { self.new ≡ name_dropped self.old directory (name_bytes name.entry) name_lost node }
        ensures stays { NodesStay self.old self.new }
        ensures count { next_of self.new ≡ next_of self.old }
    {
        self.take_name(directory, name);
        self.lose_name(node);
    }

    /// Takes a name out of a directory.
    fn take_name(&mut self, directory: u64, name: Name<'_>)
        requires { is_directory (node_at self.old directory).content ≡ true }
        ensures taken { self.new ≡ content_changed self.old directory (without_entry (name_bytes name.entry)) }
        ensures stays { NodesStay self.old self.new }
        ensures count { next_of self.new ≡ next_of self.old }
    {
        self.names.remove(directory, name.as_str());
        self.worked.mark(directory);
    }

    /// Takes a name from the node that has it.
    fn lose_name(&mut self, node: u64)
        requires { node < next_of self.old }
        ensures lost { self.new ≡ content_changed self.old node name_lost }
        ensures stays { NodesStay self.old self.new }
        ensures count { next_of self.new ≡ next_of self.old }
    {
        self.inodes[node as usize].content.lose_name();
        self.worked.mark(node);
    }
}

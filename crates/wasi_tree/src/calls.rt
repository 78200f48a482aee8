//! What each call of a host does to a tree, in whatever way its nodes are kept. What a function does, and which rules
//! of the host's table refuse it, is said of the method of `Host` that has its name; node numbers stand in place of
//! handles.
ghost use Rattle.std.specs.Prelude.{◌≡◌, ◌<◌, ◌≤◌, ◌^◌, ◌∷◌, if◌then◌else◌, Ok, IfOk, OnOk, OnErr, length, take, drop, map, option_to_list, All, IsTrue};
ghost use Rattle.std.specs.Option.{ForSome};
ghost use Rattle.std.specs.String.{string_bytes};
ghost use Rattle.wasi_paths.specs.Name.{name_bytes};
ghost use Rattle.wasi_paths.specs.Text.{is_entry_name};
ghost use Rattle.wasi_host.specs.Tree.{next_of, node_at};
ghost use Rattle.wasi_host.specs.Answer.{entry_of};
ghost use Rattle.wasi_host.specs.HostCall.{OpenAt, StatAt, ReadLinkAt, MakeDirAt, SymlinkAt, LinkAt, UnlinkAt, RemoveDirAt, TimesAt, Access, Stat, SetTimes, Pread, Pwrite, Append, SetSize, Sync, Advise, Flags, RenameAt, ListDir};
ghost use Rattle.wasi_host.specs.HostLaws.{IsHeld, hosted, answered};
ghost use Rattle.wasi_host.specs.Refusal.{refusal, refused_with};
ghost use Rattle.wasi_host.specs.Step.{file_cut, found_under, is_cut, times_step, with_nodes};
ghost use Rattle.wasi_host.specs.Time.{HasTimes};
ghost use Rattle.wasi_tree.specs.NameLookup.{IsLooked, looked_at};
ghost use Rattle.wasi_tree.specs.Sound.{NodesStay, IsSoundText};
ghost use Rattle.wasi_tree.specs.TouchedTree.{FollowsRules, Grows};

use crate::bytes::{get_at, put_at, put_behind, put_size};
use crate::inode::Inode;
use crate::moves::node_to_move;
use crate::name_lookup::NameLookup;
use crate::node_store::NodeStore;
use crate::refusals::{
    access_of, list_of, node_to_link, node_to_remove, node_to_unlink, node_under, refuse_make_dir,
    refuse_open, refuse_symlink, stat_of, text_under,
};
use std::alloc::{AllocError, Global};
use wasi_host::{
    Advice, DirEntry, ErrorCode, HostError, Metadata, OpenHandle, OpenOptions, SyncFlags,
    SystemTime,
};
use wasi_paths::Name;

/// Makes room at the node that a name holds, if it holds one.
fn hold_found<S: NodeStore>(store: &mut S, found: Option<u64>) -> Result<(), AllocError>
    requires { ForSome found (λ n. n < next_of (S.seen store.old).tree) }
    ensures seen { S.seen store.new ≡ S.seen store.old }
    ensures held { OnOk result (ForSome found (S.HasRoom store.new)) }
    ensures room { Grows (S.HasRoom store.old) (S.HasRoom store.new) }
{
    match found {
        Some(node) => store.make_room(node),
        None => Ok(()),
    }
}

/// Touches the directory of a lookup, and the node that it found.
fn touch_found<S: NodeStore>(store: &mut S, directory: u64, found: Option<u64>)
    requires within { directory < next_of (S.seen store.old).tree }
    requires at { S.HasRoom store.old directory }
    requires below { ForSome found (λ n. n < next_of (S.seen store.old).tree) }
    requires held { ForSome found (S.HasRoom store.old) }
    ensures tree { (S.seen store.new).tree ≡ (S.seen store.old).tree }
    ensures touched { (S.seen store.new).touched ≡ with_nodes (S.seen store.old).touched (directory ∷ option_to_list found) }
    ensures room { Grows (S.HasRoom store.old) (S.HasRoom store.new) }
{
    store.touch(directory);
    if let Some(node) = found {
        store.touch(node);
    }
}

/// Looks up a name in a directory. The directory is touched, and so is the node that the name holds. Where memory is
/// wanted, neither is.
fn find<'n, S: NodeStore>(
    store: &mut S,
    directory: u64,
    name: Name<'n>,
) -> Result<NameLookup<'n>, AllocError>
    requires within { directory < next_of (S.seen store.old).tree }
    requires at { S.HasRoom store.old directory }
    ensures looked { IfOk result (λ looked. looked ≡ looked_at (S.seen store.old).tree directory name.entry) }
    ensures is { IfOk result (IsLooked (S.seen store.old).tree) }
    ensures held { IfOk result (λ looked. ForSome looked.found (S.HasRoom store.new)) }
    ensures tree { (S.seen store.new).tree ≡ (S.seen store.old).tree }
    ensures touched { OnOk result ((S.seen store.new).touched
        ≡ with_nodes (S.seen store.old).touched (found_under (S.seen store.old).tree directory (name_bytes name.entry))) }
    ensures kept { OnErr result ((S.seen store.new).touched ≡ (S.seen store.old).touched) }
    ensures room { Grows (S.HasRoom store.old) (S.HasRoom store.new) }
{
    let looked = store.look(directory, name);
    hold_found(store, looked.found)?;
    touch_found(store, directory, looked.found);
    Ok(looked)
}

/// Looks up two names in directories, as `find` does one.
fn find_both<'n, 'm, S: NodeStore>(
    store: &mut S,
    old: u64,
    old_name: Name<'n>,
    new: u64,
    new_name: Name<'m>,
) -> Result<(NameLookup<'n>, NameLookup<'m>), AllocError>
    requires old { old < next_of (S.seen store.old).tree }
    requires from { S.HasRoom store.old old }
    requires new { new < next_of (S.seen store.old).tree }
    requires to { S.HasRoom store.old new }
    ensures old { IfOk result (λ both. both.0 ≡ looked_at (S.seen store.old).tree old old_name.entry) }
    ensures new { IfOk result (λ both. both.1 ≡ looked_at (S.seen store.old).tree new new_name.entry) }
    ensures old_is { IfOk result (λ both. IsLooked (S.seen store.old).tree both.0) }
    ensures new_is { IfOk result (λ both. IsLooked (S.seen store.old).tree both.1) }
    ensures old_held { IfOk result (λ both. ForSome both.0.found (S.HasRoom store.new)) }
    ensures new_held { IfOk result (λ both. ForSome both.1.found (S.HasRoom store.new)) }
    ensures tree { (S.seen store.new).tree ≡ (S.seen store.old).tree }
    ensures touched { OnOk result ((S.seen store.new).touched
        ≡ with_nodes (with_nodes (S.seen store.old).touched (found_under (S.seen store.old).tree old (name_bytes old_name.entry)))
        (found_under (S.seen store.old).tree new (name_bytes new_name.entry))) }
    ensures kept { OnErr result ((S.seen store.new).touched ≡ (S.seen store.old).touched) }
    ensures room { Grows (S.HasRoom store.old) (S.HasRoom store.new) }
{
    let from = store.look(old, old_name);
    let to = store.look(new, new_name);
    hold_found(store, from.found)?;
    hold_found(store, to.found)?;
    touch_found(store, old, from.found);
    touch_found(store, new, to.found);
    Ok((from, to))
}

/// Opens a name in a directory, and gives what its handle refers to. Its node has room from then on.
pub fn open_at<S: NodeStore>(
    store: &mut S,
    directory: u64,
    name: Name<'_>,
    options: &OpenOptions,
) -> Result<OpenHandle, HostError>
    requires within { directory < next_of (S.seen store.old).tree }
    requires at { S.HasRoom store.old directory }
    ensures does { FollowsRules (S.seen store.old) (S.seen store.new) (OpenAt directory (name_bytes name.entry) options.now)
        (λ held. held) result }
    ensures held { IfOk result (IsHeld (S.seen store.new).tree) }
    ensures given { IfOk result (λ held. S.HasRoom store.new held.node) }
    ensures stays { NodesStay (S.seen store.old).tree (S.seen store.new).tree }
    ensures room { Grows (S.HasRoom store.old) (S.HasRoom store.new) }
{
    let looked = find(store, directory, name)?;
    if let Some(code) = refuse_open(store, &looked, options) {
        return Err(HostError::Code(code));
    }
    let mode = options.access();
    match looked.found {
        Some(node) => {
            cut_where_asked(store, node, options);
            Ok(OpenHandle { node, mode })
        }
        None => {
            let file = Inode::new_file(store.allocator());
            let node = store.make_node(directory, name, file)?;
            Ok(OpenHandle { node, mode })
        }
    }
}

/// Cuts a file that is opened to no bytes, where the options ask for it.
#[tactic(auto, using(crate::proofs::StoreLemmas::cut_asked))]
fn cut_where_asked<S: NodeStore>(store: &mut S, node: u64, options: &OpenOptions)
    requires within { node < next_of (S.seen store.old).tree }
    requires at { S.HasRoom store.old node }
    ensures tree { (S.seen store.new).tree ≡ (if is_cut options.now (node_at (S.seen store.old).tree node).content
        then file_cut (S.seen store.old).tree node else (S.seen store.old).tree) }
    ensures touched { (S.seen store.new).touched ≡ (S.seen store.old).touched }
    ensures stays { NodesStay (S.seen store.old).tree (S.seen store.new).tree }
    ensures room { Grows (S.HasRoom store.old) (S.HasRoom store.new) }
{
    if options.is_truncate() && store.is_file(node) {
        store.cut(node);
    }
}

/// The metadata of the node under a name in a directory, a link's own.
pub fn stat_at<S: NodeStore>(
    store: &mut S,
    directory: u64,
    name: Name<'_>,
) -> Result<Metadata, HostError>
    requires within { directory < next_of (S.seen store.old).tree }
    requires at { S.HasRoom store.old directory }
    ensures does { FollowsRules (S.seen store.old) (S.seen store.new) (StatAt directory (name_bytes name.entry))
        (λ metadata. metadata) result }
    ensures times { IfOk result HasTimes }
    ensures tree { (S.seen store.new).tree ≡ (S.seen store.old).tree }
    ensures room { Grows (S.HasRoom store.old) (S.HasRoom store.new) }
{
    let looked = find(store, directory, name)?;
    Ok(stat_of(store, &looked)?)
}

/// The text of the link under a name in a directory, in memory of its own.
pub fn read_link_at<S: NodeStore>(
    store: &mut S,
    alloc: Global,
    directory: u64,
    name: Name<'_>,
) -> Result<String, HostError>
    requires within { directory < next_of (S.seen store.old).tree }
    requires at { S.HasRoom store.old directory }
    ensures does { FollowsRules (S.seen store.old) (S.seen store.new) (ReadLinkAt directory (name_bytes name.entry))
        (λ text. string_bytes text) result }
    ensures text { IfOk result (λ text. IsSoundText (string_bytes text)) }
    ensures tree { (S.seen store.new).tree ≡ (S.seen store.old).tree }
    ensures room { Grows (S.HasRoom store.old) (S.HasRoom store.new) }
{
    let looked = find(store, directory, name)?;
    let text = text_under(store, &looked)?;
    Ok(String::from_str(alloc, text)?)
}

/// Makes an empty directory under a name in a directory.
pub fn make_dir_at<S: NodeStore>(
    store: &mut S,
    directory: u64,
    name: Name<'_>,
) -> Result<(), HostError>
    requires within { directory < next_of (S.seen store.old).tree }
    requires at { S.HasRoom store.old directory }
    ensures does { FollowsRules (S.seen store.old) (S.seen store.new) (MakeDirAt directory (name_bytes name.entry))
        (λ unit. unit) result }
    ensures stays { NodesStay (S.seen store.old).tree (S.seen store.new).tree }
    ensures room { Grows (S.HasRoom store.old) (S.HasRoom store.new) }
{
    let looked = find(store, directory, name)?;
    if let Some(code) = refuse_make_dir(store, &looked) {
        return Err(HostError::Code(code));
    }
    store.make_node(directory, name, Inode::new_directory())?;
    Ok(())
}

/// Makes a link of this text under a name in a directory.
pub fn symlink_at<S: NodeStore>(
    store: &mut S,
    target: &str,
    directory: u64,
    name: Name<'_>,
) -> Result<(), HostError>
    requires within { directory < next_of (S.seen store.old).tree }
    requires at { S.HasRoom store.old directory }
    ensures does { FollowsRules (S.seen store.old) (S.seen store.new)
        (SymlinkAt target.now directory (name_bytes name.entry)) (λ unit. unit) result }
    ensures stays { NodesStay (S.seen store.old).tree (S.seen store.new).tree }
    ensures room { Grows (S.HasRoom store.old) (S.HasRoom store.new) }
{
    let looked = find(store, directory, name)?;
    if let Some(code) = refuse_symlink(store, target, &looked) {
        return Err(HostError::Code(code));
    }
    let text = String::from_str(store.allocator(), target)?;
    store.make_node(directory, name, Inode::new_link(text))?;
    Ok(())
}

/// Gives the file or link under a name in a directory a name in a directory, which may be the same.
pub fn link_at<S: NodeStore>(
    store: &mut S,
    old: u64,
    old_name: Name<'_>,
    new: u64,
    new_name: Name<'_>,
) -> Result<(), HostError>
    requires old { old < next_of (S.seen store.old).tree }
    requires from { S.HasRoom store.old old }
    requires new { new < next_of (S.seen store.old).tree }
    requires to { S.HasRoom store.old new }
    ensures does { FollowsRules (S.seen store.old) (S.seen store.new)
        (LinkAt old (name_bytes old_name.entry) new (name_bytes new_name.entry)) (λ unit. unit) result }
    ensures stays { NodesStay (S.seen store.old).tree (S.seen store.new).tree }
    ensures room { Grows (S.HasRoom store.old) (S.HasRoom store.new) }
{
    let (from, to) = find_both(store, old, old_name, new, new_name)?;
    let node = node_to_link(store, &from, &to)?;
    store.add_link(new, new_name, node)?;
    Ok(())
}

/// Moves what a name in a directory holds to a name in a directory, which may be the same.
pub fn rename_at<S: NodeStore>(
    store: &mut S,
    old: u64,
    old_name: Name<'_>,
    new: u64,
    new_name: Name<'_>,
    requires_dir: bool,
) -> Result<(), HostError>
    requires old { old < next_of (S.seen store.old).tree }
    requires from { S.HasRoom store.old old }
    requires new { new < next_of (S.seen store.old).tree }
    requires to { S.HasRoom store.old new }
    ensures does { FollowsRules (S.seen store.old) (S.seen store.new)
        (RenameAt old (name_bytes old_name.entry) new (name_bytes new_name.entry) requires_dir) (λ unit. unit) result }
    ensures stays { NodesStay (S.seen store.old).tree (S.seen store.new).tree }
    ensures room { Grows (S.HasRoom store.old) (S.HasRoom store.new) }
{
    let (from, to) = find_both(store, old, old_name, new, new_name)?;
    let Some(node) = node_to_move(store, &from, &to, requires_dir)? else {
        return Ok(());
    };
    store.move_name(old, old_name, new, new_name, node, to.found)?;
    Ok(())
}

/// Drops a name of a file or link in a directory.
pub fn unlink_at<S: NodeStore>(
    store: &mut S,
    directory: u64,
    name: Name<'_>,
) -> Result<(), HostError>
    requires within { directory < next_of (S.seen store.old).tree }
    requires at { S.HasRoom store.old directory }
    ensures does { FollowsRules (S.seen store.old) (S.seen store.new) (UnlinkAt directory (name_bytes name.entry))
        (λ unit. unit) result }
    ensures stays { NodesStay (S.seen store.old).tree (S.seen store.new).tree }
    ensures room { Grows (S.HasRoom store.old) (S.HasRoom store.new) }
{
    let looked = find(store, directory, name)?;
    let node = node_to_unlink(store, &looked)?;
    store.drop_name(directory, name, node)?;
    Ok(())
}

/// Drops the name of an empty directory in a directory.
pub fn remove_dir_at<S: NodeStore>(
    store: &mut S,
    directory: u64,
    name: Name<'_>,
) -> Result<(), HostError>
    requires within { directory < next_of (S.seen store.old).tree }
    requires at { S.HasRoom store.old directory }
    ensures does { FollowsRules (S.seen store.old) (S.seen store.new) (RemoveDirAt directory (name_bytes name.entry))
        (λ unit. unit) result }
    ensures stays { NodesStay (S.seen store.old).tree (S.seen store.new).tree }
    ensures room { Grows (S.HasRoom store.old) (S.HasRoom store.new) }
{
    let looked = find(store, directory, name)?;
    let node = node_to_remove(store, &looked)?;
    store.drop_name(directory, name, node)?;
    Ok(())
}

/// Sets the given times of the node under a name in a directory, a link's own.
pub fn times_at<S: NodeStore>(
    store: &mut S,
    directory: u64,
    name: Name<'_>,
    atime: Option<SystemTime>,
    mtime: Option<SystemTime>,
) -> Result<(), HostError>
    requires within { directory < next_of (S.seen store.old).tree }
    requires at { S.HasRoom store.old directory }
    ensures does { FollowsRules (S.seen store.old) (S.seen store.new)
        (TimesAt directory (name_bytes name.entry) atime mtime) (λ unit. unit) result }
    ensures stays { NodesStay (S.seen store.old).tree (S.seen store.new).tree }
    ensures room { Grows (S.HasRoom store.old) (S.HasRoom store.new) }
{
    let looked = find(store, directory, name)?;
    Ok(set_times_under(store, &looked, atime, mtime)?)
}

/// Sets the given times of the node that a name holds, which has room.
#[tactic(auto, using(crate::proofs::StoreLemmas::store_rules), unfolding(wasi_host::specs::Refusal::refusal))]
fn set_times_under<S: NodeStore>(
    store: &mut S,
    looked: &NameLookup<'_>,
    atime: Option<SystemTime>,
    mtime: Option<SystemTime>,
) -> Result<(), ErrorCode>
    requires is { IsLooked (S.seen store.old).tree looked.now }
    requires held { ForSome looked.now.found (S.HasRoom store.old) }
    ensures refusal { refused_with result
        ≡ refusal (S.seen store.old).tree (TimesAt looked.now.directory (name_bytes looked.now.name) atime mtime) }
    ensures step { OnOk result ((S.seen store.new).tree
        ≡ times_step (S.seen store.old).tree looked.now.directory (name_bytes looked.now.name) atime mtime) }
    ensures kept { OnErr result ((S.seen store.new).tree ≡ (S.seen store.old).tree) }
    ensures touched { (S.seen store.new).touched ≡ (S.seen store.old).touched }
    ensures stays { NodesStay (S.seen store.old).tree (S.seen store.new).tree }
    ensures room { Grows (S.HasRoom store.old) (S.HasRoom store.new) }
{
    let node = node_under(store, looked)?;
    store.set_times(node, atime, mtime);
    Ok(())
}

/// Whether a directory may be searched.
pub fn access<S: NodeStore>(store: &mut S, directory: u64) -> Result<(), ErrorCode>
    requires within { directory < next_of (S.seen store.old).tree }
    requires at { S.HasRoom store.old directory }
    ensures does { FollowsRules (S.seen store.old) (S.seen store.new) (Access directory) (λ unit. unit) (hosted result) }
    ensures tree { (S.seen store.new).tree ≡ (S.seen store.old).tree }
    ensures room { Grows (S.HasRoom store.old) (S.HasRoom store.new) }
{
    store.touch(directory);
    access_of(store, directory)
}

/// All names of a directory, in byte order, each with the kind of its node.
pub fn list<S: NodeStore>(
    store: &mut S,
    alloc: Global,
    directory: OpenHandle,
) -> Result<Vec<DirEntry>, HostError>
    requires within { directory.node < next_of (S.seen store.old).tree }
    requires at { S.HasRoom store.old directory.node }
    ensures does { FollowsRules (S.seen store.old) (S.seen store.new) (ListDir directory)
        (λ entries. map entry_of entries.items) result }
    ensures names { IfOk result
        (λ entries. All (λ entry. IsTrue (is_entry_name entry.0)) (map entry_of entries.items)) }
    ensures tree { (S.seen store.new).tree ≡ (S.seen store.old).tree }
    ensures room { Grows (S.HasRoom store.old) (S.HasRoom store.new) }
{
    store.touch(directory.node);
    list_of(store, alloc, directory)
}

/// The metadata of a node.
pub fn stat<S: NodeStore>(store: &mut S, node: u64) -> Metadata
    requires within { node < next_of (S.seen store.old).tree }
    requires at { S.HasRoom store.old node }
    ensures does { FollowsRules (S.seen store.old) (S.seen store.new) (Stat node) (λ metadata. metadata) (Ok result) }
    ensures times { HasTimes result }
    ensures tree { (S.seen store.new).tree ≡ (S.seen store.old).tree }
    ensures room { Grows (S.HasRoom store.old) (S.HasRoom store.new) }
{
    store.touch(node);
    store.metadata(node)
}

/// Sets the given times of a node.
pub fn set_times<S: NodeStore>(
    store: &mut S,
    node: u64,
    atime: Option<SystemTime>,
    mtime: Option<SystemTime>,
)
    requires within { node < next_of (S.seen store.old).tree }
    requires at { S.HasRoom store.old node }
    ensures does { FollowsRules (S.seen store.old) (S.seen store.new) (SetTimes node atime mtime) (λ unit. unit) answered }
    ensures stays { NodesStay (S.seen store.old).tree (S.seen store.new).tree }
    ensures room { Grows (S.HasRoom store.old) (S.HasRoom store.new) }
{
    store.touch(node);
    store.set_times(node, atime, mtime);
}

/// Reads a file's bytes from an offset on into the front of `buf`, and answers how many.
pub fn read_at<S: NodeStore>(
    store: &mut S,
    file: OpenHandle,
    buf: &mut [u8],
    offset: u64,
) -> Result<usize, ErrorCode>
    requires within { file.node < next_of (S.seen store.old).tree }
    requires at { S.HasRoom store.old file.node }
    ensures does { FollowsRules (S.seen store.old) (S.seen store.new) (Pread file offset (length buf.old))
        (λ n. take n buf.new) (hosted result) }
    ensures fits { IfOk result (λ n. n ≤ length buf.old) }
    ensures offset { OnOk result (offset < 2 ^ 63) }
    ensures rest { IfOk result (λ n. drop n buf.new ≡ drop n buf.old) }
    ensures kept { OnErr result (buf.new ≡ buf.old) }
    ensures tree { (S.seen store.new).tree ≡ (S.seen store.old).tree }
    ensures room { Grows (S.HasRoom store.old) (S.HasRoom store.new) }
{
    store.touch(file.node);
    get_at(store, file, buf, offset)
}

/// Puts a piece of bytes into a file from an offset on, and answers how many: all.
pub fn write_at<S: NodeStore>(
    store: &mut S,
    file: OpenHandle,
    piece: &[u8],
    offset: u64,
) -> Result<usize, HostError>
    requires within { file.node < next_of (S.seen store.old).tree }
    requires at { S.HasRoom store.old file.node }
    ensures does { FollowsRules (S.seen store.old) (S.seen store.new) (Pwrite file offset piece.now) (λ n. n) result }
    ensures all { IfOk result (λ n. n ≡ length piece.now) }
    ensures offset { OnOk result (offset < 2 ^ 63) }
    ensures stays { NodesStay (S.seen store.old).tree (S.seen store.new).tree }
    ensures room { Grows (S.HasRoom store.old) (S.HasRoom store.new) }
{
    store.touch(file.node);
    put_at(store, file, piece, offset)
}

/// Puts a piece of bytes after a file's last one, and answers how many: all.
pub fn append<S: NodeStore>(
    store: &mut S,
    file: OpenHandle,
    piece: &[u8],
) -> Result<usize, HostError>
    requires within { file.node < next_of (S.seen store.old).tree }
    requires at { S.HasRoom store.old file.node }
    ensures does { FollowsRules (S.seen store.old) (S.seen store.new) (Append file piece.now) (λ n. n) result }
    ensures all { IfOk result (λ n. n ≡ length piece.now) }
    ensures stays { NodesStay (S.seen store.old).tree (S.seen store.new).tree }
    ensures room { Grows (S.HasRoom store.old) (S.HasRoom store.new) }
{
    store.touch(file.node);
    put_behind(store, file, piece)
}

/// Cuts a file to a size, or fills it up with zeros.
pub fn set_size<S: NodeStore>(store: &mut S, file: OpenHandle, size: u64) -> Result<(), HostError>
    requires within { file.node < next_of (S.seen store.old).tree }
    requires at { S.HasRoom store.old file.node }
    ensures does { FollowsRules (S.seen store.old) (S.seen store.new) (SetSize file size) (λ unit. unit) result }
    ensures stays { NodesStay (S.seen store.old).tree (S.seen store.new).tree }
    ensures room { Grows (S.HasRoom store.old) (S.HasRoom store.new) }
{
    store.touch(file.node);
    put_size(store, file, size)
}

/// Stores what a node holds, which memory always has.
#[tactic(auto, unfolding(wasi_host::specs::Refusal::refusal))]
pub fn sync<S: NodeStore>(store: &mut S, node: u64)
    requires within { node < next_of (S.seen store.old).tree }
    requires at { S.HasRoom store.old node }
    ensures does { FollowsRules (S.seen store.old) (S.seen store.new) (Sync node) (λ unit. unit) answered }
    ensures tree { (S.seen store.new).tree ≡ (S.seen store.old).tree }
    ensures room { Grows (S.HasRoom store.old) (S.HasRoom store.new) }
{
    store.touch(node);
}

/// Takes advice on how bytes of a node will be used, which changes nothing.
#[tactic(auto, unfolding(wasi_host::specs::Refusal::refusal))]
pub fn advise<S: NodeStore>(store: &mut S, node: u64, offset: u64, len: u64, advice: Advice)
    requires within { node < next_of (S.seen store.old).tree }
    requires at { S.HasRoom store.old node }
    ensures does { FollowsRules (S.seen store.old) (S.seen store.new) (Advise node offset len advice) (λ unit. unit) answered }
    ensures tree { (S.seen store.new).tree ≡ (S.seen store.old).tree }
    ensures room { Grows (S.HasRoom store.old) (S.HasRoom store.new) }
{
    store.touch(node);
}

/// The synchronized modes of a handle of a node: none.
#[tactic(auto, unfolding(wasi_host::specs::Refusal::refusal))]
pub fn flags<S: NodeStore>(store: &mut S, node: u64) -> SyncFlags
    requires within { node < next_of (S.seen store.old).tree }
    requires at { S.HasRoom store.old node }
    ensures does { FollowsRules (S.seen store.old) (S.seen store.new) (Flags node) (λ flags. flags) (Ok result) }
    ensures tree { (S.seen store.new).tree ≡ (S.seen store.old).tree }
    ensures room { Grows (S.HasRoom store.old) (S.HasRoom store.new) }
{
    store.touch(node);
    SyncFlags {
        sync: false,
        dsync: false,
        rsync: false,
    }
}

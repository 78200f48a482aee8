//! The preopens of a guest, as entries of its table.
ghost use Rattle.std.specs.Prelude.{◌≡◌, ◌≤◌, ◌+◌, ◌++◌, ℕ, true, List, length, OnOk, IsSome, IfSome};
ghost use Rattle.std.specs.FinMap.{get};
ghost use Rattle.std.specs.FinSet.{contains};
ghost use Rattle.std.specs.Vec.{vec_len, vec_capacity};
ghost use Rattle.wasi_p2_calls.specs.Directories.{GivesThese, IsOfThese, OneOrNone, TakesBack, with_list};
ghost use Rattle.wasi_p2_types.specs.FsErrors.{FsCause};
ghost use Rattle.wasi_p2_calls.specs.Resources.{entry_handle};

use crate::entries::{close_entry, make_room, put, take};
use crate::{FsResult, Preopen};
use wasi_fs::{Descriptor, Dir};
use wasi_host::{Handle, Host};
use wasi_streams::{Entry, Resource, ResourceTable};

/// An entry of a preopen, and the name by which the guest knows it: the pair that the crate's
/// `get_directories` answers.
#[derive(Debug, Drop)]
pub struct PreopenEntry {
    pub fd: Resource,
    pub name: String,
}

/// A directory with another handle of it.
fn with_handle(dir: &Dir, handle: Handle) -> Dir
    ensures { result ≡ record dir.now { dir = handle } }
{
    Dir::new(handle, dir.perms, dir.open_mode)
}

/// Gives one directory an entry, with a handle of its own. Memory for its name and room in the table are taken before
/// the host is asked.
fn give_one<H: Host>(
    host: &mut H,
    table: &mut ResourceTable,
    preopen: &Preopen,
) -> FsResult<PreopenEntry>
    requires live { contains (H.live host.old) preopen.now.dir.dir ≡ true }
    ensures cause { FsCause (H.faults host.old) (H.faults host.new) result }
    ensures given { OneOrNone H.Host host.old host.new table.old table.new preopen.now result }
{
    let name = preopen.name.clone()?;
    make_room(table)?;
    let handle = host.dup(preopen.dir.dir)?;
    let dir = with_handle(&preopen.dir, handle);
    let fd = put(table, Entry::Descriptor(Descriptor::Dir(dir)));
    Ok(PreopenEntry { fd, name })
}

/// Takes out an entry that is there, and closes its handle.
fn take_back<H: Host>(host: &mut H, table: &mut ResourceTable, fd: Resource)
    requires there { IsSome (get table.old.entries fd.number) }
    requires live { IfSome (entry_handle (get table.old.entries fd.number)) (λ h. contains (H.live host.old) h ≡ true) }
    ensures { TakesBack H.Host host.old host.new table.old table.new fd.number }
{
    let entry = take(table, fd);
    close_entry(host, entry);
}

/// Gives each of these directories an entry, in order, after those that were made. Where one can't be given, those
/// before it are taken back.
pub fn give_each<H: Host>(
    host: &mut H,
    table: &mut ResourceTable,
    preopens: &[Preopen],
    made: &mut Vec<PreopenEntry>,
) -> FsResult<()>
    requires live { (q : ℕ) → IsOfThese preopens.now q → contains (H.live host.old) q ≡ true }
    requires room { vec_len made.old + length preopens.now ≤ vec_capacity made.old }
    ensures gives { (list : List PreopenEntry) × OnOk result (made.new.items ≡ made.old.items ++ list)
        × GivesThese H.Host host.old host.new table.old table.new preopens.now (with_list result list) }
{
    let Some((preopen, others)) = preopens.split_first() else {
        return Ok(());
    };
    let entry = give_one(host, table, preopen)?;
    let fd = entry.fd;
    made.push_reserved(entry);
    match give_each(host, table, others, made) {
        Ok(()) => Ok(()),
        Err(error) => {
            take_back(host, table, fd);
            Err(error)
        }
    }
}

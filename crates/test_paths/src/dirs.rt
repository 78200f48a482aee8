//! The calls of an open directory.
ghost use Rattle.std.specs.Prelude.{◌≡◌, true};
ghost use Rattle.std.specs.FinSet.{contains};

use crate::descriptors::{opened, set_own_times, store_own};
use test_support::{Asked, Rendered, answered, done, time_of, unknown, word};
use wasi_fs::{Dir, Flags, FsPerms, OpenMode, PathFlags};
use wasi_host::{Handle, Host};

/// `CALL PATH ARGUMENTS`, of node 0 with all permissions.
pub fn dir_call<H: Host>(host: &mut H, root: Handle, asked: &Asked<'_>) -> Rendered
    requires { contains (H.live host.old) root ≡ true }
{
    match asked.what {
        "open_at" => opened(host, root, asked),
        "use_at" => opened(host, root, asked),
        "store_at" => opened(host, root, asked),
        "set_times" => set_own_times(host, root, asked),
        "store" => store_own(host, root, asked),
        _ => {
            let dir = Dir::new(root, FsPerms::ReadWrite, OpenMode::READ);
            change(host, &dir, asked)
        }
    }
}

fn change<H: Host>(host: &mut H, dir: &Dir, asked: &Asked<'_>) -> Rendered
    requires { contains (H.live host.old) dir.now.dir ≡ true }
{
    let alloc = asked.alloc;
    let (path, rest) = word(asked.rest);
    match asked.what {
        "create_directory_at" => done(alloc, dir.create_directory_at(alloc, host, path)),
        "remove_directory_at" => done(alloc, dir.remove_directory_at(alloc, host, path)),
        "unlink_file_at" => done(alloc, dir.unlink_file_at(alloc, host, path)),
        "symlink_at" => done(alloc, dir.symlink_at(alloc, host, path, rest)),
        "link_at" => {
            let linked = dir.link_at(alloc, host, PathFlags::empty(), path, dir, rest);
            done(alloc, linked)
        }
        "rename_at" => done(alloc, dir.rename_at(alloc, host, path, dir, rest)),
        "set_times_at" => {
            let (atime, mtime) = word(rest);
            let none = PathFlags::empty();
            let set = dir.set_times_at(alloc, host, none, path, time_of(atime), time_of(mtime));
            done(alloc, set)
        }
        _ => look(host, dir, asked),
    }
}

fn look<H: Host>(host: &mut H, dir: &Dir, asked: &Asked<'_>) -> Rendered
    requires { contains (H.live host.old) dir.now.dir ≡ true }
{
    let alloc = asked.alloc;
    let path = word(asked.rest).0;
    let none = PathFlags::empty();
    let follow = PathFlags::SYMLINK_FOLLOW;
    match asked.what {
        "readlink_at" => answered(alloc, dir.readlink_at(alloc, host, path)),
        "stat_at" => answered(alloc, dir.stat_at(alloc, host, none, path)),
        "stat_at_followed" => answered(alloc, dir.stat_at(alloc, host, follow, path)),
        "metadata_hash_at" => answered(alloc, dir.metadata_hash_at(alloc, host, follow, path)),
        _ => unknown(alloc),
    }
}

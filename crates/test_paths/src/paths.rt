//! The resolver's calls.
ghost use Rattle.std.specs.Prelude.{◌≡◌, true};
ghost use Rattle.std.specs.FinSet.{contains};

use std::alloc::Global;
use test_support::{
    Asked, Rendered, answered, done, refused, rendered, rendered_node, rendered_times, time_of,
    unknown, word,
};
use wasi_host::{FollowSymlinks, Handle, Host, HostError, OpenOptions};
use wasi_resolve::{
    MaybeOwned, create_dir, hard_link, open, open_dir, open_parent, read_dir, read_link,
    remove_dir, remove_file, rename, set_times, set_times_nofollow, stat, symlink,
};

/// `CALL PATH ARGUMENTS`.
pub fn path_call<H: Host>(host: &mut H, start: Handle, asked: &Asked<'_>) -> Rendered
    requires { contains (H.live host.old) start ≡ true }
{
    let alloc = asked.alloc;
    let (path, rest) = word(asked.rest);
    match asked.what {
        "create_dir" => done(alloc, create_dir(alloc, host, start, path)),
        "remove_file" => done(alloc, remove_file(alloc, host, start, path)),
        "remove_dir" => done(alloc, remove_dir(alloc, host, start, path)),
        "symlink" => done(alloc, symlink(alloc, host, rest, start, path)),
        "hard_link" => done(alloc, hard_link(alloc, host, start, path, start, rest)),
        "rename" => done(alloc, rename(alloc, host, start, path, start, rest)),
        "set_times" => {
            let (atime, mtime) = word(rest);
            let set = set_times(alloc, host, start, path, time_of(atime), time_of(mtime));
            done(alloc, set)
        }
        "set_times_nofollow" => {
            let (atime, mtime) = word(rest);
            let set = set_times_nofollow(alloc, host, start, path, time_of(atime), time_of(mtime));
            done(alloc, set)
        }
        "file" => done(alloc, make_file(alloc, host, start, path, rest)),
        _ => look(host, start, asked),
    }
}

/// Makes a file of this text.
#[tactic(auto, using(wasi_host::proofs::Chain::live_rules))]
fn make_file<H: Host>(
    alloc: Global,
    host: &mut H,
    start: Handle,
    path: &str,
    text: &str,
) -> Result<(), HostError>
    requires { contains (H.live host.old) start ≡ true }
{
    let mut options = OpenOptions::new();
    options.write(true).create_new(true);
    let file = open(alloc, host, start, path, &options)?;
    host.pwrite(file, text.as_bytes(), 0)?;
    Ok(())
}

fn look<H: Host>(host: &mut H, start: Handle, asked: &Asked<'_>) -> Rendered
    requires { contains (H.live host.old) start ≡ true }
{
    use FollowSymlinks::{No, Yes};

    let alloc = asked.alloc;
    let path = word(asked.rest).0;
    match asked.what {
        "stat" => rendered_node(alloc, stat(alloc, host, start, path, No)),
        "stat_followed" => rendered_node(alloc, stat(alloc, host, start, path, Yes)),
        "times" => rendered_times(alloc, stat(alloc, host, start, path, No)),
        "read_link" => answered(alloc, read_link(alloc, host, start, path)),
        "read_dir" => answered(alloc, read_dir(alloc, host, start)),
        "open_dir" => match open_dir(alloc, host, start, path) {
            Ok(directory) => rendered(alloc, &(directory != start)),
            Err(error) => refused(alloc, error),
        },
        "open_parent" => match open_parent(alloc, host, start, path) {
            Ok(parent) => {
                let is_start = parent.directory == MaybeOwned::Borrowed(start);
                rendered(alloc, &(parent.name.as_str(), is_start))
            }
            Err(error) => refused(alloc, error),
        },
        _ => unknown(alloc),
    }
}

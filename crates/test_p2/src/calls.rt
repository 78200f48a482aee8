//! The calls by their names. Each is asked of a view and of one of several in the same words, so a macro gives the arms
//! of both, with the id where one is wanted.

/// The calls that answer resources; the others are what is left.
macro_rules! making {
    ($files:ident ($($id:ident)?) $asked:ident $given:ident $left:expr) => {{
        let alloc = $asked.alloc;
        let (fd, rest) = first($given.as_slice(), $asked.rest);
        match $asked.what {
            "get_directories" => all_kept(alloc, $given, $files.get_directories($($id)?)),
            "open_at" => {
                let (path_flags, rest) = word(rest);
                let (path, rest) = word(rest);
                let (oflags, bits) = word(rest);
                let opened = $files.open_at($($id,)? fd, flags(path_flags), path, flags(oflags), flags(bits));
                kept(alloc, $given, opened)
            }
            "read_via_stream" => kept(alloc, $given, $files.read_via_stream($($id,)? fd, number(rest))),
            "write_via_stream" => kept(alloc, $given, $files.write_via_stream($($id,)? fd, number(rest))),
            "append_via_stream" => kept(alloc, $given, $files.append_via_stream($($id,)? fd)),
            "read_directory" => kept(alloc, $given, $files.read_directory($($id,)? fd)),
            _ => $left,
        }
    }};
}

/// The calls that take an entry out, or read on in one, and those that read and write bytes.
macro_rules! taking {
    ($files:ident ($($id:ident)?) $asked:ident $given:ident $left:expr) => {{
        let alloc = $asked.alloc;
        let (fd, rest) = first($given, $asked.rest);
        match $asked.what {
            "drop" => shown(alloc, $files.drop($($id,)? fd)),
            "drop_stream" => shown(alloc, $files.drop_stream($($id,)? fd)),
            "read_directory_entry" => shown(alloc, $files.read_directory_entry($($id,)? fd)),
            "read" => {
                let (len, offset) = word(rest);
                rendered_read(alloc, $files.read($($id,)? fd, number(len), number(offset)))
            }
            "write" => {
                let (text, offset) = word(rest);
                shown(alloc, $files.write($($id,)? fd, text.as_bytes(), number(offset)))
            }
            _ => $left,
        }
    }};
}

/// The calls about what a resource refers to.
macro_rules! about {
    ($files:ident ($($id:ident)?) $asked:ident $given:ident $left:expr) => {{
        let alloc = $asked.alloc;
        let (fd, rest) = first($given, $asked.rest);
        match $asked.what {
            "advise" => shown(alloc, $files.advise($($id,)? fd, 0, 1, Advice::Sequential)),
            "set_size" => shown(alloc, $files.set_size($($id,)? fd, number(rest))),
            "sync_data" => shown(alloc, $files.sync_data($($id,)? fd)),
            "sync" => shown(alloc, $files.sync($($id,)? fd)),
            "get_flags" => shown(alloc, $files.get_flags($($id,)? fd)),
            "get_type" => shown(alloc, $files.get_type($($id,)? fd)),
            "stat" => shown(alloc, $files.stat($($id,)? fd)),
            "metadata_hash" => shown(alloc, $files.metadata_hash($($id,)? fd)),
            "set_times" => {
                let (atim, mtim) = word(rest);
                shown(alloc, $files.set_times($($id,)? fd, time(atim), time(mtim)))
            }
            "is_same_object" => {
                let other = resource($given, rest);
                shown(alloc, $files.is_same_object($($id,)? fd, other))
            }
            _ => $left,
        }
    }};
}

/// The calls at a path that change something.
macro_rules! changing {
    ($files:ident ($($id:ident)?) $asked:ident $given:ident $left:expr) => {{
        let alloc = $asked.alloc;
        let (fd, rest) = first($given, $asked.rest);
        let (path, rest) = word(rest);
        match $asked.what {
            "create_directory_at" => shown(alloc, $files.create_directory_at($($id,)? fd, path)),
            "remove_directory_at" => shown(alloc, $files.remove_directory_at($($id,)? fd, path)),
            "unlink_file_at" => shown(alloc, $files.unlink_file_at($($id,)? fd, path)),
            "symlink_at" => shown(alloc, $files.symlink_at($($id,)? fd, path, rest)),
            "link_at" => {
                let (new_fd, new_path) = first($given, rest);
                shown(alloc, $files.link_at($($id,)? fd, flags("0"), path, new_fd, new_path))
            }
            "rename_at" => {
                let (new_fd, new_path) = first($given, rest);
                shown(alloc, $files.rename_at($($id,)? fd, path, new_fd, new_path))
            }
            "set_times_at" => {
                let (atim, mtim) = word(rest);
                shown(alloc, $files.set_times_at($($id,)? fd, flags("0"), path, time(atim), time(mtim)))
            }
            _ => $left,
        }
    }};
}

/// The calls that look at a path, where a link is followed.
macro_rules! looking {
    ($files:ident ($($id:ident)?) $asked:ident $given:ident) => {{
        let alloc = $asked.alloc;
        let (fd, path) = first($given, $asked.rest);
        match $asked.what {
            "readlink_at" => shown(alloc, $files.readlink_at($($id,)? fd, path)),
            "stat_at" => shown(alloc, $files.stat_at($($id,)? fd, flags("1"), path)),
            "metadata_hash_at" => shown(alloc, $files.metadata_hash_at($($id,)? fd, flags("1"), path)),
            _ => unknown(alloc),
        }
    }};
}

mod of_one;
mod of_several;

pub use of_one::view_call;
pub use of_several::named_call;

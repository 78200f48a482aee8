//! Times, numbers and options of a host.
use std::alloc::{AllocError, Global};
use test_support::{number, rendered, unknown, word};
use wasi_host::{
    FollowSymlinks, Handle, OpenOptions, SystemTime, compute_oflags, dir_options, readdir_options,
    system_time_from_rustix, to_timespec,
};

pub fn answer(alloc: Global, what: &str, rest: &str) -> Result<String, AllocError> {
    let (first, second) = word(rest);
    let time = system_time_from_rustix(first.parse::<i64>().unwrap_or(0), number(second));
    match what {
        "time" => rendered(alloc, &time),
        "epoch" => rendered(alloc, &SystemTime::EPOCH),
        "timespec" => rendered(alloc, &to_timespec(time)),
        "handle" => rendered(alloc, &Handle::from_number(number(first)).number()),
        _ => unknown(alloc),
    }
}

pub fn options_answer(alloc: Global, what: &str, rest: &str) -> Result<String, AllocError> {
    let options = options(rest);
    match what {
        "oflags" => rendered(alloc, &compute_oflags(&options)),
        "set" => rendered(
            alloc,
            &[
                options.is_read(),
                options.is_write(),
                options.is_truncate(),
                options.is_create(),
                options.is_create_new(),
                options.is_dir_required(),
                options.is_readdir_required(),
            ],
        ),
        "follow" => rendered(alloc, &options.is_follow()),
        "tests" => rendered(
            alloc,
            &(
                options.creates(),
                options.changes(),
                options.is_path_only(),
                options.are_refused(),
            ),
        ),
        "access" => {
            let access = options.access();
            rendered(alloc, &(access, access.can_read(), access.can_write()))
        }
        _ => unknown(alloc),
    }
}

// The options that are set one after another, beginning from those of `dir` or `readdir`, or from none.
fn options(text: &str) -> OpenOptions {
    let mut options = OpenOptions::new();
    for part in text.split_whitespace() {
        match part {
            "dir" => options = dir_options(),
            "readdir" => options = readdir_options(),
            _ => set_option(&mut options, part),
        }
    }
    options
}

fn set_option(options: &mut OpenOptions, part: &str) {
    match part {
        "read" => options.read(true),
        "write" => options.write(true),
        "truncate" => options.truncate(true),
        "create" => options.create(true),
        "create_new" => options.create_new(true),
        "nofollow" => options.follow(FollowSymlinks::No),
        "cap_nofollow" => options._cap_fs_ext_follow(FollowSymlinks::No),
        _ => options,
    };
}

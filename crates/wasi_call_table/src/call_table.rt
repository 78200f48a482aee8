//! The table of preview1's calls, by which all that takes calls by their names or numbers reads them.
ghost use Rattle.std.specs.Prelude.{◌≡◌, ◌≤◌, ◌%◌, ◌^◌, length, map, option_map, slice_get, IfSome};
ghost use Rattle.std.specs.List.{position};
ghost use Rattle.std.specs.Str.{bytes_eq};
ghost use Rattle.wasi_call_table.specs.CallTable as table;

use crate::shape::Shape;
use wasi_guest::Call;

/// What an argument of a call is: a number of so many bits, with a sign or without one.
#[derive(Clone, Copy, Debug, PartialEq, Eq)]
pub enum Kind {
    U32,
    U64,
    I64,
}

use Kind::{I64, U32, U64};

// Each call by its name, the kinds of its arguments and the shape of its results. Its place is its number.
const CALLS: [(&str, &[Kind], Shape); 46] = [
    ("args_get", &[U32, U32], Shape::Nothing),
    ("args_sizes_get", &[], Shape::TwoU32),
    ("environ_get", &[U32, U32], Shape::Nothing),
    ("environ_sizes_get", &[], Shape::TwoU32),
    ("clock_res_get", &[U32], Shape::U64),
    ("clock_time_get", &[U32, U64], Shape::U64),
    ("fd_advise", &[U32, U64, U64, U32], Shape::Nothing),
    ("fd_allocate", &[U32, U64, U64], Shape::Nothing),
    ("fd_close", &[U32], Shape::Nothing),
    ("fd_datasync", &[U32], Shape::Nothing),
    ("fd_sync", &[U32], Shape::Nothing),
    ("fd_fdstat_get", &[U32], Shape::Fdstat),
    ("fd_fdstat_set_flags", &[U32, U32], Shape::Nothing),
    ("fd_fdstat_set_rights", &[U32, U64, U64], Shape::Nothing),
    ("fd_filestat_get", &[U32], Shape::Filestat),
    ("fd_filestat_set_size", &[U32, U64], Shape::Nothing),
    (
        "fd_filestat_set_times",
        &[U32, U64, U64, U32],
        Shape::Nothing,
    ),
    ("fd_pread", &[U32, U32, U32, U64], Shape::U32),
    ("fd_prestat_get", &[U32], Shape::Prestat),
    ("fd_prestat_dir_name", &[U32, U32, U32], Shape::Nothing),
    ("fd_pwrite", &[U32, U32, U32, U64], Shape::U32),
    ("fd_read", &[U32, U32, U32], Shape::U32),
    ("fd_readdir", &[U32, U32, U32, U64], Shape::U32),
    ("fd_renumber", &[U32, U32], Shape::Nothing),
    ("fd_seek", &[U32, I64, U32], Shape::U64),
    ("fd_tell", &[U32], Shape::U64),
    ("fd_write", &[U32, U32, U32], Shape::U32),
    ("path_create_directory", &[U32, U32, U32], Shape::Nothing),
    ("path_filestat_get", &[U32, U32, U32, U32], Shape::Filestat),
    (
        "path_filestat_set_times",
        &[U32, U32, U32, U32, U64, U64, U32],
        Shape::Nothing,
    ),
    (
        "path_link",
        &[U32, U32, U32, U32, U32, U32, U32],
        Shape::Nothing,
    ),
    (
        "path_open",
        &[U32, U32, U32, U32, U32, U64, U64, U32],
        Shape::U32,
    ),
    ("path_readlink", &[U32, U32, U32, U32, U32], Shape::U32),
    ("path_remove_directory", &[U32, U32, U32], Shape::Nothing),
    ("path_unlink_file", &[U32, U32, U32], Shape::Nothing),
    (
        "path_rename",
        &[U32, U32, U32, U32, U32, U32],
        Shape::Nothing,
    ),
    ("path_symlink", &[U32, U32, U32, U32, U32], Shape::Nothing),
    ("poll_oneoff", &[U32, U32, U32], Shape::U32),
    ("proc_exit", &[U32], Shape::Nothing),
    ("proc_raise", &[U32], Shape::Nothing),
    ("random_get", &[U32, U32], Shape::Nothing),
    ("sched_yield", &[], Shape::Nothing),
    ("sock_accept", &[U32, U32], Shape::U32),
    ("sock_recv", &[U32, U32, U32, U32], Shape::U32AndU16),
    ("sock_send", &[U32, U32, U32, U32], Shape::U32),
    ("sock_shutdown", &[U32, U32], Shape::Nothing),
];

// The place of the first row of a name.
fn place_in(table: &[(&str, &[Kind], Shape)], name: &str) -> Option<usize>
    ensures { result ≡ position (λ row. bytes_eq name.now row.0.now) table.now }
{
    table.iter().position(|row| name == row.0)
}

/// The number of the call of a name, `None` where no call has it. The calls that guests make most are looked for first.
#[tactic(auto, unfolding(crate::specs::CallTable::call_number))]
pub fn call_number(name: &str) -> Option<usize>
    ensures { result ≡ table.call_number name.now }
{
    match name {
        "path_open" => Some(31),
        "fd_read" => Some(21),
        "fd_write" => Some(26),
        "fd_close" => Some(8),
        _ => place_in(&CALLS, name),
    }
}

// The kinds of the row at a place.
fn kinds_in<'a>(table: &[(&str, &'a [Kind], Shape)], place: usize) -> Option<&'a [Kind]>
    ensures { option_map (λ kinds. kinds.now) result ≡ slice_get (map (λ row. row.1.now) table.now) place }
{
    match table.get(place) {
        Some(row) => Some(row.1),
        None => None,
    }
}

/// The kinds of the arguments of the call of a number, `None` where there is no such call. They are 8 at most.
pub fn call_kinds(number: usize) -> Option<&'static [Kind]>
    ensures kinds { option_map (λ kinds. kinds.now) result ≡ table.call_kinds number }
    ensures few { IfSome result (λ kinds. length kinds.now ≤ 8) }
{
    kinds_in(&CALLS, number)
}

// The shape of the row at a place.
fn shape_in(table: &[(&str, &[Kind], Shape)], place: usize) -> Option<Shape>
    ensures { result ≡ slice_get (map (λ row. row.2) table.now) place }
{
    match table.get(place) {
        Some(row) => Some(row.2),
        None => None,
    }
}

/// The shape of the results of the call of a number, `None` where there is no such call.
#[tactic(auto, unfolding(crate::specs::CallTable::call_shape))]
pub fn call_shape(number: usize) -> Option<Shape>
    ensures { result ≡ table.call_shape number }
{
    shape_in(&CALLS, number)
}

// The low 32 bits of a word.
fn low(word: u64) -> u32
    ensures { result ≡ word % 2 ^ 32 }
{
    (word % 4_294_967_296) as u32
}

/// The call of a number with these words as its arguments, `None` where there is no such call. Of a word for an
/// argument of 32 bits the low 32 count, and one for an argument with a sign is its two's complement. The words after
/// the last argument count nothing.
#[inline(always)]
#[tactic(auto, unfolding(crate::specs::CallTable::call_of_words))]
pub fn call_of_words(number: usize, words: &[u64; 8]) -> Option<Call>
    ensures { result ≡ table.call_of_words number words.now }
{
    let call = match number {
        0 => Call::ArgsGet {
            argv: low(words[0]),
            argv_buf: low(words[1]),
        },
        1 => Call::ArgsSizesGet,
        2 => Call::EnvironGet {
            environ: low(words[0]),
            environ_buf: low(words[1]),
        },
        3 => Call::EnvironSizesGet,
        4 => Call::ClockResGet { id: low(words[0]) },
        5 => Call::ClockTimeGet {
            id: low(words[0]),
            precision: words[1],
        },
        6 => Call::FdAdvise {
            fd: low(words[0]),
            offset: words[1],
            len: words[2],
            advice: low(words[3]),
        },
        7 => Call::FdAllocate {
            fd: low(words[0]),
            offset: words[1],
            len: words[2],
        },
        8 => Call::FdClose { fd: low(words[0]) },
        9 => Call::FdDatasync { fd: low(words[0]) },
        10 => Call::FdSync { fd: low(words[0]) },
        11 => Call::FdFdstatGet { fd: low(words[0]) },
        12 => Call::FdFdstatSetFlags {
            fd: low(words[0]),
            flags: low(words[1]),
        },
        13 => Call::FdFdstatSetRights {
            fd: low(words[0]),
            base: words[1],
            inheriting: words[2],
        },
        14 => Call::FdFilestatGet { fd: low(words[0]) },
        15 => Call::FdFilestatSetSize {
            fd: low(words[0]),
            size: words[1],
        },
        16 => Call::FdFilestatSetTimes {
            fd: low(words[0]),
            atim: words[1],
            mtim: words[2],
            fst_flags: low(words[3]),
        },
        17 => Call::FdPread {
            fd: low(words[0]),
            iovs: low(words[1]),
            iovs_len: low(words[2]),
            offset: words[3],
        },
        18 => Call::FdPrestatGet { fd: low(words[0]) },
        19 => Call::FdPrestatDirName {
            fd: low(words[0]),
            path: low(words[1]),
            path_len: low(words[2]),
        },
        20 => Call::FdPwrite {
            fd: low(words[0]),
            iovs: low(words[1]),
            iovs_len: low(words[2]),
            offset: words[3],
        },
        21 => Call::FdRead {
            fd: low(words[0]),
            iovs: low(words[1]),
            iovs_len: low(words[2]),
        },
        22 => Call::FdReaddir {
            fd: low(words[0]),
            buf: low(words[1]),
            buf_len: low(words[2]),
            cookie: words[3],
        },
        23 => Call::FdRenumber {
            from: low(words[0]),
            to: low(words[1]),
        },
        24 => Call::FdSeek {
            fd: low(words[0]),
            offset: words[1].cast_signed(),
            whence: low(words[2]),
        },
        25 => Call::FdTell { fd: low(words[0]) },
        26 => Call::FdWrite {
            fd: low(words[0]),
            iovs: low(words[1]),
            iovs_len: low(words[2]),
        },
        27 => Call::PathCreateDirectory {
            fd: low(words[0]),
            path: low(words[1]),
            path_len: low(words[2]),
        },
        28 => Call::PathFilestatGet {
            fd: low(words[0]),
            flags: low(words[1]),
            path: low(words[2]),
            path_len: low(words[3]),
        },
        29 => Call::PathFilestatSetTimes {
            fd: low(words[0]),
            flags: low(words[1]),
            path: low(words[2]),
            path_len: low(words[3]),
            atim: words[4],
            mtim: words[5],
            fst_flags: low(words[6]),
        },
        30 => Call::PathLink {
            old_fd: low(words[0]),
            old_flags: low(words[1]),
            old_path: low(words[2]),
            old_path_len: low(words[3]),
            new_fd: low(words[4]),
            new_path: low(words[5]),
            new_path_len: low(words[6]),
        },
        31 => Call::PathOpen {
            fd: low(words[0]),
            dirflags: low(words[1]),
            path: low(words[2]),
            path_len: low(words[3]),
            oflags: low(words[4]),
            base: words[5],
            inheriting: words[6],
            fdflags: low(words[7]),
        },
        32 => Call::PathReadlink {
            fd: low(words[0]),
            path: low(words[1]),
            path_len: low(words[2]),
            buf: low(words[3]),
            buf_len: low(words[4]),
        },
        33 => Call::PathRemoveDirectory {
            fd: low(words[0]),
            path: low(words[1]),
            path_len: low(words[2]),
        },
        34 => Call::PathUnlinkFile {
            fd: low(words[0]),
            path: low(words[1]),
            path_len: low(words[2]),
        },
        35 => Call::PathRename {
            old_fd: low(words[0]),
            old_path: low(words[1]),
            old_path_len: low(words[2]),
            new_fd: low(words[3]),
            new_path: low(words[4]),
            new_path_len: low(words[5]),
        },
        36 => Call::PathSymlink {
            old_path: low(words[0]),
            old_path_len: low(words[1]),
            fd: low(words[2]),
            new_path: low(words[3]),
            new_path_len: low(words[4]),
        },
        37 => Call::PollOneoff {
            subscriptions: low(words[0]),
            events: low(words[1]),
            count: low(words[2]),
        },
        38 => Call::ProcExit {
            status: low(words[0]),
        },
        39 => Call::ProcRaise {
            signal: low(words[0]),
        },
        40 => Call::RandomGet {
            buf: low(words[0]),
            buf_len: low(words[1]),
        },
        41 => Call::SchedYield,
        42 => Call::SockAccept {
            fd: low(words[0]),
            flags: low(words[1]),
        },
        43 => Call::SockRecv {
            fd: low(words[0]),
            iovs: low(words[1]),
            iovs_len: low(words[2]),
            ri_flags: low(words[3]),
        },
        44 => Call::SockSend {
            fd: low(words[0]),
            iovs: low(words[1]),
            iovs_len: low(words[2]),
            si_flags: low(words[3]),
        },
        45 => Call::SockShutdown {
            fd: low(words[0]),
            how: low(words[1]),
        },
        _ => return None,
    };
    Some(call)
}

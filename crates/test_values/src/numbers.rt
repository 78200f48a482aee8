//! Numbers of enumerations.
use std::alloc::{AllocError, Global};
use test_support::{rendered, unknown};
use wasi_guest::{Advice, Clockid, Errno, Eventtype, Filetype, Whence, is_signal};

pub fn answer(alloc: Global, what: &str, rest: &str) -> Result<String, AllocError> {
    let number = rest.parse::<u32>().unwrap_or(0);
    match what {
        "whence" => rendered(alloc, &Whence::from_number(number)),
        "clockid" => rendered(alloc, &Clockid::from_number(number)),
        "advice" => rendered(alloc, &Advice::from_number(number)),
        "eventtype" => rendered(alloc, &Eventtype::from_number(number)),
        "signal" => rendered(alloc, &is_signal(number)),
        "filetype" => rendered(alloc, &filetype_of(rest).number()),
        "errno" => rendered(alloc, &errno_number(rest)),
        _ => unknown(alloc),
    }
}

fn filetype_of(word: &str) -> Filetype {
    match word {
        "BlockDevice" => Filetype::BlockDevice,
        "CharacterDevice" => Filetype::CharacterDevice,
        "Directory" => Filetype::Directory,
        "RegularFile" => Filetype::RegularFile,
        "SymbolicLink" => Filetype::SymbolicLink,
        _ => Filetype::Unknown,
    }
}

const ERRNOS: [Errno; 38] = [
    Errno::Acces,
    Errno::Again,
    Errno::Already,
    Errno::Badf,
    Errno::Busy,
    Errno::Deadlk,
    Errno::Dquot,
    Errno::Exist,
    Errno::Fbig,
    Errno::Ilseq,
    Errno::Inprogress,
    Errno::Intr,
    Errno::Inval,
    Errno::Io,
    Errno::Isdir,
    Errno::Loop,
    Errno::Mlink,
    Errno::Msgsize,
    Errno::Nametoolong,
    Errno::Nodev,
    Errno::Noent,
    Errno::Nolck,
    Errno::Nomem,
    Errno::Nospc,
    Errno::Notdir,
    Errno::Notempty,
    Errno::Notrecoverable,
    Errno::Notsock,
    Errno::Notsup,
    Errno::Notty,
    Errno::Nxio,
    Errno::Overflow,
    Errno::Perm,
    Errno::Pipe,
    Errno::Rofs,
    Errno::Spipe,
    Errno::Txtbsy,
    Errno::Xdev,
];

// The number of the error of this name.
fn errno_number(name: &str) -> Option<u16> {
    for errno in ERRNOS.iter() {
        if errno.name() == name {
            return Some(errno.number());
        }
    }
    None
}

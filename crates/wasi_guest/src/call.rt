//! The calls of a guest.

/// A call of preview1 with its arguments as raw numbers, in the order of `wasi_snapshot_preview1`. A pair of a name and
/// that name with `_len`, as `path` and `path_len`, is the address and the length of a text or a buffer in the guest's
/// memory.
#[derive(Clone, Copy)]
pub enum Call {
    ArgsGet {
        argv: u32,
        argv_buf: u32,
    },
    ArgsSizesGet,
    EnvironGet {
        environ: u32,
        environ_buf: u32,
    },
    EnvironSizesGet,
    ClockResGet {
        id: u32,
    },
    ClockTimeGet {
        id: u32,
        precision: u64,
    },
    FdAdvise {
        fd: u32,
        offset: u64,
        len: u64,
        advice: u32,
    },
    FdAllocate {
        fd: u32,
        offset: u64,
        len: u64,
    },
    FdClose {
        fd: u32,
    },
    FdDatasync {
        fd: u32,
    },
    FdSync {
        fd: u32,
    },
    FdFdstatGet {
        fd: u32,
    },
    FdFdstatSetFlags {
        fd: u32,
        flags: u32,
    },
    FdFdstatSetRights {
        fd: u32,
        base: u64,
        inheriting: u64,
    },
    FdFilestatGet {
        fd: u32,
    },
    FdFilestatSetSize {
        fd: u32,
        size: u64,
    },
    FdFilestatSetTimes {
        fd: u32,
        atim: u64,
        mtim: u64,
        fst_flags: u32,
    },
    FdPread {
        fd: u32,
        iovs: u32,
        iovs_len: u32,
        offset: u64,
    },
    FdPrestatGet {
        fd: u32,
    },
    FdPrestatDirName {
        fd: u32,
        path: u32,
        path_len: u32,
    },
    FdPwrite {
        fd: u32,
        iovs: u32,
        iovs_len: u32,
        offset: u64,
    },
    FdRead {
        fd: u32,
        iovs: u32,
        iovs_len: u32,
    },
    /// The cookie says how many records of the listing are passed over.
    FdReaddir {
        fd: u32,
        buf: u32,
        buf_len: u32,
        cookie: u64,
    },
    FdRenumber {
        from: u32,
        to: u32,
    },
    /// The offset counts from what `whence` names.
    FdSeek {
        fd: u32,
        offset: i64,
        whence: u32,
    },
    FdTell {
        fd: u32,
    },
    FdWrite {
        fd: u32,
        iovs: u32,
        iovs_len: u32,
    },
    PathCreateDirectory {
        fd: u32,
        path: u32,
        path_len: u32,
    },
    PathFilestatGet {
        fd: u32,
        flags: u32,
        path: u32,
        path_len: u32,
    },
    PathFilestatSetTimes {
        fd: u32,
        flags: u32,
        path: u32,
        path_len: u32,
        atim: u64,
        mtim: u64,
        fst_flags: u32,
    },
    PathLink {
        old_fd: u32,
        old_flags: u32,
        old_path: u32,
        old_path_len: u32,
        new_fd: u32,
        new_path: u32,
        new_path_len: u32,
    },
    PathOpen {
        fd: u32,
        dirflags: u32,
        path: u32,
        path_len: u32,
        oflags: u32,
        base: u64,
        inheriting: u64,
        fdflags: u32,
    },
    PathReadlink {
        fd: u32,
        path: u32,
        path_len: u32,
        buf: u32,
        buf_len: u32,
    },
    PathRemoveDirectory {
        fd: u32,
        path: u32,
        path_len: u32,
    },
    PathUnlinkFile {
        fd: u32,
        path: u32,
        path_len: u32,
    },
    PathRename {
        old_fd: u32,
        old_path: u32,
        old_path_len: u32,
        new_fd: u32,
        new_path: u32,
        new_path_len: u32,
    },
    /// The old path is the text that the new link gets.
    PathSymlink {
        old_path: u32,
        old_path_len: u32,
        fd: u32,
        new_path: u32,
        new_path_len: u32,
    },
    /// So many subscriptions stand at one address, and the events of those that are ready are put at another.
    PollOneoff {
        subscriptions: u32,
        events: u32,
        count: u32,
    },
    ProcExit {
        status: u32,
    },
    ProcRaise {
        signal: u32,
    },
    RandomGet {
        buf: u32,
        buf_len: u32,
    },
    SchedYield,
    SockAccept {
        fd: u32,
        flags: u32,
    },
    SockRecv {
        fd: u32,
        iovs: u32,
        iovs_len: u32,
        ri_flags: u32,
    },
    SockSend {
        fd: u32,
        iovs: u32,
        iovs_len: u32,
        si_flags: u32,
    },
    SockShutdown {
        fd: u32,
        how: u32,
    },
}

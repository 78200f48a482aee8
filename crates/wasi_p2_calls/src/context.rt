//! What a guest's files are: a host, the directories that the guest is given, a table; and a view that is lent both.

use std::alloc::Global;
use wasi_fs::Dir;
use wasi_host::{Host, SystemTime};
use wasi_streams::ResourceTable;

/// A directory that a guest is given, and the name by which the guest knows it.
#[derive(Drop)]
pub struct Preopen {
    pub dir: Dir,
    pub name: String,
}

/// A host with the directories that a guest is given of it, what the clock stands at for calls that set times, and the
/// allocator that walks take memory from: the crate's `WasiFilesystemCtx`.
#[derive(Drop)]
pub struct WasiFilesystemCtx<H: Host> {
    pub alloc: Global,
    pub host: H,
    pub preopens: Vec<Preopen>,
    pub now: SystemTime,
}

/// A context and a table, lent for some calls: the crate's `WasiFilesystemCtxView`. The handles of the preopens and of
/// the table's entries are to be live, each in one place only, which each call keeps.
#[derive(Drop)]
pub struct WasiFilesystemCtxView<'a, H: Host> {
    pub ctx: &'a mut WasiFilesystemCtx<H>,
    pub table: &'a mut ResourceTable,
}

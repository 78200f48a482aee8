//! A host that fails at listed calls.
ghost use Rattle.std.specs.Prelude.{◌≡◌, IsTrue};
ghost use Rattle.wasi_host_faults.specs.Faults.{numbers_rise, counted, fates_of, others_of};

use crate::fault::Fault;
use crate::schedule::Schedule;
use std::alloc::Global;
use std::marker::Model;
use wasi_host::{
    Advice, DirEntry, ErrorCode, Forget, Handle, Host, HostError, InjectedFault, Metadata,
    OpenOptions, SyncFlags, SystemTime,
};
use wasi_paths::Name;

const FAILED: HostError = HostError::Code(ErrorCode::Io);

/// What becomes of a call: it is made of the inner host, or it fails with this error, made first or not.
macro_rules! by_fate {
    ($host:ident, $call:ident($($argument:expr),*), $error:expr) => {
        match $host.schedule.next() {
            InjectedFault::Passes => $host.inner.$call($($argument),*),
            InjectedFault::FailsBefore => Err($error),
            InjectedFault::FailsAfter => {
                let _ = $host.inner.$call($($argument),*);
                Err($error)
            }
        }
    };
}

/// A host over another one, which fails at listed calls. Each call but `dup` and `close` has a number, from 1 on; one
/// after that of number 2^64 - 1 has none. A listed call answers `Io`, and the count of faults rises by one; it isn't
/// made, or it is made first and its answer lost: no byte that it read is kept, and a handle that it gave is closed.
/// All other calls are those of the inner host. It is modelled where that one is. Contracts see the inner host, the
/// list, and how many calls came.
#[derive(Debug, Drop)]
pub struct FailAt<H: Host> {
    inner: H,
    schedule: Schedule,
}

impl<H: Host> Model for FailAt<H> {
    ghost use Rattle.wasi_host_faults.specs.Faults.{Failing};

    ghost Value = { Failing H };

    ghost view = { λ s. record { inner = s.inner; calls = s.schedule } };
}

impl<H: Host> FailAt<H> {
    /// A host that fails at these calls, whose numbers rise from 1 or more on; none came yet.
    pub fn new(inner: H, faults: Vec<Fault>) -> FailAt<H>
        requires rising { IsTrue (numbers_rise faults.items) }
        ensures inner { result.inner ≡ inner }
        ensures calls { result.calls ≡ record { faults = faults.items; calls = 0 } }
    {
        FailAt {
            inner,
            schedule: Schedule::new(faults),
        }
    }

    /// The inner host.
    pub fn inner(&self) -> &H
        ensures inner { result.now ≡ self.now.inner }
    {
        &self.inner
    }
}

#[tactic(auto, using(crate::proofs::Fating::fate_rules))]
impl<H: Host> Host for FailAt<H> {
    ghost faults = { λ s. counted (H.faults s.inner) s.calls };

    ghost live = { λ s. H.live s.inner };

    ghost lookups = { λ s. H.lookups s.inner };

    ghost modelled = { H.modelled };

    ghost model = { λ s. H.model s.inner };

    ghost fails_modelled = { H.fails_modelled };

    ghost fails = { λ s. fates_of (H.fails s.inner) s.calls };

    ghost found_modelled = { H.found_modelled };

    ghost others = { λ s. others_of (H.others s.inner) s.calls };

    ghost found = { λ s. H.found s.inner };

    ghost left = { λ s. H.left s.inner };

    fn open_at(
        &mut self,
        start: Handle,
        name: Name<'_>,
        options: &OpenOptions,
    ) -> Result<Handle, HostError> {
        match self.schedule.next() {
            InjectedFault::Passes => self.inner.open_at(start, name, options),
            InjectedFault::FailsBefore => Err(FAILED),
            InjectedFault::FailsAfter => match self.inner.open_at(start, name, options) {
                Ok(handle) => {
                    self.inner.close(handle);
                    Err(FAILED)
                }
                Err(_) => Err(FAILED),
            },
        }
    }

    fn stat_at(&mut self, start: Handle, name: Name<'_>) -> Result<Metadata, HostError> {
        by_fate!(self, stat_at(start, name), FAILED)
    }

    fn read_link_at(
        &mut self,
        alloc: Global,
        start: Handle,
        name: Name<'_>,
    ) -> Result<String, HostError> {
        by_fate!(self, read_link_at(alloc, start, name), FAILED)
    }

    fn make_dir_at(&mut self, start: Handle, name: Name<'_>) -> Result<(), HostError> {
        by_fate!(self, make_dir_at(start, name), FAILED)
    }

    fn symlink_at(&mut self, target: &str, start: Handle, name: Name<'_>) -> Result<(), HostError> {
        by_fate!(self, symlink_at(target, start, name), FAILED)
    }

    fn link_at(
        &mut self,
        old: Handle,
        old_name: Name<'_>,
        new: Handle,
        new_name: Name<'_>,
    ) -> Result<(), HostError> {
        by_fate!(self, link_at(old, old_name, new, new_name), FAILED)
    }

    fn rename_at(
        &mut self,
        old: Handle,
        old_name: Name<'_>,
        new: Handle,
        new_name: Name<'_>,
        requires_dir: bool,
    ) -> Result<(), HostError> {
        by_fate!(
            self,
            rename_at(old, old_name, new, new_name, requires_dir),
            FAILED
        )
    }

    fn unlink_at(&mut self, start: Handle, name: Name<'_>) -> Result<(), HostError> {
        by_fate!(self, unlink_at(start, name), FAILED)
    }

    fn remove_dir_at(&mut self, start: Handle, name: Name<'_>) -> Result<(), HostError> {
        by_fate!(self, remove_dir_at(start, name), FAILED)
    }

    fn times_at(
        &mut self,
        start: Handle,
        name: Name<'_>,
        atime: Option<SystemTime>,
        mtime: Option<SystemTime>,
    ) -> Result<(), HostError> {
        by_fate!(self, times_at(start, name, atime, mtime), FAILED)
    }

    fn list(&mut self, alloc: Global, directory: Handle) -> Result<Vec<DirEntry>, HostError> {
        by_fate!(self, list(alloc, directory), FAILED)
    }

    fn dup(&mut self, handle: Handle) -> Result<Handle, HostError> {
        self.inner.dup(handle)
    }

    fn access(&mut self, directory: Handle) -> Result<(), ErrorCode> {
        by_fate!(self, access(directory), ErrorCode::Io)
    }

    fn stat(&mut self, handle: Handle) -> Result<Metadata, ErrorCode> {
        by_fate!(self, stat(handle), ErrorCode::Io)
    }

    fn set_times(
        &mut self,
        handle: Handle,
        atime: Option<SystemTime>,
        mtime: Option<SystemTime>,
    ) -> Result<(), ErrorCode> {
        by_fate!(self, set_times(handle, atime, mtime), ErrorCode::Io)
    }

    fn pread(&mut self, file: Handle, buf: &mut [u8], offset: u64) -> Result<usize, ErrorCode> {
        match self.schedule.next() {
            InjectedFault::Passes => self.inner.pread(file, buf, offset),
            InjectedFault::FailsBefore => Err(ErrorCode::Io),
            InjectedFault::FailsAfter => {
                let _ = self.inner.pread(file, &mut [], offset);
                Err(ErrorCode::Io)
            }
        }
    }

    fn pwrite(&mut self, file: Handle, piece: &[u8], offset: u64) -> Result<usize, HostError> {
        by_fate!(self, pwrite(file, piece, offset), FAILED)
    }

    fn append(&mut self, file: Handle, piece: &[u8]) -> Result<usize, HostError> {
        by_fate!(self, append(file, piece), FAILED)
    }

    fn set_size(&mut self, file: Handle, size: u64) -> Result<(), HostError> {
        by_fate!(self, set_size(file, size), FAILED)
    }

    fn sync(&mut self, handle: Handle) -> Result<(), ErrorCode> {
        by_fate!(self, sync(handle), ErrorCode::Io)
    }

    fn advise(
        &mut self,
        file: Handle,
        offset: u64,
        len: u64,
        advice: Advice,
    ) -> Result<(), ErrorCode> {
        by_fate!(self, advise(file, offset, len, advice), ErrorCode::Io)
    }

    fn flags(&mut self, handle: Handle) -> Result<SyncFlags, ErrorCode> {
        by_fate!(self, flags(handle), ErrorCode::Io)
    }

    fn close(&mut self, handle: Handle) {
        self.inner.close(handle);
    }

    fn laws(&self) {
        self.inner.laws();
    }
}

#[tactic(auto, using(crate::proofs::Fating::forget_rules))]
impl<H: Forget> Forget for FailAt<H> {
    fn forget(&mut self) {
        self.inner.forget();
    }
}

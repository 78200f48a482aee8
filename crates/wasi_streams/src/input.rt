//! Streams that read a file.
ghost use Rattle.std.specs.Prelude.{◌≡◌, ◌+◌, ◌⊎◌, true, IsTrue, Some, IfOk, OnErr, min};
ghost use Rattle.std.specs.Result.{result_map_both};
ghost use Rattle.std.specs.FinSet.{contains, remove};
ghost use Rattle.wasi_host.specs.HostCall.{Dup, Close};
ghost use Rattle.wasi_host.specs.HostLaws.{HasCause, LiveGot, LoggedGot, RefinesCall, answered};
ghost use Rattle.wasi_streams.specs.Input.{ReadReply, performed, taken, wanted, waits, ready_spec, blocking_read_spec, moved_by};
ghost use Rattle.wasi_streams.specs.Reading.{host_seen, HasRead, GivesAs, FollowsRead, ready_of};

use crate::StreamError;
use bytes::Bytes;
use std::alloc::{AllocError, Global};
use std::marker::Model;
use wasi_fs::File;
use wasi_host::{ErrorCode, Handle, Host, HostError, LookKind};

/// The most bytes that one read of a file or a stream asks for.
pub const MAX_READ_SIZE_ALLOC: usize = 65_536;

/// How many bytes `ready` reads ahead where nothing was asked for.
const READY_SIZE: usize = 4096;

/// How the read of an input stream stands.
#[derive(Drop)]
pub enum ReadState {
    /// None was asked for.
    Idle,
    /// One of so many bytes was asked for, and isn't made.
    Waiting(usize),
    /// One was made, and these bytes of it are left.
    DataAvailable(Bytes),
    /// One was refused, which wasn't told yet.
    Error(ErrorCode),
    /// No more are made.
    Closed,
}

impl ReadState {
    /// How a read stands once it is made: no bytes are the end of the file.
    fn of(reply: Result<Bytes, ErrorCode>) -> ReadState
        ensures { result ≡ performed reply }
    {
        match reply {
            Ok(bytes) => {
                if bytes.is_empty() {
                    ReadState::Closed
                } else {
                    ReadState::DataAvailable(bytes)
                }
            }
            Err(code) => ReadState::Error(code),
        }
    }

    /// Of how many bytes a read is to be made, of so many where none was asked for.
    fn wanted(&self, size: usize) -> Option<usize>
        ensures { result ≡ wanted self.now size }
    {
        match self {
            ReadState::Idle => Some(size),
            ReadState::Waiting(more) => Some(*more),
            ReadState::DataAvailable(_) => None,
            ReadState::Error(_) => None,
            ReadState::Closed => None,
        }
    }

    /// Gives the first of the bytes that are there, at most so many.
    fn take(&mut self, size: usize) -> Result<Bytes, StreamError>
        ensures specified { GivesAs (taken self.old size) self.old result self.new }
    {
        match self {
            ReadState::Idle => {
                if size != 0 {
                    *self = ReadState::Waiting(size);
                }
                Ok(Bytes::new())
            }
            ReadState::Waiting(_) => Ok(Bytes::new()),
            ReadState::DataAvailable(bytes) => {
                let front = bytes.split_to(size.min(bytes.len()))?;
                if bytes.is_empty() {
                    *self = ReadState::Idle;
                }
                Ok(front)
            }
            ReadState::Error(code) => {
                let code = *code;
                *self = ReadState::Closed;
                Err(StreamError::LastOperationFailed(code))
            }
            ReadState::Closed => Err(StreamError::Closed),
        }
    }
}

/// A stream of a file's bytes from an offset on: the crate's `FileInputStream`. Contracts see the handle that it reads
/// from, the offset of the next byte that it gives, and how its read stands. Let go, it leaves its handle live: `close`
/// closes it.
#[derive(Drop)]
pub struct FileInputStream {
    alloc: Global,
    file: Handle,
    position: u64,
    state: ReadState,
}

impl Model for FileInputStream {
    ghost use Rattle.wasi_streams.specs.Input.{Input, IsInput};

    ghost Value = { Input };

    ghost view = { λ s. record { file = s.file; position = s.position; state = s.state } };

    ghost invariant = { λ s. IsInput s.position s.state };
}

/// One read of a file from an offset on. Memory may be wanted before it and after it.
fn read_at<H: Host>(
    alloc: Global,
    host: &mut H,
    file: Handle,
    position: u64,
    size: usize,
) -> Result<Result<Bytes, ErrorCode>, AllocError>
    requires live { contains (H.live host.old) file ≡ true }
    ensures live { H.live host.new ≡ H.live host.old }
    ensures reads { IfOk result (HasRead H.modelled
        (host_seen H.faults H.live H.lookups H.model host.old)
        (host_seen H.faults H.live H.lookups H.model host.new)
        file position size) }
    ensures wants { OnErr result ((host.new ≡ host.old) ⊎ ((reply : ReadReply) × HasRead H.modelled
        (host_seen H.faults H.live H.lookups H.model host.old)
        (host_seen H.faults H.live H.lookups H.model host.new)
        file position size reply)) }
{
    let mut buffer = vec![in alloc; 0; size.min(MAX_READ_SIZE_ALLOC)]?;
    let count = match host.pread(file, &mut buffer, position) {
        Ok(count) => count,
        Err(code) => return Ok(Err(code)),
    };
    buffer.truncate(count);
    Ok(Ok(Bytes::from_vec(buffer)?))
}

impl FileInputStream {
    /// A stream from an offset on, over a handle of its own of the same file.
    pub fn new<H: Host>(
        alloc: Global,
        host: &mut H,
        file: &File,
        position: u64,
    ) -> Result<FileInputStream, HostError>
        requires live { contains (H.live host.old) file.now.file ≡ true }
        ensures cause { HasCause (H.faults host.old) (H.faults host.new) result }
        ensures live { LiveGot (H.live host.old) (result_map_both (λ s. s.file) (λ e. e) result) (H.live host.new) }
        ensures logged { LoggedGot (H.live host.old) (H.lookups host.old) LookKind.Dup file.now.file
            (result_map_both (λ s. s.file) (λ e. e) result) (H.lookups host.new) }
        ensures position { IfOk result (λ s. s.position ≡ position) }
        ensures state { IfOk result (λ s. s.state ≡ ReadState.Idle) }
        ensures modelled { IsTrue H.modelled → RefinesCall (H.live host.old) (H.live host.new) (H.model host.old) (H.model host.new)
            (Dup ((H.model host.old).held file.now.file)) (λ s. (H.model host.new).held s.file) result }
    {
        let file = host.dup(file.file)?;
        Ok(FileInputStream {
            alloc,
            file,
            position,
            state: ReadState::Idle,
        })
    }

    /// The first of the bytes that are there, at most so many; where nothing was read, none, and a read of so many, if
    /// any, is asked for. A code that a read was refused with is told once.
    pub fn read(&mut self, size: usize) -> Result<Bytes, StreamError>
        ensures file { self.new.file ≡ self.old.file }
        ensures specified { GivesAs (taken self.old.state size) self.old.state result self.new.state }
        ensures position { self.new.position ≡ self.old.position + moved_by result }
    {
        let bytes = self.state.take(size)?;
        self.position += bytes.len() as u64;
        Ok(bytes)
    }

    /// Makes the read that was asked for, or else one of 4,096 bytes, unless bytes or a code are left, or it is closed.
    pub fn ready<H: Host>(&mut self, host: &mut H) -> Result<(), AllocError>
        requires live { contains (H.live host.old) self.old.file ≡ true }
        ensures file { self.new.file ≡ self.old.file }
        ensures position { self.new.position ≡ self.old.position }
        ensures live { H.live host.new ≡ H.live host.old }
        ensures specified { FollowsRead (host.new ≡ host.old) (HasRead H.modelled
            (host_seen H.faults H.live H.lookups H.model host.old)
            (host_seen H.faults H.live H.lookups H.model host.new)
            self.old.file self.old.position)
            (waits self.old.state) (ready_spec self.old.state) (ready_of result) self.new.state }
    {
        let Some(size) = self.state.wanted(READY_SIZE) else {
            return Ok(());
        };
        self.state = ReadState::Waiting(size);
        let reply = read_at(self.alloc, host, self.file, self.position, size)?;
        self.state = ReadState::of(reply);
        Ok(())
    }

    /// Makes the read that was asked for, or else one of so many bytes, unless bytes or a code are left, or it is
    /// closed; and gives the first of the bytes. No bytes at all are the end: `Closed`.
    pub fn blocking_read<H: Host>(
        &mut self,
        host: &mut H,
        size: usize,
    ) -> Result<Bytes, StreamError>
        requires live { contains (H.live host.old) self.old.file ≡ true }
        ensures file { self.new.file ≡ self.old.file }
        ensures position { self.new.position ≡ self.old.position + moved_by result }
        ensures live { H.live host.new ≡ H.live host.old }
        ensures specified { FollowsRead (host.new ≡ host.old) (HasRead H.modelled
            (host_seen H.faults H.live H.lookups H.model host.old)
            (host_seen H.faults H.live H.lookups H.model host.new)
            self.old.file self.old.position)
            self.old.state (blocking_read_spec self.old.state size) result self.new.state }
    {
        let Some(more) = self.state.wanted(size) else {
            return self.read(size);
        };
        let reply = read_at(self.alloc, host, self.file, self.position, more)?;
        let mut state = ReadState::of(reply);
        match state.take(size) {
            Ok(bytes) => {
                self.position += bytes.len() as u64;
                self.state = state;
                Ok(bytes)
            }
            Err(StreamError::Memory) => Err(StreamError::Memory),
            Err(error) => {
                self.state = state;
                Err(error)
            }
        }
    }

    /// Gives the stream up: a read that was asked for isn't made.
    pub fn cancel(&mut self)
        ensures file { self.new.file ≡ self.old.file }
        ensures position { self.new.position ≡ self.old.position }
        ensures state { self.new.state ≡ ReadState.Closed }
    {
        self.state = ReadState::Closed;
    }

    /// Closes the stream's handle.
    pub fn close<H: Host>(self, host: &mut H)
        requires live { contains (H.live host.old) self.file ≡ true }
        ensures faults { H.faults host.new ≡ H.faults host.old }
        ensures live { H.live host.new ≡ remove (H.live host.old) self.file }
        ensures logged { H.lookups host.new ≡ H.lookups host.old }
        ensures modelled { IsTrue H.modelled → RefinesCall (H.live host.old) (H.live host.new) (H.model host.old) (H.model host.new)
            Close (λ unit. unit) answered }
    {
        host.close(self.file);
    }
}

//! Streams that write a file.
ghost use Rattle.std.specs.Prelude.{◌≡◌, ◌<◌, ◌^◌, true, IsTrue, IfOk};
ghost use Rattle.std.specs.Result.{result_map_both};
ghost use Rattle.std.specs.FinSet.{contains, remove};
ghost use Rattle.wasi_host.specs.HostCall.{Dup, Close};
ghost use Rattle.wasi_host.specs.HostLaws.{HasCause, LiveGot, LoggedGot, RefinesCall, answered};
ghost use Rattle.wasi_streams.specs.Output.{stands_after, write_made, write_spec, flush_spec, check_write_spec, ready_write_spec, blocking_write_spec};
ghost use Rattle.wasi_streams.specs.Reading.{host_seen, ready_of};
ghost use Rattle.wasi_streams.specs.Writing.{behind, stopped, IsInside, Puts, WritesAll, FollowsWrite};

use crate::{StreamError, StreamTrap};
use bytes::Bytes;
use std::alloc::{AllocError, Global};
use std::marker::Model;
use std::mem;
use wasi_fs::File;
use wasi_host::{ErrorCode, Handle, Host, HostError, LookKind};

/// The most bytes that one `write` takes.
const FILE_WRITE_CAPACITY: usize = 65_536;

/// Where an output stream puts its bytes: the crate's `FileOutputMode`.
#[derive(Clone, Copy, Debug, PartialEq, Eq)]
pub enum FileOutputMode {
    /// From this offset on, which rises by what is taken.
    Position(u64),
    /// Behind the last byte that the file then has.
    Append,
}

impl FileOutputMode {
    /// Where the next byte goes, so many bytes later.
    fn behind(self, count: usize) -> FileOutputMode
        requires inside { IsInside self }
        requires count { count < 2 ^ 63 }
        ensures { result ≡ behind self count }
    {
        match self {
            FileOutputMode::Position(offset) => FileOutputMode::Position(offset + count as u64),
            FileOutputMode::Append => FileOutputMode::Append,
        }
    }
}

/// How the write of an output stream stands.
#[derive(Drop)]
pub enum OutputState {
    /// None is to be made.
    Ready,
    /// One of these bytes was asked for, and isn't made.
    Waiting(Bytes),
    /// One was refused, which wasn't told yet.
    Error(ErrorCode),
    /// No more are made.
    Closed,
}

impl OutputState {
    /// How a write stands once a call of the host took so many of so many bytes; None where it goes on.
    fn after(taken: usize, all: usize) -> Option<OutputState>
        ensures { result ≡ stands_after taken all }
    {
        if taken == all {
            return Some(OutputState::Ready);
        }
        if taken == 0 {
            return Some(OutputState::Error(ErrorCode::Io));
        }
        None
    }

    /// How a write stands that was refused, with what isn't taken.
    fn stopped(error: HostError, rest: Bytes) -> OutputState
        ensures { result ≡ stopped error rest }
    {
        match error {
            HostError::Code(code) => OutputState::Error(code),
            HostError::Memory => OutputState::Waiting(rest),
        }
    }

    /// Whether a write was made, unless memory ran out.
    fn made(&self) -> Result<(), AllocError>
        ensures { (ready_of result, self.now) ≡ write_made self.now }
    {
        match self {
            OutputState::Ready => Ok(()),
            OutputState::Waiting(_) => Err(AllocError),
            OutputState::Error(_) => Ok(()),
            OutputState::Closed => Ok(()),
        }
    }

    /// Whether writing goes on: a code that a write was refused with is told once.
    fn tell(&mut self) -> Result<(), StreamError>
        ensures specified { (result, self.new) ≡ flush_spec self.old }
    {
        match self {
            OutputState::Ready => Ok(()),
            OutputState::Waiting(_) => Ok(()),
            OutputState::Error(code) => {
                let code = *code;
                *self = OutputState::Closed;
                Err(StreamError::LastOperationFailed(code))
            }
            OutputState::Closed => Err(StreamError::Closed),
        }
    }
}

/// A stream of bytes into a file, from an offset on or after its last byte: the crate's `FileOutputStream`. Contracts
/// see the handle that it writes to, where its next byte goes, and how its write stands. Let go, it leaves its handle
/// live: `close` closes it.
#[derive(Drop)]
pub struct FileOutputStream {
    file: Handle,
    mode: FileOutputMode,
    state: OutputState,
}

impl Model for FileOutputStream {
    ghost use Rattle.wasi_streams.specs.Output.{Output};

    ghost Value = { Output };

    ghost view = { λ s. record { file = s.file; mode = s.mode; state = s.state } };
}

/// Asks the host once to put a piece into a file.
fn put<H: Host>(
    host: &mut H,
    file: Handle,
    piece: &Bytes,
    mode: FileOutputMode,
) -> Result<usize, HostError>
    requires live { contains (H.live host.old) file ≡ true }
    ensures live { H.live host.new ≡ H.live host.old }
    ensures puts { Puts H.modelled file (host_seen H.faults H.live H.lookups H.model host.old)
        (host_seen H.faults H.live H.lookups H.model host.new) mode piece.now result }
{
    match mode {
        FileOutputMode::Position(offset) => host.pwrite(file, piece.as_slice(), offset),
        FileOutputMode::Append => host.append(file, piece.as_slice()),
    }
}

/// Writes a piece into a file: the host is asked at least once, and until all is taken. It gives where the byte after
/// what was taken goes, and how the write stands.
fn write_all<H: Host>(
    host: &mut H,
    file: Handle,
    mode: FileOutputMode,
    piece: Bytes,
) -> (FileOutputMode, OutputState)
    requires live { contains (H.live host.old) file ≡ true }
    ensures live { H.live host.new ≡ H.live host.old }
    ensures writes { WritesAll H.modelled file (host_seen H.faults H.live H.lookups H.model host.old) mode piece
        (host_seen H.faults H.live H.lookups H.model host.new) result.0 result.1 }
{
    let mut at = mode;
    let mut rest = piece;
    loop {
        let count = match put(host, file, &rest, at) {
            Ok(count) => count,
            Err(error) => return (at, OutputState::stopped(error, rest)),
        };
        let end = OutputState::after(count, rest.len());
        at = at.behind(count);
        match end {
            Some(state) => return (at, state),
            None => rest.advance(count),
        }
    }
}

impl FileOutputStream {
    /// A stream from an offset on, over a handle of its own of the same file: the crate's `write_at`. A write that
    /// waits takes no memory of its own, so the allocator isn't used.
    pub fn write_at<H: Host>(
        _alloc: Global,
        host: &mut H,
        file: &File,
        position: u64,
    ) -> Result<FileOutputStream, HostError>
        requires live { contains (H.live host.old) file.now.file ≡ true }
        ensures cause { HasCause (H.faults host.old) (H.faults host.new) result }
        ensures live { LiveGot (H.live host.old) (result_map_both (λ s. s.file) (λ e. e) result) (H.live host.new) }
        ensures logged { LoggedGot (H.live host.old) (H.lookups host.old) LookKind.Dup file.now.file
            (result_map_both (λ s. s.file) (λ e. e) result) (H.lookups host.new) }
        ensures mode { IfOk result (λ s. s.mode ≡ FileOutputMode.Position position) }
        ensures state { IfOk result (λ s. s.state ≡ OutputState.Ready) }
        ensures modelled { IsTrue H.modelled → RefinesCall (H.live host.old) (H.live host.new) (H.model host.old) (H.model host.new)
            (Dup ((H.model host.old).held file.now.file)) (λ s. (H.model host.new).held s.file) result }
    {
        FileOutputStream::over(host, file, FileOutputMode::Position(position))
    }

    /// The same after the file's last byte, wherever that is at each write: the crate's `append`.
    pub fn append<H: Host>(
        _alloc: Global,
        host: &mut H,
        file: &File,
    ) -> Result<FileOutputStream, HostError>
        requires live { contains (H.live host.old) file.now.file ≡ true }
        ensures cause { HasCause (H.faults host.old) (H.faults host.new) result }
        ensures live { LiveGot (H.live host.old) (result_map_both (λ s. s.file) (λ e. e) result) (H.live host.new) }
        ensures logged { LoggedGot (H.live host.old) (H.lookups host.old) LookKind.Dup file.now.file
            (result_map_both (λ s. s.file) (λ e. e) result) (H.lookups host.new) }
        ensures mode { IfOk result (λ s. s.mode ≡ FileOutputMode.Append) }
        ensures state { IfOk result (λ s. s.state ≡ OutputState.Ready) }
        ensures modelled { IsTrue H.modelled → RefinesCall (H.live host.old) (H.live host.new) (H.model host.old) (H.model host.new)
            (Dup ((H.model host.old).held file.now.file)) (λ s. (H.model host.new).held s.file) result }
    {
        FileOutputStream::over(host, file, FileOutputMode::Append)
    }

    /// The same where the mode says: a stream that `write_at` or `append` makes. Refusals: those of a host's `dup`.
    pub fn over<H: Host>(
        host: &mut H,
        file: &File,
        mode: FileOutputMode,
    ) -> Result<FileOutputStream, HostError>
        requires live { contains (H.live host.old) file.now.file ≡ true }
        ensures cause { HasCause (H.faults host.old) (H.faults host.new) result }
        ensures live { LiveGot (H.live host.old) (result_map_both (λ s. s.file) (λ e. e) result) (H.live host.new) }
        ensures logged { LoggedGot (H.live host.old) (H.lookups host.old) LookKind.Dup file.now.file
            (result_map_both (λ s. s.file) (λ e. e) result) (H.lookups host.new) }
        ensures mode { IfOk result (λ s. s.mode ≡ mode) }
        ensures state { IfOk result (λ s. s.state ≡ OutputState.Ready) }
        ensures modelled { IsTrue H.modelled → RefinesCall (H.live host.old) (H.live host.new) (H.model host.old) (H.model host.new)
            (Dup ((H.model host.old).held file.now.file)) (λ s. (H.model host.new).held s.file) result }
    {
        let file = host.dup(file.file)?;
        Ok(FileOutputStream {
            file,
            mode,
            state: OutputState::Ready,
        })
    }

    /// Asks for a write of these bytes, which `ready` makes. The stream permits it where nothing waits, and of at most
    /// 65,536 bytes; to ask for another is a trap.
    pub fn write(&mut self, buf: Bytes) -> Result<(), StreamError>
        ensures file { self.new.file ≡ self.old.file }
        ensures mode { self.new.mode ≡ self.old.mode }
        ensures specified { (result, self.new.state) ≡ write_spec self.old.state buf }
    {
        match &self.state {
            OutputState::Ready => {
                if buf.len() > FILE_WRITE_CAPACITY {
                    return Err(StreamError::Trap(StreamTrap::Budget));
                }
                self.state = OutputState::Waiting(buf);
                Ok(())
            }
            OutputState::Waiting(_) => Err(StreamError::Trap(StreamTrap::NotPermitted)),
            OutputState::Error(_) => Err(StreamError::Trap(StreamTrap::NotPermitted)),
            OutputState::Closed => Err(StreamError::Closed),
        }
    }

    /// Tells once the code that a write was refused with, and makes none.
    pub fn flush(&mut self) -> Result<(), StreamError>
        ensures file { self.new.file ≡ self.old.file }
        ensures mode { self.new.mode ≡ self.old.mode }
        ensures specified { (result, self.new.state) ≡ flush_spec self.old.state }
    {
        self.state.tell()
    }

    /// Makes the write that was asked for.
    pub fn ready<H: Host>(&mut self, host: &mut H) -> Result<(), AllocError>
        requires live { contains (H.live host.old) self.old.file ≡ true }
        ensures file { self.new.file ≡ self.old.file }
        ensures live { H.live host.new ≡ H.live host.old }
        ensures specified { FollowsWrite H.modelled self.old.file (host_seen H.faults H.live H.lookups H.model host.old) self.old.mode
            (ready_write_spec self.old.state) (ready_of result)
            (host_seen H.faults H.live H.lookups H.model host.new) self.new.mode self.new.state }
    {
        match mem::replace(&mut self.state, OutputState::Ready) {
            OutputState::Waiting(piece) => {
                let (mode, state) = write_all(host, self.file, self.mode, piece);
                let made = state.made();
                self.mode = mode;
                self.state = state;
                made
            }
            other => {
                self.state = other;
                Ok(())
            }
        }
    }

    /// Makes the write that was asked for, if one was, and then one of these bytes. It tells once the code that a write
    /// was refused with.
    pub fn blocking_write_and_flush<H: Host>(
        &mut self,
        host: &mut H,
        buf: Bytes,
    ) -> Result<(), StreamError>
        requires live { contains (H.live host.old) self.old.file ≡ true }
        ensures file { self.new.file ≡ self.old.file }
        ensures live { H.live host.new ≡ H.live host.old }
        ensures specified { FollowsWrite H.modelled self.old.file (host_seen H.faults H.live H.lookups H.model host.old) self.old.mode
            (blocking_write_spec self.old.state buf) result
            (host_seen H.faults H.live H.lookups H.model host.new) self.new.mode self.new.state }
    {
        self.ready(host)?;
        self.state.tell()?;
        self.state = OutputState::Waiting(buf);
        self.ready(host)?;
        self.state.tell()
    }

    /// How many bytes `write` takes now. It tells once the code that a write was refused with.
    pub fn check_write(&mut self) -> Result<usize, StreamError>
        ensures file { self.new.file ≡ self.old.file }
        ensures mode { self.new.mode ≡ self.old.mode }
        ensures specified { (result, self.new.state) ≡ check_write_spec self.old.state }
    {
        self.state.tell()?;
        match &self.state {
            OutputState::Ready => Ok(FILE_WRITE_CAPACITY),
            _ => Ok(0),
        }
    }

    /// Gives the stream up: a write that was asked for isn't made.
    pub fn cancel(&mut self)
        ensures file { self.new.file ≡ self.old.file }
        ensures mode { self.new.mode ≡ self.old.mode }
        ensures state { self.new.state ≡ OutputState.Closed }
    {
        self.state = OutputState::Closed;
    }

    /// Closes the stream's handle.
    pub fn close<H: Host>(self, host: &mut H)
        requires live { contains (H.live host.old) self.file ≡ true }
        ensures faults { H.faults host.new ≡ H.faults host.old }
        ensures live { H.live host.new ≡ remove (H.live host.old) self.file }
        ensures logged { H.lookups host.new ≡ H.lookups host.old }
        ensures modelled { IsTrue H.modelled → RefinesCall (H.live host.old) (H.live host.new) (H.model host.old) (H.model host.new)
            Close (λ unit. unit) answered }
    {
        host.close(self.file);
    }
}

//! The calls on arguments, the environment, clocks, random bytes, polls, the process and sockets.
ghost use Rattle.wasi_guest.specs.declared.call.Call.TheVariants.{ArgsGet, ArgsSizesGet, ClockResGet, ClockTimeGet, EnvironGet, EnvironSizesGet, PollOneoff, ProcExit, ProcRaise, RandomGet, SchedYield, SockAccept, SockRecv, SockSend, SockShutdown};
ghost use Rattle.wasi_p1_model.specs.Method.{KeepsHostLaws, MeetsSpec};

use crate::ctx::WasiP1Ctx;
use wasi_guest::Value;
use wasi_host::Host;
use wasi_p1_env_calls::polling::poll_oneoff;
use wasi_p1_env_calls::services::{
    args_get, args_sizes_get, clock_res_get, clock_time_get, environ_get, environ_sizes_get,
    proc_exit, proc_raise, random_get, sched_yield, sock_accept, sock_recv, sock_send,
    sock_shutdown,
};
use wasi_p1_types::P1Error;

impl<H: Host> WasiP1Ctx<H> {
    /// Waits until one of a list of subscriptions comes, writes an event for each that has come, and answers how many.
    /// A subscription has 48 bytes, an event 32. Clocks move; no time passes in truth. Refusals: docs/calls.md.
    pub fn poll_oneoff(
        &mut self,
        memory: &mut [u8],
        subscriptions: u32,
        events: u32,
        count: u32,
    ) -> Result<Value, P1Error>
        ensures host_laws { KeepsHostLaws H.Host self.old self.new memory.old
            (PollOneoff subscriptions events count) result }
        ensures spec { MeetsSpec H.Host self.old self.new memory.old memory.new
            (PollOneoff subscriptions events count) result }
    {
        poll_oneoff(&mut self.state, memory, subscriptions, events, count)
    }

    /// Writes the addresses of the arguments from `argv` on, and their texts, each ended by a zero, from `argv_buf` on.
    /// Refusals: docs/calls.md.
    pub fn args_get(
        &mut self,
        memory: &mut [u8],
        argv: u32,
        argv_buf: u32,
    ) -> Result<Value, P1Error>
        ensures host_laws { KeepsHostLaws H.Host self.old self.new memory.old (ArgsGet argv argv_buf) result }
        ensures spec { MeetsSpec H.Host self.old self.new memory.old memory.new (ArgsGet argv argv_buf) result }
    {
        args_get(&mut self.state, memory, argv, argv_buf)
    }

    /// Answers how many arguments there are, and how many bytes their texts have with the zeros. Refusals:
    /// docs/calls.md.
    pub fn args_sizes_get(&mut self, memory: &mut [u8]) -> Result<Value, P1Error>
        ensures host_laws { KeepsHostLaws H.Host self.old self.new memory.old ArgsSizesGet result }
        ensures spec { MeetsSpec H.Host self.old self.new memory.old memory.new ArgsSizesGet result }
    {
        args_sizes_get(&mut self.state, memory)
    }

    /// Writes the environment as `args_get` writes arguments: each variable is a text `KEY=VALUE`. Refusals:
    /// docs/calls.md.
    pub fn environ_get(
        &mut self,
        memory: &mut [u8],
        environ: u32,
        environ_buf: u32,
    ) -> Result<Value, P1Error>
        ensures host_laws { KeepsHostLaws H.Host self.old self.new memory.old (EnvironGet environ environ_buf) result }
        ensures spec { MeetsSpec H.Host self.old self.new memory.old memory.new
            (EnvironGet environ environ_buf) result }
    {
        environ_get(&mut self.state, memory, environ, environ_buf)
    }

    /// Answers how many variables the environment has, and how many bytes their texts have with the zeros. Refusals:
    /// docs/calls.md.
    pub fn environ_sizes_get(&mut self, memory: &mut [u8]) -> Result<Value, P1Error>
        ensures host_laws { KeepsHostLaws H.Host self.old self.new memory.old EnvironSizesGet result }
        ensures spec { MeetsSpec H.Host self.old self.new memory.old memory.new EnvironSizesGet result }
    {
        environ_sizes_get(&mut self.state, memory)
    }

    /// Answers how far apart two moments of a clock are, in nanoseconds. Refusals: docs/calls.md.
    pub fn clock_res_get(&mut self, memory: &mut [u8], id: u32) -> Result<Value, P1Error>
        ensures host_laws { KeepsHostLaws H.Host self.old self.new memory.old (ClockResGet id) result }
        ensures spec { MeetsSpec H.Host self.old self.new memory.old memory.new (ClockResGet id) result }
    {
        clock_res_get(&mut self.state, memory, id)
    }

    /// Answers the time of a clock, in nanoseconds. The precision isn't used. Refusals: docs/calls.md.
    pub fn clock_time_get(
        &mut self,
        memory: &mut [u8],
        id: u32,
        precision: u64,
    ) -> Result<Value, P1Error>
        ensures host_laws { KeepsHostLaws H.Host self.old self.new memory.old (ClockTimeGet id precision) result }
        ensures spec { MeetsSpec H.Host self.old self.new memory.old memory.new (ClockTimeGet id precision) result }
    {
        clock_time_get(&mut self.state, memory, id, precision)
    }

    /// Ends the guest with a status below 126. Refusals: docs/calls.md.
    pub fn proc_exit(&mut self, memory: &mut [u8], status: u32) -> Result<Value, P1Error>
        ensures host_laws { KeepsHostLaws H.Host self.old self.new memory.old (ProcExit status) result }
        ensures spec { MeetsSpec H.Host self.old self.new memory.old memory.new (ProcExit status) result }
    {
        proc_exit(&mut self.state, memory, status)
    }

    /// Is refused, as the crate refuses it: no signal is raised. Refusals: docs/calls.md.
    pub fn proc_raise(&mut self, memory: &mut [u8], signal: u32) -> Result<Value, P1Error>
        ensures host_laws { KeepsHostLaws H.Host self.old self.new memory.old (ProcRaise signal) result }
        ensures spec { MeetsSpec H.Host self.old self.new memory.old memory.new (ProcRaise signal) result }
    {
        proc_raise(&mut self.state, memory, signal)
    }

    /// Writes the next random bytes into a buffer. Refusals: docs/calls.md.
    pub fn random_get(
        &mut self,
        memory: &mut [u8],
        buf: u32,
        buf_len: u32,
    ) -> Result<Value, P1Error>
        ensures host_laws { KeepsHostLaws H.Host self.old self.new memory.old (RandomGet buf buf_len) result }
        ensures spec { MeetsSpec H.Host self.old self.new memory.old memory.new (RandomGet buf buf_len) result }
    {
        random_get(&mut self.state, memory, buf, buf_len)
    }

    /// Does nothing.
    pub fn sched_yield(&mut self, memory: &mut [u8]) -> Result<Value, P1Error>
        ensures host_laws { KeepsHostLaws H.Host self.old self.new memory.old SchedYield result }
        ensures spec { MeetsSpec H.Host self.old self.new memory.old memory.new SchedYield result }
    {
        sched_yield(&mut self.state, memory)
    }

    /// Is refused: no descriptor is a socket. Refusals: docs/calls.md.
    pub fn sock_accept(&mut self, memory: &mut [u8], fd: u32, flags: u32) -> Result<Value, P1Error>
        ensures host_laws { KeepsHostLaws H.Host self.old self.new memory.old (SockAccept fd flags) result }
        ensures spec { MeetsSpec H.Host self.old self.new memory.old memory.new (SockAccept fd flags) result }
    {
        sock_accept(&mut self.state, memory, fd, flags)
    }

    /// Is refused: no descriptor is a socket. Refusals: docs/calls.md.
    pub fn sock_recv(
        &mut self,
        memory: &mut [u8],
        fd: u32,
        iovs: u32,
        iovs_len: u32,
        ri_flags: u32,
    ) -> Result<Value, P1Error>
        ensures host_laws { KeepsHostLaws H.Host self.old self.new memory.old (SockRecv fd iovs iovs_len ri_flags) result }
        ensures spec { MeetsSpec H.Host self.old self.new memory.old memory.new
            (SockRecv fd iovs iovs_len ri_flags) result }
    {
        sock_recv(&mut self.state, memory, fd, iovs, iovs_len, ri_flags)
    }

    /// Is refused: no descriptor is a socket. Refusals: docs/calls.md.
    pub fn sock_send(
        &mut self,
        memory: &mut [u8],
        fd: u32,
        iovs: u32,
        iovs_len: u32,
        si_flags: u32,
    ) -> Result<Value, P1Error>
        ensures host_laws { KeepsHostLaws H.Host self.old self.new memory.old (SockSend fd iovs iovs_len si_flags) result }
        ensures spec { MeetsSpec H.Host self.old self.new memory.old memory.new
            (SockSend fd iovs iovs_len si_flags) result }
    {
        sock_send(&mut self.state, memory, fd, iovs, iovs_len, si_flags)
    }

    /// Is refused: no descriptor is a socket. Refusals: docs/calls.md.
    pub fn sock_shutdown(&mut self, memory: &mut [u8], fd: u32, how: u32) -> Result<Value, P1Error>
        ensures host_laws { KeepsHostLaws H.Host self.old self.new memory.old (SockShutdown fd how) result }
        ensures spec { MeetsSpec H.Host self.old self.new memory.old memory.new (SockShutdown fd how) result }
    {
        sock_shutdown(&mut self.state, memory, fd, how)
    }
}

//! The environment of a guest: what it has besides its descriptors and its memory.
ghost use Rattle.std.specs.Prelude.{◌≡◌, ◌+◌, ◌-◌, ◌^◌, ◌≤◌, ◌<◌, ◌*◌, ◌%◌, ◌==◌, ◌&&◌, slice_index_or, slice_get, option_map, min, false, IsTrue, IfSome, Ok, IfOk, IfErr, OnOk, OnErr, map, length};
ghost use Rattle.wasi_p1_types.specs.CallParts.{WantsNoMemory, with_after, is_failure};
ghost use Rattle.std.specs.List.{range_with_len};
ghost use Rattle.std.specs.String.{string_bytes};
ghost use Rattle.std.specs.Result.{result_map_both};
ghost use Rattle.wasi_p1_types.specs.Services.{next_input, input_into, written, sizes_of, texts_at, with_text, with_texts, with_unit, total_of, clock_res, clock_time, moment_of, nanoseconds_of, random_bytes, random_taken};
ghost use Rattle.wasi_p1_types.specs.Polling.{clock_end, clocks_at, end_after, end_of, wall_later, with_clocks};
ghost use Rattle.wasi_p1_types.specs.Slots.{name_of_preopen};
ghost use Rattle.wasi_p1_types.specs.GuestEnvModel.{first_stock, env_text};
ghost use Rattle.std.specs.Int.{to_le_bytes, w32};
ghost use Rattle.wasi_guest.specs.Range.{IsInMemory, in_memory, with_bytes};
ghost use Rattle.wasi_guest.specs.Services.{env_pair, handed};
ghost use Rattle.wasi_guest.specs.Quotas.{IsQuota};
ghost use Rattle.wasi_p1_types.specs.Quotas.{allowance, counted_growth, counted_making, counted_makings, with_quota, IsWithinQuota};
ghost use Rattle.wasi_p1_types.specs.Spending.{may_be_done, may_make, on_outcome};

use crate::error::P1Error;
use crate::quotas::Allowance;
use crate::raw_numbers::INVALID;
use crate::slots::P1Preopen;
use std::alloc::{AllocError, Global};
use std::marker::Model;
use wasi_fs::OpenMode;
use wasi_guest::{
    Clockid, EnvPair, Errno, Flags, Iovec, Quota, QuotaUsed, Services, SubclockFlags, TrapKind,
    Value, WallDatetime, write_bytes,
};

/// What a guest has left of its environment, and what it has written to the two outputs.
#[derive(Debug, Drop)]
pub struct GuestEnv {
    /// The preopens, for their names.
    preopens: Vec<P1Preopen>,
    args: Vec<String>,
    environ: Vec<String>,
    stdin: Vec<u8>,
    /// How many bytes of the standard input were read.
    read: usize,
    stdout: Vec<u8>,
    stderr: Vec<u8>,
    wall: WallDatetime,
    wall_resolution: WallDatetime,
    monotonic: u64,
    monotonic_resolution: u64,
    random: Vec<u8>,
    /// The place of the next random byte.
    random_at: usize,
    /// How much the guest may make and grow in all, and how much of that is used.
    quota: Quota,
    used: QuotaUsed,
}

impl Model for GuestEnv {
    ghost use Rattle.std.specs.Prelude.{◌≤◌, ◌-◌, map, length, drop};
    ghost use Rattle.std.specs.String.{string_bytes};
    ghost use Rattle.wasi_p1_types.specs.Slots.{name_of_preopen};
    ghost use Rattle.wasi_p1_types.specs.GuestEnvModel.{GuestEnvModel};
    ghost use Rattle.wasi_p1_types.specs.Quotas.{IsWithinQuota};

    ghost Value = { GuestEnvModel };

    ghost view = { λ h. record {
      preopens = map name_of_preopen h.preopens.items;
      args = map string_bytes h.args.items;
      environ = map string_bytes h.environ.items;
      stdin = drop h.read h.stdin.items;
      stdout = h.stdout.items;
      stderr = h.stderr.items;
      wall = h.wall;
      wall_resolution = h.wall_resolution;
      monotonic = h.monotonic;
      monotonic_resolution = h.monotonic_resolution;
      random = h.random.items;
      random_at = h.random_at;
      quota = h.quota;
      used = h.used;
    } };

    ghost invariant = { λ h. (h.read ≤ length h.stdin.items) × (h.random_at ≤ length h.random.items - 1)
        × IsWithinQuota h.quota h.used };
}

/// What a guest wrote to its two outputs.
#[derive(Debug, Drop)]
pub struct Outputs {
    pub stdout: Vec<u8>,
    pub stderr: Vec<u8>,
}

/// What the two clocks stand at.
#[derive(Clone, Copy, Debug, PartialEq, Eq)]
pub struct Clocks {
    pub wall: WallDatetime,
    /// In nanoseconds.
    pub monotonic: u64,
}

/// A variable, with `=` between its key and its value.
fn env_text(alloc: Global, pair: &EnvPair) -> Result<String, AllocError>
    ensures { IfOk result (λ text. string_bytes text ≡ env_text (env_pair pair.now)) }
{
    let mut text = String::from_str(alloc, pair.key.as_str())?;
    text.push('=')?;
    text.push_str(pair.value.as_str())?;
    Ok(text)
}

/// The variables of an environment, each as such a text.
fn env_texts(alloc: Global, env: &[EnvPair]) -> Result<Vec<String>, AllocError>
    ensures { IfOk result (λ texts. map string_bytes texts.items ≡ map env_text (map env_pair env.now)) }
{
    let mut texts = Vec::with_capacity(alloc, env.len())?;
    for pair in env {
        texts.push(env_text(alloc, pair)?)?;
    }
    Ok(texts)
}

impl GuestEnv {
    /// The whole environment, the names of the preopens, and nothing written. The texts of the
    /// environment take memory, and nothing else does.
    pub fn new(
        alloc: Global,
        services: Services,
        preopens: Vec<P1Preopen>,
    ) -> Result<GuestEnv, AllocError>
        ensures first { IfOk result (λ holdings. holdings
            ≡ first_stock (handed services) (map name_of_preopen preopens.items)) }
    {
        let environ = env_texts(alloc, &services.env)?;
        Ok(GuestEnv {
            preopens,
            args: services.args,
            environ,
            stdin: services.stdin,
            read: 0,
            stdout: Vec::new(alloc),
            stderr: Vec::new(alloc),
            wall: services.wall,
            wall_resolution: services.wall_resolution,
            monotonic: services.monotonic,
            monotonic_resolution: services.monotonic_resolution,
            random: services.random,
            random_at: 0,
            quota: Quota::NONE,
            used: QuotaUsed { nodes: 0, bytes: 0 },
        })
    }

    /// The name of the preopen at this place, if there is one.
    pub fn preopen_name(&self, place: usize) -> Option<&str>
        ensures name { option_map (λ name. name.now) result ≡ slice_get self.now.preopens place }
    {
        Some(self.preopens.get(place)?.name.as_str())
    }

    /// How many arguments there are, and how many bytes they have with a zero after each: Overflow where 32 bits don't
    /// hold one of the two.
    pub fn args_sizes(&self) -> Result<Value, P1Error>
        ensures specified { result ≡ sizes_of self.now.args }
        ensures refusal { IfErr result (λ e. is_failure e ≡ false) }
    {
        sizes(&self.args)
    }

    /// The same of the variables of the environment.
    pub fn environ_sizes(&self) -> Result<Value, P1Error>
        ensures specified { result ≡ sizes_of self.now.environ }
        ensures refusal { IfErr result (λ e. is_failure e ≡ false) }
    {
        sizes(&self.environ)
    }

    /// What was written to the standard output.
    pub fn stdout(&self) -> &[u8]
        ensures bytes { result.now ≡ self.now.stdout }
    {
        self.stdout.as_slice()
    }

    /// What was written to the standard error.
    pub fn stderr(&self) -> &[u8]
        ensures bytes { result.now ≡ self.now.stderr }
    {
        self.stderr.as_slice()
    }

    /// What was written to the two outputs, without a copy of it. All else is dropped.
    pub fn into_outputs(self) -> Outputs
        ensures stdout { result.stdout.items ≡ self.stdout }
        ensures stderr { result.stderr.items ≡ self.stderr }
    {
        Outputs {
            stdout: self.stdout,
            stderr: self.stderr,
        }
    }

    /// What the wall clock stands at.
    pub fn wall(&self) -> WallDatetime
        ensures wall { result ≡ self.now.wall }
    {
        self.wall
    }

    /// How far apart two moments of a clock are.
    #[tactic(auto, unfolding(crate::specs::Services::clock_res))]
    pub fn clock_res(&self, id: u32) -> Result<u64, P1Error>
        ensures specified { result ≡ clock_res self.now id }
        ensures refusal { IfErr result (λ e. is_failure e ≡ false) }
    {
        let clock = Clockid::from_number(id).ok_or(INVALID)?;
        moment_of(self.wall_resolution, self.monotonic_resolution, clock)
    }

    /// What a clock stands at.
    #[tactic(auto, unfolding(crate::specs::Services::clock_time))]
    pub fn clock_time(&self, id: u32) -> Result<u64, P1Error>
        ensures specified { result ≡ clock_time self.now id }
        ensures refusal { IfErr result (λ e. is_failure e ≡ false) }
    {
        let clock = Clockid::from_number(id).ok_or(INVALID)?;
        moment_of(self.wall, self.monotonic, clock)
    }
}

/// Whether what a part of a call asked of a host was done, or may have been, where the host failed.
fn may_be_done<T>(outcome: &Result<T, P1Error>) -> bool
    ensures { result ≡ may_be_done outcome.now }
{
    match outcome {
        Ok(_) => true,
        Err(P1Error::Errno(errno)) => *errno == Errno::Io,
        Err(_) => false,
    }
}

impl GuestEnv {
    /// Sets how much the guest may make and grow from now on, and both counts to 0. Each bound is at most 2^62. It
    /// takes no memory.
    pub fn set_quota(&mut self, quota: Quota)
        requires quota { IsQuota quota }
        ensures set { self.new ≡ with_quota quota self.old }
    {
        self.quota = quota;
        self.used = QuotaUsed { nodes: 0, bytes: 0 };
    }

    /// How much of the quota is used; never more than it.
    pub fn quota_used(&self) -> QuotaUsed
        ensures used { result ≡ self.now.used }
        ensures within { IsWithinQuota self.now.quota result }
    {
        self.used
    }

    /// Dquot where no making is left.
    #[tactic(auto, unfolding(crate::specs::Spending::may_make))]
    pub fn check_making(&self) -> Result<(), P1Error>
        ensures specified { result ≡ may_make self.now }
        ensures refusal { IfErr result (λ e. is_failure e ≡ false) }
    {
        match self.quota.nodes {
            Some(most) if most <= self.used.nodes => Err(P1Error::Errno(Errno::Dquot)),
            _ => Ok(()),
        }
    }

    /// Counts a making, where it was done, or may have been, since the host failed.
    #[tactic(auto, unfolding(crate::specs::Spending::may_make))]
    pub fn count_making<T>(&mut self, outcome: &Result<T, P1Error>)
        requires left { may_make self.old ≡ Ok tt }
        ensures counted { self.new ≡ on_outcome outcome.now (counted_making self.old) self.old }
    {
        if may_be_done(outcome) && self.quota.nodes.is_some() {
            self.used.nodes += 1;
        }
    }

    /// Counts a making of an open, where it creates.
    pub fn count_opening<T>(&mut self, creates: bool, outcome: &Result<T, P1Error>)
        requires left { IsTrue creates → may_make self.old ≡ Ok tt }
        ensures counted { self.new ≡ on_outcome outcome.now (counted_makings creates self.old) self.old }
    {
        if creates {
            self.count_making(outcome);
        }
    }

    /// What the bound on grown bytes leaves to a descriptor of this mode; `None` where there is no bound.
    pub fn allowance(&self, mode: OpenMode) -> Option<Allowance>
        ensures is { result ≡ allowance self.now mode }
    {
        let most = self.quota.bytes?;
        Some(Allowance {
            most,
            used: self.used.bytes,
            may_grow: mode.contains(OpenMode::WRITE),
        })
    }

    /// Counts grown bytes, where a write or a new size was done, or may have been, since the host failed.
    pub fn count_growth<T>(&mut self, growth: u64, outcome: &Result<T, P1Error>)
        requires left { IfSome self.old.quota.bytes (λ most. self.old.used.bytes + growth ≤ most) }
        ensures counted { self.new ≡ on_outcome outcome.now (counted_growth growth self.old) self.old }
    {
        if may_be_done(outcome) && self.quota.bytes.is_some() {
            self.used.bytes += growth;
        }
    }
}

/// How many nanoseconds a second has.
const SECOND: u128 = 1_000_000_000;

impl GuestEnv {
    /// The moment of the monotonic clock at which a clock is at its end, by its number, its timeout in nanoseconds and
    /// the bits of `SubclockFlags`: so long from now on, or where that is asked for at a moment of the clock itself.
    /// Refusals: Inval of an unknown clock, of an unknown flag, and of a processor's clock; Overflow where a moment of
    /// the wall clock is asked for and 64 bits of nanoseconds don't hold what it stands at.
    #[tactic(auto, unfolding(crate::specs::Polling::clock_end))]
    pub fn clock_end(&self, id: u32, timeout: u64, flags: u16) -> Result<u64, P1Error>
        ensures specified { result ≡ clock_end self.now id timeout flags }
        ensures refusal { IfErr result (λ e. is_failure e ≡ false) }
    {
        let clock = Clockid::from_number(id).ok_or(INVALID)?;
        let flags = SubclockFlags::from_bits(flags).ok_or(INVALID)?;
        let absolute = flags.contains(SubclockFlags::SUBSCRIPTION_CLOCK_ABSTIME);
        self.end_of(clock, timeout, absolute)
    }

    /// The same of a clock, and whether its timeout is a moment of it.
    fn end_of(&self, clock: Clockid, timeout: u64, absolute: bool) -> Result<u64, P1Error>
        ensures specified { result ≡ end_of self.now timeout absolute clock }
        ensures refusal { IfErr result (λ e. is_failure e ≡ false) }
    {
        match (clock, absolute) {
            (Clockid::Realtime, true) => {
                let now = nanoseconds_of(self.wall)?;
                Ok(self.end_after(timeout.saturating_sub(now)))
            }
            (Clockid::Monotonic, true) => Ok(timeout),
            (Clockid::Realtime, false) => Ok(self.end_after(timeout)),
            (Clockid::Monotonic, false) => Ok(self.end_after(timeout)),
            (Clockid::ProcessCputimeId, _) => Err(INVALID),
            (Clockid::ThreadCputimeId, _) => Err(INVALID),
        }
    }

    /// So many nanoseconds from now on, and no later than the last moment of the monotonic clock.
    fn end_after(&self, wait: u64) -> u64
        ensures { result ≡ end_after self.now wait }
    {
        self.monotonic.saturating_add(wait)
    }

    /// What the clocks stand at when the monotonic one has come to a moment. Where it has already they stand as they
    /// do, and else both go on alike. Refusal: Overflow where an i64 doesn't hold the wall clock's seconds then.
    #[tactic(auto, unfolding(crate::specs::Polling::clocks_at))]
    pub fn clocks_at(&self, moment: u64) -> Result<Clocks, P1Error>
        ensures specified { result ≡ clocks_at self.now moment }
        ensures refusal { IfErr result (λ e. is_failure e ≡ false) }
    {
        if moment <= self.monotonic {
            return Ok(Clocks {
                wall: self.wall,
                monotonic: self.monotonic,
            });
        }
        let wall = wall_later(self.wall, moment - self.monotonic)?;
        Ok(Clocks {
            wall,
            monotonic: moment,
        })
    }

    /// Sets the two clocks.
    pub fn set_clocks(&mut self, clocks: Clocks)
        ensures set { self.new ≡ with_clocks self.old clocks }
    {
        self.wall = clocks.wall;
        self.monotonic = clocks.monotonic;
    }
}

/// A moment of the wall clock so many nanoseconds later, with whole seconds carried out of them: Overflow where an i64
/// doesn't hold the seconds.
fn wall_later(wall: WallDatetime, by: u64) -> Result<WallDatetime, P1Error>
    ensures specified { result ≡ wall_later wall by }
    ensures refusal { IfErr result (λ e. is_failure e ≡ false) }
{
    let nanoseconds = wall.nanoseconds as u128 + by as u128;
    let seconds = wall.seconds as u128 + nanoseconds / SECOND;
    if seconds > i64::MAX as u128 {
        return Err(P1Error::Errno(Errno::Overflow));
    }
    Ok(WallDatetime {
        seconds: seconds as u64,
        nanoseconds: (nanoseconds % SECOND) as u32,
    })
}

/// What is read next, of what is left of the standard input, into a buffer: Intr of an empty one where some is left.
fn next_input(left: &[u8], size: u32) -> Result<&[u8], P1Error>
    ensures specified { result_map_both (λ bytes. bytes.now) (λ e. e) result ≡ next_input left.now size }
    ensures fits { IfOk result (λ bytes. length bytes.now ≤ size) }
    ensures refusal { IfErr result (λ e. is_failure e ≡ false) }
{
    if left.is_empty() {
        return Ok(left);
    }
    if size == 0 {
        return Err(P1Error::Errno(Errno::Intr));
    }
    let n = left.len().min(size as usize);
    Ok(&left[..n])
}

/// Where a guest writes to.
#[derive(Clone, Copy, Debug, PartialEq, Eq)]
pub enum Output {
    Stdout,
    Stderr,
}

impl GuestEnv {
    /// Reads the next bytes of the standard input into a buffer in memory, as many as it takes, and gives how many: 0
    /// where none are left. Refusal: Intr of an empty buffer where there are some.
    #[tactic(auto, unfolding(crate::specs::Services::input_into))]
    pub fn read_input(&mut self, memory: &mut [u8], buffer: Iovec) -> Result<u32, P1Error>
        requires inside { IsInMemory memory.old buffer.buf buffer.buf_len }
        ensures size { length memory.new ≡ length memory.old }
        ensures same { OnErr result (memory.new ≡ memory.old) }
        ensures kept { OnErr result (self.new ≡ self.old) }
        ensures refusal { IfErr result (λ e. is_failure e ≡ false) }
        ensures specified { with_after result (memory.new, self.new) ≡ input_into memory.old self.old buffer }
    {
        let bytes = next_input(&self.stdin[self.read..], buffer.buf_len)?;
        let n = bytes.len();
        write_bytes(memory, buffer.buf as usize, bytes);
        self.read += n;
        Ok(n as u32)
    }

    /// Puts a piece after what was written to an output.
    pub fn write(&mut self, output: Output, piece: &[u8]) -> Result<(), AllocError>
        ensures done { OnOk result (self.new ≡ written self.old output piece.now) }
        ensures kept { OnErr result (self.new ≡ self.old) }
    {
        match output {
            Output::Stdout => self.stdout.extend_from_slice(piece),
            Output::Stderr => self.stderr.extend_from_slice(piece),
        }
    }
}

impl GuestEnv {
    /// Writes the arguments into memory from `buf` on, each with a zero after it, and their addresses from `at` on, in
    /// four little-endian bytes each. Where there are any: trap Pointer where `at` is no multiple of 4, or one of the
    /// two ranges leaves the memory. Nothing is written then.
    pub fn args_into(&self, memory: &mut [u8], at: u32, buf: u32) -> Result<(), P1Error>
        ensures size { length memory.new ≡ length memory.old }
        ensures same { OnErr result (memory.new ≡ memory.old) }
        ensures refusal { IfErr result (λ e. is_failure e ≡ false) }
        ensures specified { with_after result memory.new ≡ with_unit (texts_at memory.old self.now.args at buf) }
    {
        texts_into(memory, &self.args, at, buf)
    }

    /// The same of the variables of the environment, each a text with `=` after its key.
    pub fn environ_into(&self, memory: &mut [u8], at: u32, buf: u32) -> Result<(), P1Error>
        ensures size { length memory.new ≡ length memory.old }
        ensures same { OnErr result (memory.new ≡ memory.old) }
        ensures refusal { IfErr result (λ e. is_failure e ≡ false) }
        ensures specified { with_after result memory.new ≡ with_unit (texts_at memory.old self.now.environ at buf) }
    {
        texts_into(memory, &self.environ, at, buf)
    }

    /// Fills a buffer with the next random bytes, which are given round and round: with zeros where there are none.
    #[tactic(auto, unfolding(crate::specs::Services::random_bytes, crate::specs::Services::random_taken))]
    fn fill_random(&mut self, part: &mut [u8])
        ensures bytes { part.new ≡ random_bytes self.old (length part.old) }
        ensures taken { self.new ≡ random_taken self.old (length part.old) }
    {
        if self.random.is_empty() {
            part.fill(0);
            return;
        }
        self.random_at = fill_cycled(part, &self.random, self.random_at);
    }
}

impl GuestEnv {
    /// Fills a range of memory with the next random bytes, as `fill_random` does.
    pub fn random_into(&mut self, memory: &mut [u8], buf: u32, buf_len: u32)
        requires inside { IsInMemory memory.old buf buf_len }
        ensures size { length memory.new ≡ length memory.old }
        ensures written { memory.new ≡ with_bytes memory.old buf (random_bytes self.old buf_len) }
        ensures taken { self.new ≡ random_taken self.old buf_len }
    {
        let at = buf as usize;
        let part = &mut memory[at..at + buf_len as usize];
        self.fill_random(part);
    }
}

/// Fills a buffer with bytes that are given round and round, from a place on, and gives the place after them.
fn fill_cycled(part: &mut [u8], bytes: &[u8], at: usize) -> usize
    requires within { at < length bytes.now }
    ensures filled { part.new ≡ map (λ i. slice_index_or bytes.now ((at + i) % length bytes.now) 0)
        (range_with_len 0 (length part.old)) }
    ensures next { result ≡ (at + length part.old) % length bytes.now }
{
    let mut place = at;
    for i in 0..part.len() {
        part[i] = bytes[place];
        place = place_after(place, bytes.len());
    }
    place
}

/// The place after one among so many, after the last of which the first comes again.
fn place_after(place: usize, count: usize) -> usize
    requires within { place < count }
    ensures { result ≡ (place + 1) % count }
{
    if place + 1 == count { 0 } else { place + 1 }
}

/// Writes texts into memory, each with a zero after it, and their addresses. Where there are any: trap Pointer where
/// there is no room for them.
#[tactic(auto, unfolding(crate::specs::Services::texts_at))]
fn texts_into(memory: &mut [u8], texts: &[String], at: u32, buf: u32) -> Result<(), P1Error>
    ensures size { length memory.new ≡ length memory.old }
    ensures same { OnErr result (memory.new ≡ memory.old) }
    ensures refusal { IfErr result (λ e. is_failure e ≡ false) }
    ensures specified { with_after result memory.new
        ≡ with_unit (texts_at memory.old (map string_bytes texts.now) at buf) }
{
    if texts.is_empty() {
        return Ok(());
    }
    if !has_room(memory, texts, at, buf) {
        return Err(P1Error::Trap(TrapKind::Pointer));
    }
    put_texts(memory, texts, at as usize, buf as usize);
    Ok(())
}

/// Whether memory has room for the addresses of texts, from a multiple of 4 on, and for the texts.
fn has_room(memory: &[u8], texts: &[String], at: u32, buf: u32) -> bool
    ensures room { result ≡ (at % 4 == 0) && (in_memory memory.now at (4 * length texts.now)
        && in_memory memory.now buf (total_of (map string_bytes texts.now))) }
{
    let size = memory.len() as u64;
    let list = 4 * texts.len() as u64;
    let total = total_of(texts);
    at % 4 == 0 && at as u64 + list <= size && total.saturating_add(buf as u64) <= size
}

/// Writes texts from one address on, each with a zero after it, and their addresses from another on.
fn put_texts(memory: &mut [u8], texts: &[String], at: usize, buf: usize)
    requires list { IsInMemory memory.old at (4 * length texts.now) }
    requires bytes { IsInMemory memory.old buf (total_of (map string_bytes texts.now)) }
    ensures size { length memory.new ≡ length memory.old }
    ensures written { memory.new ≡ with_texts memory.old (map string_bytes texts.now) at buf }
{
    let mut place = at;
    let mut address = buf;
    for text in texts {
        address = put_text(memory, text.as_str(), place, address);
        place += 4;
    }
}

/// Writes a text to an address, with a zero after it, and that address to a place. Gives the address after it all.
#[tactic(auto, using(crate::proofs::Texts::with_both, wasi_guest::proofs::Ranges::with_bytes_length))]
fn put_text(memory: &mut [u8], text: &str, place: usize, address: usize) -> usize
    requires list { IsInMemory memory.old place 4 }
    requires bytes { IsInMemory memory.old address (length text.now + 1) }
    ensures next { result ≡ address + length text.now + 1 }
    ensures written { memory.new ≡ with_text memory.old text.now place address }
{
    put_address(memory, place, address);
    write_bytes(memory, address, text.as_bytes());
    let end = address + text.len();
    write_bytes(memory, end, &[0]);
    end + 1
}

/// Writes an address to a place: the low four bytes of it, in little-endian order.
fn put_address(memory: &mut [u8], place: usize, address: usize)
    requires { IsInMemory memory.old place 4 }
    ensures written { memory.new ≡ with_bytes memory.old place (to_le_bytes w32 address) }
    ensures size { length memory.new ≡ length memory.old }
{
    let digits = (address as u64).to_le_bytes();
    write_bytes(memory, place, &digits[..4]);
}

/// In nanoseconds: Overflow of what 64 bits don't hold.
pub fn nanoseconds_of(moment: WallDatetime) -> Result<u64, P1Error>
    ensures specified { result ≡ nanoseconds_of moment }
    ensures refusal { IfErr result (λ e. is_failure e ≡ false) }
    ensures never_wants { IfErr result WantsNoMemory }
{
    let whole = moment.seconds as u128 * SECOND + moment.nanoseconds as u128;
    if whole > u64::MAX as u128 {
        return Err(P1Error::Errno(Errno::Overflow));
    }
    Ok(whole as u64)
}

/// The wall clock's moment, or the monotonic clock's: Badf of that of a processor.
fn moment_of(wall: WallDatetime, monotonic: u64, clock: Clockid) -> Result<u64, P1Error>
    ensures specified { result ≡ moment_of wall monotonic clock }
    ensures refusal { IfErr result (λ e. is_failure e ≡ false) }
{
    match clock {
        Clockid::Realtime => nanoseconds_of(wall),
        Clockid::Monotonic => Ok(monotonic),
        Clockid::ProcessCputimeId => Err(P1Error::Errno(Errno::Badf)),
        Clockid::ThreadCputimeId => Err(P1Error::Errno(Errno::Badf)),
    }
}

/// How many bytes texts have with a zero after each, or 2^64 - 1 where there are more.
fn total_of(texts: &[String]) -> u64
    ensures { result ≡ min (total_of (map string_bytes texts.now)) (2 ^ 64 - 1) }
{
    let mut total: u64 = 0;
    for text in texts {
        total = total.saturating_add(text.len() as u64 + 1);
    }
    total
}

/// How many texts there are, and how many bytes they have: Overflow where 32 bits don't hold one of the two.
#[tactic(auto, unfolding(crate::specs::Services::sizes_of))]
fn sizes(texts: &[String]) -> Result<Value, P1Error>
    ensures specified { result ≡ sizes_of (map string_bytes texts.now) }
    ensures refusal { IfErr result (λ e. is_failure e ≡ false) }
{
    let count = texts.len() as u64;
    if count > u32::MAX as u64 {
        return Err(P1Error::Errno(Errno::Overflow));
    }
    let total = total_of(texts);
    if total > u32::MAX as u64 {
        return Err(P1Error::Errno(Errno::Overflow));
    }
    Ok(Value::Pair(count as u32, total as u32))
}

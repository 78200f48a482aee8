//! The environment of a guest: what it has besides its preopens.

/// A moment of the wall clock: whole seconds since the epoch, and nanoseconds. Of 1,000,000,000 of these and more whole
/// seconds are carried.
#[derive(Clone, Copy, Debug, PartialEq, Eq)]
pub struct WallDatetime {
    pub seconds: u64,
    pub nanoseconds: u32,
}

/// A variable of the environment.
#[derive(Debug, Drop)]
pub struct EnvPair {
    pub key: String,
    pub value: String,
}

/// The environment of a guest at its start: its arguments and environment, the bytes of its standard input, its two
/// clocks with their resolutions, and the bytes that it takes for random. Contracts see it as `handed`.
#[derive(Debug, Drop)]
pub struct Services {
    pub args: Vec<String>,
    pub env: Vec<EnvPair>,
    /// What the standard input has.
    pub stdin: Vec<u8>,
    /// What the wall clock stands at.
    pub wall: WallDatetime,
    /// How far apart two moments of it are.
    pub wall_resolution: WallDatetime,
    /// What the monotonic clock stands at, in nanoseconds.
    pub monotonic: u64,
    /// How far apart two moments of it are, in nanoseconds.
    pub monotonic_resolution: u64,
    /// Bytes that are given round and round; zeros where there are none.
    pub random: Vec<u8>,
}

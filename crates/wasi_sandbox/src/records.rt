//! The records that calls answer, as they stand in memory. All numbers are little-endian, and a byte of no field is 0.
//! The layouts are those of `__wasi_fdstat_t`, `__wasi_filestat_t` and `__wasi_prestat_t` in wasi-libc's `wasi/api.h`.
ghost use Rattle.std.specs.Prelude.{◌≡◌};
ghost use Rattle.wasi_sandbox.specs.Records.{fdstat_bytes, filestat_bytes, low_half, prestat_bytes};

use wasi_guest::{Fdstat, Filestat};

const HALF: u64 = 4_294_967_296;

/// The low 32 bits of a number, in little-endian order.
pub fn low_half(n: u64) -> [u8; 4]
    ensures half { result ≡ low_half n }
{
    let half = (n % HALF) as u32;
    half.to_le_bytes()
}

/// Preview1's `fdstat`: 24 bytes, aligned to 8.
pub fn fdstat_bytes(stat: &Fdstat) -> [u8; 24]
    ensures layout { result ≡ fdstat_bytes stat.now }
{
    let mut bytes = [0; 24];
    bytes[0] = stat.filetype;
    bytes[2..4].copy_from_slice(&stat.flags.to_le_bytes());
    bytes[8..16].copy_from_slice(&stat.base.to_le_bytes());
    bytes[16..24].copy_from_slice(&stat.inheriting.to_le_bytes());
    bytes
}

/// Preview1's `filestat`: 64 bytes, aligned to 8.
pub fn filestat_bytes(stat: &Filestat) -> [u8; 64]
    ensures layout { result ≡ filestat_bytes stat.now }
{
    let mut bytes = [0; 64];
    bytes[0..8].copy_from_slice(&stat.dev.to_le_bytes());
    bytes[8..16].copy_from_slice(&stat.ino.to_le_bytes());
    bytes[16] = stat.filetype;
    bytes[24..32].copy_from_slice(&stat.nlink.to_le_bytes());
    bytes[32..40].copy_from_slice(&stat.size.to_le_bytes());
    bytes[40..48].copy_from_slice(&stat.atim.to_le_bytes());
    bytes[48..56].copy_from_slice(&stat.mtim.to_le_bytes());
    bytes[56..64].copy_from_slice(&stat.ctim.to_le_bytes());
    bytes
}

/// Preview1's `prestat` of a directory whose name has so many bytes: 8 bytes, aligned to 4. Its tag is 0, a directory's.
pub fn prestat_bytes(name_len: u64) -> [u8; 8]
    ensures layout { result ≡ prestat_bytes name_len }
{
    let mut bytes = [0; 8];
    bytes[4..8].copy_from_slice(&low_half(name_len));
    bytes
}

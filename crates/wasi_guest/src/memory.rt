//! A guest's memory: bytes at addresses below its length.
ghost use Rattle.std.specs.Prelude.{◌≡◌, ◌↔◌, ◌+◌, ◌^◌, ◌<◌, length, slice_range, IsTrue, IsSome, IfSome, IfOk, OnOk, replicate, if◌then◌else◌};
ghost use Rattle.std.specs.Borrow.{sem};
ghost use Rattle.std.specs.Bool.{OnTrue, OnFalse};
ghost use Rattle.wasi_guest.specs.Range.{IsInMemory, in_memory, lent_at, with_bytes};
ghost use Rattle.std.specs.Result.{result_map_both};
ghost use Rattle.wasi_guest.specs.Iovec.{iovec_in, first_buffer};
ghost use Rattle.wasi_guest.specs.Records.{text_in, u32_in};
ghost use Rattle.wasi_guest.specs.Subscription.{subscription_in};

use crate::guest_error::GuestError;
use crate::iovec::Iovec;
use crate::range::{in_memory, slice_at, write_bytes};
use crate::records::{first_buffer, iovec_in, subscription_in, text_in, u32_in};
use crate::subscription::Subscription;
use std::alloc::{AllocError, Global};
use std::marker::Model;

/// A guest's memory. Contracts see the list of its bytes.
#[derive(Drop)]
pub struct GuestMemory {
    bytes: Vec<u8>,
}

impl Model for GuestMemory {
    ghost use Rattle.std.specs.Prelude.{List, ℕ, length, ◌<◌, ◌^◌};

    ghost Value = { List ℕ };

    ghost view = { λ m. m.bytes.items };

    ghost invariant = { λ m. length m.bytes.items < 2 ^ 32 };
}

impl GuestMemory {
    ghost use Rattle.wasi_guest.specs.Lending.{LendsAll, LendsFrom, LendsFromIf, LendsFound};

    /// A memory of zeros.
    pub fn new(alloc: Global, size: u32) -> Result<GuestMemory, AllocError>
        ensures zeros { IfOk result (λ memory. memory ≡ replicate size 0) }
    {
        Ok(GuestMemory {
            bytes: vec![in alloc; 0; size as usize]?,
        })
    }

    /// All bytes.
    pub fn bytes(&self) -> &[u8]
        ensures bytes { result.now ≡ self.now }
    {
        self.bytes.as_slice()
    }

    /// All bytes, to be written: the memory is then what they are.
    pub fn bytes_mut(&mut self) -> &mut [u8]
        ensures value { result.now ≡ self.old }
        ensures* lends { sem 𝓛 (LendsAll self.entry result) }
    {
        self.bytes.as_mut_slice()
    }

    /// Whether a range is in memory, an empty one too.
    pub fn holds(&self, ptr: u32, n: u32) -> bool
        ensures test { result ≡ in_memory self.now ptr n }
        ensures holds { IsTrue result ↔ IsInMemory self.now ptr n }
        ensures small { length self.now < 2 ^ 32 }
    {
        in_memory(&self.bytes, ptr, n)
    }

    /// The bytes of a range, `None` exactly where it leaves the memory.
    pub fn slice(&self, ptr: u32, n: u32) -> Option<&[u8]>
        ensures found { IsSome result ↔ IsInMemory self.now ptr n }
        ensures value { IfSome result (λ part. part.now ≡ slice_range self.now ptr (ptr + n)) }
    {
        slice_at(&self.bytes, ptr, n)
    }

    /// The bytes of a range, to be written: the memory then differs in that range alone.
    pub fn range_mut(&mut self, ptr: u32, n: u32) -> &mut [u8]
        requires { IsInMemory self.old ptr n }
        ensures value { result.now ≡ slice_range self.old ptr (ptr + n) }
        ensures len { length result.now ≡ n }
        ensures* lends { sem 𝓛 (LendsFrom self.entry ptr result) }
    {
        let at = ptr as usize;
        self.bytes.slice_mut(at..at + n as usize)
    }

    /// Whether a range is in memory, and its bytes, to be written; no bytes where it isn't.
    #[tactic(auto, using(crate::proofs::Ranges::with_no_bytes))]
    fn part_mut(&mut self, ptr: u32, n: u32) -> (bool, &mut [u8])
        ensures found { result.0 ≡ in_memory self.old ptr n }
        ensures value { OnTrue result.0 (result.1.now ≡ slice_range self.old ptr (ptr + n)) }
        ensures len { length result.1.now ≡ (if result.0 then n else 0) }
        ensures same { OnFalse result.0 (with_bytes self.old (lent_at self.old ptr n) result.1.now ≡ self.old) }
        ensures* lends { sem 𝓛 (LendsFound self.entry ptr n result) }
    {
        let found = self.holds(ptr, n);
        let at = if found { ptr } else { 0 };
        let len = if found { n } else { 0 };
        (found, self.range_mut(at, len))
    }

    /// The bytes of a range, to be written, `None` exactly where it leaves the memory. The memory then differs in that
    /// range alone, and stays as it was where there is none.
    pub fn slice_mut(&mut self, ptr: u32, n: u32) -> Option<&mut [u8]>
        ensures* lends { sem 𝓛 (LendsFromIf self.entry ptr result) }
        ensures found { IsSome result ↔ IsInMemory self.old ptr n }
        ensures value { IfSome result (λ part. part.now ≡ slice_range self.old ptr (ptr + n)) }
    {
        let (found, part) = self.part_mut(ptr, n);
        if found { Some(part) } else { None }
    }

    /// How many bytes there are.
    pub fn len(&self) -> u32
        ensures count { result ≡ length self.now }
    {
        self.bytes.len() as u32
    }

    /// Writes bytes from an address on.
    #[tactic(auto, using(crate::proofs::Ranges::written_back))]
    pub fn write(&mut self, ptr: u32, bytes: &[u8])
        requires { IsInMemory self.old ptr (length bytes.now) }
        ensures written { self.new ≡ with_bytes self.old ptr bytes.now }
    {
        write_bytes(self.bytes_mut(), ptr as usize, bytes);
    }

    /// The number at an address, as `u32_in` reads it.
    pub fn read_u32(&self, ptr: u32) -> Result<u32, GuestError>
        ensures number { result ≡ u32_in self.now ptr }
    {
        u32_in(&self.bytes, ptr)
    }

    /// The text in a range, as `text_in` reads it.
    pub fn text(&self, ptr: u32, n: u32) -> Result<&str, GuestError>
        ensures text { result_map_both (λ text. text.now) (λ e. e) result ≡ text_in self.now ptr n }
    {
        text_in(&self.bytes, ptr, n)
    }

    /// The buffer that the record at an address names, as `iovec_in` reads it.
    pub fn read_iovec(&self, ptr: u32) -> Result<Iovec, GuestError>
        ensures record_at { result ≡ iovec_in self.now ptr }
        ensures next { OnOk result (ptr + 8 < 2 ^ 32) }
    {
        iovec_in(&self.bytes, ptr)
    }

    /// What the record at an address waits for, as `subscription_in` reads it.
    pub fn read_subscription(&self, ptr: u32) -> Result<Subscription, GuestError>
        ensures record_at { result ≡ subscription_in self.now ptr }
    {
        subscription_in(&self.bytes, ptr)
    }

    /// The buffer of `n` records that stand from `iovs` on, as `first_buffer` reads them.
    pub fn first_buffer(&self, iovs: u32, n: u32) -> Result<Iovec, GuestError>
        ensures first { result ≡ first_buffer self.now iovs n }
    {
        first_buffer(&self.bytes, iovs, n)
    }
}

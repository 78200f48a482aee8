//! Ranges of a guest's memory, which is its bytes.
ghost use Rattle.std.specs.Prelude.{◌≡◌, ◌↔◌, ◌+◌, length, slice_range, IsTrue, IsSome, IfSome};
ghost use Rattle.wasi_guest.specs.Range.{IsInMemory, in_memory, with_bytes};

/// Whether a range is in memory, an empty one too.
pub fn in_memory(memory: &[u8], ptr: u32, n: u32) -> bool
    ensures test { result ≡ in_memory memory.now ptr n }
    ensures inside { IsTrue result ↔ IsInMemory memory.now ptr n }
{
    ptr as usize + n as usize <= memory.len()
}

/// The bytes of a range, `None` exactly where it leaves the memory.
pub fn slice_at(memory: &[u8], ptr: u32, n: u32) -> Option<&[u8]>
    ensures found { IsSome result ↔ IsInMemory memory.now ptr n }
    ensures value { IfSome result (λ part. part.now ≡ slice_range memory.now ptr (ptr + n)) }
{
    let at = ptr as usize;
    memory.get(at..at + n as usize)
}

/// Writes bytes from an address on.
pub fn write_bytes(memory: &mut [u8], at: usize, bytes: &[u8])
    requires { IsInMemory memory.old at (length bytes.now) }
    ensures written { memory.new ≡ with_bytes memory.old at bytes.now }
    ensures size { length memory.new ≡ length memory.old }
{
    memory[at..at + bytes.len()].copy_from_slice(bytes);
}

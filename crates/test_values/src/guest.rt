//! A guest's memory.
use std::alloc::{AllocError, Global};
use test_support::{list_of, rendered, unknown, word};
use wasi_guest::GuestMemory;

pub fn answer(alloc: Global, what: &str, rest: &str) -> Result<String, AllocError> {
    let (bytes, rest) = word(rest);
    let bytes = list_of::<u8>(alloc, bytes)?;
    let (ptr, n) = word(rest);
    let ptr = ptr.parse::<u32>().unwrap_or(0);
    let n = n.parse::<u32>().unwrap_or(0);
    match what {
        "lent" => replaced(alloc, &bytes, ptr),
        "buffer" => first_buffer(alloc, &bytes, ptr, n),
        "u32" => rendered(alloc, &memory_of(alloc, &bytes)?.read_u32(ptr)),
        "text" => rendered_text(alloc, &bytes, ptr, n),
        "iovec" => rendered(alloc, &memory_of(alloc, &bytes)?.read_iovec(ptr)),
        "subscription" => rendered(alloc, &memory_of(alloc, &bytes)?.read_subscription(ptr)),
        _ => unknown(alloc),
    }
}

fn memory_of(alloc: Global, bytes: &[u8]) -> Result<GuestMemory, AllocError> {
    let Ok(size) = u32::try_from(bytes.len()) else {
        return Err(AllocError);
    };
    let mut memory = GuestMemory::new(alloc, size)?;
    if memory.holds(0, size) {
        memory.write(0, bytes);
    }
    Ok(memory)
}

// What stood at an address before the byte 7 is put there, and the memory then.
fn replaced(alloc: Global, bytes: &[u8], ptr: u32) -> Result<String, AllocError> {
    let mut memory = memory_of(alloc, bytes)?;
    let was = replace(&mut memory, ptr, 7);
    rendered(alloc, &(was, memory.slice(0, memory.len())))
}

fn replace(memory: &mut GuestMemory, ptr: u32, byte: u8) -> Option<u8> {
    let part = memory.slice_mut(ptr, 1)?;
    let was = part[0];
    part[0] = byte;
    Some(was)
}

fn rendered_text(alloc: Global, bytes: &[u8], ptr: u32, n: u32) -> Result<String, AllocError> {
    let memory = memory_of(alloc, bytes)?;
    rendered(alloc, &memory.text(ptr, n))
}

fn first_buffer(alloc: Global, bytes: &[u8], iovs: u32, n: u32) -> Result<String, AllocError> {
    let memory = memory_of(alloc, bytes)?;
    rendered(alloc, &memory.first_buffer(iovs, n))
}

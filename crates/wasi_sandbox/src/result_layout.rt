//! Where the results of a call go.
ghost use Rattle.std.specs.Prelude.{◌≡◌, ◌<◌, length, IsTrue};
ghost use Rattle.wasi_sandbox.specs.Results.{fits, has_room, with_result};
ghost use Rattle.wasi_guest.specs.declared.answer.Value.TheVariants.{Number, Pair};

use crate::records::{fdstat_bytes, filestat_bytes, low_half, prestat_bytes};
use wasi_call_table::Shape;
use wasi_guest::{Value, in_memory, write_bytes};

/// Where the results of a call go in a guest's memory, and as what: their shape and their addresses. A call with one
/// result uses the first address alone, and one with none uses neither.
#[derive(Clone, Copy, Debug, PartialEq, Eq)]
pub struct ResultLayout {
    pub shape: Shape,
    pub first: u32,
    pub second: u32,
}

fn fits(memory: &[u8], at: u32, size: u32, alignment: u32) -> bool
    requires { 0 < alignment }
    ensures { result ≡ fits (length memory.now) at size alignment }
{
    at % alignment == 0 && in_memory(memory, at, size)
}

impl ResultLayout {
    /// Whether each address is aligned as the result that goes there wants it, and the result's bytes from it on are in
    /// memory.
    pub fn has_room(self, memory: &[u8]) -> bool
        ensures test { result ≡ has_room (length memory.now) self }
    {
        match self.shape {
            Shape::Nothing => true,
            Shape::U32 => fits(memory, self.first, 4, 4),
            Shape::U64 => fits(memory, self.first, 8, 8),
            Shape::TwoU32 => fits(memory, self.first, 4, 4) && fits(memory, self.second, 4, 4),
            Shape::U32AndU16 => fits(memory, self.first, 4, 4) && fits(memory, self.second, 2, 2),
            Shape::Prestat => fits(memory, self.first, 8, 4),
            Shape::Fdstat => fits(memory, self.first, 24, 8),
            Shape::Filestat => fits(memory, self.first, 64, 8),
        }
    }

    /// Puts what a call of this shape was answered where its results go; a number of more than 32 bits by its low 32
    /// where there is room for so many. What no call of this shape is answered isn't put.
    pub fn put(self, memory: &mut [u8], value: Value)
        requires room { IsTrue (has_room (length memory.old) self) }
        ensures put { memory.new ≡ with_result memory.old self value }
        ensures size { length memory.new ≡ length memory.old }
    {
        match value {
            Value::Unit => {}
            Value::Number(n) => self.put_number(memory, n),
            Value::Pair(first, second) => self.put_pair(memory, first, second),
            Value::Fdstat(stat) => {
                if self.shape == Shape::Fdstat {
                    write_bytes(memory, self.first as usize, &fdstat_bytes(&stat));
                }
            }
            Value::Filestat(stat) => {
                if self.shape == Shape::Filestat {
                    write_bytes(memory, self.first as usize, &filestat_bytes(&stat));
                }
            }
        }
    }

    fn put_number(self, memory: &mut [u8], n: u64)
        requires room { IsTrue (has_room (length memory.old) self) }
        ensures put { memory.new ≡ with_result memory.old self (Number n) }
        ensures size { length memory.new ≡ length memory.old }
    {
        let at = self.first as usize;
        match self.shape {
            Shape::U32 => write_bytes(memory, at, &low_half(n)),
            Shape::U64 => write_bytes(memory, at, &n.to_le_bytes()),
            Shape::Prestat => write_bytes(memory, at, &prestat_bytes(n)),
            _ => {}
        }
    }

    fn put_pair(self, memory: &mut [u8], first: u32, second: u32)
        requires room { IsTrue (has_room (length memory.old) self) }
        ensures put { memory.new ≡ with_result memory.old self (Pair first second) }
        ensures size { length memory.new ≡ length memory.old }
    {
        if self.shape == Shape::TwoU32 {
            write_bytes(memory, self.first as usize, &first.to_le_bytes());
            write_bytes(memory, self.second as usize, &second.to_le_bytes());
        }
    }
}

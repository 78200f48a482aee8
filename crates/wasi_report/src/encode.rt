//! Writing the parts of a report.
ghost use Rattle.std.specs.Prelude.{◌≡◌, ◌++◌, OnOk, All};
ghost use Rattle.hex.specs.Hex.{IsBytes};
ghost use Rattle.serde_json.specs.Data.{Data};
ghost use Rattle.wasi_report.specs.ReadBack.{FitsNumber, FitsTime};
ghost use Rattle.wasi_report.specs.Report.{list_value, hex_value, number_value, time_value};
ghost use Rattle.wasi_report.specs.Encoded.{tokens_of, member_tokens};

use json::Writer;
use std::alloc::{AllocError, Allocator, Global};
use wasi_host::SystemTime;

/// Where the digits of a text of bytes stand while they are written: in the room, and where that has too little, in memory
/// of their own.
#[derive(Clone, Copy)]
pub struct DigitRoom<A: Allocator + Copy> {
    pub room: A,
    pub alloc: Global,
}

/// What is written as a value of JSON.
pub trait EncodeJson {
    ghost value: { Self → Data };

    /// In range, as each value of the type is: numbers fit 64 bits, and bytes are bytes.
    ghost fits: { Self → Type 0 };

    fn encode_json<A: Allocator + Copy>(
        &self,
        digits: DigitRoom<A>,
        out: &mut Writer,
    ) -> Result<(), AllocError>
        ensures before { out.new.before ≡ out.old.before }
        ensures tokens { OnOk result (out.new.tokens ≡ out.old.tokens ++ tokens_of (value self.now)) }
        ensures fits { OnOk result (fits self.now) };
}

impl EncodeJson for u64 {
    ghost value = { number_value };

    ghost fits = { FitsNumber };

    fn encode_json<A: Allocator + Copy>(
        &self,
        _digits: DigitRoom<A>,
        out: &mut Writer,
    ) -> Result<(), AllocError> {
        out.u64(*self)
    }
}

/// Bytes, in hex.
impl EncodeJson for Vec<u8> {
    ghost value = { λ bytes. hex_value bytes.items };

    ghost fits = { λ bytes. IsBytes bytes.items };

    fn encode_json<A: Allocator + Copy>(
        &self,
        digits: DigitRoom<A>,
        out: &mut Writer,
    ) -> Result<(), AllocError> {
        encode_bytes(digits, self.as_slice(), out)
    }
}

impl EncodeJson for SystemTime {
    ghost value = { time_value };

    ghost fits = { FitsTime };

    fn encode_json<A: Allocator + Copy>(
        &self,
        _digits: DigitRoom<A>,
        out: &mut Writer,
    ) -> Result<(), AllocError> {
        out.begin_array()?;
        out.i64(self.seconds)?;
        out.u64(self.nanoseconds as u64)?;
        out.end_array()
    }
}

/// Bytes, in hex.
pub fn encode_bytes<A: Allocator + Copy>(
    digits: DigitRoom<A>,
    bytes: &[u8],
    out: &mut Writer,
) -> Result<(), AllocError>
    ensures before { out.new.before ≡ out.old.before }
    ensures tokens { OnOk result (out.new.tokens ≡ out.old.tokens ++ tokens_of (hex_value bytes.now)) }
    ensures fits { IsBytes bytes.now }
{
    if let Ok(text) = hex::encode(digits.room, bytes) {
        return out.string(text.as_str());
    }
    let text = hex::encode(digits.alloc, bytes)?;
    out.string(text.as_str())
}

/// The items of a list, in order.
pub fn encode_list<A: Allocator + Copy, T: EncodeJson>(
    digits: DigitRoom<A>,
    items: &[T],
    out: &mut Writer,
) -> Result<(), AllocError>
    ensures before { out.new.before ≡ out.old.before }
    ensures tokens { OnOk result (out.new.tokens ≡ out.old.tokens ++ tokens_of (list_value T.value items.now)) }
    ensures fits { OnOk result (All T.fits items.now) }
{
    out.begin_array()?;
    for item in items {
        item.encode_json(digits, out)?;
    }
    out.end_array()
}

/// A member: a name, and the items of a list in order.
pub fn encode_list_at<A: Allocator + Copy, T: EncodeJson>(
    digits: DigitRoom<A>,
    name: &str,
    items: &[T],
    out: &mut Writer,
) -> Result<(), AllocError>
    ensures before { out.new.before ≡ out.old.before }
    ensures tokens { OnOk result (out.new.tokens ≡ out.old.tokens ++ member_tokens name.now (list_value T.value items.now)) }
    ensures fits { OnOk result (All T.fits items.now) }
{
    out.key(name)?;
    encode_list(digits, items, out)
}

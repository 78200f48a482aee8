//! An audit as a text: the nodes of each preopened directory, and the nodes that were touched.
ghost use Rattle.std.specs.Prelude.{◌≡◌, ◌++◌, IfOk, OnOk};
ghost use Rattle.wasi_report.specs.Audit.{audited, audited_preopen, audit_text, audit_value, preopen_value};
ghost use Rattle.wasi_report.specs.AuditReadBack.{FitsAudit, FitsPreopen};
ghost use Rattle.wasi_report.specs.Encoded.{tokens_of};

use crate::encode::{DigitRoom, EncodeJson, encode_list_at};
use json::Writer;
use std::alloc::{AllocError, Allocator, Global};

/// A preopened directory: the name under which the guest knows it, and the numbers of its nodes.
#[derive(Clone, Copy)]
pub struct PreopenNodes<'a> {
    pub name: &'a str,
    pub nodes: &'a [u64],
}

/// An object of the name and the numbers.
impl EncodeJson for PreopenNodes<'_> {
    ghost value = { λ preopen. preopen_value (audited_preopen preopen) };

    ghost fits = { λ preopen. FitsPreopen (audited_preopen preopen) };

    fn encode_json<A: Allocator + Copy>(
        &self,
        digits: DigitRoom<A>,
        out: &mut Writer,
    ) -> Result<(), AllocError> {
        out.begin_object()?;
        out.key("name")?;
        out.string(self.name)?;
        encode_list_at(digits, "nodes", self.nodes, out)?;
        out.end_object()
    }
}

/// The audit's text: one object of JSON with no space and with keys in byte order, and a newline. The preopened
/// directories stand in the order in which they are given, and numbers, in decimal, too. The text is written in the
/// memory of a buffer, whose bytes are dropped. `AllocError` where the buffer can't grow to it. It is a text that tells
/// the audit, as `audits_are_determined` says.
pub fn audit_in(
    alloc: Global,
    mut buffer: Vec<u8>,
    preopens: &[PreopenNodes<'_>],
    touched: &[u64],
) -> Result<Vec<u8>, AllocError>
    ensures text { IfOk result (λ text. text.items ≡ audit_text (audited preopens.now touched.now)) }
    ensures fits { OnOk result (FitsAudit (audited preopens.now touched.now)) }
{
    buffer.clear();
    let mut out = Writer::new(buffer);
    let digits = DigitRoom { room: alloc, alloc };
    encode_audit(digits, preopens, touched, &mut out)?;
    let mut text = out.into_inner();
    text.push(b'\n')?;
    Ok(text)
}

fn encode_audit<A: Allocator + Copy>(
    digits: DigitRoom<A>,
    preopens: &[PreopenNodes<'_>],
    touched: &[u64],
    out: &mut Writer,
) -> Result<(), AllocError>
    ensures before { out.new.before ≡ out.old.before }
    ensures tokens { OnOk result (out.new.tokens
        ≡ out.old.tokens ++ tokens_of (audit_value (audited preopens.now touched.now))) }
    ensures fits { OnOk result (FitsAudit (audited preopens.now touched.now)) }
{
    out.begin_object()?;
    encode_list_at(digits, "preopens", preopens, out)?;
    encode_list_at(digits, "touched", touched, out)?;
    out.end_object()
}

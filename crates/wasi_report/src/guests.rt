//! What came of several guests over one tree, as a text.
ghost use Rattle.std.specs.Prelude.{◌≡◌, ◌++◌, IfOk, OnOk, All, map};
ghost use Rattle.wasi_tree.specs.NodeData.{node_data};
ghost use Rattle.wasi_report.specs.Guests.{guest_reported, guest_value, guests_reported, guests_text, guests_value};
ghost use Rattle.wasi_report.specs.GuestsReadBack.{FitsGuest, FitsGuests};
ghost use Rattle.wasi_report.specs.ReadBack.{HasRisingNames};
ghost use Rattle.wasi_report.specs.Encoded.{tokens_of};

use crate::encode::{DigitRoom, EncodeJson, encode_list_at};
use crate::encode_nodes::encode_new_nodes;
use crate::outcome::encode_outcome_members;
use json::Writer;
use std::alloc::{AllocError, Allocator, Global};
use wasi_guest::Answers;
use wasi_tree::NewNode;

/// What came of one guest, but for the tree.
#[derive(Drop)]
pub struct GuestOutcome {
    /// The answer of each call, in order.
    pub answers: Answers,
    /// The bytes of each range of memory that is to be shown, in order.
    pub shown: Vec<Vec<u8>>,
    pub stdout: Vec<u8>,
    pub stderr: Vec<u8>,
}

/// An object of the answers, the shown ranges, and the two outputs.
impl EncodeJson for GuestOutcome {
    ghost value = { λ guest. guest_value (guest_reported guest) };

    ghost fits = { λ guest. FitsGuest (guest_reported guest) };

    fn encode_json<A: Allocator + Copy>(
        &self,
        digits: DigitRoom<A>,
        out: &mut Writer,
    ) -> Result<(), AllocError> {
        out.begin_object()?;
        encode_outcome_members(
            digits,
            &self.answers,
            self.shown.as_slice(),
            self.stderr.as_slice(),
            self.stdout.as_slice(),
            out,
        )?;
        out.end_object()
    }
}

/// The text of what came of several guests that ran over one tree: one object of JSON with no space and with keys in
/// byte order, and a newline. The guests stand in the order in which they are given, each as an object of its answers,
/// its shown ranges, its standard error and its standard output. The nodes of the tree that they left follow in the
/// order of the list, each as in a report. The text is written in the memory of a buffer, whose bytes are dropped, and
/// `room` is for digits as in `report_in`. It tells all of this, as `guests_are_determined` says. The only `Err` is out
/// of memory.
pub fn guests_in<A: Allocator + Copy>(
    alloc: Global,
    room: A,
    mut buffer: Vec<u8>,
    guests: &[GuestOutcome],
    nodes: &[NewNode],
) -> Result<Vec<u8>, AllocError>
    requires ordered { All HasRisingNames (map node_data nodes.now) }
    ensures text { IfOk result (λ text. text.items ≡ guests_text (guests_reported guests.now (map node_data nodes.now))) }
    ensures fits { OnOk result (FitsGuests (guests_reported guests.now (map node_data nodes.now))) }
{
    buffer.clear();
    let mut out = Writer::new(buffer);
    encode_guests(DigitRoom { room, alloc }, guests, nodes, &mut out)?;
    let mut text = out.into_inner();
    text.push(b'\n')?;
    Ok(text)
}

fn encode_guests<A: Allocator + Copy>(
    digits: DigitRoom<A>,
    guests: &[GuestOutcome],
    nodes: &[NewNode],
    out: &mut Writer,
) -> Result<(), AllocError>
    requires ordered { All HasRisingNames (map node_data nodes.now) }
    ensures before { out.new.before ≡ out.old.before }
    ensures tokens { OnOk result (out.new.tokens
        ≡ out.old.tokens ++ tokens_of (guests_value (guests_reported guests.now (map node_data nodes.now)))) }
    ensures fits { OnOk result (FitsGuests (guests_reported guests.now (map node_data nodes.now))) }
{
    out.begin_object()?;
    encode_list_at(digits, "guests", guests, out)?;
    out.key("tree")?;
    encode_new_nodes(digits, nodes, out)?;
    out.end_object()
}

//! The outcome of a run, and its report as a text.
ghost use Rattle.std.specs.Prelude.{◌≡◌, ◌++◌, IfOk, OnOk, All, map};
ghost use Rattle.hex.specs.Hex.{IsBytes};
ghost use Rattle.wasi_tree.specs.NodeData.{data_of_node};
ghost use Rattle.wasi_report.specs.ReadBack.{FitsAnswer, FitsNode, IsOrdered};
ghost use Rattle.wasi_report.specs.Report.{reported, report_value, report_text, list_value, hex_value, node_value};
ghost use Rattle.wasi_report.specs.Encoded.{outcome_tokens, tokens_of, member_tokens};

use crate::encode::{DigitRoom, encode_bytes, encode_list_at};
use crate::encode_answers::encode_answer_list;
use crate::encode_nodes::encode_node;
use json::Writer;
use std::alloc::{AllocError, Allocator, Global};
use wasi_guest::Answers;
use wasi_tree::MemTree;

/// The outcome of a run, but for the tree that it left.
#[derive(Drop)]
pub struct Outcome {
    /// The answer of each call, in order.
    pub answers: Answers,
    /// The bytes of each range of memory that is to be shown, in order.
    pub shown: Vec<Vec<u8>>,
    pub stdout: Vec<u8>,
    pub stderr: Vec<u8>,
    /// The numbers of the nodes that were touched.
    pub touched: Vec<u64>,
}

/// The report's text: one object of JSON with no space and with keys in byte order, and a newline. The nodes of the
/// tree are listed by their numbers. It is a text that tells the report, as `reports_are_determined` says.
pub fn report(alloc: Global, outcome: &Outcome, tree: &MemTree) -> Result<Vec<u8>, AllocError>
    ensures text { IfOk result (λ text. text.items ≡ report_text (reported outcome.now tree.now.tree.nodes)) }
    ensures ordered { OnOk result (IsOrdered (reported outcome.now tree.now.tree.nodes)) }
{
    report_in(alloc, alloc, Vec::new(alloc), outcome, tree)
}

/// The same text as `report`, written in the memory of a buffer, whose bytes are dropped. What is kept only while it is
/// written, the digits of one text of bytes at a time, is taken of `room` where that has enough, else of `alloc`, and
/// given back to it.
pub fn report_in<A: Allocator + Copy>(
    alloc: Global,
    room: A,
    mut buffer: Vec<u8>,
    outcome: &Outcome,
    tree: &MemTree,
) -> Result<Vec<u8>, AllocError>
    ensures text { IfOk result (λ text. text.items ≡ report_text (reported outcome.now tree.now.tree.nodes)) }
    ensures ordered { OnOk result (IsOrdered (reported outcome.now tree.now.tree.nodes)) }
{
    buffer.clear();
    let mut out = Writer::new(buffer);
    encode_outcome(DigitRoom { room, alloc }, outcome, tree, &mut out)?;
    let mut text = out.into_inner();
    text.push(b'\n')?;
    Ok(text)
}

/// A report, as one object.
#[tactic(auto, unfolding(crate::specs::ReadBack::IsOrdered))]
pub fn encode_outcome<A: Allocator + Copy>(
    digits: DigitRoom<A>,
    outcome: &Outcome,
    tree: &MemTree,
    out: &mut Writer,
) -> Result<(), AllocError>
    ensures before { out.new.before ≡ out.old.before }
    ensures tokens { OnOk result (out.new.tokens
        ≡ out.old.tokens ++ tokens_of (report_value (reported outcome.now tree.now.tree.nodes))) }
    ensures ordered { OnOk result (IsOrdered (reported outcome.now tree.now.tree.nodes)) }
{
    out.begin_object()?;
    encode_outcome_members(
        digits,
        &outcome.answers,
        outcome.shown.as_slice(),
        outcome.stderr.as_slice(),
        outcome.stdout.as_slice(),
        out,
    )?;
    encode_list_at(digits, "touched", outcome.touched.as_slice(), out)?;
    out.key("tree")?;
    encode_tree(digits, tree, out)?;
    out.end_object()
}

/// What came of a run or of a guest, as members of an object.
pub fn encode_outcome_members<A: Allocator + Copy>(
    digits: DigitRoom<A>,
    answers: &Answers,
    shown: &[Vec<u8>],
    stderr: &[u8],
    stdout: &[u8],
    out: &mut Writer,
) -> Result<(), AllocError>
    ensures before { out.new.before ≡ out.old.before }
    ensures tokens { OnOk result (out.new.tokens ≡ out.old.tokens
        ++ outcome_tokens answers.now.answers (map (λ text. text.items) shown.now) stderr.now stdout.now) }
    ensures answers { OnOk result (All FitsAnswer answers.now.answers) }
    ensures memory { OnOk result (All IsBytes (map (λ text. text.items) shown.now)) }
    ensures stderr { OnOk result (IsBytes stderr.now) }
    ensures stdout { OnOk result (IsBytes stdout.now) }
{
    out.key("answers")?;
    encode_answer_list(digits, answers, out)?;
    encode_texts_at(digits, "memory", shown, out)?;
    encode_bytes_at(digits, "stderr", stderr, out)?;
    encode_bytes_at(digits, "stdout", stdout, out)
}

fn encode_bytes_at<A: Allocator + Copy>(
    digits: DigitRoom<A>,
    name: &str,
    bytes: &[u8],
    out: &mut Writer,
) -> Result<(), AllocError>
    ensures before { out.new.before ≡ out.old.before }
    ensures tokens { OnOk result (out.new.tokens ≡ out.old.tokens ++ member_tokens name.now (hex_value bytes.now)) }
    ensures fits { OnOk result (IsBytes bytes.now) }
{
    out.key(name)?;
    encode_bytes(digits, bytes, out)
}

fn encode_texts_at<A: Allocator + Copy>(
    digits: DigitRoom<A>,
    name: &str,
    texts: &[Vec<u8>],
    out: &mut Writer,
) -> Result<(), AllocError>
    ensures before { out.new.before ≡ out.old.before }
    ensures tokens { OnOk result (out.new.tokens ≡ out.old.tokens ++ member_tokens name.now (list_value hex_value (map (λ text. text.items) texts.now))) }
    ensures fits { OnOk result (All IsBytes (map (λ text. text.items) texts.now)) }
{
    encode_list_at(digits, name, texts, out)
}

/// The nodes by their numbers, each as the tree lends it.
pub fn encode_tree<A: Allocator + Copy>(
    digits: DigitRoom<A>,
    tree: &MemTree,
    out: &mut Writer,
) -> Result<(), AllocError>
    ensures before { out.new.before ≡ out.old.before }
    ensures tokens { OnOk result (out.new.tokens
        ≡ out.old.tokens ++ tokens_of (list_value node_value (map data_of_node tree.now.tree.nodes))) }
    ensures fits { OnOk result (All FitsNode (map data_of_node tree.now.tree.nodes)) }
{
    out.begin_array()?;
    for n in 0..tree.next() {
        let Some(node) = tree.node(n) else {
            unreachable!();
        };
        encode_node(digits, &node, &tree.names(n), out)?;
    }
    out.end_array()
}

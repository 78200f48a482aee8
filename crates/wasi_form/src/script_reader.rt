//! Which bytes are scripts.
ghost use Rattle.std.specs.Prelude.{◌≡◌, ◌<◌, ℕ, List, [], All, Result, map, length, option_map, IfOk, IsTrue};
ghost use Rattle.serde_json.specs.Read.{read as read_text};
ghost use Rattle.wasi_host_faults.specs.Faults.{numbers_rise};
ghost use Rattle.wasi_guest.specs.Quotas.{IsQuota};
ghost use Rattle.wasi_guest.specs.Services.{handed, AreWithin};
ghost use Rattle.wasi_tree.specs.NodeData.{node_data};
ghost use Rattle.wasi_form.specs.IsRead.{IsRead};
ghost use Rattle.wasi_form.specs.Plan.{Plan, GuestsPlan};
ghost use Rattle.wasi_form.specs.declared.script_reader.Refusal.{Refusal};
ghost use Rattle.wasi_form.specs.Verdict as specs;
ghost use Rattle.wasi_form.specs.Verdict.{Reads, ReadsDraft, ReadsBy, ReadsGuests, IsTestOf, IsVerdict, IsGuestsVerdict, value_of, formed, read_plan};

use crate::guests::GuestDraft;
use crate::lists::Item;
use crate::script::{Draft, GuestScript, Script};
use crate::shapes::{Reading, Unread};
use crate::within::{are_guests_within, is_within_limits};
use json::{Reader, Scratch};
use simdutf8::compat::from_utf8;
use std::alloc::{AllocError, Allocator, Global};
use thiserror::Error;
use wasi_host::Limits;
use wasi_io::MOST_BYTES;
use wasi_tree::{NewNode, TreeError, WellFormedNodes};

// How deep lists and objects nest in a script.
const DEPTH: usize = 127;

/// Why bytes aren't taken as a script. The first that holds is the refusal.
#[derive(Clone, Copy, Debug, PartialEq, Eq)]
pub enum Refusal {
    /// They are more than 16,777,216.
    Long,
    /// No value of JSON is read from them.
    Json,
    /// Their value isn't of the shape of a script.
    Shape,
    /// Its nodes are no tree: `MemTree::new` would refuse one of them.
    Tree,
    /// Its memory, or what is shown of it, has more than 16,777,216 bytes, a piece or a shown range leaves the memory,
    /// a preopen isn't a directory, or its table is larger than 65,536 or smaller than the three streams and the
    /// preopens. Several guests have together no more memory than one may have, and no more of it is shown.
    Limit,
}

/// Why no script was read: the bytes aren't one, or memory ran out.
#[derive(Debug, Drop, Error)]
pub enum ScriptError {
    #[error("script refused")]
    Refused(Refusal),
    #[error("out of memory")]
    Memory,
}

impl From<AllocError> for ScriptError {
    ghost use Rattle.wasi_form.specs.declared.script_reader.ScriptError.TheVariants.{Memory};

    ghost from_gives = { λ _ e. e ≡ Memory };

    fn from(_: AllocError) -> Self {
        ScriptError::Memory
    }
}

/// The script that bytes are: the text of a JSON object with the keys `nodes`, `preopens` and `calls`, and with
/// `memory`, `show`, `limits`, `fuel`, `table`, `faults`, `quota`, `args`, `env`, `stdin`, `wall`, `wall_res`, `mono`,
/// `mono_res` and `random` where they are wanted. Numbers are whole, of 64 or 32 bits. Of equal keys the last counts.
///
/// A node is `{"dir": {NAME: NODE ..}}`, `{"file": HEX}` or `{"link": TEXT}`, with `"bits"` beside it, as `"r--"`, and
/// `"times"`, `[ACCESSED, MODIFIED, CREATED]`, where they aren't those of a new node. A time is `[SECONDS,
/// NANOSECONDS]` from the epoch on, the seconds with a sign, the nanoseconds below 1,000,000,000. A preopen is
/// `{"node": NODE, "name": NAME, "perms": "ro"}` or `"rw"`, the memory `{"size": BYTES, "pieces": [PIECE ..]}`, a piece
/// `[OFFSET, "hex", HEX]` or `[OFFSET, "text", TEXT]`, a shown range `[PTR, LEN]`, and a call a list of its name and
/// its arguments. The limits of the tree are `{"nodes": NODES, "links": LINKS}`, each 1 to 2^32.
///
/// The fuel is that of each call, 134,217,728 where it isn't said. The table is how many descriptors may be live, the
/// three streams and the preopens among them, 1,024 where it isn't said. The arguments are a list of texts, the
/// environment a list of `[KEY, VALUE]`, two texts, the standard input and the bytes for random each a text in hex.
/// What the wall clock stands at is `[SECONDS, NANOSECONDS]`, the seconds 0 to 2^63 - 1, the nanoseconds below
/// 1,000,000,000, and so is its resolution; of the monotonic clock each is a number of nanoseconds. Where they aren't
/// said, the clocks stand at 0, and their resolutions are a nanosecond; of the rest there is nothing.
///
/// The faults are a list of `[NUMBER, "before"]` or `[NUMBER, "after"]`, of calls of the host that fail, by numbers
/// that rise from 1 or more on; where they aren't said, none does. The quotas are `{"nodes": BOUND, "bytes": BOUND}`,
/// each 0 to 2^62: how many makings the guest has, and how many bytes by which it may make files longer; where they
/// aren't said, it has no bound.
///
/// More than 16,777,216 bytes are `Long`. (No clause says that they aren't looked at, nor that what is kept only while
/// the text is read is of `room`: the code does so.)
pub fn read_script<A: Allocator + Copy>(
    alloc: Global,
    room: A,
    bytes: &[u8],
) -> Result<Script, ScriptError>
    ensures verdict { Reads result (IsVerdict bytes.now) }
    ensures services { IfOk result (λ script. AreWithin (handed script.session.services)) }
    ensures rising { IfOk result (λ script. IsTrue (numbers_rise script.session.faults.items)) }
    ensures quota { IfOk result (λ script. IsQuota script.session.quota) }
{
    let draft = read_draft(alloc, room, bytes)?;
    let Draft {
        nodes,
        limits,
        session,
    } = draft;
    let nodes = fit_nodes(alloc, nodes, limits)?;
    let script = Script { nodes, session };
    if !is_within_limits(&script) {
        return Err(ScriptError::Refused(Refusal::Limit));
    }
    Ok(script)
}

/// The guests that bytes are, which run in turns over one tree: the text of a JSON object with the keys `nodes`,
/// `guests` and `schedule`, and with `limits` where they are wanted. The nodes and the limits are those of a script, as
/// `read_script` has them. The guests are a list of objects, each with the keys `preopens` and `calls`, and with any of
/// `memory`, `show`, `fuel`, `table`, `quota`, `args`, `env`, `stdin`, `wall`, `wall_res`, `mono`, `mono_res` and
/// `random`, which mean of a guest what they mean in a script. The schedule is a list of the guests' turns: of each its
/// guest, as a number of 32 bits, from 0 on in the order of the list. A number that names no guest is of another shape.
///
/// The bytes are refused as those of a script are. It is `Limit` where one of the guests is past the limits of a
/// script, or where the memories of all together have more than 16,777,216 bytes, or more than these are shown of all
/// together.
pub fn read_guest_script<A: Allocator + Copy>(
    alloc: Global,
    room: A,
    bytes: &[u8],
) -> Result<GuestScript, ScriptError>
    ensures verdict { ReadsGuests result (IsGuestsVerdict bytes.now) }
    ensures services { IfOk result (λ script. All (λ guest. AreWithin (handed guest.services)) script.guests.items) }
    ensures quota { IfOk result (λ script. All (λ guest. IsQuota guest.quota) script.guests.items) }
    ensures no_faults { IfOk result (λ script. All (λ guest. guest.faults.items ≡ []) script.guests.items) }
    ensures schedule { IfOk result (λ script. All (λ turn. turn < length script.guests.items) script.schedule.items) }
{
    let draft: GuestDraft = read_form(alloc, room, bytes)?;
    let GuestDraft {
        nodes,
        limits,
        guests,
        schedule,
    } = draft;
    let nodes = fit_nodes(alloc, nodes, limits)?;
    let script = GuestScript {
        nodes,
        guests,
        schedule,
    };
    if !are_guests_within(&script) {
        return Err(ScriptError::Refused(Refusal::Limit));
    }
    Ok(script)
}

// The nodes, where a tree can be made of them.
fn fit_nodes(
    alloc: Global,
    nodes: Vec<NewNode>,
    limits: Limits,
) -> Result<WellFormedNodes, ScriptError>
    ensures { IsTestOf (record { nodes = map node_data nodes.items; limits = limits }) result }
{
    match WellFormedNodes::new(alloc, nodes, limits) {
        Ok(nodes) => Ok(nodes),
        Err(TreeError::Invalid(_)) => Err(ScriptError::Refused(Refusal::Tree)),
        Err(TreeError::Memory) => Err(ScriptError::Memory),
    }
}

/// The script that bytes are, as `read_script` reads it, but for the tests of its nodes and of the limits: it may be
/// meant for another tree than that of its nodes. It is refused as `Long`, `Json` or `Shape`, or memory ran out.
pub fn read_draft<A: Allocator + Copy>(
    alloc: Global,
    room: A,
    bytes: &[u8],
) -> Result<Draft, ScriptError>
    ensures { ReadsDraft result (λ verdict. read_plan bytes.now ≡ verdict) }
{
    read_form(alloc, room, bytes)
}

// What bytes are in a form, or why they aren't of it: `Long`, `Json` or `Shape`.
#[tactic(auto, using(crate::proofs::Accepted::too_long, crate::proofs::Accepted::reads_within))]
fn read_form<T: Item, A: Allocator + Copy>(
    alloc: Global,
    room: A,
    bytes: &[u8],
) -> Result<T, ScriptError>
    ensures { ReadsBy T.see result (λ verdict. specs.read_as T.of bytes.now ≡ verdict) }
{
    if bytes.len() > MOST_BYTES {
        return Err(ScriptError::Refused(Refusal::Long));
    }
    form_in(alloc, room, bytes)
}

fn form_in<T: Item, A: Allocator + Copy>(
    alloc: Global,
    room: A,
    bytes: &[u8],
) -> Result<T, ScriptError>
    ensures { ReadsBy T.see result (λ verdict. formed T.of (value_of bytes.now) ≡ verdict) }
{
    match form_of_bytes(alloc, room, bytes) {
        Ok(Some(found)) => Ok(found),
        Ok(None) => Err(ScriptError::Refused(Refusal::Shape)),
        Err(Unread::Shape) => Err(ScriptError::Refused(Refusal::Json)),
        Err(Unread::Memory) => Err(ScriptError::Memory),
    }
}

// `Shape` where there is no value of JSON; `None` where it is of another form.
fn form_of_bytes<T: Item, A: Allocator + Copy>(
    alloc: Global,
    room: A,
    bytes: &[u8],
) -> Reading<Option<T>>
    ensures { IsRead (λ found. option_map T.see found) result (option_map T.of (value_of bytes.now)) }
{
    match from_utf8(bytes) {
        Ok(text) => form_of_text(alloc, room, text),
        Err(_) => Err(Unread::Shape),
    }
}

fn form_of_text<T: Item, A: Allocator + Copy>(
    alloc: Global,
    room: A,
    text: &str,
) -> Reading<Option<T>>
    ensures { IsRead (λ found. option_map T.see found) result (option_map T.of (read_text text.now)) }
{
    let mut scratch = Scratch::new(room);
    let mut reader = Reader::new(text, &mut scratch)?;
    let found = T::next(alloc, &mut reader, DEPTH)?;
    match reader.next() {
        Some(_) => Err(Unread::Shape),
        None => Ok(found),
    }
}

/// Bytes have one verdict: whether a tree can be made of their nodes has one answer.
pub fn verdicts_are_one()
    ensures one { (bytes : List ℕ) (verdict other : Result Plan Refusal)
        → IsVerdict bytes verdict → IsVerdict bytes other → verdict ≡ other }
{}

/// Bytes have one verdict as a script of several guests.
pub fn guest_verdicts_are_one()
    ensures one { (bytes : List ℕ) (verdict other : Result GuestsPlan Refusal)
        → IsGuestsVerdict bytes verdict → IsGuestsVerdict bytes other → verdict ≡ other }
{}

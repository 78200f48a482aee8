//! Which scripts are within the limits.
ghost use Rattle.std.specs.Prelude.{◌≡◌, ◌+◌, ◌<◌, ◌&&◌, [], length, map, slice_get, sum_by, nat_le, MatchOption};
ghost use Rattle.std.specs.List.{list_all};
ghost use Rattle.wasi_tree.specs.NodeData.{node_data};
ghost use Rattle.wasi_form.specs.LimitsForm.{default_limits};
ghost use Rattle.wasi_form.specs.Plan.{plan, planned, planned_preopen, planned_piece, guests_plan};
ghost use Rattle.wasi_form.specs.Within as specs;
ghost use Rattle.wasi_form.specs.Within.{most_memory, shown_bytes};

use crate::script::{GuestScript, Piece, Script, ScriptPreopen, Session, Shown};
use wasi_tree::{NewContent, NewNode};

// How many descriptors a script lets be live at most: 65,536.
const MOST_TABLE: u32 = 65_536;

// How many bytes a guest's memory has at most, and how many of them are shown at most: 16,777,216.
const MOST_MEMORY: u32 = 16_777_216;

fn is_directory(nodes: &Vec<NewNode>, node: u64) -> bool
    ensures { result ≡ specs.is_directory_data (slice_get (map node_data nodes.now.items) node) }
{
    match nodes.get(node as usize) {
        Some(node) => matches!(node.content, NewContent::Dir(_)),
        None => false,
    }
}

fn each_preopen_is_directory(nodes: &Vec<NewNode>, preopens: &[ScriptPreopen]) -> bool
    ensures { result ≡ list_all (λ preopen. specs.is_directory_data
        (slice_get (map node_data nodes.now.items) (planned_preopen preopen).node)) preopens.now }
{
    preopens
        .iter()
        .all(|preopen| is_directory(nodes, preopen.node))
}

fn are_preopens_directories(nodes: &Vec<NewNode>, preopens: &[ScriptPreopen]) -> bool
    ensures { result ≡ specs.are_preopens_directories (map node_data nodes.now.items) (map planned_preopen preopens.now) }
{
    each_preopen_is_directory(nodes, preopens)
}

// Whether a table isn't too large, and has room for the preopens beside the three streams.
fn is_table_fit(table: u32, preopens: &[ScriptPreopen]) -> bool
    ensures { result ≡ specs.is_table_fit table (length (map planned_preopen preopens.now)) }
{
    3 + preopens.len() <= table as usize && table <= MOST_TABLE
}

fn is_piece_within(size: u32, piece: &Piece) -> bool
    ensures { result ≡ specs.is_piece_within size (planned_piece piece.now) }
{
    let end = piece.offset as usize + piece.bytes.as_slice().len();
    end <= size as usize
}

fn each_piece_is_within(size: u32, pieces: &[Piece]) -> bool
    ensures { result ≡ list_all (λ piece. specs.is_piece_within size (planned_piece piece)) pieces.now }
{
    pieces.iter().all(|piece| is_piece_within(size, piece))
}

fn are_pieces_within(size: u32, pieces: &[Piece]) -> bool
    ensures { result ≡ list_all (specs.is_piece_within size) (map planned_piece pieces.now) }
{
    each_piece_is_within(size, pieces)
}

fn is_shown_within(size: u32, shown: Shown) -> bool
    ensures { result ≡ specs.is_shown_within size shown }
{
    let end = shown.ptr as u64 + shown.len as u64;
    end <= size as u64
}

fn are_shown_within(size: u32, show: &[Shown]) -> bool
    ensures { result ≡ list_all (specs.is_shown_within size) show.now }
{
    show.iter().all(|shown| is_shown_within(size, *shown))
}

// What is left of so many bytes that may be shown, once these are. `None` where more are.
fn left_to_show(most: u32, show: &[Shown]) -> Option<u32>
    ensures { MatchOption result (most < shown_bytes show.now) (λ left. shown_bytes show.now + left ≡ most) }
{
    let mut left = most;
    for shown in show {
        if shown.len > left {
            return None;
        }
        left -= shown.len;
    }
    Some(left)
}

fn is_shown_little(show: &[Shown]) -> bool
    ensures { result ≡ nat_le (shown_bytes show.now) most_memory }
{
    left_to_show(MOST_MEMORY, show).is_some()
}

/// Whether what is run on a tree is within the limits, by whether its preopens are directories of that tree: its table is at
/// most 65,536, and has room for the three streams and the preopens; its memory has at most 16,777,216 bytes; each piece and
/// each shown range lies in the memory, and as many bytes are shown at most.
pub fn is_session_within(directories: bool, session: &Session) -> bool
    ensures { result ≡ specs.is_session_within directories (planned [] default_limits session.now) }
{
    directories
        && is_table_fit(session.table, session.preopens.as_slice())
        && session.size <= MOST_MEMORY
        && are_pieces_within(session.size, session.pieces.as_slice())
        && are_shown_within(session.size, session.show.as_slice())
        && is_shown_little(session.show.as_slice())
}

// Whether what is run on a tree of these nodes is within the limits.
#[tactic(auto, unfolding(crate::specs::Within::is_within_limits))]
fn is_within_on(nodes: &Vec<NewNode>, session: &Session) -> bool
    ensures { result ≡ specs.is_within_limits (planned (map node_data nodes.now.items) default_limits session.now) }
{
    let directories = are_preopens_directories(nodes, session.preopens.as_slice());
    is_session_within(directories, session)
}

/// Whether a script is within the limits.
#[tactic(auto, unfolding(crate::specs::Within::is_within_limits))]
pub fn is_within_limits(script: &Script) -> bool
    ensures { result ≡ specs.is_within_limits (plan script.now) }
{
    is_within_on(script.nodes.list(), &script.session)
}

fn each_is_within(nodes: &Vec<NewNode>, guests: &[Session]) -> bool
    ensures { result ≡ list_all (λ guest. specs.is_within_limits
        (planned (map node_data nodes.now.items) default_limits guest)) guests.now }
{
    guests.iter().all(|guest| is_within_on(nodes, guest))
}

// Whether the memories of guests have together no more bytes than one may have.
fn are_memories_little(guests: &[Session]) -> bool
    ensures { result ≡ nat_le (sum_by (λ guest. guest.size) guests.now) most_memory }
{
    let mut left = MOST_MEMORY;
    for guest in guests {
        if guest.size > left {
            return false;
        }
        left -= guest.size;
    }
    true
}

// Whether no more is shown of guests together than may be shown of one.
fn are_shown_little(guests: &[Session]) -> bool
    ensures { result ≡ nat_le (sum_by (λ guest. shown_bytes guest.show.items) guests.now) most_memory }
{
    let mut left = MOST_MEMORY;
    for guest in guests {
        let Some(rest) = left_to_show(left, guest.show.as_slice()) else {
            return false;
        };
        left = rest;
    }
    true
}

// Whether what each guest runs on a tree of these nodes is within the limits, and together they are no larger than one may be.
fn are_within_on(nodes: &Vec<NewNode>, guests: &[Session]) -> bool
    ensures { result ≡ (list_all (λ guest. specs.is_within_limits
        (planned (map node_data nodes.now.items) default_limits guest)) guests.now
        && nat_le (sum_by (λ guest. guest.size) guests.now) most_memory
        && nat_le (sum_by (λ guest. shown_bytes guest.show.items) guests.now) most_memory) }
{
    each_is_within(nodes, guests) && are_memories_little(guests) && are_shown_little(guests)
}

/// Whether several guests are within the limits.
pub fn are_guests_within(script: &GuestScript) -> bool
    ensures { result ≡ specs.guests_within (guests_plan script.now) }
{
    are_within_on(script.nodes.list(), script.guests.as_slice())
}

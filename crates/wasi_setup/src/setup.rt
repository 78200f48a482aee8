//! The context and the memory in which the calls of a script begin, and the memory that is shown after them.
ghost use Rattle.std.specs.Prelude.{◌≡◌, ◌≤◌, ◌+◌, true, [], length, map, replicate, All, IfOk, IsTrue};
ghost use Rattle.std.specs.List.{list_all};
ghost use Rattle.wasi_host.specs.Tree.{node_at, is_directory};
ghost use Rattle.std.specs.FinSet.{empty};
ghost use Rattle.wasi_tree.specs.NodeData.{tree_of};
ghost use Rattle.wasi_tree.specs.MemState.{live_of};
ghost use Rattle.wasi_host_faults.specs.Faults.{numbers_rise};
ghost use Rattle.wasi_guest.specs.Quotas.{IsQuota};
ghost use Rattle.wasi_guest.specs.Services.{handed};
ghost use Rattle.wasi_form.specs.Plan.{planned_piece, planned_preopen};
ghost use Rattle.wasi_form.specs.Within.{is_piece_within, is_shown_within};
ghost use Rattle.wasi_setup.specs.Start.{seen_by, with_pieces, ArePreopens, Begins, CanRun, IsBegun, IsWithinOn};
ghost use Rattle.wasi_setup.specs.ReportAfter.{bytes_shown};

use crate::script_tree::ScriptTree;
use std::alloc::{AllocError, Global};
use wasi_form::{Piece, Script, ScriptPreopen, Session, Shown};
use wasi_guest::{Call, GuestMemory, Quota, Services, slice_at};
use wasi_host::Host;
use wasi_host_faults::{FailAt, Fault};
use wasi_p1_state::P1State;
use wasi_p1_types::{CtxError, P1Preopen};
use wasi_tree::{HandleError, MemTree};

/// Where the calls of a script begin: the memory and the context, and what of the script is left to be done.
#[derive(Drop)]
pub struct Setup<T: Host> {
    pub memory: GuestMemory,
    pub context: P1State<FailAt<T>>,
    pub fuel: u64,
    pub calls: Vec<Call>,
    pub show: Vec<Shown>,
}

/// A handle of each directory that the guest is given, in order.
fn preopen_handles<T: ScriptTree>(
    alloc: Global,
    tree: &mut T,
    preopens: &[ScriptPreopen],
) -> Result<Vec<P1Preopen>, AllocError>
    requires directories { All (λ preopen. is_directory (node_at (T.seen tree.old).tree preopen.node).content ≡ true)
        preopens.now }
    requires none { live_of (T.seen tree.old).handles ≡ empty }
    ensures tree { (T.seen tree.new).tree ≡ (T.seen tree.old).tree }
    ensures touched { (T.seen tree.new).touched ≡ (T.seen tree.old).touched }
    ensures lookups { (T.seen tree.new).lookups ≡ (T.seen tree.old).lookups }
    ensures given { IfOk result (λ given. ArePreopens (T.seen tree.new).handles (map planned_preopen preopens.now)
        given.items) }
{
    let mut given = Vec::new(alloc);
    for preopen in preopens {
        let handle = match tree.directory_handle(preopen.node) {
            Ok(handle) => handle,
            Err(HandleError::Memory) => return Err(AllocError),
            Err(HandleError::NotDirectory) => unreachable!(),
        };
        let name = preopen.name.clone()?;
        given.push(P1Preopen {
            handle,
            perms: preopen.perms,
            name,
        })?;
    }
    Ok(given)
}

/// A context over a tree that has no live handle, nothing touched and no lookup, in which the guest is handed in these
/// services and given these directories and this quota, as many descriptors may be live as its table has room for, and
/// these calls of the host fail. The only refusal is out of memory.
pub fn first_context<T: ScriptTree>(
    alloc: Global,
    mut tree: T,
    services: Services,
    faults: Vec<Fault>,
    quota: Quota,
    preopens: &[ScriptPreopen],
    table: u32,
) -> Result<P1State<FailAt<T>>, AllocError>
    requires directories { All (λ preopen. is_directory (node_at (T.seen tree).tree preopen.node).content ≡ true)
        preopens.now }
    requires none { live_of (T.seen tree).handles ≡ empty }
    requires untouched { (T.seen tree).touched ≡ empty }
    requires unasked { (T.seen tree).lookups ≡ [] }
    requires table { 3 + length preopens.now ≤ table }
    requires rising { IsTrue (numbers_rise faults.items) }
    requires quota { IsQuota quota }
    ensures begun { IfOk result (λ c. IsBegun (seen_by T.seen c) (T.seen tree).tree
        (map planned_preopen preopens.now) (handed services) quota table) }
    ensures faults { IfOk result (λ c. c.host.calls ≡ record { faults = faults.items; calls = 0 }) }
{
    let given = preopen_handles(alloc, &mut tree, preopens)?;
    let host = FailAt::new(tree, faults);
    match P1State::new(alloc, host, given, services, table) {
        Ok(mut context) => {
            context.set_quota(quota);
            Ok(context)
        }
        Err(refused) => match refused.error {
            CtxError::Memory => Err(AllocError),
            CtxError::Full => unreachable!(),
        },
    }
}

/// A memory of this size in bytes, of zeros, that has the pieces written into it, one after another. The only refusal
/// is out of memory.
pub fn first_memory(alloc: Global, size: u32, pieces: &[Piece]) -> Result<GuestMemory, AllocError>
    requires { list_all (is_piece_within size) (map planned_piece pieces.now) ≡ true }
    ensures written { IfOk result (λ memory. memory ≡ with_pieces (replicate size 0) (map planned_piece pieces.now)) }
    ensures size { IfOk result (λ memory. length memory ≡ size) }
{
    let mut memory = GuestMemory::new(alloc, size)?;
    for piece in pieces {
        memory.write(piece.offset, piece.bytes.as_slice());
    }
    Ok(memory)
}

/// Begins what is run on a tree that has no live handle, nothing touched and no lookup: the pieces of the memory are
/// written, and the directories that the guest is given have handles. The only refusal is out of memory.
pub fn begin_over<T: ScriptTree>(
    alloc: Global,
    tree: T,
    session: Session,
) -> Result<Setup<T>, AllocError>
    requires within { IsWithinOn (T.seen tree).tree session }
    requires none { live_of (T.seen tree).handles ≡ empty }
    requires untouched { (T.seen tree).touched ≡ empty }
    requires unasked { (T.seen tree).lookups ≡ [] }
    requires rising { IsTrue (numbers_rise session.faults.items) }
    requires quota { IsQuota session.quota }
    ensures begins { IfOk result (Begins (T.seen tree).tree session T.seen) }
{
    let memory = first_memory(alloc, session.size, session.pieces.as_slice())?;
    let context = first_context(
        alloc,
        tree,
        session.services,
        session.faults,
        session.quota,
        session.preopens.as_slice(),
        session.table,
    )?;
    Ok(Setup {
        memory,
        context,
        fuel: session.fuel,
        calls: session.calls,
        show: session.show,
    })
}

/// Begins a script over a tree in memory of its nodes. The only refusal is out of memory.
pub fn begin(alloc: Global, script: Script) -> Result<Setup<MemTree>, AllocError>
    requires { CanRun script }
    ensures begins { IfOk result (Begins (tree_of script.nodes.nodes script.nodes.limits) script.session (λ m. m)) }
{
    let Script { nodes, session } = script;
    let tree = MemTree::of(alloc, nodes)?;
    begin_over(alloc, tree, session)
}

/// The bytes of each range.
pub fn shown(alloc: Global, memory: &[u8], ranges: &[Shown]) -> Result<Vec<Vec<u8>>, AllocError>
    requires { list_all (is_shown_within (length memory.now)) ranges.now ≡ true }
    ensures shown { IfOk result (λ list. map (λ bytes. bytes.items) list.items ≡ map (bytes_shown memory.now) ranges.now) }
{
    let mut list = Vec::new(alloc);
    for range in ranges {
        let Some(bytes) = slice_at(memory, range.ptr, range.len) else {
            unreachable!()
        };
        list.push(bytes.to_vec(alloc)?)?;
    }
    Ok(list)
}

//! The calls at the places that two paths name.
ghost use Rattle.wasi_guest.specs.declared.call.Call.TheVariants.{PathLink, PathRename};
ghost use Rattle.wasi_p1_model.specs.Method.{KeepsHostLaws, MeetsSpec};

use crate::two_path_ops::{LinkAt, RenameAt};
use wasi_guest::{Errno, Value};
use wasi_host::Host;
use wasi_p1_state::P1State;
use wasi_p1_state::lookups::directory_at;
use wasi_p1_state::views::two_paths::between;
use wasi_p1_types::open_with::path_flags_of;
use wasi_p1_types::{P1Error, text_at};

/// Gives the file or link at the path in one range of memory a further name, the path in another, as POSIX's `linkat`.
/// Each path begins at the directory of a descriptor of its own. A link isn't followed. Refusals: docs/calls.md.
#[tactic(auto, using(wasi_p1_model::proofs::Taking::refusals, wasi_p1_model::proofs::CallTracing::traced_between), unfolding(wasi_p1_model::specs::Calls::TwoPaths::path_link))]
pub fn path_link<H: Host>(
    context: &mut P1State<H>,
    memory: &mut [u8],
    old_fd: u32,
    old_flags: u32,
    old_path: u32,
    old_path_len: u32,
    new_fd: u32,
    new_path: u32,
    new_path_len: u32,
) -> Result<Value, P1Error>
    ensures host_laws { KeepsHostLaws H.Host context.old context.new memory.old
        (PathLink old_fd old_flags old_path old_path_len new_fd new_path new_path_len) result }
    ensures spec { MeetsSpec H.Host context.old context.new memory.old memory.new
        (PathLink old_fd old_flags old_path old_path_len new_fd new_path new_path_len) result }
{
    let flags = path_flags_of(old_flags)?;
    let old = directory_at(&context.fs.host, &context.descriptors, old_fd, Errno::Badf)?;
    let new = directory_at(&context.fs.host, &context.descriptors, new_fd, Errno::Badf)?;
    let old_text = text_at(memory, &mut context.fuel, old_path, old_path_len)?;
    let new_text = text_at(memory, &mut context.fuel, new_path, new_path_len)?;
    between(
        &mut context.fs,
        &mut context.descriptors,
        old_fd,
        &old,
        new_fd,
        &new,
        LinkAt {
            old_path_flags: flags,
            old_path: old_text,
            new_path: new_text,
        },
    )?;
    Ok(Value::Unit)
}

/// Moves what is at the path in one range of memory to the path in another, as POSIX's `renameat`. Each path begins at
/// the directory of a descriptor of its own, and slashes at its end are removed first. A link is moved itself. What the
/// new name held loses it: a file or link without names stays in the tree, and an empty directory is removed. If both
/// names hold one node, nothing changes. Refusals: docs/calls.md.
#[tactic(auto, using(wasi_p1_model::proofs::Taking::refusals, wasi_p1_model::proofs::CallTracing::traced_between), unfolding(wasi_p1_model::specs::Calls::TwoPaths::path_rename))]
pub fn path_rename<H: Host>(
    context: &mut P1State<H>,
    memory: &mut [u8],
    old_fd: u32,
    old_path: u32,
    old_path_len: u32,
    new_fd: u32,
    new_path: u32,
    new_path_len: u32,
) -> Result<Value, P1Error>
    ensures host_laws { KeepsHostLaws H.Host context.old context.new memory.old
        (PathRename old_fd old_path old_path_len new_fd new_path new_path_len) result }
    ensures spec { MeetsSpec H.Host context.old context.new memory.old memory.new
        (PathRename old_fd old_path old_path_len new_fd new_path new_path_len) result }
{
    let old = directory_at(&context.fs.host, &context.descriptors, old_fd, Errno::Badf)?;
    let new = directory_at(&context.fs.host, &context.descriptors, new_fd, Errno::Badf)?;
    let old_text = text_at(memory, &mut context.fuel, old_path, old_path_len)?;
    let new_text = text_at(memory, &mut context.fuel, new_path, new_path_len)?;
    between(
        &mut context.fs,
        &mut context.descriptors,
        old_fd,
        &old,
        new_fd,
        &new,
        RenameAt {
            old_path: old_text,
            new_path: new_text,
        },
    )?;
    Ok(Value::Unit)
}

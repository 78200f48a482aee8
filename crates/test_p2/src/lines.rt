//! The lines of the tables, each over guests of its own.
ghost use Rattle.std.specs.Prelude.{◌<◌, ◌≡◌, false, IfOk, length};
ghost use Rattle.std.specs.FinSet.{contains, insert};
ghost use Rattle.wasi_tree.specs.MemState.{live_of};
ghost use Rattle.wasi_p2_calls.specs.Resources.{AreOwned};
ghost use Rattle.wasi_p2_calls.specs.Views.{FilesOwned, files_of};
ghost use Rattle.test_p2.specs.AllOwned.{AllOwned};

use crate::calls::{named_call, view_call};
use crate::guests::{Guest, Guests};
use crate::trees::tree;
use std::alloc::{AllocError, Global};
use test_support::{Answering, Asked, Rendered, number, unknown, word};
use wasi_fs::{Dir, FsPerms, OpenMode};
use wasi_host::{Host, SystemTime};
use wasi_p2::{
    FilesystemPair, NamedId, WasiCtxNamedView, WasiFilesystemNamedView, WasiFilesystemView,
};
use wasi_p2_calls::{Preopen, WasiFilesystemCtx, WasiFilesystemCtxView};
use wasi_streams::ResourceTable;
use wasi_tree::MemTree;

/// What answers the lines.
#[derive(Drop)]
pub struct ViewRows;

impl Answering for ViewRows {
    fn answer(&mut self, asked: &Asked<'_>) -> Rendered {
        match asked.what {
            "view" => {
                let pair = guest(asked.alloc, &[(0, "/")], 16)?;
                let mut guest = Guest { pair };
                lent(&mut guest, asked)
            }
            "within" => {
                let pair = guest(asked.alloc, &[(0, "/")], 16)?;
                let mut guest = Guest { pair };
                within(&mut guest, asked)
            }
            "few" => {
                let pair = guest(asked.alloc, &[(0, "/"), (1, "d")], 3)?;
                let mut guest = Guest { pair };
                lent(&mut guest, asked)
            }
            "named" => several(asked),
            _ => unknown(asked.alloc),
        }
    }
}

/// What a guest has that was given the directories of these nodes, with a table of so many entries.
fn guest(
    alloc: Global,
    directories: &[(u64, &str)],
    max: u32,
) -> Result<FilesystemPair<MemTree>, AllocError>
    ensures { IfOk result (λ guest. AreOwned (live_of guest.ctx.host.handles) guest.ctx.preopens.items
        guest.table.entries) }
{
    let Ok(mut host) = tree(alloc) else {
        return Err(AllocError);
    };
    let mut preopens = Vec::new(alloc);
    for (node, name) in directories {
        preopens.push(preopen(alloc, &mut host, *node, name)?)?;
    }
    let ctx = WasiFilesystemCtx {
        alloc,
        host,
        preopens,
        now: SystemTime::EPOCH,
    };
    let table = ResourceTable::with_max(alloc, max);
    Ok(FilesystemPair { ctx, table })
}

/// A directory of the tree, with a handle of its own.
fn preopen(alloc: Global, tree: &mut MemTree, node: u64, name: &str) -> Result<Preopen, AllocError>
    ensures { IfOk result (λ preopen. (contains (live_of tree.old.handles) preopen.dir.dir ≡ false)
        × (live_of tree.new.handles ≡ insert (live_of tree.old.handles) preopen.dir.dir)) }
{
    let name = String::from_str(alloc, name)?;
    let Ok(handle) = tree.handle(node) else {
        return Err(AllocError);
    };
    let dir = Dir::new(handle, FsPerms::ReadWrite, OpenMode::READ);
    Ok(Preopen { dir, name })
}

/// `CALL; CALL ..`, on the view that is lent.
fn lent<H: Host, T: WasiFilesystemView<H>>(files: &mut T, asked: &Asked<'_>) -> Rendered
    requires owned { FilesOwned H.Host (T.files files.old) }
{
    let mut view = files.filesystem();
    view_answers(&mut view, asked)
}

/// The same, on what is given to a function.
fn within<H: Host, T: WasiFilesystemView<H>>(files: &mut T, asked: &Asked<'_>) -> Rendered
    requires owned { FilesOwned H.Host (T.files files.old) }
{
    files.with_filesystem(
        |ctx, table|
            requires owned { FilesOwned H.Host (files_of ctx.old table.old) }
        {
            let mut view = WasiFilesystemCtxView { ctx, table };
            view_answers(&mut view, asked)
        },
    )
}

fn view_answers<H: Host>(view: &mut WasiFilesystemCtxView<'_, H>, asked: &Asked<'_>) -> Rendered
    requires owned { FilesOwned H.Host (files_of view.old.ctx.now view.old.table.now) }
{
    let alloc = asked.alloc;
    let mut given = Vec::new(alloc);
    let mut text = String::new(alloc);
    for (before, one) in asked.rest.split("; ").enumerate() {
        if before > 0 {
            text.push_str("; ")?;
        }
        let answer = view_call(view, &mut given, &Asked::of(alloc, one))?;
        text.push_str(answer.as_str())?;
    }
    Ok(text)
}

/// `ID CALL; CALL ..`, of two guests, of which the second was given the directory `d`.
fn several(asked: &Asked<'_>) -> Rendered {
    let alloc = asked.alloc;
    let first = guest(alloc, &[(0, "/")], 16)?;
    let second = guest(alloc, &[(1, "d")], 16)?;
    let mut guests = Vec::new(alloc);
    guests.push(first)?;
    guests.push(second)?;
    named(&mut Guests { guests }, asked)
}

/// `ID CALL; CALL ..`, on the view at a place.
fn named<H: Host, T: WasiFilesystemNamedView<H>>(files: &mut T, asked: &Asked<'_>) -> Rendered
    requires owned { AllOwned H.Host (T.all files.old) }
{
    let (id, calls) = word(asked.rest);
    let id = NamedId(number(id) as usize);
    if id.0 >= files.ids() {
        return unknown(asked.alloc);
    }
    let mut all = WasiCtxNamedView(files);
    named_answers(&mut all, id, asked.alloc, calls)
}

fn named_answers<H: Host, T: WasiFilesystemNamedView<H>>(
    all: &mut WasiCtxNamedView<'_, T>,
    id: NamedId,
    alloc: Global,
    calls: &str,
) -> Rendered
    requires named { id.0 < length (T.all all.old.0.now) }
    requires owned { AllOwned H.Host (T.all all.old.0.now) }
{
    let mut given = Vec::new(alloc);
    let mut text = String::new(alloc);
    for (before, one) in calls.split("; ").enumerate() {
        if before > 0 {
            text.push_str("; ")?;
        }
        let answer = named_call(all, id, &mut given, &Asked::of(alloc, one))?;
        text.push_str(answer.as_str())?;
    }
    Ok(text)
}

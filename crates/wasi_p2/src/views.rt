//! The traits of those that lend a view of a guest's files, one or one of several.
ghost use Rattle.std.specs.Borrow.{Lends, sem};
ghost use Rattle.std.specs.Prelude.{◌≡◌, ◌<◌, ℕ, List, length, slice_get, slice_set, Some};
ghost use Rattle.wasi_p2.specs.contracts.views.FilesystemPair.{the_row};
ghost use Rattle.wasi_p2.specs.declared.views.FilesystemPair.{FilesystemPair};
ghost use Rattle.wasi_p2.specs.Named.{AtOne, GivesFiles, OneDoes, TakesFiles, pair_of};
ghost use Rattle.wasi_p2_calls.specs.Views.{Files, files_of};

use wasi_host::Host;
use wasi_p2_calls::{WasiFilesystemCtx, WasiFilesystemCtxView};
use wasi_streams::ResourceTable;

/// A context and its table in one place, from which both are lent at once.
#[derive(Drop)]
pub struct FilesystemPair<H: Host> {
    pub ctx: WasiFilesystemCtx<H>,
    pub table: ResourceTable,
}

/// What has a guest's files: the crate's `WasiFilesystemView`. It says where they are (`pair`), and its view is made of
/// that.
pub trait WasiFilesystemView<H: Host> {
    /// The context and the table.
    ghost files: { Self → Files H };

    /// The implementer, with another pair in their place.
    ghost with_pair: { Self → FilesystemPair H → Self };

    /// Lends the pair: once it is given up, the implementer holds it as it was left.
    fn pair(&mut self) -> &mut FilesystemPair<H>
        ensures* lends { sem 𝓛 (Lends Self.row (the_row H.row) self.entry result (with_pair self.old)) }
        ensures lent { files self.old ≡ pair_of result.now };

    /// That pair is then what there is.
    ghost holds: { (old : Self) (pair : FilesystemPair H) → files (with_pair old pair) ≡ pair_of pair };

    /// The view of the pair. No implementer has another.
    final fn filesystem(&mut self) -> WasiFilesystemCtxView<'_, H>
        ensures lent { files_of result.ctx.now result.table.now ≡ files self.old }
    {
        let pair = self.pair();
        WasiFilesystemCtxView {
            ctx: &mut pair.ctx,
            table: &mut pair.table,
        }
    }

    /// Gives both to a function, and holds afterwards what it left.
    final fn with_filesystem<R, F: FnOnce(&mut WasiFilesystemCtx<H>, &mut ResourceTable) -> R>(
        &mut self,
        f: F,
    ) -> R
        requires callable { TakesFiles F.FnOnce f (files self.old) }
        ensures does { GivesFiles F.FnOnce f (files self.old) result (files self.new) }
    {
        let pair = self.pair();
        f(&mut pair.ctx, &mut pair.table)
    }
}

/// Which one of several: a place from 0 on.
#[derive(Clone, Copy, Debug, PartialEq, Eq, Hash)]
pub struct NamedId(pub usize);

/// What has the files of several guests: the crate's `WasiFilesystemNamedView`. It says where they are (`pair`), and
/// its views are made of that.
pub trait WasiFilesystemNamedView<H: Host> {
    /// The contexts and the tables.
    ghost all: { Self → List (Files H) };

    /// The implementer, with another pair at a place.
    ghost with_pair: { Self → ℕ → FilesystemPair H → Self };

    /// How many there are.
    fn ids(&self) -> usize
        ensures count { result ≡ length (all self.now) };

    /// Lends the pair at a place: once it is given up, the implementer holds it as it was left, and every other pair as
    /// before.
    fn pair(&mut self, id: NamedId) -> &mut FilesystemPair<H>
        requires named { id.0 < length (all self.old) }
        ensures* lends { sem 𝓛 (Lends Self.row (the_row H.row) self.entry result (with_pair self.old id.0)) }
        ensures lent { slice_get (all self.old) id.0 ≡ Some (pair_of result.now) };

    /// That pair is then what there is at the place, and every other is as before.
    ghost holds: { (old : Self) (id : ℕ) (pair : FilesystemPair H)
        → all (with_pair old id pair) ≡ slice_set (all old) id (pair_of pair) };

    /// The view of the pair at a place. No implementer has another.
    final fn filesystem(&mut self, id: NamedId) -> WasiFilesystemCtxView<'_, H>
        requires named { id.0 < length (all self.old) }
        ensures lent { slice_get (all self.old) id.0 ≡ Some (files_of result.ctx.now result.table.now) }
    {
        let pair = self.pair(id);
        WasiFilesystemCtxView {
            ctx: &mut pair.ctx,
            table: &mut pair.table,
        }
    }

    /// Gives the pair at a place to a function, and holds afterwards what it left, and every other pair as before.
    final fn with_filesystem<R, F: FnOnce(&mut WasiFilesystemCtx<H>, &mut ResourceTable) -> R>(
        &mut self,
        id: NamedId,
        f: F,
    ) -> R
        requires named { id.0 < length (all self.old) }
        requires callable { AtOne (all self.old) id.0 (TakesFiles F.FnOnce f) }
        ensures does { OneDoes (all self.old) (all self.new) id.0 (λ old new. GivesFiles F.FnOnce f old result new) }
    {
        let pair = self.pair(id);
        f(&mut pair.ctx, &mut pair.table)
    }
}

/// The calls of views by their place, over what has several: the crate's `WasiCtxNamedView`.
#[derive(Drop)]
pub struct WasiCtxNamedView<'a, T>(pub &'a mut T);

//! The call of a view that gives the guest its directories.
ghost use Rattle.std.specs.Prelude.{◌≡◌};
ghost use Rattle.std.specs.Result.{result_map_both};
ghost use Rattle.wasi_p2_calls.specs.Directories.{GivesDirectories};
ghost use Rattle.wasi_p2_calls.specs.Views.{FilesOwned, files_of};

use crate::preopens::give_each;
use crate::{FsResult, PreopenEntry, WasiFilesystemCtx, WasiFilesystemCtxView};
use wasi_host::Host;
use wasi_streams::ResourceTable;

/// Gives all of a context's directories.
fn give_all<H: Host>(
    ctx: &mut WasiFilesystemCtx<H>,
    table: &mut ResourceTable,
) -> FsResult<Vec<PreopenEntry>>
    requires owned { FilesOwned H.Host (files_of ctx.old table.old) }
    ensures { GivesDirectories H.Host (files_of ctx.old table.old) (files_of ctx.new table.new)
        (result_map_both (λ made. made.items) (λ e. e) result) }
{
    let mut made = Vec::with_capacity(ctx.alloc, ctx.preopens.len())?;
    give_each(&mut ctx.host, table, ctx.preopens.as_slice(), &mut made)?;
    Ok(made)
}

impl<'a, H: Host> WasiFilesystemCtxView<'a, H> {
    /// Each preopen, in order, with its name: an entry of its own, over a handle of its own by
    /// a host's `dup`. Refusals: a trap where there may not be so many entries; those of `dup`. Each refusal leaves
    /// entries and handles as they were.
    pub fn get_directories(&mut self) -> FsResult<Vec<PreopenEntry>>
        requires owned { FilesOwned H.Host (files_of self.old.ctx.now self.old.table.now) }
        ensures same_ctx { self.new.ctx.ghost_name ≡ self.old.ctx.ghost_name }
        ensures same_table { self.new.table.ghost_name ≡ self.old.table.ghost_name }
        ensures call { GivesDirectories H.Host (files_of self.old.ctx.now self.old.table.now)
            (files_of self.new.ctx.now self.new.table.now) (result_map_both (λ made. made.items) (λ e. e) result) }
    {
        give_all(self.ctx, self.table)
    }
}

//! The calls of a view.
ghost use Rattle.wasi_p2_calls.specs.Views.{FilesOwned, files_of};

use crate::answers::{all_kept, first, flags, kept, rendered_read, resource, shown, time};
use test_support::{Asked, Rendered, number, unknown, word};
use wasi_host::Host;
use wasi_p2_calls::WasiFilesystemCtxView;
use wasi_p2_calls::types::Advice;
use wasi_streams::Resource;

/// `CALL ARGUMENTS`. The numbers of resources that are answered are kept.
pub fn view_call<H: Host>(
    view: &mut WasiFilesystemCtxView<'_, H>,
    given: &mut Vec<Resource>,
    asked: &Asked<'_>,
) -> Rendered
    requires owned { FilesOwned H.Host (files_of view.old.ctx.now view.old.table.now) }
    ensures owned { FilesOwned H.Host (files_of view.new.ctx.now view.new.table.now) }
{
    making!(view () asked given take(view, given.as_slice(), asked))
}

fn take<H: Host>(
    view: &mut WasiFilesystemCtxView<'_, H>,
    given: &[Resource],
    asked: &Asked<'_>,
) -> Rendered
    requires owned { FilesOwned H.Host (files_of view.old.ctx.now view.old.table.now) }
    ensures owned { FilesOwned H.Host (files_of view.new.ctx.now view.new.table.now) }
{
    taking!(view () asked given tell(view, given, asked))
}

fn tell<H: Host>(
    view: &mut WasiFilesystemCtxView<'_, H>,
    given: &[Resource],
    asked: &Asked<'_>,
) -> Rendered
    requires owned { FilesOwned H.Host (files_of view.old.ctx.now view.old.table.now) }
    ensures owned { FilesOwned H.Host (files_of view.new.ctx.now view.new.table.now) }
{
    about!(view () asked given change(view, given, asked))
}

fn change<H: Host>(
    view: &mut WasiFilesystemCtxView<'_, H>,
    given: &[Resource],
    asked: &Asked<'_>,
) -> Rendered
    requires owned { FilesOwned H.Host (files_of view.old.ctx.now view.old.table.now) }
    ensures owned { FilesOwned H.Host (files_of view.new.ctx.now view.new.table.now) }
{
    changing!(view () asked given look(view, given, asked))
}

fn look<H: Host>(
    view: &mut WasiFilesystemCtxView<'_, H>,
    given: &[Resource],
    asked: &Asked<'_>,
) -> Rendered
    requires owned { FilesOwned H.Host (files_of view.old.ctx.now view.old.table.now) }
    ensures owned { FilesOwned H.Host (files_of view.new.ctx.now view.new.table.now) }
{
    looking!(view () asked given)
}

//! The calls of one of several views.
ghost use Rattle.std.specs.Prelude.{◌<◌, length};
ghost use Rattle.test_p2.specs.AllOwned.{AllOwned, StayOwned};

use crate::answers::{all_kept, first, flags, kept, rendered_read, resource, shown, time};
use test_support::{Asked, Rendered, number, unknown, word};
use wasi_host::Host;
use wasi_p2::{NamedId, WasiCtxNamedView, WasiFilesystemNamedView};
use wasi_p2_calls::types::Advice;
use wasi_streams::Resource;

/// `CALL ARGUMENTS`, of the view at a place. The numbers of resources that are answered are kept.
pub fn named_call<H: Host, T: WasiFilesystemNamedView<H>>(
    all: &mut WasiCtxNamedView<'_, T>,
    id: NamedId,
    given: &mut Vec<Resource>,
    asked: &Asked<'_>,
) -> Rendered
    requires named { id.0 < length (T.all all.old.0.now) }
    requires owned { AllOwned H.Host (T.all all.old.0.now) }
    ensures owned { StayOwned H.Host (T.all all.old.0.now) (T.all all.new.0.now) }
{
    making!(all (id) asked given take(all, id, given.as_slice(), asked))
}

fn take<H: Host, T: WasiFilesystemNamedView<H>>(
    all: &mut WasiCtxNamedView<'_, T>,
    id: NamedId,
    given: &[Resource],
    asked: &Asked<'_>,
) -> Rendered
    requires named { id.0 < length (T.all all.old.0.now) }
    requires owned { AllOwned H.Host (T.all all.old.0.now) }
    ensures owned { StayOwned H.Host (T.all all.old.0.now) (T.all all.new.0.now) }
{
    taking!(all (id) asked given tell(all, id, given, asked))
}

fn tell<H: Host, T: WasiFilesystemNamedView<H>>(
    all: &mut WasiCtxNamedView<'_, T>,
    id: NamedId,
    given: &[Resource],
    asked: &Asked<'_>,
) -> Rendered
    requires named { id.0 < length (T.all all.old.0.now) }
    requires owned { AllOwned H.Host (T.all all.old.0.now) }
    ensures owned { StayOwned H.Host (T.all all.old.0.now) (T.all all.new.0.now) }
{
    about!(all (id) asked given change(all, id, given, asked))
}

fn change<H: Host, T: WasiFilesystemNamedView<H>>(
    all: &mut WasiCtxNamedView<'_, T>,
    id: NamedId,
    given: &[Resource],
    asked: &Asked<'_>,
) -> Rendered
    requires named { id.0 < length (T.all all.old.0.now) }
    requires owned { AllOwned H.Host (T.all all.old.0.now) }
    ensures owned { StayOwned H.Host (T.all all.old.0.now) (T.all all.new.0.now) }
{
    changing!(all (id) asked given look(all, id, given, asked))
}

fn look<H: Host, T: WasiFilesystemNamedView<H>>(
    all: &mut WasiCtxNamedView<'_, T>,
    id: NamedId,
    given: &[Resource],
    asked: &Asked<'_>,
) -> Rendered
    requires named { id.0 < length (T.all all.old.0.now) }
    requires owned { AllOwned H.Host (T.all all.old.0.now) }
    ensures owned { StayOwned H.Host (T.all all.old.0.now) (T.all all.new.0.now) }
{
    looking!(all (id) asked given)
}

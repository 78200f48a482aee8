//! Those that lend views: one guest, and several.
ghost use Rattle.std.proofs.lemmas.List.{map-set};
ghost use Rattle.std.specs.Prelude.{map, refl};
ghost use Rattle.std.specs.Vec.{with_item};
ghost use Rattle.wasi_p2.specs.Named.{pair_of};

use wasi_host::Host;
use wasi_p2::{FilesystemPair, NamedId, WasiFilesystemNamedView, WasiFilesystemView};

/// A guest's context and table.
#[derive(Drop)]
pub struct Guest<H: Host> {
    pub pair: FilesystemPair<H>,
}

impl<H: Host> WasiFilesystemView<H> for Guest<H> {
    ghost files = { λ guest. pair_of guest.pair };

    ghost with_pair = { λ guest pair. record guest { pair = pair } };

    fn pair(&mut self) -> &mut FilesystemPair<H> {
        &mut self.pair
    }

    ghost holds = { λ old pair. refl };
}

/// Several guests, each with its own context and table.
#[derive(Drop)]
pub struct Guests<H: Host> {
    pub guests: Vec<FilesystemPair<H>>,
}

impl<H: Host> WasiFilesystemNamedView<H> for Guests<H> {
    ghost all = { λ several. map pair_of several.guests.items };

    ghost with_pair = { λ several id pair. record several { guests = with_item several.guests id pair } };

    fn ids(&self) -> usize {
        self.guests.len()
    }

    fn pair(&mut self, id: NamedId) -> &mut FilesystemPair<H> {
        &mut self.guests[id.0]
    }

    ghost holds = { λ old id pair. map-set pair_of old.guests.items id pair };
}

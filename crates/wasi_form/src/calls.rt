//! The calls of a script.
ghost use Rattle.std.specs.Prelude.{◌≡◌};
ghost use Rattle.wasi_form.specs.Atoms.{atoms_data, values_left};
ghost use Rattle.wasi_form.specs.CallForm as specs;
ghost use Rattle.wasi_form.specs.ListedLaws as laws;
ghost use Rattle.wasi_form.specs.Lists.{same};

use crate::arguments::Arguments;
use crate::atoms::Atom;
use crate::lists::Listed;
use crate::shapes::{Reading, Unread};
use std::alloc::Global;
use wasi_call_table::{call_kinds, call_number, call_of_words};
use wasi_guest::Call;

// The call of a name with these arguments. `None` where there is no call of this name, or its arguments are of other
// kinds.
#[tactic(auto, using(crate::proofs::CallWords::no_number, crate::proofs::CallWords::no_kinds, crate::proofs::CallWords::no_words))]
fn call_with(name: &str, arguments: Arguments<'_>) -> Option<Call>
    ensures { result ≡ specs.call_with name.now (values_left arguments.entry) }
{
    let number = call_number(name)?;
    let kinds = call_kinds(number)?;
    let words = arguments.words(kinds)?;
    call_of_words(number, &words)
}

// `[NAME, ARGUMENT ..]`
fn call_in(atoms: &[Atom<'_>]) -> Option<Call>
    ensures { result ≡ specs.call_in (atoms_data atoms.now) }
{
    let [name, left @ ..] = atoms else {
        return None;
    };
    call_with(name.as_str()?, Arguments { left })
}

impl Listed for Call {
    ghost use Rattle.wasi_guest.specs.declared.call.Call.{Call};

    ghost Seen = { Call };

    ghost see = { same };

    ghost of = { specs.call_in };

    ghost sees = { laws.call_sees };

    fn read(_alloc: Global, atoms: &[Atom<'_>]) -> Reading<Call> {
        call_in(atoms).ok_or(Unread::Shape)
    }
}

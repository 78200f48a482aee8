//! The calls of the host that a script lets fail.
ghost use Rattle.std.specs.Prelude.{◌≡◌, option_map};
ghost use Rattle.json.specs.Json.{parse_map};
ghost use Rattle.wasi_host_faults.specs.Faults.{numbers_rise};
ghost use Rattle.wasi_form.specs.Atoms.{atom_data};
ghost use Rattle.wasi_form.specs.FaultsForm as specs;
ghost use Rattle.wasi_form.specs.IsRead.{IsRead};
ghost use Rattle.wasi_form.specs.ListedLaws as laws;
ghost use Rattle.wasi_form.specs.Lists.{same};
ghost use Rattle.wasi_form.specs.Tokens.{next_value};

use crate::atoms::Atom;
use crate::lists::{Listed, list};
use crate::shapes::{Reading, Unread};
use json::Reader;
use std::alloc::Global;
use wasi_host_faults::Fault;

// Whether a call that fails is made first, by the text that says so. `None` where it is another value.
fn is_after(atom: Atom<'_>) -> Option<bool>
    ensures { result ≡ specs.is_after (atom_data atom.entry) }
{
    if atom.is_text("before") {
        Some(false)
    } else if atom.is_text("after") {
        Some(true)
    } else {
        None
    }
}

impl Listed for Fault {
    ghost use Rattle.wasi_host_faults.specs.declared.fault.Fault.{Fault};

    ghost Seen = { Fault };

    ghost see = { same };

    ghost of = { specs.fault_of_items };

    ghost sees = { laws.fault_sees };

    #[tactic(auto, using(crate::proofs::Lengths::short_is_no_two, crate::proofs::Lengths::long_is_no_two))]
    fn read(_alloc: Global, atoms: &[Atom<'_>]) -> Reading<Fault> {
        let [number, when] = atoms else {
            return Err(Unread::Shape);
        };
        let number = number.as_u64().ok_or(Unread::Shape)?;
        let after = is_after(*when).ok_or(Unread::Shape)?;
        Ok(Fault { number, after })
    }
}

fn numbers_rise(faults: &[Fault]) -> bool
    ensures { result ≡ numbers_rise faults.now }
{
    let mut before = 0;
    for fault in faults {
        if fault.number <= before {
            return false;
        }
        before = fault.number;
    }
    true
}

fn where_rising(faults: Vec<Fault>) -> Option<Vec<Fault>>
    ensures { option_map (λ v. v.items) result ≡ specs.where_rising faults.items }
{
    if numbers_rise(&faults) {
        Some(faults)
    } else {
        None
    }
}

/// The next value of a text, read as a list of faults whose numbers rise. `None` where it is of another shape.
#[tactic(auto, using(crate::proofs::Items::map_same))]
pub fn faults(alloc: Global, reader: &mut Reader<'_>, depth: usize) -> Reading<Option<Vec<Fault>>>
    ensures { IsRead (λ found. (option_map (λ v. v.items) found, reader.new)) result
        (parse_map specs.faults_of (next_value depth reader.old)) }
{
    match list(alloc, reader, depth)? {
        Some(faults) => Ok(where_rising(faults)),
        None => Ok(None),
    }
}

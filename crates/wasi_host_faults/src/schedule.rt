//! Which calls fail, and how many came.
ghost use Rattle.std.specs.Prelude.{◌≡◌, IsTrue};
ghost use Rattle.wasi_host_faults.specs.Faults.{one_came, numbers_rise, met_after, next_fate, standing_at, met, fate_by};

use crate::fault::Fault;
use std::marker::Model;
use wasi_host::InjectedFault;

/// The calls that fail, by their numbers, and how many calls came. `place` is that of the next fault in the list.
#[derive(Debug, Drop)]
pub struct Schedule {
    faults: Vec<Fault>,
    calls: u64,
    place: usize,
}

impl Model for Schedule {
    ghost use Rattle.std.specs.Prelude.{◌≡◌, IsTrue};
    ghost use Rattle.wasi_host_faults.specs.Faults.{Calls, numbers_rise, met};

    ghost Value = { Calls };

    ghost view = { λ s. record { faults = s.faults.items; calls = s.calls } };

    ghost invariant = { λ s. IsTrue (numbers_rise s.faults.items)
        × (s.place ≡ met (record { faults = s.faults.items; calls = s.calls })) };
}

impl Schedule {
    /// No call came yet.
    pub fn new(faults: Vec<Fault>) -> Schedule
        requires rising { IsTrue (numbers_rise faults.items) }
        ensures { result ≡ record { faults = faults.items; calls = 0 } }
    {
        Schedule {
            faults,
            calls: 0,
            place: 0,
        }
    }

    /// Counts a call, and says what becomes of it.
    pub fn next(&mut self) -> InjectedFault
        ensures fate { result ≡ next_fate self.old }
        ensures after { self.new ≡ one_came self.old }
        ensures count { met self.new ≡ met_after (met self.old) result }
    {
        let fault = listed_at(&self.faults, self.place, self.calls);
        self.calls = self.calls.saturating_add(1);
        self.place += fault.is_some() as usize;
        fate_of(fault)
    }
}

/// The fault at a place, where that of the next call stands if it is listed.
fn listed_at(faults: &Vec<Fault>, place: usize, calls: u64) -> Option<Fault>
    ensures { result ≡ standing_at faults.now.items place calls }
{
    let number = calls.checked_add(1)?;
    let fault = faults.get(place)?;
    if fault.number != number {
        return None;
    }
    Some(*fault)
}

fn fate_of(fault: Option<Fault>) -> InjectedFault
    ensures { result ≡ fate_by fault }
{
    match fault {
        None => InjectedFault::Passes,
        Some(fault) if fault.after => InjectedFault::FailsAfter,
        Some(_) => InjectedFault::FailsBefore,
    }
}

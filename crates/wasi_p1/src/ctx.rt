//! The context of a guest's calls.
ghost use Rattle.std.specs.Prelude.{◌≡◌, ◌≢◌, ◌<◌, ◌≤◌, ◌+◌, ◌↔◌, true, length, map, All, AllPairs, IfOk, IfErr, IsErrAnd};
ghost use Rattle.std.specs.FinSet.{contains};

use std::alloc::Global;
use std::marker::Model;
use wasi_guest::{Quota, QuotaUsed, Services};
use wasi_host::{Forget, Host};
use wasi_p1_state::{CtxRefused, Ended, P1State};
use wasi_p1_types::P1Preopen;
use wasi_streams::ResourceTable;

/// The calls of one guest over a host: the crate's `WasiP1Ctx` of `p1.rs`. Each call is a method with the name, the
/// arguments and the rule of the call in `wasi_snapshot_preview1`. Contracts see the host, the descriptors, the guest's
/// environment and the fuel that is left.
#[derive(Drop)]
pub struct WasiP1Ctx<H: Host> {
    pub(crate) state: P1State<H>,
}

impl<H: Host> Model for WasiP1Ctx<H> {
    ghost use Rattle.wasi_p1_types.specs.Slots.{View};

    ghost Value = { View H };

    ghost view = { λ c. c.state };
}

impl<H: Host> WasiP1Ctx<H> {
    ghost use Rattle.wasi_p1_state.specs.LiveEntries.{AreLiveDescriptors};
    ghost use Rattle.wasi_p1_types.specs.Numbering.{live_count};
    ghost use Rattle.wasi_p1_model.specs.Owners.{OwnedApart, handles};
    ghost use Rattle.wasi_p1_types.specs.Slots.{first_slots, name_of_preopen, is_closed_slot};
    ghost use Rattle.wasi_p1_types.specs.declared.error.CtxError.TheVariants.{Full};
    ghost use Rattle.wasi_guest.specs.Quotas.{IsQuota};
    ghost use Rattle.wasi_guest.specs.Services.{handed};
    ghost use Rattle.wasi_p1_types.specs.Quotas.{with_quota, IsWithinQuota};
    ghost use Rattle.wasi_p1_types.specs.GuestEnvModel.{first_fuel, first_stock};

    /// A context with the three standard streams as descriptors 0 to 2, and then the preopens, in order, which takes their
    /// handles over. Each handle is live, and given once. Nothing is asked of the host. The fuel left is `FUEL`.
    ///
    /// Each live descriptor is an entry of the resource table, which has `table_max` entries at most: Full exactly where
    /// the streams and the preopens are more.
    ///
    /// The two moments of the wall clock may be any: whole seconds are carried out of their nanoseconds, and a call is
    /// refused Overflow where it can't tell or set one.
    pub fn new(
        alloc: Global,
        host: H,
        preopens: Vec<P1Preopen>,
        services: Services,
        table_max: u32,
    ) -> Result<WasiP1Ctx<H>, CtxRefused<H>>
        requires live { All (λ preopen. contains (H.live host) preopen.handle ≡ true) preopens.items }
        requires once { AllPairs (λ one other. one.handle ≢ other.handle) preopens.items }
        ensures made { IfOk result (λ c. c
            ≡ record {
              host = host;
              slots = first_slots preopens.items;
              table_max = table_max;
              holdings = first_stock (handed services) (map name_of_preopen preopens.items);
              fuel = first_fuel;
            }) }
        ensures handed_back { IfErr result (λ refused. refused.host ≡ host) }
        ensures full { IsErrAnd result (λ refused. refused.error ≡ Full) ↔ table_max < 3 + length preopens.items }
    {
        let state = P1State::new(alloc, host, preopens, services, table_max)?;
        Ok(WasiP1Ctx { state })
    }

    /// The calls of a guest whose state exists already, as `wasi_setup` makes it for a script. `new` makes a state of
    /// its own.
    pub fn of(state: P1State<H>) -> WasiP1Ctx<H>
        ensures { result ≡ state }
    {
        WasiP1Ctx { state }
    }

    /// Sets the fuel that is left. Of it a call takes a text's length; a read or write 8 for each buffer of its list,
    /// and the length of the one it takes; a poll 80 for each subscription. It stays taken, whatever is answered.
    pub fn set_hostcall_fuel(&mut self, fuel: u64)
        ensures set { self.new ≡ record self.old { fuel = fuel } }
    {
        self.state.set_hostcall_fuel(fuel);
    }

    /// Sets how much the guest may make and grow from now on, and both counts to 0. Each bound is at most 2^62. It takes
    /// no memory. A new context has no bound.
    pub fn set_quota(&mut self, quota: Quota)
        requires quota { IsQuota quota }
        ensures set { self.new ≡ record self.old { holdings = with_quota quota self.old.holdings } }
    {
        self.state.set_quota(quota);
    }

    /// How much of its quota the guest has used; never more than it.
    pub fn quota_used(&self) -> QuotaUsed
        ensures used { result ≡ self.now.holdings.used }
        ensures within { IsWithinQuota self.now.holdings.quota result }
    {
        self.state.quota_used()
    }

    /// The descriptors have live handles, each its own.
    pub fn handles_are_owned(&self)
        ensures apart { OwnedApart (H.live self.now.host) (handles self.now.slots) }
    {
        self.state.handles_are_owned();
    }

    /// The resource table. Its live entries are the live descriptors: each has one of its own, of what it refers to, and
    /// there are no others.
    pub fn table(&self) -> &ResourceTable
        ensures entries { AreLiveDescriptors result.now.entries self.now.slots }
        ensures max { result.now.max ≡ self.now.table_max }
    {
        self.state.table()
    }

    /// How many entries of the resource table are live: one for each live descriptor, and never more than there may be.
    pub fn live_entries(&self) -> u32
        ensures count { result ≡ live_count is_closed_slot self.now.slots }
        ensures most { result ≤ self.now.table_max }
    {
        self.state.live_entries()
    }

    /// The host, as the calls so far left it.
    pub fn host(&self) -> &H
        ensures host { result.now ≡ self.now.host }
    {
        self.state.host()
    }

    /// What the guest wrote to the standard output so far.
    pub fn stdout(&self) -> &[u8]
        ensures bytes { result.now ≡ self.now.holdings.stdout }
    {
        self.state.stdout()
    }

    /// What the guest wrote to the standard error so far.
    pub fn stderr(&self) -> &[u8]
        ensures bytes { result.now ≡ self.now.holdings.stderr }
    {
        self.state.stderr()
    }

    /// The host, and what the guest wrote. Its handles stay live.
    pub fn into_parts(self) -> Ended<H>
        ensures host { result.host ≡ self.host }
        ensures holdings { result.holdings ≡ self.holdings }
    {
        self.state.into_parts()
    }
}

impl<H: Forget> WasiP1Ctx<H> {
    ghost use Rattle.std.specs.Prelude.{ℕ, IsTrue};
    ghost use Rattle.wasi_host.specs.HostLaws.{forgotten};
    ghost use Rattle.wasi_host.specs.Tree.{Tree};

    /// Has the host forget which nodes were touched, so that those of the calls to come are known by themselves. All else
    /// stays. It takes no memory.
    pub fn forget_touched(&mut self)
        ensures kept { self.new ≡ record self.old { host = self.new.host } }
        ensures faults { H.faults self.new.host ≡ H.faults self.old.host }
        ensures live { H.live self.new.host ≡ H.live self.old.host }
        ensures logged { H.lookups self.new.host ≡ H.lookups self.old.host }
        ensures model { IsTrue H.modelled → H.model self.new.host ≡ forgotten (H.model self.old.host) }
        ensures fails { IsTrue H.fails_modelled → (n : ℕ) → H.fails self.new.host n ≡ H.fails self.old.host n }
        ensures others { IsTrue H.found_modelled → (n : ℕ) (t : Tree) → H.others self.new.host n t ≡ H.others self.old.host n t }
        ensures found { IsTrue H.found_modelled → H.found self.new.host ≡ H.found self.old.host }
        ensures left { IsTrue H.found_modelled → H.left self.new.host ≡ forgotten (H.left self.old.host) }
    {
        self.state.forget_touched();
    }
}

//! The context of a guest's calls: its descriptors over a host.
ghost use Rattle.std.specs.Prelude.{◌≡◌, ◌≢◌, ◌<◌, ◌≤◌, ◌+◌, ◌↔◌, true, length, map, All, AllPairs, IfOk, IfErr, IsErrAnd};
ghost use Rattle.std.specs.FinSet.{contains};

use crate::descriptors::Descriptors;
use std::alloc::Global;
use std::marker::Model;
use wasi_guest::{Quota, QuotaUsed, Services};
use wasi_host::{Forget, Host, SystemTime};
use wasi_p1_types::{CtxError, GuestEnv, P1Preopen};
use wasi_p2_calls::WasiFilesystemCtx;
use wasi_streams::ResourceTable;

/// The state of one guest: preview2's files of a host, the guest's descriptors, and its environment. The preopens are
/// descriptors from the first, so the files have none of their own. The calls are functions over it, which have its
/// fields; `WasiP1Ctx` keeps them to itself.
#[derive(Drop)]
pub struct P1State<H: Host> {
    /// The host, and no preopens.
    pub fs: WasiFilesystemCtx<H>,
    /// What each number refers to.
    pub descriptors: Descriptors,
    /// The guest's environment, and what it wrote.
    pub holdings: GuestEnv,
    /// What is left for calls to take.
    pub fuel: u64,
}

impl<H: Host> Model for P1State<H> {
    ghost use Rattle.wasi_p1_types.specs.Slots.{View};
    ghost use Rattle.wasi_p1_state.specs.Held.{HoldsHandles};
    ghost use Rattle.wasi_p1_model.specs.Owners.{handles};

    ghost Value = { View H };

    ghost view = { λ c. record {
      host = c.fs.host;
      slots = c.descriptors.slots;
      table_max = c.descriptors.max;
      holdings = c.holdings;
      fuel = c.fuel;
    } };

    ghost invariant = { λ c. HoldsHandles (H.live c.fs.host) (handles c.descriptors.slots) c.fs.preopens.items };
}

/// The fuel of a new context.
pub const FUEL: u64 = 134_217_728;

/// No context was made, and why. The host is handed back.
#[derive(Drop)]
pub struct CtxRefused<H: Host> {
    pub host: H,
    pub error: CtxError,
}

/// What stays of a context when its guest has ended.
#[derive(Drop)]
pub struct Ended<H: Host> {
    pub host: H,
    /// What the guest has left of its environment, and what it wrote.
    pub holdings: GuestEnv,
}

impl<H: Host> P1State<H> {
    ghost use Rattle.wasi_p1_state.specs.LiveEntries.{AreLiveDescriptors};
    ghost use Rattle.wasi_p1_types.specs.Numbering.{live_count};
    ghost use Rattle.wasi_p1_model.specs.Owners.{OwnedApart, handles};
    ghost use Rattle.wasi_p1_types.specs.Slots.{first_slots, name_of_preopen, is_closed_slot};
    ghost use Rattle.wasi_p1_types.specs.declared.error.CtxError.TheVariants.{Full};
    ghost use Rattle.wasi_guest.specs.Quotas.{IsQuota};
    ghost use Rattle.wasi_guest.specs.Services.{handed};
    ghost use Rattle.wasi_p1_types.specs.Quotas.{with_quota, IsWithinQuota};
    ghost use Rattle.wasi_p1_types.specs.GuestEnvModel.{first_fuel, first_stock};

    /// A context with the three standard streams as descriptors 0 to 2, and then the directories that the guest is
    /// given, in order, which takes their handles over. Each handle is live, and given once. Nothing is asked of the
    /// host. The names are kept for `fd_prestat_get` and `fd_prestat_dir_name`. The fuel left is `FUEL`.
    ///
    /// Each live descriptor is an entry of the resource table, which has `table_max` entries at most: Full exactly
    /// where the streams and the directories are more.
    ///
    /// The two moments of the wall clock may be any: whole seconds are carried out of their nanoseconds, and a call is
    /// refused Overflow where it can't tell or set one.
    pub fn new(
        alloc: Global,
        host: H,
        preopens: Vec<P1Preopen>,
        services: Services,
        table_max: u32,
    ) -> Result<P1State<H>, CtxRefused<H>>
        requires live { All (λ preopen. contains (H.live host) preopen.handle ≡ true) preopens.items }
        requires once { AllPairs (λ one other. one.handle ≢ other.handle) preopens.items }
        ensures made { IfOk result (λ c. c
            ≡ record {
              host = host;
              slots = first_slots preopens.items;
              table_max = table_max;
              holdings = first_stock (handed services) (map name_of_preopen preopens.items);
              fuel = first_fuel;
            }) }
        ensures handed_back { IfErr result (λ refused. refused.host ≡ host) }
        ensures full { IsErrAnd result (λ refused. refused.error ≡ Full) ↔ table_max < 3 + length preopens.items }
    {
        let descriptors = match Descriptors::first(alloc, table_max, &preopens) {
            Ok(descriptors) => descriptors,
            Err(error) => return Err(CtxRefused { host, error }),
        };
        let Ok(holdings) = GuestEnv::new(alloc, services, preopens) else {
            let error = CtxError::Memory;
            return Err(CtxRefused { host, error });
        };
        Ok(P1State {
            fs: WasiFilesystemCtx {
                alloc,
                host,
                preopens: Vec::new(alloc),
                now: SystemTime::EPOCH,
            },
            descriptors,
            holdings,
            fuel: FUEL,
        })
    }

    /// Sets the fuel that is left. Of it a call takes a text's length; a read or write 8 for each buffer of its list,
    /// and the length of the one it takes; a poll 80 for each subscription. It stays taken, whatever is answered.
    pub fn set_hostcall_fuel(&mut self, fuel: u64)
        ensures set { self.new ≡ record self.old { fuel = fuel } }
    {
        self.fuel = fuel;
    }

    /// Sets how much the guest may make and grow from now on, and both counts to 0. Each bound is at most 2^62. It
    /// takes no memory. A new context has no bound.
    pub fn set_quota(&mut self, quota: Quota)
        requires quota { IsQuota quota }
        ensures set { self.new ≡ record self.old { holdings = with_quota quota self.old.holdings } }
    {
        self.holdings.set_quota(quota);
    }

    /// How much of its quota the guest has used; never more than it.
    pub fn quota_used(&self) -> QuotaUsed
        ensures used { result ≡ self.now.holdings.used }
        ensures within { IsWithinQuota self.now.holdings.quota result }
    {
        self.holdings.quota_used()
    }

    /// The descriptors have live handles, each its own.
    pub fn handles_are_owned(&self)
        ensures apart { OwnedApart (H.live self.now.host) (handles self.now.slots) }
    {
        let _descriptors = &self.descriptors;
    }

    /// The resource table. Its live entries are the live descriptors: each has one of its own, of what it refers to,
    /// and there are no others.
    pub fn table(&self) -> &ResourceTable
        ensures entries { AreLiveDescriptors result.now.entries self.now.slots }
        ensures max { result.now.max ≡ self.now.table_max }
    {
        self.descriptors.table()
    }

    /// How many entries of the resource table are live: one for each live descriptor, and never more than there may be.
    pub fn live_entries(&self) -> u32
        ensures count { result ≡ live_count is_closed_slot self.now.slots }
        ensures most { result ≤ self.now.table_max }
    {
        self.descriptors.live()
    }

    /// The host, as the calls so far left it.
    pub fn host(&self) -> &H
        ensures host { result.now ≡ self.now.host }
    {
        &self.fs.host
    }

    /// What the guest wrote to the standard output so far.
    pub fn stdout(&self) -> &[u8]
        ensures bytes { result.now ≡ self.now.holdings.stdout }
    {
        self.holdings.stdout()
    }

    /// What the guest wrote to the standard error so far.
    pub fn stderr(&self) -> &[u8]
        ensures bytes { result.now ≡ self.now.holdings.stderr }
    {
        self.holdings.stderr()
    }

    /// The host, and what the guest wrote. Its handles stay live.
    pub fn into_parts(self) -> Ended<H>
        ensures host { result.host ≡ self.host }
        ensures holdings { result.holdings ≡ self.holdings }
    {
        let fs = self.fs;
        Ended {
            host: fs.host,
            holdings: self.holdings,
        }
    }
}

impl<H: Forget> P1State<H> {
    ghost use Rattle.std.specs.Prelude.{ℕ, IsTrue};
    ghost use Rattle.wasi_host.specs.HostLaws.{forgotten};
    ghost use Rattle.wasi_host.specs.Tree.{Tree};

    /// Has the host forget which nodes were touched, so that those of the calls to come are known by themselves. All
    /// else stays. It takes no memory.
    pub fn forget_touched(&mut self)
        ensures kept { self.new ≡ record self.old { host = self.new.host } }
        ensures faults { H.faults self.new.host ≡ H.faults self.old.host }
        ensures live { H.live self.new.host ≡ H.live self.old.host }
        ensures logged { H.lookups self.new.host ≡ H.lookups self.old.host }
        ensures model { IsTrue H.modelled → H.model self.new.host ≡ forgotten (H.model self.old.host) }
        ensures fails { IsTrue H.fails_modelled → (n : ℕ) → H.fails self.new.host n ≡ H.fails self.old.host n }
        ensures others { IsTrue H.found_modelled → (n : ℕ) (t : Tree) → H.others self.new.host n t ≡ H.others self.old.host n t }
        ensures found { IsTrue H.found_modelled → H.found self.new.host ≡ H.found self.old.host }
        ensures left { IsTrue H.found_modelled → H.left self.new.host ≡ forgotten (H.left self.old.host) }
    {
        self.fs.host.forget();
    }
}

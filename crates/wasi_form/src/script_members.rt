//! The parts of a script, read one after another.
ghost use Rattle.std.specs.Prelude.{◌≡◌, List, [], None, option_map};
ghost use Rattle.json.specs.Json.{parse_map};
ghost use Rattle.wasi_form.specs.IsRead.{IsRead};
ghost use Rattle.wasi_form.specs.FoundParts.{found_of, with_beside};
ghost use Rattle.wasi_form.specs.GuestsForm.{guest_found};
ghost use Rattle.wasi_form.specs.LimitsForm.{default_limits};
ghost use Rattle.wasi_form.specs.Plan.{planned, drafted};
ghost use Rattle.wasi_form.specs.ScriptForm.{session_found, script_found};
ghost use Rattle.wasi_form.specs.ServicesForm.{service_key};
ghost use Rattle.wasi_form.specs.Tokens.{next_value};
ghost use Rattle.wasi_host.specs.declared.limits.Limits.{Limits as TreeLimits};
ghost use Rattle.wasi_tree.specs.NodeData.{NodeData};

use crate::atoms::{next_u32, next_u64};
use crate::faults::faults;
use crate::limits::{DEFAULT_LIMITS, limits};
use crate::lists::{Item, list};
use crate::memory::{ScriptMemory, memory, no_memory};
use crate::objects::{Fields, object};
use crate::quota::quota;
use crate::script::{Draft, ScriptPreopen, Session, Shown};
use crate::services::{ServiceKey, ServiceParts};
use crate::shapes::Reading;
use crate::tokens::pass;
use json::Reader;
use std::alloc::Global;
use wasi_guest::{Call, Quota};
use wasi_host::Limits;
use wasi_host_faults::Fault;
use wasi_tree::NewNode;

/// How much fuel each call has in a script that doesn't say it.
pub const DEFAULT_FUEL: u64 = 134_217_728;

/// How many descriptors may be live in a script that doesn't say it.
pub const DEFAULT_TABLE: u32 = 1_024;

/// Whether all keys are those of a script, and what stands at them, or counts where nothing does.
#[derive(Drop)]
pub struct Parts {
    alloc: Global,
    known: bool,
    nodes: Option<Vec<NewNode>>,
    preopens: Option<Vec<ScriptPreopen>>,
    calls: Option<Vec<Call>>,
    memory: Option<ScriptMemory>,
    show: Option<Vec<Shown>>,
    limits: Option<Limits>,
    fuel: Option<u64>,
    table: Option<u32>,
    faults: Option<Vec<Fault>>,
    quota: Option<Quota>,
    services: ServiceParts,
}

impl Fields for Parts {
    ghost use Rattle.wasi_form.specs.FoundParts.{found_of, with_member};
    ghost use Rattle.wasi_form.specs.ScriptForm.{ScriptFound, found_in};

    ghost Seen = { ScriptFound };

    ghost see = { found_of };

    ghost of = { found_in };

    ghost with = { with_member };

    fn none(alloc: Global) -> Parts {
        Parts {
            alloc,
            known: true,
            nodes: None,
            preopens: None,
            calls: None,
            memory: Some(no_memory(alloc)),
            show: Some(Vec::new(alloc)),
            limits: Some(DEFAULT_LIMITS),
            fuel: Some(DEFAULT_FUEL),
            table: Some(DEFAULT_TABLE),
            faults: Some(Vec::new(alloc)),
            quota: Some(Quota::NONE),
            services: ServiceParts::none(alloc),
        }
    }

    #[tactic(auto, unfolding(crate::specs::FoundParts::with_member))]
    fn with_member(mut self, key: &str, reader: &mut Reader<'_>, depth: usize) -> Reading<Self> {
        match key {
            "nodes" => {
                self.nodes = list(self.alloc, reader, depth)?;
                Ok(self)
            }
            "preopens" => {
                self.preopens = list(self.alloc, reader, depth)?;
                Ok(self)
            }
            "calls" => {
                self.calls = list(self.alloc, reader, depth)?;
                Ok(self)
            }
            "memory" => {
                self.memory = memory(self.alloc, reader, depth)?;
                Ok(self)
            }
            "show" => {
                self.show = list(self.alloc, reader, depth)?;
                Ok(self)
            }
            "limits" => {
                self.limits = limits(self.alloc, reader, depth)?;
                Ok(self)
            }
            "fuel" => {
                self.fuel = next_u64(reader, depth)?;
                Ok(self)
            }
            "table" => {
                self.table = next_u32(reader, depth)?;
                Ok(self)
            }
            "faults" => {
                self.faults = faults(self.alloc, reader, depth)?;
                Ok(self)
            }
            "quota" => {
                self.quota = quota(self.alloc, reader, depth)?;
                Ok(self)
            }
            _ => self.with_other(key, reader, depth),
        }
    }
}

impl Parts {
    // With the member of a key that is no part of its own.
    fn with_other(mut self, key: &str, reader: &mut Reader<'_>, depth: usize) -> Reading<Parts>
        ensures { IsRead (λ parts. (found_of parts, reader.new)) result
            (parse_map (λ d. with_beside (service_key key.now) d (found_of self)) (next_value depth reader.old)) }
    {
        match ServiceKey::of(key) {
            Some(service) => {
                self.services = self
                    .services
                    .with_member(self.alloc, service, reader, depth)?;
                Ok(self)
            }
            None => self.with_unknown(reader, depth),
        }
    }

    /// With a member at no key of these parts.
    pub fn with_unknown(mut self, reader: &mut Reader<'_>, depth: usize) -> Reading<Parts>
        ensures { IsRead (λ parts. (found_of parts, reader.new)) result
            (parse_map (λ d. with_beside None d (found_of self)) (next_value depth reader.old)) }
    {
        pass(reader, depth)?;
        self.known = false;
        Ok(self)
    }

    // What is run, of these parts. `None` where one of them is of another shape.
    #[tactic(auto, using(crate::proofs::Items::map_same), unfolding(crate::specs::ScriptForm::session_found))]
    fn session(self) -> Option<Session>
        ensures { (nodes : List NodeData) (limits : TreeLimits)
            → option_map (planned nodes limits) result ≡ session_found nodes limits (found_of self) }
    {
        let ScriptMemory { size, pieces } = self.memory?;
        Some(Session {
            preopens: self.preopens?,
            size,
            pieces,
            show: self.show?,
            calls: self.calls?,
            fuel: self.fuel?,
            table: self.table?,
            faults: self.faults?,
            quota: self.quota?,
            services: self.services.services()?,
        })
    }

    /// The guest of these parts, where their keys are known. `None` where one of them is of another shape.
    #[tactic(auto, unfolding(crate::specs::GuestsForm::guest_found))]
    pub fn guest(self) -> Option<Session>
        ensures { option_map (planned [] default_limits) result ≡ guest_found (found_of self) }
    {
        if self.known { self.session() } else { None }
    }

    // The script of these parts. `None` where one of them is of another shape.
    #[tactic(auto, unfolding(crate::specs::ScriptForm::script_found))]
    fn draft(mut self) -> Option<Draft>
        ensures { option_map drafted result ≡ script_found (found_of self) }
    {
        if !self.known {
            return None;
        }
        let nodes = self.nodes.take()?;
        let limits = self.limits?;
        let session = self.session()?;
        Some(Draft {
            nodes,
            limits,
            session,
        })
    }
}

/// A script.
impl Item for Draft {
    ghost use Rattle.wasi_form.specs.Plan.{Plan, drafted};
    ghost use Rattle.wasi_form.specs.ScriptForm.{script_of};

    ghost Seen = { Plan };

    ghost see = { drafted };

    ghost of = { script_of };

    fn next(alloc: Global, reader: &mut Reader<'_>, depth: usize) -> Reading<Option<Draft>> {
        let parts: Option<Parts> = object(alloc, reader, depth)?;
        match parts {
            Some(parts) => Ok(parts.draft()),
            None => Ok(None),
        }
    }
}

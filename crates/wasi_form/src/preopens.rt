//! The directories of a script that the guest is given.
ghost use Rattle.std.specs.Prelude.{◌≡◌, option_map};
ghost use Rattle.json.specs.Json.{parse_map};
ghost use Rattle.wasi_form.specs.FoundParts.{preopen_found_of};
ghost use Rattle.wasi_form.specs.IsRead.{IsRead};
ghost use Rattle.wasi_form.specs.Lists.{same};
ghost use Rattle.wasi_form.specs.Plan as plans;
ghost use Rattle.wasi_form.specs.PreopenForm as specs;
ghost use Rattle.wasi_form.specs.Tokens.{next_value};

use crate::atoms::{next_text, next_u64};
use crate::lists::Item;
use crate::objects::{Fields, object};
use crate::script::ScriptPreopen;
use crate::shapes::Reading;
use crate::texts::text;
use crate::tokens::pass;
use json::Reader;
use std::alloc::Global;
use wasi_fs::FsPerms;

fn perms_written(text: &str) -> Option<FsPerms>
    ensures { result ≡ specs.perms_written text.now }
{
    if text == "ro" {
        Some(FsPerms::ReadOnly)
    } else if text == "rw" {
        Some(FsPerms::ReadWrite)
    } else if text == "ao" {
        Some(FsPerms::AppendOnly)
    } else {
        None
    }
}

// The next value of a text, read as what may be done below a directory. `None` where it is of another shape.
fn perms(reader: &mut Reader<'_>, depth: usize) -> Reading<Option<FsPerms>>
    ensures { IsRead (λ found. (option_map same found, reader.new)) result
        (parse_map specs.perms_named (next_value depth reader.old)) }
{
    match next_text(reader, depth)? {
        Some(text) => Ok(perms_written(text)),
        None => Ok(None),
    }
}

// Whether all keys are those of a directory that is given, and what stands at them.
#[derive(Drop)]
struct PreopenParts {
    alloc: Global,
    known: bool,
    node: Option<u64>,
    name: Option<String>,
    perms: Option<FsPerms>,
}

impl Fields for PreopenParts {
    ghost use Rattle.wasi_form.specs.PreopenForm.{PreopenFound, preopen_in};
    ghost use Rattle.wasi_form.specs.FoundParts.{preopen_found_of, with_preopen_member};

    ghost Seen = { PreopenFound };

    ghost see = { preopen_found_of };

    ghost of = { preopen_in };

    ghost with = { with_preopen_member };

    fn none(alloc: Global) -> PreopenParts {
        PreopenParts {
            alloc,
            known: true,
            node: None,
            name: None,
            perms: None,
        }
    }

    #[tactic(auto, unfolding(crate::specs::FoundParts::with_preopen_member))]
    fn with_member(mut self, key: &str, reader: &mut Reader<'_>, depth: usize) -> Reading<Self> {
        match key {
            "node" => {
                self.node = next_u64(reader, depth)?;
                Ok(self)
            }
            "name" => {
                self.name = text(self.alloc, reader, depth)?;
                Ok(self)
            }
            "perms" => {
                self.perms = perms(reader, depth)?;
                Ok(self)
            }
            _ => {
                pass(reader, depth)?;
                self.known = false;
                Ok(self)
            }
        }
    }
}

impl PreopenParts {
    // The directory of these parts. `None` where they are of another shape.
    #[tactic(auto, unfolding(crate::specs::PreopenForm::preopen_found))]
    fn preopen(self) -> Option<ScriptPreopen>
        ensures { option_map plans.planned_preopen result ≡ specs.preopen_found (preopen_found_of self) }
    {
        if !self.known {
            return None;
        }
        Some(ScriptPreopen {
            node: self.node?,
            name: self.name?,
            perms: self.perms?,
        })
    }
}

impl Item for ScriptPreopen {
    ghost use Rattle.wasi_form.specs.Plan.{PlannedPreopen};

    ghost Seen = { PlannedPreopen };

    ghost see = { plans.planned_preopen };

    ghost of = { specs.preopen_of };

    fn next(
        alloc: Global,
        reader: &mut Reader<'_>,
        depth: usize,
    ) -> Reading<Option<ScriptPreopen>> {
        let parts: Option<PreopenParts> = object(alloc, reader, depth)?;
        match parts {
            Some(parts) => Ok(parts.preopen()),
            None => Ok(None),
        }
    }
}

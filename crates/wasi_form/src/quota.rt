//! How much the guest of a script may make and grow.
ghost use Rattle.std.specs.Prelude.{◌≡◌, option_map};
ghost use Rattle.json.specs.Json.{parse_map};
ghost use Rattle.wasi_form.specs.FoundParts.{quota_found_of};
ghost use Rattle.wasi_form.specs.IsRead.{IsRead};
ghost use Rattle.wasi_form.specs.Lists.{same};
ghost use Rattle.wasi_form.specs.QuotaForm as specs;
ghost use Rattle.wasi_form.specs.Tokens.{next_value};

use crate::atoms::next_u64;
use crate::objects::{Fields, object};
use crate::shapes::Reading;
use crate::tokens::pass;
use json::Reader;
use std::alloc::Global;
use wasi_guest::Quota;

fn is_bound(n: u64) -> bool
    ensures { result ≡ specs.is_bound n }
{
    n <= 1 << 62
}

// Whether all keys are those of quotas, and what stands at them.
#[derive(Drop)]
struct QuotaParts {
    known: bool,
    nodes: Option<u64>,
    bytes: Option<u64>,
}

impl Fields for QuotaParts {
    ghost use Rattle.wasi_form.specs.QuotaForm.{QuotaFound, quota_in};
    ghost use Rattle.wasi_form.specs.FoundParts.{quota_found_of, with_quota_member};

    ghost Seen = { QuotaFound };

    ghost see = { quota_found_of };

    ghost of = { quota_in };

    ghost with = { with_quota_member };

    fn none(_alloc: Global) -> QuotaParts {
        QuotaParts {
            known: true,
            nodes: None,
            bytes: None,
        }
    }

    #[tactic(auto, unfolding(crate::specs::FoundParts::with_quota_member))]
    fn with_member(mut self, key: &str, reader: &mut Reader<'_>, depth: usize) -> Reading<Self> {
        match key {
            "nodes" => {
                self.nodes = next_u64(reader, depth)?;
                Ok(self)
            }
            "bytes" => {
                self.bytes = next_u64(reader, depth)?;
                Ok(self)
            }
            _ => {
                pass(reader, depth)?;
                self.known = false;
                Ok(self)
            }
        }
    }
}

impl QuotaParts {
    // The quotas of these parts. `None` where they are of another shape.
    #[tactic(auto, unfolding(crate::specs::QuotaForm::quota_found))]
    fn quota(self) -> Option<Quota>
        ensures { option_map same result ≡ specs.quota_found (quota_found_of self) }
    {
        if !self.known {
            return None;
        }
        let nodes = self.nodes?;
        let bytes = self.bytes?;
        if is_bound(nodes) && is_bound(bytes) {
            Some(Quota {
                nodes: Some(nodes),
                bytes: Some(bytes),
            })
        } else {
            None
        }
    }
}

/// The next value of a text, read as the quotas of a guest. `None` where it is of another shape.
pub fn quota(alloc: Global, reader: &mut Reader<'_>, depth: usize) -> Reading<Option<Quota>>
    ensures { IsRead (λ found. (option_map same found, reader.new)) result
        (parse_map specs.quota_of (next_value depth reader.old)) }
{
    let parts: Option<QuotaParts> = object(alloc, reader, depth)?;
    match parts {
        Some(parts) => Ok(parts.quota()),
        None => Ok(None),
    }
}

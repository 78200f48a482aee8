//! How large the tree of a script may grow.
ghost use Rattle.std.specs.Prelude.{◌≡◌, option_map};
ghost use Rattle.json.specs.Json.{parse_map};
ghost use Rattle.wasi_form.specs.FoundParts.{limits_found_of};
ghost use Rattle.wasi_form.specs.IsRead.{IsRead};
ghost use Rattle.wasi_form.specs.LimitsForm as specs;
ghost use Rattle.wasi_form.specs.Lists.{same};
ghost use Rattle.wasi_form.specs.Tokens.{next_value};

use crate::atoms::next_u64;
use crate::objects::{Fields, object};
use crate::shapes::Reading;
use crate::tokens::pass;
use json::Reader;
use std::alloc::Global;
use wasi_host::Limits;

/// The limits of a tree whose script doesn't set them: 1,048,576 nodes, and 65,000 names of a file or a link.
pub const DEFAULT_LIMITS: Limits = Limits {
    nodes: 1_048_576,
    links: 65_000,
};

fn is_limit(n: u64) -> bool
    ensures { result ≡ specs.is_limit n }
{
    1 <= n && n <= 1 << 32
}

// Whether all keys are those of limits, and what stands at them.
#[derive(Drop)]
struct LimitsParts {
    known: bool,
    nodes: Option<u64>,
    links: Option<u64>,
}

impl Fields for LimitsParts {
    ghost use Rattle.wasi_form.specs.LimitsForm.{LimitsFound, limits_in};
    ghost use Rattle.wasi_form.specs.FoundParts.{limits_found_of, with_limits_member};

    ghost Seen = { LimitsFound };

    ghost see = { limits_found_of };

    ghost of = { limits_in };

    ghost with = { with_limits_member };

    fn none(_alloc: Global) -> LimitsParts {
        LimitsParts {
            known: true,
            nodes: None,
            links: None,
        }
    }

    #[tactic(auto, unfolding(crate::specs::FoundParts::with_limits_member))]
    fn with_member(mut self, key: &str, reader: &mut Reader<'_>, depth: usize) -> Reading<Self> {
        match key {
            "nodes" => {
                self.nodes = next_u64(reader, depth)?;
                Ok(self)
            }
            "links" => {
                self.links = next_u64(reader, depth)?;
                Ok(self)
            }
            _ => {
                pass(reader, depth)?;
                self.known = false;
                Ok(self)
            }
        }
    }
}

impl LimitsParts {
    // The limits of these parts. `None` where they are of another shape.
    #[tactic(auto, unfolding(crate::specs::LimitsForm::limits_found))]
    fn limits(self) -> Option<Limits>
        ensures { option_map same result ≡ specs.limits_found (limits_found_of self) }
    {
        if !self.known {
            return None;
        }
        let nodes = self.nodes?;
        let links = self.links?;
        if is_limit(nodes) && is_limit(links) {
            Some(Limits { nodes, links })
        } else {
            None
        }
    }
}

/// The next value of a text, read as the limits of a tree. `None` where it is of another shape.
pub fn limits(alloc: Global, reader: &mut Reader<'_>, depth: usize) -> Reading<Option<Limits>>
    ensures { IsRead (λ found. (option_map same found, reader.new)) result
        (parse_map specs.limits_of (next_value depth reader.old)) }
{
    let parts: Option<LimitsParts> = object(alloc, reader, depth)?;
    match parts {
        Some(parts) => Ok(parts.limits()),
        None => Ok(None),
    }
}

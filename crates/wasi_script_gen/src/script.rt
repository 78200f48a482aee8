//! The whole script of `gen n`.
ghost use Rattle.std.specs.Prelude.{◌≡◌, ◌<◌, ◌≤◌, true, IfOk, map};
ghost use Rattle.wasi_form.specs.Plan.{plan, planned_preopen};
ghost use Rattle.wasi_form.specs.Within.{is_within_limits};
ghost use Rattle.wasi_guest.specs.Quotas.{IsQuota};
ghost use Rattle.wasi_guest.specs.Services.{handed};
ghost use Rattle.wasi_script_gen.specs.GenScript as specs;

use crate::calls::{Turns, all_turns};
use crate::nodes::gen_nodes;
use std::alloc::{AllocError, Global};
use wasi_form::{DEFAULT_FUEL, DEFAULT_LIMITS, DEFAULT_TABLE, Script, ScriptPreopen, Session};
use wasi_fs::FsPerms;
use wasi_guest::{Quota, Services, WallDatetime};

// The one preopen: node 0, read-write.
fn preopens(alloc: Global) -> Result<Vec<ScriptPreopen>, AllocError>
    ensures { IfOk result (λ all. map planned_preopen all.items ≡ specs.gen_preopens) }
{
    let mut all = Vec::with_capacity(alloc, 1)?;
    all.push(ScriptPreopen {
        node: 0,
        name: String::from_str(alloc, "/")?,
        perms: FsPerms::ReadWrite,
    })?;
    Ok(all)
}

// The guest environment of a script that sets none of it.
fn services(alloc: Global) -> Services
    ensures { handed result ≡ specs.gen_services }
{
    Services {
        args: Vec::new(alloc),
        env: Vec::new(alloc),
        stdin: Vec::new(alloc),
        wall: WallDatetime {
            seconds: 0,
            nanoseconds: 0,
        },
        wall_resolution: WallDatetime {
            seconds: 0,
            nanoseconds: 1,
        },
        monotonic: 0,
        monotonic_resolution: 1,
        random: Vec::new(alloc),
    }
}

/// The script of `gen n`, for a number n from 1 to 9,999: a test of growing size, whose report is known.
///
/// Node 0 is a directory with the names `d0` to `d(n-1)`. Each of them, `di`, has two entries. The file `f` has the
/// decimal digits of i. The link `up` has the text `../dj/f`, with j = (i + 1) mod n, so it leads to the next
/// directory's file.
///
/// The guest has the read-write preopen `/`, which is node 0. For each i it opens `di/up`, following the link, reads up
/// to 16 bytes, closes the file, and makes the directory `ni`. Its memory has 1024 + 32n bytes.
///
/// `AllocError` means out of memory, and nothing else. The script is within the limits of scripts.
pub fn gen_script(alloc: Global, n: u64) -> Result<Script, AllocError>
    requires some { 1 ≤ n }
    requires few { n < 10000 }
    ensures script { IfOk result (λ script. plan script ≡ specs.gen_script n) }
    ensures within { IfOk result (λ script. is_within_limits (plan script) ≡ true) }
    ensures quota { IfOk result (λ script. IsQuota script.session.quota) }
{
    let nodes = gen_nodes(alloc, n, DEFAULT_LIMITS)?;
    let Turns { pieces, calls } = all_turns(alloc, n)?;
    Ok(Script {
        nodes,
        session: Session {
            preopens: preopens(alloc)?,
            size: 1024 + 32 * n as u32,
            pieces,
            show: Vec::new(alloc),
            calls,
            fuel: DEFAULT_FUEL,
            table: DEFAULT_TABLE,
            faults: Vec::new(alloc),
            quota: Quota::NONE,
            services: services(alloc),
        },
    })
}

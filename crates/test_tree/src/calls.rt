//! Calls of a tree by a handle.
ghost use Rattle.std.specs.Prelude.{◌≡◌, ℕ, true, IfOk};
ghost use Rattle.std.specs.FinSet.{contains};
ghost use Rattle.wasi_tree.specs.MemState.{live_of};

use std::alloc::Global;
use test_support::{
    Asked, Rendered, answered, coded, done, number, refused, rendered, rendered_node,
    rendered_times, time_of, unknown, word,
};
use wasi_host::{Advice, Handle, Host, HostError};
use wasi_paths::Name;
use wasi_tree::{HandleError, MemTree};

/// The name of a text, or `.` where that isn't plain.
pub fn name_of(text: &str) -> Name<'_> {
    Name::plain(text).unwrap_or(Name::dot())
}

/// The handle that a word names: `it`, or one of the directory of that number.
#[tactic(auto, using(wasi_host::proofs::Chain::live_rules))]
pub fn start_of(tree: &mut MemTree, it: Handle, word: &str) -> Result<Handle, HandleError>
    requires { contains (live_of tree.old.handles) it ≡ true }
    ensures live { IfOk result (λ h. contains (live_of tree.new.handles) h ≡ true) }
    ensures kept { (h : ℕ) → contains (live_of tree.old.handles) h ≡ true
        → contains (live_of tree.new.handles) h ≡ true }
{
    if word == "it" {
        return Ok(it);
    }
    tree.handle(number(word))
}

/// `START CALL ARGUMENTS`.
pub fn call(tree: &mut MemTree, it: Handle, line: &Asked<'_>) -> Rendered
    requires { contains (live_of tree.old.handles) it ≡ true }
    ensures { contains (live_of tree.new.handles) it ≡ true }
{
    let asked = Asked::of(line.alloc, line.rest);
    match start_of(tree, it, line.what) {
        Ok(start) => match asked.what {
            "link" => pair(tree, it, start, &asked),
            "rename" => pair(tree, it, start, &asked),
            _ => change(tree, start, &asked),
        },
        Err(error) => rendered(line.alloc, &error),
    }
}

/// `NAME START NAME`, the old name first.
fn pair(tree: &mut MemTree, it: Handle, old: Handle, asked: &Asked<'_>) -> Rendered
    requires it { contains (live_of tree.old.handles) it ≡ true }
    requires old { contains (live_of tree.old.handles) old ≡ true }
    ensures { contains (live_of tree.new.handles) it ≡ true }
{
    let (old_name, rest) = word(asked.rest);
    let (new, new_name) = word(rest);
    match start_of(tree, it, new) {
        Ok(new) => {
            let given = at_two(tree, asked.what, old, old_name, new, new_name);
            done(asked.alloc, given)
        }
        Err(error) => rendered(asked.alloc, &error),
    }
}

/// Gives what the old name holds the new one too, or moves it there; a slash after the new one asks for a directory.
pub fn at_two<H: Host>(
    host: &mut H,
    what: &str,
    old: Handle,
    old_name: &str,
    new: Handle,
    new_name: &str,
) -> Result<(), HostError>
    requires old { contains (H.live host.old) old ≡ true }
    requires new { contains (H.live host.old) new ≡ true }
    ensures { H.live host.new ≡ H.live host.old }
{
    let plain_name = new_name.strip_suffix('/').unwrap_or(new_name);
    let requires_dir = plain_name.len() < new_name.len();
    if what == "link" {
        return host.link_at(old, name_of(old_name), new, name_of(new_name));
    }
    host.rename_at(
        old,
        name_of(old_name),
        new,
        name_of(plain_name),
        requires_dir,
    )
}

/// A change of what a name of a directory holds.
pub fn change<H: Host>(host: &mut H, start: Handle, asked: &Asked<'_>) -> Rendered
    requires { contains (H.live host.old) start ≡ true }
    ensures { H.live host.new ≡ H.live host.old }
{
    let alloc = asked.alloc;
    let (name, left) = word(asked.rest);
    let name = name_of(name);
    let (first, second) = word(left);
    match asked.what {
        "mkdir" => done(alloc, host.make_dir_at(start, name)),
        "symlink" => done(alloc, host.symlink_at(first, start, name)),
        "unlink" => done(alloc, host.unlink_at(start, name)),
        "rmdir" => done(alloc, host.remove_dir_at(start, name)),
        "times" => {
            let set = host.times_at(start, name, time_of(first), time_of(second));
            done(alloc, set)
        }
        _ => look(host, start, asked),
    }
}

/// A look at a directory, or at what a name of it holds.
fn look<H: Host>(host: &mut H, start: Handle, asked: &Asked<'_>) -> Rendered
    requires { contains (H.live host.old) start ≡ true }
    ensures { H.live host.new ≡ H.live host.old }
{
    let alloc = asked.alloc;
    let name = name_of(asked.rest);
    match asked.what {
        "stat" => rendered_node(alloc, host.stat_at(start, name)),
        "readlink" => {
            let link = host.read_link_at(alloc, start, name);
            answered(alloc, link)
        }
        "access" => done(alloc, coded(host.access(start))),
        "list" => {
            let entries = host.list(alloc, start);
            answered(alloc, entries)
        }
        _ => held_call(host, start, asked),
    }
}

/// A call of what a handle refers to.
fn held_call<H: Host>(host: &mut H, held: Handle, asked: &Asked<'_>) -> Rendered
    requires { contains (H.live host.old) held ≡ true }
    ensures { H.live host.new ≡ H.live host.old }
{
    let alloc = asked.alloc;
    let (first, second) = word(asked.rest);
    match asked.what {
        "held" => rendered_node(alloc, coded(host.stat(held))),
        "when" => rendered_times(alloc, coded(host.stat(held))),
        "set_times" => {
            let set = host.set_times(held, time_of(first), time_of(second));
            done(alloc, coded(set))
        }
        "sync" => done(alloc, coded(host.sync(held))),
        "flags" => answered(alloc, coded(host.flags(held))),
        _ => file_call(host, held, asked),
    }
}

/// A call of a file.
fn file_call<H: Host>(host: &mut H, file: Handle, asked: &Asked<'_>) -> Rendered
    requires { contains (H.live host.old) file ≡ true }
    ensures { H.live host.new ≡ H.live host.old }
{
    let alloc = asked.alloc;
    let (first, rest) = word(asked.rest);
    let (second, third) = word(rest);
    match asked.what {
        "pread" => read(alloc, host, file, number(first)),
        "pwrite" => {
            let written = host.pwrite(file, second.as_bytes(), number(first));
            answered(alloc, written)
        }
        "append" => {
            let written = host.append(file, first.as_bytes());
            answered(alloc, written)
        }
        "set_size" => done(alloc, host.set_size(file, number(first))),
        "advise" => {
            let advised = host.advise(file, number(first), number(second), advice_of(third));
            done(alloc, coded(advised))
        }
        _ => unknown(alloc),
    }
}

/// The advice of a word; `Normal` where it is none.
fn advice_of(word: &str) -> Advice {
    match word {
        "sequential" => Advice::Sequential,
        "random" => Advice::Random,
        "willneed" => Advice::WillNeed,
        "dontneed" => Advice::DontNeed,
        "noreuse" => Advice::NoReuse,
        _ => Advice::Normal,
    }
}

/// How many bytes a file gave, and a buffer of 16 bytes into which they were read.
fn read<H: Host>(alloc: Global, host: &mut H, file: Handle, offset: u64) -> Rendered
    requires { contains (H.live host.old) file ≡ true }
    ensures { H.live host.new ≡ H.live host.old }
{
    let mut buf = [0u8; 16];
    match coded(host.pread(file, &mut buf, offset)) {
        Ok(count) => {
            let text = str::from_utf8(&buf).unwrap_or("no text");
            rendered(alloc, &(count, text))
        }
        Err(error) => refused(alloc, error),
    }
}

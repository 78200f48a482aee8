//! What a directory opens, and the calls of what was opened.
ghost use Rattle.std.specs.Prelude.{◌≡◌, true};
ghost use Rattle.std.specs.FinSet.{contains};
ghost use Rattle.wasi_fs.specs.Calls.{handle_of};

use std::alloc::Global;
use test_support::{Asked, Rendered, done, refused, rendered, time_of, word};
use wasi_fs::{
    Descriptor, DescriptorFlags, Dir, File, Flags, FsPerms, OpenFlags, OpenMode, PathFlags,
};
use wasi_host::{Advice, Handle, Host, HostError};

/// `ATIME MTIME`: sets the times of the directory itself.
pub fn set_own_times<H: Host>(host: &mut H, root: Handle, asked: &Asked<'_>) -> Rendered
    requires { contains (H.live host.old) root ≡ true }
{
    let (atime, mtime) = word(asked.rest);
    let dir = Dir::new(root, FsPerms::ReadWrite, OpenMode::READ);
    let set = Descriptor::Dir(dir).set_times(host, time_of(atime), time_of(mtime));
    done(asked.alloc, set)
}

/// `MODE`: stores the directory itself, which was opened for this.
pub fn store_own<H: Host>(host: &mut H, root: Handle, asked: &Asked<'_>) -> Rendered
    requires { contains (H.live host.old) root ≡ true }
{
    let mode = OpenMode::from_bits_retain(bits(asked.rest));
    let dir = Dir::new(root, FsPerms::ReadWrite, mode);
    rendered_stored(asked.alloc, host, &Descriptor::Dir(dir))
}

fn bits(word: &str) -> usize {
    word.parse::<usize>().unwrap_or(0)
}

/// `PERMISSIONS PATH_FLAGS PATH OPEN_FLAGS FLAGS`.
#[tactic(auto, using(wasi_host::proofs::Chain::live_rules))]
pub fn opened<H: Host>(host: &mut H, root: Handle, asked: &Asked<'_>) -> Rendered
    requires { contains (H.live host.old) root ≡ true }
{
    let alloc = asked.alloc;
    let (perms, rest) = word(asked.rest);
    let (path_flags, rest) = word(rest);
    let (path, rest) = word(rest);
    let (open_flags, flags) = word(rest);
    let perms = if perms == "ReadOnly" {
        FsPerms::ReadOnly
    } else {
        FsPerms::ReadWrite
    };
    let dir = Dir::new(root, perms, OpenMode::READ);
    let path_flags = PathFlags::from_bits_retain(bits(path_flags));
    let open_flags = OpenFlags::from_bits_retain(bits(open_flags));
    let flags = DescriptorFlags::from_bits_retain(bits(flags));
    match dir.open_at(alloc, host, path_flags, path, open_flags, flags) {
        Ok(descriptor) => match asked.what {
            "use_at" => rendered_use(alloc, host, &descriptor),
            "store_at" => rendered_stored(alloc, host, &descriptor),
            _ => rendered_opened(alloc, host, &Descriptor::Dir(dir), &descriptor),
        },
        Err(error) => refused(alloc, error),
    }
}

fn handle_in(descriptor: &Descriptor) -> Handle
    ensures { result ≡ handle_of descriptor.now }
{
    match descriptor {
        Descriptor::File(file) => file.file,
        Descriptor::Dir(dir) => dir.dir,
    }
}

fn mode_of(descriptor: &Descriptor) -> OpenMode {
    match descriptor {
        Descriptor::File(file) => file.open_mode,
        Descriptor::Dir(dir) => dir.open_mode,
    }
}

/// Its mode, what is said of it, its kind, its hash, and whether it is the node of `root`.
fn rendered_opened<H: Host>(
    alloc: Global,
    host: &mut H,
    root: &Descriptor,
    opened: &Descriptor,
) -> Rendered
    requires root { contains (H.live host.old) (handle_of root.now) ≡ true }
    requires opened { contains (H.live host.old) (handle_of opened.now) ≡ true }
{
    let mode = mode_of(opened);
    let stat = opened.stat(host);
    let kind = opened.get_type(host);
    let hash = opened.metadata_hash(host);
    let is_root = opened.is_same_object(host, root);
    rendered(alloc, &(mode, stat, kind, hash, is_root))
}

/// Its mode, whether it can be read and written, and its size.
fn rendered_use<H: Host>(alloc: Global, host: &mut H, opened: &Descriptor) -> Rendered
    requires { contains (H.live host.old) (handle_of opened.now) ≡ true }
{
    let mode = mode_of(opened);
    let handle = handle_in(opened);
    let reads = host.pread(handle, &mut [], 0).is_ok();
    let writes = host.pwrite(handle, &[], 0).is_ok();
    match host.stat(handle) {
        Ok(metadata) => rendered(alloc, &(mode, reads, writes, metadata.len())),
        Err(code) => rendered(alloc, &code),
    }
}

/// What it is for, whether it was stored, and of a file what became of it.
fn rendered_stored<H: Host>(alloc: Global, host: &mut H, opened: &Descriptor) -> Rendered
    requires { contains (H.live host.old) (handle_of opened.now) ≡ true }
{
    let flags = opened.get_flags(host);
    let stored = opened.sync(alloc, host);
    let data_stored = opened.sync_data(alloc, host);
    match opened {
        Descriptor::Dir(_) => rendered(alloc, &(flags, stored, data_stored)),
        Descriptor::File(file) => {
            let sized = sized(host, file);
            rendered(alloc, &(flags, stored, data_stored, sized))
        }
    }
}

/// Whether the host was told how the file is used, whether it was cut or filled to 7 bytes, and its size then.
fn sized<H: Host>(host: &mut H, file: &File) -> (Result<(), HostError>, Result<(), HostError>, u64)
    requires { contains (H.live host.old) file.now.file ≡ true }
{
    let advised = file.advise(host, 1, 2, Advice::Sequential);
    let set = file.set_size(host, 7);
    match host.stat(file.file) {
        Ok(metadata) => (advised, set, metadata.len()),
        Err(_) => (advised, set, u64::MAX),
    }
}

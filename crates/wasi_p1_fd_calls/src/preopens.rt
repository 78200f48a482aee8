//! The names of preopens.
ghost use Rattle.std.specs.Prelude.{◌≡◌, ◌≢◌, false, length, slice_get, option_map, None, Ok, IfErr, OnErr};
ghost use Rattle.std.specs.Result.{result_map_both};
ghost use Rattle.wasi_p1_types.specs.CallParts.{is_failure};
ghost use Rattle.wasi_p1_types.specs.Files.{name_at, name_into, or_refused};
ghost use Rattle.wasi_p1_types.specs.Guest.{guest_slots};
ghost use Rattle.wasi_p1_types.specs.Services.{with_unit};
ghost use Rattle.wasi_p1_types.specs.CallParts.{with_after};
ghost use Rattle.wasi_guest.specs.declared.errno.Errno.TheVariants as errnos;

use wasi_fs::File;
use wasi_guest::{Errno, write_bytes};
use wasi_host::Host;
use wasi_p1_state::descriptors::Descriptors;
use wasi_p1_types::{GuestEnv, P1Error, Slot, Stream, bytes_at};

/// The name of the preopen of a number, if it is one.
fn preopen_name<'h, H: Host>(
    host: &H,
    descriptors: &Descriptors,
    holdings: &'h GuestEnv,
    fd: u32,
) -> Option<&'h str>
    ensures name { option_map (λ name. name.now) result ≡ name_at holdings.now.preopens
        (slice_get (guest_slots (H.model host.now).held descriptors.now.slots) fd) }
{
    match descriptors.get(fd)? {
        Slot::Directory(directory) => holdings.preopen_name(directory.preopen?),
        Slot::File(_) | Slot::Stream(_) | Slot::Closed => None,
    }
}

/// The name of the preopen of a number; another number is refused.
pub fn preopen_at<'h, H: Host>(
    host: &H,
    descriptors: &Descriptors,
    holdings: &'h GuestEnv,
    fd: u32,
    refusal: Errno,
) -> Result<&'h str, P1Error>
    requires code { refusal ≢ errnos.Io }
    ensures refusal { IfErr result (λ e. is_failure e ≡ false) }
    ensures specified { result_map_both (λ name. name.now) (λ e. e) result ≡ or_refused refusal
        (name_at holdings.now.preopens (slice_get (guest_slots (H.model host.now).held descriptors.now.slots) fd)) }
{
    preopen_name(host, descriptors, holdings, fd).ok_or(P1Error::Errno(refusal))
}

/// Puts a name into a range of memory: Nametoolong where it is longer than the range may be, and trap Pointer where the
/// memory doesn't hold it there.
#[tactic(auto, unfolding(wasi_p1_types::specs::Files::name_into, wasi_p1_types::specs::Files::name_within))]
pub fn put_name(memory: &mut [u8], path: u32, path_len: u32, name: &str) -> Result<(), P1Error>
    ensures size { length memory.new ≡ length memory.old }
    ensures same { OnErr result (memory.new ≡ memory.old) }
    ensures refusal { IfErr result (λ e. is_failure e ≡ false) }
    ensures specified { with_after result memory.new ≡ with_unit (name_into memory.old path name.now path_len) }
{
    let bytes = name.as_bytes();
    if (path_len as usize) < bytes.len() {
        return Err(P1Error::Errno(Errno::Nametoolong));
    }
    bytes_at(memory, path, bytes.len() as u32)?;
    write_bytes(memory, path as usize, bytes);
    Ok(())
}

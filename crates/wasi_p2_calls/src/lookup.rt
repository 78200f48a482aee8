//! What a resource refers to: copies, which name the same handles, since a call changes its table beside them.
ghost use Rattle.std.specs.Prelude.{◌≡◌, IfOk};
ghost use Rattle.wasi_fs.specs.Calls.{handle_of};
ghost use Rattle.wasi_p2_types.specs.FsErrors.{raised};
ghost use Rattle.wasi_p2_calls.specs.Resources.{descriptor_at, directory_at, file_at, file_or, writable_at, HasIt};

use crate::types::ErrorCode;
use crate::{FsError, FsResult};
use wasi_fs::{Act, Descriptor, Dir, File};
use wasi_host::HostError;
use wasi_streams::{Resource, ResourceTable};

/// The descriptor of a resource. Refusals: a trap where it is missing or of another kind.
pub fn descriptor_at(table: &ResourceTable, fd: Resource) -> FsResult<Descriptor>
    ensures is { result ≡ descriptor_at table.now.entries fd.number }
    ensures has { IfOk result (λ d. HasIt table.now.entries fd.number (handle_of d)) }
{
    match table.descriptor(fd)? {
        Descriptor::File(file) => Ok(Descriptor::File(copy_file(file))),
        Descriptor::Dir(dir) => Ok(Descriptor::Dir(copy_dir(dir))),
    }
}

/// The directory of a resource. Refusals: those of its descriptor, then NotDirectory of a file.
pub fn directory_at(table: &ResourceTable, fd: Resource) -> FsResult<Dir>
    ensures is { result ≡ directory_at table.now.entries fd.number }
    ensures has { IfOk result (λ d. HasIt table.now.entries fd.number d.dir) }
{
    match table.descriptor(fd)? {
        Descriptor::File(_) => Err(FsError::Code(ErrorCode::NotDirectory)),
        Descriptor::Dir(dir) => Ok(copy_dir(dir)),
    }
}

/// The file of a resource. Refusals: those of its descriptor, then BadDescriptor of a directory.
pub fn file_at(table: &ResourceTable, fd: Resource) -> FsResult<File>
    ensures is { result ≡ file_at table.now.entries fd.number }
    ensures has { IfOk result (λ f. HasIt table.now.entries fd.number f.file) }
{
    file_or(table, fd, ErrorCode::BadDescriptor)
}

/// The file of a resource. Refusals: those of its descriptor, then this code of a directory.
pub fn file_or(table: &ResourceTable, fd: Resource, of_directory: ErrorCode) -> FsResult<File>
    ensures is { result ≡ file_or of_directory table.now.entries fd.number }
    ensures has { IfOk result (λ f. HasIt table.now.entries fd.number f.file) }
{
    match table.descriptor(fd)? {
        Descriptor::File(file) => Ok(copy_file(file)),
        Descriptor::Dir(_) => Err(FsError::Code(of_directory)),
    }
}

/// The file of a resource, to which this is to be done. Refusals: those of `file_at`, then NotPermitted of what isn't
/// permitted.
pub fn writable_at(table: &ResourceTable, fd: Resource, act: Act) -> FsResult<File>
    ensures is { result ≡ writable_at act table.now.entries fd.number }
    ensures has { IfOk result (λ f. HasIt table.now.entries fd.number f.file) }
{
    let file = file_at(table, fd)?;
    if !file.perms.permits(act) {
        return Err(FsError::Code(ErrorCode::NotPermitted));
    }
    Ok(file)
}

fn copy_file(file: &File) -> File
    ensures { result ≡ file.now }
{
    File::new(file.file, file.perms, file.open_mode)
}

fn copy_dir(dir: &Dir) -> Dir
    ensures { result ≡ dir.now }
{
    Dir::new(dir.dir, dir.perms, dir.open_mode)
}

/// What a lower call answered, its refusal as one of a view's calls.
pub fn raised<T>(answer: Result<T, HostError>) -> FsResult<T>
    ensures { result ≡ raised (λ value. value) answer }
{
    Ok(answer?)
}

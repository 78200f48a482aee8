//! The metadata of nodes.
use std::alloc::{AllocError, Global};
use test_support::{number, rendered, time_of, unknown, word};
use wasi_fs::{Descriptor, DescriptorStat, Dir, File, Flags, FsPerms, MetadataHashValue, OpenMode};
use wasi_host::{FileType, Handle, Metadata, SystemTime};

pub fn answer(alloc: Global, what: &str, rest: &str) -> Result<String, AllocError> {
    match what {
        "kind" => rendered_kind(alloc, kind_of(rest)),
        "metadata" => rendered_metadata(alloc, &metadata_of(rest)),
        "stat" => rendered(alloc, &DescriptorStat::new(&metadata_of(rest))),
        "hash" => rendered(alloc, &MetadataHashValue::new(&metadata_of(rest))),
        "descriptor" => rendered_descriptor(alloc, &descriptor_of(rest)),
        _ => unknown(alloc),
    }
}

fn rendered_kind(alloc: Global, kind: FileType) -> Result<String, AllocError> {
    let answers = [
        kind.is_dir(),
        kind.is_file(),
        kind.is_symlink(),
        kind.is_char_device(),
        kind.is_block_device(),
    ];
    rendered(alloc, &answers)
}

fn rendered_metadata(alloc: Global, metadata: &Metadata) -> Result<String, AllocError> {
    let times = (metadata.accessed(), metadata.modified(), metadata.created());
    let answers = (
        metadata.file_type(),
        metadata.is_dir(),
        metadata.len(),
        times,
        metadata.dev(),
        metadata.ino(),
        metadata.nlink(),
    );
    rendered(alloc, &answers)
}

fn rendered_descriptor(alloc: Global, descriptor: &Descriptor) -> Result<String, AllocError> {
    let file = descriptor
        .file()
        .map(|file| (file.file, file.perms, file.open_mode));
    let dir = descriptor
        .dir()
        .map(|dir| (dir.dir, dir.perms, dir.open_mode));
    rendered(alloc, &(file, dir))
}

fn kind_of(word: &str) -> FileType {
    match word {
        "Directory" => FileType::Directory,
        "RegularFile" => FileType::RegularFile,
        "SymbolicLink" => FileType::SymbolicLink,
        "CharacterDevice" => FileType::CharacterDevice,
        "BlockDevice" => FileType::BlockDevice,
        _ => FileType::Unknown,
    }
}

// `KIND SIZE ATIME MTIME BTIME NODE LINKS`.
fn metadata_of(text: &str) -> Metadata {
    let (kind, rest) = word(text);
    let (size, rest) = word(rest);
    let (atime, rest) = word(rest);
    let (mtime, rest) = word(rest);
    let (btime, rest) = word(rest);
    let (node, links) = word(rest);
    Metadata {
        kind: kind_of(kind),
        size: number(size),
        atime: time_of(atime).unwrap_or(SystemTime::EPOCH),
        mtime: time_of(mtime).unwrap_or(SystemTime::EPOCH),
        btime: time_of(btime).unwrap_or(SystemTime::EPOCH),
        node: number(node),
        links: number(links),
    }
}

// `KIND HANDLE PERMISSIONS MODE`.
fn descriptor_of(text: &str) -> Descriptor {
    let (kind, rest) = word(text);
    let (handle, rest) = word(rest);
    let (perms, mode) = word(rest);
    let handle = Handle::from_number(number(handle));
    let perms = if perms == "ReadWrite" {
        FsPerms::ReadWrite
    } else {
        FsPerms::ReadOnly
    };
    let mode = OpenMode::from_bits_retain(mode.parse::<usize>().unwrap_or(0));
    if kind == "file" {
        Descriptor::File(File::new(handle, perms, mode))
    } else {
        Descriptor::Dir(Dir::new(handle, perms, mode))
    }
}

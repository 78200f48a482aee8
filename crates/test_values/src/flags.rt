//! Sets of flags.
use bitflags::Flags;
use std::alloc::{AllocError, Global};
use std::fmt::Debug;
use test_support::{number, rendered, unknown, word};
use wasi_fs::{DescriptorFlags, OpenFlags, OpenMode, PathFlags};
use wasi_guest::{
    EventRwFlags, FdFlags, FstFlags, LookupFlags, OFlags, RiFlags, Rights, SdFlags, SubclockFlags,
};

pub fn answer(alloc: Global, what: &str, rest: &str) -> Result<String, AllocError> {
    let bits = number(rest);
    match what {
        "bits" => bits_answer(alloc, rest),
        "fs" => rendered_fs(alloc, bits as usize),
        "mode" => rendered_mode(alloc, bits as usize),
        "rights" => rendered(alloc, &Rights::from_bits(bits).is_some()),
        "guest" => rendered_guest(alloc, rest.parse::<u32>().unwrap_or(0)),
        "socket" => rendered_socket(alloc, rest.parse::<u32>().unwrap_or(0)),
        "poll" => rendered_poll(alloc, rest.parse::<u16>().unwrap_or(0)),
        "makes" => rendered_makes(alloc, rest.parse::<u32>().unwrap_or(0)),
        _ => unknown(alloc),
    }
}

fn bits_answer(alloc: Global, rest: &str) -> Result<String, AllocError> {
    let (set, name) = word(rest);
    match set {
        "PathFlags" => rendered_bits::<PathFlags>(alloc, name),
        "OpenFlags" => rendered_bits::<OpenFlags>(alloc, name),
        "DescriptorFlags" => rendered_bits::<DescriptorFlags>(alloc, name),
        "LookupFlags" => rendered_bits::<LookupFlags>(alloc, name),
        "OFlags" => rendered_bits::<OFlags>(alloc, name),
        "FdFlags" => rendered_bits::<FdFlags>(alloc, name),
        "FstFlags" => rendered_bits::<FstFlags>(alloc, name),
        "SubclockFlags" => rendered_bits::<SubclockFlags>(alloc, name),
        "EventRwFlags" => rendered_bits::<EventRwFlags>(alloc, name),
        "RiFlags" => rendered_bits::<RiFlags>(alloc, name),
        "SdFlags" => rendered_bits::<SdFlags>(alloc, name),
        "Rights" => rendered_bits::<Rights>(alloc, name),
        _ => unknown(alloc),
    }
}

fn rendered_bits<F: Flags>(alloc: Global, name: &str) -> Result<String, AllocError>
where
    F::Bits: Debug,
{
    rendered(alloc, &F::from_name(name).map(|flag| flag.bits()))
}

fn rendered_fs(alloc: Global, bits: usize) -> Result<String, AllocError> {
    let known = (
        PathFlags::from_bits(bits).is_some(),
        OpenFlags::from_bits(bits).is_some(),
        DescriptorFlags::from_bits(bits).is_some(),
    );
    rendered(alloc, &known)
}

fn rendered_guest(alloc: Global, bits: u32) -> Result<String, AllocError> {
    let known = (
        LookupFlags::from_bits(bits).is_some(),
        FstFlags::from_bits(bits).is_some(),
        FdFlags::from_bits(bits).is_some(),
    );
    rendered(alloc, &known)
}

fn rendered_socket(alloc: Global, bits: u32) -> Result<String, AllocError> {
    let known = (
        RiFlags::from_bits(bits).is_some(),
        SdFlags::from_bits(bits).is_some(),
    );
    rendered(alloc, &known)
}

fn rendered_poll(alloc: Global, bits: u16) -> Result<String, AllocError> {
    let known = (
        SubclockFlags::from_bits(bits).is_some(),
        EventRwFlags::from_bits(bits).is_some(),
    );
    rendered(alloc, &known)
}

fn rendered_mode(alloc: Global, bits: usize) -> Result<String, AllocError> {
    let mode = OpenMode::from_bits(bits);
    let got = mode.map(|m| (m.contains(OpenMode::READ), m.contains(OpenMode::WRITE)));
    rendered(alloc, &got)
}

fn rendered_makes(alloc: Global, bits: u32) -> Result<String, AllocError> {
    rendered(
        alloc,
        &OFlags::from_bits(bits).map(|set| set.contains(OFlags::CREAT)),
    )
}

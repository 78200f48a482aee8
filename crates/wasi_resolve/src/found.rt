//! What a walk is for, and what it finds.

use crate::name_left::NameLeft;
use wasi_host::{FollowSymlinks, Handle, Metadata, OpenOptions};

/// What a walk is for: to open with these options, or to look.
#[derive(Clone, Copy, Debug)]
pub(crate) enum Aim {
    Open(OpenOptions),
    Look(FollowSymlinks),
}

/// What a walk finds: what was opened, or what was looked at.
#[derive(Clone, Copy, Debug)]
pub(crate) enum Found {
    Handle(Handle),
    Metadata(Metadata),
}

/// Where the walk stops that takes the parts up to the next link.
#[derive(Debug, Drop)]
pub(crate) enum Stop<'p> {
    /// In a directory, since no part is left.
    Dot,
    /// At a name that is the last part, of which nothing was asked yet.
    Last(NameLeft<'p>),
    /// At a link that is to be read.
    Link(NameLeft<'p>),
}

/// Where such a walk ends: with what it found, or at a link that is to be read.
#[derive(Debug, Drop)]
pub(crate) enum Reach<'p> {
    Found(Found),
    Link(NameLeft<'p>),
}

//! The components of a path's text, from both ends.
ghost use Rattle.std.specs.Prelude.{◌≡◌, map, option_to_list};
ghost use Rattle.std.specs.Iterator.{YieldsFirstBy, YieldsLastBy, YieldsFirstRef, YieldsLastRef, item_count};
ghost use Rattle.std.specs.Option.{option_map};
ghost use Rattle.std.specs.Str.Iter.{split_pattern};
ghost use Rattle.wasi_paths.specs.Text.{is_dot_text};
ghost use Rattle.wasi_paths.specs.Parts.{segments, first_segment, lead, is_kept, component_of, components};
ghost use Rattle.wasi_paths.specs.Part.{component, kept_left};

use crate::part::Part;
use crate::path::has_root;
use std::marker::Model;
use std::str::Split;

/// An iterator over the components of a path's text, from both ends. Contracts see the list of those still to come:
/// `next` gives the first and leaves the others, `next_back` the last, and either is `None` exactly where none is left.
#[derive(Drop)]
pub struct Parts<'a> {
    lead: Option<Part<'a>>,
    segments: Split<'a, char>,
}

impl<'a> Model for Parts<'a> {
    ghost use Rattle.std.specs.Prelude.{◌≡◌, List};
    ghost use Rattle.std.specs.Str.Iter.{split_pattern};
    ghost use Rattle.wasi_paths.specs.Parts.{Component};

    ghost Value = { List Component };

    ghost use Rattle.wasi_paths.specs.Part.{components_left};

    ghost view = { λ a. components_left a.lead a.segments };

    ghost invariant = { λ a. split_pattern a.segments ≡ 47 };
}

impl<'a> Parts<'a> {
    pub(crate) fn new(path: &'a str) -> Parts<'a>
        ensures { result ≡ components path.now }
    {
        Parts {
            lead: lead_of(path),
            segments: path.split('/'),
        }
    }
}

impl<'a> Iterator for Parts<'a> {
    type Item = Part<'a>;

    ghost next_gives = { YieldsFirstBy component (λ rest. rest) };

    ghost remaining = { item_count (λ rest. rest) };

    fn next(&mut self) -> Option<Part<'a>> {
        if let Some(lead) = self.lead.take() {
            return Some(lead);
        }
        let segment = next_kept(&mut self.segments)?;
        Some(part_of(segment))
    }
}

impl<'a> DoubleEndedIterator for Parts<'a> {
    ghost next_back_gives = { YieldsLastBy component (λ rest. rest) };

    fn next_back(&mut self) -> Option<Part<'a>> {
        match last_kept(&mut self.segments) {
            Some(segment) => Some(part_of(segment)),
            None => self.lead.take(),
        }
    }
}

// What the text begins with, if that is a root or `.`.
#[tactic(auto, using(crate::proofs::ComponentLemmas::lead_root, crate::proofs::ComponentLemmas::lead_other))]
fn lead_of(path: &str) -> Option<Part<'_>>
    ensures { option_to_list (option_map component result) ≡ map (λ piece. piece.0) (lead path.now) }
{
    if has_root(path) {
        Some(Part::Root)
    } else if begins_with_dot(path) {
        Some(Part::CurDir)
    } else {
        None
    }
}

fn begins_with_dot(path: &str) -> bool
    ensures { result ≡ is_dot_text (first_segment (segments path.now)) }
{
    path == "." || path.starts_with("./")
}

// The first of the segments still to come that is neither empty nor `.`.
fn next_kept<'a>(segments: &mut Split<'a, char>) -> Option<&'a str>
    requires { split_pattern segments.old ≡ 47 }
    ensures slash { split_pattern segments.new ≡ 47 }
    ensures kept { YieldsFirstRef kept_left segments.old result segments.new }
{
    segments.find(|segment| is_kept(segment))
}

// The last of them.
fn last_kept<'a>(segments: &mut Split<'a, char>) -> Option<&'a str>
    requires { split_pattern segments.old ≡ 47 }
    ensures slash { split_pattern segments.new ≡ 47 }
    ensures kept { YieldsLastRef kept_left segments.old result segments.new }
{
    segments.rfind(|segment| is_kept(segment))
}

fn is_kept(segment: &str) -> bool
    ensures { result ≡ is_kept segment.now }
{
    !segment.is_empty() && segment != "."
}

fn part_of(segment: &str) -> Part<'_>
    ensures { component result ≡ component_of segment.now }
{
    if segment == ".." {
        Part::ParentDir
    } else {
        Part::Normal(segment)
    }
}

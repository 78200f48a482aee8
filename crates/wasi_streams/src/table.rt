//! The table of a guest's resources.
ghost use Rattle.std.specs.Prelude.{◌≡◌, ◌≤◌, ◌<◌, ◌+◌, ◌⊎◌, ◌↔◌, Ok, Err, Some, None, IsOk, IsSome, IfOk, IfErr, OnOk, OnErr, min, nat_le};
ghost use Rattle.std.specs.Result.{result_map_both};
ghost use Rattle.std.specs.FinMap.{get, insert, remove, empty, len};
ghost use Rattle.wasi_streams.specs.Found.{entry_found, descriptor_found, input_found, output_found, readdir_found};
ghost use Rattle.wasi_streams.specs.declared.errors.TableError.TheVariants.{Full, Memory as Wanted};

use crate::{Entry, FileInputStream, FileOutputStream, ReaddirIterator, TableError, TableRefused};
use std::alloc::{AllocError, Global};
use std::marker::Model;
use wasi_fs::Descriptor;

/// The number of an entry in a table: the crate's `Resource`.
#[derive(Clone, Copy, Debug, PartialEq, Eq)]
pub struct Resource {
    pub number: u32,
}

/// The table of a guest's resources: the crate's `ResourceTable`. Contracts see a finite map from the numbers of the
/// live entries to these, how many more entries are sure to find room, and how many entries there may be.
///
/// What each number refers to is a list, and the numbers that are free are a stack, whose room is taken as numbers are
/// first given, so that to free one takes no memory.
#[derive(Drop)]
pub struct ResourceTable {
    slots: Vec<Option<Entry>>,
    free: Vec<u32>,
    max: u32,
}

impl Model for ResourceTable {
    ghost use Rattle.std.specs.Prelude.{◌-◌, min};
    ghost use Rattle.std.specs.Vec.{vec_capacity};
    ghost use Rattle.wasi_streams.specs.Table.{Table, IsIndexedBy, table_code, entries_in, in_use};

    ghost Value = { Table };

    ghost coded = { table_code };

    ghost view = { λ t. record {
      entries = entries_in t.slots.items;
      spare = min (min (vec_capacity t.slots) (vec_capacity t.free)) t.max - in_use t.slots.items;
      max = t.max;
    } };

    ghost invariant = { λ t. IsIndexedBy t.free.items (vec_capacity t.free) t.max t.slots.items };
}

#[tactic(auto, using(crate::proofs::Entries::table_rules))]
impl ResourceTable {
    ghost use Rattle.std.specs.Borrow.{sem};
    ghost use Rattle.wasi_streams.specs.Lending.{LendsAt, LendsEntry, LendsInput, LendsOutput, LendsReaddir};

    /// An empty table, which may have so many entries.
    pub fn with_max(alloc: Global, max: u32) -> ResourceTable
        ensures entries { result.entries ≡ empty }
        ensures max { result.max ≡ max }
    {
        ResourceTable {
            slots: Vec::new(alloc),
            free: Vec::new(alloc),
            max,
        }
    }

    /// How many entries are live. With those that are sure to find room they are no more than there may be.
    pub fn live(&self) -> u32
        ensures count { result ≡ len self.now.entries }
        ensures most { result + self.now.spare ≤ self.now.max }
    {
        let live = self.slots.len() - self.free.len();
        let max = self.max as usize;
        prove!(live <= max);
        live as u32
    }

    /// Whether there may be so many more entries.
    pub fn fits(&self, more: u32) -> bool
        ensures { result ≡ nat_le (len self.now.entries + more) self.now.max }
    {
        self.live() as u64 + more as u64 <= self.max as u64
    }

    /// Makes sure of room for so many more entries; Full exactly where there may not be so many.
    pub fn reserve(&mut self, more: u32) -> Result<(), TableError>
        ensures entries { self.new.entries ≡ self.old.entries }
        ensures max { self.new.max ≡ self.old.max }
        ensures room { OnOk result (more ≤ self.new.spare) }
        ensures grows { self.old.spare ≤ self.new.spare }
        ensures same { more ≤ self.old.spare → self.new ≡ self.old }
        ensures succeeds { more ≤ self.old.spare → IsOk result }
        ensures full { result ≡ Err Full ↔ self.old.max < len self.old.entries + more }
        ensures refusal { IfErr result (λ e. (e ≡ Full) ⊎ (e ≡ Wanted)) }
    {
        let live = self.live();
        if !self.fits(more) {
            return Err(TableError::Full);
        }
        self.make_room(live as usize + more as usize)?;
        Ok(())
    }

    /// Makes sure of room for so many entries in all.
    fn make_room(&mut self, wanted: usize) -> Result<(), AllocError>
        ensures entries { self.new.entries ≡ self.old.entries }
        ensures max { self.new.max ≡ self.old.max }
        ensures room { OnOk result (min wanted self.old.max ≤ len self.new.entries + self.new.spare) }
        ensures grows { self.old.spare ≤ self.new.spare }
        ensures same { wanted ≤ len self.old.entries + self.old.spare → self.new ≡ self.old }
        ensures succeeds { wanted ≤ len self.old.entries + self.old.spare → IsOk result }
    {
        if wanted > self.slots.capacity() {
            self.slots.reserve(wanted - self.slots.len())?;
        }
        if wanted > self.free.capacity() {
            self.free.reserve(wanted - self.free.len())?;
        }
        Ok(())
    }

    /// Adds an entry under a number that isn't live, for which room was made sure of.
    fn push_reserved(&mut self, entry: Entry) -> Resource
        requires spare { 0 < self.old.spare }
        ensures fresh { get self.old.entries result.number ≡ None }
        ensures entries { self.new.entries ≡ insert self.old.entries result.number entry }
        ensures max { self.new.max ≡ self.old.max }
        ensures spare { self.old.spare ≡ self.new.spare + 1 }
    {
        match self.free.pop() {
            Some(number) => {
                self.slots[number as usize] = Some(entry);
                Resource { number }
            }
            None => {
                let number = self.slots.len() as u32;
                self.slots.push_reserved(Some(entry));
                Resource { number }
            }
        }
    }

    /// Adds an entry under a number that isn't live; Full exactly where there may not be one more. A refusal gives the
    /// entry back.
    pub fn push(&mut self, entry: Entry) -> Result<Resource, TableRefused>
        ensures fresh { IfOk result (λ resource. get self.old.entries resource.number ≡ None) }
        ensures entries { IfOk result (λ resource. self.new.entries ≡ insert self.old.entries resource.number entry) }
        ensures max { self.new.max ≡ self.old.max }
        ensures spare { self.old.spare ≤ self.new.spare + 1 }
        ensures exact { 0 < self.old.spare → self.old.spare ≡ self.new.spare + 1 }
        ensures succeeds { 0 < self.old.spare → IsOk result }
        ensures few { OnOk result (len self.old.entries < self.old.max) }
        ensures refusal { IfErr result (λ refused. (refused.error ≡ Wanted)
            ⊎ ((refused.error ≡ Full) × (self.old.max ≤ len self.old.entries))) }
        ensures full { self.old.max ≤ len self.old.entries → IfErr result (λ refused. refused.error ≡ Full) }
        ensures given_back { IfErr result (λ refused. refused.entry ≡ entry) }
        ensures kept { OnErr result (self.new.entries ≡ self.old.entries) }
        ensures keeps_spare { OnErr result (self.old.spare ≤ self.new.spare) }
    {
        match self.reserve(1) {
            Ok(()) => Ok(self.push_reserved(entry)),
            Err(error) => Err(TableRefused { error, entry }),
        }
    }

    /// The entry of a number; NotPresent exactly where it has none.
    pub fn get(&self, resource: Resource) -> Result<&Entry, TableError>
        ensures found { result_map_both (λ entry. entry.now) (λ e. e) result ≡ entry_found (get self.now.entries resource.number) }
    {
        match self.slots.get(resource.number as usize) {
            Some(Some(entry)) => Ok(entry),
            _ => Err(TableError::NotPresent),
        }
    }

    /// The entry of a number, to be changed; NotPresent exactly where it has none.
    pub fn get_mut(&mut self, resource: Resource) -> Result<&mut Entry, TableError>
        ensures found { result_map_both (λ entry. entry.now) (λ e. e) result ≡ entry_found (get self.old.entries resource.number) }
        ensures* lends { sem 𝓛 (LendsEntry self.entry resource.number result) }
    {
        let _there = self.get(resource)?;
        Ok(self.entry_mut(resource.number))
    }

    /// The entry of a number that has one, to be changed.
    fn entry_mut(&mut self, number: u32) -> &mut Entry
        requires there { IsSome (get self.old.entries number) }
        ensures value { get self.old.entries number ≡ Some result.now }
        ensures* lends { sem 𝓛 (LendsAt self.entry number result) }
    {
        match &mut self.slots[number as usize] {
            Some(entry) => entry,
            None => unreachable!(),
        }
    }

    /// The input stream of a number; NotPresent exactly where it has no entry, WrongKind exactly where it has another.
    pub fn input(&mut self, resource: Resource) -> Result<&mut FileInputStream, TableError>
        ensures found { result_map_both (λ stream. stream.now) (λ e. e) result ≡ input_found (get self.old.entries resource.number) }
        ensures* lends { sem 𝓛 (LendsInput self.entry resource.number result) }
    {
        match self.get_mut(resource)? {
            Entry::Input(stream) => Ok(stream),
            _ => Err(TableError::WrongKind),
        }
    }

    /// The output stream of a number; NotPresent exactly where it has no entry, WrongKind exactly where it has another.
    pub fn output(&mut self, resource: Resource) -> Result<&mut FileOutputStream, TableError>
        ensures found { result_map_both (λ stream. stream.now) (λ e. e) result ≡ output_found (get self.old.entries resource.number) }
        ensures* lends { sem 𝓛 (LendsOutput self.entry resource.number result) }
    {
        match self.get_mut(resource)? {
            Entry::Output(stream) => Ok(stream),
            _ => Err(TableError::WrongKind),
        }
    }

    /// The listing of a number; NotPresent exactly where it has no entry, WrongKind exactly where it has another.
    pub fn readdir(&mut self, resource: Resource) -> Result<&mut ReaddirIterator, TableError>
        ensures found { result_map_both (λ entries. entries.now) (λ e. e) result ≡ readdir_found (get self.old.entries resource.number) }
        ensures* lends { sem 𝓛 (LendsReaddir self.entry resource.number result) }
    {
        match self.get_mut(resource)? {
            Entry::Readdir(entries) => Ok(entries),
            _ => Err(TableError::WrongKind),
        }
    }

    /// Takes the entry of a number out, which isn't live from then on; NotPresent exactly where it has none. There is
    /// room for one entry more then. It takes no memory.
    pub fn delete(&mut self, resource: Resource) -> Result<Entry, TableError>
        ensures found { result ≡ entry_found (get self.old.entries resource.number) }
        ensures entries { OnOk result (self.new.entries ≡ remove self.old.entries resource.number) }
        ensures same { OnErr result (self.new ≡ self.old) }
        ensures max { self.new.max ≡ self.old.max }
        ensures spare { OnOk result (self.new.spare ≡ self.old.spare + 1) }
    {
        let Some(slot) = self.slots.get_mut(resource.number as usize) else {
            return Err(TableError::NotPresent);
        };
        let Some(entry) = slot.take() else {
            return Err(TableError::NotPresent);
        };
        self.free.push_reserved(resource.number);
        Ok(entry)
    }

    /// The descriptor of a number; NotPresent exactly where it has no entry, WrongKind exactly where it has another.
    pub fn descriptor(&self, resource: Resource) -> Result<&Descriptor, TableError>
        ensures found { result_map_both (λ descriptor. descriptor.now) (λ e. e) result
            ≡ descriptor_found (get self.now.entries resource.number) }
    {
        match self.get(resource)? {
            Entry::Descriptor(descriptor) => Ok(descriptor),
            _ => Err(TableError::WrongKind),
        }
    }
}

//! The descriptors of a guest by number.
ghost use Rattle.std.specs.Prelude.{◌≡◌, ◌≢◌, ◌≤◌, ◌<◌, ◌+◌, ◌↔◌, false, [], nat_le, length, slice_get, slice_index_or, slice_set, Some, IsTrue, Err, IsOk, IfOk, OnOk};
ghost use Rattle.std.specs.Prelude.{◌-◌, min};
ghost use Rattle.std.specs.Vec.{vec_len, vec_capacity};
ghost use Rattle.std.specs.BinaryHeap.{heap_items, heap_len, heap_capacity};
ghost use Rattle.wasi_streams.specs.Table.{Entries};
ghost use Rattle.wasi_p1_types.specs.CallParts.{Rests};
ghost use Rattle.wasi_p1_state.specs.Descriptors.{AreKept};
ghost use Rattle.wasi_p1_state.specs.Placed.{TakesFreeNumber};
ghost use Rattle.wasi_p1_state.specs.Viewed.{descriptor_under, Opens, PutDescriptor};
ghost use Rattle.wasi_p2_types.specs.FsErrors.{FsCause};
ghost use Rattle.wasi_p2_types.specs.FlagNames.{how_named};
ghost use Rattle.wasi_p1_state.specs.Held.{HoldsHandles};
ghost use Rattle.wasi_p1_state.specs.LiveEntries.{AreLiveDescriptors};
ghost use Rattle.wasi_p1_types.specs.Numbering.{passes_at, free_number, with_new, renumbered, live_count};
ghost use Rattle.wasi_p1_model.specs.Owners.{handle_in, handles, without};
ghost use Rattle.wasi_p1_types.specs.Slots.{file_under, first_slots, is_closed_slot};
ghost use Rattle.wasi_p1_types.specs.declared.error.CtxError.TheVariants.{Full};

use crate::views::closing::drop_item;
use crate::views::opening::open_item;
use crate::views::resource_under;
use std::alloc::{AllocError, Global};
use std::collections::BinaryHeap;
use std::marker::Model;
use wasi_fs::{Descriptor, Dir};
use wasi_host::Host;
use wasi_p1_types::items::{
    Item, admit, item_at, item_under, put_item, reserve_entry, slot_of_item,
};
use wasi_p1_types::open_with::OpenWith;
use wasi_p1_types::{CtxError, DirectorySlot, FileSlot, P1Preopen, Slot, Stream};
use wasi_p2_calls::{FsResult, WasiFilesystemCtx};
use wasi_streams::ResourceTable;

/// How many standard streams there are.
const STREAMS: usize = 3;

/// What each number refers to, by the resource that it names. The closed numbers stand in a heap beside, so that the
/// largest is found without a look at all descriptors; its room is taken as numbers are first given, so that closing
/// one takes no memory.
#[derive(Drop)]
pub struct Descriptors {
    pub(crate) items: Vec<Item>,
    pub(crate) closed: BinaryHeap<u32>,
    pub(crate) table: ResourceTable,
}

impl Model for Descriptors {
    ghost use Rattle.std.specs.Prelude.{◌+◌, ◌-◌, min};
    ghost use Rattle.std.specs.Vec.{vec_len, vec_capacity};
    ghost use Rattle.std.specs.BinaryHeap.{heap_items, heap_len, heap_capacity};
    ghost use Rattle.wasi_p1_state.specs.Descriptors.{SlotTable, AreKept};
    ghost use Rattle.wasi_p1_types.specs.Items.{slots_of};

    ghost Value = { SlotTable };

    ghost view = { λ d. record {
      slots = slots_of d.table.entries d.items.items;
      room = min d.table.spare (heap_len d.closed + (min (vec_capacity d.items) (heap_capacity d.closed) - vec_len d.items));
      max = d.table.max;
    } };

    ghost invariant = { λ d. AreKept (heap_items d.closed) (heap_capacity d.closed) d.items.items d.table.entries };
}

/// Puts what is kept of a new descriptor under the largest closed number, or else under the next unused one, for which
/// there is room, and gives the number.
fn place(items: &mut Vec<Item>, closed: &mut BinaryHeap<u32>, item: Item) -> u64
    requires kept { (table : Entries) × AreKept (heap_items closed.old) (heap_capacity closed.old) items.old.items table }
    requires room { 0 < heap_len closed.old + (min (vec_capacity items.old) (heap_capacity closed.old) - vec_len items.old) }
    ensures placed { TakesFreeNumber (heap_items closed.old) (heap_capacity closed.old) items.old.items
        (heap_items closed.new) (heap_capacity closed.new) items.new.items item result }
    ensures room { heap_len closed.new + (min (vec_capacity items.new) (heap_capacity closed.new) - vec_len items.new) + 1
        ≡ heap_len closed.old + (min (vec_capacity items.old) (heap_capacity closed.old) - vec_len items.old) }
{
    match closed.pop() {
        Some(number) => {
            items[number as usize] = item;
            number as u64
        }
        None => {
            let number = items.len() as u64;
            items.push_reserved(item);
            number
        }
    }
}

impl Descriptors {
    /// No descriptors, of which so many may be live.
    fn none(alloc: Global, max: u32) -> Descriptors
        ensures slots { result.slots ≡ [] }
        ensures max { result.max ≡ max }
    {
        Descriptors {
            items: Vec::new(alloc),
            closed: BinaryHeap::new(alloc),
            table: ResourceTable::with_max(alloc, max),
        }
    }

    /// The three standard streams as descriptors 0 to 2.
    #[tactic(auto, unfolding(wasi_p1_types::specs::Numbering::with_new))]
    fn streams(alloc: Global, max: u32) -> Result<Descriptors, AllocError>
        requires fits { 3 ≤ max }
        ensures slots { IfOk result (λ descriptors. descriptors.slots ≡ first_slots []) }
        ensures max { IfOk result (λ descriptors. descriptors.max ≡ max) }
    {
        let mut descriptors = Descriptors::none(alloc, max);
        descriptors.add(Slot::Stream(Stream::Input))?;
        descriptors.add(Slot::Stream(Stream::Output))?;
        descriptors.add(Slot::Stream(Stream::Error))?;
        Ok(descriptors)
    }

    /// The three standard streams as descriptors 0 to 2, and then the directories that the guest is given, in order, of
    /// which there are no more than may be.
    fn given(alloc: Global, max: u32, preopens: &[P1Preopen]) -> Result<Descriptors, AllocError>
        requires fits { 3 + length preopens.now ≤ max }
        ensures slots { IfOk result (λ descriptors. descriptors.slots ≡ first_slots preopens.now) }
        ensures max { IfOk result (λ descriptors. descriptors.max ≡ max) }
    {
        let mut descriptors = Descriptors::streams(alloc, max)?;
        for (place, preopen) in preopens.iter().enumerate() {
            descriptors.add(Slot::Directory(DirectorySlot {
                dir: preopen.directory(),
                preopen: Some(place),
            }))?;
        }
        Ok(descriptors)
    }

    /// The three standard streams as descriptors 0 to 2, and then the directories that the guest is given, in order; so
    /// many may be live. Full exactly where these are more.
    pub fn first(alloc: Global, max: u32, preopens: &[P1Preopen]) -> Result<Descriptors, CtxError>
        ensures slots { IfOk result (λ descriptors. descriptors.slots ≡ first_slots preopens.now) }
        ensures max { IfOk result (λ descriptors. descriptors.max ≡ max) }
        ensures full { result ≡ Err Full ↔ max < 3 + length preopens.now }
    {
        if preopens.len() + STREAMS > max as usize {
            return Err(CtxError::Full);
        }
        let descriptors = Descriptors::given(alloc, max, preopens)?;
        Ok(descriptors)
    }

    /// What a number refers to, if it was ever given.
    pub fn get(&self, fd: u32) -> Option<Slot>
        ensures { result ≡ slice_get self.now.slots fd }
    {
        match item_at(&self.items, fd) {
            Some(item) => Some(slot_of_item(&self.table, item)),
            None => None,
        }
    }

    /// The resource table, whose live entries are the live descriptors.
    pub fn table(&self) -> &ResourceTable
        ensures entries { AreLiveDescriptors result.now.entries self.now.slots }
        ensures max { result.now.max ≡ self.now.max }
    {
        &self.table
    }

    /// How many descriptors are live: as many as entries of the resource table.
    pub fn live(&self) -> u32
        ensures count { result ≡ live_count is_closed_slot self.now.slots }
        ensures most { result ≤ self.now.max }
    {
        self.table.live()
    }

    /// Whether so many more may be live.
    pub fn fits(&self, more: u32) -> bool
        ensures { result ≡ nat_le (live_count is_closed_slot self.now.slots + more) self.now.max }
    {
        self.table.fits(more)
    }

    /// Takes the memory for a new descriptor, which there may be: for its number, for what is kept of it, and for its
    /// entry.
    pub fn reserve(&mut self) -> Result<(), AllocError>
        requires fits { live_count is_closed_slot self.old.slots + 1 ≤ self.old.max }
        ensures slots { self.new.slots ≡ self.old.slots }
        ensures max { self.new.max ≡ self.old.max }
        ensures room { OnOk result (0 < self.new.room) }
        ensures grows { self.old.room ≤ self.new.room }
        ensures succeeds { 0 < self.old.room → IsOk result }
    {
        reserve_entry(&mut self.table)?;
        if !self.closed.is_empty() {
            return Ok(());
        }
        self.closed.reserve(self.items.len() + 1)?;
        self.items.reserve(1)
    }

    /// Puts a new descriptor under the largest closed number, or else under the next unused one, and gives the number.
    pub fn put(&mut self, slot: Slot) -> u64
        requires in_use { is_closed_slot slot ≡ false }
        requires room { 0 < self.old.room }
        ensures number { result ≡ free_number is_closed_slot self.old.slots }
        ensures slots { self.new.slots ≡ with_new is_closed_slot self.old.slots slot }
        ensures max { self.new.max ≡ self.old.max }
        ensures room { self.new.room + 1 ≡ self.old.room }
    {
        let item = admit(&mut self.table, slot);
        place(&mut self.items, &mut self.closed, item)
    }

    /// Opens a path below a directory's number, through a view, into a new descriptor for which memory was taken, and
    /// gives its number. Refusals: those of that call of the directory.
    pub fn open<H: Host>(
        &mut self,
        fs: &mut WasiFilesystemCtx<H>,
        fd: u32,
        dir: &Dir,
        path: &str,
        with: OpenWith,
    ) -> FsResult<u64>
        requires holds { HoldsHandles (H.live fs.old.host) (handles self.old.slots) fs.old.preopens.items }
        requires stands { descriptor_under (slice_get self.old.slots fd) ≡ Some (Descriptor.Dir dir.now) }
        requires room { 0 < self.old.room }
        requires fits { live_count is_closed_slot self.old.slots + 1 ≤ self.old.max }
        ensures ctx { fs.new ≡ record fs.old { host = fs.new.host } }
        ensures cause { FsCause (H.faults fs.old.host) (H.faults fs.new.host) result }
        ensures max { self.new.max ≡ self.old.max }
        ensures did { Opens H.Host fs.old.host fs.new.host dir.now path.now
            (how_named with.path_flags with.open_flags with.flags)
            (PutDescriptor self.old.slots self.new.slots with.modes) (self.new.slots ≡ self.old.slots) result }
    {
        let resource = resource_under(&self.items, fd);
        let item = open_item(fs, &mut self.table, resource, dir, path, with)?;
        Ok(place(&mut self.items, &mut self.closed, item))
    }

    /// Takes the memory for a new descriptor, which there may be, and puts it there.
    fn add(&mut self, slot: Slot) -> Result<(), AllocError>
        requires in_use { is_closed_slot slot ≡ false }
        requires fits { live_count is_closed_slot self.old.slots + 1 ≤ self.old.max }
        ensures slots { OnOk result (self.new.slots ≡ with_new is_closed_slot self.old.slots slot) }
        ensures max { self.new.max ≡ self.old.max }
    {
        self.reserve()?;
        self.put(slot);
        Ok(())
    }

    /// Puts a file's descriptor back, at another position or with other modes.
    pub fn put_back(&mut self, fd: u32, slot: FileSlot)
        requires is { file_under (slice_get self.old.slots fd) ≡ Some slot.file }
        ensures slots { self.new.slots ≡ slice_set self.old.slots fd (Slot.File slot) }
        ensures max { self.new.max ≡ self.old.max }
        ensures room { self.new.room ≡ self.old.room }
    {
        let item = item_under(&self.items, fd);
        self.items[fd as usize] = put_item(item, slot.position, slot.modes);
    }

    /// A number that is in use becomes closed, and its entry goes, through a view, which closes its handle. It takes no
    /// memory.
    pub fn close<H: Host>(&mut self, fs: &mut WasiFilesystemCtx<H>, fd: u32)
        requires within { fd < length self.old.slots }
        requires was_in_use { passes_at is_closed_slot self.old.slots fd ≡ false }
        requires holds { HoldsHandles (H.live fs.old.host) (handles self.old.slots) fs.old.preopens.items }
        ensures ctx { fs.new ≡ record fs.old { host = fs.new.host } }
        ensures faults { H.faults fs.new.host ≡ H.faults fs.old.host }
        ensures logged { H.lookups fs.new.host ≡ H.lookups fs.old.host }
        ensures live { H.live fs.new.host
            ≡ without (H.live fs.old.host) (handle_in (slice_index_or self.old.slots fd Slot.Closed)) }
        ensures modelled { IsTrue H.modelled → Rests (H.live fs.old.host) (H.live fs.new.host) (H.model fs.old.host)
            (H.model fs.new.host) }
        ensures slots { self.new.slots ≡ slice_set self.old.slots fd Slot.Closed }
        ensures max { self.new.max ≡ self.old.max }
        ensures room { self.old.room < self.new.room }
    {
        let item = item_under(&self.items, fd);
        drop_item(fs, &mut self.table, item);
        self.items[fd as usize] = Item::Closed;
        let Ok(()) = self.closed.push(fd) else {
            unreachable!()
        };
    }

    /// A descriptor takes the number of another, whose entry goes, through a view, which closes its handle; its own
    /// number becomes closed. It takes no memory.
    pub fn renumber<H: Host>(&mut self, fs: &mut WasiFilesystemCtx<H>, from: u32, to: u32)
        requires from_within { from < length self.old.slots }
        requires from_in_use { passes_at is_closed_slot self.old.slots from ≡ false }
        requires to_within { to < length self.old.slots }
        requires to_in_use { passes_at is_closed_slot self.old.slots to ≡ false }
        requires apart { from ≢ to }
        requires holds { HoldsHandles (H.live fs.old.host) (handles self.old.slots) fs.old.preopens.items }
        ensures ctx { fs.new ≡ record fs.old { host = fs.new.host } }
        ensures faults { H.faults fs.new.host ≡ H.faults fs.old.host }
        ensures logged { H.lookups fs.new.host ≡ H.lookups fs.old.host }
        ensures live { H.live fs.new.host
            ≡ without (H.live fs.old.host) (handle_in (slice_index_or self.old.slots to Slot.Closed)) }
        ensures modelled { IsTrue H.modelled → Rests (H.live fs.old.host) (H.live fs.new.host) (H.model fs.old.host)
            (H.model fs.new.host) }
        ensures slots { self.new.slots ≡ renumbered Slot.Closed self.old.slots from to }
        ensures max { self.new.max ≡ self.old.max }
        ensures room { self.old.room < self.new.room }
    {
        self.items.swap(from as usize, to as usize);
        self.close(fs, from);
    }
}

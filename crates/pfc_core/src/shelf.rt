// The blocks of one file that are in flight or in memory, by number. Contracts see the list of their slots.
ghost use Rattle.std.specs.Prelude.{◌≡◌, ◌+◌, ◌*◌, ◌-◌, ◌<◌, ◌≤◌, ◌^◌, ℕ, List, Option, Some, None, [], length, take, drop, IsTrue, OnOk, OnErr, IfSome, IfNone, IsSome, true, false};
ghost use Rattle.pfc_core.specs.Out.{flight_of};
ghost use Rattle.std.specs.Arc.{arc_value};
ghost use Rattle.pfc_world.specs.Files.{Holds};
ghost use Rattle.pfc_base.specs.Block.{block_len_of, IsPartOf};
ghost use Rattle.pfc_core.specs.Slots.{slot_of, IsSingle, Changes};
ghost use Rattle.pfc_core.specs.declared.slot.Slot.{Slot};
ghost use Rattle.pfc_core.specs.Shelf.{IsBlock};

use crate::held::{Held, is_same};
use crate::slot::Slot;
use indexmap::IndexMap;
use pfc_base::{Memory, Part};
use pfc_world::{Block, Known, World};
use std::alloc::Global;
use std::marker::Model;
use std::sync::Arc;

/// A slot, and the block once it landed.
#[derive(Drop)]
pub(crate) struct Place<W: World> {
    slot: Slot,
    block: Option<Arc<Block<W>>>,
}

#[derive(Drop)]
pub(crate) struct Shelf<W: World> {
    known: Known<W>,
    block_size: u64,
    places: IndexMap<u32, Place<W>>,
}

impl<W: World> Model for Shelf<W> {
    ghost use Rattle.pfc_core.specs.Slots.{ShelfView};

    ghost Value = { ShelfView };

    ghost use Rattle.pfc_core.specs.Shelf.{shelf_of, IsShelf};

    ghost view = { shelf_of };

    ghost invariant = { IsShelf };
}

/// Copies a part of the block.
fn copy_part<W: World>(block: &Block<W>, part: Part, into: &mut [u8])
    requires block { block.now.number ≡ part.block }
    requires part { IsPartOf block.now.known.size block.now.block_size part }
    requires into { length into.old ≡ part.len }
    ensures bytes { Holds W.told W.files block.now.known.path (part.block * block.now.block_size + part.from) into.new }
    ensures length { length into.new ≡ length into.old }
{
    let from = part.from as usize;
    let end = from + part.len as usize;
    into.copy_from_slice(&block.bytes()[from..end]);
}

impl<W: World> Shelf<W> {
    pub fn new(alloc: Global, known: Known<W>, block_size: u64) -> Shelf<W>
        ensures { result ≡ record { path = known.path; size = known.size; block_size = block_size; slots = [] } }
    {
        Shelf {
            known,
            block_size,
            places: IndexMap::new(alloc),
        }
    }

    pub fn known(&self) -> &Known<W>
        ensures path { result.now.path ≡ self.now.path }
        ensures size { result.now.size ≡ self.now.size }
    {
        &self.known
    }

    pub fn block_size(&self) -> u64
        ensures { result ≡ self.now.block_size }
    {
        self.block_size
    }

    pub fn len(&self) -> usize
        ensures len { result ≡ length self.now.slots }
        ensures small { result < 2 ^ 63 }
        ensures single { IsSingle self.now.slots }
    {
        self.places.len()
    }

    /// The slot of a block.
    pub fn find(&self, block: u32) -> Option<Slot>
        ensures slot { result ≡ slot_of block self.now.slots }
        ensures block { IfSome result (λ slot. slot.block ≡ block) }
        ensures single { IsSingle self.now.slots }
    {
        match self.places.get(&block) {
            Some(place) => Some(place.slot),
            None => None,
        }
    }

    /// A block goes into flight.
    pub fn begin(&mut self, slot: Slot) -> Result<(), Memory>
        requires absent { slot_of slot.block self.old.slots ≡ None }
        requires flying { slot.landed ≡ false }
        ensures ok { OnOk result (Changes slot.block None (Some slot) self.old self.new) }
        ensures err { OnErr result (self.new ≡ self.old) }
    {
        let place = Place { slot, block: None };
        let _ = self.places.insert(slot.block, place)?;
        Ok(())
    }

    /// What is kept of a block changes, but not whether it landed.
    pub fn change(&mut self, was: Slot, slot: Slot)
        requires there { slot_of slot.block self.old.slots ≡ Some was }
        requires landed { slot.landed ≡ was.landed }
        ensures { Changes slot.block (Some was) (Some slot) self.old self.new }
    {
        let Some(place) = self.places.get_mut(&slot.block) else {
            return;
        };
        place.slot = slot;
    }

    /// The block of a flight comes into memory.
    pub fn land(&mut self, was: Slot, slot: Slot, block: Arc<Block<W>>)
        requires there { slot_of slot.block self.old.slots ≡ Some was }
        requires block { IsBlock self.old.path self.old.size self.old.block_size slot.block (arc_value block) }
        ensures { Changes slot.block (Some was) (Some slot) self.old self.new }
    {
        let Some(place) = self.places.get_mut(&slot.block) else {
            return;
        };
        place.slot = slot;
        place.block = Some(block);
    }

    /// Copies a part of a block that landed.
    pub fn read(&self, slot: Slot, part: Part, into: &mut [u8])
        requires there { slot_of part.block self.now.slots ≡ Some slot }
        requires landed { slot.landed ≡ true }
        requires part { IsPartOf self.now.size self.now.block_size part }
        requires into { length into.old ≡ part.len }
        ensures bytes { Holds W.told W.files self.now.path (part.block * self.now.block_size + part.from) into.new }
        ensures length { length into.new ≡ length into.old }
    {
        let Some(place) = self.places.get(&part.block) else {
            return;
        };
        let Some(block) = &place.block else {
            return;
        };
        copy_part(block, part, into);
    }

    /// A block isn't kept any more.
    pub fn remove(&mut self, was: Slot)
        requires there { slot_of was.block self.old.slots ≡ Some was }
        ensures { Changes was.block (Some was) None self.old self.new }
    {
        let _ = self.places.swap_remove(&was.block);
    }

    /// The slot whose ticket is kept so.
    pub fn find_flying(&self, held: Held) -> Option<Slot>
        ensures some { IfSome result (λ s. (slot_of held.block self.now.slots ≡ Some s) × (s.landed ≡ false) × (flight_of s ≡ held)) }
        ensures none { IfNone result ((x : Slot) → slot_of held.block self.now.slots ≡ Some x → x.landed ≡ false → flight_of x ≡ held → ⊥) }
        ensures single { IsSingle self.now.slots }
    {
        let Some(slot) = self.find(held.block) else {
            return None;
        };
        if slot.landed {
            return None;
        }
        if is_same(held, slot.flight()) {
            return Some(slot);
        }
        None
    }

    /// The slot whose job is kept so, and is out.
    pub fn find_waiting(&self, held: Held) -> Option<Slot>
        ensures some { IfSome result (λ s. (slot_of held.block self.now.slots ≡ Some s) × (s.landed ≡ true) × (s.job ≡ true) × (flight_of s ≡ held)) }
        ensures none { IfNone result ((x : Slot) → slot_of held.block self.now.slots ≡ Some x → x.landed ≡ true → x.job ≡ true → flight_of x ≡ held → ⊥) }
        ensures single { IsSingle self.now.slots }
    {
        let Some(slot) = self.find(held.block) else {
            return None;
        };
        if !slot.landed {
            return None;
        }
        if !slot.job {
            return None;
        }
        if is_same(held, slot.flight()) {
            return Some(slot);
        }
        None
    }
}

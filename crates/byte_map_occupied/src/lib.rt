// The byte map's occupied handles: small values that their own calls take and hand back; the key is given again each time.
#![tactic(auto)]

ghost use Rattle.std.specs.Prelude.{◌≡◌};
ghost use Rattle.kinds.specs.Calls.{held_of, set_of, taken_of};
ghost use Rattle.kinds.specs.Told.{told};
ghost use Rattle.byte_slots.specs.Kinds.{maps};
ghost use Rattle.byte_slots.specs.Maps.{before, after};
ghost use Rattle.byte_map_occupied.specs.Numbers.{held_numbers, swapped_numbers, taken_numbers};
ghost use Rattle.byte_map_occupied.specs.Planning.{held_by, value_in, asking, taking};

use answers::{Case, Numbers, Refusal, case_numbers};
use byte_slots::{ByteMap, may_ask};
use kinds::Sight;
use tables::Table;

// A handle of a slot that holds a key.
#[derive(Clone, Copy, Debug, PartialEq, Eq)]
pub struct Occupied {
    pub slot: usize,
}

// What an occupied handle holds by the look at its slot.
#[tactic(auto, unfolding(crate::specs::Planning::held_by))]
fn held_by(
    sight: Result<Sight, Refusal>,
    slot: usize,
    value: u64,
) -> Result<(u64, Occupied), Refusal>
    ensures { result ≡ held_by slot value sight }
{
    match sight? {
        Sight::Same => Ok((value, Occupied { slot })),
        Sight::Never | Sight::Freed | Sight::Other => Err(Refusal::BadHandle),
    }
}

// What an occupied handle of this slot holds for the key.
#[tactic(auto, unfolding(crate::specs::Planning::value_in), using(byte_slots::proofs::Views::look_sight))]
fn value_in(map: &ByteMap, slot: usize, key: &[u8]) -> Result<(u64, Occupied), Refusal>
    ensures { result ≡ value_in map.now slot key.now }
{
    if map.size() <= slot {
        return Err(Refusal::BadHandle);
    }
    held_by(map.look(slot, key), slot, map.value(slot))
}

// The plan of an occupied handle's get and set: the value in the slot, or a refusal.
#[tactic(auto, unfolding(crate::specs::Planning::asking))]
fn value_of(map: &ByteMap, slot: usize, key: &[u8]) -> Result<(u64, Occupied), Refusal>
    ensures { result ≡ asking map.now slot key.now }
{
    if !may_ask(key) {
        return Err(Refusal::LongKey);
    }
    value_in(map, slot, key)
}

// The plan of an occupied handle's removal: every slot is examined, then the handle's.
#[tactic(auto, unfolding(crate::specs::Planning::taking, crate::specs::Planning::removal_plan_by, byte_slots::specs::Surveying::surveying))]
fn plan_removal(map: &ByteMap, slot: usize, key: &[u8]) -> Result<(u64, usize), Refusal>
    ensures { result ≡ taking map.now slot key.now }
{
    if !may_ask(key) {
        return Err(Refusal::LongKey);
    }
    let used = map.keys().survey()?;
    let (value, _) = value_in(map, slot, key)?;
    Ok((value, used))
}

impl Occupied {
    // The value in the slot.
    #[tactic(auto, using(crate::proofs::Values::get_held, crate::proofs::Values::get_unlent))]
    pub fn get(
        self,
        marks: &[u8],
        offsets: &[u16],
        lengths: &[u8],
        values: &[u64],
        arena: &[u8],
        key: &[u8],
    ) -> Result<(u64, Occupied), Refusal>
        ensures { held_numbers result ≡ held_of maps (before marks.now offsets.now lengths.now values.now arena.now) self.slot key.now }
    {
        let map = ByteMap::lent(marks, offsets, lengths, values, arena)?;
        value_of(&map, self.slot, key)
    }

    // Gives the slot another value; the old one is answered.
    #[tactic(auto, using(crate::proofs::Values::set_refused, crate::proofs::Values::set_unlent))]
    pub fn set(
        self,
        marks: &mut [u8],
        offsets: &mut [u16],
        lengths: &mut [u8],
        values: &mut [u64],
        arena: &mut [u8],
        key: &[u8],
        value: u64,
    ) -> Result<(u64, Occupied), Refusal>
        ensures { told (swapped_numbers result) (after marks.new offsets.new lengths.new values.new arena.new) ≡ set_of maps (before marks.old offsets.old lengths.old values.old arena.old) self.slot key.now value }
    {
        let Occupied { slot } = self;
        let map = ByteMap::lent(marks, offsets, lengths, values, arena)?;
        let (old, _) = value_of(&map, slot, key)?;
        values[slot] = value;
        Ok((old, Occupied { slot }))
    }

    // Frees the slot; its value is answered.
    #[tactic(auto, using(crate::proofs::Removals::remove_refused, crate::proofs::Removals::remove_unlent))]
    pub fn remove(
        self,
        marks: &mut [u8],
        offsets: &mut [u16],
        lengths: &mut [u8],
        values: &mut [u64],
        arena: &mut [u8],
        key: &[u8],
    ) -> Result<u64, Refusal>
        ensures { told (taken_numbers result) (after marks.new offsets.new lengths.new values.new arena.new) ≡ taken_of maps (before marks.old offsets.old lengths.old values.old arena.old) self.slot key.now }
    {
        let Occupied { slot } = self;
        let map = ByteMap::lent(marks, offsets, lengths, values, arena)?;
        let (old, used) = plan_removal(&map, slot, key)?;
        values[slot] = 0;
        byte_arena::free(marks, offsets, lengths, arena, slot, used);
        Ok(old)
    }

    // Frees the slot; its value is answered, and its key is the one given.
    pub fn remove_entry(
        self,
        marks: &mut [u8],
        offsets: &mut [u16],
        lengths: &mut [u8],
        values: &mut [u64],
        arena: &mut [u8],
        key: &[u8],
    ) -> Result<u64, Refusal>
        ensures { told (taken_numbers result) (after marks.new offsets.new lengths.new values.new arena.new) ≡ taken_of maps (before marks.old offsets.old lengths.old values.old arena.old) self.slot key.now }
    {
        self.remove(marks, offsets, lengths, values, arena, key)
    }
}

// The numbers of an occupied handle's get.
#[tactic(auto, unfolding(crate::specs::Numbers::held_numbers))]
pub fn held_numbers(a: Result<(u64, Occupied), Refusal>) -> Numbers
    ensures { result ≡ held_numbers a }
{
    match a {
        Ok((value, handle)) => case_numbers(Case::Value, 0, value, handle.slot, 0),
        Err(r) => Numbers::from(r),
    }
}

// The numbers of its set.
#[tactic(auto, unfolding(crate::specs::Numbers::swapped_numbers))]
pub fn swapped_numbers(a: Result<(u64, Occupied), Refusal>) -> Numbers
    ensures { result ≡ swapped_numbers a }
{
    match a {
        Ok((old, handle)) => case_numbers(Case::Was, 0, old, handle.slot, 0),
        Err(r) => Numbers::from(r),
    }
}

// The numbers of its remove and remove_entry.
#[tactic(auto, unfolding(crate::specs::Numbers::taken_numbers))]
pub fn taken_numbers(a: Result<u64, Refusal>) -> Numbers
    ensures { result ≡ taken_numbers a }
{
    match a {
        Ok(value) => case_numbers(Case::Removed, 0, value, 0, 0),
        Err(r) => Numbers::from(r),
    }
}

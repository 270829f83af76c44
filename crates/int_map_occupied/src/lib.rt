// The integer map's occupied handles: small values that their own calls take and hand back; the key is given again each time.
#![tactic(auto)]

ghost use Rattle.std.specs.Prelude.{◌≡◌};
ghost use Rattle.int_slots.specs.Maps.{maps, before, after};
ghost use Rattle.kinds.specs.Told.{told};
ghost use Rattle.int_map_occupied.specs.Numbers.{held_numbers, swapped_numbers, taken_numbers, taken_entry_numbers};
ghost use Rattle.int_slots.specs.Kinds.{remove_entry_of};
ghost use Rattle.kinds.specs.Calls.{held_of, set_of, taken_of};

use answers::{Case, Numbers, Refusal, case_numbers};
use int_slots::IntMap;
use kinds::{Mark, Sight};
use tables::Table;

// A handle of a slot that holds a key.
#[derive(Clone, Copy, Debug, PartialEq, Eq)]
pub struct Occupied {
    pub slot: usize,
}

// What an occupied handle of this slot holds for the key: the value, or a refusal.
fn value_of(map: &IntMap, slot: usize, key: u64) -> Result<(u64, Occupied), Refusal>
    ensures { held_numbers result ≡ held_of maps map.now slot key }
{
    if map.size() <= slot {
        return Err(Refusal::BadHandle);
    }
    match map.look(slot, key)? {
        Sight::Same => Ok((map.value(slot), Occupied { slot })),
        _ => Err(Refusal::BadHandle),
    }
}

impl Occupied {
    // The value in the slot.
    pub fn get(
        self,
        marks: &[u8],
        keys: &[u64],
        values: &[u64],
        key: u64,
    ) -> Result<(u64, Occupied), Refusal>
        ensures { held_numbers result ≡ held_of maps (before marks.now keys.now values.now) self.slot key }
    {
        value_of(&IntMap::lent(marks, keys, values)?, self.slot, key)
    }

    // Gives the slot another value; the old one is answered.
    pub fn set(
        self,
        marks: &mut [u8],
        keys: &mut [u64],
        values: &mut [u64],
        key: u64,
        value: u64,
    ) -> Result<(u64, Occupied), Refusal>
        ensures { told (swapped_numbers result) (after marks.new keys.new values.new) ≡ set_of maps (before marks.old keys.old values.old) self.slot key value }
    {
        let slot = self.slot;
        let (old, _) = value_of(&IntMap::lent(marks, keys, values)?, slot, key)?;
        values[slot] = value;
        Ok((old, Occupied { slot }))
    }

    // Frees the slot; its value is answered.
    pub fn remove(
        self,
        marks: &mut [u8],
        keys: &mut [u64],
        values: &mut [u64],
        key: u64,
    ) -> Result<u64, Refusal>
        ensures { told (taken_numbers result) (after marks.new keys.new values.new) ≡ taken_of maps (before marks.old keys.old values.old) self.slot key }
    {
        let slot = self.slot;
        let (value, _) = value_of(&IntMap::lent(marks, keys, values)?, slot, key)?;
        marks[slot] = Mark::Freed as u8;
        keys[slot] = 0;
        values[slot] = 0;
        Ok(value)
    }

    // Frees the slot; its key and value are answered.
    pub fn remove_entry(
        self,
        marks: &mut [u8],
        keys: &mut [u64],
        values: &mut [u64],
        key: u64,
    ) -> Result<(u64, u64), Refusal>
        ensures { told (taken_entry_numbers result) (after marks.new keys.new values.new) ≡ remove_entry_of (before marks.old keys.old values.old) self.slot key }
    {
        Ok((key, self.remove(marks, keys, values, key)?))
    }
}

// The numbers of an occupied handle's get.
#[tactic(auto, unfolding(crate::specs::Numbers::held_numbers))]
pub fn held_numbers(a: Result<(u64, Occupied), Refusal>) -> Numbers
    ensures { result ≡ held_numbers a }
{
    match a {
        Ok((value, handle)) => case_numbers(Case::Value, 0, value, handle.slot, 0),
        Err(r) => Numbers::from(r),
    }
}

// The numbers of its set.
#[tactic(auto, unfolding(crate::specs::Numbers::swapped_numbers))]
pub fn swapped_numbers(a: Result<(u64, Occupied), Refusal>) -> Numbers
    ensures { result ≡ swapped_numbers a }
{
    match a {
        Ok((old, handle)) => case_numbers(Case::Was, 0, old, handle.slot, 0),
        Err(r) => Numbers::from(r),
    }
}

// The numbers of its remove.
#[tactic(auto, unfolding(crate::specs::Numbers::taken_numbers))]
pub fn taken_numbers(a: Result<u64, Refusal>) -> Numbers
    ensures { result ≡ taken_numbers a }
{
    match a {
        Ok(old) => case_numbers(Case::Removed, 0, old, 0, 0),
        Err(r) => Numbers::from(r),
    }
}

// The numbers of its remove_entry.
#[tactic(auto, unfolding(crate::specs::Numbers::taken_entry_numbers))]
pub fn taken_entry_numbers(a: Result<(u64, u64), Refusal>) -> Numbers
    ensures { result ≡ taken_entry_numbers a }
{
    match a {
        Ok((key, old)) => case_numbers(Case::Removed, key, old, 0, 0),
        Err(r) => Numbers::from(r),
    }
}

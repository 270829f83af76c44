// The integer map: u64 keys and values in lent slot arrays, and the calls that store. Each contract is one equation with a definition of the theory at this store.
#![tactic(auto)]

ghost use Rattle.std.specs.Prelude.{◌≡◌};
ghost use Rattle.answers.specs.Numbers.{outcome_numbers, inserted_numbers, removed_numbers};
ghost use Rattle.kinds.specs.Told.{told};
ghost use Rattle.int_slots.specs.Kinds.{insert_of};
ghost use Rattle.kinds.specs.Calls.{make_of, remove_of, copy_of};
ghost use Rattle.int_slots.specs.Maps.{maps, before, after};

use answers::{Inserted, Lookup, Refusal};
use int_slots::IntMap;
use kinds::{Mark, Probed};
use tables::Table;

// Makes an empty map of the lent arrays.
pub fn make(marks: &mut [u8], keys: &mut [u64], values: &mut [u64]) -> Result<(), Refusal>
    ensures { told (outcome_numbers result) (after marks.new keys.new values.new) ≡ make_of maps (before marks.old keys.old values.old) }
{
    IntMap::lent(marks, keys, values)?;
    marks.fill(0);
    keys.fill(0);
    values.fill(0);
    Ok(())
}

// Empties a map: every slot becomes never used.
pub fn clear(marks: &mut [u8], keys: &mut [u64], values: &mut [u64]) -> Result<(), Refusal>
    ensures { told (outcome_numbers result) (after marks.new keys.new values.new) ≡ make_of maps (before marks.old keys.old values.old) }
{
    make(marks, keys, values)
}

// Gives a key its value: in its slot, or in the first free slot of its path.
pub fn insert(
    marks: &mut [u8],
    keys: &mut [u64],
    values: &mut [u64],
    key: u64,
    value: u64,
) -> Result<Inserted<u64>, Refusal>
    ensures { told (inserted_numbers result) (after marks.new keys.new values.new) ≡ insert_of (before marks.old keys.old values.old) key value }
{
    match IntMap::lent(marks, keys, values)?.probe(key)? {
        Probed::Hit(slot, examined) => {
            let old = values[slot];
            values[slot] = value;
            Ok(Inserted::Replaced(old, slot, examined))
        }
        Probed::Free(slot, examined) => {
            marks[slot] = Mark::Live as u8;
            keys[slot] = key;
            values[slot] = value;
            Ok(Inserted::Fresh(slot, examined))
        }
        Probed::Full(_) => Err(Refusal::NoSlot),
    }
}

// Takes a key out: its slot is freed, its words become 0.
pub fn remove(
    marks: &mut [u8],
    keys: &mut [u64],
    values: &mut [u64],
    key: u64,
) -> Result<Lookup<u64>, Refusal>
    ensures { told (removed_numbers result) (after marks.new keys.new values.new) ≡ remove_of maps (before marks.old keys.old values.old) key }
{
    match IntMap::lent(marks, keys, values)?.probe(key)? {
        Probed::Hit(slot, examined) => {
            let old = values[slot];
            marks[slot] = Mark::Freed as u8;
            keys[slot] = 0;
            values[slot] = 0;
            Ok(Lookup::Found(old, slot, examined))
        }
        Probed::Free(_, examined) | Probed::Full(examined) => Ok(Lookup::Absent(examined)),
    }
}

// Makes a map equal to another of equal sizes, in every slot.
pub fn copy(
    to_marks: &mut [u8],
    to_keys: &mut [u64],
    to_values: &mut [u64],
    marks: &[u8],
    keys: &[u64],
    values: &[u64],
) -> Result<(), Refusal>
    ensures { told (outcome_numbers result) (after to_marks.new to_keys.new to_values.new) ≡ copy_of maps (before to_marks.old to_keys.old to_values.old) (before marks.now keys.now values.now) }
{
    IntMap::lent(to_marks, to_keys, to_values)?;
    let from = IntMap::lent(marks, keys, values)?;
    if to_marks.len() != from.size() {
        return Err(Refusal::Sizes);
    }
    arrays::copy(to_marks, marks);
    arrays::copy(to_keys, keys);
    arrays::copy(to_values, values);
    Ok(())
}

// The integer set: u64 keys in lent slot arrays, and the calls that store. Each contract is one equation with a definition of the theory at this store.
#![tactic(auto)]

ghost use Rattle.std.specs.Prelude.{◌≡◌};
ghost use Rattle.answers.specs.Numbers.{outcome_numbers, added_numbers, dropped_numbers};
ghost use Rattle.int_slots.specs.Sets.{sets, before, after};
ghost use Rattle.kinds.specs.Told.{told};
ghost use Rattle.int_slots.specs.Kinds.{set_insert_of};
ghost use Rattle.kinds.specs.Calls.{make_of, dropped_of, copy_of};

use answers::{Inserted, Lookup, Refusal};
use int_slots::IntSet;
use kinds::{Mark, Probed};
use tables::Table;

// Makes an empty set of the lent arrays.
pub fn make(marks: &mut [u8], keys: &mut [u64]) -> Result<(), Refusal>
    ensures { told (outcome_numbers result) (after marks.new keys.new) ≡ make_of sets (before marks.old keys.old) }
{
    IntSet::lent(marks, keys)?;
    marks.fill(0);
    keys.fill(0);
    Ok(())
}

// Empties a set: every slot becomes never used.
pub fn clear(marks: &mut [u8], keys: &mut [u64]) -> Result<(), Refusal>
    ensures { told (outcome_numbers result) (after marks.new keys.new) ≡ make_of sets (before marks.old keys.old) }
{
    make(marks, keys)
}

// Puts a key in: the first free slot of its path takes it; one that is there already stores nothing.
pub fn insert(marks: &mut [u8], keys: &mut [u64], key: u64) -> Result<Inserted<()>, Refusal>
    ensures { told (added_numbers result) (after marks.new keys.new) ≡ set_insert_of (before marks.old keys.old) key }
{
    match IntSet::lent(marks, keys)?.probe(key)? {
        Probed::Hit(slot, examined) => Ok(Inserted::Replaced((), slot, examined)),
        Probed::Free(slot, examined) => {
            marks[slot] = Mark::Live as u8;
            keys[slot] = key;
            Ok(Inserted::Fresh(slot, examined))
        }
        Probed::Full(_) => Err(Refusal::NoSlot),
    }
}

// Takes a key out: its slot is freed, its word becomes 0.
pub fn remove(marks: &mut [u8], keys: &mut [u64], key: u64) -> Result<Lookup<()>, Refusal>
    ensures { told (dropped_numbers result) (after marks.new keys.new) ≡ dropped_of sets (before marks.old keys.old) key }
{
    match IntSet::lent(marks, keys)?.probe(key)? {
        Probed::Hit(slot, examined) => {
            marks[slot] = Mark::Freed as u8;
            keys[slot] = 0;
            Ok(Lookup::Found((), slot, examined))
        }
        Probed::Free(_, examined) | Probed::Full(examined) => Ok(Lookup::Absent(examined)),
    }
}

// Makes a set equal to another of equal sizes, in every slot.
pub fn copy(
    to_marks: &mut [u8],
    to_keys: &mut [u64],
    marks: &[u8],
    keys: &[u64],
) -> Result<(), Refusal>
    ensures { told (outcome_numbers result) (after to_marks.new to_keys.new) ≡ copy_of sets (before to_marks.old to_keys.old) (before marks.now keys.now) }
{
    IntSet::lent(to_marks, to_keys)?;
    let from = IntSet::lent(marks, keys)?;
    if to_marks.len() != from.size() {
        return Err(Refusal::Sizes);
    }
    arrays::copy(to_marks, marks);
    arrays::copy(to_keys, keys);
    Ok(())
}

// The calls of a byte map that store: byte-string keys in a lent arena, with u64 values. Each contract is one equation with a definition of the theory at this store.
#![tactic(auto)]

ghost use Rattle.std.specs.Prelude.{◌≡◌};
ghost use Rattle.answers.specs.Numbers.{outcome_numbers, stored_numbers, removed_numbers};
ghost use Rattle.kinds.specs.Told.{told};
ghost use Rattle.kinds.specs.Calls.{make_of, copy_of, remove_of};
ghost use Rattle.byte_slots.specs.Kinds.{maps, insert_of};
ghost use Rattle.byte_slots.specs.Maps.{before, after};

use answers::{Lookup, Refusal, Stored};
use byte_arena::{fill, free, wipe};
use byte_slots::{ByteMap, InsertPlan, RemovePlan};
use tables::Table;

// Makes an empty map of the lent arrays.
#[tactic(auto, using(tables::proofs::Lent::make_unlent, tables::proofs::Lent::make_lent))]
pub fn make(
    marks: &mut [u8],
    offsets: &mut [u16],
    lengths: &mut [u8],
    values: &mut [u64],
    arena: &mut [u8],
) -> Result<(), Refusal>
    ensures { told (outcome_numbers result) (after marks.new offsets.new lengths.new values.new arena.new) ≡ make_of maps (before marks.old offsets.old lengths.old values.old arena.old) }
{
    ByteMap::lent(marks, offsets, lengths, values, arena)?;
    wipe(marks, offsets, lengths, arena);
    values.fill(0);
    Ok(())
}

// Empties a map: every slot becomes never used, every arena byte 0.
pub fn clear(
    marks: &mut [u8],
    offsets: &mut [u16],
    lengths: &mut [u8],
    values: &mut [u64],
    arena: &mut [u8],
) -> Result<(), Refusal>
    ensures { told (outcome_numbers result) (after marks.new offsets.new lengths.new values.new arena.new) ≡ make_of maps (before marks.old offsets.old lengths.old values.old arena.old) }
{
    make(marks, offsets, lengths, values, arena)
}

// Gives a key its value: in its slot, or in the first free slot of its path, with its bytes behind the used ones.
pub fn insert(
    marks: &mut [u8],
    offsets: &mut [u16],
    lengths: &mut [u8],
    values: &mut [u64],
    arena: &mut [u8],
    key: &[u8],
    value: u64,
) -> Result<Stored<u64>, Refusal>
    ensures { told (stored_numbers result) (after marks.new offsets.new lengths.new values.new arena.new) ≡ insert_of (before marks.old offsets.old lengths.old values.old arena.old) key.now value }
{
    let plan = ByteMap::lent(marks, offsets, lengths, values, arena)?
        .keys()
        .plan_insert(key)?;
    match plan {
        InsertPlan::Hit(slot, examined) => {
            let old = values[slot];
            values[slot] = value;
            Ok(Stored::Replaced(old, slot, examined))
        }
        InsertPlan::Free(slot, examined, used) => {
            fill(marks, offsets, lengths, arena, slot, used, key);
            values[slot] = value;
            Ok(Stored::Fresh(slot, used, examined))
        }
    }
}

// Takes a key out: its slot is freed, its words become 0, and the gap of its bytes is closed.
pub fn remove(
    marks: &mut [u8],
    offsets: &mut [u16],
    lengths: &mut [u8],
    values: &mut [u64],
    arena: &mut [u8],
    key: &[u8],
) -> Result<Lookup<u64>, Refusal>
    ensures { told (removed_numbers result) (after marks.new offsets.new lengths.new values.new arena.new) ≡ remove_of maps (before marks.old offsets.old lengths.old values.old arena.old) key.now }
{
    let plan = ByteMap::lent(marks, offsets, lengths, values, arena)?
        .keys()
        .plan_remove(key)?;
    match plan {
        RemovePlan::Hit(slot, examined, used) => {
            let old = values[slot];
            free(marks, offsets, lengths, arena, slot, used);
            values[slot] = 0;
            Ok(Lookup::Found(old, slot, examined))
        }
        RemovePlan::Absent(examined) => Ok(Lookup::Absent(examined)),
    }
}

// Makes a map equal to another of equal sizes, in every slot and byte.
#[tactic(auto, using(tables::proofs::Lent::copy_from_unlent, tables::proofs::Lent::copy_unlent))]
pub fn copy(
    to_marks: &mut [u8],
    to_offsets: &mut [u16],
    to_lengths: &mut [u8],
    to_values: &mut [u64],
    to_arena: &mut [u8],
    marks: &[u8],
    offsets: &[u16],
    lengths: &[u8],
    values: &[u64],
    arena: &[u8],
) -> Result<(), Refusal>
    ensures { told (outcome_numbers result) (after to_marks.new to_offsets.new to_lengths.new to_values.new to_arena.new) ≡ copy_of maps (before to_marks.old to_offsets.old to_lengths.old to_values.old to_arena.old) (before marks.now offsets.now lengths.now values.now arena.now) }
{
    ByteMap::lent(to_marks, to_offsets, to_lengths, to_values, to_arena)?;
    let from = ByteMap::lent(marks, offsets, lengths, values, arena)?;
    if to_marks.len() != from.size() || to_arena.len() != arena.len() {
        return Err(Refusal::Sizes);
    }
    arrays::copy(to_marks, marks);
    arrays::copy(to_offsets, offsets);
    arrays::copy(to_lengths, lengths);
    arrays::copy(to_values, values);
    arrays::copy(to_arena, arena);
    Ok(())
}

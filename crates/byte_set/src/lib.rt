// The calls of a byte set that store: byte keys in lent slot arrays and an arena. Each contract is one equation with a definition of the theory at this store.
#![tactic(auto)]

ghost use Rattle.std.specs.Prelude.{◌≡◌};
ghost use Rattle.answers.specs.Numbers.{outcome_numbers, joined_numbers, dropped_numbers};
ghost use Rattle.kinds.specs.Calls.{make_of, copy_of, dropped_of};
ghost use Rattle.kinds.specs.Told.{told};
ghost use Rattle.byte_slots.specs.Kinds.{sets, set_insert_of};
ghost use Rattle.byte_slots.specs.Sets.{before, after};

use answers::{Lookup, Refusal, Stored};
use byte_arena::{fill, free, wipe};
use byte_slots::{ByteSet, InsertPlan, RemovePlan};
use tables::Table;

// Makes an empty set of the lent arrays.
#[tactic(auto, using(tables::proofs::Lent::make_unlent, tables::proofs::Lent::make_lent))]
pub fn make(
    marks: &mut [u8],
    offsets: &mut [u16],
    lengths: &mut [u8],
    arena: &mut [u8],
) -> Result<(), Refusal>
    ensures { told (outcome_numbers result) (after marks.new offsets.new lengths.new arena.new) ≡ make_of sets (before marks.old offsets.old lengths.old arena.old) }
{
    ByteSet::lent(marks, offsets, lengths, arena)?;
    wipe(marks, offsets, lengths, arena);
    Ok(())
}

// Empties a set: every slot becomes never used, every arena byte 0.
pub fn clear(
    marks: &mut [u8],
    offsets: &mut [u16],
    lengths: &mut [u8],
    arena: &mut [u8],
) -> Result<(), Refusal>
    ensures { told (outcome_numbers result) (after marks.new offsets.new lengths.new arena.new) ≡ make_of sets (before marks.old offsets.old lengths.old arena.old) }
{
    make(marks, offsets, lengths, arena)
}

// Puts a key in: the first free slot of its path takes it, its bytes go behind the used ones; one that is there already stores nothing.
pub fn insert(
    marks: &mut [u8],
    offsets: &mut [u16],
    lengths: &mut [u8],
    arena: &mut [u8],
    key: &[u8],
) -> Result<Stored<()>, Refusal>
    ensures { told (joined_numbers result) (after marks.new offsets.new lengths.new arena.new) ≡ set_insert_of (before marks.old offsets.old lengths.old arena.old) key.now }
{
    let plan = ByteSet::lent(marks, offsets, lengths, arena)?.plan_insert(key)?;
    match plan {
        InsertPlan::Hit(slot, examined) => Ok(Stored::Replaced((), slot, examined)),
        InsertPlan::Free(slot, examined, used) => {
            fill(marks, offsets, lengths, arena, slot, used, key);
            Ok(Stored::Fresh(slot, used, examined))
        }
    }
}

// Takes a key out: its slot is freed, and the gap in the arena closed.
pub fn remove(
    marks: &mut [u8],
    offsets: &mut [u16],
    lengths: &mut [u8],
    arena: &mut [u8],
    key: &[u8],
) -> Result<Lookup<()>, Refusal>
    ensures { told (dropped_numbers result) (after marks.new offsets.new lengths.new arena.new) ≡ dropped_of sets (before marks.old offsets.old lengths.old arena.old) key.now }
{
    let plan = ByteSet::lent(marks, offsets, lengths, arena)?.plan_remove(key)?;
    match plan {
        RemovePlan::Hit(slot, examined, used) => {
            free(marks, offsets, lengths, arena, slot, used);
            Ok(Lookup::Found((), slot, examined))
        }
        RemovePlan::Absent(examined) => Ok(Lookup::Absent(examined)),
    }
}

// Makes a set equal to another of equal sizes, in every slot and byte.
#[tactic(auto, using(tables::proofs::Lent::copy_from_unlent, tables::proofs::Lent::copy_unlent))]
pub fn copy(
    to_marks: &mut [u8],
    to_offsets: &mut [u16],
    to_lengths: &mut [u8],
    to_arena: &mut [u8],
    marks: &[u8],
    offsets: &[u16],
    lengths: &[u8],
    arena: &[u8],
) -> Result<(), Refusal>
    ensures { told (outcome_numbers result) (after to_marks.new to_offsets.new to_lengths.new to_arena.new) ≡ copy_of sets (before to_marks.old to_offsets.old to_lengths.old to_arena.old) (before marks.now offsets.now lengths.now arena.now) }
{
    ByteSet::lent(to_marks, to_offsets, to_lengths, to_arena)?;
    let from = ByteSet::lent(marks, offsets, lengths, arena)?;
    if to_marks.len() != from.size() || to_arena.len() != arena.len() {
        return Err(Refusal::Sizes);
    }
    arrays::copy(to_marks, marks);
    arrays::copy(to_offsets, offsets);
    arrays::copy(to_lengths, lengths);
    arrays::copy(to_arena, arena);
    Ok(())
}

// The union of integer maps: every test over both tables first, then the right's pairs go into the left.
#![tactic(auto)]

ghost use Rattle.std.specs.Prelude.{◌≡◌, true, length};
ghost use Rattle.answers.specs.Numbers.{outcome_numbers};
ghost use Rattle.int_slots.specs.Maps.{maps, before, after};
ghost use Rattle.int_slots.specs.Memory.{memory};
ghost use Rattle.kinds.specs.Told.{told};
ghost use Rattle.int_map_union.specs.Calls.{plan_of, slot_needs, table_needs};
ghost use Rattle.kinds.specs.Calls.{sized_of, union_of};

use answers::Refusal;
use kinds::{Mark, Probed};

// What a slot of the right with this mark and key needs of the left: one slot where it is live and its key is absent.
fn slot_needs(marks: &[u8], keys: &[u64], values: &[u64], mark: u8, key: u64) -> usize
    requires { sized_of maps (memory marks.now keys.now values.now) ≡ true }
    ensures { result ≡ slot_needs (before marks.now keys.now values.now) mark key }
{
    if mark != Mark::Live as u8 {
        return 0;
    }
    match int_slots::map_probe(marks, keys, values, key) {
        Ok(Probed::Hit(_, _)) => 0,
        Ok(Probed::Free(_, _)) => 1,
        Ok(Probed::Full(_)) => 1,
        Err(_) => 1,
    }
}

// What the right needs of the left: a slot for each live slot whose key is absent.
fn table_needs(
    marks: &[u8],
    keys: &[u64],
    values: &[u64],
    right_marks: &[u8],
    right_keys: &[u64],
    right_values: &[u64],
) -> usize
    requires { (sized_of maps (memory marks.now keys.now values.now) ≡ true) × (length right_keys.now ≡ length right_marks.now) }
    ensures { result ≡ table_needs (before marks.now keys.now values.now) (before right_marks.now right_keys.now right_values.now) (length right_marks.now) }
{
    let mut sum = 0;
    for i in 0..right_marks.len() {
        sum += slot_needs(marks, keys, values, right_marks[i], right_keys[i]);
    }
    sum
}

// The union's tests of two tables of right sizes: damage, then room.
#[tactic(auto, using(crate::proofs::Joining::left_bad, crate::proofs::Joining::live_low))]
fn room(
    marks: &[u8],
    keys: &[u64],
    values: &[u64],
    right_marks: &[u8],
    right_keys: &[u64],
    right_values: &[u64],
) -> Result<(), Refusal>
    requires { (sized_of maps (memory marks.now keys.now values.now) ≡ true) × (sized_of maps (memory right_marks.now right_keys.now right_values.now) ≡ true) }
    ensures { outcome_numbers result ≡ plan_of (before marks.now keys.now values.now) (before right_marks.now right_keys.now right_values.now) }
{
    let left = marks.len() - int_slots::scan(marks)?;
    int_slots::scan(right_marks)?;
    if left < table_needs(marks, keys, values, right_marks, right_keys, right_values) {
        return Err(Refusal::NoSlot);
    }
    Ok(())
}

// The union's tests.
#[tactic(auto, using(crate::proofs::Joining::left_unfit, crate::proofs::Joining::right_unfit))]
fn plan(
    marks: &[u8],
    keys: &[u64],
    values: &[u64],
    right_marks: &[u8],
    right_keys: &[u64],
    right_values: &[u64],
) -> Result<(), Refusal>
    ensures { outcome_numbers result ≡ plan_of (before marks.now keys.now values.now) (before right_marks.now right_keys.now right_values.now) }
{
    if !int_slots::map_fits(marks, keys, values)
        || !int_slots::map_fits(right_marks, right_keys, right_values)
    {
        return Err(Refusal::Sizes);
    }
    room(marks, keys, values, right_marks, right_keys, right_values)
}

// Puts the right's pairs into the left, where its slots suffice for all; the right stays as it was.
#[tactic(auto, using(crate::proofs::Joining::plan_sized, crate::proofs::Joining::union_done, crate::proofs::Joining::union_refused))]
pub fn union_prefer_right(
    marks: &mut [u8],
    keys: &mut [u64],
    values: &mut [u64],
    right_marks: &[u8],
    right_keys: &[u64],
    right_values: &[u64],
) -> Result<(), Refusal>
    ensures { told (outcome_numbers result) (after marks.new keys.new values.new) ≡ union_of maps (before marks.old keys.old values.old) (before right_marks.now right_keys.now right_values.now) }
{
    plan(marks, keys, values, right_marks, right_keys, right_values)?;
    int_store::map_store_all(marks, keys, values, right_marks, right_keys, right_values);
    Ok(())
}

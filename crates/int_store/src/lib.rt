// The insert rule with no test in integer tables: for one key, for a slot of another table, and for all its slots in their order. Maps and sets share it.
#![tactic(auto)]

ghost use Rattle.std.specs.Prelude.{◌≡◌, true, length};
ghost use Rattle.model.specs.Calls.{rule};
ghost use Rattle.kinds.specs.Calls.{sized_of};
ghost use Rattle.kinds.specs.Marks.{cell};
ghost use Rattle.kinds.specs.Probing.{slot_by};
ghost use Rattle.kinds.specs.Stores.{slot_stored, all_stored};
ghost use Rattle.int_slots.specs.Memory.{memory};
ghost use Rattle.int_slots.specs.Maps.{maps, before, after};
ghost use Rattle.int_slots.specs.Sets.{sets, memory as set_memory, before as set_before, after as set_after};
ghost use Rattle.int_slots.specs.Probing.{probing};

use int_slots::probe;
use kinds::{Mark, Probed};

// The insert rule with no test: the first free slot of the key's path takes it, where it is absent. The slot that has the key then; S where none was free.
pub fn store(marks: &mut [u8], keys: &mut [u64], key: u64) -> usize
    requires { sized_of sets (set_memory marks.old keys.old) ≡ true }
    ensures { (set_after marks.new keys.new ≡ rule sets (set_before marks.old keys.old) key tt) × (result ≡ slot_by (length marks.old) (probing marks.old keys.old key)) }
{
    match probe(marks, keys, key) {
        Ok(Probed::Hit(slot, _)) => slot,
        Ok(Probed::Free(slot, _)) => {
            marks[slot] = Mark::Live as u8;
            keys[slot] = key;
            slot
        }
        Ok(Probed::Full(_)) => marks.len(),
        Err(_) => marks.len(),
    }
}

// The insert rule for a slot with this mark and key, where it is live.
#[tactic(auto, using(kinds::proofs::Uniting::slot_live, kinds::proofs::Uniting::slot_idle))]
pub fn store_slot(marks: &mut [u8], keys: &mut [u64], mark: u8, key: u64)
    requires { sized_of sets (set_memory marks.old keys.old) ≡ true }
    ensures { set_after marks.new keys.new ≡ slot_stored sets (set_before marks.old keys.old) (cell mark key tt) }
{
    if mark == Mark::Live as u8 {
        store(marks, keys, key);
    }
}

// The keys of another table, the right, go in by the insert rule, in its slot order.
pub fn store_all(marks: &mut [u8], keys: &mut [u64], right_marks: &[u8], right_keys: &[u64])
    requires { (sized_of sets (set_memory marks.old keys.old) ≡ true) × (length right_keys.now ≡ length right_marks.now) }
    ensures { set_after marks.new keys.new ≡ all_stored sets (set_before marks.old keys.old) (set_before right_marks.now right_keys.now) (length right_marks.now) }
{
    for i in 0..right_marks.len() {
        store_slot(marks, keys, right_marks[i], right_keys[i]);
    }
}

// The same in a map: the key's slot has the value then.
pub fn map_store(marks: &mut [u8], keys: &mut [u64], values: &mut [u64], key: u64, value: u64)
    requires { sized_of maps (memory marks.old keys.old values.old) ≡ true }
    ensures { after marks.new keys.new values.new ≡ rule maps (before marks.old keys.old values.old) key value }
{
    let slot = store(marks, keys, key);
    if slot < values.len() {
        values[slot] = value;
    }
}

// The same for a slot with this mark, key and value, where it is live.
#[tactic(auto, using(kinds::proofs::Uniting::slot_live, kinds::proofs::Uniting::slot_idle))]
pub fn map_store_slot(
    marks: &mut [u8],
    keys: &mut [u64],
    values: &mut [u64],
    mark: u8,
    key: u64,
    value: u64,
)
    requires { sized_of maps (memory marks.old keys.old values.old) ≡ true }
    ensures { after marks.new keys.new values.new ≡ slot_stored maps (before marks.old keys.old values.old) (cell mark key value) }
{
    if mark == Mark::Live as u8 {
        map_store(marks, keys, values, key, value);
    }
}

// The pairs of another map, the right, go in by the insert rule, in its slot order.
pub fn map_store_all(
    marks: &mut [u8],
    keys: &mut [u64],
    values: &mut [u64],
    right_marks: &[u8],
    right_keys: &[u64],
    right_values: &[u64],
)
    requires { (sized_of maps (memory marks.old keys.old values.old) ≡ true) × (length right_keys.now ≡ length right_marks.now) × (length right_values.now ≡ length right_marks.now) }
    ensures { after marks.new keys.new values.new ≡ all_stored maps (before marks.old keys.old values.old) (before right_marks.now right_keys.now right_values.now) (length right_marks.now) }
{
    for i in 0..right_marks.len() {
        map_store_slot(
            marks,
            keys,
            values,
            right_marks[i],
            right_keys[i],
            right_values[i],
        );
    }
}

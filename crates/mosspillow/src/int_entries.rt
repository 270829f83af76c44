// The integer map's entries for C: each call as int_map_entry, int_map_occupied and int_map_vacant have it, its answer as numbers.
ghost use Rattle.std.specs.Prelude.{◌≡◌, length};
ghost use Rattle.kinds.specs.Calls.{entry_of, held_of, set_of, taken_of, vacant_insert_of, or_insert_of, insert_entry_of};
ghost use Rattle.kinds.specs.Handing.{handle_as};
ghost use Rattle.kinds.specs.Told.{told};
ghost use Rattle.int_slots.specs.Kinds.{remove_entry_of};
ghost use Rattle.int_slots.specs.Maps.{before, maps, after};

use answers::Numbers;
use int_map_entry::{entered_numbers, entry_by_case};
use int_map_occupied::{
    Occupied, held_numbers, swapped_numbers, taken_entry_numbers, taken_numbers,
};
use int_map_vacant::{Vacant, in_slot_numbers};

// Where a key stands or would go.
#[unsafe(no_mangle)]
pub extern "C" fn moss_int_map_entry(
    marks: &[u8],
    keys: &[u64],
    values: &[u64],
    key: u64,
) -> Numbers
    ensures { result ≡ entry_of maps (before marks.now keys.now values.now) key }
{
    entered_numbers(int_map_entry::entry(marks, keys, values, key))
}

// The value in an occupied handle's slot.
#[unsafe(no_mangle)]
pub extern "C" fn moss_int_map_occupied_get(
    marks: &[u8],
    keys: &[u64],
    values: &[u64],
    slot: u64,
    key: u64,
) -> Numbers
    ensures { result ≡ held_of maps (before marks.now keys.now values.now) slot key }
{
    let handle = Occupied {
        slot: slot as usize,
    };
    held_numbers(handle.get(marks, keys, values, key))
}

// Gives the slot another value.
#[unsafe(no_mangle)]
pub extern "C" fn moss_int_map_occupied_set(
    marks: &mut [u8],
    keys: &mut [u64],
    values: &mut [u64],
    slot: u64,
    key: u64,
    value: u64,
) -> Numbers
    ensures { told result (after marks.new keys.new values.new) ≡ set_of maps (before marks.old keys.old values.old) slot key value }
{
    let handle = Occupied {
        slot: slot as usize,
    };
    swapped_numbers(handle.set(marks, keys, values, key, value))
}

// Frees the slot; the value is answered.
#[unsafe(no_mangle)]
pub extern "C" fn moss_int_map_occupied_remove(
    marks: &mut [u8],
    keys: &mut [u64],
    values: &mut [u64],
    slot: u64,
    key: u64,
) -> Numbers
    ensures { told result (after marks.new keys.new values.new) ≡ taken_of maps (before marks.old keys.old values.old) slot key }
{
    let handle = Occupied {
        slot: slot as usize,
    };
    taken_numbers(handle.remove(marks, keys, values, key))
}

// Frees the slot; the key and the value are answered.
#[unsafe(no_mangle)]
pub extern "C" fn moss_int_map_occupied_remove_entry(
    marks: &mut [u8],
    keys: &mut [u64],
    values: &mut [u64],
    slot: u64,
    key: u64,
) -> Numbers
    ensures { told result (after marks.new keys.new values.new) ≡ remove_entry_of (before marks.old keys.old values.old) slot key }
{
    let handle = Occupied {
        slot: slot as usize,
    };
    taken_entry_numbers(handle.remove_entry(marks, keys, values, key))
}

// Puts the key and a value into a vacant handle's slot.
#[unsafe(no_mangle)]
pub extern "C" fn moss_int_map_vacant_insert(
    marks: &mut [u8],
    keys: &mut [u64],
    values: &mut [u64],
    slot: u64,
    key: u64,
    value: u64,
) -> Numbers
    ensures { told result (after marks.new keys.new values.new) ≡ vacant_insert_of maps (before marks.old keys.old values.old) slot key value }
{
    let handle = Vacant {
        slot: slot as usize,
    };
    in_slot_numbers(handle.insert(marks, keys, values, key, value))
}

// Keeps a present value, else puts the default in.
#[unsafe(no_mangle)]
pub extern "C" fn moss_int_map_or_insert(
    marks: &mut [u8],
    keys: &mut [u64],
    values: &mut [u64],
    case: u64,
    slot: u64,
    key: u64,
    default: u64,
) -> Numbers
    ensures { told result (after marks.new keys.new values.new) ≡ or_insert_of maps (before marks.old keys.old values.old) (handle_as (length marks.old) case slot) key default }
{
    let handle = entry_by_case(case, slot);
    in_slot_numbers(handle.or_insert(marks, keys, values, key, default))
}

// Replaces a present value, else puts the value in.
#[unsafe(no_mangle)]
pub extern "C" fn moss_int_map_insert_entry(
    marks: &mut [u8],
    keys: &mut [u64],
    values: &mut [u64],
    case: u64,
    slot: u64,
    key: u64,
    value: u64,
) -> Numbers
    ensures { told result (after marks.new keys.new values.new) ≡ insert_entry_of maps (before marks.old keys.old values.old) (handle_as (length marks.old) case slot) key value }
{
    let handle = entry_by_case(case, slot);
    in_slot_numbers(handle.insert_entry(marks, keys, values, key, value))
}

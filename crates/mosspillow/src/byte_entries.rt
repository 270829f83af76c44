// The byte map's entries for C: each call as byte_map_entry, byte_map_occupied and byte_map_vacant have it, its answer as numbers.
ghost use Rattle.std.specs.Prelude.{◌≡◌, length};
ghost use Rattle.kinds.specs.Calls.{entry_of, held_of, set_of, taken_of, vacant_insert_of, or_insert_of, insert_entry_of};
ghost use Rattle.kinds.specs.Handing.{handle_as};
ghost use Rattle.kinds.specs.Told.{told};
ghost use Rattle.byte_slots.specs.Kinds.{maps};
ghost use Rattle.byte_slots.specs.Maps.{before, after};

use answers::Numbers;
use byte_map_entry::{entered_numbers, entry_by_case};
use byte_map_occupied::{Occupied, held_numbers, swapped_numbers, taken_numbers};
use byte_map_vacant::{Vacant, in_slot_numbers};

// Where a key stands or would go.
#[unsafe(no_mangle)]
pub extern "C" fn moss_byte_map_entry(
    marks: &[u8],
    offsets: &[u16],
    lengths: &[u8],
    values: &[u64],
    arena: &[u8],
    key: &[u8],
) -> Numbers
    ensures { result ≡ entry_of maps (before marks.now offsets.now lengths.now values.now arena.now) key.now }
{
    entered_numbers(byte_map_entry::entry(marks, offsets, lengths, values, arena, key))
}

// The value in an occupied handle's slot.
#[unsafe(no_mangle)]
pub extern "C" fn moss_byte_map_occupied_get(
    marks: &[u8],
    offsets: &[u16],
    lengths: &[u8],
    values: &[u64],
    arena: &[u8],
    slot: u64,
    key: &[u8],
) -> Numbers
    ensures { result ≡ held_of maps (before marks.now offsets.now lengths.now values.now arena.now) slot key.now }
{
    let handle = Occupied {
        slot: slot as usize,
    };
    held_numbers(handle.get(marks, offsets, lengths, values, arena, key))
}

// Gives the slot another value.
#[unsafe(no_mangle)]
pub extern "C" fn moss_byte_map_occupied_set(
    marks: &mut [u8],
    offsets: &mut [u16],
    lengths: &mut [u8],
    values: &mut [u64],
    arena: &mut [u8],
    slot: u64,
    key: &[u8],
    value: u64,
) -> Numbers
    ensures { told result (after marks.new offsets.new lengths.new values.new arena.new) ≡ set_of maps (before marks.old offsets.old lengths.old values.old arena.old) slot key.now value }
{
    let handle = Occupied {
        slot: slot as usize,
    };
    swapped_numbers(handle.set(marks, offsets, lengths, values, arena, key, value))
}

// Frees the slot; the value is answered.
#[unsafe(no_mangle)]
pub extern "C" fn moss_byte_map_occupied_remove(
    marks: &mut [u8],
    offsets: &mut [u16],
    lengths: &mut [u8],
    values: &mut [u64],
    arena: &mut [u8],
    slot: u64,
    key: &[u8],
) -> Numbers
    ensures { told result (after marks.new offsets.new lengths.new values.new arena.new) ≡ taken_of maps (before marks.old offsets.old lengths.old values.old arena.old) slot key.now }
{
    let handle = Occupied {
        slot: slot as usize,
    };
    taken_numbers(handle.remove(marks, offsets, lengths, values, arena, key))
}

// Frees the slot; the value is answered, and the key is the one given.
#[unsafe(no_mangle)]
pub extern "C" fn moss_byte_map_occupied_remove_entry(
    marks: &mut [u8],
    offsets: &mut [u16],
    lengths: &mut [u8],
    values: &mut [u64],
    arena: &mut [u8],
    slot: u64,
    key: &[u8],
) -> Numbers
    ensures { told result (after marks.new offsets.new lengths.new values.new arena.new) ≡ taken_of maps (before marks.old offsets.old lengths.old values.old arena.old) slot key.now }
{
    let handle = Occupied {
        slot: slot as usize,
    };
    taken_numbers(handle.remove_entry(marks, offsets, lengths, values, arena, key))
}

// Puts the key and a value into a vacant handle's slot.
#[unsafe(no_mangle)]
pub extern "C" fn moss_byte_map_vacant_insert(
    marks: &mut [u8],
    offsets: &mut [u16],
    lengths: &mut [u8],
    values: &mut [u64],
    arena: &mut [u8],
    slot: u64,
    key: &[u8],
    value: u64,
) -> Numbers
    ensures { told result (after marks.new offsets.new lengths.new values.new arena.new) ≡ vacant_insert_of maps (before marks.old offsets.old lengths.old values.old arena.old) slot key.now value }
{
    let handle = Vacant {
        slot: slot as usize,
    };
    in_slot_numbers(handle.insert(marks, offsets, lengths, values, arena, key, value))
}

// Keeps a present value, else puts the default in.
#[unsafe(no_mangle)]
pub extern "C" fn moss_byte_map_or_insert(
    marks: &mut [u8],
    offsets: &mut [u16],
    lengths: &mut [u8],
    values: &mut [u64],
    arena: &mut [u8],
    case: u64,
    slot: u64,
    key: &[u8],
    default: u64,
) -> Numbers
    ensures { told result (after marks.new offsets.new lengths.new values.new arena.new) ≡ or_insert_of maps (before marks.old offsets.old lengths.old values.old arena.old) (handle_as (length marks.old) case slot) key.now default }
{
    let handle = entry_by_case(case, slot);
    in_slot_numbers(handle.or_insert(marks, offsets, lengths, values, arena, key, default))
}

// Replaces a present value, else puts the value in.
#[unsafe(no_mangle)]
pub extern "C" fn moss_byte_map_insert_entry(
    marks: &mut [u8],
    offsets: &mut [u16],
    lengths: &mut [u8],
    values: &mut [u64],
    arena: &mut [u8],
    case: u64,
    slot: u64,
    key: &[u8],
    value: u64,
) -> Numbers
    ensures { told result (after marks.new offsets.new lengths.new values.new arena.new) ≡ insert_entry_of maps (before marks.old offsets.old lengths.old values.old arena.old) (handle_as (length marks.old) case slot) key.now value }
{
    let handle = entry_by_case(case, slot);
    in_slot_numbers(handle.insert_entry(marks, offsets, lengths, values, arena, key, value))
}

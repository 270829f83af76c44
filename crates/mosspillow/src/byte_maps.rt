// The byte map for C: each call as byte_map, byte_map_reads, byte_map_union and byte_map_walk have it, its answer as numbers.
ghost use Rattle.std.specs.Prelude.{◌≡◌};
ghost use Rattle.kinds.specs.Calls.{make_of, capacity_of, len_of, is_empty_of, reserve_of, get_of, contains_of, remove_of, copy_of, union_of};
ghost use Rattle.kinds.specs.Moved.{moved_on};
ghost use Rattle.kinds.specs.Told.{told};
ghost use Rattle.byte_slots.specs.Kinds.{maps, insert_of, step_of};
ghost use Rattle.byte_slots.specs.Maps.{before, after};

use answers::{
    Numbers, contained_numbers, counted_numbers, emptiness_numbers, got_numbers, outcome_numbers,
    removed_numbers, reserved_numbers, stored_numbers,
};
use byte_map_walk::{Walk, step_numbers};

// Makes an empty map of the lent arrays.
#[unsafe(no_mangle)]
pub extern "C" fn moss_byte_map_make(
    marks: &mut [u8],
    offsets: &mut [u16],
    lengths: &mut [u8],
    values: &mut [u64],
    arena: &mut [u8],
) -> Numbers
    ensures { told result (after marks.new offsets.new lengths.new values.new arena.new) ≡ make_of maps (before marks.old offsets.old lengths.old values.old arena.old) }
{
    outcome_numbers(byte_map::make(marks, offsets, lengths, values, arena))
}

// Empties a map.
#[unsafe(no_mangle)]
pub extern "C" fn moss_byte_map_clear(
    marks: &mut [u8],
    offsets: &mut [u16],
    lengths: &mut [u8],
    values: &mut [u64],
    arena: &mut [u8],
) -> Numbers
    ensures { told result (after marks.new offsets.new lengths.new values.new arena.new) ≡ make_of maps (before marks.old offsets.old lengths.old values.old arena.old) }
{
    outcome_numbers(byte_map::clear(marks, offsets, lengths, values, arena))
}

// The number of slots.
#[unsafe(no_mangle)]
pub extern "C" fn moss_byte_map_capacity(
    marks: &[u8],
    offsets: &[u16],
    lengths: &[u8],
    values: &[u64],
    arena: &[u8],
) -> Numbers
    ensures { result ≡ capacity_of maps (before marks.now offsets.now lengths.now values.now arena.now) }
{
    counted_numbers(byte_map_reads::capacity(marks, offsets, lengths, values, arena))
}

// The number of keys.
#[unsafe(no_mangle)]
pub extern "C" fn moss_byte_map_len(
    marks: &[u8],
    offsets: &[u16],
    lengths: &[u8],
    values: &[u64],
    arena: &[u8],
) -> Numbers
    ensures { result ≡ len_of maps (before marks.now offsets.now lengths.now values.now arena.now) }
{
    counted_numbers(byte_map_reads::len(marks, offsets, lengths, values, arena))
}

// Whether there is no key.
#[unsafe(no_mangle)]
pub extern "C" fn moss_byte_map_is_empty(
    marks: &[u8],
    offsets: &[u16],
    lengths: &[u8],
    values: &[u64],
    arena: &[u8],
) -> Numbers
    ensures { result ≡ is_empty_of maps (before marks.now offsets.now lengths.now values.now arena.now) }
{
    emptiness_numbers(byte_map_reads::is_empty(marks, offsets, lengths, values, arena))
}

// Whether so many slots are not live, and so many arena bytes not used.
#[unsafe(no_mangle)]
pub extern "C" fn moss_byte_map_reserve(
    marks: &[u8],
    offsets: &[u16],
    lengths: &[u8],
    values: &[u64],
    arena: &[u8],
    keys: u64,
    bytes: u64,
) -> Numbers
    ensures { result ≡ reserve_of maps (before marks.now offsets.now lengths.now values.now arena.now) keys bytes }
{
    reserved_numbers(byte_map_reads::reserve(marks, offsets, lengths, values, arena, keys, bytes))
}

// The value of a key.
#[unsafe(no_mangle)]
pub extern "C" fn moss_byte_map_get(
    marks: &[u8],
    offsets: &[u16],
    lengths: &[u8],
    values: &[u64],
    arena: &[u8],
    key: &[u8],
) -> Numbers
    ensures { result ≡ get_of maps (before marks.now offsets.now lengths.now values.now arena.now) key.now }
{
    got_numbers(byte_map_reads::get(marks, offsets, lengths, values, arena, key))
}

// Whether a key is there.
#[unsafe(no_mangle)]
pub extern "C" fn moss_byte_map_contains_key(
    marks: &[u8],
    offsets: &[u16],
    lengths: &[u8],
    values: &[u64],
    arena: &[u8],
    key: &[u8],
) -> Numbers
    ensures { result ≡ contains_of maps (before marks.now offsets.now lengths.now values.now arena.now) key.now }
{
    contained_numbers(byte_map_reads::contains_key(marks, offsets, lengths, values, arena, key))
}

// Gives a key its value.
#[unsafe(no_mangle)]
pub extern "C" fn moss_byte_map_insert(
    marks: &mut [u8],
    offsets: &mut [u16],
    lengths: &mut [u8],
    values: &mut [u64],
    arena: &mut [u8],
    key: &[u8],
    value: u64,
) -> Numbers
    ensures { told result (after marks.new offsets.new lengths.new values.new arena.new) ≡ insert_of (before marks.old offsets.old lengths.old values.old arena.old) key.now value }
{
    stored_numbers(byte_map::insert(marks, offsets, lengths, values, arena, key, value))
}

// Takes a key out.
#[unsafe(no_mangle)]
pub extern "C" fn moss_byte_map_remove(
    marks: &mut [u8],
    offsets: &mut [u16],
    lengths: &mut [u8],
    values: &mut [u64],
    arena: &mut [u8],
    key: &[u8],
) -> Numbers
    ensures { told result (after marks.new offsets.new lengths.new values.new arena.new) ≡ remove_of maps (before marks.old offsets.old lengths.old values.old arena.old) key.now }
{
    removed_numbers(byte_map::remove(marks, offsets, lengths, values, arena, key))
}

// Makes a map equal to another of equal sizes.
#[unsafe(no_mangle)]
pub extern "C" fn moss_byte_map_copy(
    to_marks: &mut [u8],
    to_offsets: &mut [u16],
    to_lengths: &mut [u8],
    to_values: &mut [u64],
    to_arena: &mut [u8],
    marks: &[u8],
    offsets: &[u16],
    lengths: &[u8],
    values: &[u64],
    arena: &[u8],
) -> Numbers
    ensures { told result (after to_marks.new to_offsets.new to_lengths.new to_values.new to_arena.new) ≡ copy_of maps (before to_marks.old to_offsets.old to_lengths.old to_values.old to_arena.old) (before marks.now offsets.now lengths.now values.now arena.now) }
{
    outcome_numbers(byte_map::copy(
        to_marks, to_offsets, to_lengths, to_values, to_arena, marks, offsets, lengths, values,
        arena,
    ))
}

// Puts the right's pairs into the left, all or none.
#[unsafe(no_mangle)]
pub extern "C" fn moss_byte_map_union_prefer_right(
    marks: &mut [u8],
    offsets: &mut [u16],
    lengths: &mut [u8],
    values: &mut [u64],
    arena: &mut [u8],
    right_marks: &[u8],
    right_offsets: &[u16],
    right_lengths: &[u8],
    right_values: &[u64],
    right_arena: &[u8],
) -> Numbers
    ensures { told result (after marks.new offsets.new lengths.new values.new arena.new) ≡ union_of maps (before marks.old offsets.old lengths.old values.old arena.old) (before right_marks.now right_offsets.now right_lengths.now right_values.now right_arena.now) }
{
    outcome_numbers(byte_map_union::union_prefer_right(
        marks,
        offsets,
        lengths,
        values,
        arena,
        right_marks,
        right_offsets,
        right_lengths,
        right_values,
        right_arena,
    ))
}

// Where a walk starts.
#[unsafe(no_mangle)]
pub extern "C" fn moss_byte_map_walk_start() -> u64
    ensures { result ≡ 0 }
{
    Walk::start().at as u64
}

// One step of a walk with a budget of slots.
#[unsafe(no_mangle)]
pub extern "C" fn moss_byte_map_step(
    marks: &[u8],
    offsets: &[u16],
    lengths: &[u8],
    values: &[u64],
    arena: &[u8],
    walk: u64,
    budget: u64,
) -> Numbers
    ensures { result ≡ step_of (before marks.now offsets.now lengths.now values.now arena.now) walk budget }
{
    let from = Walk { at: walk as usize };
    step_numbers(byte_map_walk::step(from, marks, offsets, lengths, values, arena, budget))
}

// One step of a lent walk, which moves on in its place.
#[unsafe(no_mangle)]
pub extern "C" fn moss_byte_map_walk_on(
    marks: &[u8],
    offsets: &[u16],
    lengths: &[u8],
    values: &[u64],
    arena: &[u8],
    walk: &mut u64,
    budget: u64,
) -> Numbers
    ensures { told result walk.new ≡ moved_on (step_of (before marks.now offsets.now lengths.now values.now arena.now) walk.old budget) }
{
    let r = moss_byte_map_step(marks, offsets, lengths, values, arena, *walk, budget);
    *walk = r.walk;
    r
}

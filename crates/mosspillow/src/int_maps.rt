// The integer map for C: each call as int_map, int_map_reads, int_map_union and int_map_walk have it, its answer as numbers.
ghost use Rattle.std.specs.Prelude.{◌≡◌};
ghost use Rattle.kinds.specs.Calls.{make_of, capacity_of, len_of, is_empty_of, reserve_of, get_of, contains_of, remove_of, copy_of, union_of};
ghost use Rattle.kinds.specs.Moved.{moved_on};
ghost use Rattle.kinds.specs.Told.{told};
ghost use Rattle.int_slots.specs.Kinds.{insert_of};
ghost use Rattle.int_slots.specs.Maps.{before, maps, after};
ghost use Rattle.int_slots.specs.Steps.{step_of};

use answers::{
    Numbers, contained_numbers, counted_numbers, emptiness_numbers, got_numbers, inserted_numbers,
    outcome_numbers, removed_numbers, reserved_numbers,
};
use int_map_walk::{Walk, step_numbers};

// Makes an empty map of the lent arrays.
#[unsafe(no_mangle)]
pub extern "C" fn moss_int_map_make(
    marks: &mut [u8],
    keys: &mut [u64],
    values: &mut [u64],
) -> Numbers
    ensures { told result (after marks.new keys.new values.new) ≡ make_of maps (before marks.old keys.old values.old) }
{
    outcome_numbers(int_map::make(marks, keys, values))
}

// Empties a map.
#[unsafe(no_mangle)]
pub extern "C" fn moss_int_map_clear(
    marks: &mut [u8],
    keys: &mut [u64],
    values: &mut [u64],
) -> Numbers
    ensures { told result (after marks.new keys.new values.new) ≡ make_of maps (before marks.old keys.old values.old) }
{
    outcome_numbers(int_map::clear(marks, keys, values))
}

// The number of slots.
#[unsafe(no_mangle)]
pub extern "C" fn moss_int_map_capacity(marks: &[u8], keys: &[u64], values: &[u64]) -> Numbers
    ensures { result ≡ capacity_of maps (before marks.now keys.now values.now) }
{
    counted_numbers(int_map_reads::capacity(marks, keys, values))
}

// The number of keys.
#[unsafe(no_mangle)]
pub extern "C" fn moss_int_map_len(marks: &[u8], keys: &[u64], values: &[u64]) -> Numbers
    ensures { result ≡ len_of maps (before marks.now keys.now values.now) }
{
    counted_numbers(int_map_reads::len(marks, keys, values))
}

// Whether there is no key.
#[unsafe(no_mangle)]
pub extern "C" fn moss_int_map_is_empty(marks: &[u8], keys: &[u64], values: &[u64]) -> Numbers
    ensures { result ≡ is_empty_of maps (before marks.now keys.now values.now) }
{
    emptiness_numbers(int_map_reads::is_empty(marks, keys, values))
}

// Whether so many slots are not live.
#[unsafe(no_mangle)]
pub extern "C" fn moss_int_map_reserve(
    marks: &[u8],
    keys: &[u64],
    values: &[u64],
    asked: u64,
) -> Numbers
    ensures { result ≡ reserve_of maps (before marks.now keys.now values.now) asked 0 }
{
    reserved_numbers(int_map_reads::reserve(marks, keys, values, asked))
}

// The value of a key.
#[unsafe(no_mangle)]
pub extern "C" fn moss_int_map_get(marks: &[u8], keys: &[u64], values: &[u64], key: u64) -> Numbers
    ensures { result ≡ get_of maps (before marks.now keys.now values.now) key }
{
    got_numbers(int_map_reads::get(marks, keys, values, key))
}

// Whether a key is there.
#[unsafe(no_mangle)]
pub extern "C" fn moss_int_map_contains_key(
    marks: &[u8],
    keys: &[u64],
    values: &[u64],
    key: u64,
) -> Numbers
    ensures { result ≡ contains_of maps (before marks.now keys.now values.now) key }
{
    contained_numbers(int_map_reads::contains_key(marks, keys, values, key))
}

// Gives a key its value.
#[unsafe(no_mangle)]
pub extern "C" fn moss_int_map_insert(
    marks: &mut [u8],
    keys: &mut [u64],
    values: &mut [u64],
    key: u64,
    value: u64,
) -> Numbers
    ensures { told result (after marks.new keys.new values.new) ≡ insert_of (before marks.old keys.old values.old) key value }
{
    inserted_numbers(int_map::insert(marks, keys, values, key, value))
}

// Takes a key out.
#[unsafe(no_mangle)]
pub extern "C" fn moss_int_map_remove(
    marks: &mut [u8],
    keys: &mut [u64],
    values: &mut [u64],
    key: u64,
) -> Numbers
    ensures { told result (after marks.new keys.new values.new) ≡ remove_of maps (before marks.old keys.old values.old) key }
{
    removed_numbers(int_map::remove(marks, keys, values, key))
}

// Makes a map equal to another of equal sizes.
#[unsafe(no_mangle)]
pub extern "C" fn moss_int_map_copy(
    to_marks: &mut [u8],
    to_keys: &mut [u64],
    to_values: &mut [u64],
    marks: &[u8],
    keys: &[u64],
    values: &[u64],
) -> Numbers
    ensures { told result (after to_marks.new to_keys.new to_values.new) ≡ copy_of maps (before to_marks.old to_keys.old to_values.old) (before marks.now keys.now values.now) }
{
    outcome_numbers(int_map::copy(to_marks, to_keys, to_values, marks, keys, values))
}

// Puts the right's pairs into the left, all or none.
#[unsafe(no_mangle)]
pub extern "C" fn moss_int_map_union_prefer_right(
    marks: &mut [u8],
    keys: &mut [u64],
    values: &mut [u64],
    right_marks: &[u8],
    right_keys: &[u64],
    right_values: &[u64],
) -> Numbers
    ensures { told result (after marks.new keys.new values.new) ≡ union_of maps (before marks.old keys.old values.old) (before right_marks.now right_keys.now right_values.now) }
{
    outcome_numbers(int_map_union::union_prefer_right(
        marks,
        keys,
        values,
        right_marks,
        right_keys,
        right_values,
    ))
}

// Where a walk starts.
#[unsafe(no_mangle)]
pub extern "C" fn moss_int_map_walk_start() -> u64
    ensures { result ≡ 0 }
{
    Walk::start().at as u64
}

// One step of a walk with a budget of slots.
#[unsafe(no_mangle)]
pub extern "C" fn moss_int_map_step(
    marks: &[u8],
    keys: &[u64],
    values: &[u64],
    walk: u64,
    budget: u64,
) -> Numbers
    ensures { result ≡ step_of (before marks.now keys.now values.now) walk budget }
{
    let from = Walk { at: walk as usize };
    step_numbers(int_map_walk::step(from, marks, keys, values, budget))
}

// One step of a lent walk, which moves on in its place.
#[unsafe(no_mangle)]
pub extern "C" fn moss_int_map_walk_on(
    marks: &[u8],
    keys: &[u64],
    values: &[u64],
    walk: &mut u64,
    budget: u64,
) -> Numbers
    ensures { told result walk.new ≡ moved_on (step_of (before marks.now keys.now values.now) walk.old budget) }
{
    let r = moss_int_map_step(marks, keys, values, *walk, budget);
    *walk = r.walk;
    r
}

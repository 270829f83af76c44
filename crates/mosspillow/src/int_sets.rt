// The integer set for C: each call as int_set, int_set_reads and int_set_walk have it, its answer as numbers.
ghost use Rattle.std.specs.Prelude.{◌≡◌};
ghost use Rattle.kinds.specs.Calls.{make_of, capacity_of, len_of, is_empty_of, reserve_of, contains_of, dropped_of, copy_of};
ghost use Rattle.kinds.specs.Moved.{moved_on};
ghost use Rattle.kinds.specs.Told.{told};
ghost use Rattle.int_slots.specs.Kinds.{set_get_of, set_insert_of};
ghost use Rattle.int_slots.specs.Sets.{before, sets, after};
ghost use Rattle.int_slots.specs.Steps.{set_step_of};

use answers::{
    Numbers, added_numbers, contained_numbers, counted_numbers, dropped_numbers, emptiness_numbers,
    member_numbers, outcome_numbers, reserved_numbers,
};
use int_set_walk::{Walk, step_numbers};

// Makes an empty set of the lent arrays.
#[unsafe(no_mangle)]
pub extern "C" fn moss_int_set_make(marks: &mut [u8], keys: &mut [u64]) -> Numbers
    ensures { told result (after marks.new keys.new) ≡ make_of sets (before marks.old keys.old) }
{
    outcome_numbers(int_set::make(marks, keys))
}

// Empties a set.
#[unsafe(no_mangle)]
pub extern "C" fn moss_int_set_clear(marks: &mut [u8], keys: &mut [u64]) -> Numbers
    ensures { told result (after marks.new keys.new) ≡ make_of sets (before marks.old keys.old) }
{
    outcome_numbers(int_set::clear(marks, keys))
}

// The number of slots.
#[unsafe(no_mangle)]
pub extern "C" fn moss_int_set_capacity(marks: &[u8], keys: &[u64]) -> Numbers
    ensures { result ≡ capacity_of sets (before marks.now keys.now) }
{
    counted_numbers(int_set_reads::capacity(marks, keys))
}

// The number of keys.
#[unsafe(no_mangle)]
pub extern "C" fn moss_int_set_len(marks: &[u8], keys: &[u64]) -> Numbers
    ensures { result ≡ len_of sets (before marks.now keys.now) }
{
    counted_numbers(int_set_reads::len(marks, keys))
}

// Whether there is no key.
#[unsafe(no_mangle)]
pub extern "C" fn moss_int_set_is_empty(marks: &[u8], keys: &[u64]) -> Numbers
    ensures { result ≡ is_empty_of sets (before marks.now keys.now) }
{
    emptiness_numbers(int_set_reads::is_empty(marks, keys))
}

// Whether so many slots are not live.
#[unsafe(no_mangle)]
pub extern "C" fn moss_int_set_reserve(marks: &[u8], keys: &[u64], asked: u64) -> Numbers
    ensures { result ≡ reserve_of sets (before marks.now keys.now) asked 0 }
{
    reserved_numbers(int_set_reads::reserve(marks, keys, asked))
}

// The key, where it is there.
#[unsafe(no_mangle)]
pub extern "C" fn moss_int_set_get(marks: &[u8], keys: &[u64], key: u64) -> Numbers
    ensures { result ≡ set_get_of (before marks.now keys.now) key }
{
    member_numbers(int_set_reads::get(marks, keys, key))
}

// Whether a key is there.
#[unsafe(no_mangle)]
pub extern "C" fn moss_int_set_contains(marks: &[u8], keys: &[u64], key: u64) -> Numbers
    ensures { result ≡ contains_of sets (before marks.now keys.now) key }
{
    contained_numbers(int_set_reads::contains(marks, keys, key))
}

// Puts a key in.
#[unsafe(no_mangle)]
pub extern "C" fn moss_int_set_insert(marks: &mut [u8], keys: &mut [u64], key: u64) -> Numbers
    ensures { told result (after marks.new keys.new) ≡ set_insert_of (before marks.old keys.old) key }
{
    added_numbers(int_set::insert(marks, keys, key))
}

// Takes a key out.
#[unsafe(no_mangle)]
pub extern "C" fn moss_int_set_remove(marks: &mut [u8], keys: &mut [u64], key: u64) -> Numbers
    ensures { told result (after marks.new keys.new) ≡ dropped_of sets (before marks.old keys.old) key }
{
    dropped_numbers(int_set::remove(marks, keys, key))
}

// Makes a set equal to another of equal sizes.
#[unsafe(no_mangle)]
pub extern "C" fn moss_int_set_copy(
    to_marks: &mut [u8],
    to_keys: &mut [u64],
    marks: &[u8],
    keys: &[u64],
) -> Numbers
    ensures { told result (after to_marks.new to_keys.new) ≡ copy_of sets (before to_marks.old to_keys.old) (before marks.now keys.now) }
{
    outcome_numbers(int_set::copy(to_marks, to_keys, marks, keys))
}

// Where a walk starts.
#[unsafe(no_mangle)]
pub extern "C" fn moss_int_set_walk_start() -> u64
    ensures { result ≡ 0 }
{
    Walk::start().at as u64
}

// One step of a walk with a budget of slots.
#[unsafe(no_mangle)]
pub extern "C" fn moss_int_set_step(marks: &[u8], keys: &[u64], walk: u64, budget: u64) -> Numbers
    ensures { result ≡ set_step_of (before marks.now keys.now) walk budget }
{
    let from = Walk { at: walk as usize };
    step_numbers(int_set_walk::step(from, marks, keys, budget))
}

// One step of a lent walk, which moves on in its place.
#[unsafe(no_mangle)]
pub extern "C" fn moss_int_set_walk_on(
    marks: &[u8],
    keys: &[u64],
    walk: &mut u64,
    budget: u64,
) -> Numbers
    ensures { told result walk.new ≡ moved_on (set_step_of (before marks.now keys.now) walk.old budget) }
{
    let r = moss_int_set_step(marks, keys, *walk, budget);
    *walk = r.walk;
    r
}

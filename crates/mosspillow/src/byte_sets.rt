// The byte set for C: each call as byte_set, byte_set_reads and byte_set_walk have it, its answer as numbers.
ghost use Rattle.std.specs.Prelude.{◌≡◌};
ghost use Rattle.kinds.specs.Calls.{make_of, capacity_of, len_of, is_empty_of, reserve_of, contains_of, dropped_of, copy_of};
ghost use Rattle.kinds.specs.Moved.{moved_on};
ghost use Rattle.kinds.specs.Told.{told};
ghost use Rattle.byte_slots.specs.Kinds.{sets, set_get_of, set_insert_of, set_step_of};
ghost use Rattle.byte_slots.specs.Sets.{before, after};

use answers::{
    Numbers, contained_numbers, counted_numbers, dropped_numbers, emptiness_numbers,
    joined_numbers, outcome_numbers, reserved_numbers, spanned_numbers,
};
use byte_set_walk::{Walk, step_numbers};

// Makes an empty set of the lent arrays.
#[unsafe(no_mangle)]
pub extern "C" fn moss_byte_set_make(
    marks: &mut [u8],
    offsets: &mut [u16],
    lengths: &mut [u8],
    arena: &mut [u8],
) -> Numbers
    ensures { told result (after marks.new offsets.new lengths.new arena.new) ≡ make_of sets (before marks.old offsets.old lengths.old arena.old) }
{
    outcome_numbers(byte_set::make(marks, offsets, lengths, arena))
}

// Empties a set.
#[unsafe(no_mangle)]
pub extern "C" fn moss_byte_set_clear(
    marks: &mut [u8],
    offsets: &mut [u16],
    lengths: &mut [u8],
    arena: &mut [u8],
) -> Numbers
    ensures { told result (after marks.new offsets.new lengths.new arena.new) ≡ make_of sets (before marks.old offsets.old lengths.old arena.old) }
{
    outcome_numbers(byte_set::clear(marks, offsets, lengths, arena))
}

// The number of slots.
#[unsafe(no_mangle)]
pub extern "C" fn moss_byte_set_capacity(
    marks: &[u8],
    offsets: &[u16],
    lengths: &[u8],
    arena: &[u8],
) -> Numbers
    ensures { result ≡ capacity_of sets (before marks.now offsets.now lengths.now arena.now) }
{
    counted_numbers(byte_set_reads::capacity(marks, offsets, lengths, arena))
}

// The number of keys.
#[unsafe(no_mangle)]
pub extern "C" fn moss_byte_set_len(
    marks: &[u8],
    offsets: &[u16],
    lengths: &[u8],
    arena: &[u8],
) -> Numbers
    ensures { result ≡ len_of sets (before marks.now offsets.now lengths.now arena.now) }
{
    counted_numbers(byte_set_reads::len(marks, offsets, lengths, arena))
}

// Whether there is no key.
#[unsafe(no_mangle)]
pub extern "C" fn moss_byte_set_is_empty(
    marks: &[u8],
    offsets: &[u16],
    lengths: &[u8],
    arena: &[u8],
) -> Numbers
    ensures { result ≡ is_empty_of sets (before marks.now offsets.now lengths.now arena.now) }
{
    emptiness_numbers(byte_set_reads::is_empty(marks, offsets, lengths, arena))
}

// Whether so many slots are not live, and so many arena bytes not used.
#[unsafe(no_mangle)]
pub extern "C" fn moss_byte_set_reserve(
    marks: &[u8],
    offsets: &[u16],
    lengths: &[u8],
    arena: &[u8],
    keys: u64,
    bytes: u64,
) -> Numbers
    ensures { result ≡ reserve_of sets (before marks.now offsets.now lengths.now arena.now) keys bytes }
{
    reserved_numbers(byte_set_reads::reserve(marks, offsets, lengths, arena, keys, bytes))
}

// The stored key's offset and length, where the key is there.
#[unsafe(no_mangle)]
pub extern "C" fn moss_byte_set_get(
    marks: &[u8],
    offsets: &[u16],
    lengths: &[u8],
    arena: &[u8],
    key: &[u8],
) -> Numbers
    ensures { result ≡ set_get_of (before marks.now offsets.now lengths.now arena.now) key.now }
{
    spanned_numbers(byte_set_reads::get(marks, offsets, lengths, arena, key))
}

// Whether a key is there.
#[unsafe(no_mangle)]
pub extern "C" fn moss_byte_set_contains(
    marks: &[u8],
    offsets: &[u16],
    lengths: &[u8],
    arena: &[u8],
    key: &[u8],
) -> Numbers
    ensures { result ≡ contains_of sets (before marks.now offsets.now lengths.now arena.now) key.now }
{
    contained_numbers(byte_set_reads::contains(marks, offsets, lengths, arena, key))
}

// Puts a key in.
#[unsafe(no_mangle)]
pub extern "C" fn moss_byte_set_insert(
    marks: &mut [u8],
    offsets: &mut [u16],
    lengths: &mut [u8],
    arena: &mut [u8],
    key: &[u8],
) -> Numbers
    ensures { told result (after marks.new offsets.new lengths.new arena.new) ≡ set_insert_of (before marks.old offsets.old lengths.old arena.old) key.now }
{
    joined_numbers(byte_set::insert(marks, offsets, lengths, arena, key))
}

// Takes a key out.
#[unsafe(no_mangle)]
pub extern "C" fn moss_byte_set_remove(
    marks: &mut [u8],
    offsets: &mut [u16],
    lengths: &mut [u8],
    arena: &mut [u8],
    key: &[u8],
) -> Numbers
    ensures { told result (after marks.new offsets.new lengths.new arena.new) ≡ dropped_of sets (before marks.old offsets.old lengths.old arena.old) key.now }
{
    dropped_numbers(byte_set::remove(marks, offsets, lengths, arena, key))
}

// Makes a set equal to another of equal sizes.
#[unsafe(no_mangle)]
pub extern "C" fn moss_byte_set_copy(
    to_marks: &mut [u8],
    to_offsets: &mut [u16],
    to_lengths: &mut [u8],
    to_arena: &mut [u8],
    marks: &[u8],
    offsets: &[u16],
    lengths: &[u8],
    arena: &[u8],
) -> Numbers
    ensures { told result (after to_marks.new to_offsets.new to_lengths.new to_arena.new) ≡ copy_of sets (before to_marks.old to_offsets.old to_lengths.old to_arena.old) (before marks.now offsets.now lengths.now arena.now) }
{
    outcome_numbers(byte_set::copy(
        to_marks, to_offsets, to_lengths, to_arena, marks, offsets, lengths, arena,
    ))
}

// Where a walk starts.
#[unsafe(no_mangle)]
pub extern "C" fn moss_byte_set_walk_start() -> u64
    ensures { result ≡ 0 }
{
    Walk::start().at as u64
}

// One step of a walk with a budget of slots.
#[unsafe(no_mangle)]
pub extern "C" fn moss_byte_set_step(
    marks: &[u8],
    offsets: &[u16],
    lengths: &[u8],
    arena: &[u8],
    walk: u64,
    budget: u64,
) -> Numbers
    ensures { result ≡ set_step_of (before marks.now offsets.now lengths.now arena.now) walk budget }
{
    let from = Walk { at: walk as usize };
    step_numbers(byte_set_walk::step(from, marks, offsets, lengths, arena, budget))
}

// One step of a lent walk, which moves on in its place.
#[unsafe(no_mangle)]
pub extern "C" fn moss_byte_set_walk_on(
    marks: &[u8],
    offsets: &[u16],
    lengths: &[u8],
    arena: &[u8],
    walk: &mut u64,
    budget: u64,
) -> Numbers
    ensures { told result walk.new ≡ moved_on (set_step_of (before marks.now offsets.now lengths.now arena.now) walk.old budget) }
{
    let r = moss_byte_set_step(marks, offsets, lengths, arena, *walk, budget);
    *walk = r.walk;
    r
}

// The calls of a byte map that only read. Each contract is one equation with a definition of the theory at this store.
#![tactic(auto)]

ghost use Rattle.std.specs.Prelude.{◌≡◌};
ghost use Rattle.answers.specs.Numbers.{counted_numbers, emptiness_numbers, reserved_numbers, got_numbers, contained_numbers};
ghost use Rattle.kinds.specs.Calls.{capacity_of, len_of, is_empty_of, reserve_of, get_of, contains_of};
ghost use Rattle.byte_slots.specs.Kinds.{maps};
ghost use Rattle.byte_slots.specs.Maps.{before};

use answers::{Contained, Lookup, Refusal};
use byte_slots::ByteMap;
use kinds::Probed;

// The number of slots.
#[tactic(auto, using(tables::proofs::Calls::capacity_refused, tables::proofs::Calls::lent_is))]
pub fn capacity(
    marks: &[u8],
    offsets: &[u16],
    lengths: &[u8],
    values: &[u64],
    arena: &[u8],
) -> Result<usize, Refusal>
    ensures { counted_numbers result ≡ capacity_of maps (before marks.now offsets.now lengths.now values.now arena.now) }
{
    tables::capacity(&ByteMap::lent(marks, offsets, lengths, values, arena)?)
}

// The number of keys.
#[tactic(auto, using(tables::proofs::Calls::len_refused, tables::proofs::Calls::lent_is))]
pub fn len(
    marks: &[u8],
    offsets: &[u16],
    lengths: &[u8],
    values: &[u64],
    arena: &[u8],
) -> Result<usize, Refusal>
    ensures { counted_numbers result ≡ len_of maps (before marks.now offsets.now lengths.now values.now arena.now) }
{
    tables::len(&ByteMap::lent(marks, offsets, lengths, values, arena)?)
}

// Whether there is no key.
#[tactic(auto, using(tables::proofs::Calls::empty_refused, tables::proofs::Calls::lent_is))]
pub fn is_empty(
    marks: &[u8],
    offsets: &[u16],
    lengths: &[u8],
    values: &[u64],
    arena: &[u8],
) -> Result<bool, Refusal>
    ensures { emptiness_numbers result ≡ is_empty_of maps (before marks.now offsets.now lengths.now values.now arena.now) }
{
    tables::is_empty(&ByteMap::lent(marks, offsets, lengths, values, arena)?)
}

// Whether so many slots are not live, and so many arena bytes not used; damage as insert finds it.
pub fn reserve(
    marks: &[u8],
    offsets: &[u16],
    lengths: &[u8],
    values: &[u64],
    arena: &[u8],
    keys: u64,
    bytes: u64,
) -> Result<(), Refusal>
    ensures { reserved_numbers result ≡ reserve_of maps (before marks.now offsets.now lengths.now values.now arena.now) keys bytes }
{
    if marks.len() != values.len() {
        return Err(Refusal::Sizes);
    }
    byte_set_reads::reserve(marks, offsets, lengths, arena, keys, bytes)
}

// The value of a key, with its slot and the examined number.
#[tactic(auto, using(tables::proofs::Calls::lent_is, tables::proofs::Calls::lent_sized, byte_slots::proofs::Lookups::map_get_refused, byte_slots::proofs::Lookups::map_get_long, byte_slots::proofs::Lookups::map_get_hit, byte_slots::proofs::Lookups::map_get_absent, byte_slots::proofs::Lookups::map_get_bad))]
pub fn get(
    marks: &[u8],
    offsets: &[u16],
    lengths: &[u8],
    values: &[u64],
    arena: &[u8],
    key: &[u8],
) -> Result<Lookup<u64>, Refusal>
    ensures { got_numbers result ≡ get_of maps (before marks.now offsets.now lengths.now values.now arena.now) key.now }
{
    let map = ByteMap::lent(marks, offsets, lengths, values, arena)?;
    if !byte_slots::may_ask(key) {
        return Err(Refusal::LongKey);
    }
    match tables::probe(&map, key)? {
        Probed::Hit(slot, examined) => Ok(Lookup::Found(map.value(slot), slot, examined)),
        Probed::Free(_, examined) | Probed::Full(examined) => Ok(Lookup::Absent(examined)),
    }
}

// Whether a key is there, with the examined number.
#[tactic(auto, using(tables::proofs::Calls::contains_refused, tables::proofs::Calls::lent_is, tables::proofs::Calls::lent_sized, byte_slots::proofs::Lookups::contains_long))]
pub fn contains_key(
    marks: &[u8],
    offsets: &[u16],
    lengths: &[u8],
    values: &[u64],
    arena: &[u8],
    key: &[u8],
) -> Result<Contained, Refusal>
    ensures { contained_numbers result ≡ contains_of maps (before marks.now offsets.now lengths.now values.now arena.now) key.now }
{
    let map = ByteMap::lent(marks, offsets, lengths, values, arena)?;
    if !byte_slots::may_ask(key) {
        return Err(Refusal::LongKey);
    }
    tables::contains(&map, key)
}

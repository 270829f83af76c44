// The calls of an integer map that only read. Each contract is one equation with a definition of the theory at this store.
#![tactic(auto)]

ghost use Rattle.std.specs.Prelude.{◌≡◌};
ghost use Rattle.answers.specs.Numbers.{counted_numbers, emptiness_numbers, reserved_numbers, got_numbers, contained_numbers};
ghost use Rattle.kinds.specs.Calls.{capacity_of, len_of, is_empty_of, reserve_of, get_of, contains_of};
ghost use Rattle.int_slots.specs.Maps.{maps, before};

use answers::{Contained, Lookup, Refusal};
use int_slots::IntMap;
use kinds::Probed;

// The number of slots.
#[tactic(auto, using(tables::proofs::Calls::capacity_refused, tables::proofs::Calls::lent_is))]
pub fn capacity(marks: &[u8], keys: &[u64], values: &[u64]) -> Result<usize, Refusal>
    ensures { counted_numbers result ≡ capacity_of maps (before marks.now keys.now values.now) }
{
    tables::capacity(&IntMap::lent(marks, keys, values)?)
}

// The number of keys.
#[tactic(auto, using(tables::proofs::Calls::len_refused, tables::proofs::Calls::lent_is))]
pub fn len(marks: &[u8], keys: &[u64], values: &[u64]) -> Result<usize, Refusal>
    ensures { counted_numbers result ≡ len_of maps (before marks.now keys.now values.now) }
{
    tables::len(&IntMap::lent(marks, keys, values)?)
}

// Whether there is no key.
pub fn is_empty(marks: &[u8], keys: &[u64], values: &[u64]) -> Result<bool, Refusal>
    ensures { emptiness_numbers result ≡ is_empty_of maps (before marks.now keys.now values.now) }
{
    tables::is_empty(&IntMap::lent(marks, keys, values)?)
}

// Whether so many slots are not live.
pub fn reserve(marks: &[u8], keys: &[u64], values: &[u64], asked: u64) -> Result<(), Refusal>
    ensures { reserved_numbers result ≡ reserve_of maps (before marks.now keys.now values.now) asked 0 }
{
    if marks.len() != values.len() {
        return Err(Refusal::Sizes);
    }
    int_set_reads::reserve(marks, keys, asked)
}

// The value of a key, with its slot and the examined number.
pub fn get(marks: &[u8], keys: &[u64], values: &[u64], key: u64) -> Result<Lookup<u64>, Refusal>
    ensures { got_numbers result ≡ get_of maps (before marks.now keys.now values.now) key }
{
    let map = IntMap::lent(marks, keys, values)?;
    match map.probe(key)? {
        Probed::Hit(slot, examined) => Ok(Lookup::Found(map.value(slot), slot, examined)),
        Probed::Free(_, examined) | Probed::Full(examined) => Ok(Lookup::Absent(examined)),
    }
}

// Whether a key is there, with the examined number.
pub fn contains_key(
    marks: &[u8],
    keys: &[u64],
    values: &[u64],
    key: u64,
) -> Result<Contained, Refusal>
    ensures { contained_numbers result ≡ contains_of maps (before marks.now keys.now values.now) key }
{
    tables::contains(&IntMap::lent(marks, keys, values)?, key)
}

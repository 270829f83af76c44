// The calls of an integer set that only read. Each contract is one equation with a definition of the theory at this store.
#![tactic(auto)]

ghost use Rattle.std.specs.Prelude.{◌≡◌};
ghost use Rattle.answers.specs.Numbers.{counted_numbers, emptiness_numbers, reserved_numbers, member_numbers, contained_numbers};
ghost use Rattle.int_slots.specs.Sets.{sets, before};
ghost use Rattle.int_slots.specs.Kinds.{set_get_of};
ghost use Rattle.kinds.specs.Calls.{capacity_of, len_of, is_empty_of, reserve_of, contains_of};

use answers::{Contained, Lookup, Refusal};
use int_slots::IntSet;
use kinds::Probed;

// The number of slots.
#[tactic(auto, using(tables::proofs::Calls::capacity_refused, tables::proofs::Calls::lent_is))]
pub fn capacity(marks: &[u8], keys: &[u64]) -> Result<usize, Refusal>
    ensures { counted_numbers result ≡ capacity_of sets (before marks.now keys.now) }
{
    tables::capacity(&IntSet::lent(marks, keys)?)
}

// The number of keys.
#[tactic(auto, using(tables::proofs::Calls::len_refused, tables::proofs::Calls::lent_is))]
pub fn len(marks: &[u8], keys: &[u64]) -> Result<usize, Refusal>
    ensures { counted_numbers result ≡ len_of sets (before marks.now keys.now) }
{
    tables::len(&IntSet::lent(marks, keys)?)
}

// Whether there is no key.
pub fn is_empty(marks: &[u8], keys: &[u64]) -> Result<bool, Refusal>
    ensures { emptiness_numbers result ≡ is_empty_of sets (before marks.now keys.now) }
{
    tables::is_empty(&IntSet::lent(marks, keys)?)
}

// Whether so many slots are not live.
#[tactic(auto, using(kinds::proofs::Counts::reserve_not))]
pub fn reserve(marks: &[u8], keys: &[u64], asked: u64) -> Result<(), Refusal>
    ensures { reserved_numbers result ≡ reserve_of sets (before marks.now keys.now) asked 0 }
{
    let left = marks.len() - len(marks, keys)?;
    if (left as u64) < asked {
        return Err(Refusal::NoSlot);
    }
    Ok(())
}

// The key where it is there, with its slot and the examined number.
pub fn get(marks: &[u8], keys: &[u64], key: u64) -> Result<Lookup<u64>, Refusal>
    ensures { member_numbers result ≡ set_get_of (before marks.now keys.now) key }
{
    match IntSet::lent(marks, keys)?.probe(key)? {
        Probed::Hit(slot, examined) => Ok(Lookup::Found(key, slot, examined)),
        Probed::Free(_, examined) | Probed::Full(examined) => Ok(Lookup::Absent(examined)),
    }
}

// Whether a key is there, with the examined number.
pub fn contains(marks: &[u8], keys: &[u64], key: u64) -> Result<Contained, Refusal>
    ensures { contained_numbers result ≡ contains_of sets (before marks.now keys.now) key }
{
    tables::contains(&IntSet::lent(marks, keys)?, key)
}

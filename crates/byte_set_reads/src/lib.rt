// The calls of a byte set that only read. Each contract is one equation with a definition of the theory at this store.
#![tactic(auto)]

ghost use Rattle.std.specs.Prelude.{◌≡◌};
ghost use Rattle.answers.specs.Numbers.{counted_numbers, emptiness_numbers, reserved_numbers, spanned_numbers, contained_numbers};
ghost use Rattle.kinds.specs.Calls.{capacity_of, len_of, is_empty_of, reserve_of, contains_of};
ghost use Rattle.byte_slots.specs.Kinds.{sets, set_get_of};
ghost use Rattle.byte_slots.specs.Sets.{before};

use answers::{Contained, Lookup, Refusal, Span};
use byte_slots::ByteSet;
use kinds::{Probed, reserved_by};

// The number of slots.
#[tactic(auto, using(tables::proofs::Calls::capacity_refused, tables::proofs::Calls::lent_is))]
pub fn capacity(
    marks: &[u8],
    offsets: &[u16],
    lengths: &[u8],
    arena: &[u8],
) -> Result<usize, Refusal>
    ensures { counted_numbers result ≡ capacity_of sets (before marks.now offsets.now lengths.now arena.now) }
{
    tables::capacity(&ByteSet::lent(marks, offsets, lengths, arena)?)
}

// The number of keys.
#[tactic(auto, using(tables::proofs::Calls::len_refused, tables::proofs::Calls::lent_is))]
pub fn len(marks: &[u8], offsets: &[u16], lengths: &[u8], arena: &[u8]) -> Result<usize, Refusal>
    ensures { counted_numbers result ≡ len_of sets (before marks.now offsets.now lengths.now arena.now) }
{
    tables::len(&ByteSet::lent(marks, offsets, lengths, arena)?)
}

// Whether there is no key.
#[tactic(auto, using(tables::proofs::Calls::empty_refused, tables::proofs::Calls::lent_is))]
pub fn is_empty(
    marks: &[u8],
    offsets: &[u16],
    lengths: &[u8],
    arena: &[u8],
) -> Result<bool, Refusal>
    ensures { emptiness_numbers result ≡ is_empty_of sets (before marks.now offsets.now lengths.now arena.now) }
{
    tables::is_empty(&ByteSet::lent(marks, offsets, lengths, arena)?)
}

// Whether so many slots are not live, and so many arena bytes not used; damage as insert finds it.
#[tactic(auto, using(tables::proofs::Calls::reserve_refused, tables::proofs::Calls::lent_is, tables::proofs::Calls::lent_sized, byte_slots::proofs::Lookups::reserve_bad, byte_slots::proofs::Lookups::reserve_room, byte_slots::proofs::Plans::surveyed_within))]
pub fn reserve(
    marks: &[u8],
    offsets: &[u16],
    lengths: &[u8],
    arena: &[u8],
    keys: u64,
    bytes: u64,
) -> Result<(), Refusal>
    ensures { reserved_numbers result ≡ reserve_of sets (before marks.now offsets.now lengths.now arena.now) keys bytes }
{
    let set = ByteSet::lent(marks, offsets, lengths, arena)?;
    let used = set.survey()?;
    reserved_by(set.free_slots(), arena.len() - used, keys, bytes)
}

// The stored key's offset and length where the key is there, with its slot and the examined number.
#[tactic(auto, using(tables::proofs::Calls::lent_is, tables::proofs::Calls::lent_sized, byte_slots::proofs::Lookups::set_get_refused, byte_slots::proofs::Lookups::set_get_long, byte_slots::proofs::Lookups::set_get_hit, byte_slots::proofs::Lookups::set_get_absent, byte_slots::proofs::Lookups::set_get_bad))]
pub fn get(
    marks: &[u8],
    offsets: &[u16],
    lengths: &[u8],
    arena: &[u8],
    key: &[u8],
) -> Result<Lookup<Span>, Refusal>
    ensures { spanned_numbers result ≡ set_get_of (before marks.now offsets.now lengths.now arena.now) key.now }
{
    let set = ByteSet::lent(marks, offsets, lengths, arena)?;
    if !byte_slots::may_ask(key) {
        return Err(Refusal::LongKey);
    }
    match tables::probe(&set, key)? {
        Probed::Hit(slot, examined) => {
            let span = set.span(slot);
            Ok(Lookup::Found(span, slot, examined))
        }
        Probed::Free(_, examined) | Probed::Full(examined) => Ok(Lookup::Absent(examined)),
    }
}

// Whether a key is there, with the examined number.
#[tactic(auto, using(tables::proofs::Calls::contains_refused, tables::proofs::Calls::lent_is, tables::proofs::Calls::lent_sized, byte_slots::proofs::Lookups::contains_long))]
pub fn contains(
    marks: &[u8],
    offsets: &[u16],
    lengths: &[u8],
    arena: &[u8],
    key: &[u8],
) -> Result<Contained, Refusal>
    ensures { contained_numbers result ≡ contains_of sets (before marks.now offsets.now lengths.now arena.now) key.now }
{
    let set = ByteSet::lent(marks, offsets, lengths, arena)?;
    if !byte_slots::may_ask(key) {
        return Err(Refusal::LongKey);
    }
    tables::contains(&set, key)
}

// The insert rule with no test in byte tables: for one key, for a slot of another table, and for all its slots in their order. Maps and sets share it.
#![tactic(auto)]

ghost use Rattle.std.specs.Prelude.{◌≡◌, true, ◌<◌, length};
ghost use Rattle.model.specs.Calls.{rule};
ghost use Rattle.kinds.specs.Probing.{slot_by};
ghost use Rattle.kinds.specs.Stores.{slot_in, slot_stored, all_stored};
ghost use Rattle.byte_slots.specs.Memory.{spans_now, spans_before, spans_after, fitting, used_of};
ghost use Rattle.byte_slots.specs.Kinds.{maps, sets};
ghost use Rattle.byte_slots.specs.Maps.{before, after};
ghost use Rattle.byte_slots.specs.Sets.{before as set_before, after as set_after};
ghost use Rattle.byte_slots.specs.Probing.{probing};
ghost use Rattle.byte_arena.specs.Needs.{Aligned};
ghost use Rattle.byte_store.specs.Stores.{Ready, Storable, pair_at, pairs_of};

use byte_arena::fill;
use byte_slots::{key_at, mark_at, probe};
use kinds::{Mark, Probed};

// Where the insert rule left a key: its slot, S where none was free; and the bytes used then.
#[derive(Clone, Copy, Debug, PartialEq, Eq)]
pub struct Placed {
    pub slot: usize,
    pub used: usize,
}

// The insert rule with no test: the first free slot of the key's path takes it, where it is absent.
pub fn store(
    marks: &mut [u8],
    offsets: &mut [u16],
    lengths: &mut [u8],
    arena: &mut [u8],
    key: &[u8],
    used: usize,
) -> Placed
    requires { Storable (spans_now marks.old offsets.old lengths.old arena.old) used key.now }
    ensures { (set_after marks.new offsets.new lengths.new arena.new ≡ rule sets (set_before marks.old offsets.old lengths.old arena.old) key.now tt) × (result.slot ≡ slot_by (length marks.old) (probing (spans_before marks.old offsets.old lengths.old arena.old) key.now)) × (result.used ≡ used_of (spans_after marks.new offsets.new lengths.new arena.new)) }
{
    let Ok(seen) = probe(marks, offsets, lengths, arena, key) else {
        return Placed {
            slot: marks.len(),
            used,
        };
    };
    match seen {
        Probed::Hit(slot, _) => Placed { slot, used },
        Probed::Free(slot, _) => {
            fill(marks, offsets, lengths, arena, slot, used, key);
            Placed {
                slot,
                used: used + key.len(),
            }
        }
        Probed::Full(_) => Placed {
            slot: marks.len(),
            used,
        },
    }
}

// The insert rule for slot i of another table, the right, where it is live. The bytes used then.
pub fn store_slot(
    marks: &mut [u8],
    offsets: &mut [u16],
    lengths: &mut [u8],
    arena: &mut [u8],
    right_marks: &[u8],
    right_offsets: &[u16],
    right_lengths: &[u8],
    right_arena: &[u8],
    i: usize,
    used: usize,
) -> usize
    requires { Ready (spans_now marks.old offsets.old lengths.old arena.old) used (pair_at (spans_now right_marks.now right_offsets.now right_lengths.now right_arena.now) i) × Aligned (spans_now right_marks.now right_offsets.now right_lengths.now right_arena.now) i }
    ensures { (set_after marks.new offsets.new lengths.new arena.new ≡ slot_stored sets (set_before marks.old offsets.old lengths.old arena.old) (slot_in sets (set_before right_marks.now right_offsets.now right_lengths.now right_arena.now) i)) × (result ≡ used_of (spans_after marks.new offsets.new lengths.new arena.new)) }
{
    let Ok(mark) = mark_at(right_marks, right_offsets, right_lengths, right_arena, i) else {
        return used;
    };
    match mark {
        Mark::Live => {
            let key = key_at(right_offsets, right_lengths, right_arena, i);
            store(marks, offsets, lengths, arena, key, used).used
        }
        Mark::Never | Mark::Freed => used,
    }
}

// The right's keys go in by the insert rule, in its slot order.
pub fn store_all(
    marks: &mut [u8],
    offsets: &mut [u16],
    lengths: &mut [u8],
    arena: &mut [u8],
    right_marks: &[u8],
    right_offsets: &[u16],
    right_lengths: &[u8],
    right_arena: &[u8],
    used: usize,
)
    requires { Ready (spans_now marks.old offsets.old lengths.old arena.old) used (pairs_of (spans_now right_marks.now right_offsets.now right_lengths.now right_arena.now) (length right_marks.now)) × (fitting (spans_now right_marks.now right_offsets.now right_lengths.now right_arena.now) ≡ true) }
    ensures { set_after marks.new offsets.new lengths.new arena.new ≡ all_stored sets (set_before marks.old offsets.old lengths.old arena.old) (set_before right_marks.now right_offsets.now right_lengths.now right_arena.now) (length right_marks.now) }
{
    let mut end = used;
    for i in 0..right_marks.len() {
        end = store_slot(
            marks,
            offsets,
            lengths,
            arena,
            right_marks,
            right_offsets,
            right_lengths,
            right_arena,
            i,
            end,
        );
    }
}

// The same in a map: the key's slot has the value then. The bytes used then.
pub fn map_store(
    marks: &mut [u8],
    offsets: &mut [u16],
    lengths: &mut [u8],
    values: &mut [u64],
    arena: &mut [u8],
    key: &[u8],
    value: u64,
    used: usize,
) -> usize
    requires { Storable (spans_now marks.old offsets.old lengths.old arena.old) used key.now × (length values.old ≡ length marks.old) }
    ensures { (after marks.new offsets.new lengths.new values.new arena.new ≡ rule maps (before marks.old offsets.old lengths.old values.old arena.old) key.now value) × (result ≡ used_of (spans_after marks.new offsets.new lengths.new arena.new)) }
{
    let Placed { slot, used } = store(marks, offsets, lengths, arena, key, used);
    if slot < values.len() {
        values[slot] = value;
    }
    used
}

// The same for slot i of another map, where it is live.
pub fn map_store_slot(
    marks: &mut [u8],
    offsets: &mut [u16],
    lengths: &mut [u8],
    values: &mut [u64],
    arena: &mut [u8],
    right_marks: &[u8],
    right_offsets: &[u16],
    right_lengths: &[u8],
    right_values: &[u64],
    right_arena: &[u8],
    i: usize,
    used: usize,
) -> usize
    requires { Ready (spans_now marks.old offsets.old lengths.old arena.old) used (pair_at (spans_now right_marks.now right_offsets.now right_lengths.now right_arena.now) i) × Aligned (spans_now right_marks.now right_offsets.now right_lengths.now right_arena.now) i × (i < length right_values.now) × (length values.old ≡ length marks.old) }
    ensures { (after marks.new offsets.new lengths.new values.new arena.new ≡ slot_stored maps (before marks.old offsets.old lengths.old values.old arena.old) (slot_in maps (before right_marks.now right_offsets.now right_lengths.now right_values.now right_arena.now) i)) × (result ≡ used_of (spans_after marks.new offsets.new lengths.new arena.new)) }
{
    let Ok(mark) = mark_at(right_marks, right_offsets, right_lengths, right_arena, i) else {
        return used;
    };
    match mark {
        Mark::Live => {
            let key = key_at(right_offsets, right_lengths, right_arena, i);
            let value = right_values[i];
            map_store(marks, offsets, lengths, values, arena, key, value, used)
        }
        Mark::Never | Mark::Freed => used,
    }
}

// The right's pairs go into a map by the insert rule, in the right's slot order.
pub fn map_store_all(
    marks: &mut [u8],
    offsets: &mut [u16],
    lengths: &mut [u8],
    values: &mut [u64],
    arena: &mut [u8],
    right_marks: &[u8],
    right_offsets: &[u16],
    right_lengths: &[u8],
    right_values: &[u64],
    right_arena: &[u8],
    used: usize,
)
    requires { Ready (spans_now marks.old offsets.old lengths.old arena.old) used (pairs_of (spans_now right_marks.now right_offsets.now right_lengths.now right_arena.now) (length right_marks.now)) × (fitting (spans_now right_marks.now right_offsets.now right_lengths.now right_arena.now) ≡ true) × (length right_values.now ≡ length right_marks.now) × (length values.old ≡ length marks.old) }
    ensures { after marks.new offsets.new lengths.new values.new arena.new ≡ all_stored maps (before marks.old offsets.old lengths.old values.old arena.old) (before right_marks.now right_offsets.now right_lengths.now right_values.now right_arena.now) (length right_marks.now) }
{
    let mut end = used;
    for i in 0..right_marks.len() {
        end = map_store_slot(
            marks,
            offsets,
            lengths,
            values,
            arena,
            right_marks,
            right_offsets,
            right_lengths,
            right_values,
            right_arena,
            i,
            end,
        );
    }
}

// The union of byte maps: every test over both tables first, then the right's pairs go into the left.
#![tactic(auto)]

ghost use Rattle.std.specs.Prelude.{◌≡◌, true, ◌≤◌, ◌<◌, length};
ghost use Rattle.digest.specs.Home.{key_limit};
ghost use Rattle.answers.specs.Numbers.{outcome_numbers};
ghost use Rattle.kinds.specs.Calls.{union_of};
ghost use Rattle.kinds.specs.Told.{told};
ghost use Rattle.byte_slots.specs.Memory.{spans_now, spans_before, fitting};
ghost use Rattle.byte_slots.specs.Kinds.{maps};
ghost use Rattle.byte_slots.specs.Maps.{map_now, before, after};
ghost use Rattle.byte_map_union.specs.Needs.{needed_by, slot_needs, table_needs, planned, room_of, plan_of};

use answers::Refusal;
use byte_slots::{key_at, live_marks, map_fits, mark_at, probe, survey};
use byte_store::map_store_all;
use kinds::{Mark, Probed, reserved_by};

// What the left has to have room for: so many slots, and so many bytes.
#[derive(Clone, Copy, Debug, PartialEq, Eq)]
pub struct Needed {
    pub slots: usize,
    pub bytes: usize,
}

// What a key of this length needs, by how its path in the left ended.
#[tactic(auto, unfolding(crate::specs::Needs::needed_by))]
fn needed_by(found: Result<Probed, Refusal>, len: usize) -> Needed
    ensures { result ≡ needed_by found len }
{
    match found {
        Ok(Probed::Hit(..)) => Needed { slots: 0, bytes: 0 },
        Ok(Probed::Free(..) | Probed::Full(_)) | Err(_) => Needed {
            slots: 1,
            bytes: len,
        },
    }
}

// What slot i of the right needs: a slot and its key's bytes, where it is live and its key is absent in the left.
fn slot_needs(
    marks: &[u8],
    offsets: &[u16],
    lengths: &[u8],
    arena: &[u8],
    right_marks: &[u8],
    right_offsets: &[u16],
    right_lengths: &[u8],
    right_arena: &[u8],
    i: usize,
) -> Needed
    requires { (fitting (spans_now marks.now offsets.now lengths.now arena.now) ≡ true) × (fitting (spans_now right_marks.now right_offsets.now right_lengths.now right_arena.now) ≡ true) × (i < length right_marks.now) }
    ensures { (result ≡ slot_needs (spans_before marks.now offsets.now lengths.now arena.now) (spans_before right_marks.now right_offsets.now right_lengths.now right_arena.now) i) × (result.slots ≤ 1) × (result.bytes ≤ key_limit) }
{
    let Ok(mark) = mark_at(right_marks, right_offsets, right_lengths, right_arena, i) else {
        return Needed { slots: 0, bytes: 0 };
    };
    match mark {
        Mark::Live => {
            let key = key_at(right_offsets, right_lengths, right_arena, i);
            needed_by(probe(marks, offsets, lengths, arena, key), key.len())
        }
        Mark::Never | Mark::Freed => Needed { slots: 0, bytes: 0 },
    }
}

// What the right needs of the left, over all its slots.
fn table_needs(
    marks: &[u8],
    offsets: &[u16],
    lengths: &[u8],
    arena: &[u8],
    right_marks: &[u8],
    right_offsets: &[u16],
    right_lengths: &[u8],
    right_arena: &[u8],
) -> Needed
    requires { (fitting (spans_now marks.now offsets.now lengths.now arena.now) ≡ true) × (fitting (spans_now right_marks.now right_offsets.now right_lengths.now right_arena.now) ≡ true) }
    ensures { result ≡ table_needs (spans_before marks.now offsets.now lengths.now arena.now) (spans_before right_marks.now right_offsets.now right_lengths.now right_arena.now) (length right_marks.now) }
{
    let mut slots = 0;
    let mut bytes = 0;
    for i in 0..right_marks.len() {
        let more = slot_needs(
            marks,
            offsets,
            lengths,
            arena,
            right_marks,
            right_offsets,
            right_lengths,
            right_arena,
            i,
        );
        slots += more.slots;
        bytes += more.bytes;
    }
    Needed { slots, bytes }
}

// The union's tests of two tables of right sizes: damage in either, then slots, then bytes.
fn room(
    marks: &[u8],
    offsets: &[u16],
    lengths: &[u8],
    arena: &[u8],
    right_marks: &[u8],
    right_offsets: &[u16],
    right_lengths: &[u8],
    right_arena: &[u8],
) -> Result<usize, Refusal>
    requires { (fitting (spans_now marks.now offsets.now lengths.now arena.now) ≡ true) × (fitting (spans_now right_marks.now right_offsets.now right_lengths.now right_arena.now) ≡ true) }
    ensures { planned result ≡ room_of (spans_before marks.now offsets.now lengths.now arena.now) (spans_before right_marks.now right_offsets.now right_lengths.now right_arena.now) }
{
    let used = survey(marks, offsets, lengths, arena)?;
    survey(right_marks, right_offsets, right_lengths, right_arena)?;
    let needed = table_needs(
        marks,
        offsets,
        lengths,
        arena,
        right_marks,
        right_offsets,
        right_lengths,
        right_arena,
    );
    let slots = marks.len() - live_marks(marks);
    let left = arena.len() - used;
    reserved_by(slots, left, needed.slots as u64, needed.bytes as u64)?;
    Ok(used)
}

// The union's tests.
#[tactic(auto, using(crate::proofs::Plans::left_unfit, crate::proofs::Plans::right_unfit, crate::proofs::Plans::room_plan))]
fn plan(
    marks: &[u8],
    offsets: &[u16],
    lengths: &[u8],
    values: &[u64],
    arena: &[u8],
    right_marks: &[u8],
    right_offsets: &[u16],
    right_lengths: &[u8],
    right_values: &[u64],
    right_arena: &[u8],
) -> Result<usize, Refusal>
    ensures { planned result ≡ plan_of (before marks.now offsets.now lengths.now values.now arena.now) (before right_marks.now right_offsets.now right_lengths.now right_values.now right_arena.now) }
{
    if !map_fits(marks, offsets, lengths, values, arena)
        || !map_fits(
            right_marks,
            right_offsets,
            right_lengths,
            right_values,
            right_arena,
        )
    {
        return Err(Refusal::Sizes);
    }
    room(
        marks,
        offsets,
        lengths,
        arena,
        right_marks,
        right_offsets,
        right_lengths,
        right_arena,
    )
}

// Does what the plan says: all of the right's pairs go into the left, or none.
fn carry_out(
    way: Result<usize, Refusal>,
    marks: &mut [u8],
    offsets: &mut [u16],
    lengths: &mut [u8],
    values: &mut [u64],
    arena: &mut [u8],
    right_marks: &[u8],
    right_offsets: &[u16],
    right_lengths: &[u8],
    right_values: &[u64],
    right_arena: &[u8],
) -> Result<(), Refusal>
    requires { planned way ≡ plan_of (map_now marks.old offsets.old lengths.old values.old arena.old) (map_now right_marks.now right_offsets.now right_lengths.now right_values.now right_arena.now) }
    ensures { told (outcome_numbers result) (after marks.new offsets.new lengths.new values.new arena.new) ≡ union_of maps (before marks.old offsets.old lengths.old values.old arena.old) (before right_marks.now right_offsets.now right_lengths.now right_values.now right_arena.now) }
{
    let used = way?;
    map_store_all(
        marks,
        offsets,
        lengths,
        values,
        arena,
        right_marks,
        right_offsets,
        right_lengths,
        right_values,
        right_arena,
        used,
    );
    Ok(())
}

// Puts the right's pairs into the left, where its slots and bytes suffice for all; the right stays as it was.
pub fn union_prefer_right(
    marks: &mut [u8],
    offsets: &mut [u16],
    lengths: &mut [u8],
    values: &mut [u64],
    arena: &mut [u8],
    right_marks: &[u8],
    right_offsets: &[u16],
    right_lengths: &[u8],
    right_values: &[u64],
    right_arena: &[u8],
) -> Result<(), Refusal>
    ensures { told (outcome_numbers result) (after marks.new offsets.new lengths.new values.new arena.new) ≡ union_of maps (before marks.old offsets.old lengths.old values.old arena.old) (before right_marks.now right_offsets.now right_lengths.now right_values.now right_arena.now) }
{
    carry_out(
        plan(
            marks,
            offsets,
            lengths,
            values,
            arena,
            right_marks,
            right_offsets,
            right_lengths,
            right_values,
            right_arena,
        ),
        marks,
        offsets,
        lengths,
        values,
        arena,
        right_marks,
        right_offsets,
        right_lengths,
        right_values,
        right_arena,
    )
}

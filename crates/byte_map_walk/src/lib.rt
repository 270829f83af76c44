// Walks of a byte map: each step hands out at most one pair within its budget, its key as offset and length.
#![tactic(auto)]

ghost use Rattle.std.specs.Prelude.{◌≡◌};
ghost use Rattle.kinds.specs.Told.{told};
ghost use Rattle.kinds.specs.Moved.{moved_on};
ghost use Rattle.byte_slots.specs.Kinds.{step_of};
ghost use Rattle.byte_slots.specs.Maps.{before};
ghost use Rattle.byte_map_walk.specs.Numbers.{step_numbers};

use answers::Span;
use byte_slots::ByteMap;
pub use tables::{Stepped, Walk, Yielded, step_numbers};

// One step with a budget of slots: the pair of the first live slot within it, nothing, or done.
#[tactic(auto, unfolding(byte_slots::specs::Kinds::step_of), using(tables::proofs::Calls::lent_is, tables::proofs::Calls::step_refused))]
pub fn step(
    walk: Walk,
    marks: &[u8],
    offsets: &[u16],
    lengths: &[u8],
    values: &[u64],
    arena: &[u8],
    budget: u64,
) -> Stepped<(Span, u64)>
    ensures { step_numbers result ≡ step_of (before marks.now offsets.now lengths.now values.now arena.now) walk.at budget }
{
    match ByteMap::lent(marks, offsets, lengths, values, arena) {
        Ok(table) => walk.step(&table, budget),
        Err(why) => Stepped::refused(walk, why),
    }
}

// One step of a lent walk, which moves on in its place.
#[tactic(auto, using(tables::proofs::Equal::moved_step))]
pub fn step_on(
    walk: &mut Walk,
    marks: &[u8],
    offsets: &[u16],
    lengths: &[u8],
    values: &[u64],
    arena: &[u8],
    budget: u64,
) -> Stepped<(Span, u64)>
    ensures { told (step_numbers result) walk.new.at ≡ moved_on (step_of (before marks.now offsets.now lengths.now values.now arena.now) walk.old.at budget) }
{
    let r = step(*walk, marks, offsets, lengths, values, arena, budget);
    *walk = r.walk;
    r
}

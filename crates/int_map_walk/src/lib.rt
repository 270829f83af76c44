// Walks of an integer map: each step hands out at most one pair within its budget.
#![tactic(auto)]

ghost use Rattle.std.specs.Prelude.{◌≡◌};
ghost use Rattle.kinds.specs.Told.{told};
ghost use Rattle.kinds.specs.Moved.{moved_on};
ghost use Rattle.int_slots.specs.Steps.{step_of};
ghost use Rattle.int_slots.specs.Maps.{before};
ghost use Rattle.int_map_walk.specs.Numbers.{step_numbers};

use int_slots::IntMap;
pub use tables::{Stepped, Walk, Yielded, step_numbers};

// One step with a budget of slots: the pair of the first live slot within it, nothing, or done.
#[tactic(auto, unfolding(int_slots::specs::Steps::step_of), using(tables::proofs::Calls::lent_is, tables::proofs::Calls::step_refused))]
pub fn step(
    walk: Walk,
    marks: &[u8],
    keys: &[u64],
    values: &[u64],
    budget: u64,
) -> Stepped<(u64, u64)>
    ensures { step_numbers result ≡ step_of (before marks.now keys.now values.now) walk.at budget }
{
    match IntMap::lent(marks, keys, values) {
        Ok(table) => walk.step(&table, budget),
        Err(why) => Stepped::refused(walk, why),
    }
}

// One step of a lent walk, which moves on in its place.
#[tactic(auto, using(tables::proofs::Equal::moved_step))]
pub fn step_on(
    walk: &mut Walk,
    marks: &[u8],
    keys: &[u64],
    values: &[u64],
    budget: u64,
) -> Stepped<(u64, u64)>
    ensures { told (step_numbers result) walk.new.at ≡ moved_on (step_of (before marks.now keys.now values.now) walk.old.at budget) }
{
    let r = step(*walk, marks, keys, values, budget);
    *walk = r.walk;
    r
}

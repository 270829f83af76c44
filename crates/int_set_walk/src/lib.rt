// Walks of an integer set: each step hands out at most one key within its budget.
#![tactic(auto)]

ghost use Rattle.std.specs.Prelude.{◌≡◌};
ghost use Rattle.kinds.specs.Told.{told};
ghost use Rattle.kinds.specs.Moved.{moved_on};
ghost use Rattle.int_slots.specs.Steps.{set_step_of};
ghost use Rattle.int_slots.specs.Sets.{before};
ghost use Rattle.int_set_walk.specs.Numbers.{step_numbers};

use int_slots::IntSet;
pub use tables::{Stepped, Walk, Yielded, step_numbers};

// One step with a budget of slots: the key of the first live slot within it, nothing, or done.
#[tactic(auto, unfolding(int_slots::specs::Steps::set_step_of), using(tables::proofs::Calls::lent_is, tables::proofs::Calls::step_refused))]
pub fn step(walk: Walk, marks: &[u8], keys: &[u64], budget: u64) -> Stepped<u64>
    ensures { step_numbers result ≡ set_step_of (before marks.now keys.now) walk.at budget }
{
    match IntSet::lent(marks, keys) {
        Ok(table) => walk.step(&table, budget),
        Err(why) => Stepped::refused(walk, why),
    }
}

// One step of a lent walk, which moves on in its place.
#[tactic(auto, using(tables::proofs::Equal::moved_step))]
pub fn step_on(walk: &mut Walk, marks: &[u8], keys: &[u64], budget: u64) -> Stepped<u64>
    ensures { told (step_numbers result) walk.new.at ≡ moved_on (set_step_of (before marks.now keys.now) walk.old.at budget) }
{
    let r = step(*walk, marks, keys, budget);
    *walk = r.walk;
    r
}

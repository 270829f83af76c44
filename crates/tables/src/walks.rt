// Walks over tables of all kinds: a walk is a slot number, and each step hands out what stands in at most one live slot within its budget.

ghost use Rattle.std.specs.Prelude.{◌≡◌, Err};
ghost use Rattle.answers.specs.Said.{step_said};
ghost use Rattle.model.specs.Machine.{stepping};
ghost use Rattle.tables.specs.Handing.{Parts, part_numbers, numbers_of, handing, key_parts, pair_parts, span_parts, span_pair_parts};

use crate::{Table, ahead};
use answers::{
    Case, Numbers, Refusal, Span, refused_walk_numbers, span_walk_numbers, walk_numbers,
};
use kinds::Ahead;

// A walk is the slot where it stands.
#[derive(Clone, Copy, Debug, PartialEq, Eq)]
pub struct Walk {
    pub at: usize,
}

// What a step of a walk hands out: what stands in a slot, nothing, or that the walk is done.
#[derive(Clone, Copy, Debug, PartialEq, Eq)]
pub enum Yielded<T> {
    Item(T),
    Nothing,
    Done,
}

// The answer of a step: the walk moved on, what it hands out or a refusal, and the examined number.
#[derive(Clone, Copy, Debug, PartialEq, Eq)]
pub struct Stepped<T> {
    pub walk: Walk,
    pub out: Result<Yielded<T>, Refusal>,
    pub examined: usize,
}

impl Walk {
    // A walk starts at slot 0.
    pub fn start() -> Walk
        ensures { result.at ≡ 0 }
    {
        Walk { at: 0 }
    }

    // One step with a budget of slots: what stands in the first live slot within it, nothing, or done.
    pub fn step<K, T: Table<K>>(self, table: &T, budget: u64) -> Stepped<T::Item>
        ensures { numbers_of T.Item.parts result ≡ step_said (handing (T.tells (T.state table.now))) self.at (stepping T.store (T.state table.now) self.at budget) }
    {
        match ahead(table, self.at, budget) {
            Ok(Ahead::Live(slot)) => Stepped {
                walk: Walk { at: slot + 1 },
                out: Ok(Yielded::Item(table.item(slot))),
                examined: slot + 1 - self.at,
            },
            Ok(Ahead::Nothing(slot)) => Stepped {
                walk: Walk { at: slot },
                out: Ok(Yielded::Nothing),
                examined: slot - self.at,
            },
            Ok(Ahead::Done) => Stepped {
                walk: self,
                out: Ok(Yielded::Done),
                examined: 0,
            },
            Err(why) => Stepped::refused(self, why),
        }
    }
}

// What a step may hand out, as numbers.
pub trait Handed: Copy {
    ghost parts: { Self → Parts };

    // The numbers of a step that hands it out, by the walk and the examined number.
    fn numbers(self, walk: usize, examined: usize) -> Numbers
        ensures { result ≡ part_numbers (parts self) walk examined };
}

// A key of an integer set.
impl Handed for u64 {
    ghost parts = { key_parts };

    fn numbers(self, walk: usize, examined: usize) -> Numbers {
        walk_numbers(Case::Pair, self, 0, examined, walk)
    }
}

// A pair of an integer map.
impl Handed for (u64, u64) {
    ghost parts = { pair_parts };

    fn numbers(self, walk: usize, examined: usize) -> Numbers {
        walk_numbers(Case::Pair, self.0, self.1, examined, walk)
    }
}

// A key of a byte set, by its part of the arena.
impl Handed for Span {
    ghost parts = { span_parts };

    fn numbers(self, walk: usize, examined: usize) -> Numbers {
        span_walk_numbers(0, self, examined, walk)
    }
}

// A pair of a byte map, its key by its part of the arena.
impl Handed for (Span, u64) {
    ghost parts = { span_pair_parts };

    fn numbers(self, walk: usize, examined: usize) -> Numbers {
        span_walk_numbers(self.1, self.0, examined, walk)
    }
}

impl<T> Stepped<T> {
    // A refused step: the walk stays, and no slot was examined.
    pub fn refused(walk: Walk, why: Refusal) -> Stepped<T>
        ensures { (result.walk ≡ walk) × (result.out ≡ Err why) × (result.examined ≡ 0) }
    {
        Stepped {
            walk,
            out: Err(why),
            examined: 0,
        }
    }
}

// The numbers of a step of a walk.
#[tactic(auto, unfolding(crate::specs::Handing::numbers_of, crate::specs::Handing::yielded_numbers))]
pub fn step_numbers<T: Handed>(s: Stepped<T>) -> Numbers
    ensures { result ≡ numbers_of T.parts s }
{
    let at = s.walk.at;
    match s.out {
        Ok(Yielded::Item(item)) => item.numbers(at, s.examined),
        Ok(Yielded::Nothing) => walk_numbers(Case::Nothing, 0, 0, s.examined, at),
        Ok(Yielded::Done) => walk_numbers(Case::WalkDone, 0, 0, s.examined, at),
        Err(refusal) => refused_walk_numbers(refusal, s.examined, at),
    }
}

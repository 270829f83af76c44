// What all kinds of tables share: the answers of probing, scan and look ahead, and the small steps of their loops and walks.
#![tactic(auto)]

ghost use Rattle.std.specs.Prelude.{◌≡◌, ◌≤◌, ◌<◌};
ghost use Rattle.model.specs.Walk.{reach_of};
ghost use Rattle.kinds.specs.Marks.{counted, mark_read};
ghost use Rattle.kinds.specs.Probing.{first_free, next_slot, ended};
ghost use Rattle.kinds.specs.Rooms.{reserved_by};
ghost use Rattle.kinds.specs.Stepping.{way_of, ahead_by};

use answers::Refusal;

// What a mark says of its slot, where it is not damaged. The numbers are those of lent memory.
#[derive(Clone, Copy, Debug, PartialEq, Eq)]
pub enum Mark {
    Never = 0,
    Live = 1,
    Freed = 2,
}

// A mark in lent memory; a number of no mark is damage.
impl TryFrom<u8> for Mark {
    type Error = Refusal;

    ghost try_from_gives = { λ mark r. r ≡ mark_read mark };

    #[inline(always)]
    #[tactic(auto, unfolding(crate::specs::Marks::mark_read))]
    fn try_from(mark: u8) -> Result<Mark, Refusal> {
        match mark {
            0 => Ok(Mark::Never),
            1 => Ok(Mark::Live),
            2 => Ok(Mark::Freed),
            _ => Err(Refusal::Damaged),
        }
    }
}

// What the look at a slot of a path says, where it is not damaged: never used, freed, live with the key, or live with another.
#[derive(Clone, Copy, Debug, PartialEq, Eq)]
pub enum Sight {
    Never,
    Freed,
    Same,
    Other,
}

// What a path found: the key's slot, the first free slot, or neither, each with the examined number.
#[derive(Clone, Copy, Debug, PartialEq, Eq)]
pub enum Probed {
    Hit(usize, usize),
    Free(usize, usize),
    Full(usize),
}

// What a step of a walk comes upon: the first live slot within its budget, none with the slot where the walk then stands, or the end.
#[derive(Clone, Copy, Debug, PartialEq, Eq)]
pub enum Ahead {
    Live(usize),
    Nothing(usize),
    Done,
}

// The first free slot of a path so far: the one known, else this one.
#[tactic(auto, unfolding(crate::specs::Probing::first_free))]
pub fn first_free(free: usize, slot: usize, size: usize) -> usize
    ensures { result ≡ first_free size free slot }
{
    if free < size { free } else { slot }
}

// The slot after this one, wrapping.
#[tactic(auto, unfolding(crate::specs::Probing::next_slot))]
pub fn next_slot(slot: usize, size: usize) -> usize
    requires { slot < size }
    ensures { result ≡ next_slot size slot }
{
    if slot + 1 < size { slot + 1 } else { 0 }
}

// The answer of a path that ended without the key.
#[tactic(auto, unfolding(crate::specs::Probing::ended))]
pub fn ended_at(free: usize, size: usize, examined: usize) -> Probed
    ensures { result ≡ ended size free examined }
{
    if free < size {
        Probed::Free(free, examined)
    } else {
        Probed::Full(examined)
    }
}

// What a slot with this mark adds to the number of live slots.
#[tactic(auto, unfolding(crate::specs::Marks::counted))]
pub fn count_mark(mark: u8) -> usize
    ensures { result ≡ counted mark }
{
    usize::from(mark == Mark::Live as u8)
}

// Whether so many slots and bytes are enough for so many keys of so many bytes: slots first.
#[tactic(auto, unfolding(crate::specs::Rooms::reserved_by))]
pub fn reserved_by(slots: usize, left: usize, keys: u64, bytes: u64) -> Result<(), Refusal>
    ensures { result ≡ reserved_by slots left keys bytes }
{
    if (slots as u64) < keys {
        return Err(Refusal::NoSlot);
    }
    if (left as u64) < bytes {
        return Err(Refusal::NoBytes);
    }
    Ok(())
}

// How many slots a step of a walk may look at: its budget, and no more than there are from here.
#[tactic(auto, unfolding(model::specs::Walk::reach_of))]
fn reach(size: usize, at: usize, budget: u64) -> usize
    requires { at ≤ size }
    ensures { result ≡ reach_of size at budget }
{
    budget.min((size - at) as u64) as usize
}

// A step's tests of its budget and its place, and how far it may look.
#[tactic(auto, unfolding(crate::specs::Stepping::way_of, model::specs::Walk::reach_of))]
pub fn way(size: usize, at: usize, budget: u64) -> Result<Option<usize>, Refusal>
    ensures { result ≡ way_of size at budget }
{
    if budget == 0 {
        return Err(Refusal::NoBudget);
    }
    if at < size {
        return Ok(Some(at + reach(size, at, budget)));
    }
    if size < at {
        return Err(Refusal::WalkBeyond);
    }
    Ok(None)
}

// What a step comes upon, by the live slot that stands first before the slot up to which it looks.
#[tactic(auto, unfolding(crate::specs::Stepping::ahead_by))]
pub fn ahead_by(next: Result<Option<usize>, Refusal>, end: usize) -> Result<Ahead, Refusal>
    ensures { result ≡ ahead_by end next }
{
    Ok(next?.map_or(Ahead::Nothing(end), Ahead::Live))
}

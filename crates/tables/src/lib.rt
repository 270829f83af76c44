// What calls need of a lent table, and the loops over its slots, written once for tables of all kinds.
#![tactic(auto)]

ghost use Rattle.std.specs.Prelude.{◌≡◌, ◌<◌, ◌≤◌, ◌^◌, ℕ, true};
ghost use Rattle.answers.specs.Numbers.{contained_numbers, counted_numbers, emptiness_numbers};
ghost use Rattle.kinds.specs.Calls.{capacity_of, contains_of, is_empty_of, len_of};
ghost use Rattle.model.specs.Slots.{live};
ghost use Rattle.model.specs.Store.{Store};
ghost use Rattle.tables.specs.Handing.{Parts};
ghost use Rattle.kinds.specs.Probing.{look_at};
ghost use Rattle.tables.specs.Reading.{mark_in, ended, probing, scanning, nexting, coming};

pub mod walks;

use answers::{Contained, Refusal};
use kinds::{Ahead, Mark, Probed, Sight, ahead_by, next_slot, way};
pub use walks::{Handed, Stepped, Walk, Yielded, step_numbers};

// A lent table of right sizes, as calls read it. Its keys come as K.
pub trait Table<K> {
    // The theory's keys and words, the store that such tables are, and what is lent as one of its states.
    ghost Key: { Type 0 };

    ghost Word: { Type 0 };

    ghost store: { Store Key Word };

    ghost state: { Self → store.State };

    ghost key_of: { K → Key };

    // What a walk hands out of a live slot, and what is told of one with this key and word.
    type Item: Handed;

    ghost tells: { store.State → Key → Word → ℕ → Parts };

    // The number of slots.
    fn size(&self) -> usize
        ensures slots { result ≡ store.size (state self.now) }
        ensures sized { store.sized (state self.now) ≡ true };

    // The mark of a slot.
    fn mark(&self, slot: usize) -> Result<Mark, Refusal>
        requires { slot < store.size (state self.now) }
        ensures { result ≡ mark_in (store.slots (state self.now) slot) };

    // The look at a slot, for a key.
    fn look(&self, slot: usize, key: K) -> Result<Sight, Refusal>
        requires { slot < store.size (state self.now) }
        ensures { result ≡ look_at store.keys (key_of key) (store.slots (state self.now) slot) };

    // What stands in a live slot.
    fn item(&self, slot: usize) -> Self::Item
        requires { slot < store.size (state self.now) }
        ensures { (k : Key) (v : Word) → store.slots (state self.now) slot ≡ live k v → Self.Item.parts result ≡ tells (state self.now) k v slot };

    // The home slot of a key.
    fn home(&self, key: K) -> usize
        ensures { (result ≡ store.home (state self.now) (key_of key)) × (result < store.size (state self.now)) };
}

// The path of a key from its home slot, slot by slot: each break is an answer.
pub fn probe<K: Copy, T: Table<K>>(table: &T, key: K) -> Result<Probed, Refusal>
    ensures found { result ≡ probing T.store (T.state table.now) (T.key_of key) }
    ensures sized { T.store.sized (T.state table.now) ≡ true }
{
    let size = table.size();
    let mut slot = table.home(key);
    let mut n = 0;
    let mut free = None;
    loop {
        match table.look(slot, key)? {
            Sight::Never => break Ok(Probed::Free(free.unwrap_or(slot), n + 1)),
            Sight::Freed => free = free.or(Some(slot)),
            Sight::Same => break Ok(Probed::Hit(slot, n + 1)),
            Sight::Other => {}
        }
        n += 1;
        if n == size {
            break Ok(ended_at(free, n));
        }
        slot = next_slot(slot, size);
    }
}

// A path without the key: its first free slot, where there is one.
#[tactic(auto, unfolding(crate::specs::Reading::ended))]
fn ended_at(free: Option<usize>, examined: usize) -> Probed
    ensures { result ≡ ended free examined }
{
    match free {
        Some(slot) => Probed::Free(slot, examined),
        None => Probed::Full(examined),
    }
}

// The scan of all slots: damage, else the number of live slots.
pub fn scan<K, T: Table<K>>(table: &T) -> Result<usize, Refusal>
    ensures found { result ≡ scanning T.store (T.state table.now) }
    ensures sized { T.store.sized (T.state table.now) ≡ true }
{
    let mut live = 0;
    for slot in 0..table.size() {
        match table.mark(slot)? {
            Mark::Live => live += 1,
            _ => {}
        }
    }
    Ok(live)
}

// The first live or damaged slot from `at` on, before `end`.
pub fn next_live<K, T: Table<K>>(table: &T, at: usize, end: usize) -> Result<Option<usize>, Refusal>
    requires { end ≤ T.store.size (T.state table.now) }
    ensures { result ≡ nexting T.store (T.state table.now) at end }
{
    for slot in at..end {
        if let Mark::Live = table.mark(slot)? {
            return Ok(Some(slot));
        }
    }
    Ok(None)
}

// What a step of a walk comes upon: its tests in order, then the first live slot within its reach.
#[tactic(auto, unfolding(crate::specs::Reading::coming, crate::specs::Reading::come_upon), using(kinds::proofs::Stepping::way_inside))]
pub fn ahead<K, T: Table<K>>(table: &T, at: usize, budget: u64) -> Result<Ahead, Refusal>
    ensures found { result ≡ coming T.store (T.state table.now) at budget }
    ensures sized { (T.store.sized (T.state table.now) ≡ true) × (T.store.size (T.state table.now) < 2 ^ 64) }
{
    match way(table.size(), at, budget)? {
        Some(end) => ahead_by(next_live(table, at, end), end),
        None => Ok(Ahead::Done),
    }
}

// The number of slots.
#[tactic(auto, using(kinds::proofs::Sizing::capacity_sized))]
pub fn capacity<K, T: Table<K>>(table: &T) -> Result<usize, Refusal>
    ensures { counted_numbers result ≡ capacity_of T.store (T.state table.now) }
{
    Ok(table.size())
}

// The number of keys.
#[tactic(auto, using(crate::proofs::Calls::len_told))]
pub fn len<K, T: Table<K>>(table: &T) -> Result<usize, Refusal>
    ensures { counted_numbers result ≡ len_of T.store (T.state table.now) }
{
    scan(table)
}

// Whether there is no key.
#[tactic(auto, using(crate::proofs::Calls::empty_told, crate::proofs::Calls::empty_bad))]
pub fn is_empty<K, T: Table<K>>(table: &T) -> Result<bool, Refusal>
    ensures { emptiness_numbers result ≡ is_empty_of T.store (T.state table.now) }
{
    Ok(scan(table)? == 0)
}

// Whether a key is there that may be asked for, with the examined number.
pub fn contains<K: Copy, T: Table<K>>(table: &T, key: K) -> Result<Contained, Refusal>
    requires { T.store.asked (T.key_of key) ≡ 0 }
    ensures { contained_numbers result ≡ contains_of T.store (T.state table.now) (T.key_of key) }
{
    match probe(table, key)? {
        Probed::Hit(_, examined) => Ok(Contained::Present(examined)),
        Probed::Free(_, examined) | Probed::Full(examined) => Ok(Contained::Absent(examined)),
    }
}

// Integer slots: sizes, the look at a slot, the probing loop, the scan, and the next live slot. Maps and sets share them.
#![tactic(auto)]

ghost use Rattle.std.specs.Prelude.{◌≡◌, true, ◌+◌, ◌<◌, ℕ, length, get_or};
ghost use Rattle.int_slots.specs.Sets.{SetMemory, sets, before as set_before};
ghost use Rattle.tables.specs.Handing.{key_parts, pair_parts};
ghost use Rattle.tables.specs.Reading.{lent_of, probing as probing_in};
ghost use Rattle.model.specs.Path.{find};
ghost use Rattle.kinds.specs.Probing.{first_free, look_of, along};
ghost use Rattle.kinds.specs.declared.Probed.TheVariants.{Free};
ghost use Rattle.int_slots.specs.Probing.{slots_in, probing, walked};
ghost use Rattle.int_slots.specs.Scanning.{scanning};
ghost use Rattle.int_slots.specs.Memory.{integers, fitting};
ghost use Rattle.int_slots.specs.Seeking.{probing_map};
ghost use Rattle.int_slots.specs.Maps.{MapMemory, maps, before};
ghost use Rattle.kinds.specs.Calls.{sized_of};

use answers::Refusal;
use digest::{slot_of_word, slots_fit};
use kinds::{Mark, Probed, Sight, ended_at, first_free, next_slot};
use std::marker::Model;
use tables::Table;

// The lent arrays of an integer set, of right sizes.
#[derive(Drop)]
pub struct IntSet<'a> {
    marks: &'a [u8],
    keys: &'a [u64],
}

// Calls see the marks and the keys as the theory's memory.
impl<'a> Model for IntSet<'a> {
    ghost Value = { SetMemory };

    ghost view = { λ t. set_before t.marks.now t.keys.now };

    ghost invariant = { λ t. fitting t.marks.now t.keys.now ≡ true };
}

impl<'a> IntSet<'a> {
    // The set of these arrays, or refusal 1.
    #[tactic(auto, unfolding(crate::specs::Memory::fitting, tables::specs::Reading::lent_of))]
    pub fn lent(marks: &'a [u8], keys: &'a [u64]) -> Result<IntSet<'a>, Refusal>
        ensures { result ≡ lent_of sets (set_before marks.now keys.now) }
    {
        if slots_fit(marks.len() as u64) && marks.len() == keys.len() {
            Ok(IntSet { marks, keys })
        } else {
            Err(Refusal::Sizes)
        }
    }
}

impl<'a> IntSet<'a> {
    // The path of a key, over the arrays themselves.
    #[inline(always)]
    pub fn probe(&self, key: u64) -> Result<Probed, Refusal>
        ensures found { result ≡ probing_in sets self.now key }
        ensures sized { sets.sized self.now ≡ true }
    {
        path(self.marks, self.keys, key)
    }

    // The key in a slot.
    #[tactic(auto, using(crate::proofs::Sizes::fitting_says))]
    pub fn key(&self, slot: usize) -> u64
        requires { slot < length self.now.marks }
        ensures { result ≡ get_or self.now.keys slot 0 }
    {
        let keys = self.keys;
        keys[slot]
    }
}

impl<'a> Table<u64> for IntSet<'a> {
    ghost Key = { ℕ };

    ghost Word = { Unit {0} };

    ghost store = { sets };

    ghost state = { λ m. m };

    ghost key_of = { λ k. k };

    type Item = u64;

    ghost tells = { λ m k v i. key_parts k };

    #[tactic(auto, unfolding(crate::specs::Memory::fitting))]
    fn size(&self) -> usize {
        self.marks.len()
    }

    #[tactic(auto, using(tables::proofs::Cells::mark_cell))]
    fn mark(&self, slot: usize) -> Result<Mark, Refusal> {
        Mark::try_from(self.marks[slot])
    }

    #[tactic(auto, unfolding(kinds::specs::Probing::look_of), using(crate::proofs::Sizes::fitting_says))]
    fn look(&self, slot: usize, key: u64) -> Result<Sight, Refusal> {
        look(self.marks[slot], self.keys[slot], key)
    }

    #[tactic(auto, using(tables::proofs::Cells::held_cell))]
    fn item(&self, slot: usize) -> u64 {
        self.key(slot)
    }

    #[tactic(auto, using(crate::proofs::Sizes::fitting_says, digest::proofs::Bounds::home_word_below))]
    fn home(&self, key: u64) -> usize {
        slot_of_word(key, self.marks.len() as u64, 0) as usize
    }
}

// The lent arrays of an integer map, of right sizes: the set of its keys, and a value for each slot.
#[derive(Drop)]
pub struct IntMap<'a> {
    set: IntSet<'a>,
    values: &'a [u64],
}

impl<'a> Model for IntMap<'a> {
    ghost Value = { MapMemory };

    ghost view = { λ t. before t.set.marks t.set.keys t.values.now };

    ghost invariant = { λ t. maps.sized (before t.set.marks t.set.keys t.values.now) ≡ true };
}

impl<'a> IntMap<'a> {
    // The map of these arrays, or refusal 1.
    #[tactic(auto, unfolding(tables::specs::Reading::lent_of))]
    pub fn lent(marks: &'a [u8], keys: &'a [u64], values: &'a [u64]) -> Result<IntMap<'a>, Refusal>
        ensures { result ≡ lent_of maps (before marks.now keys.now values.now) }
    {
        if marks.len() == values.len() {
            let set = IntSet::lent(marks, keys)?;
            Ok(IntMap { set, values })
        } else {
            Err(Refusal::Sizes)
        }
    }

    // The path of a key: that of the set of the keys.
    #[inline(always)]
    #[tactic(auto, using(crate::proofs::Lent::map_path))]
    pub fn probe(&self, key: u64) -> Result<Probed, Refusal>
        ensures found { result ≡ probing_in maps self.now key }
        ensures sized { maps.sized self.now ≡ true }
    {
        self.set.probe(key)
    }

    // The value in a slot.
    #[tactic(auto, using(crate::proofs::MapSizes::map_long))]
    pub fn value(&self, slot: usize) -> u64
        requires { slot < length self.now.marks }
        ensures { result ≡ get_or self.now.words slot 0 }
    {
        let values = self.values;
        values[slot]
    }
}

impl<'a> Table<u64> for IntMap<'a> {
    ghost Key = { ℕ };

    ghost Word = { ℕ };

    ghost store = { maps };

    ghost state = { λ m. m };

    ghost key_of = { λ k. k };

    type Item = (u64, u64);

    ghost tells = { λ m k v i. pair_parts (k, v) };

    fn size(&self) -> usize {
        self.set.size()
    }

    #[tactic(auto, using(tables::proofs::Cells::mark_beside))]
    fn mark(&self, slot: usize) -> Result<Mark, Refusal> {
        self.set.mark(slot)
    }

    #[tactic(auto, using(tables::proofs::Cells::look_beside))]
    fn look(&self, slot: usize, key: u64) -> Result<Sight, Refusal> {
        self.set.look(slot, key)
    }

    #[tactic(auto, using(tables::proofs::Cells::held_cell))]
    fn item(&self, slot: usize) -> (u64, u64) {
        (self.set.key(slot), self.value(slot))
    }

    fn home(&self, key: u64) -> usize {
        self.set.home(key)
    }
}

// Whether marks and keys are of one length that a table may have.
#[tactic(auto, unfolding(crate::specs::Memory::fitting))]
pub fn fits(marks: &[u8], keys: &[u64]) -> bool
    ensures { result ≡ fitting marks.now keys.now }
{
    slots_fit(marks.len() as u64) && marks.len() == keys.len()
}

// The look at a slot with this mark and key, for a key.
#[tactic(auto, unfolding(kinds::specs::Probing::look_of, kinds::specs::Probing::look_at, kinds::specs::Marks::cell, kinds::specs::Marks::mark_read))]
fn look(mark: u8, held: u64, key: u64) -> Result<Sight, Refusal>
    ensures { result ≡ look_of integers key mark held }
{
    match Mark::try_from(mark)? {
        Mark::Never => Ok(Sight::Never),
        Mark::Freed => Ok(Sight::Freed),
        Mark::Live if held == key => Ok(Sight::Same),
        Mark::Live => Ok(Sight::Other),
    }
}

// How many slots a path has examined that began at its home slot and stands at this one.
#[tactic(auto, unfolding(crate::specs::Probing::walked))]
fn examined(home: usize, slot: usize, size: usize) -> usize
    requires { (home < size) × (slot < size) }
    ensures { result ≡ walked size home slot + 1 }
{
    if slot < home {
        slot + (size - home) + 1
    } else {
        slot - home + 1
    }
}

// The answer of a path that ends at a slot that was never used.
fn free_end(free: usize, slot: usize, home: usize, size: usize) -> Probed
    requires { (home < size) × (slot < size) }
    ensures { result ≡ Free (first_free size free slot) (walked size home slot + 1) }
{
    Probed::Free(first_free(free, slot, size), examined(home, slot, size))
}

// The path of a key from its home slot, slot by slot: each break is an answer.
#[inline(always)]
fn walk_path(marks: &[u8], keys: &[u64], key: u64, home: usize) -> Result<Probed, Refusal>
    requires { (home < length marks.now) × (length keys.now ≡ length marks.now) }
    ensures { result ≡ along (length marks.now) home (find integers (length marks.now) home (slots_in marks.now keys.now) key) }
{
    let size = marks.len();
    let mut slot = home;
    let mut free = size;
    loop {
        match look(marks[slot], keys[slot], key)? {
            Sight::Never => break Ok(free_end(free, slot, home, size)),
            Sight::Freed => {
                free = first_free(free, slot, size);
            }
            Sight::Same => break Ok(Probed::Hit(slot, examined(home, slot, size))),
            Sight::Other => {}
        }
        slot = next_slot(slot, size);
        if slot == home {
            break Ok(ended_at(free, size, size));
        }
    }
}

// The path of a key in arrays of right sizes, from its home slot.
#[inline(always)]
#[tactic(auto, using(crate::proofs::Sizes::home_fits, crate::proofs::Sizes::probing_fit))]
fn path(marks: &[u8], keys: &[u64], key: u64) -> Result<Probed, Refusal>
    requires { fitting marks.now keys.now ≡ true }
    ensures { result ≡ probing marks.now keys.now key }
{
    let home = slot_of_word(key, marks.len() as u64, 0) as usize;
    walk_path(marks, keys, key, home)
}

// The probing of a key: refusal 1, or what its path found.
#[tactic(auto, using(crate::proofs::Sizes::probing_misfit))]
pub fn probe(marks: &[u8], keys: &[u64], key: u64) -> Result<Probed, Refusal>
    ensures { result ≡ probing marks.now keys.now key }
{
    if !fits(marks, keys) {
        return Err(Refusal::Sizes);
    }
    path(marks, keys, key)
}

// The scan of all marks: damage, else the number of live slots.
pub fn scan(marks: &[u8]) -> Result<usize, Refusal>
    ensures { result ≡ scanning marks.now }
{
    let mut live = 0;
    let mut i = 0;
    while i < marks.len() {
        let mark = Mark::try_from(marks[i])?;
        match mark {
            Mark::Live => live += 1,
            _ => {}
        }
        i += 1;
    }
    Ok(live)
}

// Whether the three arrays of a map are of one length that a table may have.
#[tactic(auto, unfolding(kinds::specs::Calls::sized_of))]
pub fn map_fits(marks: &[u8], keys: &[u64], values: &[u64]) -> bool
    ensures { result ≡ sized_of maps (before marks.now keys.now values.now) }
{
    marks.len() == values.len() && marks.len() == keys.len() && slots_fit(marks.len() as u64)
}

// The probing of a key in a map: refusal 1, or what its path found.
#[tactic(auto, using(crate::proofs::Seeking::map_probe_long, crate::proofs::Seeking::map_probe_short))]
pub fn map_probe(marks: &[u8], keys: &[u64], values: &[u64], key: u64) -> Result<Probed, Refusal>
    ensures { result ≡ probing_map (before marks.now keys.now values.now) key }
{
    if marks.len() != values.len() {
        return Err(Refusal::Sizes);
    }
    probe(marks, keys, key)
}

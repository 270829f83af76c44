// Byte tables: sizes, the words of a slot, the probing loop, the scan, the survey, and the plans of insert and remove; then the sizes, the probing and the plans of a map, whose values are as many as its marks.
#![tactic(auto)]

ghost use Rattle.std.specs.Prelude.{◌≡◌, true, ◌+◌, ◌-◌, ◌^◌, ◌≤◌, ◌<◌, ℕ, List, eqb, leb, length, get_or, set, take, drop};
ghost use Rattle.lists.specs.Bytes.{le};
ghost use Rattle.digest.specs.Home.{key_limit};
ghost use Rattle.byte_slots.specs.Keys.{same_bytes};
ghost use Rattle.kinds.specs.Calls.{sized_of};
ghost use Rattle.kinds.specs.Marks.{mark_read};
ghost use Rattle.byte_slots.specs.Kinds.{MapMemory, SetMemory, maps, sets, set_memory, map_of};
ghost use Rattle.model.specs.Slots.{live};
ghost use Rattle.tables.specs.Handing.{span_parts, span_pair_parts};
ghost use Rattle.tables.specs.Reading.{lent_of, mark_in};
ghost use Rattle.kinds.specs.Probing.{look_at};
ghost use Rattle.byte_slots.specs.Maps.{before};
ghost use Rattle.byte_slots.specs.Memory.{part, offset_of, length_of, spans_now, spans_before, fitting, asked_of, keeping};
ghost use Rattle.byte_slots.specs.Marks.{mark_of};
ghost use Rattle.byte_slots.specs.Probing.{sight_at, path_from, probing};
ghost use Rattle.byte_slots.specs.Planning.{insert_plan_by, inserting, removing, planning_kept, remove_plan_by};
ghost use Rattle.byte_slots.specs.Scanning.{live_marks};
ghost use Rattle.byte_slots.specs.Surveying.{higher_end, surveying};

use answers::{Refusal, Span};
use digest::{KEY_LIMIT, slot_of_key, slots_fit};
use kinds::{Mark, Probed, Sight, count_mark, ended_at, first_free, next_slot};
use std::marker::Model;
use tables::Table;

// The most bytes that an arena has.
pub const ARENA_LIMIT: usize = 32768;

// The plan of a call that stores a key: the key's slot, or a free slot with `used`, each with the examined number.
#[derive(Clone, Copy, Debug, PartialEq, Eq)]
pub enum InsertPlan {
    Hit(usize, usize),
    Free(usize, usize, usize),
}

// The plan of remove: the key's slot with the examined number and `used`, or the examined number of an absent key.
#[derive(Clone, Copy, Debug, PartialEq, Eq)]
pub enum RemovePlan {
    Hit(usize, usize, usize),
    Absent(usize),
}

// The lent arrays of a byte set, of right sizes: for each slot a mark, and the offset and the length of its key in the arena.
#[derive(Drop)]
pub struct ByteSet<'a> {
    marks: &'a [u8],
    offsets: &'a [u16],
    lengths: &'a [u8],
    arena: &'a [u8],
}

// Calls see the arrays as the theory's memory.
impl<'a> Model for ByteSet<'a> {
    ghost Value = { SetMemory };

    ghost view = { λ t. set_memory t.marks.now t.offsets.now t.lengths.now t.arena.now };

    ghost invariant = { λ t. fitting (spans_now t.marks.now t.offsets.now t.lengths.now t.arena.now) ≡ true };
}

impl<'a> ByteSet<'a> {
    // The set of these arrays, or refusal 1.
    #[tactic(auto, unfolding(crate::specs::Memory::fitting, tables::specs::Reading::lent_of))]
    pub fn lent(
        marks: &'a [u8],
        offsets: &'a [u16],
        lengths: &'a [u8],
        arena: &'a [u8],
    ) -> Result<ByteSet<'a>, Refusal>
        ensures { result ≡ lent_of sets (set_memory marks.now offsets.now lengths.now arena.now) }
    {
        if slots_fit(marks.len() as u64)
            && marks.len() == offsets.len()
            && marks.len() == lengths.len()
            && arena.len() <= ARENA_LIMIT
        {
            Ok(ByteSet {
                marks,
                offsets,
                lengths,
                arena,
            })
        } else {
            Err(Refusal::Sizes)
        }
    }

    // The key's place in the arena, as a slot names it.
    #[tactic(auto, using(crate::proofs::Sizes::fitting_says))]
    pub fn span(&self, slot: usize) -> Span
        requires { slot < length self.now.spans.marks }
        ensures { (result.offset ≡ get_or self.now.spans.offsets slot 0) × (result.length ≡ get_or self.now.spans.lengths slot 0) × (result.length ≤ key_limit) × (result.offset < 2 ^ 16) }
    {
        let offsets = self.offsets;
        let lengths = self.lengths;
        Span {
            offset: offsets[slot] as usize,
            length: lengths[slot] as usize,
        }
    }
}

impl<'a> ByteSet<'a> {
    // How many slots are not live, where none is damaged.
    #[tactic(auto, using(crate::proofs::Lives::live_marks_within))]
    pub fn free_slots(&self) -> usize
        ensures { result ≡ length self.now.spans.marks - live_marks self.now.spans.marks (length self.now.spans.marks) }
    {
        self.marks.len() - live_marks(self.marks)
    }

    // The survey of all slots: full damage, else `used`. No live span ends past the arena where none ends beyond `used`, and that is no more.
    pub fn survey(&self) -> Result<usize, Refusal>
        ensures { result ≡ surveying self.now.spans }
    {
        survey(self.marks, self.offsets, self.lengths, self.arena)
    }

    // The plan of a call that stores a key: its tests in order, then what its path says.
    #[tactic(auto, unfolding(crate::specs::Planning::inserting, crate::specs::Planning::kept_plan, crate::specs::Planning::planning_kept, crate::specs::Planning::room_for, crate::specs::Surveying::surveying), using(crate::proofs::Sets::probing_set, crate::proofs::Plans::surveyed_within))]
    pub fn plan_insert(&self, key: &[u8]) -> Result<InsertPlan, Refusal>
        ensures { result ≡ inserting self.now.spans key.now }
    {
        may_keep(key)?;
        let used = self.survey()?;
        insert_plan_by(tables::probe(self, key), used, self.arena.len(), key.len())
    }

    // The plan of remove: its tests in order, then what its path says.
    #[tactic(auto, unfolding(crate::specs::Planning::removing, crate::specs::Surveying::surveying), using(crate::proofs::Sets::probing_set))]
    pub fn plan_remove(&self, key: &[u8]) -> Result<RemovePlan, Refusal>
        ensures { result ≡ removing self.now.spans key.now }
    {
        if !may_ask(key) {
            return Err(Refusal::LongKey);
        }
        let used = self.survey()?;
        remove_plan_by(tables::probe(self, key), used)
    }
}

impl<'a, 'k> Table<&'k [u8]> for ByteSet<'a> {
    ghost Key = { List ℕ };

    ghost Word = { Unit {0} };

    ghost store = { sets };

    ghost state = { λ m. m };

    ghost key_of = { λ k. k.now };

    type Item = Span;

    ghost tells = { λ m k v i. record { key = 0; value = 0; offset = offset_of m.spans i; length = length_of m.spans i } };

    fn size(&self) -> usize
        ensures slots { result ≡ sets.size self.now }
        ensures sized { sets.sized self.now ≡ true }
    {
        self.marks.len()
    }

    #[tactic(auto, unfolding(tables::specs::Reading::mark_in, kinds::specs::Marks::mark_read, crate::specs::Memory::slots_of, crate::specs::Memory::spanned, crate::specs::Memory::end_at))]
    fn mark(&self, slot: usize) -> Result<Mark, Refusal>
        requires { slot < sets.size self.now }
        ensures { result ≡ mark_in (sets.slots self.now slot) }
    {
        if self.marks[slot] != Mark::Live as u8 {
            return Mark::try_from(self.marks[slot]);
        }
        let span = self.span(slot);
        if self.arena.len() < span.offset + span.length {
            return Err(Refusal::Damaged);
        }
        Ok(Mark::Live)
    }

    #[tactic(auto, unfolding(kinds::specs::Probing::look_at, kinds::specs::Marks::mark_read, crate::specs::Memory::slots_of, crate::specs::Memory::spanned, crate::specs::Memory::end_at, crate::specs::Memory::key_at, crate::specs::Memory::part))]
    fn look(&self, slot: usize, key: &'k [u8]) -> Result<Sight, Refusal>
        requires { slot < sets.size self.now }
        ensures { result ≡ look_at sets.keys key.now (sets.slots self.now slot) }
    {
        match Mark::try_from(self.marks[slot])? {
            Mark::Never => Ok(Sight::Never),
            Mark::Freed => Ok(Sight::Freed),
            Mark::Live => {
                let span = self.span(slot);
                let end = span.offset + span.length;
                if self.arena.len() < end {
                    return Err(Refusal::Damaged);
                }
                if same_bytes(&self.arena[span.offset..end], key) {
                    Ok(Sight::Same)
                } else {
                    Ok(Sight::Other)
                }
            }
        }
    }

    fn item(&self, slot: usize) -> Span
        requires { slot < sets.size self.now }
        ensures { (k : List ℕ) (v : Unit {0}) → sets.slots self.now slot ≡ live k v → span_parts result ≡ record { key = 0; value = 0; offset = offset_of self.now.spans slot; length = length_of self.now.spans slot } }
    {
        self.span(slot)
    }

    #[tactic(auto, using(crate::proofs::Sizes::fitting_says, digest::proofs::Bounds::home_below))]
    fn home(&self, key: &'k [u8]) -> usize
        ensures { (result ≡ sets.home self.now key.now) × (result < sets.size self.now) }
    {
        slot_of_key(key, self.marks.len() as u64, 0) as usize
    }
}

// The lent arrays of a byte map, of right sizes: the set of its keys, and a value for each slot.
#[derive(Drop)]
pub struct ByteMap<'a> {
    set: ByteSet<'a>,
    words: &'a [u64],
}

impl<'a> Model for ByteMap<'a> {
    ghost Value = { MapMemory };

    ghost view = { λ t. map_of t.set t.words.now };

    ghost invariant = { λ t. maps.sized (map_of t.set t.words.now) ≡ true };
}

impl<'a> ByteMap<'a> {
    // The map of these arrays, or refusal 1.
    #[tactic(auto, unfolding(tables::specs::Reading::lent_of))]
    pub fn lent(
        marks: &'a [u8],
        offsets: &'a [u16],
        lengths: &'a [u8],
        values: &'a [u64],
        arena: &'a [u8],
    ) -> Result<ByteMap<'a>, Refusal>
        ensures { result ≡ lent_of maps (before marks.now offsets.now lengths.now values.now arena.now) }
    {
        let set = ByteSet::lent(marks, offsets, lengths, arena)?;
        if marks.len() == values.len() {
            Ok(ByteMap { set, words: values })
        } else {
            Err(Refusal::Sizes)
        }
    }

    // The set of its keys.
    pub fn keys(&self) -> &ByteSet<'a>
        ensures { result.now.spans ≡ self.now.spans }
    {
        &self.set
    }

    // The value in a slot.
    #[tactic(auto, using(crate::proofs::MapSizes::map_long))]
    pub fn value(&self, slot: usize) -> u64
        requires { slot < length self.now.spans.marks }
        ensures { result ≡ get_or self.now.words slot 0 }
    {
        let words = self.words;
        words[slot]
    }
}

impl<'a, 'k> Table<&'k [u8]> for ByteMap<'a> {
    ghost Key = { List ℕ };

    ghost Word = { ℕ };

    ghost store = { maps };

    ghost state = { λ m. m };

    ghost key_of = { λ k. k.now };

    type Item = (Span, u64);

    ghost tells = { λ m k v i. record { key = 0; value = v; offset = offset_of m.spans i; length = length_of m.spans i } };

    fn size(&self) -> usize
        ensures slots { result ≡ maps.size self.now }
        ensures sized { maps.sized self.now ≡ true }
    {
        self.set.size()
    }

    #[tactic(auto, using(crate::proofs::Beside::mark_slots))]
    fn mark(&self, slot: usize) -> Result<Mark, Refusal>
        requires { slot < maps.size self.now }
        ensures { result ≡ mark_in (maps.slots self.now slot) }
    {
        self.set.mark(slot)
    }

    #[tactic(auto, using(crate::proofs::Beside::look_slots))]
    fn look(&self, slot: usize, key: &'k [u8]) -> Result<Sight, Refusal>
        requires { slot < maps.size self.now }
        ensures { result ≡ look_at maps.keys key.now (maps.slots self.now slot) }
    {
        self.set.look(slot, key)
    }

    #[tactic(auto, using(crate::proofs::Beside::word_held))]
    fn item(&self, slot: usize) -> (Span, u64)
        requires { slot < maps.size self.now }
        ensures { (k : List ℕ) (v : ℕ) → maps.slots self.now slot ≡ live k v → span_pair_parts result ≡ record { key = 0; value = v; offset = offset_of self.now.spans slot; length = length_of self.now.spans slot } }
    {
        (self.set.span(slot), self.value(slot))
    }

    fn home(&self, key: &'k [u8]) -> usize
        ensures { (result ≡ maps.home self.now key.now) × (result < maps.size self.now) }
    {
        self.set.home(key)
    }
}

// The offset of slot i, 0 beyond the array.
pub fn offset_at(offsets: &[u16], i: usize) -> u16
    ensures { result ≡ get_or offsets.now i 0 }
{
    if i < offsets.len() { offsets[i] } else { 0 }
}

// The length of slot i.
pub fn len_at(lengths: &[u8], i: usize) -> u16
    requires { i < length lengths.now }
    ensures { (result ≡ get_or lengths.now i 0) × (result ≤ key_limit) }
{
    lengths[i] as u16
}

// The length of slot i is set.
pub fn put_len(lengths: &mut [u8], i: usize, n: usize)
    requires { (i < length lengths.old) × (n ≤ key_limit) }
    ensures { lengths.new ≡ set lengths.old i n }
{
    lengths[i] = n as u8;
}

// The mark of slot i: a live span past the arena is damage.
#[tactic(auto, unfolding(crate::specs::Marks::mark_of, crate::specs::Marks::shown, crate::specs::Memory::end_at, kinds::specs::Marks::mark_read))]
pub fn mark_at(
    marks: &[u8],
    offsets: &[u16],
    lengths: &[u8],
    arena: &[u8],
    i: usize,
) -> Result<Mark, Refusal>
    requires { (i < length marks.now) × (length offsets.now ≡ length marks.now) × (length lengths.now ≡ length marks.now) }
    ensures { result ≡ mark_read (mark_of (spans_before marks.now offsets.now lengths.now arena.now) i) }
{
    if marks[i] != Mark::Live as u8 {
        return Mark::try_from(marks[i]);
    }
    if arena.len() < (offsets[i] as usize) + (len_at(lengths, i) as usize) {
        return Err(Refusal::Damaged);
    }
    Ok(Mark::Live)
}

// The key of slot i, whose span ends in the arena.
pub fn key_at<'a>(offsets: &[u16], lengths: &[u8], arena: &'a [u8], i: usize) -> &'a [u8]
    requires { (i < length lengths.now) × (get_or offsets.now i 0 + get_or lengths.now i 0 ≤ length arena.now) }
    ensures { (result.now ≡ part arena.now (get_or offsets.now i 0) (get_or lengths.now i 0)) × (length result.now ≤ key_limit) }
{
    let start = offset_at(offsets, i) as usize;
    let end = start + (len_at(lengths, i) as usize);
    &arena[start..end]
}

// Whether marks, offsets and lengths are of one length that a table may have, and the arena of a size that it may have.
#[tactic(auto, unfolding(crate::specs::Memory::fitting))]
pub fn fits(marks: &[u8], offsets: &[u16], lengths: &[u8], arena: &[u8]) -> bool
    ensures { result ≡ fitting (spans_before marks.now offsets.now lengths.now arena.now) }
{
    slots_fit(marks.len() as u64)
        && marks.len() == offsets.len()
        && marks.len() == lengths.len()
        && arena.len() <= ARENA_LIMIT
}

// Whether a key may be asked for.
#[tactic(auto, using(crate::proofs::Sizes::asked_test))]
pub fn may_ask(key: &[u8]) -> bool
    ensures { result ≡ eqb (asked_of key.now) 0 }
{
    key.len() <= KEY_LIMIT
}

// Whether a key may be stored, or the refusal.
pub fn may_keep(key: &[u8]) -> Result<(), Refusal>
    ensures { result ≡ keeping key.now }
{
    if key.len() <= KEY_LIMIT {
        Ok(())
    } else {
        Err(Refusal::LongKey)
    }
}

// The two bytes from i on as one number, low byte first.
fn two_at(bytes: &[u8], i: usize) -> u16
    requires { i + 2 ≤ length bytes.now }
    ensures { le 2 result ≡ take 2 (drop i bytes.now) }
{
    (bytes[i] as u16) + ((bytes[i + 1] as u16) << 8)
}

// The four bytes from i on as one number, low byte first.
fn four_at(bytes: &[u8], i: usize) -> u32
    requires { i + 4 ≤ length bytes.now }
    ensures { le 4 result ≡ take 4 (drop i bytes.now) }
{
    (two_at(bytes, i) as u32) + ((two_at(bytes, i + 2) as u32) << 16)
}

// The eight bytes from i on as one number, low byte first.
fn eight_at(bytes: &[u8], i: usize) -> u64
    requires { i + 8 ≤ length bytes.now }
    ensures { le 8 result ≡ take 8 (drop i bytes.now) }
{
    (four_at(bytes, i) as u64) + ((four_at(bytes, i + 4) as u64) << 32)
}

// Whether two byte strings of one length are equal, byte by byte.
fn same_tail(a: &[u8], b: &[u8]) -> bool
    requires { length a.now ≡ length b.now }
    ensures { result ≡ same_bytes a.now b.now }
{
    let mut i = 0;
    while i < a.len() {
        if a[i] == b[i] {
            i += 1;
        } else {
            return false;
        }
    }
    true
}

// Whether two byte strings are equal: eight bytes at a time, then the tail.
pub fn same_bytes(a: &[u8], b: &[u8]) -> bool
    ensures { result ≡ same_bytes a.now b.now }
{
    if a.len() == b.len() {
        let mut i = 0;
        while i + 8 <= a.len() {
            if eight_at(a, i) == eight_at(b, i) {
                i += 8;
            } else {
                return false;
            }
        }
        return same_tail(&a[i..], &b[i..]);
    }
    false
}

// The look at a slot, for a key.
#[tactic(auto, unfolding(crate::specs::Probing::sight_at, crate::specs::Marks::mark_of, crate::specs::Marks::shown, crate::specs::Memory::end_at, crate::specs::Memory::key_at, crate::specs::Memory::part, kinds::specs::Marks::mark_read, kinds::specs::Marks::cell, kinds::specs::Probing::look_of, kinds::specs::Probing::look_at))]
pub fn look(
    marks: &[u8],
    offsets: &[u16],
    lengths: &[u8],
    arena: &[u8],
    slot: usize,
    key: &[u8],
) -> Result<Sight, Refusal>
    requires { (slot < length marks.now) × (length offsets.now ≡ length marks.now) × (length lengths.now ≡ length marks.now) }
    ensures { result ≡ sight_at (spans_before marks.now offsets.now lengths.now arena.now) key.now slot }
{
    match Mark::try_from(marks[slot])? {
        Mark::Never => Ok(Sight::Never),
        Mark::Freed => Ok(Sight::Freed),
        Mark::Live => {
            let start = offsets[slot] as usize;
            let end = start + (len_at(lengths, slot) as usize);
            if arena.len() < end {
                Err(Refusal::Damaged)
            } else if same_bytes(&arena[start..end], key) {
                Ok(Sight::Same)
            } else {
                Ok(Sight::Other)
            }
        }
    }
}

// The path of a key from its home slot, slot by slot: each break is an answer.
fn walk_path(
    marks: &[u8],
    offsets: &[u16],
    lengths: &[u8],
    arena: &[u8],
    key: &[u8],
    home: usize,
) -> Result<Probed, Refusal>
    requires { (home < length marks.now) × (length offsets.now ≡ length marks.now) × (length lengths.now ≡ length marks.now) }
    ensures { result ≡ path_from (spans_before marks.now offsets.now lengths.now arena.now) home key.now }
{
    let size = marks.len();
    let mut slot = home;
    let mut n = 0;
    let mut free = size;
    loop {
        if n == size {
            break Ok(ended_at(free, size, n));
        }
        match look(marks, offsets, lengths, arena, slot, key)? {
            Sight::Never => break Ok(ended_at(first_free(free, slot, size), size, n + 1)),
            Sight::Freed => {
                free = first_free(free, slot, size);
            }
            Sight::Same => break Ok(Probed::Hit(slot, n + 1)),
            Sight::Other => {}
        }
        slot = next_slot(slot, size);
        n += 1;
    }
}

// The probing of a key: refusal 1 or 2, or what its path found.
#[tactic(auto, unfolding(crate::specs::Probing::probing, crate::specs::Probing::path_of))]
pub fn probe(
    marks: &[u8],
    offsets: &[u16],
    lengths: &[u8],
    arena: &[u8],
    key: &[u8],
) -> Result<Probed, Refusal>
    ensures { result ≡ probing (spans_before marks.now offsets.now lengths.now arena.now) key.now }
{
    if !fits(marks, offsets, lengths, arena) {
        return Err(Refusal::Sizes);
    }
    if !may_ask(key) {
        return Err(Refusal::LongKey);
    }
    let home = slot_of_key(key, marks.len() as u64, 0) as usize;
    walk_path(marks, offsets, lengths, arena, key, home)
}

// How many marks are 1: the live slots, where none is damaged.
pub fn live_marks(marks: &[u8]) -> usize
    ensures { result ≡ live_marks marks.now (length marks.now) }
{
    let mut live = 0;
    for i in 0..marks.len() {
        live += count_mark(marks[i]);
    }
    live
}

// The largest end of a live span so far, after one more.
#[tactic(auto, unfolding(crate::specs::Surveying::higher_end))]
fn higher_end(end: usize, top: usize) -> usize
    ensures { result ≡ higher_end end top }
{
    if top < end { end } else { top }
}

// The survey of all slots: full damage, else `used`. No live span ends past the arena where none ends beyond `used`, and that is no more.
pub fn survey(marks: &[u8], offsets: &[u16], lengths: &[u8], arena: &[u8]) -> Result<usize, Refusal>
    requires { fitting (spans_now marks.now offsets.now lengths.now arena.now) ≡ true }
    ensures { result ≡ surveying (spans_before marks.now offsets.now lengths.now arena.now) }
{
    let mut used = 0;
    let mut top = 0;
    let mut i = 0;
    while i < marks.len() {
        let state = marks[i];
        if state == Mark::Live as u8 {
            let len = len_at(lengths, i) as usize;
            used += len;
            top = higher_end((offsets[i] as usize) + len, top);
        } else if (Mark::Freed as u8) < state {
            return Err(Refusal::Damaged);
        }
        i += 1;
    }
    if arena.len() < used || used < top {
        return Err(Refusal::Damaged);
    }
    Ok(used)
}

// What a storing call makes of its path: an absent key needs a free slot, and its bytes beside the `used` ones.
#[tactic(auto, unfolding(crate::specs::Planning::insert_plan_by))]
fn insert_plan_by(
    found: Result<Probed, Refusal>,
    used: usize,
    size: usize,
    length: usize,
) -> Result<InsertPlan, Refusal>
    requires { used ≤ size }
    ensures { result ≡ insert_plan_by used (leb length (size - used)) found }
{
    match found? {
        Probed::Hit(slot, examined) => Ok(InsertPlan::Hit(slot, examined)),
        Probed::Free(slot, examined) if length <= size - used => Ok(InsertPlan::Free(
            slot, examined, used,
        )),
        Probed::Free(..) => Err(Refusal::NoBytes),
        Probed::Full(_) => Err(Refusal::NoSlot),
    }
}

// What remove makes of its path.
#[tactic(auto, unfolding(crate::specs::Planning::remove_plan_by))]
fn remove_plan_by(found: Result<Probed, Refusal>, used: usize) -> Result<RemovePlan, Refusal>
    ensures { result ≡ remove_plan_by used found }
{
    match found? {
        Probed::Hit(slot, examined) => Ok(RemovePlan::Hit(slot, examined, used)),
        Probed::Free(_, examined) | Probed::Full(examined) => Ok(RemovePlan::Absent(examined)),
    }
}

// Whether the lent arrays may be a map: those of the keys, and as many values.
#[tactic(auto, unfolding(kinds::specs::Calls::sized_of))]
pub fn map_fits(marks: &[u8], offsets: &[u16], lengths: &[u8], values: &[u64], arena: &[u8]) -> bool
    ensures { result ≡ sized_of maps (before marks.now offsets.now lengths.now values.now arena.now) }
{
    fits(marks, offsets, lengths, arena) && marks.len() == values.len()
}

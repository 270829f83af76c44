// What the calls answer: refusals with the paper's numbers, the record of the paper's numbers, and what searches and inserts answer.
#![tactic(auto)]

ghost use Rattle.std.specs.Prelude.{◌≡◌};
ghost use Rattle.answers.specs.Cases.{FRESH, case_number};
ghost use Rattle.answers.specs.Refusals.{number_of};
ghost use Rattle.answers.specs.Returned.{returned};
ghost use Rattle.answers.specs.Said.{handed, said_case, said_span, walked};
ghost use Rattle.answers.specs.Numbers.{refusal_numbers, homed_numbers, outcome_numbers, counted_numbers, emptiness_numbers, reserved_numbers, got_numbers, member_numbers, contained_numbers, inserted_numbers, added_numbers, removed_numbers, dropped_numbers, stored_numbers, joined_numbers, spanned_numbers};

use std::error::Error;
use std::fmt;

// What a call may say no with, in the order of the paper's table.
#[derive(Clone, Copy, Debug, PartialEq, Eq)]
pub enum Refusal {
    Sizes,
    LongKey,
    NoBudget,
    WalkBeyond,
    Damaged,
    BadHandle,
    NoSlot,
    NoBytes,
}

// The paper's number of a refusal.
impl From<Refusal> for u64 {
    ghost from_gives = { λ r n. n ≡ number_of r };

    fn from(r: Refusal) -> u64 {
        match r {
            Refusal::Sizes => 1,
            Refusal::LongKey => 2,
            Refusal::NoBudget => 3,
            Refusal::WalkBeyond => 4,
            Refusal::Damaged => 5,
            Refusal::BadHandle => 6,
            Refusal::NoSlot => 7,
            Refusal::NoBytes => 8,
        }
    }
}

impl fmt::Display for Refusal {
    fn fmt<W: fmt::Write>(&self, f: &mut fmt::Formatter<W>) -> fmt::Result {
        f.write_str(match self {
            Refusal::Sizes => "wrong sizes",
            Refusal::LongKey => "key too long",
            Refusal::NoBudget => "no budget",
            Refusal::WalkBeyond => "walk beyond the slots",
            Refusal::Damaged => "damaged table",
            Refusal::BadHandle => "bad handle",
            Refusal::NoSlot => "no free slot",
            Refusal::NoBytes => "too few arena bytes",
        })
    }
}

impl Error for Refusal {}

// The cases of an answer, by the words of the C header.
#[derive(Clone, Copy, Debug, PartialEq, Eq)]
pub enum Case {
    Done,
    Count,
    Empty,
    Holds,
    Room,
    Found,
    Present,
    Absent,
    Fresh,
    Replaced,
    Removed,
    Occupied,
    Vacant,
    Pair,
    Nothing,
    WalkDone,
    Value,
    Was,
    Now,
}

// The number of a case, as the C header has it.
impl From<Case> for u64 {
    ghost from_gives = { λ c n. n ≡ case_number c };

    fn from(c: Case) -> u64 {
        match c {
            Case::Done => 1,
            Case::Count => 2,
            Case::Empty => 3,
            Case::Holds => 4,
            Case::Room => 5,
            Case::Found => 6,
            Case::Present => 7,
            Case::Absent => 8,
            Case::Fresh => 9,
            Case::Replaced => 10,
            Case::Removed => 11,
            Case::Occupied => 12,
            Case::Vacant => 13,
            Case::Pair => 14,
            Case::Nothing => 15,
            Case::WalkDone => 16,
            Case::Value => 17,
            Case::Was => 18,
            Case::Now => 19,
        }
    }
}

// The numbers that the paper prints for an answer; those that an answer does not have are 0.
#[repr(C)]
#[derive(Clone, Copy, Debug, Default, PartialEq, Eq)]
pub struct Numbers {
    pub refusal: u64,
    pub case: u64,
    pub key: u64,
    pub value: u64,
    pub slot: u64,
    pub examined: u64,
    pub walk: u64,
    pub offset: u64,
    pub length: u64,
}

// What is added to a refusal's number where C is handed one word.
const REFUSED: u64 = 65536;

// A part of the arena.
#[derive(Clone, Copy, Debug, PartialEq, Eq)]
pub struct Span {
    pub offset: usize,
    pub length: usize,
}

// The answer of get and remove: what stands or stood with the key, its slot and the examined number; or absent with the examined number.
#[derive(Clone, Copy, Debug, PartialEq, Eq)]
pub enum Lookup<T> {
    Found(T, usize, usize),
    Absent(usize),
}

// The answer of contains, with the examined number.
#[derive(Clone, Copy, Debug, PartialEq, Eq)]
pub enum Contained {
    Present(usize),
    Absent(usize),
}

// The answer of an insert into an integer table: the slot and the examined number, with what was replaced where the key was there.
#[derive(Clone, Copy, Debug, PartialEq, Eq)]
pub enum Inserted<V> {
    Fresh(usize, usize),
    Replaced(V, usize, usize),
}

// The answer of an insert into a byte table: the slot and the examined number, with the key's offset where it is fresh, or what was replaced.
#[derive(Clone, Copy, Debug, PartialEq, Eq)]
pub enum Stored<V> {
    Fresh(usize, usize, usize),
    Replaced(V, usize, usize),
}

// The numbers of a refusal: its own, and zeros elsewhere.
impl From<Refusal> for Numbers {
    ghost from_gives = { λ r n. n ≡ refusal_numbers r };

    fn from(r: Refusal) -> Numbers {
        Numbers {
            refusal: u64::from(r),
            ..Numbers::default()
        }
    }
}

// The numbers of a case with what it carries.
pub fn case_numbers(case: Case, key: u64, value: u64, slot: usize, examined: usize) -> Numbers
    ensures { result ≡ said_case (case_number case) key value slot examined }
{
    Numbers {
        case: u64::from(case),
        key,
        value,
        slot: slot as u64,
        examined: examined as u64,
        ..Numbers::default()
    }
}

// The numbers of a case that names a part of the arena.
pub fn span_numbers(case: Case, slot: usize, examined: usize, span: Span) -> Numbers
    ensures { result ≡ said_span (case_number case) slot examined span.offset span.length }
{
    Numbers {
        case: u64::from(case),
        slot: slot as u64,
        examined: examined as u64,
        offset: span.offset as u64,
        length: span.length as u64,
        ..Numbers::default()
    }
}

// The numbers of a step that left its walk at this slot.
pub fn walk_numbers(case: Case, key: u64, value: u64, examined: usize, walk: usize) -> Numbers
    ensures { result ≡ walked 0 (case_number case) key value examined walk }
{
    Numbers {
        case: u64::from(case),
        key,
        value,
        examined: examined as u64,
        walk: walk as u64,
        ..Numbers::default()
    }
}

// The numbers of a refused step.
pub fn refused_walk_numbers(refusal: Refusal, examined: usize, at: usize) -> Numbers
    ensures { result ≡ walked (number_of refusal) 0 0 0 examined at }
{
    Numbers {
        examined: examined as u64,
        walk: at as u64,
        ..Numbers::from(refusal)
    }
}

// The numbers of a step that hands out a key by its part of the arena, and in a map its value, and left its walk at this slot.
pub fn span_walk_numbers(value: u64, span: Span, examined: usize, at: usize) -> Numbers
    ensures { result ≡ handed 0 value span.offset span.length at examined }
{
    Numbers {
        value,
        walk: at as u64,
        ..span_numbers(Case::Pair, 0, examined, span)
    }
}

// The numbers of make, clear, copy and union.
#[tactic(auto, unfolding(crate::specs::Numbers::outcome_numbers))]
pub fn outcome_numbers(a: Result<(), Refusal>) -> Numbers
    ensures { result ≡ outcome_numbers a }
{
    match a {
        Ok(()) => case_numbers(Case::Done, 0, 0, 0, 0),
        Err(r) => Numbers::from(r),
    }
}

// The numbers of capacity and length.
#[tactic(auto, unfolding(crate::specs::Numbers::counted_numbers))]
pub fn counted_numbers(a: Result<usize, Refusal>) -> Numbers
    ensures { result ≡ counted_numbers a }
{
    match a {
        Ok(n) => case_numbers(Case::Count, 0, n as u64, 0, 0),
        Err(r) => Numbers::from(r),
    }
}

// The numbers of is_empty.
#[tactic(auto, unfolding(crate::specs::Numbers::emptiness_numbers))]
pub fn emptiness_numbers(a: Result<bool, Refusal>) -> Numbers
    ensures { result ≡ emptiness_numbers a }
{
    match a {
        Ok(true) => case_numbers(Case::Empty, 0, 0, 0, 0),
        Ok(false) => case_numbers(Case::Holds, 0, 0, 0, 0),
        Err(r) => Numbers::from(r),
    }
}

// The numbers of reserve.
#[tactic(auto, unfolding(crate::specs::Numbers::reserved_numbers))]
pub fn reserved_numbers(a: Result<(), Refusal>) -> Numbers
    ensures { result ≡ reserved_numbers a }
{
    match a {
        Ok(()) => case_numbers(Case::Room, 0, 0, 0, 0),
        Err(r) => Numbers::from(r),
    }
}

// The numbers of a map's get.
#[tactic(auto, unfolding(crate::specs::Numbers::got_numbers))]
pub fn got_numbers(a: Result<Lookup<u64>, Refusal>) -> Numbers
    ensures { result ≡ got_numbers a }
{
    match a {
        Ok(Lookup::Found(value, slot, n)) => case_numbers(Case::Found, 0, value, slot, n),
        Ok(Lookup::Absent(n)) => case_numbers(Case::Absent, 0, 0, 0, n),
        Err(r) => Numbers::from(r),
    }
}

// The numbers of an integer set's get.
#[tactic(auto, unfolding(crate::specs::Numbers::member_numbers))]
pub fn member_numbers(a: Result<Lookup<u64>, Refusal>) -> Numbers
    ensures { result ≡ member_numbers a }
{
    match a {
        Ok(Lookup::Found(key, slot, n)) => case_numbers(Case::Found, key, 0, slot, n),
        Ok(Lookup::Absent(n)) => case_numbers(Case::Absent, 0, 0, 0, n),
        Err(r) => Numbers::from(r),
    }
}

// The numbers of contains.
#[tactic(auto, unfolding(crate::specs::Numbers::contained_numbers))]
pub fn contained_numbers(a: Result<Contained, Refusal>) -> Numbers
    ensures { result ≡ contained_numbers a }
{
    match a {
        Ok(Contained::Present(n)) => case_numbers(Case::Present, 0, 0, 0, n),
        Ok(Contained::Absent(n)) => case_numbers(Case::Absent, 0, 0, 0, n),
        Err(r) => Numbers::from(r),
    }
}

// The numbers of an integer map's insert.
#[tactic(auto, unfolding(crate::specs::Numbers::inserted_numbers))]
pub fn inserted_numbers(a: Result<Inserted<u64>, Refusal>) -> Numbers
    ensures { result ≡ inserted_numbers a }
{
    match a {
        Ok(Inserted::Fresh(slot, n)) => case_numbers(Case::Fresh, 0, 0, slot, n),
        Ok(Inserted::Replaced(old, slot, n)) => case_numbers(Case::Replaced, 0, old, slot, n),
        Err(r) => Numbers::from(r),
    }
}

// The numbers of an integer set's insert.
#[tactic(auto, unfolding(crate::specs::Numbers::added_numbers))]
pub fn added_numbers(a: Result<Inserted<()>, Refusal>) -> Numbers
    ensures { result ≡ added_numbers a }
{
    match a {
        Ok(Inserted::Fresh(slot, n)) => case_numbers(Case::Fresh, 0, 0, slot, n),
        Ok(Inserted::Replaced((), slot, n)) => case_numbers(Case::Replaced, 0, 0, slot, n),
        Err(r) => Numbers::from(r),
    }
}

// The numbers of a map's remove.
#[tactic(auto, unfolding(crate::specs::Numbers::removed_numbers))]
pub fn removed_numbers(a: Result<Lookup<u64>, Refusal>) -> Numbers
    ensures { result ≡ removed_numbers a }
{
    match a {
        Ok(Lookup::Found(old, slot, n)) => case_numbers(Case::Removed, 0, old, slot, n),
        Ok(Lookup::Absent(n)) => case_numbers(Case::Absent, 0, 0, 0, n),
        Err(r) => Numbers::from(r),
    }
}

// The numbers of a set's remove.
#[tactic(auto, unfolding(crate::specs::Numbers::dropped_numbers))]
pub fn dropped_numbers(a: Result<Lookup<()>, Refusal>) -> Numbers
    ensures { result ≡ dropped_numbers a }
{
    match a {
        Ok(Lookup::Found((), slot, n)) => case_numbers(Case::Removed, 0, 0, slot, n),
        Ok(Lookup::Absent(n)) => case_numbers(Case::Absent, 0, 0, 0, n),
        Err(r) => Numbers::from(r),
    }
}

// The numbers of a key that went into a byte table, with its offset.
fn fresh_numbers(slot: usize, offset: usize, n: usize) -> Numbers
    ensures { result ≡ said_span FRESH slot n offset 0 }
{
    span_numbers(Case::Fresh, slot, n, Span { offset, length: 0 })
}

// The numbers of a byte map's insert.
#[tactic(auto, unfolding(crate::specs::Numbers::stored_numbers))]
pub fn stored_numbers(a: Result<Stored<u64>, Refusal>) -> Numbers
    ensures { result ≡ stored_numbers a }
{
    match a {
        Ok(Stored::Fresh(slot, offset, n)) => fresh_numbers(slot, offset, n),
        Ok(Stored::Replaced(old, slot, n)) => case_numbers(Case::Replaced, 0, old, slot, n),
        Err(r) => Numbers::from(r),
    }
}

// The numbers of a byte set's insert.
#[tactic(auto, unfolding(crate::specs::Numbers::joined_numbers))]
pub fn joined_numbers(a: Result<Stored<()>, Refusal>) -> Numbers
    ensures { result ≡ joined_numbers a }
{
    match a {
        Ok(Stored::Fresh(slot, begin, n)) => fresh_numbers(slot, begin, n),
        Ok(Stored::Replaced((), slot, n)) => case_numbers(Case::Replaced, 0, 0, slot, n),
        Err(r) => Numbers::from(r),
    }
}

// The numbers of a byte set's get.
#[tactic(auto, unfolding(crate::specs::Numbers::spanned_numbers))]
pub fn spanned_numbers(a: Result<Lookup<Span>, Refusal>) -> Numbers
    ensures { result ≡ spanned_numbers a }
{
    match a {
        Ok(Lookup::Found(span, slot, n)) => span_numbers(Case::Found, slot, n, span),
        Ok(Lookup::Absent(n)) => case_numbers(Case::Absent, 0, 0, 0, n),
        Err(r) => Numbers::from(r),
    }
}

// The slot, or 65,536 plus the number of the refusal.
pub fn home_returned(answer: Result<u64, Refusal>) -> u64
    ensures { result ≡ returned (homed_numbers answer) }
{
    match answer {
        Ok(slot) => slot,
        Err(refusal) => REFUSED + u64::from(refusal),
    }
}

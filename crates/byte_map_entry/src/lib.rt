// The byte map's entries: an entry answer, and its own calls, which go on by the handle in it; the key is given again each time.
#![tactic(auto)]

ghost use Rattle.std.specs.Prelude.{◌≡◌, length};
ghost use Rattle.kinds.specs.Calls.{entry_of, or_insert_of, insert_entry_of};
ghost use Rattle.kinds.specs.Handing.{Hands};
ghost use Rattle.kinds.specs.Told.{told};
ghost use Rattle.byte_slots.specs.Kinds.{maps};
ghost use Rattle.byte_slots.specs.Maps.{before, after};
ghost use Rattle.byte_map_vacant.specs.Numbers.{in_slot_numbers};
ghost use Rattle.byte_map_entry.specs.Numbers.{entered_numbers};
ghost use Rattle.byte_map_entry.specs.Calls.{vacant_slot_of, handle_of};

use answers::{Case, Numbers, Refusal, case_numbers};
use byte_slots::{ByteMap, InsertPlan};

// The handles stand in `byte_map_occupied` and `byte_map_vacant`, and are had here too.
pub use byte_map_occupied::Occupied;
pub use byte_map_vacant::Vacant;

// The answer of entry: an occupied handle with the value, or a vacant one, each with the examined number.
// It has a variant for a refusal, and is no `Result`, since its own calls promise what they tell of a refused entry.
#[derive(Clone, Copy, Debug, PartialEq, Eq)]
pub enum Entered {
    Occupied(Occupied, u64, usize),
    Vacant(Vacant, usize),
    Refused(Refusal),
}

// Where a key stands or would go; refused exactly as insert would be.
pub fn entry(
    marks: &[u8],
    offsets: &[u16],
    lengths: &[u8],
    values: &[u64],
    arena: &[u8],
    key: &[u8],
) -> Entered
    ensures { entered_numbers result ≡ entry_of maps (before marks.now offsets.now lengths.now values.now arena.now) key.now }
{
    let map = match ByteMap::lent(marks, offsets, lengths, values, arena) {
        Ok(map) => map,
        Err(refusal) => return Entered::Refused(refusal),
    };
    match map.keys().plan_insert(key) {
        Ok(InsertPlan::Hit(slot, examined)) => Entered::Occupied(
            Occupied { slot },
            map.value(slot),
            examined,
        ),
        Ok(InsertPlan::Free(slot, examined, _)) => Entered::Vacant(Vacant { slot }, examined),
        Err(refusal) => Entered::Refused(refusal),
    }
}

impl Entered {
    // The vacant handle of an answer that is not occupied; a refused one counts as a handle of slot S.
    #[tactic(auto, unfolding(crate::specs::Calls::vacant_slot_of))]
    fn vacant(self, size: usize) -> Vacant
        ensures { result.slot ≡ vacant_slot_of size self }
    {
        let Entered::Vacant(vacant, _) = self else {
            return Vacant { slot: size };
        };
        vacant
    }

    // Keeps a present value, else puts the default in; the value now in the slot is answered.
    pub fn or_insert(
        self,
        marks: &mut [u8],
        offsets: &mut [u16],
        lengths: &mut [u8],
        values: &mut [u64],
        arena: &mut [u8],
        key: &[u8],
        default: u64,
    ) -> Result<(Occupied, u64), Refusal>
        ensures { told (in_slot_numbers result) (after marks.new offsets.new lengths.new values.new arena.new) ≡ or_insert_of maps (before marks.old offsets.old lengths.old values.old arena.old) (handle_of (length marks.old) self) key.now default }
    {
        let Entered::Occupied(handle, ..) = self else {
            return self
                .vacant(marks.len())
                .insert(marks, offsets, lengths, values, arena, key, default);
        };
        let (present, _) = handle.get(marks, offsets, lengths, values, arena, key)?;
        Ok((handle, present))
    }

    // Replaces a present value, else puts the value in; the value now in the slot is answered.
    pub fn insert_entry(
        self,
        marks: &mut [u8],
        offsets: &mut [u16],
        lengths: &mut [u8],
        values: &mut [u64],
        arena: &mut [u8],
        key: &[u8],
        value: u64,
    ) -> Result<(Occupied, u64), Refusal>
        ensures { told (in_slot_numbers result) (after marks.new offsets.new lengths.new values.new arena.new) ≡ insert_entry_of maps (before marks.old offsets.old lengths.old values.old arena.old) (handle_of (length marks.old) self) key.now value }
    {
        let Entered::Occupied(handle, ..) = self else {
            return self
                .vacant(marks.len())
                .insert(marks, offsets, lengths, values, arena, key, value);
        };
        handle.set(marks, offsets, lengths, values, arena, key, value)?;
        Ok((handle, value))
    }
}

// The numbers of entry.
#[tactic(auto, unfolding(crate::specs::Numbers::entered_numbers))]
pub fn entered_numbers(a: Entered) -> Numbers
    ensures { result ≡ entered_numbers a }
{
    match a {
        Entered::Occupied(handle, value, examined) => case_numbers(
            Case::Occupied,
            0,
            value,
            handle.slot,
            examined,
        ),
        Entered::Vacant(handle, examined) => case_numbers(
            Case::Vacant,
            0,
            0,
            handle.slot,
            examined,
        ),
        Entered::Refused(refusal) => Numbers::from(refusal),
    }
}

// The entry answer of a case number and a slot: 12 is occupied, 13 vacant, any other number neither.
#[tactic(auto, unfolding(crate::specs::Calls::handle_of, kinds::specs::Handing::handle_as))]
pub fn entry_by_case(case: u64, slot: u64) -> Entered
    ensures { Hands handle_of result case slot }
{
    let slot = slot as usize;
    if case == u64::from(Case::Occupied) {
        Entered::Occupied(Occupied { slot }, 0, 0)
    } else if case == u64::from(Case::Vacant) {
        Entered::Vacant(Vacant { slot }, 0)
    } else {
        Entered::Refused(Refusal::BadHandle)
    }
}

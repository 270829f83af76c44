// The integer map's entries: an entry answer, and its own calls, which go on by the handle in it; the key is given again each time.
#![tactic(auto)]

ghost use Rattle.std.specs.Prelude.{◌≡◌, length};
ghost use Rattle.kinds.specs.Handing.{Hands};
ghost use Rattle.kinds.specs.Told.{told};
ghost use Rattle.int_map_vacant.specs.Numbers.{in_slot_numbers};
ghost use Rattle.int_map_entry.specs.Numbers.{entered_numbers};
ghost use Rattle.int_map_entry.specs.Calls.{vacant_slot_of, handle_of};
ghost use Rattle.kinds.specs.Calls.{entry_of, or_insert_of, insert_entry_of};
ghost use Rattle.int_slots.specs.Maps.{maps, before, after};

use answers::{Case, Numbers, Refusal, case_numbers};
use int_slots::IntMap;
use kinds::Probed;

// The handles stand in `int_map_occupied` and `int_map_vacant`, and are had here too.
pub use int_map_occupied::Occupied;
pub use int_map_vacant::Vacant;

// The answer of entry: an occupied handle with the value, or a vacant one, each with the examined number.
// A refused one is a variant and no `Err`, since its own calls promise what they tell of it.
#[derive(Clone, Copy, Debug, PartialEq, Eq)]
pub enum Entered {
    Occupied(Occupied, u64, usize),
    Vacant(Vacant, usize),
    Refused(Refusal),
}

// Where a key stands or would go in a map.
fn entry_in(map: &IntMap, key: u64) -> Entered
    ensures { entered_numbers result ≡ entry_of maps map.now key }
{
    match map.probe(key) {
        Ok(Probed::Hit(slot, examined)) => Entered::Occupied(
            Occupied { slot },
            map.value(slot),
            examined,
        ),
        Ok(Probed::Free(slot, examined)) => Entered::Vacant(Vacant { slot }, examined),
        Ok(Probed::Full(_)) => Entered::Refused(Refusal::NoSlot),
        Err(r) => Entered::Refused(r),
    }
}

// Where a key stands or would go; refused exactly as insert would be.
pub fn entry(marks: &[u8], keys: &[u64], values: &[u64], key: u64) -> Entered
    ensures { entered_numbers result ≡ entry_of maps (before marks.now keys.now values.now) key }
{
    match IntMap::lent(marks, keys, values) {
        Ok(map) => entry_in(&map, key),
        Err(r) => Entered::Refused(r),
    }
}

impl Entered {
    // The vacant handle of an answer that is not occupied; a refused one counts as a handle of slot S.
    #[tactic(auto, unfolding(crate::specs::Calls::vacant_slot_of), using(crate::proofs::Answers::vacant_other))]
    fn vacant(self, size: usize) -> Vacant
        ensures { result.slot ≡ vacant_slot_of size self }
    {
        let Entered::Vacant(vacant, _) = self else {
            return Vacant { slot: size };
        };
        vacant
    }

    // Keeps a present value, else puts the default in; the value now in the slot is answered.
    #[tactic(auto, using(crate::proofs::Answers::or_insert_refused))]
    pub fn or_insert(
        self,
        marks: &mut [u8],
        keys: &mut [u64],
        values: &mut [u64],
        key: u64,
        default: u64,
    ) -> Result<(Occupied, u64), Refusal>
        ensures { told (in_slot_numbers result) (after marks.new keys.new values.new) ≡ or_insert_of maps (before marks.old keys.old values.old) (handle_of (length marks.old) self) key default }
    {
        let Entered::Occupied(handle, _, _) = self else {
            return self
                .vacant(marks.len())
                .insert(marks, keys, values, key, default);
        };
        let (present, _) = handle.get(marks, keys, values, key)?;
        Ok((handle, present))
    }

    // Replaces a present value, else puts the value in; the value now in the slot is answered.
    pub fn insert_entry(
        self,
        marks: &mut [u8],
        keys: &mut [u64],
        values: &mut [u64],
        key: u64,
        value: u64,
    ) -> Result<(Occupied, u64), Refusal>
        ensures { told (in_slot_numbers result) (after marks.new keys.new values.new) ≡ insert_entry_of maps (before marks.old keys.old values.old) (handle_of (length marks.old) self) key value }
    {
        let Entered::Occupied(handle, _, _) = self else {
            return self
                .vacant(marks.len())
                .insert(marks, keys, values, key, value);
        };
        handle.set(marks, keys, values, key, value)?;
        Ok((handle, value))
    }
}

// The numbers of entry.
#[tactic(auto, unfolding(crate::specs::Numbers::entered_numbers))]
pub fn entered_numbers(a: Entered) -> Numbers
    ensures { result ≡ entered_numbers a }
{
    match a {
        Entered::Occupied(handle, value, examined) => case_numbers(
            Case::Occupied,
            0,
            value,
            handle.slot,
            examined,
        ),
        Entered::Vacant(handle, examined) => case_numbers(
            Case::Vacant,
            0,
            0,
            handle.slot,
            examined,
        ),
        Entered::Refused(r) => Numbers::from(r),
    }
}

// The entry answer of a case number and a slot: 12 is occupied, 13 vacant, any other number neither.
#[tactic(auto, unfolding(crate::specs::Calls::handle_of, kinds::specs::Handing::handle_as))]
pub fn entry_by_case(case: u64, slot: u64) -> Entered
    ensures { Hands handle_of result case slot }
{
    let slot = slot as usize;
    if case == u64::from(Case::Occupied) {
        Entered::Occupied(Occupied { slot }, 0, 0)
    } else if case == u64::from(Case::Vacant) {
        Entered::Vacant(Vacant { slot }, 0)
    } else {
        Entered::Refused(Refusal::BadHandle)
    }
}

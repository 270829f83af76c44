// The integer map's vacant handles: small values that their own call takes; the key is given again, and the slot's occupied handle is handed back.
#![tactic(auto)]

ghost use Rattle.std.specs.Prelude.{◌≡◌};
ghost use Rattle.answers.specs.Numbers.{outcome_numbers};
ghost use Rattle.kinds.specs.Told.{told};
ghost use Rattle.int_map_vacant.specs.Numbers.{in_slot_numbers};
ghost use Rattle.int_slots.specs.Kinds.{vacancy_of};
ghost use Rattle.kinds.specs.Calls.{vacant_insert_of};
ghost use Rattle.int_slots.specs.Maps.{maps, before, after};

use answers::{Case, Numbers, Refusal, case_numbers};
use int_map_occupied::Occupied;
use int_slots::IntMap;
use kinds::{Mark, Probed};

// A handle of the slot that a key would take.
#[derive(Clone, Copy, Debug, PartialEq, Eq)]
pub struct Vacant {
    pub slot: usize,
}

// Whether a vacant handle of this slot is good for the key: insert would use that very slot.
fn vacancy_at(map: &IntMap, slot: usize, key: u64) -> Result<(), Refusal>
    ensures { outcome_numbers result ≡ vacancy_of map.now slot key }
{
    match map.probe(key)? {
        Probed::Free(free, _) if slot == free => Ok(()),
        _ => Err(Refusal::BadHandle),
    }
}

impl Vacant {
    // Puts the key and a value into the slot, where insert would use that very slot.
    pub fn insert(
        self,
        marks: &mut [u8],
        keys: &mut [u64],
        values: &mut [u64],
        key: u64,
        value: u64,
    ) -> Result<(Occupied, u64), Refusal>
        ensures { told (in_slot_numbers result) (after marks.new keys.new values.new) ≡ vacant_insert_of maps (before marks.old keys.old values.old) self.slot key value }
    {
        let slot = self.slot;
        vacancy_at(&IntMap::lent(marks, keys, values)?, slot, key)?;
        marks[slot] = Mark::Live as u8;
        keys[slot] = key;
        values[slot] = value;
        Ok((Occupied { slot }, value))
    }
}

// The numbers of the calls that leave the key in a slot.
#[tactic(auto, unfolding(crate::specs::Numbers::in_slot_numbers))]
pub fn in_slot_numbers(a: Result<(Occupied, u64), Refusal>) -> Numbers
    ensures { result ≡ in_slot_numbers a }
{
    match a {
        Ok((handle, value)) => case_numbers(Case::Now, 0, value, handle.slot, 0),
        Err(r) => Numbers::from(r),
    }
}

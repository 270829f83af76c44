// The byte map's vacant handles: small values that their own call takes; the key is given again, and the slot's occupied handle is handed back.
#![tactic(auto)]

ghost use Rattle.std.specs.Prelude.{◌≡◌};
ghost use Rattle.kinds.specs.Calls.{vacant_insert_of};
ghost use Rattle.kinds.specs.Told.{told};
ghost use Rattle.byte_slots.specs.Kinds.{maps};
ghost use Rattle.byte_slots.specs.Maps.{before, after};
ghost use Rattle.byte_map_vacant.specs.Numbers.{in_slot_numbers};
ghost use Rattle.byte_map_vacant.specs.Planning.{handle_refusal, vacancy_by};

use answers::{Case, Numbers, Refusal, case_numbers};
use byte_map_occupied::Occupied;
use byte_slots::{ByteMap, InsertPlan};

// A handle of the slot that a key would take.
#[derive(Clone, Copy, Debug, PartialEq, Eq)]
pub struct Vacant {
    pub slot: usize,
}

// A vacant handle's refusal by that of insert's plan: where insert finds no room, the handle is not good.
#[tactic(auto, unfolding(crate::specs::Planning::handle_refusal))]
fn handle_refusal(refusal: Refusal) -> Refusal
    ensures { result ≡ handle_refusal refusal }
{
    match refusal {
        Refusal::NoSlot | Refusal::NoBytes => Refusal::BadHandle,
        Refusal::Sizes
        | Refusal::LongKey
        | Refusal::NoBudget
        | Refusal::WalkBeyond
        | Refusal::Damaged
        | Refusal::BadHandle => refusal,
    }
}

// What a vacant handle of this slot makes of insert's plan: it is good where insert would use that very slot.
#[tactic(auto, unfolding(crate::specs::Planning::vacancy_by))]
fn vacancy_by(plan: Result<InsertPlan, Refusal>, slot: usize) -> Result<usize, Refusal>
    ensures { result ≡ vacancy_by slot plan }
{
    match plan {
        Ok(InsertPlan::Free(free, _, used)) if slot == free => Ok(used),
        Ok(InsertPlan::Free(..) | InsertPlan::Hit(..)) => Err(Refusal::BadHandle),
        Err(refusal) => Err(handle_refusal(refusal)),
    }
}

impl Vacant {
    // Puts the key and a value into the slot, where insert would use that very slot.
    #[tactic(auto, using(crate::proofs::Vacancies::insert_unlent))]
    pub fn insert(
        self,
        marks: &mut [u8],
        offsets: &mut [u16],
        lengths: &mut [u8],
        values: &mut [u64],
        arena: &mut [u8],
        key: &[u8],
        value: u64,
    ) -> Result<(Occupied, u64), Refusal>
        ensures { told (in_slot_numbers result) (after marks.new offsets.new lengths.new values.new arena.new) ≡ vacant_insert_of maps (before marks.old offsets.old lengths.old values.old arena.old) self.slot key.now value }
    {
        let Vacant { slot } = self;
        let map = ByteMap::lent(marks, offsets, lengths, values, arena)?;
        let used = vacancy_by(map.keys().plan_insert(key), slot)?;
        values[slot] = value;
        byte_arena::fill(marks, offsets, lengths, arena, slot, used, key);
        Ok((Occupied { slot }, value))
    }
}

// The numbers of the calls that leave the key in a slot.
#[tactic(auto, unfolding(crate::specs::Numbers::in_slot_numbers))]
pub fn in_slot_numbers(a: Result<(Occupied, u64), Refusal>) -> Numbers
    ensures { result ≡ in_slot_numbers a }
{
    match a {
        Ok((handle, value)) => case_numbers(Case::Now, 0, value, handle.slot, 0),
        Err(r) => Numbers::from(r),
    }
}

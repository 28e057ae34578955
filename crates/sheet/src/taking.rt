// Slots taken and given back.
ghost use Rattle.std.specs.Prelude.{◌≡◌, ◌*◌, ◌≤◌, ◌<◌, IfSome, MatchOption, None, Some, length, set};
ghost use Rattle.rules.specs.Layout.{most_slots, slot_length};
ghost use Rattle.rules.specs.Refusals.{says};
ghost use Rattle.rules.specs.Pool.{lowest_free, own_slots, taking, giving_back, use_at};
ghost use Rattle.rules.specs.Numbers.{answer_from};

use crate::entry::{Clinic, SlotNumber, slot_count, slot_range};
use rules::layout::{IN_USE, SLOT_WORDS};
use rules::{Answer, Refusal};
use slot::give_back_slot;

/// The caller's lowest-numbered slot whose in-use word is 0. Of a slot it looks at the clinic and, where that is the
/// caller, at the in-use word.
#[tactic(auto, using(crate::proofs::TakeLaws::slots_tested))]
fn lowest_free(sheet: &[u32], caller: Clinic, slots: usize) -> Option<SlotNumber>
    requires { (length sheet.now ≡ slot_length * slots) × (slots ≤ most_slots) }
    ensures lowest { MatchOption result (lowest_free (own_slots sheet.now caller.0) ≡ None)
        (λ k. lowest_free (own_slots sheet.now caller.0) ≡ Some k.0) }
    ensures inside { IfSome result (λ k. k.0 < slots) }
{
    // by index: with `chunks_exact` and `position` the proof that the slot found is the lowest did not close
    for k in 0..slots {
        let head = SLOT_WORDS * k;
        if sheet[head] == caller.0 && sheet[head + IN_USE] == 0 {
            return Some(SlotNumber(k as u32));
        }
    }
    None
}

/// Takes that slot, if there is one, and gives its number.
// never inlined: inlined, the loop carries the answer's word along beside the slot's place, and is so long that a take
// of the last of 64 slots took 1.4 of its time wherever the shorter loop lay well
#[inline(never)]
fn take_lowest(sheet: &mut [u32], caller: Clinic, slots: usize) -> Option<SlotNumber>
    requires { (length sheet.old ≡ slot_length * slots) × (slots ≤ most_slots) }
    ensures granted { MatchOption result (lowest_free (own_slots sheet.old caller.0) ≡ None)
        (λ k. lowest_free (own_slots sheet.old caller.0) ≡ Some k.0) }
    ensures taken { MatchOption result (sheet.new ≡ sheet.old) (λ k. sheet.new ≡ set sheet.old (use_at k.0) 1) }
{
    let slot = lowest_free(sheet, caller, slots)?;
    sheet[SLOT_WORDS * slot.0 as usize + IN_USE] = 1;
    Some(slot)
}

/// A take, with the reason where it is refused.
#[tactic(auto, using(crate::proofs::TakeLaws::take_rows_tested, crate::proofs::TakenSlots::takes))]
fn take_slot(sheet: &mut [u32], caller: Clinic) -> Result<u32, Refusal>
    ensures { (answer_from result, sheet.new) ≡ taking sheet.old caller.0 }
{
    let slots = slot_count(sheet.len()).ok_or(Refusal::NoSheet)?;
    if caller.0 == 0 {
        return Err(Refusal::NotTheCallers);
    }
    let slot = take_lowest(sheet, caller, slots).ok_or(Refusal::NoneFree)?;
    Ok(slot.0)
}

/// Takes the caller's lowest-numbered slot that is not in use, and gives its number as place.
pub fn take(sheet: &mut [u32], caller: Clinic) -> Answer
    ensures { (says result.number result.place, sheet.new) ≡ taking sheet.old caller.0 }
{
    take_slot(sheet, caller).into()
}

/// A giving back, with the reason where it is refused.
#[tactic(auto, using(crate::proofs::EntryLaws::on_refusal), unfolding(rules::specs::Pool::giving_back))]
fn give_slot_back(sheet: &mut [u32], caller: Clinic, slot: SlotNumber) -> Result<u32, Refusal>
    ensures { (answer_from result, sheet.new) ≡ giving_back sheet.old caller.0 slot.0 }
{
    let range = slot_range(sheet, caller, slot)?;
    give_back_slot(&mut sheet[range])
}

/// Gives a slot back: all but clinic, measure and indent becomes 0.
pub fn give_back(sheet: &mut [u32], caller: Clinic, slot: SlotNumber) -> Answer
    ensures { (says result.number result.place, sheet.new)
        ≡ giving_back sheet.old caller.0 slot.0 }
{
    give_slot_back(sheet, caller, slot).into()
}

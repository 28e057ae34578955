// Edit: a stretch of a slot's records replaced.
ghost use Rattle.std.specs.Prelude.{◌≡◌};
ghost use Rattle.rules.specs.Refusals.{edit_says, edit as editOf};
ghost use Rattle.rules.specs.Numbers.{edit_answer_from};

use crate::entry::{Clinic, SlotNumber, slot_range};
use rules::{Edited, Refusal};
use slot::{EditAnswer, edit_slot};

/// An edit, with the reason where it is refused.
#[tactic(auto, using(crate::proofs::EntryLaws::on_refusal), unfolding(rules::specs::Refusals::edit))]
fn replace(
    sheet: &mut [u32],
    caller: Clinic,
    slot: SlotNumber,
    place: u32,
    deleted: u32,
    inserted: &[u32],
) -> Result<Edited, Refusal>
    ensures { (edit_answer_from result, sheet.new) ≡ editOf sheet.old caller.0 slot.0 place deleted inserted.now }
{
    let range = slot_range(sheet, caller, slot)?;
    // unpacked and packed anew: given on whole, a refusal above would go through memory, 11 ns in place of 6
    let edited = edit_slot(&mut sheet[range], place, deleted, inserted)?;
    Ok(edited)
}

/// Replaces a stretch of a slot's records, composes the slot anew, and reports how many of its lines that redid.
pub fn edit(
    sheet: &mut [u32],
    caller: Clinic,
    slot: SlotNumber,
    place: u32,
    deleted: u32,
    inserted: &[u32],
) -> EditAnswer
    ensures { (edit_says result.number result.place result.redone, sheet.new)
        ≡ editOf sheet.old caller.0 slot.0 place deleted inserted.now }
{
    replace(sheet, caller, slot, place, deleted, inserted).into()
}

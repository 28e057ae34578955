// Import: the records of a web leaflet in place of a slot's.
ghost use Rattle.std.specs.Prelude.{◌≡◌};
ghost use Rattle.rules.specs.Refusals.{edit_says, as_edit, on_slot};
ghost use Rattle.rules.specs.Numbers.{edit_answer_from};
ghost use Rattle.sheet.specs.Import.{replace_slot, import as importOf};
ghost use Rattle.sheet.specs.Told.{import_number, import_place, import_answer_from};
ghost use Rattle.sheet.specs.Told.{IsImportAnswerOf, IsNoLeaflet, IsRefusedImport};

use crate::entry::{Clinic, SlotNumber, slot_range};
use leaflet::{Fault, ROOM, read_leaflet};
use rules::layout::RECORD_COUNT;
use rules::{Edited, Refusal};
use slot::edit_slot;

/// An import's answer, as C sees it. A type of its own: the byte offset that 17 names may be beyond 32 bits.
#[repr(C)]
#[derive(Clone, Copy, Debug, PartialEq, Eq)]
pub struct ImportAnswer {
    pub number: u32,
    pub redone: u32,
    pub place: usize,
}

/// Why an import is refused: by its text alone, or as the edit that it is.
#[derive(Clone, Copy, Debug, PartialEq, Eq)]
pub(crate) enum ImportRefusal {
    NoLeaflet { at: usize },
    Edit(Refusal),
}

impl ImportRefusal {
    /// The number that callers are told.
    pub(crate) fn number(self) -> u32
        ensures { result ≡ import_number self }
    {
        match self {
            ImportRefusal::NoLeaflet { .. } => 17,
            ImportRefusal::Edit(refusal) => refusal.number(),
        }
    }

    /// The place that goes with it: of a text that is no leaflet, a byte offset.
    pub(crate) fn place(self) -> usize
        ensures { result ≡ import_place self }
    {
        match self {
            ImportRefusal::NoLeaflet { at } => at,
            ImportRefusal::Edit(refusal) => refusal.place() as usize,
        }
    }
}

impl From<Fault> for ImportRefusal {
    ghost from_gives = { IsNoLeaflet };

    fn from(fault: Fault) -> ImportRefusal {
        ImportRefusal::NoLeaflet { at: fault.at }
    }
}

impl From<Refusal> for ImportRefusal {
    ghost from_gives = { IsRefusedImport };

    fn from(refusal: Refusal) -> ImportRefusal {
        ImportRefusal::Edit(refusal)
    }
}

impl From<Result<Edited, ImportRefusal>> for ImportAnswer {
    ghost from_gives = { IsImportAnswerOf };

    fn from(outcome: Result<Edited, ImportRefusal>) -> ImportAnswer {
        match outcome {
            Ok(edited) => ImportAnswer {
                number: 0,
                redone: edited.redone,
                place: edited.lines as usize,
            },
            Err(refusal) => ImportAnswer {
                number: refusal.number(),
                redone: 0,
                place: refusal.place(),
            },
        }
    }
}

/// Replaces all of a slot's records.
#[tactic(auto, using(crate::proofs::EntryLaws::on_refusal))]
fn replace_all(
    sheet: &mut [u32],
    caller: Clinic,
    slot: SlotNumber,
    inserted: &[u32],
) -> Result<Edited, Refusal>
    ensures { (edit_answer_from result, sheet.new)
        ≡ on_slot as_edit sheet.old caller.0 slot.0 (λ s. replace_slot s inserted.now) }
{
    let range = slot_range(sheet, caller, slot)?;
    let count = sheet[range.start + RECORD_COUNT];
    // unpacked and packed anew, as in `editing::replace`
    let edited = edit_slot(&mut sheet[range], 0, count, inserted)?;
    Ok(edited)
}

/// Replaces them by those of a leaflet.
fn replace_by_text(
    sheet: &mut [u32],
    caller: Clinic,
    slot: SlotNumber,
    size: u32,
    text: &[u8],
) -> Result<Edited, ImportRefusal>
    ensures { (import_answer_from result, sheet.new) ≡ importOf sheet.old caller.0 slot.0 size text.now }
{
    let mut words = [0u32; ROOM];
    let n = read_leaflet(text, size, &mut words)?;
    let edited = replace_all(sheet, caller, slot, &words[..n])?;
    Ok(edited)
}

/// Replaces all of a slot's records by those of a leaflet, composes the slot anew, and reports how many of its lines
/// that redid. The text is judged before anything else is looked at.
pub fn import(
    sheet: &mut [u32],
    caller: Clinic,
    slot: SlotNumber,
    size: u32,
    text: &[u8],
) -> ImportAnswer
    ensures { (edit_says result.number result.place result.redone, sheet.new)
        ≡ importOf sheet.old caller.0 slot.0 size text.now }
{
    replace_by_text(sheet, caller, slot, size, text).into()
}

// Read: a slot's used line words, as a part of the sheet, and its companion, the number.
ghost use Rattle.std.specs.Prelude.{◌≡◌, ◌+◌, ◌*◌, IfOk, length};
ghost use Rattle.rules.specs.Refusals.{read_number, read_start, read_length, read_part, read_words};
ghost use Rattle.sheet.specs.Told.{number_from};

use crate::entry::{Clinic, SlotNumber, slot_range};
use rules::Refusal;
use rules::layout::{IN_USE, LINE_COUNT, LINE_WORDS, LINES, MOST_RECORDS};
use std::ops::Range;

/// The most that a line count may be, as a word: a line has a record at least.
const MOST_LINES: u32 = MOST_RECORDS as u32;

/// Where a slot's used line words stand, or why a read is refused.
#[inline(always)]
#[tactic(auto, using(crate::proofs::ReadLaws::read_tests))]
fn read_range(sheet: &[u32], caller: Clinic, slot: SlotNumber) -> Result<Range<usize>, Refusal>
    ensures number { number_from result ≡ read_number sheet.now caller.0 slot.0 }
    ensures part { IfOk result (λ r. (r.start, r.end) ≡ read_part sheet.now caller.0 slot.0) }
{
    let head = slot_range(sheet, caller, slot)?.start;
    // the in-use word first, which the rows before have at hand
    if 1 < sheet[head + IN_USE] {
        return Err(Refusal::Damaged);
    }
    let count = sheet[head + LINE_COUNT];
    if MOST_LINES < count {
        return Err(Refusal::Damaged);
    }
    let first = head + LINES;
    Ok(first..first + LINE_WORDS * count as usize)
}

/// The number of a read: 0, or why it is refused.
// a number, and an empty part beside it in what follows: C asks by two calls, and docs/CLAIMS.md names both
pub fn read_number(sheet: &[u32], caller: Clinic, slot: SlotNumber) -> u32
    ensures number { result ≡ read_number sheet.now caller.0 slot.0 }
    ensures kept { sheet.exit.now ≡ sheet.entry.now }
{
    match read_range(sheet, caller, slot) {
        Ok(_) => 0,
        Err(refusal) => refusal.number(),
    }
}

/// A part of the sheet: the words from `start` up to `end`.
// no Range and no slice: C sees this struct, and an export cannot return a reference
#[repr(C)]
#[derive(Clone, Copy, Debug, PartialEq, Eq)]
pub struct Part {
    pub start: usize,
    pub end: usize,
}

/// Where a slot's used line words stand. Empty where the read is refused.
pub fn read_part(sheet: &[u32], caller: Clinic, slot: SlotNumber) -> Part
    ensures part { (result.start, result.end) ≡ read_part sheet.now caller.0 slot.0 }
    ensures kept { sheet.exit.now ≡ sheet.entry.now }
{
    let Range { start, end } = read_range(sheet, caller, slot).unwrap_or(0..0);
    Part { start, end }
}

/// A slot's used line words, as the very part of the sheet that they are. Empty where the read is refused.
pub fn read(sheet: &[u32], caller: Clinic, slot: SlotNumber) -> &[u32]
    ensures words { result.now ≡ read_words sheet.now caller.0 slot.0 }
    ensures count { length result.now ≡ read_length sheet.now caller.0 slot.0 }
    ensures place { (result.ref_ptr.0 ≡ sheet.entry.ref_ptr.0)
        × (result.ref_ptr.1 ≡ sheet.entry.ref_ptr.1 + 4 * read_start sheet.now caller.0 slot.0) }
    ensures kept { sheet.exit.now ≡ sheet.entry.now }
{
    let Part { start, end } = read_part(sheet, caller, slot);
    &sheet[start..end]
}

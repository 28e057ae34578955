// How a call on a slot begins: which sheets and slots there are, and who may call.
ghost use Rattle.std.specs.Prelude.{◌≡◌, ◌+◌, ◌*◌, ◌/◌, ◌≤◌, IfErr, IfOk, IfSome, OnOk, is_some, length};
ghost use Rattle.rules.specs.Layout.{slot_length};
ghost use Rattle.rules.specs.Sheet.{length_ok};
ghost use Rattle.rules.specs.Refusals.{says, entry_answer};
ghost use Rattle.rules.specs.Numbers.{refused_with};

use rules::Refusal;
use rules::layout::{IN_USE, MOST_SLOTS, SLOT_WORDS};
use std::ops::Range;

/// Two kinds of number, so that no call's two can be exchanged.
// each a struct of its own, beside one another in every call: so C passes them, and claims name caller.0 and slot.0
#[repr(C)]
#[derive(Clone, Copy, Debug, PartialEq, Eq)]
pub struct Clinic(pub u32);

#[repr(C)]
#[derive(Clone, Copy, Debug, PartialEq, Eq)]
pub struct SlotNumber(pub u32);

/// The words of a sheet of as many slots as there may be.
const MOST_WORDS: usize = MOST_SLOTS * SLOT_WORDS;

/// The number of slots of a sheet of `len` words: P where `len` is 2,824 P for a P from 1 to 64.
// inlined, as are the two that look at the sheet with it: a refused call runs no more than them
#[inline(always)]
pub(crate) fn slot_count(len: usize) -> Option<usize>
    ensures whole { is_some result ≡ length_ok len }
    ensures count { IfSome result (λ p. p ≡ len / slot_length) }
{
    if len < SLOT_WORDS || MOST_WORDS < len {
        return None;
    }
    // 23,764 / 2^26 is a little more than 1 / 2,824: of whole slots it gives their number. With a division in its place
    // a read and its number took 6.2 ns for 5.9
    let p = len * 23764 / 67108864;
    if SLOT_WORDS * p == len { Some(p) } else { None }
}

/// Where a slot's words stand in the sheet, for a call on it: refused with the rows 1, 2, 3 and 14, with which every
/// such call begins. Of the slot it looks at the clinic and, where that is the caller, at the in-use word.
#[inline(always)]
#[tactic(auto, using(crate::proofs::EntryLaws::entry_tests))]
pub(crate) fn slot_range(
    sheet: &[u32],
    caller: Clinic,
    slot: SlotNumber,
) -> Result<Range<usize>, Refusal>
    ensures refusal { IfErr result (λ e. refused_with e ≡ entry_answer sheet.now caller.0 slot.0) }
    ensures entered { OnOk result (says 0 0 ≡ entry_answer sheet.now caller.0 slot.0) }
    ensures start { IfOk result (λ r. r.start ≡ slot_length * slot.0) }
    ensures end { IfOk result (λ r. r.end ≡ slot_length * slot.0 + slot_length) }
    ensures within { IfOk result (λ r. r.end ≤ length sheet.now) }
{
    if slot_count(sheet.len()).is_none() {
        return Err(Refusal::NoSheet);
    }
    // the sheet has whole slots, so one that starts within it is there
    // a product here and where slots are gone through: a method of the number would say no more
    let first = SLOT_WORDS * slot.0 as usize;
    if sheet.len() <= first {
        return Err(Refusal::NoSlot);
    }
    if caller.0 == 0 || caller.0 != sheet[first] {
        return Err(Refusal::NotTheCallers);
    }
    if sheet[first + IN_USE] == 0 {
        return Err(Refusal::NotInUse);
    }
    Ok(first..first + SLOT_WORDS)
}

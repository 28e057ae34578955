// Set-up: every slot empty, with its clinic, measure and indent.
ghost use Rattle.std.specs.Prelude.{◌≡◌, ◌*◌, ◌≤◌, ◌<◌, IfSome, length};
ghost use Rattle.rules.specs.Layout.{most_slots, slot_length};
ghost use Rattle.rules.specs.Refusals.{says, bad_slot, set_up};
ghost use Rattle.rules.specs.Numbers.{answer_from};
ghost use Rattle.sheet.specs.Lists.{Matched, all_fresh};

use crate::entry::slot_count;
use rules::layout::{CLINIC, SLOT_WORDS};
use rules::{Answer, Refusal, put, slot_limits_ok};
use slot::clear;

/// What a set-up gives the slots of a sheet: a clinic, a measure and an indent for each, in three lists of one length.
#[derive(Clone, Copy, Debug)]
struct Settings<'a> {
    clinics: &'a [u32],
    measures: &'a [u32],
    indents: &'a [u32],
    ghost matched: { Matched clinics.now measures.now indents.now },
    ghost few: { length clinics.now ≤ most_slots },
}

impl<'a> Settings<'a> {
    /// The first slot that is out of limits.
    fn first_out_of_limits(self) -> Option<usize>
        ensures inside { IfSome result (λ k. k < length self.entry.clinics.now) }
        ensures first { result ≡ bad_slot 0 self.entry.clinics.now self.entry.measures.now self.entry.indents.now
            (length self.entry.clinics.now) }
    {
        for k in 0..self.clinics.len() {
            if !slot_limits_ok(self.clinics[k], self.measures[k], self.indents[k]) {
                return Some(k);
            }
        }
        None
    }

    /// Writes a fresh slot for each clinic: all words are cleared at once, then each head is written.
    fn write(self, sheet: &mut [u32])
        requires { length sheet.old ≡ slot_length * length self.clinics.now }
        ensures { sheet.new ≡ all_fresh self.entry.clinics.now self.entry.measures.now self.entry.indents.now }
    {
        clear(sheet);
        // by index: after `chunks_exact_mut` a proof knows no more of the words than how many they are
        for k in 0..self.clinics.len() {
            let start = SLOT_WORDS * k;
            let end = start + SLOT_WORDS;
            let head = [self.clinics[k], self.measures[k], self.indents[k]];
            put(&mut sheet[start..end], CLINIC, head);
        }
    }
}

/// Sets the slots up, and gives their number.
#[tactic(auto, using(crate::proofs::SetUpLaws::sets_up))]
fn set_up_slots(
    sheet: &mut [u32],
    clinics: &[u32],
    measures: &[u32],
    indents: &[u32],
) -> Result<u32, Refusal>
    ensures { (answer_from result, sheet.new) ≡ set_up sheet.old clinics.now measures.now indents.now }
{
    let slots = slot_count(sheet.len()).ok_or(Refusal::NoSheet)?;
    if clinics.len() != slots || measures.len() != slots || indents.len() != slots {
        return Err(Refusal::NoSheet);
    }
    let settings = Settings {
        clinics,
        measures,
        indents,
    };
    if let Some(k) = settings.first_out_of_limits() {
        return Err(Refusal::OutOfLimits { slot: k as u32 });
    }
    settings.write(sheet);
    Ok(slots as u32)
}

/// Empties every slot, and gives each its clinic, measure and indent.
// three lists, as C passes them
pub fn set_up(sheet: &mut [u32], clinics: &[u32], measures: &[u32], indents: &[u32]) -> Answer
    ensures { (says result.number result.place, sheet.new)
        ≡ set_up sheet.old clinics.now measures.now indents.now }
{
    set_up_slots(sheet, clinics, measures, indents).into()
}

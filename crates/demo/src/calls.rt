// The calls of a sheet, each shown with what it answers. Each takes what the sheet's call takes, as C passes it.
ghost use Rattle.std.specs.Prelude.{◌↔◌, ◌≡◌, IfErr, IfOk, IsOk, length};
ghost use Rattle.rules.specs.Layout.{slot_length};
ghost use Rattle.rules.specs.Refusals.{read_number, read_words};

use crate::answers::{Composed, NO_LEAFLET, Refused, accepted};
use crate::lines::{Line, characters, slot_words};
use crate::rows::{BaseRow, RubyRow};
use crate::terminal::show;
use crate::texts::TEXT_SIZE;
use rules::layout::{FIRST_RECORD, LINE_WORDS, MEASURE, RECORD_COUNT};
use sheet::{Clinic, SlotNumber};
use std::ops::Range;

/// Sets a sheet up, with a clinic, a measure and an indent for each slot.
pub(crate) fn set_up(sheet: &mut [u32], clinics: &[u32], measures: &[u32], indents: &[u32]) {
    let answer = sheet::set_up(sheet, clinics, measures, indents);
    match accepted(answer.number, answer.place as usize) {
        Ok(slots) => show(format_args!("  accepted: {slots} slots.\n")),
        Err(refused) => show(format_args!("  {refused}.\n")),
    }
}

/// A clinic takes a slot, whose number the sheet tells.
pub(crate) fn take(sheet: &mut [u32], caller: Clinic) {
    let answer = sheet::take(sheet, caller);
    match accepted(answer.number, answer.place as usize) {
        Ok(slot) => show(format_args!("  accepted: slot {slot}.\n")),
        Err(refused) => show(format_args!("  {refused}.\n")),
    }
}

/// A clinic gives a slot back.
pub(crate) fn give_back(sheet: &mut [u32], caller: Clinic, slot: SlotNumber) {
    let answer = sheet::give_back(sheet, caller, slot);
    match accepted(answer.number, answer.place as usize) {
        Ok(_) => show("  accepted.\n"),
        Err(refused) => show(format_args!("  {refused}.\n")),
    }
}

fn show_composed(outcome: Result<Composed, Refused>) {
    match outcome {
        Ok(composed) => show(format_args!("  accepted: {composed}.\n")),
        Err(refused) => show(format_args!("  {refused}.\n")),
    }
}

/// A clinic replaces records of a slot.
pub(crate) fn edit(
    sheet: &mut [u32],
    caller: Clinic,
    slot: SlotNumber,
    records: Range<u32>,
    inserted: &[u32],
) {
    let deleted = records.end.saturating_sub(records.start);
    let answer = sheet::edit(sheet, caller, slot, records.start, deleted, inserted);
    let redone = answer.redone;
    let outcome = accepted(answer.number, answer.place as usize);
    show_composed(outcome.map(|lines| Composed { lines, redone }));
}

/// A clinic imports a text, in place of all that a slot has. One that is no leaflet is shown again from its fault on.
pub(crate) fn import(sheet: &mut [u32], caller: Clinic, slot: SlotNumber, text: &str) {
    show(format_args!("  {text}\n"));
    let answer = sheet::import(sheet, caller, slot, TEXT_SIZE, text.as_bytes());
    let redone = answer.redone;
    let outcome = accepted(answer.number, answer.place);
    show_composed(outcome.map(|lines| Composed { lines, redone }));
    if answer.number == NO_LEAFLET
        && let Some(rest) = text.get(answer.place..)
    {
        show(format_args!("  from there: {rest}\n"));
    }
}

/// The line words that a clinic reads in a slot, or why it may not.
fn read(sheet: &[u32], caller: Clinic, slot: SlotNumber) -> Result<&[u32], Refused>
    ensures accepted { IsOk result ↔ (read_number sheet.now caller.0 slot.0 ≡ 0) }
    ensures lines { IfOk result (λ lines. lines.now ≡ read_words sheet.now caller.0 slot.0) }
    ensures refused { IfErr result (λ r. r.number ≡ read_number sheet.now caller.0 slot.0) }
{
    // The C interface: a sheet answers a read by two calls, for its number and for its words.
    let number = sheet::read_number(sheet, caller, slot);
    if number != 0 {
        return Err(Refused {
            number,
            place: None,
        });
    }
    Ok(sheet::read(sheet, caller, slot))
}

/// How many lines a clinic reads in a slot.
pub(crate) fn show_read(sheet: &[u32], caller: Clinic, slot: SlotNumber) {
    match read(sheet, caller, slot) {
        Ok(lines) => show(format_args!("  read: {} lines.\n", lines.len() / LINE_WORDS)),
        Err(refused) => show(format_args!("  {refused}.\n")),
    }
}

/// The same, and the lines: each with its ruby over it, and beside it its kind and the x of its end. `markup` is the
/// text that was imported.
pub(crate) fn show_slot(sheet: &[u32], caller: Clinic, slot: SlotNumber, markup: &str) {
    show_read(sheet, caller, slot);
    if let Some(words) = slot_words(sheet, slot)
        && let Ok(lines) = read(sheet, caller, slot)
    {
        show_lines(words, lines, markup);
    }
}

fn show_lines(words: &[u32], lines: &[u32], markup: &str)
    requires { length words.now ≡ slot_length }
{
    let measure = words[MEASURE];
    let characters = characters(words);
    let (lines, _) = lines.as_chunks::<LINE_WORDS>();
    // a line ends where the next begins, and the last with the records
    let ends = lines
        .iter()
        .skip(1)
        .map(|next| next[FIRST_RECORD])
        .chain([words[RECORD_COUNT]]);
    for (number, (line, end)) in lines.iter().zip(ends).enumerate() {
        show_line(number, Line::new(&characters, *line, end), measure, markup);
    }
}

fn show_line(number: usize, line: Line<'_>, measure: u32, markup: &str) {
    let base = BaseRow {
        characters: line.characters,
        measure,
    };
    if base.has_ruby() {
        show(format_args!("    {}\n", RubyRow { base, markup }));
    }
    show(format_args!("{number:3} {base} {line}\n"));
}

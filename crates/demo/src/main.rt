// Three clinics share a sheet: they take slots, import a dose note and an aftercare note with ruby, change a dose, and
// give slots back. Some calls are refused.
#![tactic(auto)]

mod answers;
mod calls;
mod lines;
mod rows;
mod terminal;
mod texts;

use calls::{edit, give_back, import, set_up, show_read, show_slot, take};
use lists::Class;
use rules::Record;
use rules::layout::{RECORD_WORDS, SLOT_WORDS};
use sheet::{Clinic, SlotNumber};
use terminal::show;
use texts::{CARE_NOTE, DOSE_NOTE, LONG_WORD, OPEN_NOTE, TEXT_SIZE};

fn set_up_clinics(sheet: &mut [u32]) {
    show("Clinics 7, 8, 9 get slots 0, 1, 2 of measures 520, 560, 400 and indents 80, 80, 0.\n");
    set_up(sheet, &[7, 8, 9], &[520, 560, 400], &[80, 80, 0]);
}

// Line 1 would have room for 1, but not for 10%, and line 2 for 500, but not for 500mg. To an import % is a Western
// character, as digits and letters are, and no line breaks between two of them: lines 1 and 2 end before, and are
// stretched. Line 3 shrinks the space after its comma.
fn import_dose_note(sheet: &mut [u32]) {
    show("\nClinic 7 takes a slot. None is in use before its clinic takes it.\n");
    take(sheet, Clinic(7));
    show("Clinic 7 imports a dose note into slot 0. A strength keeps its %, a dose its unit.\n");
    import(sheet, Clinic(7), SlotNumber(0), DOSE_NOTE);
    show("Clinic 7 reads slot 0. A column is 40 units; each character stands where its x lies.\n");
    show("Beside a line stand its kind and the x of its end.\n");
    show_slot(sheet, Clinic(7), SlotNumber(0), DOSE_NOTE);
}

// Ruby is half as large as its base. So in line 0 the base is the longer row, in line 2 the ruby, and the base opens
// under it, and in line 3 a single character stands in the middle under its ruby.
fn import_care_note(sheet: &mut [u32]) {
    show("\nClinic 8 takes a slot.\n");
    take(sheet, Clinic(8));
    show("Clinic 8 imports an aftercare note into slot 1.\n");
    import(sheet, Clinic(8), SlotNumber(1), CARE_NOTE);
    show(
        "Clinic 8 reads slot 1. Ruby starts where its base does; a terminal cannot show it smaller.\n",
    );
    show_slot(sheet, Clinic(8), SlotNumber(1), CARE_NOTE);
}

// A text with a fault changes nothing.
fn try_refused_import(sheet: &mut [u32]) {
    show("\nClinic 8 imports a text into slot 1 whose rt has no end tag.\n");
    import(sheet, Clinic(8), SlotNumber(1), OPEN_NOTE);
    show("Clinic 8 reads slot 1: it is as before.\n");
    show_read(sheet, Clinic(8), SlotNumber(1));
}

/// The words of a record without ruby.
fn record(character: char, class: Class, advance: u32) -> [u32; RECORD_WORDS] {
    let record = Record {
        code: u32::from(character),
        class: class.number(),
        size: TEXT_SIZE,
        advance,
        group: 0,
        ruby: 0,
    };
    record.into()
}

/// A clinic changes the dose in slot 0 to 250: as an import has them, its digits are Western, and half as wide as they
/// are large.
fn edit_dose(sheet: &mut [u32], caller: Clinic) {
    let dose = ['2', '5', '0'].map(|digit| record(digit, Class::Western, TEXT_SIZE / 2));
    edit(sheet, caller, SlotNumber(0), 17..20, dose.as_flattened());
}

/// Clinic 7 inserts a comma of a class, as wide as a kanji, into slot 0.
fn insert_comma(sheet: &mut [u32], class: Class) {
    let comma = record('、', class, TEXT_SIZE);
    edit(sheet, Clinic(7), SlotNumber(0), 27..27, &comma);
}

fn try_refused_edits(sheet: &mut [u32]) {
    show("\nClinic 8 changes the dose in slot 0 to 250.\n");
    edit_dose(sheet, Clinic(8));
    show("Clinic 7 inserts a comma that is as wide as a kanji, before record 27 of slot 0.\n");
    insert_comma(sheet, Class::Comma);
    show("Clinic 7 marks it as a kanji too, so that it could open a line.\n");
    insert_comma(sheet, Class::Ideographic);
}

// A read is refused of another clinic's slot, and of one's own before it is taken.
fn try_reads(sheet: &[u32]) {
    show("\nClinic 8 reads slot 0.\n");
    show_read(sheet, Clinic(8), SlotNumber(0));
    show("Clinic 9 reads slot 2, which it has not taken.\n");
    show_read(sheet, Clinic(9), SlotNumber(2));
}

// The dose stands in line 3, and is as wide as before: lines 2 and 3 are composed anew, and line 4 stands again. It
// has no ruby, so no markup is told.
fn change_dose(sheet: &mut [u32]) {
    show("\nClinic 7 changes the dose in slot 0 to 250: records 17 to 19 make way for three.\n");
    edit_dose(sheet, Clinic(7));
    show("Clinic 7 reads slot 0.\n");
    show_slot(sheet, Clinic(7), SlotNumber(0), "");
}

// Each clinic takes only slots of its own, so that none can use up another's.
fn share_slots(sheet: &mut [u32]) {
    show("\nClinic 7 gives slot 0 back.\n");
    give_back(sheet, Clinic(7), SlotNumber(0));
    show("Clinic 8 takes one more slot. Slots 0 and 2 are free, but not its own.\n");
    take(sheet, Clinic(8));
    show("Clinic 9 takes a slot, and still gets its own.\n");
    take(sheet, Clinic(9));
}

// Before it took the slot its read was refused: a refused read and an empty slot can be told apart.
fn try_long_word(sheet: &mut [u32]) {
    show("\nClinic 9 imports a word that is wider than its measure into slot 2.\n");
    import(sheet, Clinic(9), SlotNumber(2), LONG_WORD);
    show("Clinic 9 reads slot 2: it is empty.\n");
    show_read(sheet, Clinic(9), SlotNumber(2));
}

// Giving back empties a slot, and then it can be taken again.
fn take_again(sheet: &mut [u32]) {
    show("\nClinic 8 gives slot 1 back.\n");
    give_back(sheet, Clinic(8), SlotNumber(1));
    show("Clinic 8 takes a slot again.\n");
    take(sheet, Clinic(8));
    show("Clinic 8 reads slot 1: nothing of the aftercare note is left.\n");
    show_read(sheet, Clinic(8), SlotNumber(1));
}

fn main() {
    let mut sheet = [0; 3 * SLOT_WORDS];
    set_up_clinics(&mut sheet);
    import_dose_note(&mut sheet);
    import_care_note(&mut sheet);
    try_refused_import(&mut sheet);
    try_refused_edits(&mut sheet);
    try_reads(&sheet);
    change_dose(&mut sheet);
    share_slots(&mut sheet);
    try_long_word(&mut sheet);
    take_again(&mut sheet);
}

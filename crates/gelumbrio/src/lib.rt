// The calls for programs in C and Rust. A slice passes as a pointer, then its length in words, or in bytes where it is
// text. The header that declares them is include/gelumbrio.h: by it answers are structs with numbers, a class and a
// list's answer are numbers, and caller and slot, place, deleted and inserted, size and text, and a set-up's three
// lists stand beside each other.
#![tactic(auto)]

ghost use Rattle.std.specs.Prelude.{◌≡◌, cond};
ghost use Rattle.lists.specs.Lists.{in_list, class_of};
ghost use Rattle.rules.specs.Groups.{ruby_place};
ghost use Rattle.rules.specs.Refusals.{says, edit_says, set_up, edit, read_number, read_part};
ghost use Rattle.rules.specs.Pool.{taking, giving_back};
ghost use Rattle.sheet.specs.Import.{import};

use lists::Class;
use sheet::{Answer, Clinic, EditAnswer, ImportAnswer, Part, RubyPlace, SlotNumber};

#[unsafe(no_mangle)]
pub extern "C" fn gelumbrio_set_up(
    sheet: &mut [u32],
    clinics: &[u32],
    measures: &[u32],
    indents: &[u32],
) -> Answer
    ensures { (says result.number result.place, sheet.new) ≡
        set_up sheet.old clinics.now measures.now indents.now }
{
    sheet::set_up(sheet, clinics, measures, indents)
}

#[unsafe(no_mangle)]
pub extern "C" fn gelumbrio_take(sheet: &mut [u32], caller: Clinic) -> Answer
    ensures { (says result.number result.place, sheet.new) ≡ taking sheet.old caller.0 }
{
    sheet::take(sheet, caller)
}

#[unsafe(no_mangle)]
pub extern "C" fn gelumbrio_give_back(sheet: &mut [u32], caller: Clinic, slot: SlotNumber) -> Answer
    ensures { (says result.number result.place, sheet.new) ≡
        giving_back sheet.old caller.0 slot.0 }
{
    sheet::give_back(sheet, caller, slot)
}

#[unsafe(no_mangle)]
pub extern "C" fn gelumbrio_edit(
    sheet: &mut [u32],
    caller: Clinic,
    slot: SlotNumber,
    place: u32,
    deleted: u32,
    inserted: &[u32],
) -> EditAnswer
    ensures { (edit_says result.number result.place result.redone, sheet.new) ≡
        edit sheet.old caller.0 slot.0 place deleted inserted.now }
{
    sheet::edit(sheet, caller, slot, place, deleted, inserted)
}

#[unsafe(no_mangle)]
pub extern "C" fn gelumbrio_import(
    sheet: &mut [u32],
    caller: Clinic,
    slot: SlotNumber,
    size: u32,
    text: &[u8],
) -> ImportAnswer
    ensures { (edit_says result.number result.place result.redone, sheet.new) ≡
        import sheet.old caller.0 slot.0 size text.now }
{
    sheet::import(sheet, caller, slot, size, text)
}

#[unsafe(no_mangle)]
pub extern "C" fn gelumbrio_read_number(sheet: &[u32], caller: Clinic, slot: SlotNumber) -> u32
    ensures number { result ≡ read_number sheet.now caller.0 slot.0 }
    ensures kept { sheet.exit.now ≡ sheet.entry.now }
{
    sheet::read_number(sheet, caller, slot)
}

// The part is told by its start and end, since an export cannot return a reference.
#[unsafe(no_mangle)]
pub extern "C" fn gelumbrio_read(sheet: &[u32], caller: Clinic, slot: SlotNumber) -> Part
    ensures part { (result.start, result.end) ≡ read_part sheet.now caller.0 slot.0 }
    ensures kept { sheet.exit.now ≡ sheet.entry.now }
{
    sheet::read_part(sheet, caller, slot)
}

#[unsafe(no_mangle)]
pub extern "C" fn gelumbrio_ruby_place(
    base_advance: u32,
    ruby_count: u32,
    size: u32,
    k: u32,
) -> RubyPlace
    ensures { (result.number, result.offset) ≡ ruby_place base_advance ruby_count size k }
{
    sheet::ruby_place(base_advance, ruby_count, size, k)
}

// Whether the list of a class has a code point: 1 or 0.
#[unsafe(no_mangle)]
pub extern "C" fn gelumbrio_in_list(class_number: u32, code: u32) -> u32
    ensures { result ≡ cond (in_list class_number code) 1 0 }
{
    u32::from(lists::in_list(class_number, code))
}

// The class that a code point gets, or 0 where no list has it.
#[unsafe(no_mangle)]
pub extern "C" fn gelumbrio_class_of(code: u32) -> u32
    ensures { result ≡ class_of code }
{
    lists::class_of(code).map_or(0, Class::number)
}

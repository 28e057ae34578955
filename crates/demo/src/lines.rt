// What a slot holds, out of its words: characters and lines.
ghost use Rattle.std.specs.Prelude.{◌≡◌, ◌+◌, ◌*◌, ◌<◌, IfSome, Some, length, slice_get, slice_range};
ghost use Rattle.rules.specs.Layout.{most_records, place_length, places_at, records_at, slot_length};
ghost use Rattle.rules.specs.Records.{rec_at};
ghost use Rattle.rules.specs.Structs.{record_of};

use rules::layout::{
    END_X, FIRST_RECORD, KIND, LINE_WORDS, MOST_RECORDS, PLACE_WORDS, PLACES, RECORDS, SLOT_WORDS,
};
use rules::{LineKind, Record};
use sheet::SlotNumber;
use std::{array, fmt};

/// The words of a slot, if the sheet has it: a part of the sheet, so that their number stays a clause.
pub(crate) fn slot_words(sheet: &[u32], slot: SlotNumber) -> Option<&[u32]>
    ensures words { IfSome result (λ words. words.now
        ≡ slice_range sheet.now (slot_length * slot.0) (slot_length * slot.0 + slot_length)) }
    ensures whole { IfSome result (λ words. length words.now ≡ slot_length) }
{
    let start = SLOT_WORDS * slot.0 as usize;
    sheet.get(start..start + SLOT_WORDS)
}

/// A character of a slot: its record, and the x where it is placed.
#[derive(Clone, Copy, Debug)]
pub(crate) struct Character {
    pub(crate) record: Record,
    pub(crate) x: u32,
}

impl Character {
    /// Character `i` of a slot's words.
    fn at(words: &[u32], i: usize) -> Character
        requires whole { length words.now ≡ slot_length }
        requires within { i < most_records }
        ensures record { record_of result.record ≡ rec_at (slice_range words.now records_at places_at) i }
        ensures x { slice_get words.now (places_at + place_length * i) ≡ Some result.x }
    {
        Character {
            record: Record::at(&words[RECORDS..PLACES], i),
            x: words[PLACES + PLACE_WORDS * i],
        }
    }

    /// What is shown. A code that is no character's is shown as a question mark.
    pub(crate) fn shown(&self) -> char {
        char::from_u32(self.record.code).unwrap_or('?')
    }
}

/// The characters that a slot has room for. Those of its text come first.
pub(crate) fn characters(words: &[u32]) -> [Character; MOST_RECORDS]
    requires { length words.now ≡ slot_length }
{
    array::from_fn(|i| Character::at(words, i))
}

/// A line of a slot: its characters, the x of its end, and its kind.
#[derive(Clone, Copy, Debug)]
pub(crate) struct Line<'a> {
    pub(crate) characters: &'a [Character],
    pub(crate) end_x: u32,
    pub(crate) kind: u32,
}

impl<'a> Line<'a> {
    /// The line of some line words, out of the characters that its slot has room for: it ends before record `end`.
    pub(crate) fn new(characters: &'a [Character], words: [u32; LINE_WORDS], end: u32) -> Line<'a>
        ensures end_x { slice_get words 1 ≡ Some result.end_x }
        ensures kind { slice_get words 2 ≡ Some result.kind }
    {
        let first = words[FIRST_RECORD] as usize;
        let end = characters.len().min(end as usize);
        Line {
            characters: characters.get(first..end).unwrap_or(&[]),
            end_x: words[END_X],
            kind: words[KIND],
        }
    }
}

/// A line's kind and the x of its end, as they stand beside it.
impl fmt::Display for Line<'_> {
    fn fmt<W: fmt::Write>(&self, f: &mut fmt::Formatter<W>) -> fmt::Result {
        let kind = match LineKind::try_from(self.kind) {
            Ok(LineKind::Flush) => "flush",
            Ok(LineKind::Short) => "short",
            Ok(LineKind::Final) => "final",
            Err(_) => "of no kind",
        };
        write!(f, "{kind}, {}", self.end_x)
    }
}

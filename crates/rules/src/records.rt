// "A record": its words and its own rules.
ghost use Rattle.std.specs.Prelude.{◌≡◌, true, ◌+◌, ◌*◌, ◌≤◌, length};
ghost use Rattle.rules.specs.Layout.{record_length};
ghost use Rattle.rules.specs.Records.{code_ok, size_ok, group_ok, rec_ok, rec_at};
ghost use Rattle.rules.specs.Listed.{is_listed};
ghost use Rattle.rules.specs.Structs.{record_of, HasWords};

use crate::classes::{class_entry, entry_of};
use crate::layout::{ADVANCE, CLASS, CODE_POINT, GROUP, RECORD_WORDS, RUBY_COUNT, SIZE};
use crate::limits::{HIGHEST_CODE, HIGHEST_GROUP, LARGEST_SIZE, LEAST_SIZE, MOST_RUBY, SIZE_STEP};
use lists::Class;

/// One character with what is set of it. Sizes and advances are in the units of the sheet; group 0 is none.
// Its fields are words of the sheet, as C writes them: any numbers, on which answers 8 and 12 are told (`rec_ok`).
#[derive(Clone, Copy, Debug, PartialEq, Eq)]
pub struct Record {
    pub code: u32,
    pub class: u32,
    pub size: u32,
    pub advance: u32,
    pub group: u32,
    pub ruby: u32,
}

impl Record {
    /// Record `i` of some record words.
    pub fn at(words: &[u32], i: usize) -> Record
        requires { record_length * i + record_length ≤ length words.now }
        ensures { record_of result ≡ rec_at words.now i }
    {
        let at = RECORD_WORDS * i;
        Record {
            code: words[at + CODE_POINT],
            class: words[at + CLASS],
            size: words[at + SIZE],
            advance: words[at + ADVANCE],
            group: words[at + GROUP],
            ruby: words[at + RUBY_COUNT],
        }
    }
}

impl From<Record> for [u32; RECORD_WORDS] {
    ghost from_gives = { HasWords };

    fn from(record: Record) -> [u32; RECORD_WORDS] {
        [
            record.code,
            record.class,
            record.size,
            record.advance,
            record.group,
            record.ruby,
        ]
    }
}

// At most 0x10FFFF and no surrogate.
#[tactic(auto, unfolding(crate::specs::Records::code_ok))]
fn code_ok(code: u32) -> bool
    ensures { result ≡ code_ok code }
{
    code <= HIGHEST_CODE && !(0xD800..=0xDFFF).contains(&code)
}

// A multiple of 8, from 8 to 4,000.
#[tactic(auto, unfolding(crate::specs::Records::size_ok))]
pub(crate) fn size_ok(size: u32) -> bool
    ensures { result ≡ size_ok size }
{
    size % SIZE_STEP == 0 && (LEAST_SIZE..=LARGEST_SIZE).contains(&size)
}

// No group and no ruby, or a group of ruby over hiragana, katakana or ideographic characters.
#[tactic(auto, using(crate::proofs::RecordLimits::no_class_group), unfolding(crate::specs::Records::group_ok))]
fn group_ok(class: u32, group: u32, ruby: u32) -> bool
    ensures { result ≡ group_ok class group ruby }
{
    if group == 0 {
        ruby == 0
    } else {
        group <= HIGHEST_GROUP
            && (1..=MOST_RUBY).contains(&ruby)
            && matches!(
                Class::try_from(class),
                Ok(Class::Hiragana | Class::Katakana | Class::Ideographic)
            )
    }
}

/// The record keeps its own rules.
#[tactic(auto, unfolding(crate::specs::Records::rec_ok, crate::specs::Records::advance_ok))]
pub fn record_ok(r: Record) -> bool
    ensures { result ≡ rec_ok (record_of r) }
{
    let Some(entry) = class_entry(r.class) else {
        return false;
    };
    code_ok(r.code)
        && size_ok(r.size)
        && entry.kind.allows(r.size, r.advance)
        && group_ok(r.class, r.group, r.ruby)
}

/// The same of a record of no group whose code point stands in its class's list. Code points of lists are in order, and
/// so are the classes that have one.
#[tactic(auto, using(crate::proofs::Listed::plain_laws), unfolding(crate::specs::Listed::is_listed))]
pub fn plain_ok(r: Record) -> bool
    requires listed { is_listed (record_of r) ≡ true }
    requires alone { r.group ≡ 0 }
    ensures { result ≡ rec_ok (record_of r) }
{
    size_ok(r.size) && entry_of(r.class).kind.allows(r.size, r.advance) && r.ruby == 0
}

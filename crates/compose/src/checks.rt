// Answers 8, 12 and 9, for any records at all.
ghost use Rattle.std.specs.Prelude.{◌≡◌, ◌↔◌, IsTrue, Bool};
ghost use Rattle.rules.specs.Basics.{first_failing};
ghost use Rattle.rules.specs.Records.{Rec, rec_ok};
ghost use Rattle.rules.specs.Listed.{is_listed};
ghost use Rattle.rules.specs.Groups.{joins, group_fault};
ghost use Rattle.rules.specs.Structs.{record_of};
ghost use Rattle.compose.specs.Paragraph.{paragraph as records_of};
ghost use Rattle.compose.specs.Scan.{Fine, alike};

use crate::paragraph::Paragraph;
use lists::in_list;
use rules::limits::MOST_GROUPED;
use rules::{Record, record_ok};

// Whether answers 8 and 12 do not apply to a record.
#[inline(always)]
pub(crate) fn is_fine(r: Record) -> bool
    ensures { IsTrue result ↔ Fine (record_of r) }
{
    record_ok(r) && in_list(r.class, r.code)
}

// A test of a record by itself. A trait and no closure: its ghost member is the test that `first_failing` takes.
pub(crate) trait Test {
    ghost passes: { Self → Rec → Bool };

    fn holds(&self, r: Record) -> bool
        ensures { result ≡ passes self.now (record_of r) };
}

// A record keeps its own rules.
#[derive(Clone, Copy, Debug, PartialEq, Eq)]
pub(crate) struct OwnRules;

impl Test for OwnRules {
    ghost passes = { λ _ r. rec_ok r };

    fn holds(&self, r: Record) -> bool {
        record_ok(r)
    }
}

// Its class's list has its code point.
#[derive(Clone, Copy, Debug, PartialEq, Eq)]
pub(crate) struct Listed;

impl Test for Listed {
    ghost passes = { λ _ r. is_listed r };

    #[tactic(auto, unfolding(rules::specs::Listed::is_listed))]
    fn holds(&self, r: Record) -> bool {
        in_list(r.class, r.code)
    }
}

// The first record that fails a test.
pub(crate) fn first_failing_record<T: Test>(paragraph: Paragraph<'_>, test: &T) -> Option<usize>
    ensures { result ≡ first_failing (T.passes test.now) 0 (records_of paragraph.entry.words.now) }
{
    for i in 0..paragraph.len() {
        if !test.holds(paragraph.record_at(i)) {
            return Some(i);
        }
    }
    None
}

// Neighbouring records of groups `g` and `h` are of one group. A record of none has the word 0, as `joins` reads it.
pub(crate) fn same_group(g: u32, h: u32) -> bool
    ensures { result ≡ joins g h }
{
    h != 0 && g == h
}

// Records of a group agree in size and ruby count.
pub(crate) fn alike(p: Record, r: Record) -> bool
    ensures { result ≡ alike (record_of p) (record_of r) }
{
    p.size == r.size && p.ruby == r.ruby
}

// The first record that breaks a group's rule.
pub(crate) fn first_group_fault(paragraph: Paragraph<'_>) -> Option<usize>
    ensures { result ≡ group_fault (records_of paragraph.entry.words.now) }
{
    // how many records of its group stand up to the one before `i`
    let mut count = 1;
    for i in 1..paragraph.len() {
        let p = paragraph.record_at(i - 1);
        let r = paragraph.record_at(i);
        if same_group(p.group, r.group) {
            if !alike(p, r) {
                return Some(i);
            }
            if count < MOST_GROUPED {
                count += 1;
            } else {
                return Some(i);
            }
        } else {
            count = 1;
        }
    }
    None
}

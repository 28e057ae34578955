// An edit of one slot: answers 4 to 10 and 12, and every word of the slot written where it is accepted.
ghost use Rattle.std.specs.Prelude.{◌≡◌, ◌%◌, ◌≤◌, IfOk, OnOk, IfErr, length};
ghost use Rattle.rules.specs.Layout.{most_records, record_length, slot_length};
ghost use Rattle.rules.specs.Sheet.{count_of};
ghost use Rattle.rules.specs.Refusals.{edit_slot};
ghost use Rattle.rules.specs.Numbers.{answer_from, edit_answer_from};
ghost use Rattle.compose.specs.Paragraph.{paragraph};
ghost use Rattle.compose.specs.Scan.{FilledFrom, Front};
ghost use Rattle.compose.specs.Composed.{Kept};
ghost use Rattle.slot.specs.Slot.{stored_words, IsDamaged, IsEditAnswerOf, InMeasure, StoredLines, replaced};

use crate::redone::lines_redone;
use crate::stretch::Stretch;
use crate::words::{splice, write_slot};
use compose::{Composition, Judged, Metrics, Paragraph, check, compose, keep_metrics};
use rules::layout::{
    IN_USE, INDENT, LINE_WORDS, LINES, MEASURE, MOST_RECORDS, RECORD_COUNT, RECORD_WORDS, RECORDS,
    RECORDS_WORDS,
};
use rules::{Edited, Measure, Refusal};

// The most that a record count may be, as a word.
const MOST_COUNT: u32 = MOST_RECORDS as u32;

/// What an edit answers, as C sees it: number, place, and the lines composed anew. A refused edit has composed none.
// a struct beside Answer and ImportAnswer: C has a struct for each (include/gelumbrio.h)
#[repr(C)]
#[derive(Clone, Copy, Debug, PartialEq, Eq)]
pub struct EditAnswer {
    pub number: u32,
    pub place: u32,
    pub redone: u32,
}

impl From<Result<Edited, Refusal>> for EditAnswer {
    ghost from_gives = { IsEditAnswerOf };

    fn from(outcome: Result<Edited, Refusal>) -> EditAnswer {
        match outcome {
            Ok(edited) => EditAnswer {
                number: 0,
                place: edited.lines,
                redone: edited.redone,
            },
            Err(refusal) => EditAnswer {
                number: refusal.number(),
                place: refusal.place(),
                redone: 0,
            },
        }
    }
}

// What the rules make of a slot's records as they stand: their measure, and how many lines they are.
#[derive(Clone, Copy, Debug, PartialEq, Eq)]
pub(crate) struct Stored {
    pub(crate) measure: Measure,
    pub(crate) lines: usize,
}

// The slot's records.
fn stored_records(words: &[u32]) -> Paragraph<'_>
    requires len { length words.now ≡ slot_length }
    requires few { count_of words.now ≤ most_records }
    ensures { result.words.now ≡ stored_words words.entry.now }
{
    let end = RECORDS + RECORD_WORDS * words[RECORD_COUNT] as usize;
    Paragraph {
        words: &words[RECORDS..end],
    }
}

// What the rules make of the slot's records: then the records' metrics are filled, and the first record of each line
// stands in `starts`. A damaged slot is refused. The stored line words are not looked at, since on a sheet of any words
// they may be anything.
pub(crate) fn stored_lines(
    words: &[u32],
    metrics: &mut Metrics,
    starts: &mut [u32; MOST_RECORDS],
) -> Result<Stored, Refusal>
    requires { length words.now ≡ slot_length }
    ensures damaged { IfErr result (λ e. IsDamaged words.now e) }
    ensures lines { IfOk result (λ stored. StoredLines words.now starts.new stored) }
    ensures kept { OnOk result (Kept (stored_words words.now) metrics.new) }
{
    let Some(measure) = Measure::new(words[MEASURE], words[INDENT]) else {
        return Err(Refusal::Damaged);
    };
    if MOST_COUNT < words[RECORD_COUNT] {
        return Err(Refusal::Damaged);
    }
    if 1 < words[IN_USE] {
        return Err(Refusal::Damaged);
    }
    match check(stored_records(words), measure, metrics, starts) {
        Ok(lines) => Ok(Stored { measure, lines }),
        Err(_) => Err(Refusal::Damaged),
    }
}

// Composes `new` as the slot's records and, where they are accepted, writes the slot and says how many lines it has.
fn replace(
    words: &mut [u32],
    new: Paragraph<'_>,
    measure: Measure,
    judged: Judged,
    metrics: &mut Metrics,
) -> Result<usize, Refusal>
    requires len { length words.old ≡ slot_length }
    requires whole { length new.words.now % record_length ≡ 0 }
    requires in_measure { InMeasure words.old measure }
    requires filled_from { FilledFrom new.words.now judged.known judged.kept metrics.old }
    requires front { Front new.words.now judged.known judged.stop metrics.old }
    ensures outcome { (answer_from result, words.new) ≡ replaced words.old (paragraph new.entry.words.now) }
    ensures few { IfOk result (λ count. count ≤ most_records) }
{
    let mut composition = Composition::new();
    let count = compose(new, judged, measure, metrics, &mut composition)?;
    write_slot(words, new.words, count as u32, &composition);
    Ok(count)
}

/// One slot's edit: `deleted` records go out at `place`, and the inserted ones come in there, six words to a record. A
/// refused one leaves the slot as it is: the new record list is held in a local until every check has passed.
// Place, deleted and inserted come apart, as C passes them and the definition `edit_slot` has them; `Stretch` holds
// them tested. The length stays a clause: docs/CLAIMS.md names this function, and it takes any slice of that length.
// local arrays and no Vec: the library has no heap
pub fn edit_slot(
    words: &mut [u32],
    place: u32,
    deleted: u32,
    inserted: &[u32],
) -> Result<Edited, Refusal>
    requires { length words.old ≡ slot_length }
    ensures { (edit_answer_from result, words.new) ≡ edit_slot words.old place deleted inserted.now }
{
    let mut metrics = Metrics::new();
    let mut starts = [0u32; MOST_RECORDS];
    let stored = stored_lines(words, &mut metrics, &mut starts)?;
    let stretch = Stretch::of(words, place, deleted, inserted)?;
    let old = stored_records(words);
    let mut list = [0u32; RECORDS_WORDS];
    splice(&mut list, old.words, stretch, inserted);
    let total = old.words.len() - RECORD_WORDS * stretch.deleted + inserted.len();
    let end = stretch.place + stretch.deleted;
    let kept = keep_metrics(old, end, stretch.place + stretch.inserted, &mut metrics);
    let judged = Judged {
        known: stretch.place,
        // the unit before the place may have been cut, or joined to what comes in
        stop: stretch.place.saturating_sub(1),
        kept,
    };
    let new = Paragraph {
        words: &list[..total],
    };
    let lines = replace(words, new, stored.measure, judged, &mut metrics)?;
    let line_words = &words[LINES..LINES + LINE_WORDS * lines];
    let redone = lines_redone(&starts[..stored.lines], line_words, stretch);
    Ok(Edited {
        lines: lines as u32,
        redone: redone as u32,
    })
}

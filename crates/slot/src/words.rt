// Words cleared, a record list spliced, and every word of a slot written.
ghost use Rattle.std.specs.Prelude.{◌≡◌, [], ◌∷◌, ◌++◌, ◌+◌, ◌*◌, ◌/◌, ◌≤◌, length};
ghost use Rattle.std.proofs.Math.Seq.{paste};
ghost use Rattle.rules.specs.Basics.{zeros, padded};
ghost use Rattle.rules.specs.Layout.{record_length, records_length, slot_length};
ghost use Rattle.rules.specs.Layout.{head_length, record_count_at};
ghost use Rattle.slot.specs.Slot.{head_of, spliced_into, Fits};

use crate::stretch::Stretch;
use compose::Composition;
use rules::layout::{IN_USE, LINES, PLACES, RECORD_COUNT, RECORD_WORDS, RECORDS, RECORDS_WORDS};
use rules::put;

/// Writes 0 to every word.
// `fill`, told by the definitions' word `zeros`, which set-up and giving back cite
#[tactic(auto, unfolding(rules::specs::Basics::zeros))]
pub fn clear(words: &mut [u32])
    ensures { words.new ≡ zeros (length words.old) }
{
    words.fill(0);
}

// Writes into `list` the records up to the stretch, then `inserted`, then the records past the stretch. What `list`
// holds past them stays.
pub(crate) fn splice(
    list: &mut [u32; RECORDS_WORDS],
    records: &[u32],
    stretch: Stretch,
    inserted: &[u32],
)
    requires { Fits (length records.now) (length inserted.now) stretch }
    ensures { list.new ≡ spliced_into list.old records.now (record_length * stretch.place)
        (record_length * (stretch.place + stretch.deleted)) inserted.now }
{
    let before = RECORD_WORDS * stretch.place;
    let rest = &records[RECORD_WORDS * (stretch.place + stretch.deleted)..];
    let after = before + inserted.len();
    list[..before].copy_from_slice(&records[..before]);
    list[before..after].copy_from_slice(inserted);
    list[after..after + rest.len()].copy_from_slice(rest);
}

// Writes the head of a slot but for the words that an edit keeps: clinic, measure, indent and in use.
fn put_head(words: &mut [u32], count: u32, lines: u32)
    requires { head_length ≤ length words.old }
    ensures { words.new
        ≡ paste (paste words.old record_count_at (count ∷ lines ∷ []) 2) 6 (0 ∷ 0 ∷ []) 2 }
{
    put(words, RECORD_COUNT, [count, lines]);
    put(words, IN_USE + 1, [0, 0]);
}

// Writes every word of a slot but clinic, measure, indent and in use.
pub(crate) fn write_slot(
    words: &mut [u32],
    records: &[u32],
    line_count: u32,
    composition: &Composition,
)
    requires { (length words.old ≡ slot_length) × (length records.now ≤ records_length) }
    ensures { words.new ≡ head_of words.old (length records.now / record_length) line_count
        ++ (padded records_length records.now ++ (composition.now.places ++ composition.now.lines)) }
{
    let end = RECORDS + records.len();
    put_head(words, (records.len() / RECORD_WORDS) as u32, line_count);
    words[RECORDS..end].copy_from_slice(records);
    clear(&mut words[end..PLACES]);
    words[PLACES..LINES].copy_from_slice(&composition.places);
    words[LINES..].copy_from_slice(&composition.lines);
}

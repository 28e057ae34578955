// Giving back one slot.
ghost use Rattle.std.specs.Prelude.{◌≡◌, length};
ghost use Rattle.rules.specs.Layout.{slot_length};
ghost use Rattle.rules.specs.Numbers.{answer_from};
ghost use Rattle.rules.specs.Pool.{give_back_slot};

use crate::edit::stored_lines;
use crate::words::clear;
use compose::Metrics;
use rules::Refusal;
use rules::layout::{MOST_RECORDS, RECORD_COUNT};

/// Zeroes every word but clinic, measure and indent, and gives 0. A damaged slot is refused, as an edit refuses it.
pub fn give_back_slot(words: &mut [u32]) -> Result<u32, Refusal>
    requires { length words.old ≡ slot_length }
    ensures { (answer_from result, words.new) ≡ give_back_slot words.old }
{
    let mut metrics = Metrics::new();
    let mut starts = [0u32; MOST_RECORDS];
    stored_lines(words, &mut metrics, &mut starts)?;
    clear(&mut words[RECORD_COUNT..]);
    // the place of the answer, as the definition has it
    Ok(0)
}

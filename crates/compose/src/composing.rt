// A paragraph judged and composed.
ghost use Rattle.std.specs.Prelude.{◌≡◌, IfOk, OnOk, IfErr};
ghost use Rattle.rules.specs.Numbers.{answer_from};
ghost use Rattle.compose.specs.Paragraph.{Checked};
ghost use Rattle.compose.specs.Lines.{Written};
ghost use Rattle.compose.specs.Scan.{FilledFrom, Front};
ghost use Rattle.compose.specs.Composed.{Refused, Kept, outcome, Starts};

use crate::breaking::Scanned;
use crate::checks::{Listed, OwnRules, first_failing_record, first_group_fault};
use crate::metrics::Metrics;
use crate::paragraph::Paragraph;
use crate::places::Composition;
use crate::scan::{Judged, Scan};
use rules::layout::MOST_RECORDS;
use rules::{Measure, Refusal};

// The first record that answer 8, 12 or 9 names, if one does. No measure changes it.
fn first_fault(paragraph: Paragraph<'_>) -> Result<(), Refusal>
    ensures accepted { OnOk result (Checked paragraph.entry.words.now) }
    ensures refused { IfErr result (λ e. Refused paragraph.entry.words.now e) }
{
    if let Some(i) = first_failing_record(paragraph, &OwnRules) {
        return Err(Refusal::IllRecord { at: i as u32 });
    }
    if let Some(i) = first_failing_record(paragraph, &Listed) {
        return Err(Refusal::NotListed { at: i as u32 });
    }
    if let Some(i) = first_group_fault(paragraph) {
        return Err(Refusal::IllGroup { at: i as u32 });
    }
    Ok(())
}

// The same. Where a paragraph is let through, the metrics of its records are filled. What is filled already stays in
// clauses: it is a fact of metrics that the scan changes, and of no one value (scan.rt).
fn check_records(
    paragraph: Paragraph<'_>,
    judged: Judged,
    metrics: &mut Metrics,
) -> Result<(), Refusal>
    requires filled_from { FilledFrom paragraph.words.now judged.known judged.kept metrics.old }
    requires front { Front paragraph.words.now judged.known judged.stop metrics.old }
    ensures kept { OnOk result (Kept paragraph.entry.words.now metrics.new) }
    ensures refused { IfErr result (λ e. Refused paragraph.entry.words.now e) }
{
    let scan = Scan {
        paragraph,
        known: judged.known,
    };
    match scan.fill_metrics(judged.stop, judged.kept, metrics) {
        Ok(()) => Ok(()),
        // something is wrong: the first of it is looked for
        Err(_) => first_fault(paragraph),
    }
}

/// Whether a paragraph breaks into lines, and into how many. Then the metrics of its records are filled, and the first
/// record of each line stands in `starts`. It is refused by answers 8, 12, 9 and 10, in this order.
pub fn check(
    paragraph: Paragraph<'_>,
    measure: Measure,
    metrics: &mut Metrics,
    starts: &mut [u32; MOST_RECORDS],
) -> Result<usize, Refusal>
    ensures answer { outcome paragraph.entry.words.now measure ≡ answer_from result }
    ensures started { IfOk result (λ lines. Starts paragraph.entry.words.now measure starts.new lines) }
    ensures kept { OnOk result (Kept paragraph.entry.words.now metrics.new) }
{
    let unread = Judged {
        known: 0,
        stop: 0,
        kept: paragraph.len(),
    };
    check_records(paragraph, unread, metrics)?;
    Scanned { paragraph, metrics }.break_lines(measure, starts)
}

/// Composes a paragraph of which some is known already, and says how many lines it has. Then its place words and line
/// words stand at the front of the composition. It is refused by answers 8, 12, 9 and 10, in this order.
pub fn compose(
    paragraph: Paragraph<'_>,
    judged: Judged,
    measure: Measure,
    metrics: &mut Metrics,
    composition: &mut Composition,
) -> Result<usize, Refusal>
    requires filled_from { FilledFrom paragraph.words.now judged.known judged.kept metrics.old }
    requires front { Front paragraph.words.now judged.known judged.stop metrics.old }
    ensures answer { outcome paragraph.entry.words.now measure ≡ answer_from result }
    ensures written { IfOk result (λ count. Written paragraph.entry.words.now
        measure.measure measure.indent
        composition.old.places composition.old.lines composition.new.places composition.new.lines count) }
{
    check_records(paragraph, judged, metrics)?;
    Scanned { paragraph, metrics }.compose_lines(measure, composition)
}

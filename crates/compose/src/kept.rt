// The metrics that an edit keeps: those of the records after it, moved.
ghost use Rattle.std.specs.Prelude.{◌+◌, ◌≤◌};
ghost use Rattle.compose.specs.Paragraph.{record_count};
ghost use Rattle.compose.specs.Kept.{UnitFrom, MetricsMoved, ToKeep, KeptFrom};

use crate::checks::same_group;
use crate::metrics::Metrics;
use crate::paragraph::Paragraph;
use rules::layout::MOST_RECORDS;

// The first record from record `a` on with which a unit starts, whatever stands before record `a`; the record count
// where none does, since what is kept begins there (`UnitFrom`).
fn unit_from(paragraph: Paragraph<'_>, a: usize) -> usize
    requires { a ≤ record_count paragraph.words.now }
    ensures { UnitFrom paragraph.entry.words.now a result }
{
    let n = paragraph.len();
    for i in a..n {
        let first = paragraph.record_at(a);
        let r = paragraph.record_at(i);
        if !same_group(first.group, r.group) {
            return i;
        }
    }
    n
}

// Moves the metrics of `count` records from record `source` on to record `target`.
fn move_metrics(source: usize, target: usize, count: usize, metrics: &mut Metrics)
    requires source_in { source + count ≤ MOST_RECORDS }
    requires target_in { target + count ≤ MOST_RECORDS }
    ensures { MetricsMoved source target count metrics.old metrics.new }
{
    // an edit that puts as many records in as it takes out leaves them where they are
    if source == target {
        return;
    }
    metrics.advances.copy_within(source..source + count, target);
    metrics.gaps.copy_within(source..source + count, target);
    metrics.offsets.copy_within(source..source + count, target);
}

/// Moves the metrics of an old paragraph that a new one keeps, where its records from record `source` on are the new
/// one's from record `target` on. From the record that is answered on the new paragraph's metrics are filled.
pub fn keep_metrics(
    paragraph: Paragraph<'_>,
    source: usize,
    target: usize,
    metrics: &mut Metrics,
) -> usize
    requires { ToKeep paragraph.words.now source target }
    ensures { KeptFrom paragraph.entry.words.now source target metrics.old metrics.new result }
{
    let first = unit_from(paragraph, source);
    let kept = target + (first - source);
    move_metrics(first, kept, paragraph.len() - first, metrics);
    kept
}

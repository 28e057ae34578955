// How many lines an edit composes anew. Lines are told by their first records: the old ones in `starts`, one after
// another, the new ones in line words, three to a line.
ghost use Rattle.std.specs.Prelude.{◌+◌, ◌/◌, ◌≤◌, length};
ghost use Rattle.rules.specs.Layout.{most_records, line_length};
ghost use Rattle.slot.specs.Redone.{FirstFrom, StartsWith, FirstRedone, Countable, Reported};

use crate::stretch::Stretch;
use rules::layout::LINE_WORDS;

// The first line from line `from` on that starts with record `first` or a later one, or how many lines there are. No
// `Option`: where none does, the next search begins there (`FirstFrom`). No `partition_point`, though the lines ascend:
// the next search goes on where this one ended, so that all are gone through once.
fn line_from(starts: &[u32], from: usize, first: usize) -> usize
    ensures { FirstFrom starts.now from first result }
{
    for j in from..starts.len() {
        if first <= starts[j] as usize {
            return j;
        }
    }
    from.max(starts.len())
}

// f: the line before the one that holds the place, or 0.
#[tactic(auto, using(crate::proofs::RedoneReport::redone_from))]
fn first_redone(starts: &[u32], place: usize) -> usize
    requires { place ≤ most_records }
    ensures { FirstRedone starts.now place result }
{
    line_from(starts, 1, place + 1).saturating_sub(2)
}

// Whether line k is there and starts with record `first`.
fn starts_with(starts: &[u32], k: usize, first: usize) -> bool
    ensures { StartsWith starts.now k first result }
{
    k < starts.len() && starts[k] as usize == first
}

// The report: how many lines there are from f on, up to the first at which an old line stands again. Both lists of
// first records ascend, so old lines are gone through once.
pub(crate) fn lines_redone(starts: &[u32], lines: &[u32], stretch: Stretch) -> usize
    requires { Countable (length starts.now) (length lines.now / line_length) stretch }
    ensures few { result ≤ most_records }
    ensures report { Reported starts.now lines.now stretch result }
{
    let f = first_redone(starts, stretch.place);
    let line_count = lines.len() / LINE_WORDS;
    let mut k = 1;
    for j in f..line_count {
        let first = lines[LINE_WORDS * j] as usize;
        if stretch.place + stretch.inserted <= first {
            let was = first - stretch.inserted + stretch.deleted;
            k = line_from(starts, k, was);
            if 1 <= j && starts_with(starts, k, was) {
                return j - f;
            }
        }
    }
    line_count.saturating_sub(f)
}

// Answer 10, and the breaking: from the left, line by line, with each line's sums.
ghost use Rattle.std.specs.Prelude.{◌≡◌, ◌+◌, ◌<◌, IfSome, IfNone, IfOk, IfErr};
ghost use Rattle.compose.specs.HeldOnce.{held_prop};
ghost use Rattle.compose.specs.Metrics.{MetricsFrom};
ghost use Rattle.compose.specs.LineFrom.{LineDue, NoLine, LineFrom, IsTooWide, BrokenTo};

use crate::metrics::Metrics;
use crate::paragraph::Paragraph;
use rules::layout::MOST_RECORDS;
use rules::{Measure, PackedGap, Refusal};

// A paragraph that a scan has let pass: the metrics of its records are filled. No Debug, as `Metrics` has none.
#[derive(Clone, Copy)]
pub(crate) struct Scanned<'a> {
    pub paragraph: Paragraph<'a>,
    pub metrics: &'a Metrics,
    pub ghost filled: { MetricsFrom paragraph.words.now metrics.now 0 } by { held_prop _ _ },
}

// Where a line starts: its number, its first record and its x.
#[derive(Clone, Copy, Debug, PartialEq, Eq)]
pub(crate) struct LineStart {
    pub number: usize,
    pub first: usize,
    pub x: u32,
}

impl LineStart {
    // Line 0 starts at the indent.
    pub fn of_paragraph(measure: Measure) -> LineStart
        ensures { result ≡ record { number = 0; first = 0; x = measure.indent } }
    {
        LineStart {
            number: 0,
            first: 0,
            x: measure.indent,
        }
    }

    // The next line starts with record `first`, at 0.
    pub fn next(self, first: usize) -> LineStart
        requires { self.number < MOST_RECORDS }
        ensures { result ≡ record { number = self.number + 1; first = first; x = 0 } }
    {
        LineStart {
            number: self.number + 1,
            first,
            x: 0,
        }
    }
}

// A line that starts with some record: the record after it, where its units would end if they stood solid, and what
// its gaps add up to, in one word.
#[derive(Clone, Copy, Debug, PartialEq, Eq)]
pub(crate) struct LineSums {
    pub end: usize,
    pub solid: u32,
    pub gaps: PackedGap,
}

impl Scanned<'_> {
    // The longest line that fits the measure and starts there. The search goes from record to record and ends as soon
    // as the measure is passed.
    pub fn longest_line(self, start: LineStart, measure: u32) -> Option<LineSums>
        requires { LineDue self.paragraph.words.now self.metrics.now start.first measure start.x }
        ensures none_fits { IfNone result (NoLine self.entry.paragraph.words.now start.first measure start.x) }
        ensures line { IfSome result (λ line.
            LineFrom self.entry.paragraph.words.now start.first measure start.x line) }
    {
        let metrics = self.metrics;
        let mut line = None;
        let mut solid = start.x;
        let mut total = PackedGap::NONE;
        'search: for k in start.first..self.paragraph.len() {
            let word = metrics.advances[k];
            solid += word / 2;
            if measure < solid + total.least() {
                break 'search;
            }
            if word % 2 == 0 {
                line = Some(LineSums {
                    end: k + 1,
                    solid,
                    gaps: total,
                });
            }
            total = total.plus(metrics.gaps[k]);
        }
        line
    }

    // Writes the first record of each line, and says how many lines there are. It and `compose_lines` are two loops
    // over one search: of a closure that is told each line the check knows nothing of what it wrote. An array and a
    // count, since the library has no heap.
    pub fn break_lines(
        self,
        measure: Measure,
        starts: &mut [u32; MOST_RECORDS],
    ) -> Result<usize, Refusal>
        ensures too_wide { IfErr result (λ e. IsTooWide self.entry.paragraph.words.now measure e) }
        ensures broken { IfOk result (λ lines.
            BrokenTo self.entry.paragraph.words.now measure.measure measure.indent starts.new lines) }
    {
        let n = self.paragraph.len();
        let mut start = LineStart::of_paragraph(measure);
        // no `for`: a step is as long as the line that it finds
        while start.first < n {
            starts[start.number] = start.first as u32;
            let Some(line) = self.longest_line(start, measure.measure) else {
                return Err(Refusal::TooWide {
                    at: start.first as u32,
                });
            };
            start = start.next(line.end);
        }
        Ok(start.number)
    }
}

// The words of each line and of the places of its records.
ghost use Rattle.std.specs.Prelude.{◌≡◌, ◌*◌, ◌-◌, ◌<◌, IfOk, IfErr};
ghost use Rattle.std.proofs.Math.Seq.{paste};
ghost use Rattle.rules.specs.Layout.{place_length, places_length, lines_length};
ghost use Rattle.rules.specs.Basics.{zeros};
ghost use Rattle.compose.specs.LineFrom.{IsTooWide};
ghost use Rattle.compose.specs.Places.{LineToPlace, line_places, LineToCompose, LineComposed, ComposedTo};

use crate::adjustment::Adjustment;
use crate::breaking::{LineStart, LineSums, Scanned};
use rules::layout::{LINE_WORDS, LINES_WORDS, MOST_RECORDS, PLACE_WORDS, PLACES_WORDS};
use rules::{Measure, PackedGap, Refusal, put};

/// The words that a composed paragraph leaves: of its records' places, and of its lines.
#[derive(Drop)]
pub struct Composition {
    pub places: [u32; PLACES_WORDS],
    pub lines: [u32; LINES_WORDS],
}

impl Composition {
    /// Room for 256 records and 256 lines, all zeros.
    #[tactic(auto, unfolding(rules::specs::Basics::zeros))]
    pub fn new() -> Composition
        ensures places { result.places ≡ zeros places_length }
        ensures lines { result.lines ≡ zeros lines_length }
    {
        Composition {
            places: [0; PLACES_WORDS],
            lines: [0; LINES_WORDS],
        }
    }
}

impl Scanned<'_> {
    // Writes the places of the records from the start of a line up to `end`.
    fn place_line(self, start: LineStart, end: usize, adjustment: Adjustment, places: &mut [u32])
        requires line { LineToPlace self.paragraph.words.now self.metrics.now start.first end start.x adjustment
            places.old }
        requires few { start.number < MOST_RECORDS }
        ensures { places.new ≡ paste places.old (place_length * start.first)
            (line_places self.entry.paragraph.words.now start.first end start.number start.x adjustment)
            (place_length * (end - start.first)) }
    {
        let metrics = self.metrics;
        // where the units before would end if they stood solid, and what the gaps up to here add up to
        let mut solid = start.x;
        let mut sums = PackedGap::NONE;
        for k in start.first..end {
            let at = adjustment.place_at(solid, sums);
            put(
                places,
                PLACE_WORDS * k,
                [at + metrics.offsets[k], start.number as u32],
            );
            solid += metrics.advances[k] / 2;
            sums = sums.plus(metrics.gaps[k]);
        }
    }

    // Composes a line: its places, and first record, end x and kind.
    fn compose_line(
        self,
        start: LineStart,
        line: LineSums,
        measure: u32,
        composition: &mut Composition,
    )
        requires { LineToCompose self.paragraph.words.now self.metrics.now start.first start.number measure start.x line
            composition.old.places composition.old.lines }
        ensures { LineComposed self.entry.paragraph.words.now start.first line.end start.number measure start.x
            composition.old.places composition.old.lines
            composition.new.places composition.new.lines }
    {
        let last = line.end == self.paragraph.len();
        let adjustment = Adjustment::new(measure, line.solid, line.gaps.unpack(), last);
        self.place_line(start, line.end, adjustment, &mut composition.places);
        let end = adjustment.place_at(line.solid, line.gaps);
        put(
            &mut composition.lines,
            LINE_WORDS * start.number,
            [start.first as u32, end, adjustment.kind.number()],
        );
    }

    // Breaks a paragraph into lines and composes them: writes the places of its records and the words of its lines,
    // and says how many lines it has.
    pub fn compose_lines(
        self,
        measure: Measure,
        composition: &mut Composition,
    ) -> Result<usize, Refusal>
        ensures too_wide { IfErr result (λ e. IsTooWide self.entry.paragraph.words.now measure e) }
        ensures composed { IfOk result (λ count. ComposedTo self.entry.paragraph.words.now
            measure.measure measure.indent composition.old.places composition.old.lines
            composition.new.places composition.new.lines count) }
    {
        let n = self.paragraph.len();
        let mut start = LineStart::of_paragraph(measure);
        // no `for`: a step is as long as the line that it finds
        while start.first < n {
            let Some(line) = self.longest_line(start, measure.measure) else {
                return Err(Refusal::TooWide {
                    at: start.first as u32,
                });
            };
            let end = line.end;
            self.compose_line(start, line, measure.measure, composition);
            start = start.next(end);
        }
        Ok(start.number)
    }
}

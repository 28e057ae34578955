// The metrics of a paragraph's records, and those of a unit written.
ghost use Rattle.std.specs.Prelude.{◌≡◌, ◌≤◌, ◌<◌, replicate};
ghost use Rattle.rules.specs.Layout.{most_records};
ghost use Rattle.rules.specs.Gaps.{no_gaps};
ghost use Rattle.rules.specs.Limits.{largest_advance};
ghost use Rattle.compose.specs.Metrics.{Stored};
ghost use Rattle.compose.specs.Scan.{UnitToFill, UnitStored};

use crate::paragraph::Paragraph;
use crate::units::UnitSums;
use rules::layout::MOST_RECORDS;
use rules::{Joint, PackedGap, base_offset, group_advance};

/// The metrics of a paragraph's records, one array of each: twice a record's advance, with 1 added where no line ends
/// after it; the gap after it, in one word; and its offset in its unit's base row. A unit's advance and gap stand at
/// its last record, and 0 at the others.
// Three arrays: as an array of a struct for each record the loops took an eighth more, 775 ns in place of 690. An
// advance and whether a line may end after it are one word, as `MetricsAre` has them.
#[derive(Drop)]
pub struct Metrics {
    pub advances: [u32; MOST_RECORDS],
    pub gaps: [PackedGap; MOST_RECORDS],
    pub offsets: [u32; MOST_RECORDS],
}

impl Metrics {
    /// Room for the metrics of 256 records; none are filled yet.
    pub fn new() -> Metrics
        ensures advances { result.advances ≡ replicate most_records 0 }
        ensures gaps { result.gaps ≡ replicate most_records no_gaps }
        ensures offsets { result.offsets ≡ replicate most_records 0 }
    {
        Metrics {
            advances: [0; MOST_RECORDS],
            gaps: [PackedGap::NONE; MOST_RECORDS],
            offsets: [0; MOST_RECORDS],
        }
    }

    // Writes the metrics of record `i`; `joint` is what stands after it.
    pub(crate) fn put(&mut self, i: usize, advance: u32, joint: Joint, offset: u32)
        requires inside { i < MOST_RECORDS }
        requires small { advance ≤ largest_advance }
        ensures { Stored i advance joint.forbidden joint.gap offset self.old self.new }
    {
        self.advances[i] = 2 * advance + u32::from(joint.forbidden);
        self.gaps[i] = joint.gap;
        self.offsets[i] = offset;
    }
}

// Writes the metrics of the unit of the records from `unit.first` up to `end`; `joint` is what stands after it.
pub(crate) fn put_unit(
    paragraph: Paragraph<'_>,
    unit: UnitSums,
    end: usize,
    joint: Joint,
    metrics: &mut Metrics,
)
    requires { UnitToFill paragraph.words.now unit.first end unit.base joint.gap joint.forbidden metrics.old }
    ensures { UnitStored paragraph.entry.words.now unit.first metrics.old metrics.new }
{
    let r = paragraph.record_at(unit.first);
    let records = (end - unit.first) as u32;
    let mut solid: u32 = 0;
    for k in 0..records - 1 {
        let i = unit.first + k as usize;
        let offset = base_offset(unit.base, r.ruby, r.size, records, k, solid);
        // no line ends inside a unit
        let inside = Joint {
            gap: PackedGap::NONE,
            forbidden: true,
        };
        metrics.put(i, 0, inside, offset);
        solid += paragraph.record_at(i).advance;
    }
    let advance = group_advance(unit.base, r.ruby, r.size);
    let offset = base_offset(unit.base, r.ruby, r.size, records, records - 1, solid);
    metrics.put(end - 1, advance, joint, offset);
}

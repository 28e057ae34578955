// A paragraph's records.
ghost use Rattle.std.specs.Prelude.{◌≡◌, ◌≤◌, ◌<◌};
ghost use Rattle.rules.specs.Layout.{most_records};
ghost use Rattle.rules.specs.Records.{rec_at};
ghost use Rattle.rules.specs.Sides.{side_by};
ghost use Rattle.rules.specs.Structs.{record_of, side_of};
ghost use Rattle.compose.specs.Paragraph.{record_count};

use rules::layout::RECORD_WORDS;
use rules::{Joint, PackedGap, Record, Side, joint_between};

/// A paragraph of at most 256 records, by its record words: six to a record.
#[derive(Clone, Copy, Debug)]
pub struct Paragraph<'a> {
    pub words: &'a [u32],
    ghost few: { record_count words.now ≤ most_records },
}

impl<'a> Paragraph<'a> {
    ghost use Rattle.compose.specs.Scan.{JointDue, JointAfter};

    // How many records there are.
    pub(crate) fn len(self) -> usize
        ensures { result ≡ record_count self.entry.words.now }
    {
        self.words.len() / RECORD_WORDS
    }

    // Record `i`.
    pub(crate) fn record_at(self, i: usize) -> Record
        requires { i < record_count self.words.now }
        ensures { record_of result ≡ rec_at self.entry.words.now i }
    {
        Record::at(self.words, i)
    }

    // What the neighbours of a unit that starts with record `i` see of it.
    pub(crate) fn side_at(self, i: usize) -> Side
        requires { i < record_count self.words.now }
        ensures { side_of result ≡ side_by (rec_at self.entry.words.now i) }
    {
        Side::from(self.record_at(i))
    }

    // What stands between the unit that starts with record `first` and the one that starts with record `i`; nothing,
    // where no unit follows.
    pub(crate) fn joint_after(self, first: usize, i: usize) -> Joint
        requires { JointDue self.words.now first i }
        ensures { JointAfter self.entry.words.now first i result.gap result.forbidden }
    {
        if i < self.len() {
            joint_between(self.side_at(first), self.side_at(i))
        } else {
            Joint {
                gap: PackedGap::NONE,
                forbidden: false,
            }
        }
    }
}

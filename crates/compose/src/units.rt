// The units of a paragraph, from its end: the one that ends before a record, judged by answers 8, 12 and 9.
ghost use Rattle.std.specs.Prelude.{◌≡◌, ◌<◌, ◌↔◌, IsTrue, IfOk, OnErr};
ghost use Rattle.rules.specs.Records.{rec_at};
ghost use Rattle.rules.specs.Structs.{record_of};
ghost use Rattle.compose.specs.Paragraph.{record_count, Checked};
ghost use Rattle.compose.specs.Scan.{Fine, Scanning, UnitBefore};

use crate::checks::{alike, is_fine, same_group};
use crate::scan::Scan;
use rules::Record;
use rules::limits::MOST_GROUPED;

// A record was met to which answer 8, 12 or 9 applies. Which of them, and where, `first_fault` says.
#[derive(Clone, Copy, Debug, PartialEq, Eq)]
pub(crate) struct Faulty;

// A unit by its first record and its base total.
#[derive(Clone, Copy, Debug, PartialEq, Eq)]
pub(crate) struct UnitSums {
    pub first: usize,
    pub base: u32,
}

impl Scan<'_> {
    // Whether answers 8 and 12 do not apply to record `i`, which is `r`. Inlined: for a call the scan lays down each
    // record that it reads, and an edit of 256 records in groups took 6.6 us in place of 5.8.
    #[inline(always)]
    fn passes(self, i: usize, r: Record) -> bool
        requires within { i < record_count self.paragraph.words.now }
        requires here { record_of r ≡ rec_at self.paragraph.words.now i }
        ensures { IsTrue result ↔ Fine (record_of r) }
    {
        i < self.known || is_fine(r)
    }

    // The unit that ends before record `i`.
    pub fn unit_before(self, i: usize) -> Result<UnitSums, Faulty>
        requires { Scanning self.paragraph.words.now self.known i × (0 < i) }
        ensures unit { IfOk result (λ u. UnitBefore self.entry.paragraph.words.now self.entry.known i u) }
        ensures ill { OnErr result (¬ (Checked self.entry.paragraph.words.now)) }
    {
        let mut first = i;
        let mut base: u32 = 0;
        // no `for`: the walk always ends inside, at record 0 too, and nothing stands for what would come after
        loop {
            first -= 1;
            let r = self.paragraph.record_at(first);
            if !self.passes(first, r) {
                return Err(Faulty);
            }
            base += r.advance;
            if first == 0 {
                return Ok(UnitSums { first, base });
            }
            let p = self.paragraph.record_at(first - 1);
            if !same_group(p.group, r.group) {
                return Ok(UnitSums { first, base });
            }
            if !alike(p, r) {
                return Err(Faulty);
            }
            // a seventeenth record
            if MOST_GROUPED <= i - first {
                return Err(Faulty);
            }
        }
    }
}

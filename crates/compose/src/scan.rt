// The scan that fills the metrics of a paragraph's records from its end, and asks answers 8, 12 and 9 on its way.
ghost use Rattle.std.specs.Prelude.{◌≡◌, ◌+◌, ◌<◌, ◌≤◌, true, false, IfOk, OnOk, OnErr};
ghost use Rattle.rules.specs.Records.{rec_at};
ghost use Rattle.rules.specs.Structs.{record_of};
ghost use Rattle.compose.specs.Paragraph.{record_count, Checked};
ghost use Rattle.compose.specs.Scan.{KnownFine};

use crate::metrics::{Metrics, put_unit};
use crate::paragraph::Paragraph;
use crate::units::Faulty;
use lists::in_list;
use rules::{Record, plain_ok};

/// What is known of a paragraph before it is judged.
#[derive(Clone, Copy, Debug, PartialEq, Eq)]
pub struct Judged {
    /// The records before this one keep their own rules and are listed.
    pub known: usize,
    /// The metrics before the unit that this record is in are filled.
    pub stop: usize,
    /// The metrics from this record on are filled.
    pub kept: usize,
}

// A scan of a paragraph, of whose records those before `known` are known to keep their own rules and to be listed. That
// metrics are filled stays in the contracts: they are filled under the scan, so it is no invariant of one value.
#[derive(Clone, Copy, Debug)]
pub(crate) struct Scan<'a> {
    pub paragraph: Paragraph<'a>,
    pub known: usize,
    pub ghost fine: { KnownFine paragraph.words.now known },
}

impl Scan<'_> {
    ghost use Rattle.compose.specs.Scan.{Lone, FilledFrom, Filled, Reached};

    // Whether record `i`, which is `r`, is of no group, and answers 8 and 12 do not apply to it.
    fn is_lone(self, i: usize, r: Record) -> bool
        requires within { i < record_count self.paragraph.words.now }
        requires here { record_of r ≡ rec_at self.paragraph.words.now i }
        ensures { result ≡ true → Lone (record_of r) }
    {
        r.group == 0 && (i < self.known || in_list(r.class, r.code) && plain_ok(r))
    }

    // Fills the metrics of record `i`, from the next one on filled already, where `is_lone` takes it, and says whether
    // it does. Most records come this way: no group, so no ruby and no offset.
    fn fill_lone(self, i: usize, metrics: &mut Metrics) -> bool
        requires { FilledFrom self.paragraph.words.now self.known (i + 1) metrics.old }
        ensures filled { result ≡ true →
            Filled self.entry.paragraph.words.now self.entry.known (i + 1) metrics.old metrics.new i }
        ensures untouched { result ≡ false → metrics.new ≡ metrics.old }
    {
        let r = self.paragraph.record_at(i);
        if !self.is_lone(i, r) {
            return false;
        }
        let joint = self.paragraph.joint_after(i, i + 1);
        metrics.put(i, r.advance, joint, 0);
        true
    }

    // Fills metrics before record `end` as far as records come that `fill_lone` takes, down to record `stop`, and gives
    // the first record whose metrics are filled. A loop of its own, so that what groups need is kept out of it.
    fn fill_lones(self, stop: usize, end: usize, metrics: &mut Metrics) -> usize
        requires filled { FilledFrom self.paragraph.words.now self.known end metrics.old }
        requires order { stop ≤ end }
        ensures { Filled self.entry.paragraph.words.now self.entry.known end metrics.old metrics.new result }
    {
        for i in (stop..end).rev() {
            if !self.fill_lone(i, metrics) {
                return i + 1;
            }
        }
        stop
    }

    // Fills the metrics of the unit that ends before record `i`, and gives its first record.
    fn fill_unit(self, i: usize, metrics: &mut Metrics) -> Result<usize, Faulty>
        requires { FilledFrom self.paragraph.words.now self.known i metrics.old × (0 < i) }
        ensures before { IfOk result (λ first. first < i) }
        ensures filled { IfOk result (λ first.
            Filled self.entry.paragraph.words.now self.entry.known i metrics.old metrics.new first) }
        ensures ill { OnErr result (¬ (Checked self.entry.paragraph.words.now)) }
    {
        let unit = self.unit_before(i)?;
        let joint = self.paragraph.joint_after(unit.first, i);
        put_unit(self.paragraph, unit, i, joint, metrics);
        Ok(unit.first)
    }

    // Fills metrics before record `kept` down to the unit that record `stop` is in, and asks answers 8, 12 and 9 of the
    // records whose metrics it fills.
    pub fn fill_metrics(self, stop: usize, kept: usize, metrics: &mut Metrics) -> Result<(), Faulty>
        requires { FilledFrom self.paragraph.words.now self.known kept metrics.old }
        ensures reached { OnOk result
            (Reached self.entry.paragraph.words.now self.entry.known stop metrics.old metrics.new) }
        ensures ill { OnErr result (¬ (Checked self.entry.paragraph.words.now)) }
    {
        let mut i = kept;
        // no `for`: a step is as long as the units that it finds
        while stop < i {
            i = self.fill_lones(stop, i, metrics);
            if stop < i {
                i = self.fill_unit(i, metrics)?;
            }
        }
        Ok(())
    }
}

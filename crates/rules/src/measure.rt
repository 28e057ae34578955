// "The sheet": the limits of a slot's numbers.
ghost use Rattle.std.specs.Prelude.{◌≡◌, ◌≤◌, IfSome, is_some};
ghost use Rattle.rules.specs.Limits.{largest_measure};
ghost use Rattle.rules.specs.Sheet.{setting, limits_ok, slot_limits_ok};

use crate::limits::{HIGHEST_CLINIC, LARGEST_MEASURE, LEAST_MEASURE};

/// How wide a paragraph's lines may be, and where its first line starts: either at most 1,000,000.
#[derive(Clone, Copy, Debug, PartialEq, Eq)]
pub struct Measure {
    pub measure: u32,
    pub indent: u32,
    pub ghost within: { (measure ≤ largest_measure) × (indent ≤ largest_measure) },
}

impl Measure {
    /// A slot's: from 8 to 1,000,000, and its first line starts below that; else `None`.
    pub fn new(measure: u32, indent: u32) -> Option<Measure>
        ensures limits { is_some result ≡ limits_ok measure indent }
        ensures value { IfSome result (λ m. (m.measure ≡ measure) × (m.indent ≡ indent)) }
    {
        if limits_ok(measure, indent) {
            Some(Measure { measure, indent })
        } else {
            None
        }
    }
}

// The numbers stay apart in both that follow: docs/CLAIMS.md names them, and a set-up has its numbers from C, in lists.

/// Whether a measure is from 8 to 1,000,000 and an indent below it.
pub fn limits_ok(measure: u32, indent: u32) -> bool
    ensures { result ≡ limits_ok measure indent }
{
    // the indent first: the other way round a set-up of 64 slots that is refused took 109 ns in place of 88
    indent < measure && (LEAST_MEASURE..=LARGEST_MEASURE).contains(&measure)
}

/// Whether a slot may have these numbers: a clinic of at most 65,535, and a measure and an indent within their limits.
pub fn slot_limits_ok(clinic: u32, measure: u32, indent: u32) -> bool
    ensures { result ≡ slot_limits_ok (setting clinic measure indent) }
{
    clinic <= HIGHEST_CLINIC && limits_ok(measure, indent)
}

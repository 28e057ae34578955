// The adjustment of a line: the amounts of its stages, and what of them the gaps up to one have taken.
ghost use Rattle.std.specs.Prelude.{◌≡◌, cond, ◌+◌, ◌*◌, ◌-◌, ◌/◌, ◌≤◌};
ghost use Rattle.rules.specs.Adjustment.{amounts, kind_of};
ghost use Rattle.rules.specs.Structs.{gap_from};
ghost use Rattle.rules.specs.Numbers.{line_kind};
ghost use Rattle.compose.specs.Limits.{largest_amount, largest_capacity};
ghost use Rattle.compose.specs.Rates.{amounts_from, rate_of, RateBounds, RatesOf, place_by, Placeable};

use rules::{Gap, LineKind, PackedGap};

// A number for each stage: the amounts of a line, or what of them the gaps up to one have taken.
#[derive(Clone, Copy, Debug, PartialEq, Eq)]
pub(crate) struct Stages {
    pub shrink1: u32,
    pub shrink2: u32,
    pub stretch1: u32,
    pub stretch2: u32,
}

// A line shrinks or stretches, never both: what each unit of capacity takes of its amounts at the first and at the
// second stage, in parts.
#[derive(Clone, Copy, Debug, PartialEq, Eq)]
pub(crate) enum Adjusting {
    Shrink { first: u64, second: u64 },
    Stretch { first: u64, second: u64 },
}

// The amounts of a line, the capacities that its gaps add up to, its rates and its kind.
#[derive(Clone, Copy, Debug, PartialEq, Eq)]
pub(crate) struct Adjustment {
    pub amounts: Stages,
    pub capacities: Gap,
    pub adjusting: Adjusting,
    pub kind: LineKind,
    pub ghost bounds: { RateBounds (amounts_from amounts) (gap_from capacities) },
    pub ghost rates: { RatesOf adjusting (amounts_from amounts) (gap_from capacities) },
}

// The parts that a rate is counted in: 2^43.
const PARTS: u64 = 1 << 43;

// The amounts of a line that ends at `natural` and is to end at `measure`.
fn line_amounts(measure: u32, natural: u32, last: bool, c: Gap) -> Stages
    ensures { amounts_from result ≡ amounts (natural - measure) (cond last 0 (measure - natural)) (gap_from c) }
{
    let shrink = natural.saturating_sub(measure);
    // the last line is not stretched
    let stretch = if last {
        0
    } else {
        measure.saturating_sub(natural)
    };
    let shrink1 = shrink.min(c.shrink1);
    let stretch1 = stretch.min(c.stretch1);
    Stages {
        shrink1,
        shrink2: shrink - shrink1,
        stretch1,
        stretch2: stretch - stretch1,
    }
}

// The rate of an amount `e` over a capacity `c`. With it a share needs no division of its own.
#[tactic(auto, unfolding(crate::specs::Rates::rate_of))]
fn rate(e: u32, c: u32) -> u64
    requires { e ≤ largest_amount }
    ensures { result ≡ rate_of e c }
{
    // most stages of a line take nothing
    if e == 0 || c == 0 {
        return 1;
    }
    u64::from(e) * PARTS / u64::from(c) + 1
}

// The rates of a line's amounts over what its gaps add up to.
fn line_rates(e: Stages, c: Gap) -> Adjusting
    requires { RateBounds (amounts_from e) (gap_from c) }
    ensures { RatesOf result (amounts_from e) (gap_from c) }
{
    if 0 < e.shrink1 + e.shrink2 {
        Adjusting::Shrink {
            first: rate(e.shrink1, c.shrink1),
            second: rate(e.shrink2, c.shrink2),
        }
    } else {
        Adjusting::Stretch {
            first: rate(e.stretch1, c.stretch1),
            second: rate(e.stretch2, c.stretch2),
        }
    }
}

#[tactic(auto, unfolding(rules::specs::Adjustment::kind_of))]
fn line_kind(last: bool, e: Stages, c: Gap) -> LineKind
    ensures { line_kind result ≡ kind_of last (amounts_from e) (gap_from c) }
{
    if last {
        LineKind::Final
    } else if 0 < e.stretch2 && c.stretch2 == 0 {
        LineKind::Short
    } else {
        LineKind::Flush
    }
}

// floor(e·s/c), and 0 where c is 0, by the rate.
fn cumulative_share(rate: u64, e: u32, c: u32, s: u32) -> u32
    requires { (rate ≡ rate_of e c) × (e ≤ largest_amount) × (s ≤ c) × (c ≤ largest_capacity) }
    ensures { result ≡ e * s / c }
{
    (rate * u64::from(s) / PARTS) as u32
}

impl Adjustment {
    ghost use Rattle.compose.specs.Adjusted.{Adjustable, Adjusted};

    // The adjustment of a line whose units end at `solid`, where they stand solid, to the measure. `last` is a flag in
    // the rules too (`kind_of`): an enum of two would say no more.
    pub fn new(measure: u32, solid: u32, capacities: Gap, last: bool) -> Adjustment
        requires { Adjustable measure solid (gap_from capacities) last }
        ensures { Adjusted measure solid (gap_from capacities) last result }
    {
        let amounts = line_amounts(measure, solid + capacities.space, last, capacities);
        Adjustment {
            amounts,
            capacities,
            adjusting: line_rates(amounts, capacities),
            kind: line_kind(last, amounts, capacities),
        }
    }

    // Where the unit after units that end at `solid`, where they stand solid, and gaps that add up to `sums` starts.
    pub fn place_at(self, solid: u32, sums: PackedGap) -> u32
        requires { Placeable (gap_from self.capacities) solid sums }
        ensures { result ≡ place_by (amounts_from self.amounts) (gap_from self.capacities) solid sums }
    {
        let e = self.amounts;
        let c = self.capacities;
        let s = sums.unpack();
        match self.adjusting {
            Adjusting::Shrink { first, second } => {
                let first = cumulative_share(first, e.shrink1, c.shrink1, s.shrink1);
                let second = cumulative_share(second, e.shrink2, c.shrink2, s.shrink2);
                solid + (s.space - first - second)
            }
            Adjusting::Stretch { first, second } => {
                let first = cumulative_share(first, e.stretch1, c.stretch1, s.stretch1);
                let second = cumulative_share(second, e.stretch2, c.stretch2, s.stretch2);
                solid + s.space + first + second
            }
        }
    }
}

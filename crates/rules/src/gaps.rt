// "How far a gap gives way": gaps with what they give and take, each in one word.
ghost use Rattle.std.specs.Prelude.{◌≡◌, ◌*◌, ◌/◌, ◌≤◌};
ghost use Rattle.rules.specs.Limits.{largest_size};
ghost use Rattle.rules.specs.Sides.{forbidden};
ghost use Rattle.rules.specs.Gaps.{gap_of, plus, least};
ghost use Rattle.rules.specs.Tables.{part_word};
ghost use Rattle.rules.specs.Packed.{AtMost};
ghost use Rattle.rules.specs.Bounds.{SideOk};
ghost use Rattle.rules.specs.Structs.{side_of, gap_from};

use crate::breaks::break_forbidden;
use crate::groups::Side;
use crate::spacing::{OP, Part, cell_between};
use lists::Class;
use std::marker::Model;

/// The space between two units, and its capacity at each stage of adjustment; at the last its weight.
#[derive(Clone, Copy, Debug, PartialEq, Eq)]
pub struct Gap {
    pub space: u32,
    pub shrink1: u32,
    pub shrink2: u32,
    pub stretch1: u32,
    pub stretch2: u32,
}

/// A gap in one word, so that one addition sums its space and all its capacities: its least, then what shrink stage 1
/// and shrink stage 2 take, then its weight at stretch stage 2. Any word is a gap's; clauses see the gap.
#[derive(Clone, Copy, Debug, PartialEq, Eq)]
#[tactic(auto, using(crate::specs::Packed::packed_unpacked))]
pub struct PackedGap {
    pub word: u64,
}

impl Model for PackedGap {
    ghost use Rattle.rules.specs.Gaps.{Gap};
    ghost use Rattle.rules.specs.Packed.{packed, unpacked, packed_unpacked};
    ghost use Rattle.std.proofs.Common.{ap};

    ghost Value = { Gap };

    ghost view = { λ g. unpacked g.word };

    ghost inverse = { λ g. record { word = packed g } };

    ghost inverse_ok = { λ g _. ap (λ w. record { word = w }) (packed_unpacked g.word) };
}

// One of each of the last three; the field of a shrink stage holds numbers below STAGE.
const STAGE: u64 = 0x40000;

const SHRINK1: u64 = 0x100000;

const SHRINK2: u64 = SHRINK1 * STAGE;

const WEIGHT: u64 = SHRINK2 * STAGE;

impl PackedGap {
    /// No gap.
    pub const NONE: PackedGap = PackedGap { word: 0 };

    /// The least that the gap can be.
    #[tactic(auto, using(crate::proofs::Packed::least_unpacked))]
    pub fn least(self) -> u32
        ensures { result ≡ least self }
    {
        (self.word % SHRINK1) as u32
    }

    #[tactic(auto, unfolding(crate::specs::Packed::unpacked))]
    pub fn unpack(self) -> Gap
        ensures { gap_from result ≡ self }
    {
        let least = (self.word % SHRINK1) as u32;
        let shrink1 = (self.word / SHRINK1 % STAGE) as u32;
        let shrink2 = (self.word / SHRINK1 / STAGE % STAGE) as u32;
        Gap {
            space: least + shrink1 + shrink2,
            shrink1,
            shrink2,
            stretch1: 2 * shrink2,
            stretch2: (self.word / SHRINK1 / STAGE / STAGE) as u32,
        }
    }

    /// Both gaps added up, as many as 255 of them.
    #[tactic(auto, using(crate::proofs::Packed::unpacked_plus, crate::proofs::Packed::sum_fits))]
    pub fn plus(self, other: PackedGap) -> PackedGap
        requires { AtMost 255 (plus self other) }
        ensures { result ≡ plus self other }
    {
        PackedGap {
            word: self.word + other.word,
        }
    }
}

/// What stands between two units, and whether the break there is forbidden.
#[derive(Clone, Copy, Debug, PartialEq, Eq)]
pub struct Joint {
    pub gap: PackedGap,
    pub forbidden: bool,
}

impl Part {
    // What the part comes to of a size of 8, as a gap in one word.
    fn word(self) -> u64
        ensures { (result ≡ part_word self) × (result ≤ 549755813888) }
    {
        match self {
            Part::Nothing => 0,
            Part::Quarter => 2,
            Part::Half => 4,
            Part::Punctuation => 2 + 2 * SHRINK1,
            Part::JapaneseWestern => 1 + SHRINK2,
        }
    }

    // The part of a size: its word for each eighth.
    fn of(self, size: u32) -> u64
        requires { size ≤ largest_size }
        ensures { (result ≡ size / 8 * part_word self) × (result ≤ 274877906944000) }
    {
        u64::from(size / 8) * self.word()
    }
}

/// What stands between two units.
#[tactic(auto, using(crate::proofs::GapWords::joint_laws))]
pub fn joint_between(left: Side, right: Side) -> Joint
    requires { SideOk (side_of left) × SideOk (side_of right) }
    ensures gap { result.gap ≡ gap_of (side_of left) (side_of right) }
    ensures forbidden { result.forbidden ≡ forbidden (side_of left) (side_of right) }
{
    let cell = cell_between(left.class, right.class);
    // most gaps: nothing, the break permitted, and a middle dot on neither side
    if cell == OP {
        return Joint {
            gap: PackedGap { word: WEIGHT },
            forbidden: false,
        };
    }
    let forbidden = break_forbidden(cell.line_break, left, right);
    let word = cell.before.of(left.size) + cell.after.of(right.size);
    // no weight where the break is forbidden, as it always is before a middle dot, nor after a middle dot
    if forbidden || left.class == Class::MiddleDot as u32 {
        return Joint {
            gap: PackedGap { word },
            forbidden,
        };
    }
    Joint {
        gap: PackedGap {
            word: word + WEIGHT,
        },
        forbidden,
    }
}

// Why a call is refused.
ghost use Rattle.std.specs.Prelude.{◌≡◌};
ghost use Rattle.rules.specs.Numbers.{number_of, place_of, refusal_of};

use std::fmt;

/// Why a call is refused, with the place that it names.
#[derive(Clone, Copy, Debug, PartialEq, Eq)]
pub enum Refusal {
    /// The sheet has no slots of whole length, or a list of a set-up has another length than there are slots.
    NoSheet,
    NoSlot,
    NotTheCallers,
    /// The slot holds what no call leaves there.
    Damaged,
    /// The stretch passes the slot's last record, of `count`.
    PastTheEnd { count: u32 },
    /// The inserted words are not six to a record.
    NotWhole,
    /// More than 256 records.
    TooMany,
    /// Record `at` breaks its own rules.
    IllRecord { at: u32 },
    /// Record `at` breaks its group's rules.
    IllGroup { at: u32 },
    /// The run that starts with record `at` is wider than the measure.
    TooWide { at: u32 },
    /// The clinic, the measure or the indent of a slot is out of limits.
    OutOfLimits { slot: u32 },
    /// The list of record `at`'s class lacks its code point.
    NotListed { at: u32 },
    NoneFree,
    NotInUse,
}

impl Refusal {
    /// The number that callers are told.
    pub fn number(self) -> u32
        ensures { result ≡ number_of self }
    {
        match self {
            Refusal::NoSheet => 1,
            Refusal::NoSlot => 2,
            Refusal::NotTheCallers => 3,
            Refusal::Damaged => 4,
            Refusal::PastTheEnd { .. } => 5,
            Refusal::NotWhole => 6,
            Refusal::TooMany => 7,
            Refusal::IllRecord { .. } => 8,
            Refusal::IllGroup { .. } => 9,
            Refusal::TooWide { .. } => 10,
            Refusal::OutOfLimits { .. } => 11,
            Refusal::NotListed { .. } => 12,
            Refusal::NoneFree => 13,
            Refusal::NotInUse => 14,
        }
    }

    /// The place that goes with it: a record, a record count or a slot; 0 where the refusal names none, as C is told.
    pub fn place(self) -> u32
        ensures { result ≡ place_of self }
    {
        match self {
            Refusal::PastTheEnd { count } => count,
            Refusal::IllRecord { at }
            | Refusal::IllGroup { at }
            | Refusal::TooWide { at }
            | Refusal::NotListed { at } => at,
            Refusal::OutOfLimits { slot } => slot,
            _ => 0,
        }
    }

    /// The refusal that an answer tells; `None` where it tells none.
    pub fn told(number: u32, place: u32) -> Option<Refusal>
        ensures { result ≡ refusal_of number place }
    {
        Some(match number {
            1 => Refusal::NoSheet,
            2 => Refusal::NoSlot,
            3 => Refusal::NotTheCallers,
            4 => Refusal::Damaged,
            5 => Refusal::PastTheEnd { count: place },
            6 => Refusal::NotWhole,
            7 => Refusal::TooMany,
            8 => Refusal::IllRecord { at: place },
            9 => Refusal::IllGroup { at: place },
            10 => Refusal::TooWide { at: place },
            11 => Refusal::OutOfLimits { slot: place },
            12 => Refusal::NotListed { at: place },
            13 => Refusal::NoneFree,
            14 => Refusal::NotInUse,
            _ => return None,
        })
    }
}

impl fmt::Display for Refusal {
    fn fmt<W: fmt::Write>(&self, f: &mut fmt::Formatter<W>) -> fmt::Result {
        f.write_str(match self {
            Refusal::NoSheet => "the sheet or a list has a wrong length",
            Refusal::NoSlot => "there is no such slot",
            Refusal::NotTheCallers => "the slot is not this clinic's",
            Refusal::Damaged => "the slot is damaged",
            Refusal::PastTheEnd { .. } => "the stretch passes the slot's end",
            Refusal::NotWhole => "the inserted words are not whole records",
            Refusal::TooMany => "there would be more than 256 records",
            Refusal::IllRecord { .. } => "a record breaks its own rules",
            Refusal::IllGroup { .. } => "a record breaks its group's rules",
            Refusal::TooWide { .. } => "a run without a break is wider than the measure",
            Refusal::OutOfLimits { .. } => "a clinic, measure or indent is out of limits",
            Refusal::NotListed { .. } => "a character is not in the published list of its class",
            Refusal::NoneFree => "the clinic has no free slot",
            Refusal::NotInUse => "the slot is not in use; its clinic must take it first",
        })
    }
}

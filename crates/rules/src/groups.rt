// "Groups and units": what neighbours see of a unit, and where the characters of a group stand.
ghost use Rattle.std.specs.Prelude.{◌≡◌, ◌≤◌};
ghost use Rattle.rules.specs.Limits.{largest_size, most_ruby};
ghost use Rattle.rules.specs.Groups.{ruby_total, group_advance, shift as shift_of, base_offset, ruby_ok, ruby_place};
ghost use Rattle.rules.specs.Bounds.{ShiftBounds, OffsetBounds};
ghost use Rattle.rules.specs.Structs.{IsSideOf};
ghost use Rattle.rules.specs.Numbers.{ruby_answer_from, IsRubyPlaceOf};

use crate::limits::{LARGEST_BASE, MOST_RUBY};
use crate::records::{Record, size_ok};
use lists::Class;

/// What of a unit its neighbours see.
// Its class is a number, since a record's may be any and `From<Record>` cannot fail; that it is a class's stays a
// clause (`class_ok`). A `Class` would be no plainer: an `Option` for each side, and the table read by `number()`,
// which takes a jump.
#[derive(Clone, Copy, Debug, PartialEq, Eq)]
pub struct Side {
    pub class: u32,
    pub size: u32,
    pub code: u32,
}

/// The side of a unit by its first record: a group counts as class 19.
impl From<Record> for Side {
    ghost from_gives = { IsSideOf };

    #[tactic(auto, unfolding(crate::specs::Sides::side_by))]
    fn from(first: Record) -> Side {
        Side {
            class: if first.group == 0 {
                first.class
            } else {
                Class::Ideographic as u32
            },
            size: first.size,
            code: first.code,
        }
    }
}

/// The answer of ruby place, as C sees it: 0 and an offset, or 8 and 0.
// A number with a value beside it, since C has no `Option`; the program's own answer is one, `ruby_offset`.
#[repr(C)]
#[derive(Clone, Copy, Debug, PartialEq, Eq)]
pub struct RubyPlace {
    pub number: u32,
    pub offset: u32,
}

impl From<Option<u32>> for RubyPlace {
    ghost from_gives = { IsRubyPlaceOf };

    fn from(offset: Option<u32>) -> RubyPlace {
        match offset {
            Some(offset) => RubyPlace { number: 0, offset },
            None => RubyPlace {
                number: 8,
                offset: 0,
            },
        }
    }
}

// The width of a ruby row: its characters are half the size.
fn ruby_total(ruby: u32, size: u32) -> u32
    requires { (ruby ≤ most_ruby) × (size ≤ largest_size) }
    ensures { result ≡ ruby_total ruby size }
{
    ruby * (size / 2)
}

// A group's numbers stay apart in what follows: docs/CLAIMS.md names `group_advance` and `base_offset`, whose contracts
// ask no more of them than they do here, and ruby place has them from C.

/// The larger of base total and ruby total.
#[tactic(auto, unfolding(crate::specs::Groups::group_advance))]
pub fn group_advance(base: u32, ruby: u32, size: u32) -> u32
    requires { (ruby ≤ most_ruby) × (size ≤ largest_size) }
    ensures { result ≡ group_advance base ruby size }
{
    base.max(ruby_total(ruby, size))
}

// How far past its solid offset item `k` of `n` stands, in a row that is `d` shorter than the other.
#[tactic(auto, using(crate::proofs::Bounds::shift_laws), unfolding(crate::specs::Groups::shift))]
fn shift(d: u32, n: u32, k: u32) -> u32
    requires { ShiftBounds d n k }
    ensures { result ≡ shift_of d n k }
{
    // most units are single records without ruby, and a division costs
    if d == 0 {
        return 0;
    }
    if n == 1 {
        return d / 2;
    }
    d * k / (n - 1)
}

/// The offset of record `k` of `n` in the base row of a group.
#[tactic(auto, using(crate::proofs::Bounds::row_laws), unfolding(crate::specs::Groups::base_offset))]
pub fn base_offset(base: u32, ruby: u32, size: u32, n: u32, k: u32, solid: u32) -> u32
    requires { OffsetBounds ruby size n k solid }
    ensures { result ≡ base_offset base ruby size n k solid }
{
    solid + shift(ruby_total(ruby, size).saturating_sub(base), n, k)
}

// Whether ruby place's numbers are within their limits. By `&`: where they are asked in turn, by `&&`, a place that is
// refused for its base or for `k` takes 3.3 ns in place of 2.0.
fn ruby_ok(base: u32, count: u32, size: u32, k: u32) -> bool
    ensures { result ≡ ruby_ok base count size k }
{
    size_ok(size)
        & (1..=MOST_RUBY).contains(&count)
        & (k < count)
        & (1..=LARGEST_BASE).contains(&base)
}

// The offset of ruby character `k` from the start of its group; `None` where a number is out of its limits.
#[tactic(auto, using(crate::proofs::Bounds::ruby_laws), unfolding(crate::specs::Groups::ruby_offset))]
fn ruby_offset(base: u32, count: u32, size: u32, k: u32) -> Option<u32>
    ensures { ruby_answer_from result ≡ ruby_place base count size k }
{
    if !ruby_ok(base, count, size, k) {
        return None;
    }
    let d = base.saturating_sub(ruby_total(count, size));
    Some(k * (size / 2) + shift(d, count, k))
}

/// The offset of ruby character `k` from the start of its group.
pub fn ruby_place(base_advance: u32, ruby_count: u32, size: u32, k: u32) -> RubyPlace
    ensures { (result.number, result.offset) ≡ ruby_place base_advance ruby_count size k }
{
    ruby_offset(base_advance, ruby_count, size, k).into()
}

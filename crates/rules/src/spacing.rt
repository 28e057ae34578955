// "Space between units" as a table; with it where a break is forbidden.
ghost use Rattle.std.specs.Prelude.{◌≡◌, true};
ghost use Rattle.rules.specs.Records.{class_ok};
ghost use Rattle.rules.specs.Tables.{IsCellOf};

use crate::classes::class_index;

/// What the space between two units takes of one of their sizes.
#[derive(Clone, Copy, Debug, PartialEq, Eq)]
pub(crate) enum Part {
    /// 0.
    Nothing,
    /// 1/4 that does not give way.
    Quarter,
    /// 1/2 that does not give way.
    Half,
    /// 1/2 that shrinks at stage 1, down to 1/4.
    Punctuation,
    /// 1/4 that shrinks at stage 2, down to 1/8, and stretches at stage 1, up to 1/2.
    JapaneseWestern,
}

/// Whether a line may be broken between two units.
#[derive(Clone, Copy, Debug, PartialEq, Eq)]
pub(crate) enum Break {
    Permitted,
    Forbidden,
    /// The code points decide.
    ByCode,
}

/// What stands between two classes: the part of the size before the gap, the part of the size after it, and the break.
#[derive(Clone, Copy, Debug, PartialEq, Eq)]
pub(crate) struct Cell {
    pub before: Part,
    pub after: Part,
    pub line_break: Break,
}

macro_rules! cell {
    ($before:ident, $after:ident, $line_break:ident) => {
        Cell {
            before: Part::$before,
            after: Part::$after,
            line_break: Break::$line_break,
        }
    };
}

// The cells, by the letter of the rule that sets the space, or O where it is nothing: rules e and k, and f, g and h
// where they set 0. Then P where the break is permitted, X where it is forbidden, C where the code points decide.
pub(crate) const OP: Cell = cell!(Nothing, Nothing, Permitted);

const OX: Cell = cell!(Nothing, Nothing, Forbidden);

const OC: Cell = cell!(Nothing, Nothing, ByCode);

const AX: Cell = cell!(Quarter, Quarter, Forbidden);

const BX: Cell = cell!(Half, Quarter, Forbidden);

const CX: Cell = cell!(Nothing, Quarter, Forbidden);

const DP: Cell = cell!(Quarter, Nothing, Permitted);

const DX: Cell = cell!(Quarter, Nothing, Forbidden);

// Rule f, and rule g after class 7.
const FP: Cell = cell!(Punctuation, Nothing, Permitted);

const FX: Cell = cell!(Punctuation, Nothing, Forbidden);

// Rule g after class 6.
const GP: Cell = cell!(Half, Nothing, Permitted);

const GX: Cell = cell!(Half, Nothing, Forbidden);

const HP: Cell = cell!(Nothing, Punctuation, Permitted);

const HX: Cell = cell!(Nothing, Punctuation, Forbidden);

const IP: Cell = cell!(Nothing, JapaneseWestern, Permitted);

const IX: Cell = cell!(Nothing, JapaneseWestern, Forbidden);

const JP: Cell = cell!(JapaneseWestern, Nothing, Permitted);

macro_rules! row {
    ($($cell:ident)*) => { [$($cell),*] };
}

// A row for each class before the gap, a column for each class after it.
static SPACING: [[Cell; 18]; 18] = [
    //   1  2  3  4  5  6  7  8  9  10 11 12 13 14 15 16 19 27
    row!(OX OX OX OX CX OX OX OX OX OX OX OX OX OX OX OX OX OX), // 1
    row!(FP OX FX FX CX OX OX FP FX FX FX FP FP OP FP FP FP FP), // 2
    row!(HP OX OX OX CX OX OX OP OX OX OX OP OP OP OP OP OP OP), // 3
    row!(HP OX OX OX CX OX OX OP OX OX OX OP OP OP OP OP OP JP), // 4
    row!(DP DX DX DX AX DX DX DP DX DX DX DP DP DP DP DP DP DP), // 5
    row!(GP OX GX GX BX OX OX GP GX GX GX GP GP GP GP GP GP GP), // 6
    row!(FP OX FX FX BX OX OX FP FX FX FX FP FP FP FP FP FP FP), // 7
    row!(HP OX OX OX CX OX OX OC OX OX OX OP OP OP OP OP OP OP), // 8
    row!(HP OX OX OX CX OX OX OP OX OX OX OP OP OP OP OP OP JP), // 9
    row!(HP OX OX OX CX OX OX OP OX OX OX OP OP OP OP OP OP JP), // 10
    row!(HP OX OX OX CX OX OX OP OX OX OX OP OP OP OP OP OP JP), // 11
    row!(HX OX OX OX CX OX OX OX OX OX OX OX OX OX OX OX OX OX), // 12
    row!(HP OX OX OX CX OX OX OP OX OX OX OP OP OP OP OP OP OP), // 13
    row!(OP OX OX OX CX OX OX OP OX OX OX OP OP OP OP OP OP OP), // 14
    row!(HP OX OX OX CX OX OX OP OX OX OX OP OP OP OP OP OP JP), // 15
    row!(HP OX OX OX CX OX OX OP OX OX OX OP OP OP OP OP OP JP), // 16
    row!(HP OX OX OX CX OX OX OP OX OX OX OP OP OP OP OP OP JP), // 19
    row!(HP OX OX OX CX OX OX OP IX IX IX OP OC OP IP IP IP OX), // 27
];

// What the table has for two classes.
pub(crate) fn cell_between(left: u32, right: u32) -> Cell
    requires { (class_ok left ≡ true) × (class_ok right ≡ true) }
    ensures { IsCellOf left right result }
{
    SPACING[class_index(left)][class_index(right)]
}

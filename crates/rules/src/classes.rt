// The class table: of each class its place among the eighteen and its kind of advance.
ghost use Rattle.std.specs.Prelude.{◌≡◌, true, false, ◌<◌, MatchOption};
ghost use Rattle.rules.specs.Records.{advance_fits, class_index, class_ok};
ghost use Rattle.rules.specs.Tables.{advance_kind_of, row_of, seen, IsEntryOf};

/// What an advance is to its size.
#[derive(Clone, Copy, Debug, PartialEq, Eq)]
pub(crate) enum AdvanceKind {
    /// Half of it.
    Half,
    /// From 1 up to it.
    ToSize,
    /// From 1 up to twice it.
    ToTwice,
    /// The size itself.
    Full,
}

impl AdvanceKind {
    // Whether an advance is of this kind. The size may be any number here, so twice the size is taken in 64 bits. Tests
    // one after the other, the most frequent first: a `match` on the kind is a jump by a table, 17.5 ns in place of
    // 13.5 in a loop over records.
    pub(crate) fn allows(self, size: u32, advance: u32) -> bool
        ensures { result ≡ advance_fits (advance_kind_of self) size advance }
    {
        if self == AdvanceKind::Full {
            return advance == size;
        }
        if self == AdvanceKind::Half {
            return advance == size / 2;
        }
        if self == AdvanceKind::ToSize {
            return (1..=size).contains(&advance);
        }
        (1..=2 * u64::from(size)).contains(&u64::from(advance))
    }
}

/// A class's place among the eighteen, from 0, and its kind of advance.
#[derive(Clone, Copy, Debug, PartialEq, Eq)]
pub(crate) struct ClassEntry {
    pub index: u8,
    pub kind: AdvanceKind,
}

// How many classes there are.
const CLASS_COUNT: u8 = 18;

// A class's row of the table.
macro_rules! class {
    ($index:literal, $kind:ident) => {
        ClassEntry { index: $index, kind: AdvanceKind::$kind }
    };
}

// The row of a number that is no class. It is no `None`: an edit reads a row for each record, mostly of a class that it
// knows, and with rows of `Option<ClassEntry>`, whose `unwrap` keeps its test, known records take 1.5 of the time.
const NO_CLASS: ClassEntry = class!(18, Full);

// For each number up to the last class's its place and its kind.
static CLASSES: [ClassEntry; 28] = [
    NO_CLASS,
    class!(0, Half), // 1, opening bracket
    class!(1, Half), // 2, closing bracket
    class!(2, ToSize), // 3, hyphen
    class!(3, Full), // 4, dividing mark
    class!(4, Half), // 5, middle dot
    class!(5, Half), // 6, full stop
    class!(6, Half), // 7, comma
    class!(7, Full), // 8, inseparable
    class!(8, Full), // 9, iteration mark
    class!(9, Full), // 10, prolonged sound mark
    class!(10, Full), // 11, small kana
    class!(11, Full), // 12, prefixed abbreviation
    class!(12, Full), // 13, postfixed abbreviation
    class!(13, Full), // 14, full-width space
    class!(14, Full), // 15, hiragana
    class!(15, Full), // 16, katakana
    NO_CLASS,
    NO_CLASS,
    class!(16, Full), // 19, ideographic
    NO_CLASS,
    NO_CLASS,
    NO_CLASS,
    NO_CLASS,
    NO_CLASS,
    NO_CLASS,
    NO_CLASS,
    class!(17, ToTwice), // 27, Western
];

// The table's row of a number.
fn row(number: u32) -> ClassEntry
    requires { number < 28 }
    ensures { seen result ≡ row_of number }
{
    CLASSES[number as usize]
}

// What the table has for a class. A class is a number here, known to be one's: see `Side`.
#[tactic(auto, using(crate::proofs::ClassTable::row_laws))]
pub(crate) fn entry_of(class: u32) -> ClassEntry
    requires { class_ok class ≡ true }
    ensures { IsEntryOf class result }
{
    row(class)
}

// What the table has for a number; `None` if it is no class.
#[tactic(auto, using(crate::proofs::ClassTable::row_laws))]
pub(crate) fn class_entry(number: u32) -> Option<ClassEntry>
    ensures { MatchOption result (class_ok number ≡ false) (IsEntryOf number) }
{
    if number < 28 {
        let entry = row(number);
        if entry.index < CLASS_COUNT {
            return Some(entry);
        }
    }
    None
}

// A class's place among the eighteen: its row and its column in the spacing table.
#[tactic(auto, using(crate::proofs::ClassTable::row_small))]
pub(crate) fn class_index(class: u32) -> usize
    requires { class_ok class ≡ true }
    ensures { (result ≡ class_index class) × (result < 18) }
{
    usize::from(entry_of(class).index)
}

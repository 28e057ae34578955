// The records that characters become.
ghost use Rattle.std.specs.Prelude.{◌≡◌};
ghost use Rattle.lists.specs.Classes.{number_of};
ghost use Rattle.leaflet.specs.Imported.{as_word, advance_of};

use lists::Class;
use rules::layout::{RECORD_WORDS, RECORDS_WORDS};

/// The words that a text is read into: those of one record more than a slot holds.
pub const ROOM: usize = RECORDS_WORDS + RECORD_WORDS;

/// A count as a word; what is beyond 32 bits stands as the largest.
#[tactic(auto, unfolding(crate::specs::Imported::as_word))]
pub(crate) fn as_word(count: usize) -> u32
    ensures { result ≡ as_word count }
{
    u32::try_from(count).unwrap_or(u32::MAX)
}

/// The advance that an import gives a class: half the size for punctuation, hyphens and Western characters, else the
/// size.
#[tactic(auto, unfolding(crate::specs::Imported::advance_of, rules::specs::Records::advance_kind))]
pub(crate) fn advance_of(class: Class, size: u32) -> u32
    ensures { result ≡ advance_of (number_of class) size }
{
    match class {
        Class::OpeningBracket
        | Class::ClosingBracket
        | Class::MiddleDot
        | Class::FullStop
        | Class::Comma
        | Class::Hyphen
        | Class::Western => size / 2,
        _ => size,
    }
}

// Which code points may stand where.
ghost use Rattle.std.specs.Prelude.{◌≡◌, is_some, IfSome};
ghost use Rattle.lists.specs.Classes.{number_of};
ghost use Rattle.lists.specs.Lists.{class_of};
ghost use Rattle.leaflet.specs.Contents.{text_char, plain_char};

use lists::{Class, class_of};
use rules::limits::HIGHEST_CODE;

// Surrogates are no characters, and what markup is written with is none of a text's.
const FIRST_SURROGATE: u32 = 0xD800;

const LAST_SURROGATE: u32 = 0xDFFF;

const LESS_THAN: u32 = 0x3C;

const GREATER_THAN: u32 = 0x3E;

const AMPERSAND: u32 = 0x26;

/// Inside rt and rp: no surrogate, no angle bracket, no ampersand.
// surrogates by their numbers, as the definition has them: `char::from_u32` would leave none to be refused
#[tactic(auto, unfolding(crate::specs::Contents::text_char, rules::specs::Records::code_ok))]
pub(crate) fn is_text_char(code: u32) -> bool
    ensures { result ≡ text_char code }
{
    code <= HIGHEST_CODE
        && !matches!(
            code,
            FIRST_SURROGATE..=LAST_SURROGATE | LESS_THAN | GREATER_THAN | AMPERSAND
        )
}

/// Outside them: the class of a character that may stand there. Brackets and ampersands have a class, and may not.
pub(crate) fn plain_class(code: u32) -> Option<Class>
    ensures allowed { is_some result ≡ plain_char code }
    ensures class { IfSome result (λ c. number_of c ≡ class_of code) }
{
    if is_text_char(code) {
        class_of(code)
    } else {
        None
    }
}

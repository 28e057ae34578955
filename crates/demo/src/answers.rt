// What a call answers, told in words.
ghost use Rattle.std.specs.Prelude.{◌↔◌, ◌≡◌, IfErr, IfOk, IsOk, Some};

use rules::Refusal;
use std::fmt;

/// The number of an import that is refused because its text is no leaflet. A number, as C has it: an import's answer
/// tells no more.
pub(crate) const NO_LEAFLET: u32 = 17;

/// Why a call is refused: the number of its answer, as C sees it too, and the place that the answer names. A read's
/// answer names none.
#[derive(Clone, Copy, Debug, PartialEq, Eq)]
pub(crate) struct Refused {
    pub(crate) number: u32,
    pub(crate) place: Option<usize>,
}

impl fmt::Display for Refused {
    fn fmt<W: fmt::Write>(&self, f: &mut fmt::Formatter<W>) -> fmt::Result {
        let Refused { number, place } = *self;
        write!(f, "refused with {number}: ")?;
        // a refusal has the same words at every place
        match Refusal::told(number, 0) {
            Some(refusal) => write!(f, "{refusal}")?,
            None if number == NO_LEAFLET => write!(f, "the text is no leaflet from this byte on")?,
            None => write!(f, "there is no such number")?,
        }
        match place {
            Some(place) => write!(f, ". Place {place}"),
            None => Ok(()),
        }
    }
}

/// The place of an accepted call, whose number is 0; what it says depends on the call.
pub(crate) fn accepted(number: u32, place: usize) -> Result<usize, Refused>
    ensures accepted { IsOk result ↔ (number ≡ 0) }
    ensures place { IfOk result (λ p. p ≡ place) }
    ensures refused { IfErr result (λ r. (r.number ≡ number) × (r.place ≡ Some place)) }
{
    if number == 0 {
        return Ok(place);
    }
    Err(Refused {
        number,
        place: Some(place),
    })
}

/// What an accepted edit or import did: how many lines the slot has now, and how many of them were composed anew.
// beside `rules::Edited`, since an import's answer counts lines in a usize, as C has it
#[derive(Clone, Copy, Debug, PartialEq, Eq)]
pub(crate) struct Composed {
    pub(crate) lines: usize,
    pub(crate) redone: u32,
}

impl fmt::Display for Composed {
    fn fmt<W: fmt::Write>(&self, f: &mut fmt::Formatter<W>) -> fmt::Result {
        let Composed { lines, redone } = *self;
        write!(f, "{lines} lines, {redone} of them composed anew")
    }
}

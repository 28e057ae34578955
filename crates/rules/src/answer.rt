// What a call answers.
ghost use Rattle.rules.specs.Numbers.{IsAnswerOf};

use crate::refusal::Refusal;

/// A number and a place, as C sees them: 0 and what the call gives, or a refusal's.
// C has no `Result`; the program's own answers are one, and `from` below turns it into this.
#[repr(C)]
#[derive(Clone, Copy, Debug, PartialEq, Eq)]
pub struct Answer {
    pub number: u32,
    pub place: u32,
}

impl From<Result<u32, Refusal>> for Answer {
    ghost from_gives = { IsAnswerOf };

    fn from(outcome: Result<u32, Refusal>) -> Answer {
        match outcome {
            Ok(place) => Answer { number: 0, place },
            Err(refusal) => Answer {
                number: refusal.number(),
                place: refusal.place(),
            },
        }
    }
}

/// What an accepted edit made: how many lines there are, and how many of them it composed anew.
#[derive(Clone, Copy, Debug, PartialEq, Eq)]
pub struct Edited {
    pub lines: u32,
    pub redone: u32,
}

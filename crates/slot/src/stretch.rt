// The stretch of a slot's records that an edit replaces: rows 5, 6 and 7 of its refusals.
ghost use Rattle.std.specs.Prelude.{◌≡◌, IfOk, IfErr, length, true};
ghost use Rattle.rules.specs.Layout.{slot_length};
ghost use Rattle.rules.specs.Refusals.{sound};
ghost use Rattle.slot.specs.Slot.{IsRefusedEdit, IsStretch};

use rules::Refusal;
use rules::layout::{MOST_RECORDS, RECORD_COUNT, RECORD_WORDS};

/// `deleted` records go out at record `place`, and `inserted` ones come in there.
#[derive(Clone, Copy, Debug, PartialEq, Eq)]
pub(crate) struct Stretch {
    pub(crate) place: usize,
    pub(crate) deleted: usize,
    pub(crate) inserted: usize,
}

impl Stretch {
    // The stretch that an edit of a sound slot names, where its records are there and the slot has room for what comes
    // in.
    #[tactic(auto, using(crate::proofs::EditRows::stretch_tested))]
    pub(crate) fn of(
        words: &[u32],
        place: u32,
        deleted: u32,
        inserted: &[u32],
    ) -> Result<Stretch, Refusal>
        requires len { length words.now ≡ slot_length }
        requires sound_is { sound words.now ≡ true }
        ensures refused { IfErr result (λ e. IsRefusedEdit words.now place deleted inserted.now e) }
        ensures fits { IfOk result (λ t. IsStretch words.now place deleted inserted.now t) }
    {
        let count = words[RECORD_COUNT];
        if count < place || count - place < deleted {
            return Err(Refusal::PastTheEnd { count });
        }
        let n = inserted.len();
        if n % RECORD_WORDS != 0 {
            return Err(Refusal::NotWhole);
        }
        if MOST_RECORDS < (count - deleted) as usize + n / RECORD_WORDS {
            return Err(Refusal::TooMany);
        }
        Ok(Stretch {
            place: place as usize,
            deleted: deleted as usize,
            inserted: n / RECORD_WORDS,
        })
    }
}

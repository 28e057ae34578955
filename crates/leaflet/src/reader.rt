// The reader: item by item, from the text's start.
ghost use Rattle.std.specs.Prelude.{◌≡◌, ◌+◌, ◌^◌, ◌<◌, length, IfOk, IfErr};
ghost use Rattle.leaflet.specs.Reader.{ended, fault_from, fault_in};
ghost use Rattle.leaflet.specs.Enums.{spot_of, fault_place, ReadsWords};

use crate::ahead::rt_ahead;
use crate::items::split_item;
use crate::progress::{NotPassed, Progress};
use crate::records::ROOM;
use crate::spots::Spot;

/// A text is no leaflet.
#[derive(Clone, Copy, Debug, PartialEq, Eq)]
pub struct Fault {
    /// The byte offset of the first character, tag or ill-formed sequence that no leaflet has after the same
    /// beginning, or the text's length.
    pub at: usize,
}

// Where no item goes on, at an offset and a spot: a leaflet has ended if nothing is left, and no element is open.
fn ended(spot: Spot, at: usize, rest: &[u8]) -> Result<(), Fault>
    ensures { fault_place result ≡ ended (spot_of spot) at rest.now }
{
    if spot.is_outside() && rest.is_empty() {
        Ok(())
    } else {
        Err(Fault { at })
    }
}

// Reads what is left of a text, from an offset and a spot on, for faults alone.
fn check_rest(spot: Spot, at: usize, rest: &[u8]) -> Result<(), Fault>
    requires { at + length rest.now < 2 ^ 64 }
    ensures { fault_place result ≡ fault_from (spot_of spot) at rest.now }
{
    let end = at + rest.len();
    let mut spot = spot;
    let mut left = rest;
    // `while let`, no `for`: where no item goes on, what is left tells whether the text has ended
    while let Some((item, after)) = split_item(left) {
        spot = spot.after(item).ok_or(Fault {
            at: end - left.len(),
        })?;
        left = after;
    }
    ended(spot, end - left.len(), left)
}

/// Reads a text into words of records of a size, and answers how many words. There is room for one record more than a
/// slot holds, so that edit finds them too many; what comes after it is read for faults alone.
pub fn read_leaflet(text: &[u8], size: u32, words: &mut [u32; ROOM]) -> Result<usize, Fault>
    ensures fault { IfErr result (λ f. fault_in text.now ≡ Some f.at) }
    ensures words { IfOk result (λ n. ReadsWords text.now size words.new n) }
{
    // a lent array, and how many of its words are put: no call allocates, and the clause `words` speaks of both
    let mut progress = Progress::START;
    let mut rest = text;
    // `while let`, no `for`: where no item goes on, what is left tells whether the text has ended
    while let Some((item, after)) = split_item(rest) {
        let at = text.len() - rest.len();
        match progress.past(item, size, words) {
            Ok(past) => progress = past,
            Err(NotPassed::Refused) => return Err(Fault { at }),
            Err(NotPassed::Full) => {
                progress.put_ruby(rt_ahead(rest), words);
                check_rest(progress.spot, at, rest)?;
                return Ok(progress.end);
            }
        }
        rest = after;
    }
    ended(progress.spot, text.len() - rest.len(), rest)?;
    Ok(progress.end)
}

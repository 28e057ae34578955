// How far a text has been read into words of records, and what an item adds.
ghost use Rattle.std.specs.Prelude.{◌≡◌, ◌≤◌, ◌<◌, ◌%◌, IfNone, IfSome, None};
ghost use Rattle.rules.specs.Layout.{record_length};
ghost use Rattle.leaflet.specs.Items.{tag as tagItem};
ghost use Rattle.leaflet.specs.Imported.{as_word};
ghost use Rattle.leaflet.specs.Spots.{step};
ghost use Rattle.leaflet.specs.Written.{room, most_bytes, in_group, rubied_to};
ghost use Rattle.leaflet.specs.Enums.{tag_of, spot_of, Putting};

use crate::characters::{is_text_char, plain_class};
use crate::records::{ROOM, advance_of, as_word};
use crate::spots::{Item, Spot, Tag};
use rules::layout::{RECORD_WORDS, RUBY_COUNT};
use rules::put;

/// Why an item is not passed.
#[derive(Clone, Copy, Debug, PartialEq, Eq)]
pub(crate) enum NotPassed {
    /// it may not stand at this spot
    Refused,
    /// it may, and there is no room for its record
    Full,
}

/// How far a text has been read: where in the markup, and which words of records are put, whole records all of them.
#[derive(Clone, Copy, Debug, PartialEq, Eq)]
pub(crate) struct Progress {
    pub(crate) spot: Spot,
    /// groups begun, and characters of the last one's rt
    pub(crate) groups: usize,
    pub(crate) ruby: usize,
    /// words put, and up to which they have their ruby counts
    pub(crate) end: usize,
    pub(crate) start: usize,
    ghost room: { end ≤ room },
    ghost order: { start ≤ end },
    ghost whole: { end % record_length ≡ 0 },
    ghost whole_before: { start % record_length ≡ 0 },
}

impl Progress {
    ghost use Rattle.leaflet.specs.Past.{TagPassed, Past};
    ghost use Rattle.leaflet.specs.declared.spots.Item.TheVariants.{Character};

    /// Where a text starts.
    pub(crate) const START: Progress = Progress {
        spot: Spot::Outside,
        groups: 0,
        ruby: 0,
        end: 0,
        start: 0,
    };

    // The group number of a record that is put next: 0 outside ruby elements.
    fn group(self) -> u32
        ensures { result ≡ in_group (spot_of self.spot) self.groups }
    {
        if self.spot.is_outside() {
            0
        } else {
            as_word(self.groups)
        }
    }

    // Puts a character's record, if it has one, where characters may stand. Answers where the next record goes. The
    // ruby count comes later.
    fn put_character(
        self,
        code: u32,
        size: u32,
        words: &mut [u32; ROOM],
    ) -> Result<usize, NotPassed>
        ensures { Putting words.old words.new self.end size (spot_of self.spot) self.groups code result }
    {
        if !self.spot.becomes_record() {
            return if is_text_char(code) {
                Ok(self.end)
            } else {
                Err(NotPassed::Refused)
            };
        }
        let class = plain_class(code).ok_or(NotPassed::Refused)?;
        if ROOM - self.end < RECORD_WORDS {
            return Err(NotPassed::Full);
        }
        let advance = advance_of(class, size);
        // the words and no `Record`: by its `From` an import that is refused took 1.1 of the time
        put(
            &mut words[..],
            self.end,
            [code, class.number(), size, advance, self.group(), 0],
        );
        Ok(self.end + RECORD_WORDS)
    }

    /// Gives the records that have none their ruby count. An rt stands after its base, so a base's records are put
    /// without it, and get it when the rt ends.
    pub(crate) fn put_ruby(self, count: usize, words: &mut [u32; ROOM])
        ensures { words.new ≡ rubied_to self.start self.end (as_word count) words.old }
    {
        let count = as_word(count);
        // by index: after `chunks_exact_mut` a proof knows no more of the words than how many they are
        for k in 0..(self.end - self.start) / RECORD_WORDS {
            words[self.start + RECORD_WORDS * k + RUBY_COUNT] = count;
        }
    }

    // Past a character, whose record is put, if it has one.
    fn past_character(
        self,
        code: u32,
        size: u32,
        words: &mut [u32; ROOM],
    ) -> Result<Progress, NotPassed>
        requires { self.ruby < most_bytes }
        ensures { Past size words.old words.new self (Character code) result }
    {
        let spot = self.spot.past_char().ok_or(NotPassed::Refused)?;
        let end = self.put_character(code, size, words)?;
        let ruby = self.ruby + usize::from(self.spot.is_in_rt());
        let start = if self.spot.is_outside() {
            end
        } else {
            self.start
        };
        Ok(Progress {
            spot,
            groups: self.groups,
            ruby,
            end,
            start,
        })
    }

    // Past a tag: one that begins a group, or ends an rt, whose character count its base's records get.
    fn past_tag(self, tag: Tag, words: &mut [u32; ROOM]) -> Option<Progress>
        requires { self.groups < most_bytes }
        ensures refused { IfNone result (step (spot_of self.spot) (tagItem (tag_of tag)) ≡ None) }
        ensures passed { IfSome result (λ past. TagPassed words.old words.new self tag past) }
    {
        let mut past = self;
        past.spot = self.spot.after_tag(tag)?;
        match tag {
            Tag::Ruby => {
                past.groups += 1;
                past.ruby = 0;
            }
            Tag::RtEnd => {
                self.put_ruby(self.ruby, words);
                past.start = self.end;
            }
            _ => {}
        }
        Some(past)
    }

    // `words` goes beside it, no field: what a struct leaves in an array that it was lent, a proof does not know. Size
    // goes with them, as C passes it; and that neither count is the largest stays a clause, since an item may add one.
    /// Past an item, with its record put, if it has one.
    pub(crate) fn past(
        self,
        item: Item,
        size: u32,
        words: &mut [u32; ROOM],
    ) -> Result<Progress, NotPassed>
        requires { (self.groups < most_bytes) × (self.ruby < most_bytes) }
        ensures { Past size words.old words.new self item result }
    {
        match item {
            Item::Character(code) => self.past_character(code, size, words),
            Item::Markup(tag) => self.past_tag(tag, words).ok_or(NotPassed::Refused),
        }
    }
}

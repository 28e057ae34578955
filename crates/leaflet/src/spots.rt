// Where in the markup a reader stands, and where an item leads.
ghost use Rattle.std.specs.Prelude.{◌≡◌};
ghost use Rattle.leaflet.specs.Items.{char as charItem, tag as tagItem, tag_bytes};
ghost use Rattle.leaflet.specs.Spots.{char_step, becomes_record as becomesRecord, allowed, step};
ghost use Rattle.leaflet.specs.Spots.{is_outside as isOutside};
ghost use Rattle.leaflet.specs.Enums.{tag_of, item_of, spot_of, step_of};
ghost use Rattle.leaflet.specs.Written.{in_rt};

use crate::characters::{is_text_char, plain_class};

#[derive(Clone, Copy, Debug, PartialEq, Eq)]
pub(crate) enum Tag {
    Ruby,
    RubyEnd,
    Rt,
    RtEnd,
    Rp,
    RpEnd,
}

impl Tag {
    pub(crate) const ALL: [Tag; 6] = [
        Tag::Ruby,
        Tag::RubyEnd,
        Tag::Rt,
        Tag::RtEnd,
        Tag::Rp,
        Tag::RpEnd,
    ];

    /// As a text has it.
    #[tactic(auto, unfolding(crate::specs::Items::tag_bytes))]
    pub(crate) fn text(self) -> &'static [u8]
        ensures { result.now ≡ tag_bytes (tag_of self) }
    {
        match self {
            Tag::Ruby => b"<ruby>",
            Tag::RubyEnd => b"</ruby>",
            Tag::Rt => b"<rt>",
            Tag::RtEnd => b"</rt>",
            Tag::Rp => b"<rp>",
            Tag::RpEnd => b"</rp>",
        }
    }
}

/// What a text is made of.
#[derive(Clone, Copy, Debug, PartialEq, Eq)]
pub(crate) enum Item {
    /// by its code point, a number: a `char` is no surrogate, and the wrong reader of must-fail/surrogate finds one
    Character(u32),
    Markup(Tag),
}

#[derive(Clone, Copy, Debug, PartialEq, Eq)]
pub(crate) enum Spot {
    Outside,
    // after <ruby>, and in the base text
    Opened,
    InBase,
    // after the <rt> that no rp stands before, and in it
    BareOpened,
    InBare,
    // in the rp before the rt, and after it
    InFirst,
    RtDue,
    // after the <rt> that an rp stands before, in it, and after it
    FencedOpened,
    InFenced,
    RpDue,
    // in the rp after the rt
    InLast,
    // before </ruby>
    Closing,
}

impl Spot {
    /// No ruby element is open.
    pub(crate) fn is_outside(self) -> bool
        ensures { result ≡ isOutside (spot_of self) }
    {
        matches!(self, Spot::Outside)
    }

    /// A character that stands here is one of an rt.
    pub(crate) fn is_in_rt(self) -> bool
        ensures { result ≡ in_rt (spot_of self) }
    {
        matches!(
            self,
            Spot::BareOpened | Spot::InBare | Spot::FencedOpened | Spot::InFenced
        )
    }

    /// A character that stands here is a base or plain one.
    pub(crate) fn becomes_record(self) -> bool
        ensures { result ≡ becomesRecord (spot_of self) }
    {
        matches!(self, Spot::Outside | Spot::Opened | Spot::InBase)
    }

    /// Where a character leads, if one may stand here.
    pub(crate) fn past_char(self) -> Option<Spot>
        ensures { step_of result ≡ char_step (spot_of self) }
    {
        match self {
            Spot::Outside => Some(Spot::Outside),
            Spot::Opened | Spot::InBase => Some(Spot::InBase),
            Spot::BareOpened | Spot::InBare => Some(Spot::InBare),
            Spot::InFirst => Some(Spot::InFirst),
            Spot::FencedOpened | Spot::InFenced => Some(Spot::InFenced),
            Spot::InLast => Some(Spot::InLast),
            Spot::RtDue | Spot::RpDue | Spot::Closing => None,
        }
    }

    // Whether a character may stand here, if one may.
    fn is_allowed(self, code: u32) -> bool
        ensures { result ≡ allowed (spot_of self) code }
    {
        if self.becomes_record() {
            plain_class(code).is_some()
        } else {
            is_text_char(code)
        }
    }

    /// Where a tag leads, if it may stand here.
    #[tactic(auto, unfolding(crate::specs::Spots::step))]
    pub(crate) fn after_tag(self, tag: Tag) -> Option<Spot>
        ensures { step_of result ≡ step (spot_of self) (tagItem (tag_of tag)) }
    {
        match (self, tag) {
            (Spot::Outside, Tag::Ruby) => Some(Spot::Opened),
            (Spot::InBase, Tag::Rt) => Some(Spot::BareOpened),
            (Spot::InBase, Tag::Rp) => Some(Spot::InFirst),
            (Spot::InBare, Tag::RtEnd) => Some(Spot::Closing),
            (Spot::InFirst, Tag::RpEnd) => Some(Spot::RtDue),
            (Spot::RtDue, Tag::Rt) => Some(Spot::FencedOpened),
            (Spot::InFenced, Tag::RtEnd) => Some(Spot::RpDue),
            (Spot::RpDue, Tag::Rp) => Some(Spot::InLast),
            (Spot::InLast, Tag::RpEnd) => Some(Spot::Closing),
            (Spot::Closing, Tag::RubyEnd) => Some(Spot::Outside),
            _ => None,
        }
    }

    /// Where an item leads, if it may stand here.
    #[tactic(auto, unfolding(crate::specs::Spots::step))]
    pub(crate) fn after(self, item: Item) -> Option<Spot>
        ensures { step_of result ≡ step (spot_of self) (item_of item) }
    {
        match item {
            Item::Character(code) if !self.is_allowed(code) => None,
            Item::Character(_) => self.past_char(),
            Item::Markup(tag) => self.after_tag(tag),
        }
    }
}

// The texts that clinics import: leaflets with the elements ruby, rt and rp.

/// The size of every character.
pub(crate) const TEXT_SIZE: u32 = 80;

/// A dose note. Its dose, 500, is records 17 to 19.
pub(crate) const DOSE_NOTE: &str = "\
    食後に\
    「アスピリン」\
    散10%を\
    一回500mgずつ、\
    水で服用して\
    ください。";

/// An aftercare note, with ruby over three of its words: shorter than its base, longer, and longer than a single
/// character. The last has rp, which browsers without ruby show.
pub(crate) const CARE_NOTE: &str = "\
    <ruby>患部<rt>かんぶ</rt></ruby>\
    を清潔に保ち、\
    シャワーと\
    <ruby>消毒<rt>しょうどく</rt></ruby>\
    の後に\
    <ruby>薬<rp>（</rp><rt>くすり</rt><rp>）</rp></ruby>\
    を塗って\
    ください。";

/// How that note begins, but its rt has no end tag.
pub(crate) const OPEN_NOTE: &str = "<ruby>患部<rt>かんぶ</ruby>を清潔に";

/// A text with a drug's name of thirteen letters, which no line may break.
pub(crate) const LONG_WORD: &str = "解熱にacetaminophenを";

// The eighteen classes, 文字クラス.
ghost use Rattle.std.specs.Prelude.{◌≡◌};
ghost use Rattle.lists.specs.Classes.{number_of, IsNumbered};

/// A class of characters, numbered as in JLReq.
#[derive(Clone, Copy, Debug, PartialEq, Eq)]
pub enum Class {
    /// 始め括弧類
    OpeningBracket = 1,
    /// 終わり括弧類
    ClosingBracket = 2,
    /// ハイフン類
    Hyphen = 3,
    /// 区切り約物
    DividingMark = 4,
    /// 中点類
    MiddleDot = 5,
    /// 句点類
    FullStop = 6,
    /// 読点類
    Comma = 7,
    /// 分離禁止文字
    Inseparable = 8,
    /// 繰返し記号
    IterationMark = 9,
    /// 長音記号
    ProlongedSoundMark = 10,
    /// 小書きの仮名
    SmallKana = 11,
    /// 前置省略記号
    PrefixedAbbreviation = 12,
    /// 後置省略記号
    PostfixedAbbreviation = 13,
    /// 和字間隔
    FullWidthSpace = 14,
    /// 平仮名
    Hiragana = 15,
    /// 片仮名
    Katakana = 16,
    /// 漢字等
    Ideographic = 19,
    /// 欧文用文字
    Western = 27,
}

impl Class {
    /// The class's number in JLReq.
    pub fn number(self) -> u32
        ensures { result ≡ number_of self }
    {
        self as u32
    }
}

/// The number of no class.
#[derive(Clone, Copy, Debug, PartialEq, Eq)]
pub struct NoClass(pub u32);

impl TryFrom<u32> for Class {
    type Error = NoClass;

    ghost try_from_gives = { IsNumbered };

    fn try_from(number: u32) -> Result<Class, NoClass> {
        Ok(match number {
            1 => Class::OpeningBracket,
            2 => Class::ClosingBracket,
            3 => Class::Hyphen,
            4 => Class::DividingMark,
            5 => Class::MiddleDot,
            6 => Class::FullStop,
            7 => Class::Comma,
            8 => Class::Inseparable,
            9 => Class::IterationMark,
            10 => Class::ProlongedSoundMark,
            11 => Class::SmallKana,
            12 => Class::PrefixedAbbreviation,
            13 => Class::PostfixedAbbreviation,
            14 => Class::FullWidthSpace,
            15 => Class::Hiragana,
            16 => Class::Katakana,
            19 => Class::Ideographic,
            27 => Class::Western,
            _ => return Err(NoClass(number)),
        })
    }
}

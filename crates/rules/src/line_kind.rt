// The kinds of lines.
ghost use Rattle.std.specs.Prelude.{◌≡◌};
ghost use Rattle.rules.specs.Numbers.{line_kind, IsLineKind};

/// What a line's adjustment made of it.
#[derive(Clone, Copy, Debug, PartialEq, Eq)]
pub enum LineKind {
    /// It ends at the measure.
    Flush = 1,
    /// It is narrower and has nothing to stretch.
    Short = 2,
    /// The paragraph's last, which is not stretched.
    Final = 3,
}

impl LineKind {
    /// The kind as a word of the sheet.
    pub fn number(self) -> u32
        ensures { result ≡ line_kind self }
    {
        self as u32
    }
}

/// A word that is no line's kind.
#[derive(Clone, Copy, Debug, PartialEq, Eq)]
pub struct NoLineKind(pub u32);

impl TryFrom<u32> for LineKind {
    type Error = NoLineKind;

    ghost try_from_gives = { IsLineKind };

    fn try_from(word: u32) -> Result<LineKind, NoLineKind> {
        match word {
            1 => Ok(LineKind::Flush),
            2 => Ok(LineKind::Short),
            3 => Ok(LineKind::Final),
            _ => Err(NoLineKind(word)),
        }
    }
}

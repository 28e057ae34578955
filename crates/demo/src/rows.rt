// A line's rows as a terminal shows them: its characters, and its ruby over them. A column is half a character, so
// solid text is solid, and each character stands in the column where its x lies: gaps show as a blank where they add
// up to one. A half-width bracket or comma takes two columns too, and lies over the space that the rules set beside
// it; where they set none, the next character moves to the right. A terminal shows ruby as large as its base, so it
// begins where its base does, and goes on as far as it has to; what would run into it moves to the right.
ghost use Rattle.std.specs.Prelude.{◌+◌, ◌/◌, ◌≤◌};

use crate::lines::Character;
use crate::texts::TEXT_SIZE;
use lists::Class;
use rules::Record;
use std::fmt;

/// How many units a column is: half the size of the texts' characters.
const COLUMN: u32 = TEXT_SIZE / 2;

/// The columns of a digit, a Latin letter or %.
const NARROW: u32 = 1;

/// The columns of any other character.
const WIDE: u32 = 2;

/// The columns on each side of a measure: there a bracket at a line's start and a comma at its end have their empty
/// halves.
const MARGIN: u32 = 1;

/// A character of a row: the column where it stands if that is free, and how many columns it takes.
#[derive(Clone, Copy, Debug)]
struct Placed {
    shown: char,
    column: u32,
    columns: u32,
}

impl Placed {
    /// The column after it, in a row whose columns up to `free` are taken.
    fn end(self, free: u32) -> u32
        ensures { free ≤ result }
    {
        free.max(self.column).saturating_add(self.columns)
    }
}

impl Character {
    fn columns(&self) -> u32
        ensures { (NARROW ≤ result) × (result ≤ WIDE) }
    {
        if self.record.code < 0x80 {
            NARROW
        } else {
            WIDE
        }
    }

    /// The column where its x lies. An opening bracket has its empty half before its x.
    fn column(&self) -> u32
        ensures { (self.now.x / COLUMN ≤ result) × (result ≤ self.now.x / COLUMN + MARGIN) }
    {
        let column = self.x / COLUMN;
        // by number: the class is a word of the sheet, which may be any
        if self.record.class == Class::OpeningBracket.number() && self.columns() == WIDE {
            column
        } else {
            MARGIN + column
        }
    }

    fn placed(&self) -> Placed {
        Placed {
            shown: self.shown(),
            column: self.column(),
            columns: self.columns(),
        }
    }
}

/// A row that is written from the left on: its columns up to `free` are.
#[derive(Drop)]
struct Row<'a, W> {
    f: &'a mut fmt::Formatter<W>,
    free: u32,
}

impl<'a, W: fmt::Write> Row<'a, W> {
    /// An empty row, with the mark before it.
    fn open(f: &'a mut fmt::Formatter<W>) -> Result<Row<'a, W>, fmt::Error> {
        f.write_char('|')?;
        Ok(Row { f, free: 0 })
    }

    /// Writes blanks up to a column.
    fn fill(&mut self, column: u32) -> fmt::Result {
        for _ in self.free..column {
            self.f.write_char(' ')?;
        }
        Ok(())
    }

    /// Writes a character in its column, with blanks before it, or after what stands there.
    fn put(&mut self, character: Placed) -> fmt::Result {
        self.fill(character.column)?;
        self.free = character.end(self.free);
        self.f.write_char(character.shown)
    }

    /// Writes the ruby over a run of one group, from the column where the run starts on, with a blank before. The
    /// columns up to `taken` are those of the characters before the run. The sheet says where each ruby character
    /// stands, the markup which one it is: a sheet keeps only how many there are.
    fn put_ruby(&mut self, run: &[Character], taken: u32, markup: &str) -> fmt::Result {
        let [first, ..] = run else {
            return Ok(());
        };
        let Record {
            size,
            group,
            ruby,
            ..
        } = first.record;
        if group == 0 {
            return Ok(());
        }
        let base = base_advance(run);
        let start = first
            .column()
            .max(taken)
            .max(self.free.saturating_add(MARGIN));
        for (k, shown) in (0..ruby).zip(ruby_text(markup, group).chars()) {
            let place = sheet::ruby_place(base, ruby, size, k);
            self.put(Placed {
                shown,
                column: start.saturating_add(place.offset / COLUMN),
                columns: WIDE,
            })?;
        }
        Ok(())
    }

    /// Writes blanks up to the end of a measure and its margins, and the mark after them.
    fn close(mut self, measure: u32) -> fmt::Result {
        self.fill(MARGIN + measure / COLUMN + MARGIN)?;
        self.f.write_char('|')
    }
}

/// What follows the start tag of a group's rt in a text that was accepted: there each angle bracket is a tag's, and
/// groups are numbered from 1 as their rts come.
fn ruby_text(markup: &str, group: u32) -> &str {
    markup.split("<rt>").nth(group as usize).unwrap_or("")
}

/// What the advances of a group's characters add up to.
fn base_advance(group: &[Character]) -> u32 {
    group
        .iter()
        .map(|character| character.record.advance)
        .fold(0, u32::saturating_add)
}

/// A line's characters over a measure.
#[derive(Clone, Copy, Debug)]
pub(crate) struct BaseRow<'a> {
    pub(crate) characters: &'a [Character],
    pub(crate) measure: u32,
}

impl BaseRow<'_> {
    pub(crate) fn has_ruby(&self) -> bool {
        self.characters
            .iter()
            .any(|character| character.record.group != 0)
    }
}

impl fmt::Display for BaseRow<'_> {
    fn fmt<W: fmt::Write>(&self, f: &mut fmt::Formatter<W>) -> fmt::Result {
        let mut row = Row::open(f)?;
        for character in self.characters {
            row.put(character.placed())?;
        }
        row.close(self.measure)
    }
}

/// The ruby over a line. `markup` is the text that was imported.
#[derive(Clone, Copy, Debug)]
pub(crate) struct RubyRow<'a> {
    pub(crate) base: BaseRow<'a>,
    pub(crate) markup: &'a str,
}

impl fmt::Display for RubyRow<'_> {
    fn fmt<W: fmt::Write>(&self, f: &mut fmt::Formatter<W>) -> fmt::Result {
        let BaseRow {
            characters,
            measure,
        } = self.base;
        let mut row = Row::open(f)?;
        let mut taken = 0;
        for run in characters.chunk_by(|a, b| a.record.group == b.record.group) {
            row.put_ruby(run, taken, self.markup)?;
            taken = run
                .iter()
                .fold(taken, |taken, character| character.placed().end(taken));
        }
        row.close(measure)
    }
}

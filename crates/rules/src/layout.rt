// "The sheet": how many words there are of each thing, and where in a slot they stand. The definitions have the same in
// specs/Layout.antt.
pub const MOST_SLOTS: usize = 64;

pub const MOST_RECORDS: usize = 256;

pub const RECORD_WORDS: usize = 6;

pub const PLACE_WORDS: usize = 2;

pub const LINE_WORDS: usize = 3;

// The words of all records, of all places and of all lines.
pub const RECORDS_WORDS: usize = MOST_RECORDS * RECORD_WORDS;

pub const PLACES_WORDS: usize = MOST_RECORDS * PLACE_WORDS;

pub const LINES_WORDS: usize = MOST_RECORDS * LINE_WORDS;

// The words of the head.
pub const CLINIC: usize = 0;

pub const MEASURE: usize = 1;

pub const INDENT: usize = 2;

pub const RECORD_COUNT: usize = 3;

pub const LINE_COUNT: usize = 4;

pub const IN_USE: usize = 5;

// What follows it.
pub const RECORDS: usize = 8;

pub const PLACES: usize = RECORDS + RECORDS_WORDS;

pub const LINES: usize = PLACES + PLACES_WORDS;

pub const SLOT_WORDS: usize = LINES + LINES_WORDS;

// The words of a record.
pub const CODE_POINT: usize = 0;

pub const CLASS: usize = 1;

pub const SIZE: usize = 2;

pub const ADVANCE: usize = 3;

pub const GROUP: usize = 4;

pub const RUBY_COUNT: usize = 5;

// The words of a line.
pub const FIRST_RECORD: usize = 0;

pub const END_X: usize = 1;

pub const KIND: usize = 2;

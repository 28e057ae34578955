// The least and the most that a number of a record, of a group or of a slot may be. The definitions have the same in
// specs/Limits.antt.
pub const HIGHEST_CLINIC: u32 = 65535;

pub const LEAST_MEASURE: u32 = 8;

pub const LARGEST_MEASURE: u32 = 1000000;

pub const HIGHEST_CODE: u32 = 0x10FFFF;

pub const SIZE_STEP: u32 = 8;

pub const LEAST_SIZE: u32 = 8;

pub const LARGEST_SIZE: u32 = 4000;

pub const HIGHEST_GROUP: u32 = 65535;

pub const MOST_RUBY: u32 = 64;

pub const MOST_GROUPED: usize = 16;

pub const LARGEST_BASE: u32 = 64000;

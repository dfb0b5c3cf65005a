// The number of each field's line.
pub const SIZES: usize = 0;

pub const DESCRIPTION: usize = 1;

pub const DURATIONS: usize = 2;

pub const DURATION: usize = 3;

pub const OFFSETS: usize = 4;

pub const SIZE: usize = 5;

pub const FLAGS: usize = 6;

pub const DEFAULT_FLAGS: usize = 7;

pub const IVS: usize = 8;

pub const SUBSAMPLES: usize = 9;

pub const FIRST_FLAGS: usize = 10;

pub const CLEAR: usize = 11;

pub const PROTECTED: usize = 12;

pub const IV_SIZE: usize = 13;

// The ids of objects and of tuples.

// A full object's header id, and a delta's.
pub const FULL: u64 = 23;

pub const DELTA: u64 = 25;

// How many ids a block can have a tuple of: those from 0 to 27, the ones that are unknown counted too.
pub const IDS: usize = 28;

// The IVs, which a delta leaves out where they follow.
pub const IVS: u64 = 9;

// The ids that have no place in the set's table: BMDT, the sample count, the four of a producer reference time, brands, events, deletions.
pub const BMDT: u64 = 10;

pub const COUNT: u64 = 14;

pub const NTP: u64 = 18;

pub const MEDIA_TIME: u64 = 20;

pub const VERSION: u64 = 22;

pub const BRANDS: u64 = 23;

pub const PRFT_FLAGS: u64 = 24;

pub const EVENTS: u64 = 25;

pub const DELETIONS: u64 = 27;

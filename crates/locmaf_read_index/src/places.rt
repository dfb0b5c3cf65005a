// The words of a block's index: three for each id. The first is one more than the place of its part, and 0 where the id doesn't stand; then the
// number after its id, and how many numbers it has.
use constants::ids;

pub const EACH: usize = 3;

pub const NUMBER: usize = 1;

pub const COUNT: usize = 2;

// The words of an index.
pub const INDEX: usize = EACH * ids::IDS;

// The words of the ids that are read one by one.
pub const IVS: usize = EACH * ids::IVS as usize;

pub const BMDT: usize = EACH * ids::BMDT as usize;

pub const BMDT_NUMBER: usize = BMDT + NUMBER;

pub const SAMPLES: usize = EACH * ids::COUNT as usize;

pub const SAMPLES_NUMBER: usize = SAMPLES + NUMBER;

pub const NTP: usize = EACH * ids::NTP as usize;

pub const NTP_NUMBER: usize = NTP + NUMBER;

pub const MEDIA_TIME: usize = EACH * ids::MEDIA_TIME as usize;

pub const MEDIA_TIME_NUMBER: usize = MEDIA_TIME + NUMBER;

pub const VERSION: usize = EACH * ids::VERSION as usize;

pub const BRANDS: usize = EACH * ids::BRANDS as usize;

pub const BRANDS_LENGTH: usize = BRANDS + NUMBER;

pub const PRFT_FLAGS: usize = EACH * ids::PRFT_FLAGS as usize;

const EVENTS: usize = EACH * ids::EVENTS as usize;

pub const EVENTS_LENGTH: usize = EVENTS + NUMBER;

pub const EVENTS_COUNT: usize = EVENTS + COUNT;

pub const DELETIONS: usize = EACH * ids::DELETIONS as usize;

pub const DELETIONS_LENGTH: usize = DELETIONS + NUMBER;

// How much there may be of anything.

// In a chunk: samples, and subsamples of all of them.
pub const SAMPLES: usize = 64;

pub const SUBSAMPLES: usize = 256;

// The brands, and their bytes; the events, and the bytes that list them.
pub const BRANDS: usize = 16;

pub const BRAND_BYTES: usize = 4 * BRANDS;

pub const EVENTS: usize = 16;

pub const EVENT_BYTES: u64 = 4096;

// The bytes of a property block, and of a payload.
pub const BLOCK: u64 = 16384;

pub const PAYLOAD: u64 = 16777216;

// The largest number on the wire, and so the largest BMDT.
pub const NUMBER: u64 = 0x3fff_ffff_ffff_ffff;

// What a share can have as the size of a sample's entry in `saiz`.
pub const ENTRY: u64 = 255;

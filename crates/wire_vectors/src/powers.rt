// The powers of two at which the cases stand, and the largest number.
pub const P30: u64 = 0x4000_0000;

pub const P31: u64 = 0x8000_0000;

pub const P61: u64 = 0x2000_0000_0000_0000;

pub const P62: u64 = 0x4000_0000_0000_0000;

pub const TOP: u64 = 0xffff_ffff_ffff_ffff;

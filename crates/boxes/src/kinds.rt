// The types of the boxes, four letters each.
pub const STYP: u64 = 0x7374_7970;

pub const PRFT: u64 = 0x7072_6674;

pub const EMSG: u64 = 0x656d_7367;

pub const MOOF: u64 = 0x6d6f_6f66;

pub const MFHD: u64 = 0x6d66_6864;

pub const TRAF: u64 = 0x7472_6166;

pub const TFHD: u64 = 0x7466_6864;

pub const TFDT: u64 = 0x7466_6474;

pub const TRUN: u64 = 0x7472_756e;

pub const SENC: u64 = 0x7365_6e63;

pub const SAIZ: u64 = 0x7361_697a;

pub const SAIO: u64 = 0x7361_696f;

pub const MDAT: u64 = 0x6d64_6174;

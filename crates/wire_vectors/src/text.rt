// The words that are printed: each is a number whose bytes are its letters, since an array of text that a function lends would make its check longer.
// Letters: `w` a word, `s` bytes that are read.
use std::io;

// "varint "
pub const VARINT: u64 = 0x76_6172_696e_7420;

// " size "
pub const SIZE: u64 = 0x2073_697a_6520;

// " bytes "
pub const BYTES: u64 = 0x20_6279_7465_7320;

// "bytes "
pub const LONE_BYTES: u64 = 0x6279_7465_7320;

// " reads "
pub const READS: u64 = 0x20_7265_6164_7320;

// " next "
pub const NEXT: u64 = 0x206e_6578_7420;

// " cut"
pub const CUT: u64 = 0x2063_7574;

// " end "
pub const END: u64 = 0x20_656e_6420;

// "place "
pub const PLACE: u64 = 0x706c_6163_6520;

// " place "
pub const AT_PLACE: u64 = 0x20_706c_6163_6520;

// "list"
pub const LIST: u64 = 0x6c69_7374;

// " against"
pub const AGAINST: u64 = 0x2061_6761_696e_7374;

// " _"
pub const BLANK: u64 = 0x205f;

// " done"
pub const DONE: u64 = 0x20_646f_6e65;

// " misfit"
pub const MISFIT: u64 = 0x20_6d69_7366_6974;

// " outside"
pub const OUTSIDE: u64 = 0x206f_7574_7369_6465;

// "  fill"
pub const FILL: u64 = 0x2020_6669_6c6c;

// " bound "
pub const BOUND: u64 = 0x20_626f_756e_6420;

// " wanted "
pub const WANTED: u64 = 0x2077_616e_7465_6420;

// " plain"
pub const PLAIN: u64 = 0x2070_6c61_696e;

// " delta"
pub const DELTA: u64 = 0x2064_656c_7461;

// " base "
pub const BASE: u64 = 0x2062_6173_6520;

// " measure"
pub const MEASURE: u64 = 0x206d_6561_7375_7265;

// " too"
pub const TOO: u64 = 0x2074_6f6f;

// " wide"
pub const WIDE: u64 = 0x20_7769_6465;

// "made "
pub const MADE: u64 = 0x6d_6164_6520;

// " "
pub const SPACE: u64 = 0x20;

// "-"
pub const DASH: u64 = 0x2d;

// the end of a line
pub const LINE: u64 = 0x0a;

// A word, and after it the bytes from one place to another in hexadecimal, or a dash where there are none.
pub fn hex<R: Print>(rt: &R, w: u64, s: &[u8], from: usize, to: usize) -> io::Result<()> {
    printing::word(rt, w)?;
    if to <= from {
        printing::word(rt, DASH)?;
    }
    printing::hex(rt, s, from, to)
}

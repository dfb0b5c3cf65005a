// `trun`.
// Letters: `c` a chunk's bytes, `b` a box of the chunk, `r` the rows of the `trun`, `i` which one, counted from 0.
ghost use Rattle.std.specs.Prelude.{◌≡◌, true, ◌^◌, ◌≤◌, ◌<◌};
ghost use Rattle.cmaf_read_shape.specs.Parts.{Inside};
ghost use Rattle.cmaf_read_trun.specs.Rows.{columns_in, run_flags_ok, run_head, run_width, trun_ok, run_of, RowsIn};
ghost use Rattle.cmaf_read_trun.specs.Rows.{data_offset, offset_leads, first_flags, is_column, has_column, cell, size_at};

use byte_parts::Part;
use cmaf_read_shape::words::bit;
use cmaf_read_tree::numbers;

// A `trun`: version and flags as one word, the samples, where the first row stands, and the bytes of a row.
#[derive(Clone, Copy)]
pub struct Run {
    pub word: u64,
    pub count: u64,
    pub rows: usize,
    pub width: usize,
}

// The columns of a `trun`, by their flags.
pub const DURATIONS: u64 = 0x100;

pub const SIZES: u64 = 0x200;

pub const FLAGS: u64 = 0x400;

pub const OFFSETS: u64 = 0x800;

// The flag of the first sample's own flags.
pub const FIRST: u64 = 0x4;

// How many columns the flags of a word bring.
fn columns_in(word: u64) -> u64
    ensures { (result ≡ columns_in word) × (result ≤ 4) }
{
    bit(word, DURATIONS) + (bit(word, SIZES) + (bit(word, FLAGS) + bit(word, OFFSETS)))
}

// Version 0 or 1; flags within 0xF05, the data offset's among them, and not both the first sample's flags and a column of flags.
fn run_flags_ok(word: u64) -> bool
    ensures { result ≡ run_flags_ok word }
{
    let first = bit(word, FIRST);
    let flags = bit(word, FLAGS);
    let columns = DURATIONS * bit(word, DURATIONS)
        + (SIZES * bit(word, SIZES) + (FLAGS * flags + OFFSETS * bit(word, OFFSETS)));
    (word / 0x100_0000 <= 1)
        & ((word % 0x100_0000 == 0x1 + (FIRST * first + columns)) & (first + flags <= 1))
}

// The bytes before the first row.
fn run_head(word: u64) -> u64
    ensures { (result ≡ run_head word) × (result ≤ 24) }
{
    20 + 4 * bit(word, FIRST)
}

// The bytes of a row: four for each column.
fn run_width(word: u64) -> u64
    ensures { (result ≡ run_width word) × (result ≤ 16) }
{
    4 * columns_in(word)
}

// The length is what flags and count say. A count has 32 bits and a row at most 16 bytes, so the product is exact.
pub fn trun_ok(c: &[u8], b: Part) -> bool
    requires { Inside c.now b }
    ensures { result ≡ trun_ok c.now b }
{
    if b.len < 20 {
        return false;
    }
    let word = numbers::u32_at(c, b.at + 8);
    let count = numbers::u32_at(c, b.at + 12);
    run_flags_ok(word) & (b.len as u64 == run_head(word) + run_width(word) * count)
}

pub fn run_of(c: &[u8], b: Part) -> Run
    requires inside { Inside c.now b }
    requires b_value { trun_ok c.now b ≡ true }
    ensures { (result ≡ run_of c.now b) × (result.count < 2 ^ 32) }
{
    let word = numbers::u32_at(c, b.at + 8);
    Run {
        word,
        count: numbers::u32_at(c, b.at + 12),
        rows: b.at + run_head(word) as usize,
        width: run_width(word) as usize,
    }
}

// The offset of the payload from the start of the `moof`, as 32 bits.
pub fn data_offset(c: &[u8], b: Part) -> u64
    requires inside { Inside c.now b }
    requires b_value { trun_ok c.now b ≡ true }
    ensures { (result ≡ data_offset c.now b) × (result < 2 ^ 32) }
{
    numbers::u32_at(c, b.at + 16)
}

// It leads past the `moof` and the head of the box after it. It is signed in its box, so it must be below 2^31 too.
pub fn offset_ok(c: &[u8], b: Part, moof: Part) -> bool
    requires { Inside c.now b × (trun_ok c.now b ≡ true) × Inside c.now moof }
    ensures { result ≡ offset_leads c.now b moof }
{
    let offset = data_offset(c, b);
    (offset < 0x8000_0000) & (offset == moof.len as u64 + 8)
}

// The first sample's flags; none set where they don't stand.
pub fn first_flags(c: &[u8], b: Part) -> u64
    requires inside { Inside c.now b }
    requires b_value { trun_ok c.now b ≡ true }
    ensures { (result ≡ first_flags c.now b) × (result < 2 ^ 32) }
{
    let word = numbers::u32_at(c, b.at + 8);
    if bit(word, FIRST) == 0 {
        return 0;
    }
    numbers::u32_at(c, b.at + 20)
}

pub fn has(r: Run, column: u64) -> bool
    requires { is_column column ≡ true }
    ensures { result ≡ has_column r column }
{
    bit(r.word, column) == 1
}

// What stands in a column for a sample. The columns stand in the order of their flags.
pub fn cell(c: &[u8], r: Run, column: u64, i: usize) -> u64
    requires rows_in { RowsIn c.now r }
    requires column_value { is_column column ≡ true }
    requires column_value_2 { has_column r column ≡ true }
    requires i_lt_count { i < r.count }
    ensures { (result ≡ cell c.now r column i) × (result < 2 ^ 32) }
{
    let before = columns_in(r.word % column) as usize;
    numbers::u32_at(c, r.rows + r.width * i + 4 * before)
}

// The size of a sample.
pub fn size_at(c: &[u8], r: Run, default: u64, i: usize) -> u64
    requires rows_in { RowsIn c.now r }
    requires default_bound { default < 2 ^ 32 }
    requires i_lt_count { i < r.count }
    ensures { (result ≡ size_at c.now r default i) × (result < 2 ^ 32) }
{
    if has(r, SIZES) {
        return cell(c, r, SIZES, i);
    }
    default
}

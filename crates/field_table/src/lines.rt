// The table of the fields that a set has beside BMDT and the sample count: a line for each id, in ascending order.
// Letters: `i` which one, counted from 0, `m` the lengths that fields go by.
ghost use Rattle.std.specs.Prelude.{◌≡◌, get_or};
ghost use Rattle.field_table.specs.Lines.{lines, spare, line_of, place_of, line_number, wanted};

use constants::maxima;
use constants::maxima::SAMPLES;

// How many values a field has where it stands: one, a value for each sample or for each but the last, the words of the IVs, or a value for
// each subsample.
#[derive(Clone, Copy)]
pub enum Want {
    One,
    LessOne,
    Count,
    Ivs,
    Sum,
}

// What a value counts as in a delta where the reference has none.
#[derive(Clone, Copy)]
pub enum Absent {
    Zero,
    Middle,
    Description,
    Duration,
    Size,
    Flags,
    IvSize,
}

// A line: the place of the field's mark in the set's words, how many words its values have room for after it, how many of them are in use,
// the largest value, and what an absent one counts as.
#[derive(Clone, Copy)]
pub struct Line {
    pub id: u64,
    pub place: usize,
    pub room: usize,
    pub want: Want,
    pub bound: u64,
    pub absent: Absent,
}

// What decides how many values a field has: the sample count, the words of an IV and the sum of the subsample counts.
#[derive(Clone, Copy)]
pub struct Measure {
    pub count: usize,
    pub ivs: usize,
    pub sum: usize,
}

// The places in the words of a set: of BMDT, of the sample count, and of the mark of each field.
pub const BMDT: usize = 0;

pub const COUNT: usize = 1;

pub const SIZES: usize = 2;

pub const DESCRIPTION: usize = 66;

pub const DURATIONS: usize = 68;

pub const DURATION: usize = 133;

pub const OFFSETS: usize = 135;

pub const SIZE: usize = 200;

pub const FLAGS: usize = 202;

pub const DEFAULT_FLAGS: usize = 267;

pub const IVS: usize = 269;

pub const SUBSAMPLES: usize = 398;

pub const FIRST_FLAGS: usize = 463;

pub const CLEAR: usize = 465;

pub const PROTECTED: usize = 722;

pub const IV_SIZE: usize = 979;

// The words of a set.
pub const SET: usize = 981;

// The lines of the table.
pub const LINES: usize = 14;

// The room of the sizes, which leave one sample out, and of the IVs, which have up to two words each.
const ALL_BUT_ONE: usize = SAMPLES - 1;

const IV_WORDS: usize = 2 * SAMPLES;

const U5: u64 = 31;

const U8: u64 = 0xff;

const U16: u64 = 0xffff;

const U32: u64 = 0xffff_ffff;

const U64: u64 = 0xffff_ffff_ffff_ffff;

fn row(id: u64, place: usize, room: usize, want: Want, bound: u64, absent: Absent) -> Line
    ensures { result ≡ line_of id place room want bound absent }
{
    Line {
        id,
        place,
        room,
        want,
        bound,
        absent,
    }
}

// The line with the number i.
pub fn line_at(i: usize) -> Line
    ensures { result ≡ get_or lines i spare }
{
    match i {
        0 => row(1, SIZES, ALL_BUT_ONE, Want::LessOne, U32, Absent::Zero),
        1 => row(2, DESCRIPTION, 1, Want::One, U32, Absent::Description),
        2 => row(3, DURATIONS, SAMPLES, Want::Count, U32, Absent::Zero),
        3 => row(4, DURATION, 1, Want::One, U32, Absent::Duration),
        4 => row(5, OFFSETS, SAMPLES, Want::Count, U32, Absent::Middle),
        5 => row(6, SIZE, 1, Want::One, U32, Absent::Size),
        6 => row(7, FLAGS, SAMPLES, Want::Count, U5, Absent::Zero),
        7 => row(8, DEFAULT_FLAGS, 1, Want::One, U5, Absent::Flags),
        8 => row(9, IVS, IV_WORDS, Want::Ivs, U64, Absent::Zero),
        9 => row(11, SUBSAMPLES, SAMPLES, Want::Count, U16, Absent::Zero),
        10 => row(12, FIRST_FLAGS, 1, Want::One, U5, Absent::Zero),
        11 => row(13, CLEAR, maxima::SUBSAMPLES, Want::Sum, U16, Absent::Zero),
        12 => row(
            15,
            PROTECTED,
            maxima::SUBSAMPLES,
            Want::Sum,
            U32,
            Absent::Zero,
        ),
        13 => row(16, IV_SIZE, 1, Want::One, U8, Absent::IvSize),
        _ => row(0, 0, 0, Want::One, 0, Absent::Zero),
    }
}

// Where the region of the line with the number i begins, and past the last line where the words end: all that a loop has to know of a field that
// doesn't stand.
pub fn place_at(i: usize) -> usize
    ensures { result ≡ place_of i }
{
    match i {
        0 => SIZES,
        1 => DESCRIPTION,
        2 => DURATIONS,
        3 => DURATION,
        4 => OFFSETS,
        5 => SIZE,
        6 => FLAGS,
        7 => DEFAULT_FLAGS,
        8 => IVS,
        9 => SUBSAMPLES,
        10 => FIRST_FLAGS,
        11 => CLEAR,
        12 => PROTECTED,
        13 => IV_SIZE,
        _ => SET,
    }
}

// The id of the line with the number i.
pub fn id_at(i: usize) -> u64
    ensures { result ≡ (get_or lines i spare).id }
{
    match i {
        0 => 1,
        1 => 2,
        2 => 3,
        3 => 4,
        4 => 5,
        5 => 6,
        6 => 7,
        7 => 8,
        8 => 9,
        9 => 11,
        10 => 12,
        11 => 13,
        12 => 15,
        13 => 16,
        _ => 0,
    }
}

// How many values a field has where it stands.
pub fn length_of(want: Want, m: Measure) -> usize
    requires { Rattle.field_table.specs.Lines.Small m }
    ensures { result ≡ wanted want m }
{
    match want {
        Want::One => 1,
        Want::LessOne => { if m.count == 0 { 0 } else { m.count - 1 } }
        Want::Count => m.count,
        Want::Ivs => m.count * m.ivs,
        Want::Sum => m.sum,
    }
}

// The number of the line of an id; LINES for an id that has none.
pub fn number_of(id: u64) -> usize
    ensures { result ≡ line_number id lines }
{
    for i in 0..LINES {
        if line_at(i).id == id {
            return i;
        }
    }
    LINES
}

// Lawful shares, filled by hand: seven in an encoder's table, whose first slot is closed, and eight in a receiver's.
// Letters: `t` a table.
ghost use Rattle.std.specs.Prelude.{◌≤◌};
ghost use Rattle.share_words.specs.Share.{share_len};

use crate::calls::WORDS;
use share_words::share::{EXPECTED, HELD, SET, SHARE, TRACK};
use slots::lawful::Side;

const RUNS: usize = 178;

// Runs of words. In the decimal digits of a run stand a value, how many words it is put into, the first of them, what that is counted from (0 the
// share's first word, 1 the mark of the reference, 2 the set, 3 the BMDT that is expected), and the number of the share, from 8 on in the receiver's
// table: 42_006_399_2_07 puts 42 into six words of share 7, from word 399 of its set on. What is expected is added up by hand: of no share is it
// past 2^64-1, so that its mark is 0. So are the last sample's protected bytes, which stand behind it.
const SHARES: [u64; RUNS] = [
    // The encoder's, without a reference.
    9_006_000_0_01,
    // cenc, a lone sample with ids 9, 11, 13, 15.
    9_006_000_0_02,
    1_001_006_0_02,
    8_001_007_0_02,
    1_001_000_1_02,
    14_001_000_3_02,
    1_001_001_3_02,
    5_001_000_2_02,
    1_001_001_2_02,
    1_002_269_2_02,
    1_001_398_2_02,
    2_001_399_2_02,
    1_001_465_2_02,
    1_002_722_2_02,
    // Video with ids 1, 3, 5, 7.
    9_006_000_0_03,
    1_003_000_1_03,
    4_294_967_296_001_003_1_03,
    1_002_004_1_03,
    13_001_000_3_03,
    5_001_000_2_03,
    8_001_001_2_03,
    1_002_002_2_03,
    1_009_068_2_03,
    1_009_135_2_03,
    1_009_202_2_03,
    // Video with ids 2, 4, 6, 8, 12.
    9_006_000_0_04,
    1_004_000_1_04,
    1_001_005_1_04,
    13_001_000_3_04,
    5_001_000_2_04,
    8_001_001_2_04,
    1_002_066_2_04,
    1_002_133_2_04,
    1_002_200_2_04,
    1_002_267_2_04,
    1_002_463_2_04,
    // cenc with ids 1, 9, 11, 13, 15, 16.
    9_006_000_0_05,
    1_001_006_0_05,
    8_001_007_0_05,
    1_001_000_1_05,
    41_001_000_3_05,
    5_001_000_2_05,
    4_001_001_2_05,
    1_001_002_2_05,
    6_002_003_2_05,
    1_005_269_2_05,
    1_001_398_2_05,
    3_002_399_2_05,
    1_007_465_2_05,
    1_007_722_2_05,
    1_001_979_2_05,
    8_001_980_2_05,
    // cenc with all lists of 64 samples.
    9_006_000_0_06,
    1_001_006_0_06,
    16_001_007_0_06,
    1_001_000_1_06,
    69_001_000_3_06,
    4_001_001_3_06,
    5_001_000_2_06,
    64_001_001_2_06,
    1_001_002_2_06,
    8_063_003_2_06,
    1_065_068_2_06,
    1_065_135_2_06,
    1_065_202_2_06,
    1_130_269_2_06,
    4_064_399_2_06,
    1_514_465_2_06,
    // cbcs with ids 1, 11, 13, 15.
    9_006_000_0_07,
    2_001_006_0_07,
    1_001_000_1_07,
    77_001_000_3_07,
    5_001_000_2_07,
    8_001_001_2_07,
    1_001_002_2_07,
    84_006_003_2_07,
    8_001_009_2_07,
    1_001_398_2_07,
    42_006_399_2_07,
    4_001_405_2_07,
    1_514_465_2_07,
    // The receiver's, without a reference.
    9_006_000_0_08,
    9_001_008_0_08,
    // No samples, with ids 2, 4, 6, 8, 16.
    9_006_000_0_09,
    4_294_967_295_001_008_0_09,
    1_004_000_1_09,
    1_001_005_1_09,
    5_001_000_3_09,
    5_001_000_2_09,
    1_002_066_2_09,
    1_002_133_2_09,
    1_002_200_2_09,
    1_002_267_2_09,
    1_001_979_2_09,
    // One sample with ids 3, 5, 7.
    9_006_000_0_10,
    1_001_008_0_10,
    1_001_000_1_10,
    6_001_000_3_10,
    5_001_000_2_10,
    1_001_001_2_10,
    1_002_068_2_10,
    1_002_135_2_10,
    1_002_202_2_10,
    // cbcs, two samples of trex's size with ids 11, 13, 15.
    9_006_000_0_11,
    2_001_006_0_11,
    2_001_008_0_11,
    1_003_000_1_11,
    4_294_967_296_001_003_1_11,
    1_002_004_1_11,
    23_001_000_3_11,
    5_001_000_2_11,
    2_001_001_2_11,
    1_003_398_2_11,
    1_001_465_2_11,
    4_002_466_2_11,
    1_001_722_2_11,
    5_002_723_2_11,
    // cenc with ids 6, 9, 11, 13, 15.
    9_006_000_0_12,
    1_001_006_0_12,
    16_001_007_0_12,
    3_001_008_0_12,
    1_001_000_1_12,
    32_001_000_3_12,
    3_001_001_3_12,
    5_001_000_2_12,
    3_001_001_2_12,
    1_001_200_2_12,
    6_001_201_2_12,
    1_007_269_2_12,
    1_002_398_2_12,
    2_001_400_2_12,
    1_001_401_2_12,
    1_001_465_2_12,
    3_001_466_2_12,
    1_002_467_2_12,
    3_001_469_2_12,
    1_001_722_2_12,
    3_001_723_2_12,
    2_002_724_2_12,
    3_001_726_2_12,
    // cenc without samples, with id 16.
    9_006_000_0_13,
    1_001_006_0_13,
    8_001_007_0_13,
    4_001_008_0_13,
    1_004_000_1_13,
    1_001_005_1_13,
    5_001_000_3_13,
    5_001_000_2_13,
    1_001_979_2_13,
    8_001_980_2_13,
    // cbcs with ids 1, 3, 5, 11, 13, 15, whose lists are all 0, so that their lengths can change.
    9_006_000_0_14,
    2_001_006_0_14,
    5_001_008_0_14,
    1_001_000_1_14,
    5_001_000_3_14,
    5_001_000_2_14,
    4_001_001_2_14,
    1_001_002_2_14,
    1_001_068_2_14,
    1_001_135_2_14,
    1_001_398_2_14,
    3_003_399_2_14,
    1_001_465_2_14,
    1_001_722_2_14,
    // cenc with ids 4, 6, 9, 11, 13, 15, whose values are all 0.
    9_006_000_0_15,
    1_001_006_0_15,
    16_001_007_0_15,
    6_001_008_0_15,
    1_001_000_1_15,
    5_001_000_3_15,
    5_001_000_2_15,
    3_001_001_2_15,
    1_001_133_2_15,
    1_001_200_2_15,
    1_001_269_2_15,
    1_001_398_2_15,
    1_001_465_2_15,
    1_001_722_2_15,
];

// The word of a share that a run's first one is counted from.
fn counted_from(which: u64) -> usize
    ensures { result ≤ share_len }
{
    match which {
        0 => TRACK,
        1 => HELD,
        2 => SET,
        _ => EXPECTED,
    }
}

// Puts a run into its share, where that is one of the eight that are asked for.
fn store(t: &mut [u64; WORDS], eight: u64, run: u64) {
    let share = run % 100;
    if share / 8 == eight {
        let from = (share % 8) as usize * SHARE + counted_from(run / 100 % 10);
        let first = from + (run / 1000 % 1000) as usize;
        let last = first + (run / 1_000_000 % 1000) as usize;
        if let Some(words) = t.get_mut(first..last) {
            words.fill(run / 1_000_000_000);
        }
    }
}

// The table of a side.
pub fn table(side: Side, t: &mut [u64; WORDS]) {
    let eight = match side {
        Side::Encoder => 0,
        Side::Receiver => 1,
    };
    for run in SHARES {
        store(t, eight, run);
    }
}

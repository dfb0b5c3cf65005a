// The words of each number, as include/locmaf.h has them.
ghost use Rattle.std.specs.Prelude.{◌≡◌};
ghost use Rattle.accounts.specs.Words.{words_of};

// What a number says.
pub fn meaning(number: u64) -> &'static str
    ensures { result.now ≡ words_of number }
{
    match number {
        0 => "done",
        1 => "slot number above 7",
        2 => "slot not open",
        3 => "opening an open slot",
        4 => "bad parameters",
        5 => "chunk: the tree of boxes is broken",
        6 => "chunk: wrong box, order, version, flags or box length",
        7 => "chunk: any other rule of the chunk accepted broken",
        8 => "chunk: a count or length past its maximum",
        9 => {
            "chunk: BMDT past its maximum, whatever the wish; or, where no delta is given, a number too wide in the full object"
        }
        10 => "header id neither 23 nor 25: skipped",
        11 => "delta, and no reference held",
        12 => "object unreadable",
        13 => {
            "id unknown, twice or forbidden here; a full without 10 or 14; only one of 18 and 20; 22 or 24 without them; a delta with `prft` ids where the current full has none"
        }
        14 => {
            "deletion, list length (ids 9 and 23 too) or resulting set unlawful, any other absence included"
        }
        15 => "value outside its range or maximum",
        16 => "sizes or protected sums disagree",
        17 => "output shorter than the front",
        21 => "derived IV past its size",
        _ => "table of the wrong length, or the named share unlawful",
    }
}

// What is saved, in percent.
ghost use Rattle.std.specs.Prelude.{◌≡◌, ◌*◌, ◌<◌, min};
ghost use Rattle.accounts.specs.Saved.{IsNearest};

use std::fmt;

// What is saved of so many bytes where so many are left: shown in percent, with one decimal.
#[derive(Clone, Copy)]
pub struct Saved {
    pub before: u64,
    pub after: u64,
}

// Counts past this are taken as this, so that no product is too large.
const MOST: u64 = 0x4_0000_0000_0000;

// The part in tenths of a percent of the whole, rounded to the nearest.
pub fn tenths(part: u64, whole: u64) -> u64
    ensures none { whole ≡ 0 → result ≡ 0 }
    ensures nearest { 0 < whole → IsNearest result (1000 * min part MOST) (min whole MOST) }
{
    let p = part.min(MOST);
    let w = whole.min(MOST);
    if w == 0 {
        return 0;
    }
    (p * 1000 + w / 2) / w
}

impl fmt::Display for Saved {
    fn fmt<W: fmt::Write>(&self, f: &mut fmt::Formatter<W>) -> fmt::Result {
        let sign = if self.before < self.after { "-" } else { "" };
        let t = tenths(self.before.abs_diff(self.after), self.before);
        write!(f, "{sign}{}.{} %", t / 10, t % 10)
    }
}

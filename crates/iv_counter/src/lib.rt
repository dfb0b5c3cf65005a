// An IV as a big-endian counter of 8 or 16 bytes, for both sizes alike: two words, of which the first is 0 where there is room for one.
// Letters: `w` the words of a set, `x` those of a new one, `c` a counter, `k` how many words an IV has, `i` which one, counted from 0.
#![tactic(auto)]

ghost use Rattle.std.specs.Prelude.{◌≡◌, true, List, ◌⊎◌, ℕ, ◌+◌, ◌*◌, ◌^◌, ◌≤◌, eqb, length};
ghost use Rattle.std.proofs.lemmas.List.Edits.{sets};
ghost use Rattle.constants.specs.Maxima.{samples_most};
ghost use Rattle.field_table.specs.Lines.{set_len, ivs_at};
ghost use Rattle.iv_counter.specs.Counter.{blocks, top_of, counter_at, counter_words, Counts};

use field_table::lines;

const U64: u64 = 0xffff_ffff_ffff_ffff;

// The place of the first IV's first word, behind the mark of id 9.
const FIRST_IV: usize = lines::IVS + 1;

// `ok` says that it doesn't pass its size.
#[derive(Clone, Copy)]
pub struct Counter {
    pub ok: bool,
    pub high: u64,
    pub low: u64,
}

// The largest first word of a counter of k words.
pub fn top_of(k: usize) -> u64
    ensures { result ≡ top_of k }
{
    if k == 2 {
        return U64;
    }
    0
}

// The IV with the number i.
pub fn counter_at(w: &[u64], k: usize, i: usize) -> Counter
    requires { (length w.now ≡ set_len) × ((k ≡ 1) ⊎ (k ≡ 2)) × (i + 1 ≤ samples_most) }
    ensures { Counts k (counter_at k i w.now) result }
{
    let at = FIRST_IV + i * k;
    if k == 2 {
        return Counter {
            ok: true,
            high: w[at],
            low: w[at + 1],
        };
    }
    Counter {
        ok: true,
        high: 0,
        low: w[at],
    }
}

// The one that follows it by so many protected bytes. It never goes round: past its size it is none.
pub fn next(top: u64, c: Counter, bytes: u64) -> Counter
    requires { bytes ≤ 2 ^ 48 }
    ensures { (k n : ℕ) → (k ≡ 1) ⊎ (k ≡ 2) → top ≡ top_of k → Counts k n c → Counts k (n + blocks bytes) result }
{
    let blocks = (bytes + 15) / 16;
    let room = U64 - blocks;
    if c.low <= room {
        return Counter {
            ok: c.ok,
            high: c.high,
            low: c.low + blocks,
        };
    }
    if c.high < top {
        return Counter {
            ok: c.ok,
            high: c.high + 1,
            low: c.low - room - 1,
        };
    }
    Counter {
        ok: false,
        high: 0,
        low: 0,
    }
}

// Whether d is the counter that follows c by so many protected bytes.
pub fn comes(top: u64, c: Counter, bytes: u64, d: Counter) -> bool
    requires { bytes ≤ 2 ^ 48 }
    ensures { (k n m : ℕ) → (k ≡ 1) ⊎ (k ≡ 2) → top ≡ top_of k → Counts k n c → Counts k m d → d.ok ≡ true
        → result ≡ eqb (n + blocks bytes) m }
{
    let e = next(top, c, bytes);
    e.ok & ((e.high == d.high) & (e.low == d.low))
}

// Its words, as the IV with the number i.
pub fn put_counter(c: Counter, k: usize, i: usize, x: &mut [u64])
    requires { (length x.old ≡ set_len) × ((k ≡ 1) ⊎ (k ≡ 2)) × (i + 1 ≤ samples_most) }
    ensures { (length x.new ≡ length x.old)
        × ((vs : List ℕ) × (length vs ≡ k) × (x.new ≡ sets x.old (ivs_at + 1 + i * k) vs))
        × ((n : ℕ) → Counts k n c → c.ok ≡ true
        → x.new ≡ sets x.old (ivs_at + 1 + i * k) (counter_words k n)) }
{
    let at = FIRST_IV + i * k;
    if k == 2 {
        x[at] = c.high;
        x[at + 1] = c.low;
    } else {
        x[at] = c.low;
    }
}

// Runs of varints: the values of a list field. One reader, one writer and one measuring pass serve every list field, full and delta. They
// take as parameters how the values stand on the wire, the old list, what an absent old element counts as, and the largest value.
// Letters: `s` bytes that are read, `n` how many.
#![tactic(auto)]

ghost use Rattle.std.specs.Prelude.{◌≡◌, ℕ, ◌+◌, ◌-◌, ◌≤◌, ◌<◌, List, length, get_or};
ghost use Rattle.laws.specs.Writes.{Wrote};
ghost use Rattle.wire.specs.Form.{rows};
ghost use Rattle.runs.specs.Run.{FilledAs, Filling, OneAs, filled_at, next_at, run_of, measured};

use wire::form::Form;
use wire::zigzag::Coding;

// What comes in the way of a run: other numbers than were wanted fill its bytes, or a value is out of range.
#[derive(Clone, Copy)]
pub enum Misread {
    Misfit,
    Outside,
}

// The old value at a place, or what an absent one counts as.
fn old_at(old: &[u64], i: usize, base: u64) -> u64
    ensures { result ≡ get_or old.now i base }
{
    if i < old.len() { old[i] } else { base }
}

// The value with the number i, whose varint stands at the place p, and the place after it; or what came in the way.
fn value_at(
    form: Form,
    coding: Coding,
    s: &[u8],
    p: usize,
    end: usize,
    old: &[u64],
    i: usize,
    base: u64,
    bound: u64,
) -> Result<(u64, usize), Misread>
    ensures { result ≡ next_at (rows form) coding base bound old.now s.now p end i }
{
    let (z, next) = wire::varint::read(form, s, p, end).ok_or(Misread::Misfit)?;
    let v = wire::zigzag::reach(coding, old_at(old, i, base), bound, z).ok_or(Misread::Outside)?;
    Ok((v, next))
}

// The value with the number i, if its varint, which stands at the place p, has one byte and the value is in range.
fn one_at(
    form: Form,
    coding: Coding,
    s: &[u8],
    p: usize,
    old: &[u64],
    i: usize,
    bound: u64,
) -> Option<u64>
    requires { (p < length s.now) × (i < length old.now) }
    ensures { (base end : ℕ) → p < end → end ≤ length s.now
        → OneAs (next_at (rows form) coding base bound old.now s.now p end i) p result }
{
    let z = wire::varint::wide(s[p]);
    if wire::form::ones(form) <= z {
        return None;
    }
    wire::zigzag::reach(coding, old[i], bound, z)
}

// Reads the values in front whose varints have one byte, where each of the n has an old value to go by, up to one that is out of range. Gives how many
// it stored. Such a value stands at the place of its number, so nothing but that is kept from one to the next.
fn fill_ones(
    form: Form,
    coding: Coding,
    s: &[u8],
    at: usize,
    end: usize,
    old: &[u64],
    bound: u64,
    out: &mut [u64],
    to: usize,
    n: usize,
) -> usize
    requires { (end ≤ length s.now) × (to + n ≤ length out.old) }
    ensures { ((base : ℕ) → Filling (rows form) coding base bound s.now at end old.now
        out.old to n out.new (at + result) result)
        × (result ≤ end - at) }
{
    if old.len() < n {
        return 0;
    }
    if end <= at {
        return 0;
    }
    if end - at < n {
        return 0;
    }
    for i in 0..n {
        let Some(v) = one_at(form, coding, s, at + i, old, i, bound) else {
            return i;
        };
        out[to + i] = v;
    }
    n
}

// Reads the values from the one with the number i on, whose varint stands at the place p: those before it are stored.
fn fill_rest(
    form: Form,
    coding: Coding,
    s: &[u8],
    p: usize,
    end: usize,
    old: &[u64],
    base: u64,
    bound: u64,
    out: &mut [u64],
    to: usize,
    n: usize,
    i: usize,
) -> Result<(), Misread>
    requires { to + n ≤ length out.old }
    ensures { (at : ℕ) (before : List ℕ)
        → Filling (rows form) coding base bound s.now at end old.now before to n
        out.old p i
        → FilledAs (filled_at (rows form) coding base bound n old.now s.now at end)
        before to result out.new }
{
    let mut at = p;
    for k in i..n {
        let (v, next) = value_at(form, coding, s, at, end, old, k, base, bound)?;
        out[to + k] = v;
        at = next;
    }
    if at < end {
        return Err(Misread::Misfit);
    }
    Ok(())
}

// Reads n values, a varint each, that have to fill the bytes from at to end, and stores them from the word `to` on.
pub fn fill(
    form: Form,
    coding: Coding,
    s: &[u8],
    at: usize,
    end: usize,
    old: &[u64],
    base: u64,
    bound: u64,
    out: &mut [u64],
    to: usize,
    n: usize,
) -> Result<(), Misread>
    requires { to + n ≤ length out.old }
    ensures { FilledAs
        (filled_at (rows form) coding base bound n old.now s.now at end)
        out.old to result out.new }
{
    if s.len() < end {
        return Err(Misread::Misfit);
    }
    let i = fill_ones(form, coding, s, at, end, old, bound, &mut *out, to, n);
    fill_rest(
        form,
        coding,
        s,
        at + i,
        end,
        old,
        base,
        bound,
        out,
        to,
        n,
        i,
    )
}

// The bytes of the run for the new list.
pub fn measure(form: Form, coding: Coding, new: &[u64], old: &[u64], base: u64) -> Option<usize>
    ensures { result ≡ measured (rows form) coding base old.now new.now }
{
    let mut sum = 0;
    for i in 0..new.len() {
        let z = wire::zigzag::code(form, coding, old_at(old, i, base), new[i])?;
        sum += wire::varint::size(form, z);
    }
    Some(sum)
}

// Writes the run for the new list, up to a number too wide, and gives the place after it.
pub fn put(
    form: Form,
    coding: Coding,
    new: &[u64],
    old: &[u64],
    base: u64,
    out: &mut [u8],
    at: usize,
) -> usize
    requires { at + length (run_of (rows form) coding base old.now new.now) ≤ length out.old }
    ensures { Wrote out.old at
        (run_of (rows form) coding base old.now new.now)
        out.new result }
{
    let mut p = at;
    for i in 0..new.len() {
        let Some(z) = wire::zigzag::code(form, coding, old_at(old, i, base), new[i]) else {
            return p;
        };
        p = wire::varint::put(form, out, p, z);
    }
    p
}

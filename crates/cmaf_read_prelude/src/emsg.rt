// The `emsg` boxes: their version, flags and lengths, and the words of their events.
// Letters: `c` a chunk's bytes, `k` how many.
ghost use Rattle.std.specs.Prelude.{◌≡◌, true, ◌+◌, ◌*◌, ◌≤◌, length};
ghost use Rattle.std.proofs.lemmas.List.Edits.{sets};
ghost use Rattle.event_value.specs.Events.{event_words};
ghost use Rattle.cmaf_read_shape.specs.Parts.{Inside};
ghost use Rattle.cmaf_read_prelude.specs.Emsg.{zero_from, emsg_ok, emsgs_ok, box_words, kept_events};

use boxes::kinds;
use byte_parts::Part;
use cmaf_read_shape::parts::{box_at, end_of};
use cmaf_read_tree::numbers;
use event_value::WORDS;

// The place of the first zero byte from a place on, before another; where there is none, the other, or the place itself if that is past it.
fn zero_from(c: &[u8], from: usize, to: usize) -> usize
    requires { to ≤ length c.now }
    ensures { result ≡ zero_from c.now from to }
{
    let mut i = from;
    while i < to {
        if c[i] == 0 {
            return i;
        }
        i += 1;
    }
    i
}

// Version 1, flags 0, all fixed fields, and two strings with their end zeros. The second has its own only where the first has.
fn emsg_ok(c: &[u8], b: Part) -> bool
    requires { Inside c.now b }
    ensures { result ≡ emsg_ok c.now b }
{
    if b.len < 32 {
        return false;
    }
    let end = end_of(b);
    let scheme = zero_from(c, b.at + 32, end);
    let value = zero_from(c, scheme + 1, end);
    (value < end) & (numbers::u32_at(c, b.at + 8) == 0x100_0000)
}

// Whether each of the k `emsg` boxes from the place on is as it must be.
pub fn emsgs_ok(c: &[u8], at: usize, k: usize) -> bool
    requires { at ≤ length c.now }
    ensures { result ≡ emsgs_ok c.now k at }
{
    let mut ok = true;
    let mut p = at;
    for i in 0..k {
        let b = box_at(c, p, c.len(), kinds::EMSG);
        ok = ok & emsg_ok(c, b);
        p = end_of(b);
    }
    ok
}

// Stores words from the place on.
fn store(out: &mut [u64], at: usize, words: &[u64])
    requires { at + length words.now ≤ length out.old }
    ensures out_after { out.new ≡ sets out.old at words.now }
    ensures out_len_unchanged { length out.new ≡ length out.old }
{
    // Counted, as `copy` of `word_spans`: a slice's own copy asks the host for memmove.
    for i in 0..words.len() {
        out[at + i] = words[i];
    }
}

// Keeps an event in the ten words from the place on, in the order of their places: where its texts stand and how long they are, and its numbers as
// the box has them.
fn keep_event(c: &[u8], b: Part, events: &mut [u64], at: usize)
    requires inside { Inside c.now b }
    requires b_value { (emsg_ok c.now b ≡ true) × (at + event_words ≤ length events.old) }
    ensures { events.new ≡ sets events.old at (box_words c.now b) }
{
    let from = b.at + 32;
    let end = end_of(b);
    let scheme = zero_from(c, from, end);
    let value = zero_from(c, scheme + 1, end);
    let words: [u64; WORDS] = [
        from as u64,
        (scheme - from) as u64,
        (scheme + 1) as u64,
        (value - (scheme + 1)) as u64,
        numbers::u32_at(c, b.at + 12),
        numbers::u64_at(c, b.at + 16),
        numbers::u32_at(c, b.at + 24),
        numbers::u32_at(c, b.at + 28),
        (value + 1) as u64,
        (end - (value + 1)) as u64,
    ];
    store(events, at, &words);
}

// Keeps the k events of the `emsg` boxes from the place on, ten words each.
pub fn keep_events(c: &[u8], at: usize, k: usize, events: &mut [u64])
    requires at_in_bounds { (at ≤ length c.now) × (emsgs_ok c.now k at ≡ true) }
    requires k_in_bounds { event_words * k ≤ length events.old }
    ensures { events.new ≡ kept_events c.now k at events.old }
{
    let mut p = at;
    for i in 0..k {
        let b = box_at(c, p, c.len(), kinds::EMSG);
        keep_event(c, b, &mut *events, WORDS * i);
        p = end_of(b);
    }
}

// The `emsg` of each event, from its words and the bytes that they point into.
// Letters: `o` an object's bytes, `k` how many.
ghost use Rattle.std.specs.Prelude.{◌≡◌, List, [], ◌∷◌, ◌++◌, ℕ, ◌+◌, ◌*◌, ◌≤◌, length};
ghost use Rattle.laws.specs.Writes.{Wrote};
ghost use Rattle.constants.specs.Maxima.{events_most};
ghost use Rattle.event_value.specs.Events.{part, event_words, event_at, events_of, Inside, EventFits, EventsFit};
ghost use Rattle.cmaf_write_emsg.specs.Emsg.{emsg_box, emsg_boxes, emsg_head, emsg_most, EventShort, EventsShort};

use boxes::{kinds, put};

// Some of the object's bytes.
fn put_part(o: &[u8], place: usize, size: usize, out: &mut [u8], at: usize) -> usize
    requires inside { Inside o.now place size }
    requires size_in_bounds { at + length (part o.now place size) ≤ length out.old }
    ensures { Wrote out.old at (part o.now place size) out.new result }
{
    put::put_bytes(out, at, &o[place..place + size])
}

// Some of the object's bytes, and a zero.
fn put_string(o: &[u8], place: usize, size: usize, out: &mut [u8], at: usize) -> usize
    requires inside { Inside o.now place size }
    requires size_in_bounds { at + length (part o.now place size ++ (0 ∷ [])) ≤ length out.old }
    ensures { Wrote out.old at (part o.now place size ++ (0 ∷ [])) out.new result }
{
    let a = put_part(o, place, size, out, at);
    put::put_u8(out, a, 0)
}

// The length of the event's `emsg`, whatever the bytes are that its words point into. Here and below the words are those of one event, so that
// they are read at constant places.
fn emsg_length(event: &[u64]) -> usize
    requires { EventShort event.now 0 }
    ensures { ((o : List ℕ) → EventFits o event.now 0
        → result ≡ length (emsg_box (event_at o event.now 0))) × (result ≤ emsg_most) }
{
    let scheme = event[event_value::SCHEME_LENGTH] as usize;
    let value = event[event_value::VALUE_LENGTH] as usize;
    let message = event[event_value::MESSAGE_LENGTH] as usize;
    34 + scheme + value + message
}

// The head of the event's `emsg`, which has so many bytes, and its numbers: all before its strings.
fn put_head(event: &[u64], size: usize, out: &mut [u8], at: usize) -> usize
    requires event_words_in_bounds { event_words ≤ length event.now }
    requires event_in_bounds { at + length (emsg_head size (event_at [] event.now 0)) ≤ length out.old }
    ensures { Wrote out.old at (emsg_head size (event_at [] event.now 0))
        out.new result }
{
    let time = event[event_value::TIME];
    let head: [u64; 8] = [
        size as u64,
        kinds::EMSG,
        0x100_0000,
        event[event_value::TIMESCALE],
        time / 0x1_0000_0000,
        time,
        event[event_value::DURATION],
        event[event_value::ID],
    ];
    put::put_words(out, at, &head)
}

fn put_emsg(o: &[u8], event: &[u64], out: &mut [u8], at: usize) -> usize
    requires event_fits { EventFits o.now event.now 0 }
    requires event_in_bounds { at + length (emsg_box (event_at o.now event.now 0)) ≤ length out.old }
    ensures { Wrote out.old at (emsg_box (event_at o.now event.now 0))
        out.new result }
{
    let a = put_head(event, emsg_length(event), out, at);
    let b = put_string(
        o,
        event[event_value::SCHEME] as usize,
        event[event_value::SCHEME_LENGTH] as usize,
        out,
        a,
    );
    let c = put_string(
        o,
        event[event_value::VALUE] as usize,
        event[event_value::VALUE_LENGTH] as usize,
        out,
        b,
    );
    put_part(
        o,
        event[event_value::MESSAGE] as usize,
        event[event_value::MESSAGE_LENGTH] as usize,
        out,
        c,
    )
}

// The length of the boxes of k events.
pub fn emsgs_length(events: &[u64], k: usize) -> usize
    requires { EventsShort events.now k }
    ensures { ((o : List ℕ) → EventsFit o events.now k
        → result ≡ length (emsg_boxes (events_of o events.now k))) × (result ≤ emsg_most * events_most) }
{
    let mut sum = 0;
    for i in 0..k {
        let from = event_value::WORDS * i;
        sum += emsg_length(&events[from..from + event_value::WORDS]);
    }
    sum
}

pub fn put_emsgs(o: &[u8], events: &[u64], k: usize, out: &mut [u8], at: usize) -> usize
    requires events_fit { EventsFit o.now events.now k }
    requires k_in_bounds { at + length (emsg_boxes (events_of o.now events.now k)) ≤ length out.old }
    ensures { Wrote out.old at (emsg_boxes (events_of o.now events.now k))
        out.new result }
{
    let mut p = at;
    for i in 0..k {
        let from = event_value::WORDS * i;
        p = put_emsg(o, &events[from..from + event_value::WORDS], out, p);
    }
    p
}

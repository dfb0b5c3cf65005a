// The call: one chunk.
ghost use Rattle.std.specs.Prelude.{◌≡◌, ◌≤◌, length, drop};
ghost use Rattle.wire.specs.Form.{rows};
ghost use Rattle.wire.specs.declared.form.Form.TheVariants.{Rfc9000};
ghost use Rattle.field_table.specs.Lines.{set_len};
ghost use Rattle.share_words.specs.Share.{share_len, set_at};
ghost use Rattle.slots.specs.Table.{out, on_table};
ghost use Rattle.answers.specs.Took as T;
ghost use Rattle.answers.specs.Answered.{AnsweredAs, given};
ghost use Rattle.cmaf_read_chunk.specs.Chunks.{ReadAs};
ghost use Rattle.locmaf_write_block.specs.Fields.{Kept};
ghost use Rattle.encoder.specs.Object.{object_of};
ghost use Rattle.encoder.specs.Encode.{wished, encoding, on_open, on_accepted};
ghost use Rattle.encoder.specs.Planned.{Encodable, OnShare, Sendable, Leaves, WrittenAs};

use crate::front;
use crate::front::Plan;
use answers::answer;
use answers::answer::{Answer, Handed};
use cmaf_read_chunk::read::Chunk;
use constants::maxima;
use event_value::ALL_WORDS;
use field_table::lines;
use locmaf_write_block::set::KEPT;
use refusal::Refusal;
use share_words::share;
use share_words::share::SHARE;
use slots::lawful::Side;
use slots::{calls, lawful};
use track::Track;
use wire::form::Form;

// The front into the output, and the reference into the share.
fn write(
    form: Form,
    t: Track,
    a: Plan,
    c: &[u8],
    s: &mut [u64],
    k: Chunk,
    events: &[u64],
    x: &[u64],
    kept: &[usize],
    output: &mut [u8],
) -> Answer
    requires encodable { Encodable (rows form) t s.old c.now k events.now x.now }
    requires sendable { Sendable (rows form) s.old c.now a }
    requires leaves { Leaves t a.delta s.old x.now a.follow }
    requires kept { Kept (rows form) t a.delta a.follow (drop set_at s.old) x.now kept.now }
    requires delta_in_bounds { length (object_of (rows form) s.old c.now a.delta) ≤ length output.old }
    ensures { WrittenAs (rows form) s.old c.now a k x.now output.old
        result output.new s.new }
{
    let n = front::put_front(form, t, a, s, c, k, events, x, kept, output);
    let prft = k.prft;
    let payload = k.payload;
    let sequence = s[share::ACCEPTED];
    reference::keep::keep(&mut *s, a.delta, prft, sequence, x);
    reference::keep::renew(a.delta, payload.len as u64, s);
    Answer {
        front: n as u64,
        payload,
    }
}

// An object, if there is one and there is room for its front. A refusal changes nothing, neither the output nor the share.
fn accept(
    form: Form,
    t: Track,
    wish: bool,
    c: &[u8],
    s: &mut [u64],
    k: Chunk,
    events: &[u64],
    x: &[u64],
    output: &mut [u8],
) -> Result<Answer, Refusal>
    requires { Encodable (rows form) t s.old c.now k events.now x.now }
    ensures { AnsweredAs (on_accepted (rows form) wish c.now output.old s.old)
        c.now result output.new s.new }
{
    let mut kept = [0usize; KEPT];
    let follow = front::follows(t, wish, s, x);
    let Some(a) = front::choose(form, t, wish, follow, s, k, events, x, &mut kept) else {
        return Err(Refusal::NoObject);
    };
    if output.len() < front::front_length(form, a) {
        return Err(Refusal::NoRoom);
    }
    Ok(write(form, t, a, c, s, k, events, x, &kept, output))
}

// A chunk that was read: refused, or acted on. No reference has a BMDT past its maximum, so it is asked whatever the wish.
fn take_read(
    form: Form,
    t: Track,
    wish: bool,
    c: &[u8],
    s: &mut [u64],
    read: Result<Chunk, Refusal>,
    events: &[u64],
    x: &[u64],
    output: &mut [u8],
) -> Result<Answer, Refusal>
    requires on_share { OnShare (rows form) t s.old c.now }
    requires read_as { ReadAs (rows form) t c.now read events.now x.now }
    requires x_len { length x.now ≡ set_len }
    ensures { AnsweredAs (on_open (rows form) wish c.now output.old s.old)
        c.now result output.new s.new }
{
    let k = read?;
    if maxima::NUMBER < x[lines::BMDT] {
        return Err(Refusal::NoObject);
    }
    accept(form, t, wish, c, s, k, events, x, output)
}

// A chunk on an open share.
fn take_chunk(
    form: Form,
    t: Track,
    wish: bool,
    c: &[u8],
    s: &mut [u64],
    output: &mut [u8],
) -> Result<Answer, Refusal>
    requires { OnShare (rows form) t s.old c.now }
    ensures { AnsweredAs (on_open (rows form) wish c.now output.old s.old)
        c.now result output.new s.new }
{
    // the words of the events, and behind them those of the set: together they are cleared at once
    let mut words = [0u64; ALL_WORDS + lines::SET];
    let read = cmaf_read_chunk::read::read_chunk(form, t, c, &mut words);
    let w = &words[..];
    take_read(
        form,
        t,
        wish,
        c,
        s,
        read,
        &w[..ALL_WORDS],
        &w[ALL_WORDS..],
        output,
    )
}

// A chunk on a share.
fn take_share(
    form: Form,
    wish: bool,
    c: &[u8],
    s: &mut [u64],
    output: &mut [u8],
) -> Result<Answer, Refusal>
    requires { length s.old ≡ share_len }
    ensures { AnsweredAs (encoding (rows form) wish c.now output.old s.old)
        c.now result output.new s.new }
{
    calls::open_in(Side::Encoder, s)?;
    let t = lawful::track_of(s);
    take_chunk(form, t, wish, c, s, output)
}

// A chunk on a table.
fn take_table(
    table: &mut [u64],
    slot: u64,
    wish: bool,
    c: &[u8],
    output: &mut [u8],
) -> Result<Answer, Refusal>
    ensures { AnsweredAs
        (on_table (T.refused output.old)
        (encoding (rows Rfc9000) wish c.now output.old) table.old slot)
        c.now result output.new table.new }
{
    let at = calls::place_in(table, slot)?;
    take_share(Form::Rfc9000, wish, c, &mut table[at..at + SHARE], output)
}

// One chunk into the front of an object: the front's length, and the payload as the part of the chunk that it is. The wish 0 is for a full object, any
// other for a delta.
pub fn encode<'a>(
    table: &mut [u64],
    slot: u64,
    wish: u64,
    chunk: &'a [u8],
    output: &mut [u8],
) -> Result<Handed<'a>, Refusal>
    ensures { out (given result output.new) table.new
        ≡ on_table (T.refused output.old)
        (encoding (rows Rfc9000) (wished wish) chunk.now output.old)
        table.old slot }
{
    let a = take_table(table, slot, wish != 0, chunk, output)?;
    Ok(answer::hand_out(a, chunk))
}

// The call: one object.
ghost use Rattle.std.specs.Prelude.{◌≡◌, List, ℕ, length, Ok};
ghost use Rattle.wire.specs.declared.form.Row.{Row};
ghost use Rattle.wire.specs.Form.{rows};
ghost use Rattle.wire.specs.declared.form.Form.TheVariants.{Rfc9000};
ghost use Rattle.refusal.specs.Numbers.{number_of};
ghost use Rattle.share_words.specs.Share.{share_len};
ghost use Rattle.slots.specs.Table.{out, on_table};
ghost use Rattle.answers.specs.Took.{refused};
ghost use Rattle.answers.specs.Answered.{AnsweredAs, given};
ghost use Rattle.receiver.specs.Receive.{refusing, done, written, taken, receiving};
ghost use Rattle.receiver.specs.Judge.{Judgeable, Decided, Acceptable, Roomy};
ghost use Rattle.receiver.specs.Opened.{OpenedAs};

use crate::judge;
use crate::judge::Judged;
use answers::answer::{Answer, Handed};
use answers::{answer, room};
use byte_parts::Part;
use cmaf_write_front::front::{front_length, put_front};
use event_value::ALL_WORDS;
use field_table::lines;
use locmaf_read_head::head::Place;
use refusal::Refusal;
use share_words::share;
use share_words::share::SHARE;
use slots::lawful;
use slots::lawful::Side;
use track::Track;
use wire::form::Form;

// A refusal: 12 to 16 and 21 drop the reference, every other changes nothing. Whatever the output holds, it stays.
fn refuse(s: &mut [u64], r: Refusal) -> Result<Answer, Refusal>
    requires { length s.old ≡ share_len }
    ensures { (o output : List ℕ)
        → AnsweredAs (refusing output s.old (number_of r)) o result output s.new }
{
    answers::refusals::leave(r.number(), s);
    Err(r)
}

// The front into the output, and the reference into the share. As in `judge_values`, no form is asked for.
fn write(
    t: Track,
    p: Place,
    o: &[u8],
    s: &mut [u64],
    j: Judged,
    list: &[u64],
    x: &[u64],
    names: &[u8],
    need: usize,
    output: &mut [u8],
) -> Answer
    requires { (F : List Row) × Roomy F o.now s.old t p j list.now x.now names.now need output.old }
    ensures { (F : List Row)
        → Roomy F o.now s.old t p j list.now x.now names.now need
        output.old
        → AnsweredAs (done F o.now output.old s.old)
        o.now (Ok result) output.new s.new }
{
    let prft = j.prft;
    let end = p.end;
    let payload = (o.len() - end) as u64;
    let count = (s[share::ACCEPTED] + 1) % 4294967296;
    let n = put_front(
        t,
        count,
        x,
        payload,
        prft,
        o,
        list,
        j.events,
        names,
        need,
        &mut *output,
    );
    reference::keep::keep(&mut *s, p.delta, prft, count, x);
    reference::keep::renew(p.delta, payload, s);
    Answer {
        front: n as u64,
        payload: Part {
            at: end,
            len: payload as usize,
        },
    }
}

// It is written if there is room for it.
fn accept(
    t: Track,
    p: Place,
    o: &[u8],
    s: &mut [u64],
    j: Judged,
    list: &[u64],
    x: &[u64],
    output: &mut [u8],
) -> Result<Answer, Refusal>
    requires { (F : List Row) × Acceptable F o.now s.old t p j list.now x.now }
    ensures { (F : List Row)
        → Acceptable F o.now s.old t p j list.now x.now
        → AnsweredAs (written F o.now output.old s.old)
        o.now result output.new s.new }
{
    let from = j.brands.at;
    let to = from + j.brands.len;
    let prft = j.prft;
    let names = &o[from..to];
    let need = front_length(t, x, prft, list, j.events, names);
    if !room::has_room(need, output.len()) {
        return refuse(s, Refusal::NoRoom);
    }
    Ok(write(t, p, o, s, j, list, x, names, need, output))
}

// An object that was judged: refused, or acted on.
fn take_judged(
    t: Track,
    p: Place,
    o: &[u8],
    s: &mut [u64],
    judged: Result<Judged, Refusal>,
    list: &[u64],
    x: &[u64],
    output: &mut [u8],
) -> Result<Answer, Refusal>
    requires { (F : List Row) × Decided F o.now s.old t p judged list.now x.now }
    ensures { (F : List Row)
        → Decided F o.now s.old t p judged list.now x.now
        → AnsweredAs (taken F o.now output.old s.old)
        o.now result output.new s.new }
{
    match judged {
        Err(r) => refuse(s, r),
        Ok(j) => accept(t, p, o, s, j, list, x, output),
    }
}

// An object with its head read, on an open share.
fn take_block(
    form: Form,
    t: Track,
    p: Place,
    o: &[u8],
    s: &mut [u64],
    output: &mut [u8],
) -> Result<Answer, Refusal>
    requires { Judgeable (rows form) o.now s.old t p }
    ensures { AnsweredAs (taken (rows form) o.now output.old s.old)
        o.now result output.new s.new }
{
    // the words of the events, and behind them those of the set: together they are cleared at once
    let mut words = [0u64; ALL_WORDS + lines::SET];
    let j = judge::judge(form, t, o, p, s, &mut words);
    let w = &words[..];
    take_judged(t, p, o, s, j, &w[..ALL_WORDS], &w[ALL_WORDS..], output)
}

// All that is asked before the block is read: the share, the head, and whether there is a reference for a delta.
fn opened(form: Form, o: &[u8], s: &[u64]) -> Result<Place, Refusal>
    requires { length s.now ≡ share_len }
    ensures { OpenedAs (rows form) o.now s.now result }
{
    if !lawful::is_lawful(Side::Receiver, s) {
        return Err(Refusal::UnlawfulTable);
    }
    if s[share::TRACK] == 0 {
        return Err(Refusal::NotOpen);
    }
    let p = locmaf_read_head::head::head_of(form, o)?;
    if p.delta & (s[share::HELD] == 0) {
        return Err(Refusal::NoReference);
    }
    Ok(p)
}

// An object on a share: what comes before the block first, then the block.
fn take_share(form: Form, o: &[u8], s: &mut [u64], output: &mut [u8]) -> Result<Answer, Refusal>
    requires { length s.old ≡ share_len }
    ensures { AnsweredAs (receiving (rows form) o.now output.old s.old)
        o.now result output.new s.new }
{
    match opened(form, o, s) {
        Err(r) => refuse(s, r),
        Ok(p) => {
            let t = lawful::track_of(s);
            take_block(form, t, p, o, s, output)
        }
    }
}

// An object on a share, with the payload handed out as the part of the object that it is.
fn take_object<'a>(
    form: Form,
    o: &'a [u8],
    s: &mut [u64],
    output: &mut [u8],
) -> Result<Handed<'a>, Refusal>
    requires { length s.old ≡ share_len }
    ensures { out (given result output.new) s.new
        ≡ receiving (rows form) o.now output.old s.old }
{
    let a = take_share(form, o, s, output)?;
    Ok(answer::hand_out(a, o))
}

// One object into the front of a chunk: the front's length, and the payload as the part of the object that it is.
pub fn receive<'a>(
    table: &mut [u64],
    slot: u64,
    object: &'a [u8],
    output: &mut [u8],
) -> Result<Handed<'a>, Refusal>
    ensures { out (given result output.new) table.new
        ≡ on_table (refused output.old)
        (receiving (rows Rfc9000) object.now output.old)
        table.old slot }
{
    let at = slots::calls::place_in(table, slot)?;
    take_object(Form::Rfc9000, object, &mut table[at..at + SHARE], output)
}

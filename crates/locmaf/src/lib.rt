// The codec as programs in C call it, which `locmaf_c` exports: each call with its name in include/locmaf.h. A part of the lent bytes can't be handed
// over, so its length is: the payload is the tail of the object or the chunk, and none on a refusal.
#![tactic(auto)]

ghost use Rattle.std.specs.Prelude.{◌≡◌, ℕ, List};
ghost use Rattle.refusal.specs.Numbers.{number_in};
ghost use Rattle.answers.specs.Answered.{given};
ghost use Rattle.wire.specs.Form.{rows};
ghost use Rattle.wire.specs.declared.form.Form.TheVariants.{Rfc9000};
ghost use Rattle.slots.specs.declared.lawful.Side.TheVariants.{Encoder, Receiver};
ghost use Rattle.slots.specs.Share.{asked};
ghost use Rattle.share_words.specs.Share.{table_len};
ghost use Rattle.slots.specs.Table.{out, on_table, itself};
ghost use Rattle.slots.specs.Calls.{opening, closing, grouping};
ghost use Rattle.answers.specs.Took.{refused};
ghost use Rattle.encoder.specs.Encode.{wished, encoding};
ghost use Rattle.receiver.specs.Receive.{receiving};
ghost use Rattle.locmaf.specs.Told.{told, tell};

use answers::answer;
use answers::answer::Handed;
use refusal::{Refusal, number_in};
use slots::lawful::Side;

// The number and the front's length as C gets them; and the length of the part of the lent bytes that is handed back.
fn told_to<'a>(
    r: Result<Handed<'a>, Refusal>,
    lent: &'a [u8],
    number: &mut u64,
    front: &mut u64,
) -> u64
    ensures { (output table : List ℕ)
        → told number.new front.new result output table ≡ tell (out (given r.entry output) table) }
{
    *number = number_in(&r);
    *front = match r {
        Ok(h) => h.front,
        Err(_) => 0,
    };
    answer::payload_of(&r, lent).len() as u64
}

// ---- the encoder

// The words of a whole table.
pub fn locmaf_encoder_words() -> u64
    ensures { result ≡ table_len }
{
    share_words::share::TABLE as u64
}

// Opens a slot on a track. The number is 0, or why nothing was changed.
pub fn locmaf_encoder_open(
    table: &mut [u64],
    slot: u64,
    track: u64,
    timescale: u64,
    description: u64,
    duration: u64,
    size: u64,
    flags: u64,
    protection: u64,
    iv_size: u64,
) -> u64
    ensures { out result table.new
        ≡ on_table itself (opening Encoder (asked track timescale description duration size flags protection iv_size))
        table.old slot }
{
    number_in(&slots::calls::open(
        Side::Encoder,
        table,
        slot,
        track,
        timescale,
        description,
        duration,
        size,
        flags,
        protection,
        iv_size,
    ))
}

// Closes a slot: its share becomes 0.
pub fn locmaf_encoder_close(table: &mut [u64], slot: u64) -> u64
    ensures { out result table.new ≡ on_table itself (closing Encoder) table.old slot }
{
    number_in(&slots::calls::close(Side::Encoder, table, slot))
}

// Starts a group in a slot: the reference is dropped.
pub fn locmaf_encoder_start_group(table: &mut [u64], slot: u64) -> u64
    ensures { out result table.new ≡ on_table itself (grouping Encoder) table.old slot }
{
    number_in(&slots::calls::start_group(Side::Encoder, table, slot))
}

// One chunk into the front of an object: the length of its payload. The wish 0 is for a full object, any other for a delta.
pub fn locmaf_encode(
    table: &mut [u64],
    slot: u64,
    wish: u64,
    chunk: &[u8],
    output: &mut [u8],
    number: &mut u64,
    front: &mut u64,
) -> u64
    ensures { told number.new front.new result output.new table.new
        ≡ tell (on_table (refused output.old)
        (encoding (rows Rfc9000) (wished wish) chunk.now output.old)
        table.old slot) }
{
    let r = encoder::encode::encode(table, slot, wish, chunk, output);
    told_to(r, chunk, number, front)
}

// ---- the receiver

// The words of a whole table.
pub fn locmaf_receiver_words() -> u64
    ensures { result ≡ table_len }
{
    share_words::share::TABLE as u64
}

// Opens a slot on a track. The number is 0, or why nothing was changed.
pub fn locmaf_receiver_open(
    table: &mut [u64],
    slot: u64,
    track: u64,
    timescale: u64,
    description: u64,
    duration: u64,
    size: u64,
    flags: u64,
    protection: u64,
    iv_size: u64,
) -> u64
    ensures { out result table.new
        ≡ on_table itself (opening Receiver (asked track timescale description duration size flags protection iv_size))
        table.old slot }
{
    number_in(&slots::calls::open(
        Side::Receiver,
        table,
        slot,
        track,
        timescale,
        description,
        duration,
        size,
        flags,
        protection,
        iv_size,
    ))
}

// Closes a slot: its share becomes 0.
pub fn locmaf_receiver_close(table: &mut [u64], slot: u64) -> u64
    ensures { out result table.new ≡ on_table itself (closing Receiver) table.old slot }
{
    number_in(&slots::calls::close(Side::Receiver, table, slot))
}

// Starts a group in a slot: the reference is dropped.
pub fn locmaf_receiver_start_group(table: &mut [u64], slot: u64) -> u64
    ensures { out result table.new ≡ on_table itself (grouping Receiver) table.old slot }
{
    number_in(&slots::calls::start_group(Side::Receiver, table, slot))
}

// One object into the front of a chunk: the length of its payload.
pub fn locmaf_receive(
    table: &mut [u64],
    slot: u64,
    object: &[u8],
    output: &mut [u8],
    number: &mut u64,
    front: &mut u64,
) -> u64
    ensures { told number.new front.new result output.new table.new
        ≡ tell (on_table (refused output.old)
        (receiving (rows Rfc9000) object.now output.old)
        table.old slot) }
{
    let r = receiver::receive::receive(table, slot, object, output);
    told_to(r, object, number, front)
}

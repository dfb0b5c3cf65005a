// The exports of the C library: each is the function of `locmaf` with its name, under the same contract.
#![tactic(auto)]

ghost use Rattle.std.specs.Prelude.{◌≡◌};
ghost use Rattle.wire.specs.Form.{rows};
ghost use Rattle.wire.specs.declared.form.Form.TheVariants.{Rfc9000};
ghost use Rattle.slots.specs.declared.lawful.Side.TheVariants.{Encoder, Receiver};
ghost use Rattle.slots.specs.Share.{asked};
ghost use Rattle.share_words.specs.Share.{table_len};
ghost use Rattle.slots.specs.Table.{out, on_table, itself};
ghost use Rattle.slots.specs.Calls.{opening, closing, grouping};
ghost use Rattle.answers.specs.Took.{refused};
ghost use Rattle.encoder.specs.Encode.{wished, encoding};
ghost use Rattle.receiver.specs.Receive.{receiving};
ghost use Rattle.locmaf.specs.Told.{told, tell};

// ---- the encoder

// The words of a whole table.
#[unsafe(no_mangle)]
pub extern "C" fn locmaf_encoder_words() -> u64
    ensures { result ≡ table_len }
{
    locmaf::locmaf_encoder_words()
}

// Opens a slot on a track. The number is 0, or why nothing was changed.
#[unsafe(no_mangle)]
pub extern "C" fn locmaf_encoder_open(
    table: &mut [u64],
    slot: u64,
    track: u64,
    timescale: u64,
    description: u64,
    duration: u64,
    size: u64,
    flags: u64,
    protection: u64,
    iv_size: u64,
) -> u64
    ensures { out result table.new
        ≡ on_table itself (opening Encoder (asked track timescale description duration size flags protection iv_size))
        table.old slot }
{
    locmaf::locmaf_encoder_open(
        table,
        slot,
        track,
        timescale,
        description,
        duration,
        size,
        flags,
        protection,
        iv_size,
    )
}

// Closes a slot: its share becomes 0.
#[unsafe(no_mangle)]
pub extern "C" fn locmaf_encoder_close(table: &mut [u64], slot: u64) -> u64
    ensures { out result table.new ≡ on_table itself (closing Encoder) table.old slot }
{
    locmaf::locmaf_encoder_close(table, slot)
}

// Starts a group in a slot: the reference is dropped.
#[unsafe(no_mangle)]
pub extern "C" fn locmaf_encoder_start_group(table: &mut [u64], slot: u64) -> u64
    ensures { out result table.new ≡ on_table itself (grouping Encoder) table.old slot }
{
    locmaf::locmaf_encoder_start_group(table, slot)
}

// One chunk into the front of an object: the length of its payload. The wish 0 is for a full object, any other for a delta.
#[unsafe(no_mangle)]
pub extern "C" fn locmaf_encode(
    table: &mut [u64],
    slot: u64,
    wish: u64,
    chunk: &[u8],
    output: &mut [u8],
    number: &mut u64,
    front: &mut u64,
) -> u64
    ensures { told number.new front.new result output.new table.new
        ≡ tell (on_table (refused output.old)
        (encoding (rows Rfc9000) (wished wish) chunk.now output.old)
        table.old slot) }
{
    locmaf::locmaf_encode(table, slot, wish, chunk, output, number, front)
}

// ---- the receiver

// The words of a whole table.
#[unsafe(no_mangle)]
pub extern "C" fn locmaf_receiver_words() -> u64
    ensures { result ≡ table_len }
{
    locmaf::locmaf_receiver_words()
}

// Opens a slot on a track. The number is 0, or why nothing was changed.
#[unsafe(no_mangle)]
pub extern "C" fn locmaf_receiver_open(
    table: &mut [u64],
    slot: u64,
    track: u64,
    timescale: u64,
    description: u64,
    duration: u64,
    size: u64,
    flags: u64,
    protection: u64,
    iv_size: u64,
) -> u64
    ensures { out result table.new
        ≡ on_table itself (opening Receiver (asked track timescale description duration size flags protection iv_size))
        table.old slot }
{
    locmaf::locmaf_receiver_open(
        table,
        slot,
        track,
        timescale,
        description,
        duration,
        size,
        flags,
        protection,
        iv_size,
    )
}

// Closes a slot: its share becomes 0.
#[unsafe(no_mangle)]
pub extern "C" fn locmaf_receiver_close(table: &mut [u64], slot: u64) -> u64
    ensures { out result table.new ≡ on_table itself (closing Receiver) table.old slot }
{
    locmaf::locmaf_receiver_close(table, slot)
}

// Starts a group in a slot: the reference is dropped.
#[unsafe(no_mangle)]
pub extern "C" fn locmaf_receiver_start_group(table: &mut [u64], slot: u64) -> u64
    ensures { out result table.new ≡ on_table itself (grouping Receiver) table.old slot }
{
    locmaf::locmaf_receiver_start_group(table, slot)
}

// One object into the front of a chunk: the length of its payload.
#[unsafe(no_mangle)]
pub extern "C" fn locmaf_receive(
    table: &mut [u64],
    slot: u64,
    object: &[u8],
    output: &mut [u8],
    number: &mut u64,
    front: &mut u64,
) -> u64
    ensures { told number.new front.new result output.new table.new
        ≡ tell (on_table (refused output.old)
        (receiving (rows Rfc9000) object.now output.old)
        table.old slot) }
{
    locmaf::locmaf_receive(table, slot, object, output, number, front)
}

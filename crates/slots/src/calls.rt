// The calls that open a slot, close it and start a group in it, for an encoder's table and for a receiver's.
ghost use Rattle.std.specs.Prelude.{◌≡◌, ◌+◌, ◌≤◌, IfOk, length};
ghost use Rattle.refusal.specs.Numbers.{number_in, numbered};
ghost use Rattle.share_words.specs.Share.{share_len};
ghost use Rattle.slots.specs.Share.{asked};
ghost use Rattle.slots.specs.Table.{out, on_table, itself, place_in};
ghost use Rattle.slots.specs.Calls.{open_in, opening, closing, grouping};

use crate::lawful;
use crate::lawful::Side;
use refusal::Refusal;
use share_words::share;
use share_words::share::{SHARE, TABLE};
use track::Asked;

// Where the share of a slot starts in a table.
pub fn place_in(table: &[u64], slot: u64) -> Result<usize, Refusal>
    ensures place { numbered result ≡ place_in table.now slot }
    ensures inside { IfOk result (λ at. at + share_len ≤ length table.now) }
{
    if table.len() != TABLE {
        return Err(Refusal::UnlawfulTable);
    }
    if 7 < slot {
        return Err(Refusal::NoSuchSlot);
    }
    Ok(share::start_of(slot))
}

// That the slot of a share is open.
pub fn open_in(side: Side, s: &[u64]) -> Result<(), Refusal>
    requires { length s.now ≡ share_len }
    ensures { numbered result ≡ open_in side s.now }
{
    if !lawful::is_lawful(side, s) {
        return Err(Refusal::UnlawfulTable);
    }
    if s[share::TRACK] == 0 {
        return Err(Refusal::NotOpen);
    }
    Ok(())
}

fn open_share(side: Side, s: &mut [u64], a: Asked) -> Result<(), Refusal>
    requires { length s.old ≡ share_len }
    ensures { out (number_in result) s.new ≡ opening side a s.old }
{
    if !lawful::is_lawful(side, s) {
        return Err(Refusal::UnlawfulTable);
    }
    if s[share::TRACK] != 0 {
        return Err(Refusal::AlreadyOpen);
    }
    if !track::is_lawful(a) {
        return Err(Refusal::BadParameters);
    }
    lawful::write_asked(s, a);
    Ok(())
}

fn close_share(side: Side, s: &mut [u64]) -> Result<(), Refusal>
    requires { length s.old ≡ share_len }
    ensures { out (number_in result) s.new ≡ closing side s.old }
{
    open_in(side, s)?;
    share::wipe(s);
    Ok(())
}

fn group_share(side: Side, s: &mut [u64]) -> Result<(), Refusal>
    requires { length s.old ≡ share_len }
    ensures { out (number_in result) s.new ≡ grouping side s.old }
{
    open_in(side, s)?;
    share::drop_reference(s);
    Ok(())
}

// Opens a slot on a track. A refusal changes nothing, here and in the other calls.
pub fn open(
    side: Side,
    table: &mut [u64],
    slot: u64,
    track: u64,
    timescale: u64,
    description: u64,
    duration: u64,
    size: u64,
    flags: u64,
    protection: u64,
    iv_size: u64,
) -> Result<(), Refusal>
    ensures { out (number_in result) table.new
        ≡ on_table itself
        (opening side (asked track timescale description duration size flags protection iv_size))
        table.old slot }
{
    let at = place_in(table, slot)?;
    let a = Asked {
        track,
        timescale,
        description,
        duration,
        size,
        flags,
        protection,
        iv_size,
    };
    open_share(side, &mut table[at..at + SHARE], a)
}

// Closes a slot: its share becomes 0.
pub fn close(side: Side, table: &mut [u64], slot: u64) -> Result<(), Refusal>
    ensures { out (number_in result) table.new ≡ on_table itself (closing side) table.old slot }
{
    let at = place_in(table, slot)?;
    close_share(side, &mut table[at..at + SHARE])
}

// Starts a group in a slot: the reference is dropped.
pub fn start_group(side: Side, table: &mut [u64], slot: u64) -> Result<(), Refusal>
    ensures { out (number_in result) table.new ≡ on_table itself (grouping side) table.old slot }
{
    let at = place_in(table, slot)?;
    group_share(side, &mut table[at..at + SHARE])
}

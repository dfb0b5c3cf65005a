// A slot's share of the table: parameters, the count of accepted objects, and the reference with the current full object's prft.
// Letters: `s` the words of a share.
ghost use Rattle.std.specs.Prelude.{◌≡◌, ◌≤◌, ◌-◌, ◌*◌, ◌++◌, length, take, drop, replicate};
ghost use Rattle.share_words.specs.Share.{share_len, fresh, dropped};

use field_table::lines;

// The places of a share's words: the eight parameters from TRACK on, the accepted objects, the mark of the reference, the mark and the
// fields of the current full object's prft, the two words of the BMDT that is expected, the last sample's protected bytes, and the set of moof fields.
pub const TRACK: usize = 0;

pub const TIMESCALE: usize = 1;

pub const DESCRIPTION: usize = 2;

pub const DURATION: usize = 3;

pub const SIZE: usize = 4;

pub const FLAGS: usize = 5;

pub const PROTECTION: usize = 6;

pub const IV_SIZE: usize = 7;

pub const ACCEPTED: usize = 8;

pub const HELD: usize = 9;

pub const PRFT: usize = 10;

pub const NTP: usize = 11;

pub const MEDIA_TIME: usize = 12;

pub const VERSION: usize = 13;

pub const PRFT_FLAGS: usize = 14;

// Behind the words of the prft.
pub const PRFT_END: usize = 15;

pub const PAST: usize = 15;

pub const EXPECTED: usize = 16;

// The protected bytes of the reference's last sample.
pub const LAST: usize = 17;

pub const SET: usize = 18;

// The words of a share.
pub const SHARE: usize = SET + lines::SET;

// The slots of a table, and its words.
pub const SLOTS: usize = 8;

pub const TABLE: usize = SLOTS * SHARE;

// Where the share of a slot starts.
pub fn start_of(slot: u64) -> usize
    requires { slot ≤ 7 }
    ensures { result ≡ slot * share_len }
{
    slot as usize * SHARE
}

// The reference is dropped, with all that belongs to it.
pub fn drop_reference(s: &mut [u64])
    requires { length s.old ≡ share_len }
    ensures { s.new ≡ dropped s.old }
{
    s[HELD..SHARE].fill(0);
}

// The whole share becomes 0.
pub fn wipe(s: &mut [u64])
    requires { length s.old ≡ share_len }
    ensures { s.new ≡ fresh }
{
    s[TRACK..SHARE].fill(0);
}

// What a field's numbers go by, whether they are read or written.
// Letters: `t` the track.
ghost use Rattle.std.specs.Prelude.{◌≡◌};
ghost use Rattle.field_table.specs.Lines.{absent_value};
ghost use Rattle.field_rules.specs.Fields.{coding_for, coding_of, is_ivs};

use field_table::lines::{Absent, Want};
use track::Track;
use wire::zigzag::Coding;

// What an absent value counts as on the track.
pub fn absent_value(t: Track, absent: Absent) -> u64
    ensures { result ≡ absent_value t absent }
{
    match absent {
        Absent::Zero => 0,
        Absent::Middle => 0x8000_0000,
        Absent::Description => t.description as u64,
        Absent::Duration => t.duration as u64,
        Absent::Size => t.size as u64,
        Absent::Flags => t.flags as u64,
        Absent::IvSize => t.iv_size as u64,
    }
}

// How the numbers of an object stand.
pub fn coding_for(delta: bool) -> Coding
    ensures { result ≡ coding_for delta }
{
    if delta {
        return Coding::Delta;
    }
    Coding::Plain
}

// How a field's numbers stand: composition offsets are zigzag in full objects too.
pub fn coding_of(coding: Coding, absent: Absent) -> Coding
    ensures { result ≡ coding_of coding absent }
{
    match absent {
        Absent::Middle => Coding::Delta,
        Absent::Zero
        | Absent::Description
        | Absent::Duration
        | Absent::Size
        | Absent::Flags
        | Absent::IvSize => coding,
    }
}

// The same by the kind of object.
pub fn field_coding(delta: bool, absent: Absent) -> Coding
    ensures { result ≡ coding_of (coding_for delta) absent }
{
    coding_of(coding_for(delta), absent)
}

// The IVs are bytes as they are, never omitted where they stand, and never carried.
pub fn is_ivs(want: Want) -> bool
    ensures { result ≡ is_ivs want }
{
    match want {
        Want::Ivs => true,
        Want::One | Want::LessOne | Want::Count | Want::Sum => false,
    }
}

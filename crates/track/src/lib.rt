// What a track is opened with.
// Letters: `a` the parameters as asked.
#![tactic(auto)]

ghost use Rattle.std.specs.Prelude.{◌≡◌, true};
ghost use Rattle.track.specs.Track.{iv_ok, lawful, narrow};

// The parameters as a host asks for them: any numbers.
#[derive(Clone, Copy)]
pub struct Asked {
    pub track: u64,
    pub timescale: u64,
    pub description: u64,
    pub duration: u64,
    pub size: u64,
    pub flags: u64,
    pub protection: u64,
    pub iv_size: u64,
}

// The parameters of an open track, each in its range.
#[derive(Clone, Copy)]
pub struct Track {
    pub id: u32,
    pub timescale: u32,
    pub description: u32,
    pub duration: u32,
    pub size: u32,
    pub flags: u8,
    pub protection: u8,
    pub iv_size: u8,
}

const U5: u64 = 31;

const U32: u64 = 0xffff_ffff;

// What `protection` may be.
pub const NONE: u64 = 0;

pub const CENC: u64 = 1;

pub const CBCS: u64 = 2;

fn iv_ok(protection: u64, iv_size: u64) -> bool
    ensures { result ≡ iv_ok protection iv_size }
{
    ((protection == CENC) & ((iv_size == 8) | (iv_size == 16)))
        | (((protection == NONE) | (protection == CBCS)) & (iv_size == 0))
}

// Whether the parameters are those of a track.
pub fn is_lawful(a: Asked) -> bool
    ensures { result ≡ lawful a }
{
    ((1 <= a.track) & (a.track <= U32))
        & (((1 <= a.timescale) & (a.timescale <= U32))
            & (((1 <= a.description) & (a.description <= U32))
                & ((a.duration <= U32)
                    & ((a.size <= U32) & ((a.flags <= U5) & iv_ok(a.protection, a.iv_size))))))
}

// The parameters cast down, once they are known to be in range.
pub fn narrowed(a: Asked) -> Track
    requires { lawful a ≡ true }
    ensures { result ≡ narrow a }
{
    Track {
        id: a.track as u32,
        timescale: a.timescale as u32,
        description: a.description as u32,
        duration: a.duration as u32,
        size: a.size as u32,
        flags: a.flags as u8,
        protection: a.protection as u8,
        iv_size: a.iv_size as u8,
    }
}

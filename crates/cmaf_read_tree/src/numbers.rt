// The number that some bytes at a place spell, the highest first. A width is the one before and what follows, so that one law serves all.
// Letters: `b` bytes.
ghost use Rattle.std.specs.Prelude.{◌≡◌, ◌+◌, ◌^◌, ◌≤◌, ◌<◌, length};
ghost use Rattle.std.proofs.Math.Seq.{slice};
ghost use Rattle.laws.specs.Bytes.{de};

pub fn u8_at(b: &[u8], at: usize) -> u64
    requires { at + 1 ≤ length b.now }
    ensures { (result ≡ de (slice at (at + 1) b.now)) × (result < 2 ^ 8) }
{
    b[at] as u64
}

pub fn u16_at(b: &[u8], at: usize) -> u64
    requires { at + 2 ≤ length b.now }
    ensures { (result ≡ de (slice at (at + 2) b.now)) × (result < 2 ^ 16) }
{
    u8_at(b, at) * 256 + u8_at(b, at + 1)
}

pub fn u32_at(b: &[u8], at: usize) -> u64
    requires { at + 4 ≤ length b.now }
    ensures { (result ≡ de (slice at (at + 4) b.now)) × (result < 2 ^ 32) }
{
    u16_at(b, at) * 65536 + u16_at(b, at + 2)
}

// Byte by byte: of this loop the compiler makes one load, of two halves it doesn't.
pub fn u64_at(b: &[u8], at: usize) -> u64
    requires { at + 8 ≤ length b.now }
    ensures { result ≡ de (slice at (at + 8) b.now) }
{
    let mut v = 0;
    for i in 0..8 {
        v = v * 256 + u8_at(b, at + i);
    }
    v
}

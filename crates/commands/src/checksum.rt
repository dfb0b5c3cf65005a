// A number that changes with every byte and its place.
// Letters: `s` bytes that are read, `n` how many.
ghost use Rattle.std.specs.Prelude.{◌≡◌};
ghost use Rattle.commands.specs.Checksum.{checksum_of};

// Of the first so many bytes; each step multiplies by 65,599 and adds a byte, below 2^40. 0 where there are fewer.
pub fn checksum(s: &[u8], n: usize) -> u64
    ensures { result ≡ checksum_of s.now n }
{
    if s.len() < n {
        return 0;
    }
    let mut h = 1;
    for i in 0..n {
        h = (h * 65599 + s[i] as u64) % 0x100_0000_0000;
    }
    h
}

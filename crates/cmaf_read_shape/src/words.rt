// Version and flags of a box as one word of 32 bits, the version in its highest byte.
ghost use Rattle.std.specs.Prelude.{◌≡◌, ◌<◌};
ghost use Rattle.cmaf_read_shape.specs.Words.{bit_of};

// 1 where the word has the flag, a power of 2.
pub fn bit(word: u64, flag: u64) -> u64
    requires { 0 < flag }
    ensures { (result ≡ bit_of word flag) × (result < 2) }
{
    word / flag % 2
}
